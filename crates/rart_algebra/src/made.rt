//! What becomes of a node.
ghost use Rattle.std.specs.Prelude.{◌≡◌, IfOk};
ghost use Rattle.std.specs.Option.{option_map};
ghost use Rattle.rart_node.specs.Seen.{shape_of};
ghost use Rattle.rart_algebra.specs.Parts.{shape_made};

use rart_below::Partial;
use rart_node::NodeRef;
use std::alloc::AllocError;

/// What becomes of all that a node of the left tree has.
#[derive(Drop)]
pub(crate) enum Made<P: Partial, V> {
    /// It stays as it is.
    Same,
    /// No key is left.
    Nothing,
    /// This takes its place.
    Node(NodeRef<P, V>),
}

/// A root for what a root becomes, or `None` where no key is left.
pub(crate) fn root_of<P: Partial, V: Drop>(
    left: &NodeRef<P, V>,
    made: Made<P, V>,
) -> Result<Option<NodeRef<P, V>>, AllocError>
    ensures { IfOk result (λ it. option_map shape_of it ≡ shape_made left.now.shape made) }
{
    match made {
        Made::Same => Ok(Some(left.copy()?)),
        Made::Nothing => Ok(None),
        Made::Node(node) => Ok(Some(node)),
    }
}
