// Ported from rart 0.11.0 (Apache-2.0), and rewritten.
//! The iterator back over the children of a node.
ghost use Rattle.rart_node.specs.Shape.{IsAscending};

use crate::node::VersionedNode;
use crate::node_ref::NodeRef;
use rart_below::Partial;

/// The children of a node, descending. rart has no such iterator.
#[derive(Drop)]
pub struct VersionedNodeRevIter<'a, P: Partial, V> {
    pub(crate) node: &'a VersionedNode<P, V>,
    pub(crate) end: usize,
    pub ghost order: { IsAscending node.now.shape },
}

impl<'a, P: Partial, V: Drop> VersionedNodeRevIter<'a, P, V> {
    ghost use Rattle.std.specs.Option.{option_map};
    ghost use Rattle.rart_below.specs.Children.{TakesLast};
    ghost use Rattle.rart_node.specs.VersionedNodeRevIter.{children_before};

    /// The pointer of the greatest byte that is left. After the end it may be called again, and
    /// gives `None` from then on.
    #[inline(always)]
    pub fn prev_child(&mut self) -> Option<&'a NodeRef<P, V>>
        ensures { TakesLast (children_before self.old)
            (option_map (λ child. child.now.shape) result) (children_before self.new) }
    {
        self.node.prev_child(&mut self.end)
    }
}
