// Ported from rart 0.11.0 (Apache-2.0), and rewritten.
//! One step along a key: what the key finds at a node.
ghost use Rattle.std.specs.Prelude.{◌≡◌, ◌+◌, IfSome};
ghost use Rattle.std.specs.Option.{option_map};
ghost use Rattle.rart_node.specs.Shape.{prefix_of};
ghost use Rattle.rart_node.specs.Trees.{IsTree, strip_prefix};
ghost use Rattle.rart_ways.specs.Steps.{child_under};

use rart_below::Partial;
use rart_node::{NodeRef, VersionedNode, Work, strip_prefix};

/// A node whose whole prefix a key begins with.
#[derive(Drop)]
pub struct Passed<'a, 'k, P: Partial, V> {
    pub node: &'a VersionedNode<P, V>,
    /// What is left of the key behind the prefix.
    pub rest: &'k [u8],
}

impl<'a, 'k, P: Partial, V: Drop> Passed<'a, 'k, P, V> {
    /// The child under the next byte of the key, where there are both.
    #[inline(always)]
    pub fn child(&self) -> Option<&'a NodeRef<P, V>>
        requires tree { IsTree self.now.node.now.shape }
        ensures { option_map (λ child. child.now.shape) result
            ≡ child_under self.now.rest.now self.now.node.now.shape }
    {
        match self.rest.first() {
            None => None,
            Some(byte) => self.node.seek_child(*byte),
        }
    }
}

/// Enters a node with what is left of a key: `None` where the key leaves the node's prefix before
/// its end.
#[inline(always)]
pub fn step<'a, 'k, P: Partial, V: Drop>(
    at: &'a NodeRef<P, V>,
    key: &'k [u8],
    work: &mut Work,
) -> Option<Passed<'a, 'k, P, V>>
    requires tree { IsTree at.now.shape }
    ensures rest { option_map (λ passed. passed.rest.now) result
        ≡ strip_prefix (prefix_of at.now.shape) key.now }
    ensures node { IfSome result (λ passed. passed.node.now.shape ≡ at.now.shape) }
    ensures work { work.new ≡ record work.old { entered = work.old.entered + 1 } }
{
    let node = at.open(work);
    let rest = strip_prefix(key, node.prefix())?;
    Some(Passed { node, rest })
}
