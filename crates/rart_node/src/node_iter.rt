// Ported from rart 0.11.0 (Apache-2.0), and rewritten.
//! The iterator over the children of a node.
ghost use Rattle.rart_node.specs.Shape.{IsAscending};

use crate::node::VersionedNode;
use crate::node_ref::NodeRef;
use rart_below::Partial;

/// The children of a node, each pointer with its byte, ascending.
///
/// After its end `next` may be called again, and gives `None` from then on.
#[derive(Drop)]
pub struct VersionedNodeIter<'a, P: Partial, V> {
    pub(crate) node: &'a VersionedNode<P, V>,
    pub(crate) from: usize,
    pub ghost order: { IsAscending node.now.shape },
}

impl<'a, P: Partial, V: Drop> Iterator for VersionedNodeIter<'a, P, V> {
    type Item = (u8, &'a NodeRef<P, V>);

    ghost use Rattle.std.specs.Iterator.{YieldsFirstBy, item_count};
    ghost use Rattle.rart_node.specs.NodeShapes.{entry_shape};
    ghost use Rattle.rart_node.specs.VersionedNodeIter.{children_left};

    ghost next_gives = { YieldsFirstBy entry_shape children_left };

    ghost remaining = { item_count children_left };

    fn next(&mut self) -> Option<(u8, &'a NodeRef<P, V>)> {
        self.node.next_entry(&mut self.from)
    }
}

impl<'a, P: Partial, V: Drop> VersionedNodeIter<'a, P, V> {
    ghost use Rattle.std.specs.Option.{option_map};
    ghost use Rattle.rart_below.specs.Children.{TakesFirst};
    ghost use Rattle.rart_node.specs.VersionedNodeIter.{children_left};

    /// The pointer that `next` would give, without its byte. rart has no such call.
    #[inline(always)]
    pub fn next_child(&mut self) -> Option<&'a NodeRef<P, V>>
        ensures { TakesFirst (children_left self.old) (option_map (λ child. child.now.shape) result)
            (children_left self.new) }
    {
        self.node.next_child(&mut self.from)
    }
}
