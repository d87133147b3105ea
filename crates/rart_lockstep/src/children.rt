// Ported from rart 0.11.0 (Apache-2.0), and rewritten.
//! The children that two nodes have under the same bytes.
ghost use Rattle.std.specs.Prelude.{◌≡◌};
ghost use Rattle.std.specs.Option.{option_map};
ghost use Rattle.rart_node.specs.Shape.{IsAscending, children_of};
ghost use Rattle.rart_lockstep.specs.Children.{HaveBoth};

use rart_below::{BytesLeft, Partial};
use rart_node::{NodeRef, VersionedNode};

/// The children of two nodes under the same bytes, two at a time, in the order of these: those
/// whose bytes are in the set are left.
#[derive(Drop)]
pub(crate) struct CommonChildren<'a, P: Partial, V> {
    left: &'a VersionedNode<P, V>,
    right: &'a VersionedNode<P, V>,
    bytes: BytesLeft,
    ghost left_order: { IsAscending left.now.shape },
    ghost right_order: { IsAscending right.now.shape },
    ghost both: { HaveBoth bytes.left (children_of left.now.shape) (children_of right.now.shape) },
}

impl<'a, P: Partial, V: Drop> CommonChildren<'a, P, V> {
    ghost use Rattle.rart_lockstep.specs.ChildFields.{pairs_left};
    ghost use Rattle.rart_lockstep.specs.Children.{TakesPair, common_children};

    #[inline(always)]
    pub(crate) fn new(
        left: &'a VersionedNode<P, V>,
        right: &'a VersionedNode<P, V>,
    ) -> CommonChildren<'a, P, V>
        requires left { IsAscending left.now.shape }
        requires right { IsAscending right.now.shape }
        ensures { pairs_left result ≡ common_children (children_of left.now.shape)
            (children_of right.now.shape) }
    {
        CommonChildren {
            left,
            right,
            bytes: BytesLeft::new(left.common_bytes(right)),
        }
    }

    /// Takes the next two: the left node's child and the right one's.
    #[inline(always)]
    pub(crate) fn next(&mut self) -> Option<(&'a NodeRef<P, V>, &'a NodeRef<P, V>)>
        ensures { TakesPair (pairs_left self.old) (option_map (λ pair. (
          pair.0.now.shape,
          pair.1.now.shape,
        )) result) (pairs_left self.new) }
    {
        let byte = self.bytes.take_first()?;
        let left = self.left.seek_child(byte)?;
        let right = self.right.seek_child(byte)?;
        Some((left, right))
    }
}
