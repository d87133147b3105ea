// Ported from rart 0.11.0 (Apache-2.0), and rewritten.
//! A cursor in either of two trees.
ghost use Rattle.std.specs.Prelude.{◌≡◌, ◌⊎◌, ◌+◌};
ghost use Rattle.std.specs.Option.{option_map};
ghost use Rattle.rart_below.specs.Bytes.{common_length};
ghost use Rattle.rart_node.specs.Shape.{prefix_of};
ghost use Rattle.rart_lockstep.specs.Entries.{both};
ghost use Rattle.rart_lockstep.specs.TreeCursors.{value_here};

use crate::branches::Branches;
use crate::pair_cursor::PairCursor;
use crate::tree_cursor::TreeCursor;
use rart_below::Partial;
use rart_node::{KeyPath, NodeRef, Work};
use std::alloc::AllocError;

/// A cursor in either tree, side by side.
#[derive(Drop)]
pub(crate) struct TreeCursors<'a, P: Partial, V> {
    pub(crate) left: TreeCursor<'a, P, V>,
    pub(crate) right: TreeCursor<'a, P, V>,
}

impl<'a, P: Partial, V: Drop> TreeCursors<'a, P, V> {
    ghost use Rattle.rart_lockstep.specs.TreeCursorFields.{cursor_shape};

    /// The nodes that two pointers show: both are entered.
    pub(crate) fn open(
        left: &'a NodeRef<P, V>,
        right: &'a NodeRef<P, V>,
        work: &mut Work,
    ) -> TreeCursors<'a, P, V>
        ensures left { cursor_shape result.left ≡ left.now.shape }
        ensures right { cursor_shape result.right ≡ right.now.shape }
        ensures whole { result.left.from ≡ 0 }
        ensures work { work.new ≡ record work.old { entered = work.old.entered + 2 } }
    {
        TreeCursors {
            left: TreeCursor::whole(left.open(work)),
            right: TreeCursor::whole(right.open(work)),
        }
    }

    /// The values of the key that ends here, if both have one.
    pub(crate) fn values_here(&self) -> Option<(&'a V, &'a V)>
        ensures { option_map (λ pair. (pair.0.now, pair.1.now)) result
            ≡ both (value_here (cursor_shape self.now.left))
            (value_here (cursor_shape self.now.right)) }
    {
        Some((self.left.value_here()?, self.right.value_here()?))
    }

    /// How many bytes the two have in common at their start. Few are compared without a call.
    #[inline(always)]
    fn common_length(&self) -> usize
        requires whole { (self.now.left.from ≡ 0) ⊎ (self.now.right.from ≡ 0) }
        ensures { result ≡ common_length (prefix_of (cursor_shape self.now.left))
            (prefix_of (cursor_shape self.now.right)) }
    {
        let left = self.left.rest();
        if left.len() < 4 {
            short_common(left, self.right.rest())
        } else {
            self.left.common_with(&self.right)
        }
    }
}

impl<'a, P: Partial, V: Drop, T: KeyPath<'a>> PairCursor<V, T> for TreeCursors<'a, P, V> {
    type Branches = Branches<'a, P, V>;

    ghost use Rattle.rart_lockstep.specs.Branches.{branches_left, nodes_a_step};
    ghost use Rattle.rart_lockstep.specs.TreeCursorFields.{cursor_shape};

    ghost left = { λ at. cursor_shape at.left };

    ghost right = { λ at. cursor_shape at.right };

    ghost HasWhole = { λ at. (at.left.from ≡ 0) ⊎ (at.right.from ≡ 0) };

    ghost branches_left = { branches_left };

    ghost nodes_a_step = { nodes_a_step };

    ghost holds = { T.holds };

    ghost greatest = { T.greatest };

    ghost can_refuse = { T.can_refuse };

    #[inline]
    fn parts_early(&self) -> bool {
        let left = self.left.rest();
        let right = self.right.rest();
        1 < left.len() && 1 < right.len() && left[1] != right[1]
    }

    #[inline]
    fn are_leaves(&self) -> bool {
        self.left.node.is_leaf() && self.right.node.is_leaf()
    }

    #[inline]
    fn same(&self) -> Option<usize> {
        let len = self.left.rest().len();
        if self.right.rest().len() == len && self.common_length() == len {
            Some(len)
        } else {
            None
        }
    }

    #[inline(always)]
    fn common(&self) -> Option<usize> {
        let common = self.left.common_with(&self.right);
        if !self.left.is_longer(common) {
            return Some(common);
        }
        if !self.right.is_longer(common) {
            return Some(common);
        }
        None
    }

    fn push(&self, count: usize, key_path: &mut T) -> Result<(), AllocError> {
        key_path.push(self.left.first(count))
    }

    fn pop(&self, count: usize, key_path: &mut T) {
        key_path.pop(self.left.first(count));
    }

    fn behind(&self, count: usize) -> Self {
        TreeCursors {
            left: self.left.behind(count),
            right: self.right.behind(count),
        }
    }

    #[inline(always)]
    fn branches(self) -> Branches<'a, P, V> {
        Branches::new(self.left, self.right)
    }

    #[inline(always)]
    fn next(branches: &mut Branches<'a, P, V>, work: &mut Work) -> Option<Self> {
        let (left, right) = branches.next(work)?;
        Some(TreeCursors { left, right })
    }
}

/// How many bytes two strings have in common at their start, one by one.
#[inline(always)]
#[tactic(auto, using(rart_below::proofs::CommonLengthLemmas::common_step, rart_below::proofs::CommonLengthLemmas::common_stop, rart_below::proofs::CommonLengthLemmas::common_stop_left, rart_below::proofs::CommonLengthLemmas::common_stop_right))]
fn short_common(left: &[u8], right: &[u8]) -> usize
    ensures { result ≡ common_length left.now right.now }
{
    let shorter = left.len().min(right.len());
    let mut common = 0;
    while common < shorter {
        if left[common] != right[common] {
            return common;
        }
        common += 1;
    }
    common
}
