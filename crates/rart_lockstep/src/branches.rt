// Ported from rart 0.11.0 (Apache-2.0), and rewritten.
//! Where the way down two trees goes on: from byte to byte that leads on in both.
ghost use Rattle.std.specs.Prelude.{◌≡◌, ◌⊎◌, ◌+◌, [], IfSome, is_some, if◌then◌else◌};
ghost use Rattle.std.specs.Option.{option_map};
ghost use Rattle.rart_node.specs.Shape.{IsAscending, prefix_of};

use crate::children::CommonChildren;
use crate::tree_cursor::TreeCursor;
use rart_below::Partial;
use rart_node::{NodeRef, Work};

/// The next steps of a way down two trees, of which one stands at the end of a node's prefix, or
/// both do.
///
/// Contracts see them by `branches_left`: each is a byte, and what it leads to on either side.
#[derive(Drop)]
pub(crate) enum Branches<'a, P: Partial, V> {
    /// The left prefix has ended: its child under the right one's next byte, if there is one.
    Left(Option<(&'a NodeRef<P, V>, TreeCursor<'a, P, V>)>),
    /// The right prefix has ended.
    Right(Option<(TreeCursor<'a, P, V>, &'a NodeRef<P, V>)>),
    /// Both have ended.
    Both(CommonChildren<'a, P, V>),
}

impl<'a, P: Partial, V: Drop> Branches<'a, P, V> {
    ghost use Rattle.rart_node.specs.Counts.{CountsUpTo};
    ghost use Rattle.rart_lockstep.specs.Branches.{branches_left, nodes_a_step};
    ghost use Rattle.rart_lockstep.specs.Children.{TakesPair, common_children};
    ghost use Rattle.rart_lockstep.specs.TreeCursorFields.{cursor_shape};
    ghost use Rattle.rart_lockstep.specs.TreeCursors.{next_children, children_next};

    #[inline(always)]
    pub(crate) fn new(left: TreeCursor<'a, P, V>, right: TreeCursor<'a, P, V>) -> Branches<'a, P, V>
        requires left { IsAscending (cursor_shape left) }
        requires right { IsAscending (cursor_shape right) }
        requires ended { (prefix_of (cursor_shape left) ≡ [])
            ⊎ (prefix_of (cursor_shape right) ≡ []) }
        ensures steps { branches_left result
            ≡ common_children (next_children (cursor_shape left.entry))
            (next_children (cursor_shape right.entry)) }
        ensures nodes { nodes_a_step result ≡ children_next (prefix_of (cursor_shape left.entry))
            (prefix_of (cursor_shape right.entry)) }
    {
        if let Some(byte) = right.rest().first() {
            let Some(child) = left.node.seek_child(*byte) else {
                return Branches::Left(None);
            };
            return Branches::Left(Some((child, right)));
        }
        if let Some(byte) = left.rest().first() {
            let Some(child) = right.node.seek_child(*byte) else {
                return Branches::Right(None);
            };
            return Branches::Right(Some((left, child)));
        }
        Branches::Both(CommonChildren::new(left.node, right.node))
    }

    /// Takes the next step: the child of one side is entered, or that of either.
    #[inline(always)]
    pub(crate) fn next(
        &mut self,
        work: &mut Work,
    ) -> Option<(TreeCursor<'a, P, V>, TreeCursor<'a, P, V>)>
        ensures takes { TakesPair (branches_left self.old)
            (option_map (λ pair. (cursor_shape pair.0, cursor_shape pair.1)) result)
            (branches_left self.new) }
        ensures whole { IfSome result (λ pair. (pair.0.from ≡ 0) ⊎ (pair.1.from ≡ 0)) }
        ensures counted { CountsUpTo (if is_some result then 2 else 0) 0
            work.old work.new }
        ensures entered { work.new ≡ record work.old {
          entered = work.old.entered
              + (if is_some result then nodes_a_step self.old else 0);
        } }
        ensures nodes { nodes_a_step self.new ≡ nodes_a_step self.old }
    {
        match self {
            Branches::Left(step) => {
                let (child, right) = step.take()?;
                let left = TreeCursor::whole(child.open(work));
                Some((left, right))
            }
            Branches::Right(step) => {
                let (left, child) = step.take()?;
                let right = TreeCursor::whole(child.open(work));
                Some((left, right))
            }
            Branches::Both(children) => {
                let (left, right) = children.next()?;
                let left = left.open(work);
                let right = right.open(work);
                Some((TreeCursor::whole(left), TreeCursor::whole(right)))
            }
        }
    }
}
