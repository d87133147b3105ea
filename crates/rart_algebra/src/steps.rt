//! The way down the right tree, along the prefixes and the bytes of the left one.
ghost use Rattle.std.specs.Prelude.{◌≡◌, ◌⊎◌, ◌&&◌, ◌+◌, [], IsSome, is_some, not};
ghost use Rattle.std.specs.Option.{option_map};
ghost use Rattle.rart_below.specs.ByteSets.{AreBytesOfBoth};
ghost use Rattle.rart_below.specs.Children.{child_at};
ghost use Rattle.rart_lockstep.specs.TreeCursorFields.{cursor_shape};
ghost use Rattle.rart_lockstep.specs.TreeCursors.{children_next, next_children, value_here};
ghost use Rattle.rart_node.specs.Counts.{CountsUpTo};
ghost use Rattle.rart_node.specs.Shape.{IsAscending, children_of, prefix_of, value_of};
ghost use Rattle.rart_node.specs.Trees.{IsTree};
ghost use Rattle.rart_algebra.specs.Ahead.{EntersAlong};
ghost use Rattle.rart_algebra.specs.Picks.{LeadsTo};

use rart_below::{ByteSet, Partial};
use rart_lockstep::TreeCursor;
use rart_node::{VersionedNode, Work};

/// Where the right tree leads behind all bytes of the left prefix, or `None` where it has no key
/// that begins with these. The prefix of one of the two is whole.
#[inline(never)]
pub(crate) fn reach<'a, P: Partial, V: Drop>(
    mut left: TreeCursor<'_, P, V>,
    mut right: TreeCursor<'a, P, V>,
    work: &mut Work,
) -> Option<TreeCursor<'a, P, V>>
    requires left { IsTree (cursor_shape left) }
    requires right { IsTree (cursor_shape right) }
    requires whole { (left.from ≡ 0) ⊎ (right.from ≡ 0) }
    ensures leads { LeadsTo (prefix_of (cursor_shape left.entry)) (cursor_shape right.entry)
        (option_map cursor_shape result) }
    ensures enters { EntersAlong (cursor_shape left.entry) (cursor_shape right.entry)
        (is_some result) work.old work.new }
{
    'along: loop {
        let common = left.common_with(&right);
        left = left.behind(common);
        right = right.behind(common);
        let Some(byte) = left.rest().first() else {
            return Some(right);
        };
        if right.is_longer(0) {
            return None;
        }
        right = TreeCursor::whole(right.node.seek_child(*byte)?.open(work));
    }
}

/// Where a byte leads from a cursor: to a child, which is entered, or along the prefix.
pub(crate) fn branch<'a, P: Partial, V: Drop>(
    at: &TreeCursor<'a, P, V>,
    byte: u8,
    work: &mut Work,
) -> Option<TreeCursor<'a, P, V>>
    requires { IsAscending (cursor_shape at.now) }
    ensures next { option_map cursor_shape result
        ≡ child_at byte (next_children (cursor_shape at.now)) }
    ensures counted { CountsUpTo 1 0 work.old work.new }
    ensures entered { IsSome result → work.new.entered + 1
        ≡ work.old.entered + children_next [] (prefix_of (cursor_shape at.now)) }
{
    match at.rest().first() {
        None => Some(TreeCursor::whole(at.node.seek_child(byte)?.open(work))),
        Some(first) if *first == byte => Some(at.behind(0)),
        Some(_) => None,
    }
}

/// The bytes that lead on in both, from the end of a node's prefix and from a cursor.
pub(crate) fn common_bytes<P: Partial, V: Drop>(
    node: &VersionedNode<P, V>,
    at: &TreeCursor<'_, P, V>,
) -> ByteSet
    requires left { IsAscending node.now.shape }
    requires right { IsAscending (cursor_shape at.now) }
    ensures { AreBytesOfBoth result (children_of node.now.shape)
        (next_children (cursor_shape at.now)) }
{
    match at.rest().first() {
        None => node.common_bytes(at.node),
        Some(byte) => {
            let mut only = ByteSet::new();
            if node.seek_child(*byte).is_some() {
                only.insert(*byte);
            }
            only
        }
    }
}

/// Whether the key that ends with a node's prefix is there, and the one that ends at a cursor.
pub(crate) fn both_have_values<P: Partial, V: Drop>(
    node: &VersionedNode<P, V>,
    at: &TreeCursor<'_, P, V>,
) -> bool
    ensures { result ≡ (is_some (value_of node.now.shape)
        && is_some (value_here (cursor_shape at.now))) }
{
    node.value().is_some() && at.value_here().is_some()
}

/// Whether the key that ends with a node's prefix is there, and none ends at a cursor.
pub(crate) fn has_value_alone<P: Partial, V: Drop>(
    node: &VersionedNode<P, V>,
    at: &TreeCursor<'_, P, V>,
) -> bool
    ensures { result ≡ (is_some (value_of node.now.shape)
        && not (is_some (value_here (cursor_shape at.now)))) }
{
    node.value().is_some() && at.value_here().is_none()
}
