//! What two trees have together: the keys of either, or of one alone.
ghost use Rattle.std.specs.Prelude.{◌≡◌, ◌&&◌, ◌+◌, ◌*◌, ◌≤◌, IfOk, OnOk, true, false, is_some, length, not};
ghost use Rattle.std.specs.Option.{option_map};
ghost use Rattle.rart_below.specs.Clones.{ClonesEqual};
ghost use Rattle.rart_lockstep.specs.CommonPairs.{common_pairs};
ghost use Rattle.rart_lockstep.specs.TreeCursorFields.{cursor_shape};
ghost use Rattle.rart_lockstep.specs.TreeCursors.{value_here};
ghost use Rattle.rart_node.specs.Seen.{shape_of};
ghost use Rattle.rart_node.specs.Shape.{value_of};
ghost use Rattle.rart_node.specs.Trees.{IsTree};
ghost use Rattle.rart_ways.specs.Removals.{AreAdmitted};
ghost use Rattle.rart_algebra.specs.Ahead.{EntersBelow, EntersForCommon, HaveChange, IsGone, JoinsBelow, JoinsUpTo, spare_of};
ghost use Rattle.rart_algebra.specs.Parts.{is_same};
ghost use Rattle.rart_algebra.specs.Picks.{Becomes, IsPickedOr, apart, either, together};

use crate::gain::gain;
use crate::made::{Made, root_of};
use crate::part::{cut_inside, node_now, settle, with_made};
use crate::steps::{both_have_values, branch, common_bytes};
use rart_below::{BytesLeft, Partial};
use rart_lockstep::TreeCursor;
use rart_node::{NodeRef, VersionedNode, Work};
use std::alloc::{AllocError, Global};

/// A root for the keys that either of two trees has, with what the left one has where both have a
/// key. A subtree that one side alone has is shared, and so is one of the left tree to which the
/// right one adds no key. Refused for memory, there is none.
///
/// Two nodes are entered at most for each place of both; two at least are, and, where it isn't
/// refused, two for each common key. Three are made at most for each place that begins a key which
/// the right tree adds.
pub fn union_below<P: Partial, V: Clone + Drop>(
    alloc: Global,
    left: &NodeRef<P, V>,
    right: &NodeRef<P, V>,
    version: u64,
    work: &mut Work,
) -> Result<Option<NodeRef<P, V>>, AllocError>
    requires clones { ClonesEqual V.is_clone }
    requires left { IsTree left.now.shape }
    requires right { IsTree right.now.shape }
    requires lengths { AreAdmitted P.MAXIMUM_SIZE left.now.shape }
    requires other_lengths { AreAdmitted P.MAXIMUM_SIZE right.now.shape }
    ensures picked { IfOk result (λ it. IsPickedOr either left.now.shape right.now.shape
        (option_map shape_of it)) }
    ensures counted { JoinsUpTo true left.now.shape right.now.shape work.old work.new }
    ensures entered { work.old.entered + 2 ≤ work.new.entered }
    ensures least { OnOk result (work.old.entered
        + 2 * length (common_pairs left.now.shape right.now.shape) ≤ work.new.entered) }
{
    let right = TreeCursor::whole(right.open(work));
    let made = unite(alloc, left, right, true, version, work)?;
    root_of(left, made)
}

/// A root for the keys that one of two trees has and the other lacks, or `None` where they have the
/// same. A subtree that one side alone has is shared. Refused for memory, there is none.
///
/// Two nodes are entered at most for each place of both, and one for each common key; two at least
/// are, and, where it isn't refused, two for each common key. Three are made at most for each place
/// that begins a key of the right tree.
pub fn symmetric_difference_below<P: Partial, V: Clone + Drop>(
    alloc: Global,
    left: &NodeRef<P, V>,
    right: &NodeRef<P, V>,
    version: u64,
    work: &mut Work,
) -> Result<Option<NodeRef<P, V>>, AllocError>
    requires clones { ClonesEqual V.is_clone }
    requires left { IsTree left.now.shape }
    requires right { IsTree right.now.shape }
    requires lengths { AreAdmitted P.MAXIMUM_SIZE left.now.shape }
    requires other_lengths { AreAdmitted P.MAXIMUM_SIZE right.now.shape }
    ensures picked { IfOk result (λ it. IsPickedOr apart left.now.shape right.now.shape
        (option_map shape_of it)) }
    ensures counted { JoinsUpTo false left.now.shape right.now.shape work.old work.new }
    ensures entered { work.old.entered + 2 ≤ work.new.entered }
    ensures least { OnOk result (work.old.entered
        + 2 * length (common_pairs left.now.shape right.now.shape) ≤ work.new.entered) }
{
    let right = TreeCursor::whole(right.open(work));
    let made = unite(alloc, left, right, false, version, work)?;
    root_of(left, made)
}

/// What becomes of all that a pointer has, with what a cursor in the right tree has beside it,
/// where a common key stays or goes.
///
/// It calls itself for each byte that leads on in both. `cut_inside`, `gain` and `settle` are not
/// inlined, so that a level takes little of the machine's stack.
pub(crate) fn unite<P: Partial, V: Clone + Drop>(
    alloc: Global,
    left: &NodeRef<P, V>,
    right: TreeCursor<'_, P, V>,
    stays: bool,
    version: u64,
    work: &mut Work,
) -> Result<Made<P, V>, AllocError>
    requires clones { ClonesEqual V.is_clone }
    requires left { IsTree left.now.shape }
    requires right { IsTree (cursor_shape right) }
    requires lengths { AreAdmitted P.MAXIMUM_SIZE left.now.shape }
    requires other_lengths { AreAdmitted P.MAXIMUM_SIZE (cursor_shape right) }
    ensures becomes { IfOk result (λ made. Becomes (together stays) left.now.shape
        (cursor_shape right.entry) made) }
    ensures changed { IfOk result (λ made. is_same made ≡ false
        → HaveChange stays left.now.shape (cursor_shape right.entry)) }
    ensures enters { EntersBelow (IsGone stays) left.now.shape (cursor_shape right.entry)
        (spare_of result) work.old work.new }
    ensures makes { JoinsBelow left.now.shape (cursor_shape right.entry) stays
        work.old work.new }
    ensures least { OnOk result (EntersForCommon left.now.shape (cursor_shape right.entry)
        work.old work.new) }
{
    let node = left.open(work);
    let common = TreeCursor::whole(node).common_with(&right);
    let at = right.behind(common);
    let cut = cut_inside(alloc, node, common, version, work)?;
    let goes = value_goes(node_now(node, &cut), &at, stays);
    let mut bytes = BytesLeft::new(common_bytes(node_now(node, &cut), &at));
    let mut part = gain(alloc, node, cut, &at, version, work)?;
    'below: while let Some(byte) = bytes.take_first() {
        let (Some(child), Some(next)) = (
            node_now(node, &part).seek_child(byte),
            branch(&at, byte, work),
        ) else {
            unreachable!();
        };
        let made = unite(alloc, child, next, stays, version, work)?;
        part = with_made(alloc, node, part, byte, made, version)?;
    }
    settle(alloc, node, part, goes, version, work)
}

/// Whether a common key ends with a node's prefix and at a cursor, and goes.
fn value_goes<P: Partial, V: Drop>(
    node: &VersionedNode<P, V>,
    at: &TreeCursor<'_, P, V>,
    stays: bool,
) -> bool
    ensures { result ≡ (not stays && (is_some (value_of node.now.shape)
        && is_some (value_here (cursor_shape at.now)))) }
{
    !stays && both_have_values(node, at)
}
