//! What the left of two trees has and the right one lacks.
ghost use Rattle.std.specs.Prelude.{◌≡◌, ◌+◌, ◌*◌, ◌≤◌, IfOk, OnOk, false, length};
ghost use Rattle.std.specs.Option.{option_map};
ghost use Rattle.rart_below.specs.Clones.{ClonesEqual};
ghost use Rattle.rart_lockstep.specs.CommonPairs.{common_pairs};
ghost use Rattle.rart_lockstep.specs.TreeCursorFields.{cursor_shape};
ghost use Rattle.rart_node.specs.Seen.{shape_of};
ghost use Rattle.rart_node.specs.Trees.{IsTree};
ghost use Rattle.rart_ways.specs.Removals.{AreAdmitted};
ghost use Rattle.rart_algebra.specs.Ahead.{EntersForCommon, GoesUpTo, HaveCommon, IsCommonKey, StepsBelow, spare_of};
ghost use Rattle.rart_algebra.specs.Parts.{is_same};
ghost use Rattle.rart_algebra.specs.Picks.{Becomes, IsPickedOr, unless};

use crate::made::{Made, root_of};
use crate::part::{settle, with_made};
use crate::steps::{both_have_values, branch, common_bytes, reach};
use rart_below::{BytesLeft, Partial};
use rart_lockstep::TreeCursor;
use rart_node::{NodeRef, Work};
use std::alloc::{AllocError, Global};

/// A root for the keys that the left of two trees has and the right one lacks, with what the left
/// one has there, or `None` where there is none. What the left tree has alone is shared. Refused
/// for memory, there is none.
///
/// Two nodes are entered at most for each place of both, and one for each common key; two at least
/// are, and, where it isn't refused, two for each common key. One is made at most for each string
/// that begins a common key.
pub fn difference_below<P: Partial, V: Clone + Drop>(
    alloc: Global,
    left: &NodeRef<P, V>,
    right: &NodeRef<P, V>,
    version: u64,
    work: &mut Work,
) -> Result<Option<NodeRef<P, V>>, AllocError>
    requires clones { ClonesEqual V.is_clone }
    requires left { IsTree left.now.shape }
    requires right { IsTree right.now.shape }
    requires lengths { AreAdmitted P.MAXIMUM_SIZE left.now.shape }
    ensures picked { IfOk result (λ it. IsPickedOr unless left.now.shape right.now.shape
        (option_map shape_of it)) }
    ensures counted { GoesUpTo left.now.shape right.now.shape work.old work.new }
    ensures entered { work.old.entered + 2 ≤ work.new.entered }
    ensures least { OnOk result (work.old.entered
        + 2 * length (common_pairs left.now.shape right.now.shape) ≤ work.new.entered) }
{
    let right = TreeCursor::whole(right.open(work));
    let made = subtract(alloc, left, right, version, work)?;
    root_of(left, made)
}

/// What becomes of all that a pointer has, where each key goes that a cursor in the right tree has
/// too.
///
/// It calls itself for each byte that leads on in both. `reach` and `settle` are not inlined, so
/// that a level takes little of the machine's stack.
pub(crate) fn subtract<P: Partial, V: Clone + Drop>(
    alloc: Global,
    left: &NodeRef<P, V>,
    right: TreeCursor<'_, P, V>,
    version: u64,
    work: &mut Work,
) -> Result<Made<P, V>, AllocError>
    requires clones { ClonesEqual V.is_clone }
    requires left { IsTree left.now.shape }
    requires right { IsTree (cursor_shape right) }
    requires lengths { AreAdmitted P.MAXIMUM_SIZE left.now.shape }
    ensures becomes { IfOk result (λ made. Becomes unless left.now.shape
        (cursor_shape right.entry) made) }
    ensures common { IfOk result (λ made. is_same made ≡ false
        → HaveCommon left.now.shape (cursor_shape right.entry)) }
    ensures counted { StepsBelow IsCommonKey left.now.shape (cursor_shape right.entry)
        (spare_of result) work.old work.new }
    ensures least { OnOk result (EntersForCommon left.now.shape (cursor_shape right.entry)
        work.old work.new) }
{
    let node = left.open(work);
    let Some(at) = reach(TreeCursor::whole(node), right, work) else {
        return Ok(Made::Same);
    };
    let goes = both_have_values(node, &at);
    if node.is_leaf() {
        return Ok(if goes { Made::Nothing } else { Made::Same });
    }
    let mut part = None;
    let mut bytes = BytesLeft::new(common_bytes(node, &at));
    'below: while let Some(byte) = bytes.take_first() {
        let (Some(child), Some(next)) = (node.seek_child(byte), branch(&at, byte, work)) else {
            unreachable!();
        };
        let made = subtract(alloc, child, next, version, work)?;
        part = with_made(alloc, node, part, byte, made, version)?;
    }
    settle(alloc, node, part, goes, version, work)
}
