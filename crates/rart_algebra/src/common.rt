//! What two trees have in common.
ghost use Rattle.std.specs.Prelude.{◌≡◌, ◌+◌, ◌*◌, ◌≤◌, IfOk, OnOk, length};
ghost use Rattle.std.specs.Option.{option_map};
ghost use Rattle.rart_below.specs.Clones.{ClonesEqual};
ghost use Rattle.rart_lockstep.specs.CommonPairs.{common_pairs};
ghost use Rattle.rart_lockstep.specs.TreeCursorFields.{cursor_shape};
ghost use Rattle.rart_node.specs.Seen.{shape_of};
ghost use Rattle.rart_node.specs.Trees.{IsTree};
ghost use Rattle.rart_ways.specs.Removals.{AreAdmitted};
ghost use Rattle.rart_algebra.specs.Ahead.{EntersForCommon, IsPlace, MeetsUpTo, StepsBelow};
ghost use Rattle.rart_algebra.specs.Picks.{Becomes, IsPickedOr, both};

use crate::among::{count_among, keep_among};
use crate::made::{Made, root_of};
use crate::part::{settle, with_made};
use crate::steps::{both_have_values, branch, common_bytes, has_value_alone, reach};
use rart_below::{BytesLeft, Partial};
use rart_lockstep::TreeCursor;
use rart_node::{NodeRef, Work};
use std::alloc::{AllocError, Global};

/// A root for the keys that two trees both have, with what the left one has there, or `None` where
/// there is none. A subtree of which every key is in both is shared.
///
/// Three nodes are entered at most for each place of both; two at least are, and, where it isn't
/// refused, two for each common key. One is made at most for each string that begins a common key.
pub fn common_below<P: Partial, V: Clone + Drop>(
    alloc: Global,
    left: &NodeRef<P, V>,
    right: &NodeRef<P, V>,
    version: u64,
    work: &mut Work,
) -> Result<Option<NodeRef<P, V>>, AllocError>
    requires clones { ClonesEqual V.is_clone }
    requires left { IsTree left.now.shape }
    requires right { IsTree right.now.shape }
    requires lengths { AreAdmitted P.MAXIMUM_SIZE left.now.shape }
    ensures picked { IfOk result (λ it. IsPickedOr both left.now.shape right.now.shape
        (option_map shape_of it)) }
    ensures counted { MeetsUpTo left.now.shape right.now.shape work.old work.new }
    ensures entered { work.old.entered + 2 ≤ work.new.entered }
    ensures least { OnOk result (work.old.entered
        + 2 * length (common_pairs left.now.shape right.now.shape) ≤ work.new.entered) }
{
    let right = TreeCursor::whole(right.open(work));
    let made = meet(alloc, left, right, version, work)?;
    root_of(left, made)
}

/// What becomes of all that a pointer has, where each key goes that a cursor in the right tree
/// lacks.
///
/// It calls itself for each byte that leads on in both. Where none does and no value stays, nothing
/// is copied. `reach`, `keep_among` and `settle` are not inlined, so that a level takes little of
/// the machine's stack.
pub(crate) fn meet<P: Partial, V: Clone + Drop>(
    alloc: Global,
    left: &NodeRef<P, V>,
    right: TreeCursor<'_, P, V>,
    version: u64,
    work: &mut Work,
) -> Result<Made<P, V>, AllocError>
    requires clones { ClonesEqual V.is_clone }
    requires left { IsTree left.now.shape }
    requires right { IsTree (cursor_shape right) }
    requires lengths { AreAdmitted P.MAXIMUM_SIZE left.now.shape }
    ensures becomes { IfOk result (λ made. Becomes both left.now.shape
        (cursor_shape right.entry) made) }
    ensures counted { StepsBelow IsPlace left.now.shape (cursor_shape right.entry) 0
        work.old work.new }
    ensures least { OnOk result (EntersForCommon left.now.shape (cursor_shape right.entry)
        work.old work.new) }
{
    let node = left.open(work);
    let Some(at) = reach(TreeCursor::whole(node), right, work) else {
        return Ok(Made::Nothing);
    };
    let common = common_bytes(node, &at);
    let count = count_among(node, &common);
    let stays = both_have_values(node, &at);
    if count == 0 && !stays {
        return Ok(Made::Nothing);
    }
    let goes = has_value_alone(node, &at);
    let mut part = keep_among(alloc, node, &common, count, version, work)?;
    let mut bytes = BytesLeft::new(common);
    'below: while let Some(byte) = bytes.take_first() {
        let (Some(child), Some(next)) = (node.seek_child(byte), branch(&at, byte, work)) else {
            unreachable!();
        };
        let made = meet(alloc, child, next, version, work)?;
        part = with_made(alloc, node, part, byte, made, version)?;
    }
    settle(alloc, node, part, goes, version, work)
}
