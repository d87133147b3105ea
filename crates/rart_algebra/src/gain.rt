//! A node with what the right tree has beside it.
ghost use Rattle.std.specs.Prelude.{◌≡◌, ◌⊎◌, ◌≤◌, [], IfOk, true, is_some, length};
ghost use Rattle.rart_below.specs.Clones.{ClonesEqual};
ghost use Rattle.rart_lockstep.specs.TreeCursorFields.{cursor_shape};
ghost use Rattle.rart_node.specs.Counts.{CountsUpTo};
ghost use Rattle.rart_node.specs.Shape.{IsAscending, children_of, prefix_of, value_of, with_prefix};
ghost use Rattle.rart_node.specs.Trees.{BeginsWith, IsOrdered, IsTree};
ghost use Rattle.rart_algebra.specs.Among.{HaveChild, children_among};
ghost use Rattle.rart_algebra.specs.Gains.{AreAlone, Gains, HasAdded, HasMore, HasRoom, HasRoomFor, HaveNone, with_own};
ghost use Rattle.rart_algebra.specs.Parts.{shape_now};
ghost use Rattle.rart_algebra.specs.Picks.{unless};

use crate::among::{count_among, made_among, value_copy};
use crate::part::{Part, copied, node_now};
use rart_below::{ByteSet, BytesLeft, Partial};
use rart_lockstep::TreeCursor;
use rart_node::{NodeRef, VersionedNode, Work};
use std::alloc::{AllocError, Global};

/// What becomes of a node that gets what a cursor in the right tree has where it has nothing: the
/// value, and the children under other bytes. They are shared, but for what stands inside the right
/// prefix, of which a copy is made. Where there is nothing to get, nothing is done.
#[inline(never)]
pub(crate) fn gain<P: Partial, V: Clone + Drop>(
    alloc: Global,
    node: &VersionedNode<P, V>,
    part: Part<P, V>,
    at: &TreeCursor<'_, P, V>,
    version: u64,
    work: &mut Work,
) -> Result<Part<P, V>, AllocError>
    requires clones { ClonesEqual V.is_clone }
    requires order { IsOrdered (shape_now node.now.shape part) }
    requires tree { IsTree (cursor_shape at.now) }
    ensures gains { IfOk result (λ after. Gains (shape_now node.now.shape part)
        (cursor_shape at.now) (shape_now node.now.shape after)) }
    ensures counted { CountsUpTo 0 1 work.old work.new }
    ensures more { (work.new ≡ work.old)
        ⊎ HasMore (shape_now node.now.shape part) (cursor_shape at.now) }
    ensures changed { IfOk result (λ after. is_some after ≡ true → (is_some part ≡ true)
        ⊎ HasMore (shape_now node.now.shape part) (cursor_shape at.now)) }
{
    match at.rest().first() {
        None => gain_children(alloc, node, part, at.node, version, work),
        Some(byte) => gain_rest(alloc, node, part, at, *byte, version, work),
    }
}

/// The same for a cursor inside a prefix, which goes on with a byte.
fn gain_rest<P: Partial, V: Clone + Drop>(
    alloc: Global,
    node: &VersionedNode<P, V>,
    part: Part<P, V>,
    at: &TreeCursor<'_, P, V>,
    byte: u8,
    version: u64,
    work: &mut Work,
) -> Result<Part<P, V>, AllocError>
    requires clones { ClonesEqual V.is_clone }
    requires order { IsOrdered (shape_now node.now.shape part) }
    requires tree { IsTree (cursor_shape at.now) }
    requires first { BeginsWith byte (prefix_of (cursor_shape at.now)) }
    ensures gains { IfOk result (λ after. Gains (shape_now node.now.shape part)
        (cursor_shape at.now) (shape_now node.now.shape after)) }
    ensures counted { CountsUpTo 0 1 work.old work.new }
    ensures more { (work.new ≡ work.old)
        ⊎ HasMore (shape_now node.now.shape part) (cursor_shape at.now) }
    ensures changed { IfOk result (λ after. is_some after ≡ true → (is_some part ≡ true)
        ⊎ HasMore (shape_now node.now.shape part) (cursor_shape at.now)) }
{
    if node_now(node, &part).seek_child(byte).is_some() {
        return Ok(part);
    }
    let mut copy = with_room_for(alloc, node, part, 1, version, work)?;
    let rest = at.node.prefix().partial_after(alloc, at.from)?;
    let rest = at.node.copy_under(alloc, version, rest)?;
    copy.add_child(alloc, byte, NodeRef::new(alloc, rest, work)?, work)?;
    Ok(Some(copy))
}

/// The same for a node at its prefix's end.
fn gain_children<P: Partial, V: Clone + Drop>(
    alloc: Global,
    node: &VersionedNode<P, V>,
    part: Part<P, V>,
    other: &VersionedNode<P, V>,
    version: u64,
    work: &mut Work,
) -> Result<Part<P, V>, AllocError>
    requires clones { ClonesEqual V.is_clone }
    requires order { IsOrdered (shape_now node.now.shape part) }
    requires other_order { IsOrdered other.now.shape }
    ensures gains { IfOk result (λ after. Gains (shape_now node.now.shape part)
        (with_prefix [] other.now.shape) (shape_now node.now.shape after)) }
    ensures changed { IfOk result (λ after. is_some after ≡ true → (is_some part ≡ true)
        ⊎ HasMore (shape_now node.now.shape part) (with_prefix [] other.now.shape)) }
    ensures still { work.new ≡ work.old }
{
    let alone = bytes_alone(node_now(node, &part), other);
    let count = count_among(other, &alone);
    let value = value_alone(node_now(node, &part), other)?;
    if count == 0 && value.is_none() {
        return Ok(part);
    }
    let copy = with_room_for(alloc, node, part, count, version, work)?;
    let copy = with_children(alloc, copy, other, alone, work)?;
    Ok(Some(with_value(copy, value)))
}

/// The node with the children of another under these bytes, under which it has none, and for which
/// it has room.
fn with_children<P: Partial, V: Clone + Drop>(
    alloc: Global,
    node: VersionedNode<P, V>,
    other: &VersionedNode<P, V>,
    bytes: ByteSet,
    work: &mut Work,
) -> Result<VersionedNode<P, V>, AllocError>
    requires order { IsOrdered node.shape }
    requires other_order { IsOrdered other.now.shape }
    requires there { HaveChild bytes (children_of other.now.shape) }
    requires absent { HaveNone bytes (children_of node.shape) }
    requires room { HasRoom (length (children_among bytes (children_of other.now.shape)))
        node.shape }
    ensures added { IfOk result (λ it. HasAdded bytes other.now.shape node.shape it.shape) }
    ensures still { work.new ≡ work.old }
{
    let mut joined = node;
    let mut left = BytesLeft::new(bytes);
    'adding: while let Some(byte) = left.take_first() {
        let Some(child) = other.seek_child(byte) else {
            unreachable!();
        };
        joined.add_child(alloc, byte, child.copy()?, work)?;
    }
    Ok(joined)
}

/// A clone of the value of another node, where a node has none.
fn value_alone<P: Partial, V: Clone + Drop>(
    node: &VersionedNode<P, V>,
    other: &VersionedNode<P, V>,
) -> Result<Option<V>, AllocError>
    requires clones { ClonesEqual V.is_clone }
    ensures { IfOk result (λ value. value
        ≡ unless (value_of other.now.shape) (value_of node.now.shape)) }
{
    if node.value().is_some() {
        return Ok(None);
    }
    value_copy(other)
}

/// The node with this value, where there is one.
fn with_value<P: Partial, V: Drop>(
    node: VersionedNode<P, V>,
    value: Option<V>,
) -> VersionedNode<P, V>
    ensures { result.shape ≡ with_own value node.shape }
{
    let Some(value) = value else {
        return node;
    };
    let mut valued = node;
    let _ = valued.set_value(value);
    valued
}

/// The bytes under which a node has a child and another has none.
fn bytes_alone<P: Partial, V: Drop>(
    node: &VersionedNode<P, V>,
    other: &VersionedNode<P, V>,
) -> ByteSet
    requires order { IsAscending node.now.shape }
    requires other_order { IsAscending other.now.shape }
    ensures { AreAlone result (children_of node.now.shape) (children_of other.now.shape) }
{
    let mut alone = ByteSet::new();
    let mut left = BytesLeft::new(other.bytes());
    'finding: while let Some(byte) = left.take_first() {
        if node.seek_child(byte).is_none() {
            alone.insert(byte);
        }
    }
    alone
}

/// The copy of a node, made now where there is none yet, with room for so many children more.
fn with_room_for<P: Partial, V: Clone + Drop>(
    alloc: Global,
    node: &VersionedNode<P, V>,
    part: Part<P, V>,
    count: usize,
    version: u64,
    work: &mut Work,
) -> Result<VersionedNode<P, V>, AllocError>
    requires clones { ClonesEqual V.is_clone }
    requires order { IsOrdered (shape_now node.now.shape part) }
    requires few { count ≤ 256 }
    ensures room { IfOk result (λ copy. HasRoomFor count (shape_now node.now.shape part)
        copy.shape) }
    ensures still { work.new ≡ work.old }
{
    let now = node_now(node, &part);
    let all = now.num_children() + count;
    if now.has_room_for(all) {
        return copied(alloc, node, part, version);
    }
    made_among(alloc, now, &now.bytes(), all, version, work)
}
