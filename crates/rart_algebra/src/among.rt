//! The children of a node that stand under bytes of a set: how many there are, and the node with
//! these alone.
ghost use Rattle.std.specs.Prelude.{◌≡◌, ◌≤◌, ℕ, IfOk, length};
ghost use Rattle.rart_below.specs.ByteSets.{has_byte};
ghost use Rattle.rart_below.specs.Clones.{ClonesEqual};
ghost use Rattle.rart_node.specs.Shape.{IsAscending, children_of, value_of, width_for, width_of};
ghost use Rattle.rart_algebra.specs.Among.{HaveChild, KeepsAmong, children_among};
ghost use Rattle.rart_algebra.specs.Parts.{shape_now};

use crate::part::Part;
use rart_below::{ByteSet, BytesLeft, Partial};
use rart_node::{VersionedNode, Work};
use std::alloc::{AllocError, Global};

/// The same bytes, to be taken once more.
fn again(bytes: &ByteSet) -> ByteSet
    ensures { (byte : ℕ) → has_byte result byte ≡ has_byte bytes.now byte }
{
    bytes.common(bytes)
}

/// How many children of a node stand under these bytes, each of which has one.
pub(crate) fn count_among<P: Partial, V: Drop>(node: &VersionedNode<P, V>, bytes: &ByteSet) -> usize
    requires order { IsAscending node.now.shape }
    requires there { HaveChild bytes.now (children_of node.now.shape) }
    ensures count { result ≡ length (children_among bytes.now (children_of node.now.shape)) }
    ensures few { result ≤ 256 }
{
    // (for the proof: no node has more children than its width, so the sum below fits)
    let _all = node.num_children();
    let mut count = 0;
    let mut left = BytesLeft::new(again(bytes));
    'counting: while let Some(_byte) = left.take_first() {
        count += 1;
    }
    count
}

/// What becomes of a node that keeps its children under these bytes alone, so many of them. Nothing
/// is copied where these are all.
#[inline(never)]
pub(crate) fn keep_among<P: Partial, V: Clone + Drop>(
    alloc: Global,
    node: &VersionedNode<P, V>,
    bytes: &ByteSet,
    count: usize,
    version: u64,
    work: &mut Work,
) -> Result<Part<P, V>, AllocError>
    requires clones { ClonesEqual V.is_clone }
    requires order { IsAscending node.now.shape }
    requires there { HaveChild bytes.now (children_of node.now.shape) }
    requires count { count ≡ length (children_among bytes.now (children_of node.now.shape)) }
    ensures kept { IfOk result (λ part. KeepsAmong bytes.now node.now.shape
        (shape_now node.now.shape part)) }
    ensures still { work.new ≡ work.old }
{
    if count == node.num_children() {
        return Ok(None);
    }
    Ok(Some(made_among(alloc, node, bytes, count, version, work)?))
}

/// A node with the prefix and the value of another, and with that one's children under these bytes.
/// It has room for so many, which they are at most, so that it is not widened.
pub(crate) fn made_among<P: Partial, V: Clone + Drop>(
    alloc: Global,
    node: &VersionedNode<P, V>,
    bytes: &ByteSet,
    count: usize,
    version: u64,
    work: &mut Work,
) -> Result<VersionedNode<P, V>, AllocError>
    requires clones { ClonesEqual V.is_clone }
    requires order { IsAscending node.now.shape }
    requires there { HaveChild bytes.now (children_of node.now.shape) }
    requires room { length (children_among bytes.now (children_of node.now.shape)) ≤ count }
    ensures kept { IfOk result (λ made. KeepsAmong bytes.now node.now.shape made.shape) }
    ensures width { IfOk result (λ made. width_of made.shape ≡ width_for count) }
    ensures still { work.new ≡ work.old }
{
    let prefix = node.prefix().copy(alloc)?;
    let value = value_copy(node)?;
    let mut made = VersionedNode::with_room(alloc, prefix, value, count, version)?;
    let mut left = BytesLeft::new(again(bytes));
    'adding: while let Some(byte) = left.take_first() {
        let Some(child) = node.seek_child(byte) else {
            unreachable!();
        };
        made.add_child(alloc, byte, child.copy()?, work)?;
    }
    Ok(made)
}

/// A clone of a node's value, where there is one.
pub(crate) fn value_copy<P: Partial, V: Clone + Drop>(
    node: &VersionedNode<P, V>,
) -> Result<Option<V>, AllocError>
    requires clones { ClonesEqual V.is_clone }
    ensures { IfOk result (λ copy. copy ≡ value_of node.now.shape) }
{
    match node.value() {
        None => Ok(None),
        Some(value) => Ok(Some(value.clone()?)),
    }
}
