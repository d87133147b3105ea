//! A node of which some children change: it is copied once, with the first that does.
ghost use Rattle.std.specs.Prelude.{◌≡◌, ◌⊎◌, ◌<◌, ◌≤◌, ◌||◌, IfOk, IsSome, true, false, not, is_some, length};
ghost use Rattle.std.specs.Option.{option_map};
ghost use Rattle.rart_below.specs.Children.{child_at};
ghost use Rattle.rart_below.specs.Clones.{ClonesEqual};
ghost use Rattle.rart_node.specs.Counts.{CountsUpTo};
ghost use Rattle.rart_node.specs.Seen.{shape_of};
ghost use Rattle.rart_node.specs.Shape.{IsAscending, children_of, prefix_of};
ghost use Rattle.rart_node.specs.Trees.{IsOrdered};
ghost use Rattle.rart_ways.specs.Removals.{AreAdmitted};
ghost use Rattle.rart_algebra.specs.Parts.{IsPackedOr, IsSettled, is_same, losing, merges, packs, parted, shape_now, with_made};

use crate::made::Made;
use rart_below::Partial;
use rart_node::{NodeRef, VersionedNode, Work};
use rart_ways::cut;
use std::alloc::{AllocError, Global};

/// What has become of a node: nothing yet, or a copy that has changed.
pub(crate) type Part<P, V> = Option<VersionedNode<P, V>>;

/// The node as it is now.
pub(crate) fn node_now<'n, P: Partial, V: Drop>(
    node: &'n VersionedNode<P, V>,
    part: &'n Part<P, V>,
) -> &'n VersionedNode<P, V>
    ensures { result.now.shape ≡ shape_now node.now.shape part.now }
{
    match part {
        Some(copy) => copy,
        None => node,
    }
}

/// What a node is behind so many bytes of its prefix: a copy that is cut there, or the node itself
/// where its prefix ends there.
#[inline(never)]
pub(crate) fn cut_inside<P: Partial, V: Clone + Drop>(
    alloc: Global,
    node: &VersionedNode<P, V>,
    count: usize,
    version: u64,
    work: &mut Work,
) -> Result<Part<P, V>, AllocError>
    requires clones { ClonesEqual V.is_clone }
    requires within { count ≤ length (prefix_of node.now.shape) }
    ensures cut { IfOk result (λ part. shape_now node.now.shape part
        ≡ parted count node.now.shape) }
    ensures inside { IfOk result (λ part. is_some part ≡ true
        → count < length (prefix_of node.now.shape)) }
    ensures counted { CountsUpTo 0 1 work.old work.new }
    ensures still { count ≡ length (prefix_of node.now.shape) → work.new ≡ work.old }
{
    if count < node.prefix().len() {
        return Ok(Some(cut(alloc, node, count, version, work)?));
    }
    Ok(None)
}

/// The copy of a node, made now where there is none yet.
pub(crate) fn copied<P: Partial, V: Clone + Drop>(
    alloc: Global,
    node: &VersionedNode<P, V>,
    part: Part<P, V>,
    version: u64,
) -> Result<VersionedNode<P, V>, AllocError>
    requires clones { ClonesEqual V.is_clone }
    ensures { IfOk result (λ copy. copy.shape ≡ shape_now node.now.shape part) }
{
    match part {
        Some(copy) => Ok(copy),
        None => node.cow_clone_inner(alloc, version),
    }
}

/// The node once this has become of the child under a byte.
pub(crate) fn with_made<P: Partial, V: Clone + Drop>(
    alloc: Global,
    node: &VersionedNode<P, V>,
    part: Part<P, V>,
    byte: u8,
    made: Made<P, V>,
    version: u64,
) -> Result<Part<P, V>, AllocError>
    requires clones { ClonesEqual V.is_clone }
    requires order { IsAscending (shape_now node.now.shape part) }
    requires there { IsSome (child_at byte (children_of (shape_now node.now.shape part))) }
    ensures made { IfOk result (λ after. shape_now node.now.shape after
        ≡ with_made byte made (shape_now node.now.shape part)) }
    ensures changed { IfOk result (λ after. is_some after
        ≡ (is_some part || not (is_same made))) }
{
    match made {
        Made::Same => Ok(part),
        Made::Nothing => {
            let mut copy = copied(alloc, node, part, version)?;
            let _ = copy.delete_child(byte);
            Ok(Some(copy))
        }
        Made::Node(child) => {
            let mut copy = copied(alloc, node, part, version)?;
            let _ = copy.replace_child(byte, child);
            Ok(Some(copy))
        }
    }
}

/// What becomes of a node whose children have become this, and whose value goes or stays.
#[inline(never)]
pub(crate) fn settle<P: Partial, V: Clone + Drop>(
    alloc: Global,
    node: &VersionedNode<P, V>,
    part: Part<P, V>,
    goes: bool,
    version: u64,
    work: &mut Work,
) -> Result<Made<P, V>, AllocError>
    requires clones { ClonesEqual V.is_clone }
    requires order { IsOrdered (losing goes (shape_now node.now.shape part)) }
    requires lengths { AreAdmitted P.MAXIMUM_SIZE
        (losing goes (shape_now node.now.shape part)) }
    ensures settled { IfOk result (λ made. IsSettled node.now.shape
        (losing goes (shape_now node.now.shape part)) made) }
    ensures counted { CountsUpTo (merges (losing goes (shape_now node.now.shape part)))
        (packs (losing goes (shape_now node.now.shape part))) work.old work.new }
    ensures changed { IfOk result (λ made. is_same made ≡ false
        → (goes ≡ true) ⊎ (is_some part ≡ true)) }
    ensures still { goes ≡ false → is_some part ≡ false → work.new ≡ work.old }
{
    if !goes && part.is_none() {
        return Ok(Made::Same);
    }
    let mut copy = copied(alloc, node, part, version)?;
    if goes {
        let _ = copy.take_value();
    }
    match pack(alloc, copy, version, work)? {
        None => Ok(Made::Nothing),
        Some(packed) => Ok(Made::Node(packed)),
    }
}

/// A pointer to a node: to itself where it has a value or two children, to it merged with its only
/// child, or none where it has neither value nor child.
fn pack<P: Partial, V: Clone + Drop>(
    alloc: Global,
    node: VersionedNode<P, V>,
    version: u64,
    work: &mut Work,
) -> Result<Option<NodeRef<P, V>>, AllocError>
    requires clones { ClonesEqual V.is_clone }
    requires order { IsOrdered node.shape }
    requires lengths { AreAdmitted P.MAXIMUM_SIZE node.shape }
    ensures packed { IfOk result (λ it. IsPackedOr node.shape (option_map shape_of it)) }
    ensures counted { CountsUpTo (merges node.shape) (packs node.shape) work.old work.new }
{
    if node.value().is_some() || node.num_children() > 1 {
        return Ok(Some(NodeRef::new(alloc, node, work)?));
    }
    if node.num_children() == 0 {
        return Ok(None);
    }
    let merged = node.merge_child(alloc, version, work)?;
    Ok(Some(NodeRef::new(alloc, merged, work)?))
}
