// Ported from rart 0.11.0 (Apache-2.0), and rewritten.
//! The way down a tree to a value that is put at a key.
ghost use Rattle.std.specs.Prelude.{◌≡◌, ℕ, ◌+◌, ◌<◌, ◌≤◌, None, Some, IfOk, OnOk, [], ◌++◌, length, drop, slice_get};
ghost use Rattle.rart_below.specs.Bytes.{IsAdmitted, common_length};
ghost use Rattle.rart_below.specs.Children.{child_at};
ghost use Rattle.rart_below.specs.Clones.{ClonesEqual};
ghost use Rattle.rart_node.specs.Counts.{CountsUpTo};
ghost use Rattle.rart_node.specs.Shape.{children_of, node_of, prefix_of, value_of};
ghost use Rattle.rart_node.specs.Trees.{BeginsWith, IsOrdered, IsTree, Puts, cut_at, ending, path_bound};

use rart_below::Partial;
use rart_node::{NodeRef, VersionedNode, Work, rest_of};
use std::alloc::{AllocError, Global};

/// Puts a value at a key below a pointer, and gives the value that was there. Refused for memory,
/// the pointer shows what it showed.
///
/// Of the nodes that are made at most two are more than the key has bytes; below a root one, since
/// there the prefix and the key begin with one byte.
///
/// It calls itself once for each node of the way. `split`, which only the last of them may call, is
/// not inlined, so that a level takes little of the machine's stack.
pub fn insert_below<P: Partial, V: Clone + Drop>(
    alloc: Global,
    at: &mut NodeRef<P, V>,
    key: &[u8],
    value: V,
    version: u64,
    work: &mut Work,
) -> Result<Option<V>, AllocError>
    requires clones { ClonesEqual V.is_clone }
    requires admitted { IsAdmitted P.MAXIMUM_SIZE (length key.now) }
    requires tree { IsTree at.old.shape }
    ensures puts { Puts result key.now value at.old.shape at.new.shape }
    ensures counted { CountsUpTo (path_bound at.old.shape key.now) (length key.now + 2)
        work.old work.new }
    ensures entered { work.old.entered < work.new.entered }
    ensures made { work.old.made < work.new.made }
    ensures made_below { (byte : ℕ) → BeginsWith byte (prefix_of at.old.shape)
        → BeginsWith byte key.now → work.new.made ≤ work.old.made + length key.now + 1 }
{
    let node = at.open_mut(work)?;
    let common = node.prefix().prefix_length_slice(key);
    if common < node.prefix().len() {
        return split(alloc, node, key, common, value, version, work);
    }
    let rest = rest_of(key, common);
    match rest.first().copied() {
        None => finish(alloc, node, rest, value, version, work),
        Some(byte) => match node.seek_child_mut(byte) {
            None => finish(alloc, node, rest, value, version, work),
            Some(child) => insert_below(alloc, child, rest, value, version, work),
        },
    }
}

/// Puts a value at a key that leaves a node's prefix behind the bytes that they have in common: the
/// node gets a parent with these. Nothing was there. Refused for memory, the node is as before.
#[inline(never)]
fn split<P: Partial, V: Clone + Drop>(
    alloc: Global,
    node: &mut VersionedNode<P, V>,
    key: &[u8],
    common: usize,
    value: V,
    version: u64,
    work: &mut Work,
) -> Result<Option<V>, AllocError>
    requires clones { ClonesEqual V.is_clone }
    requires admitted { IsAdmitted P.MAXIMUM_SIZE (length key.now) }
    requires tree { IsTree node.old.shape }
    requires common { common ≡ common_length (prefix_of node.old.shape) key.now }
    requires inside { common < length (prefix_of node.old.shape) }
    ensures puts { Puts result key.now value node.old.shape node.new.shape }
    ensures counted { CountsUpTo 0 (length (drop common key.now) + 1) work.old work.new }
{
    let mut upper = cut(alloc, node, common, version, work)?;
    let old = finish(
        alloc,
        &mut upper,
        rest_of(key, common),
        value,
        version,
        work,
    )?;
    *node = upper;
    Ok(old)
}

/// Puts a value at the end of a node's prefix, where nothing is left of a key, or in a new leaf
/// below it, and gives the value that was there. The node has a value or a child: one that was cut
/// has one child, and gets the value or the second. Refused for memory, the node is as before.
fn finish<P: Partial, V: Clone + Drop>(
    alloc: Global,
    node: &mut VersionedNode<P, V>,
    rest: &[u8],
    value: V,
    version: u64,
    work: &mut Work,
) -> Result<Option<V>, AllocError>
    requires admitted { IsAdmitted P.MAXIMUM_SIZE (length rest.now) }
    requires order { IsOrdered node.old.shape }
    requires some { value_of node.old.shape ≡ None → 0 < length (children_of node.old.shape) }
    requires absent { (byte : ℕ) → slice_get rest.now 0 ≡ Some byte
        → child_at byte (children_of node.old.shape) ≡ None }
    ensures puts { Puts result (prefix_of node.old.shape ++ rest.now) value
        node.old.shape node.new.shape }
    ensures counted { CountsUpTo 0 (ending node.old.shape rest.now) work.old work.new }
{
    match rest.first() {
        None => Ok(node.set_value(value)),
        Some(byte) => {
            let leaf = leaf_of(alloc, rest, value, version, work)?;
            node.add_child(alloc, *byte, leaf, work)?;
            Ok(None)
        }
    }
}

/// A copy of a node, cut inside its prefix: one node made, that below the cut.
pub fn cut<P: Partial, V: Clone + Drop>(
    alloc: Global,
    node: &VersionedNode<P, V>,
    at: usize,
    version: u64,
    work: &mut Work,
) -> Result<VersionedNode<P, V>, AllocError>
    requires clones { ClonesEqual V.is_clone }
    requires inside { at < length (prefix_of node.now.shape) }
    ensures cut { IfOk result (λ upper. upper.shape ≡ cut_at at node.now.shape) }
    ensures counted { CountsUpTo 0 1 work.old work.new }
    ensures made { OnOk result (work.new.made ≡ work.old.made + 1) }
{
    let prefix = node.prefix();
    let below = prefix.partial_after(alloc, at)?;
    let lower = node.copy_under(alloc, version, below)?;
    let mut upper = VersionedNode::new_inner(alloc, prefix.partial_before(alloc, at)?, version)?;
    let lower = NodeRef::new(alloc, lower, work)?;
    upper.add_child(alloc, prefix.at(at), lower, work)?;
    Ok(upper)
}

/// A leaf with these bytes of a key: one node made.
pub fn leaf_of<P: Partial, V: Clone + Drop>(
    alloc: Global,
    rest: &[u8],
    value: V,
    version: u64,
    work: &mut Work,
) -> Result<NodeRef<P, V>, AllocError>
    requires { IsAdmitted P.MAXIMUM_SIZE (length rest.now) }
    ensures leaf { IfOk result (λ leaf. leaf.shape ≡ node_of rest.now (Some value) 0 []) }
    ensures counted { CountsUpTo 0 1 work.old work.new }
    ensures made { OnOk result (work.new.made ≡ work.old.made + 1) }
{
    let prefix = P::new_from_slice(alloc, rest)?;
    NodeRef::new(
        alloc,
        VersionedNode::new_leaf(alloc, prefix, value, version),
        work,
    )
}
