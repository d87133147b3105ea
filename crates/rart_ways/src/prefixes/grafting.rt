// Ported from rart 0.11.0 (Apache-2.0), and rewritten.
//! The way down a tree to where all that stands under a prefix is put.
ghost use Rattle.std.specs.Prelude.{◌≡◌, ◌+◌, ◌<◌, ◌≤◌, ◌++◌, None, IfOk, IsTrue, OnErr, OnOk, drop, length, slice_index};
ghost use Rattle.rart_below.specs.Bytes.{begins};
ghost use Rattle.rart_below.specs.Children.{child_at};
ghost use Rattle.rart_below.specs.Clones.{ClonesEqual};
ghost use Rattle.rart_node.specs.Counts.{CountsUpTo};
ghost use Rattle.rart_node.specs.Shape.{IsAscending, children_of, prefix_of, widenings, with_added};
ghost use Rattle.rart_node.specs.Trees.{IsTree, cut_at, found, path_bound};
ghost use Rattle.rart_ways.specs.Prefixes.{IsGrafted, IsPart, part_of, tail_of};

use super::ending::PrefixEnd;
use crate::insertion::cut;
use rart_below::Partial;
use rart_node::{NodeRef, VersionedNode, Work, rest_of};
use std::alloc::{AllocError, Global};

/// Puts all that a prefix begins below a pointer, in place of all that stands there under the
/// prefix, of which `above` bytes stand above the pointer. What is below its node is shared. Refused
/// for memory, the pointer shows what it showed.
///
/// It calls itself once for each node of the way along the prefix. `put_beside`, which only the
/// last of them may call, is not inlined, so that a level takes little of the machine's stack.
pub(crate) fn put_below<P: Partial, V: Clone + Drop>(
    alloc: Global,
    at: &mut NodeRef<P, V>,
    part: &PrefixEnd<'_, P, V>,
    above: usize,
    version: u64,
    work: &mut Work,
) -> Result<(), AllocError>
    requires clones { ClonesEqual V.is_clone }
    requires tree { IsTree at.old.shape }
    requires part { IsPart P.MAXIMUM_SIZE part.now }
    requires within { above ≤ length part.now.prefix.now }
    ensures grafted { OnOk result (IsGrafted (drop above part.now.prefix.now)
        (λ rest. found (part_of part.now) (part.now.prefix.now ++ rest))
        at.old.shape at.new.shape) }
    ensures refused { OnErr result (at.new.shape ≡ at.old.shape) }
    ensures counted { CountsUpTo (path_bound at.old.shape (drop above part.now.prefix.now))
        (path_bound at.old.shape (drop above part.now.prefix.now) + 2) work.old work.new }
    ensures entered { work.old.entered < work.new.entered }
{
    let node = at.open_mut(work)?;
    let rest = rest_of(part.prefix, above);
    let common = node.prefix().prefix_length_slice(rest);
    if common == rest.len() {
        *node = part.node_behind(alloc, above, version)?;
        return Ok(());
    }
    let below = above + common;
    if common < node.prefix().len() {
        return put_beside(alloc, node, common, part, below, version, work);
    }
    match node.seek_child_mut(part.prefix[below]) {
        None => add_part(alloc, node, part, below, version, work),
        Some(child) => put_below(alloc, child, part, below, version, work),
    }
}

/// Cuts a node inside its prefix, and puts a part beside it, of whose prefix `above` bytes stand
/// above the cut. Refused for memory, the node is as before.
#[inline(never)]
fn put_beside<P: Partial, V: Clone + Drop>(
    alloc: Global,
    node: &mut VersionedNode<P, V>,
    common: usize,
    part: &PrefixEnd<'_, P, V>,
    above: usize,
    version: u64,
    work: &mut Work,
) -> Result<(), AllocError>
    requires clones { ClonesEqual V.is_clone }
    requires tree { IsTree node.old.shape }
    requires inside { common < length (prefix_of node.old.shape) }
    requires part { IsPart P.MAXIMUM_SIZE part.now }
    requires within { above < length part.now.prefix.now }
    requires absent { child_at (slice_index part.now.prefix.now above)
        (children_of (cut_at common node.old.shape)) ≡ None }
    ensures put { OnOk result (node.new.shape ≡ with_added (slice_index part.now.prefix.now above)
        (tail_of above (part_of part.now)) (cut_at common node.old.shape)) }
    ensures refused { OnErr result (node.new.shape ≡ node.old.shape) }
    ensures counted { CountsUpTo 0 2 work.old work.new }
{
    let mut upper = cut(alloc, node, common, version, work)?;
    add_part(alloc, &mut upper, part, above, version, work)?;
    *node = upper;
    Ok(())
}

/// Gives a node a part as a child, of whose prefix `above` bytes stand above the child. Refused for
/// memory, the node is as before.
fn add_part<P: Partial, V: Clone + Drop>(
    alloc: Global,
    node: &mut VersionedNode<P, V>,
    part: &PrefixEnd<'_, P, V>,
    above: usize,
    version: u64,
    work: &mut Work,
) -> Result<(), AllocError>
    requires clones { ClonesEqual V.is_clone }
    requires order { IsAscending node.old.shape }
    requires part { IsPart P.MAXIMUM_SIZE part.now }
    requires within { above < length part.now.prefix.now }
    requires absent { child_at (slice_index part.now.prefix.now above)
        (children_of node.old.shape) ≡ None }
    ensures added { OnOk result (node.new.shape ≡ with_added
        (slice_index part.now.prefix.now above) (tail_of above (part_of part.now))
        node.old.shape) }
    ensures refused { OnErr result (node.new.shape ≡ node.old.shape) }
    ensures counted { CountsUpTo 0 (widenings node.old.shape + 1) work.old work.new }
{
    let child = part.behind(alloc, above, version, work)?;
    node.add_child(alloc, part.prefix[above], child, work)
}
