// Ported from rart 0.11.0 (Apache-2.0), and rewritten.
//! All that stands under a prefix: kept as a tree of its own, taken out, or put in its place.
//!
//! It is one node and what is below that, so each takes a way along the prefix, and leaves what is
//! below alone.
ghost use Rattle.std.specs.Prelude.{◌≡◌, ◌+◌, ◌*◌, ◌<◌, false, IfOk, IsSome, IsTrue, OnErr, OnOk};
ghost use Rattle.std.specs.Option.{option_map};
ghost use Rattle.rart_below.specs.Children.{child_at};
ghost use Rattle.rart_below.specs.Clones.{ClonesEqual};
ghost use Rattle.rart_node.specs.Counts.{CountsUpTo};
ghost use Rattle.rart_node.specs.Seen.{shape_of};
ghost use Rattle.rart_node.specs.Shape.{children_of};
ghost use Rattle.rart_node.specs.Trees.{IsTree, path_bound};
ghost use Rattle.rart_ways.specs.Prefixes.{HasNoneUnder, HasSomeUnder, IsCleared, IsClearedSo, IsPutUnder};
ghost use Rattle.rart_ways.specs.Prefixes.{IsUnderAlone, IsWithoutChild, StandsBelow};
ghost use Rattle.rart_ways.specs.Removals.{AreAdmitted};

mod ending;
mod grafting;

use crate::lending::path::{Path, Whole, next_byte};
use crate::removal::plan::can_lose_a_child;
use ending::prefix_end;
use grafting::put_below;
use rart_below::Partial;
use rart_node::{NodeRef, VersionedNode, Work};
use std::alloc::{AllocError, Global};

/// What was done to take out all under a prefix.
#[derive(Drop)]
pub enum Cleared {
    /// Nothing: there was none.
    Nothing,
    /// It was taken out, and something else stays.
    Part,
    /// Nothing, as there is nothing else: the root is to go.
    Whole,
}

/// Whether a prefix begins a key below a root.
///
/// Each node of the way along the prefix is entered once. It takes no memory.
pub fn has_under<P: Partial, V: Drop>(root: &NodeRef<P, V>, prefix: &[u8], work: &mut Work) -> bool
    requires tree { IsTree root.now.shape }
    ensures there { IsTrue result → HasSomeUnder prefix.now root.now.shape }
    ensures none { result ≡ false → HasNoneUnder prefix.now root.now.shape }
    ensures counted { CountsUpTo (path_bound root.now.shape prefix.now) 0 work.old work.new }
    ensures entered { work.old.entered < work.new.entered }
{
    prefix_end(root, prefix, work).is_some()
}

/// A root of its own for all that stands under a prefix below another, or `None` where nothing
/// does. What is below the node that has it is shared. Refused for memory, there is none.
///
/// Each node of the way along the prefix is entered once, and at most one node is made.
pub fn keep_under<P: Partial, V: Clone + Drop>(
    alloc: Global,
    root: &NodeRef<P, V>,
    prefix: &[u8],
    version: u64,
    work: &mut Work,
) -> Result<Option<NodeRef<P, V>>, AllocError>
    requires clones { ClonesEqual V.is_clone }
    requires tree { IsTree root.now.shape }
    requires lengths { AreAdmitted P.MAXIMUM_SIZE root.now.shape }
    ensures kept { IfOk result (λ kept. IsUnderAlone prefix.now root.now.shape
        (option_map shape_of kept)) }
    ensures present { OnErr result (HasSomeUnder prefix.now root.now.shape) }
    ensures counted { CountsUpTo (path_bound root.now.shape prefix.now) 1 work.old work.new }
    ensures entered { work.old.entered < work.new.entered }
    ensures absent_makes_none { HasNoneUnder prefix.now root.now.shape
        → work.new.made ≡ work.old.made }
{
    let Some(end) = prefix_end(root, prefix, work) else {
        return Ok(None);
    };
    Ok(Some(end.behind(alloc, 0, version, work)?))
}

/// Puts all that stands under a prefix below one root in place of all that stands there below
/// another, and answers whether there is any: where there is none, nothing is done. What is below
/// the node that has it is shared. Refused for memory, the other root is as before.
///
/// Each node of the way along the prefix is entered once below either root, and at most two more
/// are made than there are on that way below the other one.
pub fn put_under<P: Partial, V: Clone + Drop>(
    alloc: Global,
    root: &mut NodeRef<P, V>,
    prefix: &[u8],
    from: &NodeRef<P, V>,
    version: u64,
    work: &mut Work,
) -> Result<bool, AllocError>
    requires clones { ClonesEqual V.is_clone }
    requires tree { IsTree root.old.shape }
    requires tree_from { IsTree from.now.shape }
    requires lengths_from { AreAdmitted P.MAXIMUM_SIZE from.now.shape }
    ensures put { IfOk result (λ any. IsPutUnder any prefix.now from.now.shape root.old.shape
        root.new.shape) }
    ensures refused { OnErr result (root.new.shape ≡ root.old.shape) }
    ensures present { OnErr result (HasSomeUnder prefix.now from.now.shape) }
    ensures counted { CountsUpTo
        (path_bound from.now.shape prefix.now + path_bound root.old.shape prefix.now)
        (path_bound root.old.shape prefix.now + 2) work.old work.new }
    ensures counted_where_none { IfOk result (λ any. any ≡ false
        → CountsUpTo (path_bound from.now.shape prefix.now) 0 work.old work.new) }
    ensures entered { work.old.entered < work.new.entered }
    ensures absent_makes_none { HasNoneUnder prefix.now from.now.shape
        → work.new.made ≡ work.old.made }
{
    let Some(end) = prefix_end(from, prefix, work) else {
        return Ok(false);
    };
    put_below(alloc, root, &end, 0, version, work)?;
    Ok(true)
}

/// Takes out all that stands under a prefix. Where nothing else stands there, the root stays as it
/// was, and is to go. Refused for memory, and where there is nothing, all is as before.
///
/// Each node of the way along the prefix is entered at most twice, and the root at least; at most
/// one is made for each. Where there is nothing, nothing is refused and none is made.
pub fn clear_below<P: Partial, V: Clone + Drop>(
    alloc: Global,
    root: &mut NodeRef<P, V>,
    prefix: &[u8],
    version: u64,
    work: &mut Work,
) -> Result<Cleared, AllocError>
    requires clones { ClonesEqual V.is_clone }
    requires tree { IsTree root.old.shape }
    requires lengths { AreAdmitted P.MAXIMUM_SIZE root.old.shape }
    ensures cleared { IfOk result (λ cleared. IsClearedSo cleared prefix.now
        root.old.shape root.new.shape) }
    ensures refused { OnErr result (root.new.shape ≡ root.old.shape) }
    ensures present { OnErr result (HasSomeUnder prefix.now root.old.shape) }
    ensures counted { CountsUpTo (2 * path_bound root.old.shape prefix.now)
        (path_bound root.old.shape prefix.now) work.old work.new }
    ensures entered { work.old.entered < work.new.entered }
    ensures absent_makes_none { HasNoneUnder prefix.now root.old.shape
        → work.new.made ≡ work.old.made }
{
    let Some(end) = prefix_end(root, prefix, work) else {
        return Ok(Cleared::Nothing);
    };
    let steps = end.steps;
    if steps == 0 {
        return Ok(Cleared::Whole);
    }
    cut_off(alloc, root, prefix, steps - 1, version, work)?;
    Ok(Cleared::Part)
}

/// Takes out all that stands under a prefix, which is a child of the node `steps` nodes down.
/// Refused for memory, all is as before.
fn cut_off<P: Partial, V: Clone + Drop>(
    alloc: Global,
    root: &mut NodeRef<P, V>,
    prefix: &[u8],
    steps: usize,
    version: u64,
    work: &mut Work,
) -> Result<(), AllocError>
    requires clones { ClonesEqual V.is_clone }
    requires tree { IsTree root.old.shape }
    requires lengths { AreAdmitted P.MAXIMUM_SIZE root.old.shape }
    requires stands { StandsBelow prefix.now root.old.shape steps }
    ensures cleared { OnOk result (IsCleared prefix.now root.old.shape root.new.shape) }
    ensures refused { OnErr result (root.new.shape ≡ root.old.shape) }
    ensures counted { CountsUpTo (steps + 2) (steps + 1) work.old work.new }
{
    let mut passed = 0;
    let node = Whole::down(root, prefix, &mut passed, steps, work)?;
    let byte = next_byte(node, prefix, &mut passed);
    lose_child(alloc, node, byte, version, work)
}

/// Takes the child under a byte out of a node, which is merged with its only child where it is left
/// without a value and with one. Refused for memory, the node is as before.
fn lose_child<P: Partial, V: Clone + Drop>(
    alloc: Global,
    node: &mut VersionedNode<P, V>,
    byte: u8,
    version: u64,
    work: &mut Work,
) -> Result<(), AllocError>
    requires clones { ClonesEqual V.is_clone }
    requires tree { IsTree node.old.shape }
    requires lengths { AreAdmitted P.MAXIMUM_SIZE node.old.shape }
    requires there { IsSome (child_at byte (children_of node.old.shape)) }
    ensures lost { OnOk result (IsWithoutChild byte node.old.shape node.new.shape) }
    ensures refused { OnErr result (node.new.shape ≡ node.old.shape) }
    ensures counted { CountsUpTo 1 0 work.old work.new }
{
    if can_lose_a_child(node) {
        let _ = node.delete_child(byte);
        return Ok(());
    }
    let mut copy = node.cow_clone_inner(alloc, version)?;
    let _ = copy.delete_child(byte);
    *node = copy.merge_child(alloc, version, work)?;
    Ok(())
}
