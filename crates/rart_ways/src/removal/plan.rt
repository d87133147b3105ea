// Ported from rart 0.11.0 (Apache-2.0), and rewritten.
//! The way down that finds a key, and what is to be done to remove it.
ghost use Rattle.std.specs.Prelude.{◌≡◌, ℕ, ◌+◌, ◌*◌, ◌<◌, ◌≤◌, true, false, List, None, IsSome, IfOk, OnErr, length};
ghost use Rattle.rart_below.specs.Bytes.{IsAdmitted};
ghost use Rattle.rart_below.specs.Clones.{ClonesEqual};
ghost use Rattle.rart_node.specs.Counts.{CountsUpTo};
ghost use Rattle.rart_node.specs.Shape.{Shape, HasOnly, IsAscending, children_of, merged, prefix_of, value_of};
ghost use Rattle.rart_node.specs.Trees.{IsTree, found, path_bound};
ghost use Rattle.rart_ways.specs.Plans.{IsPlan, LeadsToLeaf, Removes, cost_of, edit_cost_of, value_under};
ghost use Rattle.rart_ways.specs.Removals.{AreAdmitted, CountsLeaving};

use crate::removal::edit::Edit;
use crate::search::end::key_end;
use rart_below::Partial;
use rart_node::{NodeRef, VersionedNode, Work};
use std::alloc::{AllocError, Global};

/// What is to be done to remove a key.
#[derive(Drop)]
pub(crate) enum Plan<P: Partial, V> {
    /// Nothing: the key is absent.
    Absent,
    /// The node goes: the key ends there, and it has no child.
    Leaf,
    /// An edit, so many nodes down the way of the key.
    At(usize, Edit<P, V>),
}

/// What is to be done to remove a key below a pointer. Where the key is absent, nothing is refused
/// and no node made.
pub(crate) fn plan_below<P: Partial, V: Clone + Drop>(
    alloc: Global,
    root: &NodeRef<P, V>,
    key: &[u8],
    version: u64,
    work: &mut Work,
) -> Result<Plan<P, V>, AllocError>
    requires clones { ClonesEqual V.is_clone }
    requires tree { IsTree root.now.shape }
    requires lengths { AreAdmitted P.MAXIMUM_SIZE root.now.shape }
    ensures plan { IfOk result (λ plan. IsPlan plan key.now root.now.shape) }
    ensures present { OnErr result (IsSome (found root.now.shape key.now)) }
    ensures counted { CountsLeaving (cost_of result) (2 * path_bound root.now.shape key.now)
        (path_bound root.now.shape key.now) work.old work.new }
    ensures entered { work.old.entered < work.new.entered }
    ensures absent_makes_none { found root.now.shape key.now ≡ None
        → work.new.made ≡ work.old.made }
{
    let Some(end) = key_end(root, key, work) else {
        return Ok(Plan::Absent);
    };
    if end.node.value().is_none() {
        return Ok(Plan::Absent);
    }
    if end.node.num_children() > 0 {
        let edit = plan_here(alloc, end.node, version, work)?;
        return Ok(Plan::At(end.steps, edit));
    }
    let Some(above) = end.above else {
        return Ok(Plan::Leaf);
    };
    let edit = plan_without(alloc, above.node, above.byte, version, work)?;
    Ok(Plan::At(end.steps - 1, edit))
}

/// What is done at a node with a child to take out its value.
fn plan_here<P: Partial, V: Clone + Drop>(
    alloc: Global,
    node: &VersionedNode<P, V>,
    version: u64,
    work: &mut Work,
) -> Result<Edit<P, V>, AllocError>
    requires clones { ClonesEqual V.is_clone }
    requires tree { IsTree node.now.shape }
    requires lengths { AreAdmitted P.MAXIMUM_SIZE node.now.shape }
    requires child { 0 < length (children_of node.now.shape) }
    ensures removes { IfOk result (λ edit. Removes edit (prefix_of node.now.shape)
        node.now.shape) }
    ensures counted { CountsLeaving (edit_cost_of result) 1 1 work.old work.new }
{
    if node.num_children() > 1 {
        return Ok(Edit::Take);
    }
    let mut copy = node.cow_clone_inner(alloc, version)?;
    let value = copy.take_value();
    Ok(Edit::Replace(merge(alloc, &copy, version, work)?, value))
}

/// What is done at a node to take out the leaf under a byte.
fn plan_without<P: Partial, V: Clone + Drop>(
    alloc: Global,
    node: &VersionedNode<P, V>,
    byte: u8,
    version: u64,
    work: &mut Work,
) -> Result<Edit<P, V>, AllocError>
    requires clones { ClonesEqual V.is_clone }
    requires tree { IsTree node.now.shape }
    requires lengths { AreAdmitted P.MAXIMUM_SIZE node.now.shape }
    requires leaf { (key : List ℕ) × LeadsToLeaf byte key node.now.shape }
    ensures removes { IfOk result (λ edit. (key : List ℕ) → LeadsToLeaf byte key node.now.shape
        → Removes edit key node.now.shape) }
    ensures counted { CountsLeaving (edit_cost_of result) 2 2 work.old work.new }
{
    if can_lose_a_child(node) {
        return Ok(Edit::Prune(byte));
    }
    let value = value_under(node, byte, work)?;
    let mut copy = node.cow_clone_inner(alloc, version)?;
    let _ = copy.delete_child(byte);
    Ok(Edit::Replace(merge(alloc, &copy, version, work)?, value))
}

/// Whether a node that loses a child still has a value or two children.
pub(crate) fn can_lose_a_child<P: Partial, V: Drop>(node: &VersionedNode<P, V>) -> bool
    requires { IsTree node.now.shape }
    ensures stays { result ≡ true → value_of node.now.shape ≡ None
        → 2 < length (children_of node.now.shape) }
    ensures valueless { result ≡ false → value_of node.now.shape ≡ None }
    ensures few { result ≡ false → length (children_of node.now.shape) ≤ 2 }
{
    node.value().is_some() || node.num_children() > 2
}

/// A copy of the value of the child under a byte: one node entered.
fn value_under<P: Partial, V: Clone + Drop>(
    node: &VersionedNode<P, V>,
    byte: u8,
    work: &mut Work,
) -> Result<Option<V>, AllocError>
    requires clones { ClonesEqual V.is_clone }
    requires order { IsAscending node.now.shape }
    ensures value { IfOk result (λ value. value ≡ value_under byte node.now.shape) }
    ensures counted { CountsUpTo 1 0 work.old work.new }
{
    match node.seek_child(byte) {
        None => Ok(None),
        Some(child) => child.open(work).value().cloned(),
    }
}

/// A pointer to a node in place of this one, which has no value, and its only child: one node
/// entered and one made.
fn merge<P: Partial, V: Clone + Drop>(
    alloc: Global,
    node: &VersionedNode<P, V>,
    version: u64,
    work: &mut Work,
) -> Result<NodeRef<P, V>, AllocError>
    requires clones { ClonesEqual V.is_clone }
    requires valueless { value_of node.now.shape ≡ None }
    requires one { length (children_of node.now.shape) ≡ 1 }
    requires admitted { (byte : ℕ) (child : Shape V) → HasOnly byte child node.now.shape
        → IsAdmitted P.MAXIMUM_SIZE (length (prefix_of node.now.shape) + length (prefix_of child)) }
    ensures merged { IfOk result (λ it. (byte : ℕ) (child : Shape V)
        → HasOnly byte child node.now.shape
        → it.shape ≡ merged (prefix_of node.now.shape) child) }
    ensures counted { CountsUpTo 1 1 work.old work.new }
{
    NodeRef::new(alloc, node.merge_child(alloc, version, work)?, work)
}
