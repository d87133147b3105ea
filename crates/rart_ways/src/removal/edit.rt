// Ported from rart 0.11.0 (Apache-2.0), and rewritten.
//! What is done at one node, and the way down to it.
ghost use Rattle.std.specs.Prelude.{◌≡◌, ◌+◌, IsSome, None, IfOk, OnErr, OnOk};
ghost use Rattle.rart_below.specs.Children.{child_at};
ghost use Rattle.rart_below.specs.Clones.{ClonesEqual};
ghost use Rattle.rart_node.specs.Counts.{CountsUpTo};
ghost use Rattle.rart_node.specs.Shape.{children_of, value_of, with_deleted, with_value};
ghost use Rattle.rart_node.specs.Trees.{IsTaken, IsTree, found};
ghost use Rattle.rart_ways.specs.Plans.{Fits, RemovesBelow, edited, edit_cost, gone, value_under};

use rart_below::Partial;
use rart_node::{NodeRef, Work, rest_of};
use std::alloc::AllocError;
use std::mem;

/// What is done at a node.
#[derive(Drop)]
pub(crate) enum Edit<P: Partial, V> {
    /// Its value is taken out.
    Take,
    /// The child under this byte, a leaf, is taken out.
    Prune(u8),
    /// This node takes its place, and the value goes.
    Replace(NodeRef<P, V>, Option<V>),
}

/// Does an edit `depth` nodes down the way of a key, and gives the value that goes. Refused for
/// memory, all is as before. The edit is used up.
///
/// It calls itself once for each node of the way, and hands the edit on where it stands, so that a
/// level takes little of the machine's stack.
pub(crate) fn edit_below<P: Partial, V: Clone + Drop>(
    at: &mut NodeRef<P, V>,
    key: &[u8],
    depth: usize,
    edit: &mut Edit<P, V>,
    work: &mut Work,
) -> Result<Option<V>, AllocError>
    requires clones { ClonesEqual V.is_clone }
    requires tree { IsTree at.old.shape }
    requires planned { RemovesBelow depth edit.old key.now at.old.shape }
    ensures taken { OnOk result (IsTaken key.now at.old.shape at.new.shape) }
    ensures value { IfOk result (λ value. value ≡ found at.old.shape key.now) }
    ensures refused { OnErr result (at.new.shape ≡ at.old.shape) }
    ensures counted { let most = depth + edit_cost edit.old in
        CountsUpTo most most work.old work.new }
{
    if depth == 0 {
        return edit_here(at, mem::replace(edit, Edit::Take), work);
    }
    let node = at.open_mut(work)?;
    let rest = rest_of(key, node.prefix().len());
    let Some(byte) = rest.first() else {
        unreachable!();
    };
    let Some(child) = node.seek_child_mut(*byte) else {
        unreachable!();
    };
    edit_below(child, rest, depth - 1, edit, work)
}

/// Does an edit at a node, and gives the value that goes. Refused for memory, all is as before.
fn edit_here<P: Partial, V: Clone + Drop>(
    at: &mut NodeRef<P, V>,
    edit: Edit<P, V>,
    work: &mut Work,
) -> Result<Option<V>, AllocError>
    requires clones { ClonesEqual V.is_clone }
    requires tree { IsTree at.old.shape }
    requires fits { Fits edit at.old.shape }
    ensures taken { OnOk result (at.new.shape ≡ edited edit at.old.shape) }
    ensures value { IfOk result (λ value. value ≡ gone edit at.old.shape) }
    ensures refused { OnErr result (at.new.shape ≡ at.old.shape) }
    ensures counted { CountsUpTo (edit_cost edit) (edit_cost edit) work.old work.new }
{
    match edit {
        Edit::Take => take(at, work),
        Edit::Prune(byte) => prune(at, byte, work),
        Edit::Replace(node, value) => {
            *at = node;
            Ok(value)
        }
    }
}

/// Takes the value out of a node, and gives it. Refused for memory, all is as before.
pub(crate) fn take<P: Partial, V: Clone + Drop>(
    at: &mut NodeRef<P, V>,
    work: &mut Work,
) -> Result<Option<V>, AllocError>
    requires clones { ClonesEqual V.is_clone }
    ensures taken { OnOk result (at.new.shape ≡ with_value None at.old.shape) }
    ensures value { IfOk result (λ value. value ≡ value_of at.old.shape) }
    ensures refused { OnErr result (at.new.shape ≡ at.old.shape) }
    ensures counted { CountsUpTo 1 1 work.old work.new }
{
    let node = at.open_mut(work)?;
    Ok(node.take_value())
}

/// Takes the child under a byte out of a node, and gives its value. Refused for memory, all is as
/// before.
fn prune<P: Partial, V: Clone + Drop>(
    at: &mut NodeRef<P, V>,
    byte: u8,
    work: &mut Work,
) -> Result<Option<V>, AllocError>
    requires clones { ClonesEqual V.is_clone }
    requires tree { IsTree at.old.shape }
    requires present { IsSome (child_at byte (children_of at.old.shape)) }
    ensures taken { OnOk result (at.new.shape ≡ with_deleted byte at.old.shape) }
    ensures value { IfOk result (λ value. value ≡ value_under byte at.old.shape) }
    ensures refused { OnErr result (at.new.shape ≡ at.old.shape) }
    ensures counted { CountsUpTo 2 2 work.old work.new }
{
    let node = at.open_mut(work)?;
    let Some(leaf) = node.seek_child_mut(byte) else {
        unreachable!();
    };
    let value = take(leaf, work)?;
    let _ = node.delete_child(byte);
    Ok(value)
}
