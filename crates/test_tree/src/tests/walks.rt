//! Walks over a leaf made by hand, and its key beside itself.
ghost use Rattle.std.specs.Prelude.{◌≡◌, ◌≤◌, [], length, Some, IfOk};
ghost use Rattle.rart_node.specs.Shape.{node_of};
ghost use Rattle.rart_node.specs.Trees.{IsTree};
ghost use Rattle.rart_walks.specs.WalkFields.{IsWalk};

use rart_below::{ArrPartial, ArrayKey, KeyTrait, LendingKeyView, Partial};
use rart_lockstep::{ViewsPath, visit_common, visit_common_keys};
use rart_node::{NodeRef, VersionedNode, Work};
use rart_walks::{BytesPath, KeyPath, Walk};
use std::alloc::{AllocError, Global};
use std::ops::Bound;
use std::test::Fail;

type Root = NodeRef<ArrPartial<16>, u64>;

fn leaf(alloc: Global, bytes: &[u8], value: u64) -> Result<Root, AllocError>
    requires { length bytes.now ≤ 16 }
    ensures { IfOk result (λ leaf. leaf.shape ≡ node_of bytes.now (Some value) 0 []) }
{
    let prefix = ArrPartial::new_from_slice(alloc, bytes)?;
    NodeRef::new(
        alloc,
        VersionedNode::new_leaf(alloc, prefix, value, 0),
        &mut Work::new(),
    )
}

// The next value of a walk.
fn next_of<'a, P: Partial, T: KeyPath<'a>>(
    mut walk: Walk<'a, P, u64, T>,
) -> Result<Option<u64>, AllocError>
    requires { IsWalk T.holds T.extent T.greatest walk }
{
    Ok(walk.next_value(&mut Work::new())?.copied())
}

// The first value of a walk over all, under a prefix and from a bound.
fn first_of<P: Partial>(
    alloc: Global,
    root: &NodeRef<P, u64>,
    form: usize,
) -> Result<Option<u64>, AllocError>
    requires { IsTree root.now.shape }
{
    let work = &mut Work::new();
    let low: &[u8] = b"ab";
    match form {
        0 => next_of::<P, BytesPath>(Walk::whole(alloc, root, work)?),
        1 => next_of::<P, BytesPath>(Walk::under(alloc, root, low, work)?),
        _ => next_of::<P, BytesPath>(Walk::from(alloc, root, Bound::Excluded(low), work)?),
    }
}

#[test]
fn walks_give_the_value_of_a_leaf(rt: HostRuntime) -> Result<(), Fail> {
    let root = leaf(rt.alloc(), b"abc", 7)?;
    for form in 0..3 {
        assert_eq!(rt; first_of(rt.alloc(), &root, form)?, Some(7), "form {form}");
    }
    Ok(())
}

#[test]
fn common_keys_are_made(rt: HostRuntime) -> Result<(), Fail> {
    let root = leaf(rt.alloc(), b"abc", 7)?;
    let mut shown = 0;
    let mut show = |key: ArrayKey<16>, _left: &u64, _right: &u64| shown = key.as_ref().len();
    visit_common_keys(rt.alloc(), &root, &root, &mut show, &mut Work::new())?;
    assert_eq!(rt; shown, 3);
    Ok(())
}

#[test]
fn common_keys_are_viewed(rt: HostRuntime) -> Result<(), Fail> {
    let root = leaf(rt.alloc(), b"abc", 7)?;
    let mut shown = 0;
    let key_path: ViewsPath<'_, u64, AllocError> = ViewsPath::new(rt.alloc());
    visit_common(
        key_path,
        &root,
        &root,
        &mut |key: LendingKeyView<'_, '_>, _left: &u64, _right: &u64| shown = key.len(),
        &mut Work::new(),
    )?;
    assert_eq!(rt; shown, 3);
    Ok(())
}
