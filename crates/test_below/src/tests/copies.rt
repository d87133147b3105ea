//! Copies of nodes and of pointers, and the node that a child is merged with.
ghost use Rattle.rart_node.specs.Shape.{IsAscending};
ghost use Rattle.rart_below.specs.Bytes.{IsAdmitted};
ghost use Rattle.std.specs.Prelude.{ℕ};

use crate::tests::nodes::{TestNode, leaf, prefix, value_of};
use rart_below::{Partial, VectorPartial};
use rart_node::{GrowError, VersionedNode, Work};
use std::alloc::{AllocError, Global};
use std::process::Abort;
use std::test::Fail;

// A node with so many children is copied, and widened unless it has the greatest width.
fn assert_copies<P: Partial>(
    rt: &impl Abort,
    alloc: Global,
    prefix: P,
    count: u8,
) -> Result<(), Fail> {
    let mut node = TestNode::inner(alloc, prefix)?;
    for byte in 0..count {
        node.add_leaf(rt, alloc, byte, 1)?;
    }
    let count = usize::from(count);
    assert_eq!(rt; node.cow_clone_inner(alloc)?.num_children(), count);
    assert_eq!(rt; node.cloned()?.num_children(), count);
    match node.grow(alloc) {
        Ok(grown) => assert_eq!(rt; grown.num_children(), count),
        Err(error) => assert!(rt; count == 49 && matches!(error, GrowError::Widest)),
    }
    Ok(())
}

#[test]
fn nodes_of_each_width_are_copied(rt: HostRuntime) -> Result<(), Fail> {
    let alloc = rt.alloc();
    for count in [4, 16, 48, 49] {
        assert_copies(&rt, alloc, prefix(alloc, b"wide")?, count)?;
    }
    Ok(())
}

#[test]
fn write_through_one_pointer_shows_in_no_other(rt: HostRuntime) -> Result<(), Fail> {
    let alloc = rt.alloc();
    let mut pointer = leaf(alloc, &prefix(alloc, b"leaf")?, 7)?;
    let copy = pointer.copy()?;
    let clone = pointer.clone()?;
    pointer.open_mut(&mut Work::new())?.set_value(8);
    assert_eq!(rt; value_of(&pointer), Some(8));
    assert_eq!(rt; value_of(&copy), Some(7));
    assert_eq!(rt; value_of(&clone), Some(7));
    Ok(())
}

// A node with no value and one child is merged with it.
fn merged<P: Partial>(
    rt: &impl Abort,
    alloc: Global,
    node: &VersionedNode<P, u64>,
) -> Result<VersionedNode<P, u64>, AllocError>
    requires order { IsAscending node.now.shape }
    requires any { (length : ℕ) → IsAdmitted P.MAXIMUM_SIZE length }
{
    assert!(rt; node.value().is_none());
    assert_eq!(rt; node.num_children(), 1);
    node.merge_child(alloc, 1, &mut Work::new())
}

#[test]
fn node_is_merged_with_its_only_child(rt: HostRuntime) -> Result<(), Fail> {
    let alloc = rt.alloc();
    let prefix = VectorPartial::new_from_slice(alloc, b"stem")?;
    let mut node = VersionedNode::new_inner(alloc, prefix, 0)?;
    let child = leaf(alloc, &VectorPartial::new_from_slice(alloc, b"-leaf")?, 7)?;
    node.add_child(alloc, b'-', child, &mut Work::new())?;
    let merged = merged(&rt, alloc, &node)?;
    assert_eq!(rt; merged.prefix().as_ref(), b"stem-leaf".as_slice());
    assert_eq!(rt; merged.value().copied(), Some(7));
    Ok(())
}
