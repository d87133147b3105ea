//! When a node is full: `checks/mapping_types_are_used` has each mapping in turn count no child.
use crate::tests::nodes::{TestNode, prefix};
use rart_below::Partial;
use std::alloc::Global;
use std::process::Abort;
use std::test::Fail;

// A leaf is added under each byte, ascending.
fn assert_full_widths<P: Partial>(rt: &impl Abort, alloc: Global, prefix: P) -> Result<(), Fail> {
    let mut node = TestNode::inner(alloc, prefix)?;
    for count in 0..256 {
        assert_eq!(rt; node.num_children(), count);
        assert_eq!(rt; node.is_full(), matches!(count, 4 | 16 | 48), "at {count}");
        node.add_leaf(rt, alloc, count as u8, 1)?;
    }
    assert_eq!(rt; node.num_children(), 256);
    assert!(rt; !node.is_full());
    Ok(())
}

#[test]
fn full_at_4_16_and_48_children(rt: HostRuntime) -> Result<(), Fail> {
    let alloc = rt.alloc();
    assert_full_widths(&rt, alloc, prefix(alloc, b"wide")?)
}
