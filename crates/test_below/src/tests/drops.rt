//! That what a node's children hold is dropped with the node, at each width.
use crate::tests::nodes::{TestNode, prefix};
use rart_below::Partial;
use std::alloc::{AllocError, Global};
use std::process::Abort;
use std::rc::Rc;
use std::test::Fail;

// Drops a node with a leaf under each of the first bytes, each of which holds the value.
fn drop_with_holders<P: Partial>(
    rt: &impl Abort,
    alloc: Global,
    prefix: P,
    count: u8,
    value: &Rc<u64>,
) -> Result<(), AllocError> {
    let mut node = TestNode::inner(alloc, prefix)?;
    for byte in 0..count {
        node.add_leaf(rt, alloc, byte, value.clone()?)?;
    }
    assert_eq!(rt; Rc::strong_count(value), usize::from(count) + 1);
    Ok(())
}

#[test]
fn children_are_dropped_at_each_width(rt: HostRuntime) -> Result<(), Fail> {
    let alloc = rt.alloc();
    let value = Rc::new(alloc, 7)?;
    for count in [0, 1, 4, 5, 16, 17, 48, 49, 255] {
        drop_with_holders(&rt, alloc, prefix(alloc, b"wide")?, count, &value)?;
        assert_eq!(rt; Rc::strong_count(&value), 1, "after {count} children");
    }
    Ok(())
}
