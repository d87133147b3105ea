//! The plain trees that versions become.
use crate::tests::trees::{Tree, chain, dense};
use std::process::Abort;
use std::test::Fail;

fn assert_becomes_plain(rt: &impl Abort, tree: Tree, count: usize) {
    match tree.into_unversioned() {
        Ok(plain) => assert_eq!(rt; plain.len(), count),
        Err(_version) => assert!(rt; false, "refused"),
    }
}

#[test]
fn versions_become_plain(rt: HostRuntime) -> Result<(), Fail> {
    assert_becomes_plain(&rt, chain(&rt, rt.alloc())?, 300);
    assert_becomes_plain(&rt, dense(&rt, rt.alloc())?, 4096);
    Ok(())
}
