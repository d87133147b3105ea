//! Many changes at once.
use crate::tests::trees::{Tree, chain, dense, four, key, mix, mixed};
use std::alloc::{AllocError, Global};
use std::process::Abort;
use std::test::Fail;

// Puts these pairs in.
fn extend(
    rt: &impl Abort,
    alloc: Global,
    tree: &mut Tree,
    pairs: &[(&[u8], u64)],
) -> Result<(), AllocError> {
    let mut given = Vec::new(alloc);
    for (bytes, value) in pairs {
        given.push((key(alloc, bytes)?, *value))?;
    }
    assert!(rt; given.len() as u64 <= u64::MAX - tree.version());
    tree.extend(given)
}

// Keeps the even values, and tells which values were asked about.
fn keep_evens(rt: &impl Abort, tree: &mut Tree) -> Result<u64, AllocError> {
    let mut trace = 0;
    assert!(rt; tree.version() <= u64::MAX / 2);
    tree.retain(&mut |_key: &[u8], value: &u64| {
        trace = mix(trace, *value);
        *value % 2 == 0
    })?;
    Ok(trace)
}

#[test]
fn last_pair_of_a_key_is_put_in(rt: HostRuntime) -> Result<(), Fail> {
    let mut tree = four(&rt, rt.alloc())?;
    extend(
        &rt,
        rt.alloc(),
        &mut tree,
        &[(b"abd", 7), (b"c", 5), (b"abd", 8)],
    )?;
    assert_counts(&rt, &tree, 5, 7)?;
    for (bytes, value) in [(b"a".as_slice(), 1), (b"abd", 8), (b"c", 5)] {
        assert_eq!(rt; tree.get_bytes(bytes), Some(&value));
    }
    Ok(())
}

// A tree has so many keys and this number.
fn assert_counts(rt: &impl Abort, tree: &Tree, count: u64, number: u64) -> Result<(), AllocError> {
    assert_eq!(rt; (tree.count()?, tree.version()), (count, number));
    Ok(())
}

fn assert_halves(rt: &impl Abort, mut tree: Tree, count: u64) -> Result<(), AllocError> {
    assert_eq!(rt; keep_evens(rt, &mut tree)?, mixed(count));
    assert_counts(rt, &tree, count / 2, count.wrapping_add(count / 2))
}

#[test]
fn odd_values_are_taken_out(rt: HostRuntime) -> Result<(), Fail> {
    assert_halves(&rt, chain(&rt, rt.alloc())?, 300)?;
    assert_halves(&rt, dense(&rt, rt.alloc())?, 4096)?;
    Ok(())
}
