//! Calls on a prefix, in each form: what stands under it is kept, taken out, both, or put in place
//! of what another tree has there.
ghost use Rattle.std.specs.Prelude.{IsTrue};
ghost use Rattle.rart_maps.specs.Versions.{HasRoom};

use crate::tests::trees::{Tree, four, has_room, key, tree_of};
use rart_versioned::{KeyTrait, VectorKey, Work};
use std::alloc::{AllocError, Global};
use std::process::Abort;
use std::test::Fail;

fn kept(tree: &Tree, form: usize, prefix: VectorKey) -> Result<Tree, AllocError>
    requires { HasRoom tree.now 2 }
{
    let work = &mut Work::new();
    match form {
        0 => tree.prefix_snapshot(prefix),
        1 => tree.prefix_snapshot(&prefix),
        2 => tree.prefix_snapshot(prefix.as_ref()),
        _ => tree.prefix_snapshot_counted(prefix.as_ref(), work),
    }
}

fn removed(tree: &mut Tree, form: usize, prefix: VectorKey) -> Result<bool, AllocError>
    requires { HasRoom tree.old 2 }
{
    let work = &mut Work::new();
    match form {
        0 => tree.remove_prefix(prefix),
        1 => tree.remove_prefix(&prefix),
        2 => tree.remove_prefix(prefix.as_ref()),
        _ => tree.remove_prefix_counted(prefix.as_ref(), work),
    }
}

fn taken(tree: &mut Tree, form: usize, prefix: VectorKey) -> Result<Tree, AllocError>
    requires { HasRoom tree.old 2 }
{
    let work = &mut Work::new();
    match form {
        0 => tree.take_prefix(prefix),
        1 => tree.take_prefix(&prefix),
        2 => tree.take_prefix(prefix.as_ref()),
        _ => tree.take_prefix_counted(prefix.as_ref(), work),
    }
}

// Prefixes of four keys, "a", "abc", "abd" and "b", and how many of these each begins.
const PREFIXES: &[(&[u8], usize)] = &[
    (b"", 4),
    (b"a", 3),
    (b"ab", 2),
    (b"abc", 1),
    (b"b", 1),
    (b"abcd", 0),
    (b"c", 0),
];

// Two trees are the same, and have so many keys.
fn assert_same(rt: &impl Abort, tree: &Tree, other: &Tree, many: usize) -> Result<(), AllocError> {
    assert_eq!(rt; tree.intersect_count(tree), many);
    assert!(rt; tree.equals(other)?);
    Ok(())
}

// Takes what is under a prefix out of one tree and out of another, and keeps it.
fn assert_cut(
    rt: &impl Abort,
    alloc: Global,
    form: usize,
    prefix: &[u8],
    many: usize,
) -> Result<(), AllocError> {
    let mut tree = four(rt, alloc)?;
    let mut giver = tree.clone()?;
    assert!(rt; has_room(&tree) && has_room(&giver) && many <= 4);
    let part = kept(&tree, form, key(alloc, prefix)?)?;
    let taken = taken(&mut giver, form, key(alloc, prefix)?)?;
    let was_there = removed(&mut tree, form, key(alloc, prefix)?)?;
    assert!(rt; was_there == (many > 0));
    assert_same(rt, &part, &taken, many)?;
    assert_same(rt, &tree, &giver, 4 - many)
}

#[test]
fn what_is_under_a_prefix_is_kept_and_taken_out(rt: HostRuntime) -> Result<(), Fail> {
    for (prefix, many) in PREFIXES {
        for form in 0..4 {
            assert_cut(&rt, rt.alloc(), form, prefix, *many)?;
        }
    }
    Ok(())
}

fn restored(tree: &mut Tree, form: usize, prefix: VectorKey, from: &Tree) -> Result<(), AllocError>
    requires { HasRoom tree.old from.now.number }
{
    let work = &mut Work::new();
    match form {
        0 => tree.restore_prefix(prefix, from),
        1 => tree.restore_prefix(&prefix, from),
        2 => tree.restore_prefix(prefix.as_ref(), from),
        _ => tree.restore_prefix_counted(prefix.as_ref(), from, work),
    }
}

// Whether the number may rise by another tree's.
fn has_room_for(tree: &Tree, from: &Tree) -> bool
    ensures { IsTrue result → HasRoom tree.now from.now.number }
{
    tree.version() <= u64::MAX - from.version()
}

// Prefixes, and what "a" 1, "abc" 2, "abd" 3 and "b" 4 are with the pairs under each of "ab" 20,
// "abc" 30 and "c" 40.
const RESTORED: &[(&[u8], &[(&[u8], u64)])] = &[
    (b"", &[(b"ab", 20), (b"abc", 30), (b"c", 40)]),
    (b"a", &[(b"ab", 20), (b"abc", 30), (b"b", 4)]),
    (b"ab", &[(b"a", 1), (b"ab", 20), (b"abc", 30), (b"b", 4)]),
    (b"abc", &[(b"a", 1), (b"abc", 30), (b"abd", 3), (b"b", 4)]),
    (b"abd", &[(b"a", 1), (b"abc", 2), (b"b", 4)]),
    (b"b", &[(b"a", 1), (b"abc", 2), (b"abd", 3)]),
    (
        b"c",
        &[(b"a", 1), (b"abc", 2), (b"abd", 3), (b"b", 4), (b"c", 40)],
    ),
    (b"abe", &[(b"a", 1), (b"abc", 2), (b"abd", 3), (b"b", 4)]),
];

// Puts what a tree has under a prefix into another one, which then has these pairs.
fn assert_restored(
    rt: &impl Abort,
    alloc: Global,
    form: usize,
    prefix: &[u8],
    from: &Tree,
    pairs: &[(&[u8], u64)],
) -> Result<(), AllocError> {
    let mut tree = four(rt, alloc)?;
    assert!(rt; has_room_for(&tree, from));
    restored(&mut tree, form, key(alloc, prefix)?, from)?;
    assert_same(rt, &tree, &tree_of(rt, alloc, pairs)?, pairs.len())?;
    assert_eq!(rt; tree.version(), 7);
    Ok(())
}

#[test]
fn what_is_under_a_prefix_is_put_in_its_place(rt: HostRuntime) -> Result<(), Fail> {
    let from = tree_of(&rt, rt.alloc(), &[(b"ab", 20), (b"abc", 30), (b"c", 40)])?;
    let whole = from.clone()?;
    for (prefix, pairs) in RESTORED {
        for form in 0..4 {
            assert_restored(&rt, rt.alloc(), form, prefix, &from, pairs)?;
            assert!(rt; from.equals(&whole)?);
        }
    }
    Ok(())
}
