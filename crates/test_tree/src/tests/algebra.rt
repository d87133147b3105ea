//! What one tree has and another lacks, what both have, what either has, and what one has alone, in
//! each form.
ghost use Rattle.rart_maps.specs.Versions.{HasRoom};

use crate::tests::trees::{Tree, four, has_room, tree_of};
use rart_versioned::Work;
use std::alloc::{AllocError, Global};
use std::process::Abort;
use std::test::Fail;

// The pairs of another tree, and what "a" 1, "abc" 2, "abd" 3 and "b" 4 are without its keys.
const DIFFERENCES: &[(&[(&[u8], u64)], &[(&[u8], u64)])] = &[
    (&[], &[(b"a", 1), (b"abc", 2), (b"abd", 3), (b"b", 4)]),
    (&[(b"a", 9)], &[(b"abc", 2), (b"abd", 3), (b"b", 4)]),
    (
        &[(b"ab", 5), (b"abc", 2)],
        &[(b"a", 1), (b"abd", 3), (b"b", 4)],
    ),
    (
        &[(b"", 1), (b"abcd", 2), (b"c", 3)],
        &[(b"a", 1), (b"abc", 2), (b"abd", 3), (b"b", 4)],
    ),
    (&[(b"abc", 1), (b"abd", 2), (b"b", 3)], &[(b"a", 1)]),
    (&[(b"a", 4), (b"abc", 3), (b"abd", 2), (b"b", 1)], &[]),
];

// Likewise, and what they are with its keys alone.
const INTERSECTIONS: &[(&[(&[u8], u64)], &[(&[u8], u64)])] = &[
    (&[], &[]),
    (&[(b"a", 9)], &[(b"a", 1)]),
    (&[(b"ab", 5), (b"abc", 2)], &[(b"abc", 2)]),
    (&[(b"", 1), (b"abcd", 2), (b"c", 3)], &[]),
    (
        &[(b"abc", 1), (b"abd", 2), (b"b", 3)],
        &[(b"abc", 2), (b"abd", 3), (b"b", 4)],
    ),
    (
        &[(b"a", 4), (b"abc", 3), (b"abd", 2), (b"b", 1)],
        &[(b"a", 1), (b"abc", 2), (b"abd", 3), (b"b", 4)],
    ),
    (
        &[(b"a", 0), (b"aa", 0), (b"b", 0), (b"bb", 0)],
        &[(b"a", 1), (b"b", 4)],
    ),
];

// Likewise, and what they are together with these.
const UNIONS: &[(&[(&[u8], u64)], &[(&[u8], u64)])] = &[
    (&[], &[(b"a", 1), (b"abc", 2), (b"abd", 3), (b"b", 4)]),
    (
        &[(b"a", 9)],
        &[(b"a", 1), (b"abc", 2), (b"abd", 3), (b"b", 4)],
    ),
    (
        &[(b"ab", 5), (b"abc", 7)],
        &[(b"a", 1), (b"ab", 5), (b"abc", 2), (b"abd", 3), (b"b", 4)],
    ),
    (
        &[(b"", 8), (b"abcd", 7), (b"c", 6)],
        &[
            (b"", 8),
            (b"a", 1),
            (b"abc", 2),
            (b"abcd", 7),
            (b"abd", 3),
            (b"b", 4),
            (b"c", 6),
        ],
    ),
    (
        &[(b"aa", 5), (b"abe", 6), (b"ax", 7)],
        &[
            (b"a", 1),
            (b"aa", 5),
            (b"abc", 2),
            (b"abd", 3),
            (b"abe", 6),
            (b"ax", 7),
            (b"b", 4),
        ],
    ),
];

// Likewise, and what either has alone.
const SYMMETRIC_DIFFERENCES: &[(&[(&[u8], u64)], &[(&[u8], u64)])] = &[
    (&[], &[(b"a", 1), (b"abc", 2), (b"abd", 3), (b"b", 4)]),
    (&[(b"a", 9)], &[(b"abc", 2), (b"abd", 3), (b"b", 4)]),
    (
        &[(b"ab", 5), (b"abc", 7)],
        &[(b"a", 1), (b"ab", 5), (b"abd", 3), (b"b", 4)],
    ),
    (
        &[(b"abc", 1), (b"abd", 2), (b"abe", 7), (b"b", 3)],
        &[(b"a", 1), (b"abe", 7)],
    ),
    (&[(b"a", 4), (b"abc", 3), (b"abd", 2), (b"b", 1)], &[]),
];

fn cut(tree: &Tree, form: usize, other: &Tree) -> Result<Tree, AllocError>
    requires room { HasRoom tree.now 2 }
    requires both { HasRoom tree.now other.now.number }
{
    match form {
        0 => tree.difference(other),
        1 => tree.difference_counted(other, &mut Work::new()),
        2 => tree.intersection(other),
        3 => tree.intersection_counted(other, &mut Work::new()),
        4 => tree.union(other),
        5 => tree.union_counted(other, &mut Work::new()),
        6 => tree.symmetric_difference(other),
        _ => tree.symmetric_difference_counted(other, &mut Work::new()),
    }
}

// Four pairs, cut by the keys of another tree, are these.
fn assert_cut(
    rt: &impl Abort,
    alloc: Global,
    form: usize,
    others: &[(&[u8], u64)],
    left: &[(&[u8], u64)],
) -> Result<(), AllocError> {
    let tree = four(rt, alloc)?;
    assert!(rt; has_room(&tree));
    let other = tree_of(rt, alloc, others)?;
    assert!(rt; tree.version().checked_add(other.version()).is_some());
    let part = cut(&tree, form, &other)?;
    assert!(rt; part.equals(&tree_of(rt, alloc, left)?)?);
    Ok(())
}

#[test]
fn one_tree_is_cut_by_another(rt: HostRuntime) -> Result<(), Fail> {
    for (others, left) in DIFFERENCES {
        for form in 0..2 {
            assert_cut(&rt, rt.alloc(), form, others, left)?;
        }
    }
    Ok(())
}

#[test]
fn two_trees_are_met(rt: HostRuntime) -> Result<(), Fail> {
    for (others, common) in INTERSECTIONS {
        for form in 2..4 {
            assert_cut(&rt, rt.alloc(), form, others, common)?;
        }
    }
    Ok(())
}

#[test]
fn two_trees_are_united(rt: HostRuntime) -> Result<(), Fail> {
    for (others, all) in UNIONS {
        for form in 4..6 {
            assert_cut(&rt, rt.alloc(), form, others, all)?;
        }
    }
    Ok(())
}

#[test]
fn two_trees_are_told_apart(rt: HostRuntime) -> Result<(), Fail> {
    for (others, alone) in SYMMETRIC_DIFFERENCES {
        for form in 6..8 {
            assert_cut(&rt, rt.alloc(), form, others, alone)?;
        }
    }
    Ok(())
}
