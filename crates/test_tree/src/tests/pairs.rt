//! What two versions have in common, and what they differ in.
use crate::tests::trees::{Tree, assert_form, chain, dense};
use rart_versioned::{KeyTrait, LendingKeyView, Refusal, VectorKey, VisitControl, Work};
use std::alloc::{AllocError, Global};
use std::process::Abort;
use std::test::Fail;

// How many common keys are shown.
fn met(tree: &Tree, other: &Tree, form: usize) -> Result<u64, AllocError> {
    let mut count = 0_u64;
    let mut show = |_key: VectorKey, _left: &u64, _right: &u64| count = count.wrapping_add(1);
    match form {
        0 => tree.intersect_with(other, &mut show)?,
        _ => tree.intersect_with_counted(other, &mut show, &mut Work::new())?,
    }
    Ok(count)
}

// A segment of the last common key, and the value there: both outlive the call.
fn last_met<'a>(
    tree: &'a Tree,
    other: &'a Tree,
) -> Result<(Option<&'a [u8]>, Option<&'a u64>), AllocError> {
    let mut segment: Option<&'a [u8]> = None;
    let mut value: Option<&'a u64> = None;
    tree.intersect_lending_with(
        other,
        &mut |key: LendingKeyView<'_, '_>, left: &u64, _right: &u64| {
            segment = key.segments().last().copied();
            value = Some(left);
        },
    )?;
    Ok((segment, value))
}

// How many are shown by views.
fn views_met(tree: &Tree, other: &Tree) -> Result<u64, AllocError> {
    let mut count = 0_u64;
    let mut show = |_key: LendingKeyView<'_, '_>, _left: &u64, _right: &u64| {
        count = count.wrapping_add(1)
    };
    tree.intersect_lending_with_counted(other, &mut show, &mut Work::new())?;
    Ok(count)
}

// How many keys are shown at which they differ.
fn changed(tree: &Tree, other: &Tree, form: usize) -> Result<u64, AllocError> {
    let mut count = 0_u64;
    let mut show = |_key: VectorKey, _old: Option<&u64>, _new: Option<&u64>| {
        count = count.wrapping_add(1)
    };
    match form {
        0 => tree.diff_with(other, &mut show)?,
        _ => tree.diff_with_counted(other, &mut show, &mut Work::new())?,
    }
    Ok(count)
}

// The same by views.
fn viewed(tree: &Tree, other: &Tree, form: usize) -> Result<u64, AllocError> {
    let mut count = 0_u64;
    let mut show = |_key: LendingKeyView<'_, '_>, _old: Option<&u64>, _new: Option<&u64>| {
        count = count.wrapping_add(1)
    };
    match form {
        0 => tree.diff_lending_with(other, &mut show)?,
        _ => tree.diff_lending_with_counted(other, &mut show, &mut Work::new())?,
    }
    Ok(count)
}

// The same by a closure that may end the visit, and does not.
fn tried(tree: &Tree, other: &Tree, form: usize) -> Result<u64, Refusal<u64>> {
    let mut count = 0_u64;
    let mut show = |_key: LendingKeyView<'_, '_>, _old: Option<&u64>, _new: Option<&u64>| -> Result<
        VisitControl,
        u64,
    > {
        count = count.wrapping_add(1);
        Ok(VisitControl::Continue)
    };
    match form {
        0 => tree.try_diff_lending_with(other, &mut show)?,
        _ => tree.try_diff_lending_with_counted(other, &mut show, &mut Work::new())?,
    }
    Ok(count)
}

// How many keys they differ in, and whether in none.
fn told(tree: &Tree, other: &Tree, form: usize) -> Result<(u128, bool), AllocError> {
    match form {
        0 => Ok((tree.diff_count(other)?, tree.equals(other)?)),
        _ => {
            let work = &mut Work::new();
            let count = tree.diff_count_counted(other, work)?;
            Ok((count, tree.equals_counted(other, work)?))
        }
    }
}

// A version beside itself, and beside one without a key.
fn assert_pairs(rt: &impl Abort, alloc: Global, tree: &Tree, count: u64) -> Result<(), AllocError> {
    let empty = Tree::new(alloc);
    assert_form(rt, 0, views_met(tree, tree)?, count);
    for form in 0..2 {
        assert_form(rt, form, met(tree, tree, form)?, count);
        assert_form(rt, form, changed(&empty, tree, form)?, count);
        assert_form(rt, form, viewed(&empty, tree, form)?, count);
        assert_form(
            rt,
            form,
            tried(&empty, tree, form).or(Err(AllocError))?,
            count,
        );
        let (differing, are_equal) = told(&empty, tree, form)?;
        assert!(rt; differing == u128::from(count) && !are_equal, "form {form}");
    }
    Ok(())
}

// The last segment of 299 bytes `a` is the last byte.
#[test]
fn segments_and_values_outlive_the_intersection(rt: HostRuntime) -> Result<(), Fail> {
    let tree = chain(&rt, rt.alloc())?;
    let (segment, value) = last_met(&tree, &tree)?;
    assert_eq!(rt; segment, Some(b"a".as_slice()));
    assert_eq!(rt; value.copied(), Some(299));
    Ok(())
}

#[test]
fn all_common_and_changed_keys_are_shown(rt: HostRuntime) -> Result<(), Fail> {
    assert_pairs(&rt, rt.alloc(), &chain(&rt, rt.alloc())?, 300)?;
    assert_pairs(&rt, rt.alloc(), &dense(&rt, rt.alloc())?, 4096)?;
    Ok(())
}
