//! Visitors.
use crate::tests::trees::{Tree, assert_form, chain, dense, key, mix, mixed};
use rart_versioned::{KeyTrait, LendingKeyView, Refusal, VectorKey, VisitControl, Work};
use std::alloc::{AllocError, Global};
use std::ops::Bound;
use std::process::Abort;
use std::test::Fail;

// The values that are shown beside views of their keys, all of which the prefix begins.
fn viewed(tree: &Tree, form: usize, prefix: VectorKey) -> Result<u64, AllocError> {
    let mut trace = 0;
    let mut show = |_key: LendingKeyView<'_, '_>, value: &u64| trace = mix(trace, *value);
    let range = (Bound::Included(prefix), Bound::Unbounded);
    let work = &mut Work::new();
    match form {
        0 => tree.for_each_view(&mut show)?,
        1 => tree.for_each_view_counted(&mut show, work)?,
        2 => tree.for_each_range_view(range, &mut show)?,
        _ => tree.for_each_range_view_counted(range, &mut show, work)?,
    }
    Ok(trace)
}

fn viewed_under(tree: &Tree, form: usize, prefix: VectorKey) -> Result<u64, AllocError> {
    let mut trace = 0;
    let mut show = |_key: LendingKeyView<'_, '_>, value: &u64| trace = mix(trace, *value);
    match form {
        0 => tree.prefix_for_each_view(prefix, &mut show)?,
        1 => tree.prefix_for_each_view_k(&prefix, &mut show)?,
        _ => tree.prefix_for_each_view_k_counted(&prefix, &mut show, &mut Work::new())?,
    }
    Ok(trace)
}

// The values that are shown alone.
fn shown(tree: &Tree, form: usize, prefix: VectorKey) -> Result<u64, AllocError> {
    let mut trace = 0;
    let mut show = |value: &u64| trace = mix(trace, *value);
    match form {
        0 => tree.prefix_values_for_each(prefix, &mut show)?,
        1 => tree.prefix_values_for_each_k(&prefix, &mut show)?,
        _ => tree.prefix_values_for_each_k_counted(&prefix, &mut show, &mut Work::new())?,
    }
    Ok(trace)
}

// The same by a closure that may end the visit, and does not.
fn tried(tree: &Tree, form: usize, prefix: VectorKey) -> Result<u64, Refusal<u64>> {
    let mut trace = 0;
    let mut show = |value: &u64| -> Result<VisitControl, u64> {
        trace = mix(trace, *value);
        Ok(VisitControl::Continue)
    };
    match form {
        0 => tree.try_prefix_values_for_each(prefix, &mut show)?,
        1 => tree.try_prefix_values_for_each_k(&prefix, &mut show)?,
        _ => tree.try_prefix_values_for_each_k_counted(&prefix, &mut show, &mut Work::new())?,
    }
    Ok(trace)
}

fn assert_visits(
    rt: &impl Abort,
    alloc: Global,
    tree: &Tree,
    prefix: &[u8],
    count: u64,
) -> Result<(), AllocError> {
    let all = mixed(count);
    for form in 0..4 {
        assert_form(rt, form, viewed(tree, form, key(alloc, prefix)?)?, all);
    }
    for form in 0..3 {
        assert_form(
            rt,
            form,
            viewed_under(tree, form, key(alloc, prefix)?)?,
            all,
        );
        assert_form(rt, form, shown(tree, form, key(alloc, prefix)?)?, all);
        let tried = tried(tree, form, key(alloc, prefix)?).or(Err(AllocError))?;
        assert_form(rt, form, tried, all);
    }
    Ok(())
}

#[test]
fn visitors_show_all_pairs(rt: HostRuntime) -> Result<(), Fail> {
    assert_visits(&rt, rt.alloc(), &chain(&rt, rt.alloc())?, b"", 300)?;
    assert_visits(&rt, rt.alloc(), &dense(&rt, rt.alloc())?, &[8], 4096)?;
    Ok(())
}
