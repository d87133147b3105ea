//! Iterators and visitors from the last key to the first.
ghost use Rattle.std.specs.Iterator.{IsFinite};

use crate::tests::trees::{Tree, assert_form, chain, dense, four, key, mix};
use rart_versioned::{KeyTrait, LendingKeyView, Refusal, VectorKey, VisitControl, Work};
use std::alloc::{AllocError, Global};
use std::ops::Bound;
use std::process::Abort;
use std::test::Fail;

// The values of the pairs that come.
fn values_of<'a, I: Iterator<Item = Result<(VectorKey, &'a u64), AllocError>>>(
    pairs: I,
) -> Result<u64, AllocError>
    requires can { I.can_next pairs }
    requires ends { IsFinite (I.remaining pairs) }
{
    let mut trace = 0;
    for pair in pairs {
        let (_key, value) = pair?;
        trace = mix(trace, *value);
    }
    Ok(trace)
}

// What `mix` makes of all numbers below this one, the greatest first.
fn mixed_back(end: u64) -> u64 {
    let mut trace = 0;
    for passed in 0..end {
        trace = mix(trace, end - 1 - passed);
    }
    trace
}

// What the iterators give that are made of a prefix, which begins all keys.
fn listed(tree: &Tree, form: usize, prefix: VectorKey) -> Result<u64, AllocError> {
    match form {
        0 => values_of(tree.iter_rev()?),
        1 => values_of(tree.range_rev((Bound::Included(prefix), Bound::Unbounded))?),
        2 => {
            let low = Bound::Included(prefix.as_ref());
            values_of(tree.range_bytes_rev(low, Bound::Unbounded)?)
        }
        3 => values_of(tree.prefix_iter_rev(prefix)?),
        _ => values_of(tree.prefix_iter_rev(&prefix)?),
    }
}

fn values_listed(tree: &Tree) -> Result<u64, AllocError> {
    let mut trace = 0;
    for value in tree.values_iter_rev()? {
        trace = mix(trace, *value?);
    }
    Ok(trace)
}

// The values that are shown beside views of their keys.
fn viewed(tree: &Tree, form: usize) -> Result<u64, AllocError> {
    let mut trace = 0;
    let mut show = |_key: LendingKeyView<'_, '_>, value: &u64| trace = mix(trace, *value);
    match form {
        0 => tree.for_each_view_rev(&mut show)?,
        _ => tree.for_each_view_rev_counted(&mut show, &mut Work::new())?,
    }
    Ok(trace)
}

// The same by a closure that may end the visit, and does not.
fn tried(tree: &Tree, form: usize) -> Result<u64, Refusal<u64>> {
    let mut trace = 0;
    let mut show = |_key: LendingKeyView<'_, '_>, value: &u64| -> Result<VisitControl, u64> {
        trace = mix(trace, *value);
        Ok(VisitControl::Continue)
    };
    match form {
        0 => tree.try_for_each_view_rev(&mut show)?,
        _ => tree.try_for_each_view_rev_counted(&mut show, &mut Work::new())?,
    }
    Ok(trace)
}

fn assert_goes_back(
    rt: &impl Abort,
    alloc: Global,
    tree: &Tree,
    prefix: &[u8],
    count: u64,
) -> Result<(), AllocError> {
    let all = mixed_back(count);
    for form in 0..5 {
        assert_form(rt, form, listed(tree, form, key(alloc, prefix)?)?, all);
    }
    assert_form(rt, 5, values_listed(tree)?, all);
    for form in 0..2 {
        assert_form(rt, form, viewed(tree, form)?, all);
        assert_form(rt, form, tried(tree, form).or(Err(AllocError))?, all);
    }
    Ok(())
}

#[test]
fn all_pairs_come_from_the_last(rt: HostRuntime) -> Result<(), Fail> {
    assert_goes_back(&rt, rt.alloc(), &chain(&rt, rt.alloc())?, b"", 300)?;
    assert_goes_back(&rt, rt.alloc(), &dense(&rt, rt.alloc())?, &[8], 4096)?;
    Ok(())
}

// The values of the pairs that come, as digits.
fn digits_of<'a, I: Iterator<Item = Result<(VectorKey, &'a u64), AllocError>>>(
    pairs: I,
) -> Result<u64, AllocError>
    requires can { I.can_next pairs }
    requires ends { IsFinite (I.remaining pairs) }
{
    let mut digits: u64 = 0;
    for pair in pairs {
        let (_key, value) = pair?;
        digits = digits.wrapping_mul(10).wrapping_add(*value);
    }
    Ok(digits)
}

// The same of the pairs within two bounds.
fn assert_between(
    rt: &impl Abort,
    tree: &Tree,
    low: Bound<&[u8]>,
    high: Bound<&[u8]>,
    digits: u64,
) -> Result<(), AllocError> {
    assert_eq!(rt; digits_of(tree.range_bytes_rev(low, high)?)?, digits);
    Ok(())
}

// The same of those under a prefix.
fn assert_under(
    rt: &impl Abort,
    alloc: Global,
    tree: &Tree,
    prefix: &[u8],
    digits: u64,
) -> Result<(), AllocError> {
    assert_eq!(rt;
        digits_of(tree.prefix_iter_rev(key(alloc, prefix)?)?)?,
        digits
    );
    Ok(())
}

// "a", "abc", "abd" and "b" have 1 to 4, so they come back as 4321.
#[test]
fn some_pairs_come_from_the_last(rt: HostRuntime) -> Result<(), Fail> {
    let tree = four(&rt, rt.alloc())?;
    assert_eq!(rt; digits_of(tree.iter_rev()?)?, 4321);
    assert_under(&rt, rt.alloc(), &tree, b"ab", 32)?;
    assert_under(&rt, rt.alloc(), &tree, b"c", 0)?;
    let (first, last) = (b"a".as_slice(), b"abd".as_slice());
    assert_between(
        &rt,
        &tree,
        Bound::Excluded(first),
        Bound::Included(last),
        32,
    )?;
    assert_between(
        &rt,
        &tree,
        Bound::Included(first),
        Bound::Excluded(last),
        21,
    )?;
    assert_between(
        &rt,
        &tree,
        Bound::Included(last),
        Bound::Excluded(b"abb"),
        0,
    )?;
    Ok(())
}

// The first value behind a bound, where it is that of this key.
fn value_from(tree: &Tree, low: Bound<&[u8]>, key: &[u8]) -> Result<Option<u64>, AllocError> {
    let mut cursor = tree.cursor_from(low)?;
    let value = cursor.next_value()?.copied();
    Ok(if cursor.key() == key { value } else { None })
}

// The last one before a bound, likewise.
fn value_to(tree: &Tree, high: Bound<&[u8]>, key: &[u8]) -> Result<Option<u64>, AllocError> {
    let mut cursor = tree.cursor_to(high)?;
    let value = cursor.next_value()?.copied();
    Ok(if cursor.key() == key { value } else { None })
}

// The last three, as digits, each that isn't there as a 0.
fn digits_to(tree: &Tree, high: Bound<&[u8]>) -> Result<u64, AllocError> {
    let mut cursor = tree.cursor_to(high)?;
    let mut digits: u64 = 0;
    for _ in 0..3 {
        let value = cursor.next_value()?.copied().unwrap_or(0);
        digits = digits.wrapping_mul(10).wrapping_add(value);
    }
    Ok(digits)
}

// Of the same, "abc" is the first behind "a", and the last before "abd".
#[test]
fn cursors_lend_keys(rt: HostRuntime) -> Result<(), Fail> {
    let tree = four(&rt, rt.alloc())?;
    let (first, last) = (
        Bound::Excluded(b"a".as_slice()),
        Bound::Excluded(b"abd".as_slice()),
    );
    assert_eq!(rt; value_from(&tree, first, b"abc")?, Some(2));
    assert_eq!(rt; value_to(&tree, last, b"abc")?, Some(2));
    assert_eq!(rt; digits_to(&tree, last)?, 210);
    Ok(())
}
