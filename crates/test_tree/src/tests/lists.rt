//! Iterators, and the longest match.
ghost use Rattle.std.specs.Iterator.{IsFinite};

use crate::tests::trees::{Tree, assert_form, chain, dense, key, mix, mixed};
use rart_versioned::{KeyTrait, VectorKey, Work};
use std::alloc::{AllocError, Global};
use std::ops::Bound;
use std::process::Abort;
use std::test::Fail;

// The values of the pairs that come.
fn values_of<'a, I: Iterator<Item = Result<(VectorKey, &'a u64), AllocError>>>(
    pairs: I,
) -> Result<u64, AllocError>
    requires can { I.can_next pairs }
    requires ends { IsFinite (I.remaining pairs) }
{
    let mut trace = 0;
    for pair in pairs {
        let (_key, value) = pair?;
        trace = mix(trace, *value);
    }
    Ok(trace)
}

// What the iterators give that are made of a prefix, which begins all keys.
fn listed(tree: &Tree, form: usize, prefix: VectorKey) -> Result<u64, AllocError> {
    match form {
        0 => values_of(tree.iter()?),
        1 => values_of(tree.range((Bound::Included(prefix), Bound::Unbounded))?),
        2 => values_of(tree.prefix_iter(prefix)?),
        _ => values_of(tree.prefix_iter_k(&prefix)?),
    }
}

fn values_listed(tree: &Tree) -> Result<u64, AllocError> {
    let mut trace = 0;
    for value in tree.values_iter()? {
        trace = mix(trace, *value?);
    }
    Ok(trace)
}

fn assert_lists(
    rt: &impl Abort,
    alloc: Global,
    tree: &Tree,
    prefix: &[u8],
    count: u64,
) -> Result<(), AllocError> {
    let all = mixed(count);
    for form in 0..4 {
        assert_form(rt, form, listed(tree, form, key(alloc, prefix)?)?, all);
    }
    assert_form(rt, 4, values_listed(tree)?, all);
    assert_form(rt, 5, tree.count()?, count);
    assert_form(rt, 6, tree.count_under(key(alloc, prefix)?)?, count);
    Ok(())
}

#[test]
fn iterators_give_all_pairs(rt: HostRuntime) -> Result<(), Fail> {
    assert_lists(&rt, rt.alloc(), &chain(&rt, rt.alloc())?, b"", 300)?;
    assert_lists(&rt, rt.alloc(), &dense(&rt, rt.alloc())?, &[8], 4096)?;
    Ok(())
}

// The values of the keys that begin a probe.
fn matched(tree: &Tree, form: usize, probe: VectorKey) -> Result<u64, AllocError> {
    match form {
        0 => values_of(tree.prefix_match_iter(probe)?),
        _ => values_of(tree.prefix_match_iter_k(&probe)?),
    }
}

// The value of the longest key that begins a probe.
fn longest(tree: &Tree, form: usize, probe: VectorKey) -> Result<Option<u64>, AllocError> {
    let found = match form {
        0 => tree.longest_prefix_match(probe)?,
        1 => tree.longest_prefix_match_k(&probe)?,
        _ => tree.longest_prefix_match_k_counted(&probe, &mut Work::new())?,
    };
    Ok(found.map(|pair| *pair.1))
}

// 300 bytes `a`, which each key of the chain begins.
fn probe(alloc: Global) -> Result<VectorKey, AllocError> {
    key(alloc, &[b'a'; 300])
}

#[test]
fn all_keys_that_begin_a_probe_are_given(rt: HostRuntime) -> Result<(), Fail> {
    let tree = chain(&rt, rt.alloc())?;
    let all = mixed(300);
    for form in 0..2 {
        assert_form(&rt, form, matched(&tree, form, probe(rt.alloc())?)?, all);
    }
    for form in 0..3 {
        let value = longest(&tree, form, probe(rt.alloc())?)?;
        assert_form(&rt, form, value.unwrap_or(0), 299);
    }
    Ok(())
}
