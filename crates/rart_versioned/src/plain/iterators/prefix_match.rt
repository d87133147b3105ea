// Ported from rart 0.11.0 (Apache-2.0), and rewritten.
//! The pairs of a tree whose key begins a probe, the shortest first.
ghost use Rattle.std.specs.Prelude.{◌≡◌, ◌≤◌, ◌<◌, ◌++◌, length, take, Some, IfOk, IfSome};
ghost use Rattle.std.specs.Option.{option_copied};
ghost use Rattle.std.specs.Result.{IsOk};
ghost use Rattle.rart_maps.specs.Pairs.{prefix_matches};
ghost use Rattle.rart_node.specs.Shape.{height};
ghost use Rattle.rart_node.specs.Trees.{IsTree};
ghost use Rattle.rart_versioned.specs.Iterators.{EntryGives, ValueGives, height_in, matches_below};
ghost use Rattle.rart_versioned.specs.Iterators.{IsWay, matches_on, next_node};
ghost use Rattle.rart_walks.specs.Frames.{pending_pair};

use crate::counted::VersionedAdaptiveRadixTree;
use rart_below::{KeyTrait, Partial};
use rart_node::{NodeRef, Work, rest_of};
use rart_ways::step;
use std::alloc::{AllocError, Global};
use std::marker::Model;

/// How far down the probe it has come: the node that comes next, if there is one, and how many
/// bytes of the probe stand above it.
#[derive(Drop)]
pub(crate) struct Way<'a, P: Partial, V> {
    at: Option<&'a NodeRef<P, V>>,
    depth: usize,
}

/// The pairs of a tree whose key begins a probe, the shortest first.
///
/// Contracts see the pairs that are still to come, or `None` behind the end and behind a refusal.
#[derive(Drop)]
pub struct VersionedPrefixMatchIter<'a, K: KeyTrait, P: Partial, V> {
    alloc: Global,
    probe: K,
    way: Option<Way<'a, P, V>>,
}

impl<'a, K: KeyTrait, P: Partial, V> Model for VersionedPrefixMatchIter<'a, K, P, V> {
    ghost use Rattle.std.specs.Prelude.{List, ℕ, Option, IfSome};
    ghost use Rattle.rart_versioned.specs.Iterators.{IsWay, matches_left};

    ghost Value = { Option (List (List ℕ × V)) };

    ghost view = { λ iter. matches_left (K.bytes iter.probe) iter.way };

    ghost invariant = { λ iter. IfSome iter.way (IsWay (K.bytes iter.probe)) };
}

impl<K: KeyTrait, V: Clone + Drop> VersionedAdaptiveRadixTree<K, V> {
    /// The pairs whose key begins the probe, the shortest first. The probe is copied.
    ///
    /// ```
    /// for item in list.prefix_match_iter_k(text)? {
    ///     let (name, price) = item?;
    ///     lines.push((name, *price))?;
    /// }
    /// ```
    ///
    /// It looks at the nodes along the probe alone. Refused for memory, there is no iterator. A
    /// later refusal is an item, which is the last: so without one the pairs are all. In Rust
    /// neither is there, and the items are pairs.
    pub fn prefix_match_iter_k(
        &self,
        probe: &K,
    ) -> Result<VersionedPrefixMatchIter<'_, K, K::PartialType, V>, AllocError>
        ensures { IfOk result (λ iter. iter
            ≡ Some (prefix_matches self.now.content (K.bytes probe.now))) }
    {
        let probe = K::new_from_slice(self.alloc, probe.as_ref())?;
        self.prefix_match_iter(probe)
    }

    /// As `prefix_match_iter_k`, the probe by value. It isn't copied: to make the iterator takes no
    /// memory, and so it succeeds.
    ///
    /// ```
    /// let stops = list.prefix_match_iter(VectorKey::new_from_slice(alloc, b"teapot")?)?;
    /// ```
    pub fn prefix_match_iter(
        &self,
        probe: K,
    ) -> Result<VersionedPrefixMatchIter<'_, K, K::PartialType, V>, AllocError>
        ensures pairs { IfOk result (λ iter. iter
            ≡ Some (prefix_matches self.now.content (K.bytes probe))) }
        ensures succeeds { IsOk result }
    {
        let at = self.root.as_ref();
        Ok(VersionedPrefixMatchIter {
            alloc: self.alloc,
            probe,
            way: Some(Way { at, depth: 0 }),
        })
    }
}

impl<'a, K: KeyTrait, P: Partial, V: Drop> Iterator for VersionedPrefixMatchIter<'a, K, P, V> {
    type Item = Result<(K, &'a V), AllocError>;

    ghost use Rattle.std.specs.Iterator.{UpTo};
    ghost use Rattle.std.specs.Iterator.SizeHint.{IsWithinCount};
    ghost use Rattle.rart_maps.specs.Iterations.{ByKey, NextGives, items_left};
    ghost use Rattle.rart_versioned.specs.Iterators.{IsHintOf};

    ghost next_gives = { NextGives (ByKey K.bytes) };

    ghost remaining = { items_left };

    fn next(&mut self) -> Option<Result<(K, &'a V), AllocError>> {
        match &mut self.way {
            None => None,
            Some(way) => match next_match(self.alloc, way, &self.probe) {
                Ok(Some(entry)) => Some(Ok(entry)),
                Ok(None) => {
                    self.way = None;
                    None
                }
                Err(refused) => {
                    self.way = None;
                    Some(Err(refused))
                }
            },
        }
    }

    /// That nothing comes any more is known behind the end alone.
    fn size_hint(&self) -> (usize, Option<usize>)
        ensures lower { IsWithinCount result.0 (items_left self.now) }
        ensures upper { IfSome result.1 (UpTo (items_left self.now)) }
        ensures hint { IsHintOf self.now result }
    {
        match &self.way {
            None => (0, Some(0)),
            Some(_) => (0, None),
        }
    }
}

/// The next pair on the way, with a key of its own.
fn next_match<'a, K: KeyTrait, P: Partial, V: Drop>(
    alloc: Global,
    way: &mut Way<'a, P, V>,
    probe: &K,
) -> Result<Option<(K, &'a V)>, AllocError>
    requires { IsWay (K.bytes probe.now) way.old }
    ensures way { IsWay (K.bytes probe.now) way.new }
    ensures gives { IfOk result (λ entry. EntryGives K.bytes (λ value. value.now)
        (matches_on (K.bytes probe.now) way.old) entry (matches_on (K.bytes probe.now) way.new)) }
{
    let bytes = probe.as_ref();
    let Some(value) = next_value(way, bytes) else {
        return Ok(None);
    };
    let key = K::new_from_slice(alloc, &bytes[..way.depth])?;
    Ok(Some((key, value)))
}

/// The next value on the way. Its key is as much of the probe as the way has come down then.
fn next_value<'a, P: Partial, V: Drop>(way: &mut Way<'a, P, V>, probe: &[u8]) -> Option<&'a V>
    requires { IsWay probe.now way.old }
    ensures way { IsWay probe.now way.new }
    ensures gives { ValueGives (matches_on probe.now way.old)
        (take way.new.depth probe.now) result (matches_on probe.now way.new) }
{
    'down: while let Some(at) = way.at {
        let (value, next) = enter(at, probe, way.depth);
        *way = next;
        if let Some(value) = value {
            return Some(value);
        }
    }
    None
}

/// Enters the node that comes next: its value, if its key begins the probe, and the way from there.
fn enter<'a, P: Partial, V: Drop>(
    at: &'a NodeRef<P, V>,
    probe: &[u8],
    depth: usize,
) -> (Option<&'a V>, Way<'a, P, V>)
    requires tree { IsTree at.now.shape }
    requires depth { depth ≤ length probe.now }
    ensures way { IsWay probe.now result.1 }
    ensures gives { matches_below probe.now depth (Some at.now.shape)
        ≡ pending_pair (take result.1.depth probe.now) (option_copied result.0)
        ++ matches_on probe.now result.1 }
    ensures lower { height_in (next_node result.1) < height at.now.shape }
{
    match step(at, rest_of(probe, depth), &mut Work::new()) {
        None => (None, Way { at: None, depth }),
        Some(passed) => {
            let depth = probe.len() - passed.rest.len();
            let at = passed.child();
            (passed.node.value(), Way { at, depth })
        }
    }
}
