// Ported from rart 0.11.0 (Apache-2.0), and rewritten.
//! The pairs of a tree within two bounds that are bytes, in the order of their keys, or from the
//! last key to the first. rart has only the former.
ghost use Rattle.std.specs.Prelude.{◌≡◌, Some, IfOk, IfSome, reverse};
ghost use Rattle.std.specs.Range.Bound.{bound_map};
ghost use Rattle.rart_maps.specs.Pairs.{within};

use super::range::next_item;
use super::walkers::RangeWalker;
use crate::counted::VersionedAdaptiveRadixTree;
use rart_below::KeyTrait;
use rart_node::Work;
use rart_walks::{BytesPath, Walk, WalkBack};
use std::alloc::{AllocError, Global};
use std::marker::{Model, PhantomData};
use std::ops::Bound;

/// The pairs of a tree within two bounds that are bytes, in the order of their keys.
pub type VersionedSliceRange<'a, K, V> = SliceRangeOver<
    'a,
    K,
    V,
    Walk<'a, <K as KeyTrait>::PartialType, V, BytesPath>,
>;

/// The pairs of a tree within two bounds that are bytes, from the last key to the first.
pub type VersionedSliceRangeRev<'a, K, V> = SliceRangeOver<
    'a,
    K,
    V,
    WalkBack<'a, <K as KeyTrait>::PartialType, V, BytesPath>,
>;

/// The pairs of a tree within two bounds that are bytes, as a walk comes to them.
///
/// Contracts see the pairs that are still to come, or `None` behind the end and behind a refusal.
#[derive(Drop)]
pub struct SliceRangeOver<'a, K: KeyTrait, V, W: RangeWalker<V>> {
    alloc: Global,
    walk: Option<W>,
    end: Bound<&'a [u8]>,
    lent: PhantomData<(K, V, W::Lent)>,
}

impl<'a, K: KeyTrait, V, W: RangeWalker<V>> Model for SliceRangeOver<'a, K, V, W> {
    ghost use Rattle.std.specs.Prelude.{List, ℕ, Option, IfSome};
    ghost use Rattle.std.specs.Range.Bound.{bound_map};
    ghost use Rattle.rart_versioned.specs.Walkers.{IsRangeWalk, within_left};

    ghost Value = { Option (List (List ℕ × V)) };

    ghost view = { λ range.
        within_left W.left (W.is_within (bound_map (λ end. end.now) range.end)) range.walk };

    ghost invariant = { λ range.
        IfSome range.walk (IsRangeWalk W.left W.is_sound W.comes_before K.MAXIMUM_SIZE) };
}

impl<K: KeyTrait, V: Clone + Drop> VersionedAdaptiveRadixTree<K, V> {
    /// The pairs within a lower and an upper bound, as `range` gives them, by bounds that are
    /// bytes: no key is made for them. Rust's `BTreeMap` takes borrowed bounds in `range`; rart
    /// does not.
    ///
    /// ```
    /// let found = list.range_bytes(Bound::Included(first.as_ref()), Bound::Unbounded)?;
    /// ```
    pub fn range_bytes<'a>(
        &'a self,
        low: Bound<&[u8]>,
        high: Bound<&'a [u8]>,
    ) -> Result<VersionedSliceRange<'a, K, V>, AllocError>
        ensures { IfOk result (λ iter. iter ≡ Some (within self.now.content
            (bound_map (λ low. low.now) low.entry) (bound_map (λ high. high.now) high.entry))) }
    {
        let walk = self.walk_from(low, &mut Work::new())?;
        Ok(SliceRangeOver {
            alloc: self.alloc,
            walk: Some(walk),
            end: high,
            lent: PhantomData,
        })
    }

    /// The pairs within a lower and an upper bound, as `range_rev` gives them, by bounds that are
    /// bytes: no key is made for them.
    ///
    /// ```
    /// let found = list.range_bytes_rev(Bound::Unbounded, Bound::Included(first.as_ref()))?;
    /// ```
    pub fn range_bytes_rev<'a>(
        &'a self,
        low: Bound<&'a [u8]>,
        high: Bound<&[u8]>,
    ) -> Result<VersionedSliceRangeRev<'a, K, V>, AllocError>
        ensures { IfOk result (λ iter. iter ≡ Some (reverse (within self.now.content
            (bound_map (λ low. low.now) low.entry) (bound_map (λ high. high.now) high.entry)))) }
    {
        let walk = self.walk_back_to(high, &mut Work::new())?;
        Ok(SliceRangeOver {
            alloc: self.alloc,
            walk: Some(walk),
            end: low,
            lent: PhantomData,
        })
    }
}

impl<'a, K: KeyTrait, V: Drop, W: RangeWalker<V>> Iterator for SliceRangeOver<'a, K, V, W> {
    type Item = Result<(K, W::Lent), AllocError>;

    ghost use Rattle.std.specs.Iterator.{UpTo};
    ghost use Rattle.std.specs.Iterator.SizeHint.{IsWithinCount};
    ghost use Rattle.rart_maps.specs.Iterations.{NextGives, items_left};
    ghost use Rattle.rart_versioned.specs.Iterators.{IsHintOf};
    ghost use Rattle.rart_versioned.specs.Walkers.{ByKeyAndLent};

    ghost next_gives = { NextGives (ByKeyAndLent W.value K.bytes) };

    ghost remaining = { items_left };

    fn next(&mut self) -> Option<Result<(K, W::Lent), AllocError>> {
        next_item(self.alloc, &mut self.walk, self.end)
    }

    /// That nothing comes any more is known behind the end alone.
    fn size_hint(&self) -> (usize, Option<usize>)
        ensures lower { IsWithinCount result.0 (items_left self.now) }
        ensures upper { IfSome result.1 (UpTo (items_left self.now)) }
        ensures hint { IsHintOf self.now result }
    {
        match &self.walk {
            None => (0, Some(0)),
            Some(_) => (0, None),
        }
    }
}
