// Ported from rart 0.11.0 (Apache-2.0), and rewritten.
//! The pairs of a tree within two bounds, in the order of their keys, or from the last key to the
//! first. rart has only the former.
ghost use Rattle.std.specs.Prelude.{◌≡◌, Some, IfOk, OnOk, IfSome, reverse};
ghost use Rattle.std.specs.Range.Bound.{bound_map};
ghost use Rattle.rart_maps.specs.Pairs.{within};
ghost use Rattle.rart_maps.specs.Iterations.{NextGives};
ghost use Rattle.rart_versioned.specs.Iterators.{EntryGives};
ghost use Rattle.rart_versioned.specs.Walkers.{ByKeyAndLent, IsRangeWalk, pairs_within, within_left};

use super::walkers::RangeWalker;
use crate::counted::VersionedAdaptiveRadixTree;
use crate::counted::walks::bytes_of;
use rart_below::KeyTrait;
use rart_node::Work;
use rart_walks::{BytesPath, Walk, WalkBack};
use std::alloc::{AllocError, Global};
use std::marker::{Model, PhantomData};
use std::ops::Bound;

/// The pairs of a tree within two bounds, in the order of their keys.
pub type VersionedRange<'a, K, V> = RangeOver<
    K,
    V,
    Walk<'a, <K as KeyTrait>::PartialType, V, BytesPath>,
>;

/// The pairs of a tree within two bounds, from the last key to the first.
pub type VersionedRangeRev<'a, K, V> = RangeOver<
    K,
    V,
    WalkBack<'a, <K as KeyTrait>::PartialType, V, BytesPath>,
>;

/// The pairs of a tree within two bounds, as a walk comes to them.
///
/// Contracts see the pairs that are still to come, or `None` behind the end and behind a refusal.
#[derive(Drop)]
pub struct RangeOver<K: KeyTrait, V, W: RangeWalker<V>> {
    alloc: Global,
    walk: Option<W>,
    end: Bound<K>,
    lent: PhantomData<(V, W::Lent)>,
}

impl<K: KeyTrait, V, W: RangeWalker<V>> Model for RangeOver<K, V, W> {
    ghost use Rattle.std.specs.Prelude.{List, ℕ, Option, IfSome};
    ghost use Rattle.std.specs.Range.Bound.{bound_map};
    ghost use Rattle.rart_versioned.specs.Walkers.{IsRangeWalk, within_left};

    ghost Value = { Option (List (List ℕ × V)) };

    ghost view = { λ range.
        within_left W.left (W.is_within (bound_map K.bytes range.end)) range.walk };

    ghost invariant = { λ range.
        IfSome range.walk (IsRangeWalk W.left W.is_sound W.comes_before K.MAXIMUM_SIZE) };
}

impl<K: KeyTrait, V: Clone + Drop> VersionedAdaptiveRadixTree<K, V> {
    /// The pairs within a lower and an upper bound, in the order of their keys. Both compare by
    /// bytes. Bounds the other way round are no fault: no pair is between them.
    ///
    /// ```
    /// for item in list.range((Bound::Included(first), Bound::Excluded(end)))? {
    ///     let (name, price) = item?;
    ///     lines.push((name, *price))?;
    /// }
    /// ```
    ///
    /// It goes down to the lower bound, and ends with the first key past the upper one. Refused for
    /// memory, there is no iterator. A later refusal is an item, which is the last: so without one
    /// the pairs are all. In Rust the bounds are any range of keys, `a..b` as well.
    pub fn range(&self, range: (Bound<K>, Bound<K>)) -> Result<VersionedRange<'_, K, V>, AllocError>
        ensures { IfOk result (λ iter. iter ≡ Some (within self.now.content
            (bound_map K.bytes range.0) (bound_map K.bytes range.1))) }
    {
        let (low, high) = range;
        let walk = self.walk_from(bytes_of(&low), &mut Work::new())?;
        Ok(RangeOver {
            alloc: self.alloc,
            walk: Some(walk),
            end: high,
            lent: PhantomData,
        })
    }

    /// The pairs within a lower and an upper bound, from the last key to the first. Both compare by
    /// bytes. Bounds the other way round are no fault: no pair is between them. In Rust this is
    /// `range(..).rev()`, which rart does not have.
    ///
    /// ```
    /// for item in list.range_rev((Bound::Included(first), Bound::Excluded(end)))? {
    ///     let (name, price) = item?;
    ///     lines.push((name, *price))?;
    /// }
    /// ```
    ///
    /// It goes down to the upper bound, and ends at the first key before the lower one, which it
    /// doesn't give. Refused for memory, there is no iterator. A later refusal is an item, which is
    /// the last: so without one the pairs are all.
    pub fn range_rev(
        &self,
        range: (Bound<K>, Bound<K>),
    ) -> Result<VersionedRangeRev<'_, K, V>, AllocError>
        ensures { IfOk result (λ iter. iter ≡ Some (reverse (within self.now.content
            (bound_map K.bytes range.0) (bound_map K.bytes range.1)))) }
    {
        let (low, high) = range;
        let walk = self.walk_back_to(bytes_of(&high), &mut Work::new())?;
        Ok(RangeOver {
            alloc: self.alloc,
            walk: Some(walk),
            end: low,
            lent: PhantomData,
        })
    }
}

impl<K: KeyTrait, V: Drop, W: RangeWalker<V>> Iterator for RangeOver<K, V, W> {
    type Item = Result<(K, W::Lent), AllocError>;

    ghost use Rattle.std.specs.Iterator.{UpTo};
    ghost use Rattle.std.specs.Iterator.SizeHint.{IsWithinCount};
    ghost use Rattle.rart_maps.specs.Iterations.{NextGives, items_left};
    ghost use Rattle.rart_versioned.specs.Iterators.{IsHintOf};
    ghost use Rattle.rart_versioned.specs.Walkers.{ByKeyAndLent};

    ghost next_gives = { NextGives (ByKeyAndLent W.value K.bytes) };

    ghost remaining = { items_left };

    fn next(&mut self) -> Option<Result<(K, W::Lent), AllocError>> {
        next_item(self.alloc, &mut self.walk, bytes_of(&self.end))
    }

    /// That nothing comes any more is known behind the end alone.
    fn size_hint(&self) -> (usize, Option<usize>)
        ensures lower { IsWithinCount result.0 (items_left self.now) }
        ensures upper { IfSome result.1 (UpTo (items_left self.now)) }
        ensures hint { IsHintOf self.now result }
    {
        match &self.walk {
            None => (0, Some(0)),
            Some(_) => (0, None),
        }
    }
}

/// The next pair of a walk whose key meets the bound that is the end. The walk is let go behind the
/// last one, and where memory is refused.
pub(crate) fn next_item<K: KeyTrait, V: Drop, W: RangeWalker<V>>(
    alloc: Global,
    walk: &mut Option<W>,
    end: Bound<&[u8]>,
) -> Option<Result<(K, W::Lent), AllocError>>
    requires { IfSome walk.old (IsRangeWalk W.left W.is_sound W.comes_before K.MAXIMUM_SIZE) }
    ensures walk { IfSome walk.new (IsRangeWalk W.left W.is_sound W.comes_before K.MAXIMUM_SIZE) }
    ensures gives { let end = bound_map (λ end. end.now) end.entry in
        NextGives (ByKeyAndLent W.value K.bytes) (within_left W.left (W.is_within end) walk.old)
        result (within_left W.left (W.is_within end) walk.new) }
{
    match walk {
        None => None,
        Some(open) => match next_within(alloc, open, end) {
            Ok(Some(entry)) => Some(Ok(entry)),
            Ok(None) => {
                *walk = None;
                None
            }
            Err(refused) => {
                *walk = None;
                Some(Err(refused))
            }
        },
    }
}

/// The next pair of a walk whose key meets the bound that is the end, with a key of its own. There
/// is none where the next key is past the bound, since every later one is then.
fn next_within<K: KeyTrait, V: Drop, W: RangeWalker<V>>(
    alloc: Global,
    walk: &mut W,
    end: Bound<&[u8]>,
) -> Result<Option<(K, W::Lent)>, AllocError>
    requires { IsRangeWalk W.left W.is_sound W.comes_before K.MAXIMUM_SIZE walk.old }
    ensures walk { OnOk result
        (IsRangeWalk W.left W.is_sound W.comes_before K.MAXIMUM_SIZE walk.new) }
    ensures gives { let end = bound_map (λ end. end.now) end.entry in IfOk result (λ entry.
        EntryGives K.bytes W.value (pairs_within (W.is_within end) (W.left walk.old)) entry
        (pairs_within (W.is_within end) (W.left walk.new))) }
{
    let Some(value) = walk.next_lent()? else {
        return Ok(None);
    };
    let bytes = walk.key_bytes();
    if !W::meets(end, bytes) {
        return Ok(None);
    }
    let key = K::new_from_slice(alloc, bytes)?;
    Ok(Some((key, value)))
}
