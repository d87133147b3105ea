//! The pairs of a tree, from the last key to the first. rart has none.
ghost use Rattle.std.specs.Prelude.{◌≡◌, ◌∷◌, Some, None, Err, IfOk, IfSome, length, reverse};
ghost use Rattle.rart_below.specs.Bytes.{IsAdmitted};
ghost use Rattle.rart_maps.specs.Pairs.{pairs, under};
ghost use Rattle.rart_walks.specs.BackFields.{IsWalkBack, path_to};
ghost use Rattle.rart_node.specs.KeyPaths.{HoldsBytes};

use crate::counted::VersionedAdaptiveRadixTree;
use rart_below::{KeyTrait, Partial};
use rart_node::Work;
use rart_walks::{BytesPath, WalkBack};
use std::alloc::{AllocError, Global};
use std::convert::AsSlice;
use std::marker::{Model, PhantomData};

/// The pairs of a tree, or of a part of it, from the last key to the first.
///
/// Contracts see the pairs that are still to come, or `None` behind the end and behind a refusal.
#[derive(Drop)]
pub struct VersionedRevIter<'a, K: KeyTrait, P: Partial, V> {
    alloc: Global,
    walk: Option<WalkBack<'a, P, V, BytesPath>>,
    key: PhantomData<K>,
}

impl<'a, K: KeyTrait, P: Partial, V> Model for VersionedRevIter<'a, K, P, V> {
    ghost use Rattle.std.specs.Prelude.{List, ℕ, Option, IfSome};
    ghost use Rattle.rart_versioned.specs.BackIterators.{IsKeyWalkBack, pairs_back};

    ghost Value = { Option (List (List ℕ × V)) };

    ghost view = { λ iter. pairs_back iter.walk };

    ghost invariant = { λ iter. IfSome iter.walk (IsKeyWalkBack K.MAXIMUM_SIZE) };
}

impl<K: KeyTrait, V: Clone + Drop> VersionedAdaptiveRadixTree<K, V> {
    /// All pairs, from the last key to the first, each with a key of its own. In Rust this is
    /// `iter().rev()`, which rart does not have.
    ///
    /// ```
    /// for item in list.iter_rev()? {
    ///     let (name, price) = item?;
    ///     lines.push((name, *price))?;
    /// }
    /// ```
    ///
    /// Refused for memory, there is no iterator. A later refusal is an item, which is the last: so
    /// without one the pairs are all.
    pub fn iter_rev(&self) -> Result<VersionedRevIter<'_, K, K::PartialType, V>, AllocError>
        ensures { IfOk result (λ iter. iter ≡ Some (reverse (pairs self.now.content))) }
    {
        let walk = self.whole_walk_back(&mut Work::new())?;
        Ok(VersionedRevIter {
            alloc: self.alloc,
            walk: Some(walk),
            key: PhantomData,
        })
    }

    /// The pairs whose key the prefix begins, from the last key to the first. The prefix may be a
    /// text, bytes, a key, or whatever else lends bytes; the empty one begins every key.
    ///
    /// ```
    /// for item in list.prefix_iter_rev("tea ")? {
    ///     let (name, price) = item?;
    ///     lines.push((name, *price))?;
    /// }
    /// ```
    ///
    /// It goes down to the prefix, which may end inside what its keys have in common. Refusals are
    /// as `iter_rev` tells them.
    pub fn prefix_iter_rev<Q: AsSlice<u8> + Drop>(
        &self,
        prefix: Q,
    ) -> Result<VersionedRevIter<'_, K, K::PartialType, V>, AllocError>
        ensures { IfOk result (λ iter. iter
            ≡ Some (reverse (under self.now.content (Q.items prefix)))) }
    {
        let walk = self.walk_back_under(prefix.as_slice(), &mut Work::new())?;
        Ok(VersionedRevIter {
            alloc: self.alloc,
            walk: Some(walk),
            key: PhantomData,
        })
    }
}

impl<'a, K: KeyTrait, P: Partial, V: Drop> Iterator for VersionedRevIter<'a, K, P, V> {
    type Item = Result<(K, &'a V), AllocError>;

    ghost use Rattle.std.specs.Iterator.{UpTo};
    ghost use Rattle.std.specs.Iterator.SizeHint.{IsWithinCount};
    ghost use Rattle.rart_maps.specs.Iterations.{ByKey, NextGives, items_left};
    ghost use Rattle.rart_versioned.specs.Iterators.{IsHintOf};

    ghost next_gives = { NextGives (ByKey K.bytes) };

    ghost remaining = { items_left };

    #[inline(always)]
    fn next(&mut self) -> Option<Result<(K, &'a V), AllocError>> {
        let Some(walk) = &mut self.walk else {
            return None;
        };
        match walk.next_value(&mut Work::new()) {
            Ok(Some(value)) => match key_at(self.alloc, walk) {
                Ok(key) => Some(Ok((key, value))),
                Err(refused) => refuse(&mut self.walk, refused),
            },
            Ok(None) => {
                self.walk = None;
                None
            }
            Err(refused) => refuse(&mut self.walk, refused),
        }
    }

    /// That nothing comes any more is known behind the end alone.
    fn size_hint(&self) -> (usize, Option<usize>)
        ensures lower { IsWithinCount result.0 (items_left self.now) }
        ensures upper { IfSome result.1 (UpTo (items_left self.now)) }
        ensures hint { IsHintOf self.now result }
    {
        match &self.walk {
            None => (0, Some(0)),
            Some(_) => (0, None),
        }
    }
}

/// Ends an iterator, the refusal being its last item.
#[cold]
fn refuse<'a, K, P: Partial, V>(
    walk: &mut Option<WalkBack<'a, P, V, BytesPath>>,
    refused: AllocError,
) -> Option<Result<(K, &'a V), AllocError>>
    ensures over { walk.new ≡ None }
    ensures refused { result ≡ Some (Err refused) }
{
    *walk = None;
    Some(Err(refused))
}

/// The key at which a walk back stands.
#[inline(always)]
fn key_at<'a, K: KeyTrait, P: Partial, V: Drop>(
    alloc: Global,
    walk: &WalkBack<'a, P, V, BytesPath>,
) -> Result<K, AllocError>
    requires walk { IsWalkBack HoldsBytes None walk.now }
    requires admitted { IsAdmitted K.MAXIMUM_SIZE (length (path_to walk.now)) }
    ensures { IfOk result (λ key. K.bytes key ≡ path_to walk.now) }
{
    K::new_from_slice(alloc, walk.key_path().as_slice())
}
