// Ported from rart 0.11.0 (Apache-2.0), and rewritten.
//! The pairs of a tree, in the order of their keys: all of them, or those under a prefix.
ghost use Rattle.std.specs.Prelude.{◌≡◌, [], ◌∷◌, Some, None, Err, IfOk, IfSome, length};
ghost use Rattle.rart_below.specs.Bytes.{IsAdmitted};
ghost use Rattle.rart_maps.specs.Pairs.{pairs, under};
ghost use Rattle.rart_node.specs.Trees.{pairs_of};
ghost use Rattle.rart_versioned.specs.Iterators.{HasKeys, pairs_to_come};
ghost use Rattle.rart_node.specs.KeyPaths.{HoldsBytes, extent_in_bytes};
ghost use Rattle.rart_walks.specs.WalkFields.{path_to, IsWalk};

use crate::counted::VersionedAdaptiveRadixTree;
use rart_below::{KeyTrait, Partial};
use rart_node::{NodeRef, Work};
use rart_walks::{BytesPath, Walk};
use std::alloc::{AllocError, Global};
use std::marker::{Model, PhantomData};

/// The pairs that are still to come.
#[derive(Drop)]
pub(crate) enum Entries<'a, P: Partial, V> {
    /// None: of a tree without a key, or behind the one.
    Empty,
    /// One: of a root without children.
    Entry(&'a [u8], &'a V),
    /// That of the node where the walk starts, if it has a value, and then those of its children.
    Walk(Walk<'a, P, V, BytesPath>),
}

/// The pairs of a tree, or of a part of it, in the order of their keys.
///
/// Contracts see the pairs that are still to come, or `None` behind the end and behind a refusal.
#[derive(Drop)]
pub struct VersionedIter<'a, K: KeyTrait, P: Partial, V> {
    alloc: Global,
    entries: Option<Entries<'a, P, V>>,
    key: PhantomData<K>,
}

impl<'a, K: KeyTrait, P: Partial, V> Model for VersionedIter<'a, K, P, V> {
    ghost use Rattle.std.specs.Prelude.{List, ℕ, Option, IfSome};
    ghost use Rattle.rart_versioned.specs.Iterators.{HasKeys, entries_left};

    ghost Value = { Option (List (List ℕ × V)) };

    ghost view = { λ iter. entries_left iter.entries };

    ghost invariant = { λ iter. IfSome iter.entries (HasKeys K.MAXIMUM_SIZE) };
}

impl<K: KeyTrait, V: Clone + Drop> VersionedAdaptiveRadixTree<K, V> {
    /// All pairs, in the order of their keys, each with a key of its own.
    ///
    /// ```
    /// for item in list.iter()? {
    ///     let (name, price) = item?;
    ///     lines.push((name, *price))?;
    /// }
    /// ```
    ///
    /// Refused for memory, there is no iterator. A later refusal is an item, which is the last: so
    /// without one the pairs are all. In Rust neither is there, and the items are pairs.
    pub fn iter(&self) -> Result<VersionedIter<'_, K, K::PartialType, V>, AllocError>
        ensures { IfOk result (λ iter. iter ≡ Some (pairs self.now.content)) }
    {
        let entries = self.entries()?;
        Ok(VersionedIter {
            alloc: self.alloc,
            entries: Some(entries),
            key: PhantomData,
        })
    }

    /// The pairs whose key the prefix begins, in the order of their keys. The empty prefix begins
    /// every key.
    ///
    /// ```
    /// for item in list.prefix_iter_k(prefix)? {
    ///     let (name, price) = item?;
    ///     lines.push((name, *price))?;
    /// }
    /// ```
    ///
    /// It goes down to the prefix, which may end inside what its keys have in common. Refusals are
    /// as `iter` tells them.
    pub fn prefix_iter_k(
        &self,
        prefix: &K,
    ) -> Result<VersionedIter<'_, K, K::PartialType, V>, AllocError>
        ensures { IfOk result (λ iter. iter
            ≡ Some (under self.now.content (K.bytes prefix.now))) }
    {
        let walk = self.walk_under(prefix.as_ref(), &mut Work::new())?;
        Ok(VersionedIter {
            alloc: self.alloc,
            entries: Some(Entries::Walk(walk)),
            key: PhantomData,
        })
    }

    /// As `prefix_iter_k`, the prefix by value.
    ///
    /// ```
    /// let names = list.prefix_iter(VectorKey::new_from_slice(alloc, b"tea")?)?;
    /// ```
    pub fn prefix_iter(
        &self,
        prefix: K,
    ) -> Result<VersionedIter<'_, K, K::PartialType, V>, AllocError>
        ensures { IfOk result (λ iter. iter ≡ Some (under self.now.content (K.bytes prefix))) }
    {
        self.prefix_iter_k(&prefix)
    }

    /// All pairs.
    fn entries(&self) -> Result<Entries<'_, K::PartialType, V>, AllocError>
        ensures keys { IfOk result (HasKeys K.MAXIMUM_SIZE) }
        ensures pairs { IfOk result (λ entries. pairs_to_come entries ≡ pairs self.now.content) }
    {
        let Some(root) = &self.root else {
            return Ok(Entries::Empty);
        };
        let mut work = Work::new();
        if let Some((bytes, value)) = entry_of(root, &mut work) {
            return Ok(Entries::Entry(bytes, value));
        }
        let walk = self.whole_walk(&mut work)?;
        Ok(Entries::Walk(walk))
    }
}

/// The pair of a root without children.
fn entry_of<'a, P: Partial, V: Drop>(
    root: &'a NodeRef<P, V>,
    work: &mut Work,
) -> Option<(&'a [u8], &'a V)>
    ensures { IfSome result (λ entry. pairs_of root.now.shape
        ≡ (entry.0.now, entry.1.now) ∷ []) }
{
    let node = root.open(work);
    if !node.is_leaf() {
        return None;
    }
    let value = node.value()?;
    Some((node.prefix().as_ref(), value))
}

impl<'a, K: KeyTrait, P: Partial, V: Drop> Iterator for VersionedIter<'a, K, P, V> {
    type Item = Result<(K, &'a V), AllocError>;

    ghost use Rattle.std.specs.Iterator.{UpTo};
    ghost use Rattle.std.specs.Iterator.SizeHint.{IsWithinCount};
    ghost use Rattle.rart_maps.specs.Iterations.{ByKey, NextGives, items_left};
    ghost use Rattle.rart_versioned.specs.Iterators.{IsHintOf};

    ghost next_gives = { NextGives (ByKey K.bytes) };

    ghost remaining = { items_left };

    #[inline(always)]
    fn next(&mut self) -> Option<Result<(K, &'a V), AllocError>> {
        let Some(entries) = &mut self.entries else {
            return None;
        };
        match entries {
            Entries::Walk(walk) => match walk.next_value(&mut Work::new()) {
                Ok(Some(value)) => match key_at(self.alloc, walk) {
                    Ok(key) => Some(Ok((key, value))),
                    Err(refused) => refuse(&mut self.entries, refused),
                },
                Ok(None) => {
                    self.entries = None;
                    None
                }
                Err(refused) => refuse(&mut self.entries, refused),
            },
            Entries::Entry(bytes, value) => {
                let value = *value;
                match K::new_from_slice(self.alloc, *bytes) {
                    Ok(key) => {
                        self.entries = Some(Entries::Empty);
                        Some(Ok((key, value)))
                    }
                    Err(refused) => refuse(&mut self.entries, refused),
                }
            }
            Entries::Empty => {
                self.entries = None;
                None
            }
        }
    }

    /// That nothing comes any more is known behind the end alone.
    fn size_hint(&self) -> (usize, Option<usize>)
        ensures lower { IsWithinCount result.0 (items_left self.now) }
        ensures upper { IfSome result.1 (UpTo (items_left self.now)) }
        ensures hint { IsHintOf self.now result }
    {
        match &self.entries {
            None => (0, Some(0)),
            Some(_) => (0, None),
        }
    }
}

/// Ends an iterator, the refusal being its last item.
#[cold]
fn refuse<'a, K, P: Partial, V>(
    entries: &mut Option<Entries<'a, P, V>>,
    refused: AllocError,
) -> Option<Result<(K, &'a V), AllocError>>
    ensures over { entries.new ≡ None }
    ensures refused { result ≡ Some (Err refused) }
{
    *entries = None;
    Some(Err(refused))
}

/// The key at which a walk stands.
#[inline(always)]
fn key_at<'a, K: KeyTrait, P: Partial, V: Drop>(
    alloc: Global,
    walk: &Walk<'a, P, V, BytesPath>,
) -> Result<K, AllocError>
    requires walk { IsWalk HoldsBytes extent_in_bytes None walk.now }
    requires admitted { IsAdmitted K.MAXIMUM_SIZE (length (path_to walk.now)) }
    ensures { IfOk result (λ key. K.bytes key ≡ path_to walk.now) }
{
    K::new_from_slice(alloc, walk.key_path().as_slice())
}
