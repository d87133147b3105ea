// Ported from rart 0.11.0 (Apache-2.0), and rewritten.
//! The plain tree: an ordered map from keys to values, without versions.
ghost use Rattle.std.specs.Prelude.{◌≡◌, ◌==◌, IfOk, OnOk, OnErr};
ghost use Rattle.std.specs.FinMap as finite;
ghost use Rattle.std.specs.Option.{option_copied};
ghost use Rattle.rart_below.specs.Plain.{by_bytes, put_all};

use crate::key::KeyTrait;
use std::alloc::{AllocError, Global};
use std::collections::BTreeMap;
use std::collections::btree_map::Iter;
use std::marker::Model;

/// An ordered map from keys to values, without versions: what a version becomes by
/// `into_unversioned`.
///
/// Contracts see it as a finite map from the keys' bytes. In Rust it is a radix tree with many more
/// calls; here it is a sorted map.
#[derive(Drop)]
pub struct AdaptiveRadixTree<K: KeyTrait, V> {
    alloc: Global,
    pairs: BTreeMap<K, V>,
}

impl<K: KeyTrait, V> Model for AdaptiveRadixTree<K, V> {
    ghost use Rattle.rart_below.specs.Plain.{PlainMap, plain_code, plain_map};

    ghost Value = { PlainMap V };

    ghost coded = { plain_code V.code };

    ghost view = { λ tree. plain_map K.bytes tree.pairs.entries };
}

impl<K: KeyTrait, V: Drop> AdaptiveRadixTree<K, V> {
    /// A map without a key.
    ///
    /// ```
    /// let mut prices: AdaptiveRadixTree<VectorKey, u64> = AdaptiveRadixTree::new(alloc);
    /// ```
    pub fn new(alloc: Global) -> AdaptiveRadixTree<K, V>
        ensures { result ≡ finite.empty }
    {
        AdaptiveRadixTree {
            alloc,
            pairs: BTreeMap::new(alloc),
        }
    }

    /// The map of these pairs, of which none has to be in order: of equal keys the last stays.
    /// Refused for memory, there is none, and the pairs are dropped.
    ///
    /// ```
    /// let mut pairs = Vec::new(alloc);
    /// pairs.push((tea, 300_u64))?;
    /// let prices = AdaptiveRadixTree::from_pairs(alloc, pairs)?;
    /// ```
    pub fn from_pairs(
        alloc: Global,
        pairs: Vec<(K, V)>,
    ) -> Result<AdaptiveRadixTree<K, V>, AllocError>
        ensures { IfOk result (λ tree. tree ≡ put_all finite.empty (by_bytes K.bytes pairs.items)) }
    {
        Ok(AdaptiveRadixTree {
            alloc,
            pairs: BTreeMap::from_iter(alloc, pairs)?,
        })
    }

    /// Sets a key to a value, and answers whether a value was replaced. The key is copied. Refused
    /// for memory, the pairs are as before.
    ///
    /// ```
    /// let replaced = prices.insert_k(&tea, 3)?;
    /// ```
    pub fn insert_k(&mut self, key: &K, value: V) -> Result<bool, AllocError>
        ensures replaced { IfOk result (λ replaced. replaced
            ≡ finite.contains_key self.old (K.bytes key.now)) }
        ensures set { OnOk result (self.new ≡ finite.insert self.old (K.bytes key.now) value) }
        ensures refused { OnErr result (self.new ≡ self.old) }
    {
        let copy = K::new_from_slice(self.alloc, key.as_ref())?;
        let before = self.pairs.insert(copy, value)?;
        Ok(before.is_some())
    }

    /// The value of a key, or `None` where the key is absent.
    ///
    /// ```
    /// let price = prices.get_k(&tea);
    /// ```
    pub fn get_k(&self, key: &K) -> Option<&V>
        ensures { option_copied result ≡ finite.get self.now (K.bytes key.now) }
    {
        self.pairs.get(key)
    }

    /// As `get_k`, the key by value.
    ///
    /// ```
    /// let price = prices.get(VectorKey::new_from_slice(alloc, b"tea")?);
    /// ```
    pub fn get(&self, key: K) -> Option<&V>
        ensures { option_copied result ≡ finite.get self.now (K.bytes key) }
    {
        self.get_k(&key)
    }

    /// The number of keys.
    ///
    /// ```
    /// let names = prices.len();
    /// ```
    pub fn len(&self) -> usize
        ensures { result ≡ finite.len self.now }
    {
        self.pairs.len()
    }

    /// Whether there is no key.
    ///
    /// ```
    /// if prices.is_empty() {
    ///     return Ok(());
    /// }
    /// ```
    pub fn is_empty(&self) -> bool
        ensures { result ≡ (finite.len self.now == 0) }
    {
        self.len() == 0
    }

    /// All pairs, in the order of their keys. Both are lent: in Rust the keys are the iterator's
    /// own.
    ///
    /// ```
    /// for (name, price) in prices.iter() {
    ///     total += *price;
    /// }
    /// ```
    pub fn iter(&self) -> PlainIter<'_, K, V>
        ensures { result ≡ finite.entries self.now }
    {
        PlainIter {
            pairs: self.pairs.iter(),
        }
    }
}

/// The pairs of a plain tree, in the order of their keys. rart's has no such name.
///
/// Contracts see the pairs that are still to come, each key by its bytes.
#[derive(Drop)]
pub struct PlainIter<'a, K: KeyTrait, V> {
    pairs: Iter<'a, K, V>,
}

impl<'a, K: KeyTrait, V> Model for PlainIter<'a, K, V> {
    ghost use Rattle.std.specs.Prelude.{List, ℕ};
    ghost use Rattle.rart_below.specs.Plain.{by_bytes};

    ghost Value = { List (List ℕ × V) };

    ghost view = { λ iter. by_bytes K.bytes iter.pairs };
}

impl<'a, K: KeyTrait, V> Iterator for PlainIter<'a, K, V> {
    type Item = (&'a K, &'a V);

    ghost use Rattle.std.specs.Prelude.{length};
    ghost use Rattle.std.specs.Iterator.{at_most};
    ghost use Rattle.std.specs.Map.Iter.{TakesFirst};
    ghost use Rattle.rart_below.specs.Plain.{lent_pair};

    ghost next_gives = { TakesFirst (lent_pair K.bytes) };

    ghost remaining = { λ pairs. at_most (length pairs) };

    fn next(&mut self) -> Option<(&'a K, &'a V)> {
        self.pairs.next()
    }

    fn size_hint(&self) -> (usize, Option<usize>) {
        self.pairs.size_hint()
    }
}
