//! A tree made of pairs that ascend. rart has no such call.
ghost use Rattle.std.specs.Prelude.{◌≡◌, ◌+◌, ◌<◌, ◌≤◌, ◌^◌, ℕ, All, Err, IfOk, IfNone, IfSome, IsTrue, Some, false, length, slice_get, true};
ghost use Rattle.std.specs.FinSet as set;
ghost use Rattle.rart_below.specs.Plain.{by_bytes};
ghost use Rattle.rart_maps.specs.Disorders.{IsDisorderAt};
ghost use Rattle.rart_maps.specs.Order.{IsBefore};
ghost use Rattle.rart_maps.specs.Pairs as maps;
ghost use Rattle.rart_maps.specs.Points.{points};
ghost use Rattle.rart_versioned.specs.Keys.{IsKey};
ghost use Rattle.rart_versioned.specs.Sorted.{AscendTo};

use crate::counted::tree::VersionedAdaptiveRadixTree;
use rart_below::{KeyTrait, Partial, compare_bytes};
use rart_node::{NodeRef, Work};
use rart_ways::tree_of;
use std::alloc::{AllocError, Global};
use thiserror::Error;

/// Why pairs did not become a version. Nothing is left behind.
#[derive(Debug, Drop, Error)]
pub enum SortedError {
    /// Memory was refused.
    #[error(transparent)]
    Memory(AllocError),
    /// The key at this place, of places from 0, does not stand behind the one before it.
    #[error("the key at place {at} does not ascend")]
    NotAscending { at: usize },
}

impl From<AllocError> for SortedError {
    ghost use Rattle.rart_versioned.specs.declared.counted.sorted.SortedError.TheVariants.{Memory};

    ghost from_gives = { λ refused error. error ≡ Memory refused };

    fn from(refused: AllocError) -> SortedError {
        SortedError::Memory(refused)
    }
}

impl<K: KeyTrait, V: Clone + Drop> VersionedAdaptiveRadixTree<K, V> {
    ghost use Rattle.rart_versioned.specs.declared.counted.sorted.SortedError.TheVariants.{NotAscending};

    /// As `from_sorted_at`, with the nodes made counted into `work`: one for each point of the map.
    /// None is entered.
    pub fn from_sorted_counted(
        alloc: Global,
        pairs: Vec<(K, V)>,
        number: u64,
        work: &mut Work,
    ) -> Result<VersionedAdaptiveRadixTree<K, V>, SortedError>
        requires { length pairs.items ≤ number }
        ensures pairs { IfOk result (λ tree. maps.pairs tree.content
            ≡ by_bytes K.bytes pairs.items) }
        ensures number { IfOk result (λ tree. tree.number ≡ number) }
        ensures disorder { (at : ℕ) → result ≡ Err (NotAscending at)
            → IsDisorderAt K.bytes at pairs.items }
        ensures made { IfOk result (λ tree. work.new.made
            ≡ work.old.made + set.len (points tree.content)) }
        ensures entered { work.new.entered ≡ work.old.entered }
    {
        let mut pairs = pairs;
        if let Some(at) = disorder_in(pairs.as_slice()) {
            return Err(SortedError::NotAscending { at });
        }
        if pairs.is_empty() {
            return Ok(VersionedAdaptiveRadixTree::new_at(alloc, number));
        }
        let root = tree_of(alloc, &mut pairs, 0, 0, number, work)?;
        Ok(VersionedAdaptiveRadixTree {
            alloc,
            root: Some(root),
            version: number,
        })
    }
}

/// The first place whose key does not stand behind the one before it.
fn disorder_in<K: KeyTrait, V>(pairs: &[(K, V)]) -> Option<usize>
    ensures ascend { IfNone result (AscendTo K.bytes K.MAXIMUM_SIZE (length pairs.now) pairs.now) }
    ensures disorder { IfSome result (λ at. IsDisorderAt K.bytes at pairs.now) }
{
    let mut at = 0;
    'comparing: while at < pairs.len() {
        if !ascends_at(pairs, at) {
            return Some(at);
        }
        at += 1;
    }
    None
}

/// Whether the key at a place stands behind the one before it, if there is one.
fn ascends_at<K: KeyTrait, V>(pairs: &[(K, V)], at: usize) -> bool
    requires { at < length pairs.now }
    ensures ascend { result ≡ true → (i : ℕ) (p q : K × V) → i + 1 ≡ at
        → slice_get pairs.now i ≡ Some p → slice_get pairs.now at ≡ Some q
        → IsBefore (K.bytes p.0) (K.bytes q.0) }
    ensures disorder { result ≡ false → IsDisorderAt K.bytes at pairs.now }
    ensures key { (q : K × V) → slice_get pairs.now at ≡ Some q
        → IsKey K.MAXIMUM_SIZE (K.bytes q.0) }
{
    let key = pairs[at].0.as_ref();
    know_bytes_for_proof(key);
    if at == 0 {
        return true;
    }
    compare_bytes(pairs[at - 1].0.as_ref(), key).is_lt()
}

/// Does nothing, and is called for the proof alone: a slice has bytes, and fewer than 2^64.
fn know_bytes_for_proof(key: &[u8])
    ensures long { length key.now < 2 ^ 64 }
    ensures bytes { All (λ b. b < 256) key.now }
{}
