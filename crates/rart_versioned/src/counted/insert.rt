// Ported from rart 0.11.0 (Apache-2.0), and rewritten.
//! Insertion of a value at a key.
ghost use Rattle.std.specs.Prelude.{◌≡◌, ◌<◌, ◌≤◌, false, length, IfOk, OnErr, OnOk};
ghost use Rattle.rart_below.specs.Bytes.{IsAdmitted};
ghost use Rattle.rart_below.specs.Clones.{ClonesEqual};
ghost use Rattle.rart_maps.specs.Bounds.{change_bound, lookup_bound};
ghost use Rattle.rart_maps.specs.Versions.{HasRoom, has_key, has_no_key, value_at, with_key};
ghost use Rattle.rart_node.specs.Counts.{CountsUpTo};

use crate::counted::tree::VersionedAdaptiveRadixTree;
use rart_below::{KeyTrait, Partial};
use rart_node::{NodeRef, Work};
use rart_ways::{insert_below, leaf_of};
use std::alloc::AllocError;

impl<K: KeyTrait, V: Clone + Drop> VersionedAdaptiveRadixTree<K, V> {
    /// As `insert_k`, with the nodes entered and made counted into `work`: at most one more entered
    /// than the key has bytes, and at most two more made. Where it succeeds one is made at least.
    pub fn insert_k_counted(
        &mut self,
        key: &K,
        value: V,
        work: &mut Work,
    ) -> Result<bool, AllocError>
        requires clones { ClonesEqual V.is_clone }
        requires room { HasRoom self.old 1 }
        ensures answer { IfOk result (λ replaced. replaced ≡ has_key self.old (K.bytes key.now)) }
        ensures set { OnOk result (self.new ≡ with_key self.old (K.bytes key.now) value 1) }
        ensures refused { OnErr result (self.new ≡ self.old) }
        ensures counted { CountsUpTo (lookup_bound (K.bytes key.now))
            (change_bound (K.bytes key.now)) work.old work.new }
        ensures entered { has_no_key self.old ≡ false → work.old.entered < work.new.entered }
        ensures made { OnOk result (work.old.made < work.new.made) }
    {
        let replaced = self.put_in(key.as_ref(), value, 1, work)?;
        Ok(replaced.is_some())
    }

    /// As `insert_and_replace_k`, counted as by `insert_k_counted`.
    pub fn insert_and_replace_k_counted(
        &mut self,
        key: &K,
        value: V,
        work: &mut Work,
    ) -> Result<Option<V>, AllocError>
        requires clones { ClonesEqual V.is_clone }
        requires room { HasRoom self.old 1 }
        ensures answer { IfOk result (λ replaced. replaced ≡ value_at self.old (K.bytes key.now)) }
        ensures set { OnOk result (self.new ≡ with_key self.old (K.bytes key.now) value 1) }
        ensures refused { OnErr result (self.new ≡ self.old) }
        ensures counted { CountsUpTo (lookup_bound (K.bytes key.now))
            (change_bound (K.bytes key.now)) work.old work.new }
        ensures entered { has_no_key self.old ≡ false → work.old.entered < work.new.entered }
        ensures made { OnOk result (work.old.made < work.new.made) }
    {
        self.insert_and_replace_bytes_counted(key.as_ref(), value, work)
    }

    /// As `insert_and_replace_bytes`, counted as by `insert_k_counted`.
    pub fn insert_and_replace_bytes_counted(
        &mut self,
        key: &[u8],
        value: V,
        work: &mut Work,
    ) -> Result<Option<V>, AllocError>
        requires clones { ClonesEqual V.is_clone }
        requires room { HasRoom self.old 1 }
        requires admitted { IsAdmitted K.MAXIMUM_SIZE (length key.now) }
        ensures answer { IfOk result (λ replaced. replaced ≡ value_at self.old key.now) }
        ensures set { OnOk result (self.new ≡ with_key self.old key.now value 1) }
        ensures refused { OnErr result (self.new ≡ self.old) }
        ensures counted { CountsUpTo (lookup_bound key.now) (change_bound key.now)
            work.old work.new }
        ensures entered { has_no_key self.old ≡ false → work.old.entered < work.new.entered }
        ensures made { OnOk result (work.old.made < work.new.made) }
    {
        self.put_in(key, value, 1, work)
    }

    /// Puts a value at a key, raises the number by so much, and gives the value that was there.
    /// Refused for memory, map and number are as before.
    pub(crate) fn put_in(
        &mut self,
        key: &[u8],
        value: V,
        more: u64,
        work: &mut Work,
    ) -> Result<Option<V>, AllocError>
        requires clones { ClonesEqual V.is_clone }
        requires room { HasRoom self.old more }
        requires raised { 1 ≤ more }
        requires admitted { IsAdmitted K.MAXIMUM_SIZE (length key.now) }
        ensures answer { IfOk result (λ replaced. replaced ≡ value_at self.old key.now) }
        ensures set { OnOk result (self.new ≡ with_key self.old key.now value more) }
        ensures refused { OnErr result (self.new ≡ self.old) }
        ensures counted { CountsUpTo (lookup_bound key.now) (change_bound key.now)
            work.old work.new }
        ensures entered { has_no_key self.old ≡ false → work.old.entered < work.new.entered }
        ensures made { OnOk result (work.old.made < work.new.made) }
    {
        let version = self.version + more;
        match &mut self.root {
            None => {
                let leaf = leaf_of(self.alloc, key, value, version, work)?;
                self.root = Some(leaf);
                self.version = version;
                Ok(None)
            }
            Some(root) => {
                let old = insert_below(self.alloc, root, key, value, version, work)?;
                self.version = version;
                Ok(old)
            }
        }
    }
}
