// Ported from rart 0.11.0 (Apache-2.0), and rewritten.
//! Removal of a key.
ghost use Rattle.std.specs.Prelude.{◌≡◌, ◌<◌, ◌*◌, false, IfOk, IsTrue, None, OnErr, OnOk};
ghost use Rattle.rart_below.specs.Clones.{ClonesEqual};
ghost use Rattle.rart_maps.specs.Bounds.{change_bound, lookup_bound};
ghost use Rattle.rart_maps.specs.Changes.{after_removal};
ghost use Rattle.rart_maps.specs.Versions.{HasRoom, has_key, has_no_key, value_at};
ghost use Rattle.rart_node.specs.Counts.{CountsUpTo};
ghost use Rattle.rart_versioned.specs.SlotChanges.{without_if_there};

use crate::counted::tree::VersionedAdaptiveRadixTree;
use rart_below::{KeyTrait, Partial};
use rart_node::{NodeRef, Work};
use rart_ways::remove_below;
use std::alloc::AllocError;

impl<K: KeyTrait, V: Clone + Drop> VersionedAdaptiveRadixTree<K, V> {
    /// As `remove_k`, with the nodes entered and made counted into `work`: at most two more entered
    /// than twice the bytes of the key, and at most two more made than it has. None is made where
    /// the key is absent.
    pub fn remove_k_counted(&mut self, key: &K, work: &mut Work) -> Result<Option<V>, AllocError>
        requires clones { ClonesEqual V.is_clone }
        requires room { HasRoom self.old 1 }
        ensures answer { IfOk result (λ removed. removed ≡ value_at self.old (K.bytes key.now)) }
        ensures removed { OnOk result (self.new ≡ after_removal self.old (K.bytes key.now)) }
        ensures refused { OnErr result (self.new ≡ self.old) }
        ensures present { OnErr result (IsTrue (has_key self.old (K.bytes key.now))) }
        ensures counted { CountsUpTo (2 * lookup_bound (K.bytes key.now))
            (change_bound (K.bytes key.now)) work.old work.new }
        ensures entered { has_no_key self.old ≡ false → work.old.entered < work.new.entered }
        ensures absent_makes_none { value_at self.old (K.bytes key.now) ≡ None
            → work.new.made ≡ work.old.made }
    {
        self.remove_bytes_counted(key.as_ref(), work)
    }

    /// As `remove_bytes`, counted as by `remove_k_counted`.
    pub fn remove_bytes_counted(
        &mut self,
        key: &[u8],
        work: &mut Work,
    ) -> Result<Option<V>, AllocError>
        requires clones { ClonesEqual V.is_clone }
        requires room { HasRoom self.old 1 }
        ensures answer { IfOk result (λ removed. removed ≡ value_at self.old key.now) }
        ensures removed { OnOk result (self.new ≡ after_removal self.old key.now) }
        ensures refused { OnErr result (self.new ≡ self.old) }
        ensures present { OnErr result (IsTrue (has_key self.old key.now)) }
        ensures counted { CountsUpTo (2 * lookup_bound key.now) (change_bound key.now)
            work.old work.new }
        ensures entered { has_no_key self.old ≡ false → work.old.entered < work.new.entered }
        ensures absent_makes_none { value_at self.old key.now ≡ None
            → work.new.made ≡ work.old.made }
    {
        self.take_in(key, 1, work)
    }

    /// As `delete_k`, counted as by `remove_k_counted`.
    pub fn delete_k_counted(&mut self, key: &K, work: &mut Work) -> Result<bool, AllocError>
        requires clones { ClonesEqual V.is_clone }
        requires room { HasRoom self.old 1 }
        ensures answer { IfOk result (λ removed. removed ≡ has_key self.old (K.bytes key.now)) }
        ensures removed { OnOk result (self.new ≡ after_removal self.old (K.bytes key.now)) }
        ensures refused { OnErr result (self.new ≡ self.old) }
        ensures present { OnErr result (IsTrue (has_key self.old (K.bytes key.now))) }
        ensures counted { CountsUpTo (2 * lookup_bound (K.bytes key.now))
            (change_bound (K.bytes key.now)) work.old work.new }
        ensures entered { has_no_key self.old ≡ false → work.old.entered < work.new.entered }
        ensures absent_makes_none { value_at self.old (K.bytes key.now) ≡ None
            → work.new.made ≡ work.old.made }
    {
        Ok(self.remove_k_counted(key, work)?.is_some())
    }

    /// Takes out the value of a key, and raises the number by so much where the key is there.
    /// Refused for memory, map and number are as before.
    pub(crate) fn take_in(
        &mut self,
        key: &[u8],
        more: u64,
        work: &mut Work,
    ) -> Result<Option<V>, AllocError>
        requires clones { ClonesEqual V.is_clone }
        requires room { HasRoom self.old more }
        ensures answer { IfOk result (λ removed. removed ≡ value_at self.old key.now) }
        ensures removed { OnOk result (self.new ≡ without_if_there self.old key.now more) }
        ensures refused { OnErr result (self.new ≡ self.old) }
        ensures present { OnErr result (IsTrue (has_key self.old key.now)) }
        ensures counted { CountsUpTo (2 * lookup_bound key.now) (lookup_bound key.now)
            work.old work.new }
        ensures entered { has_no_key self.old ≡ false → work.old.entered < work.new.entered }
        ensures absent_makes_none { value_at self.old key.now ≡ None
            → work.new.made ≡ work.old.made }
    {
        let version = self.version + more;
        let alloc = self.alloc;
        let Some(root) = &mut self.root else {
            return Ok(None);
        };
        let removed = remove_below(alloc, root, key, version, work)?;
        if removed.value.is_none() {
            return Ok(None);
        }
        if removed.left_empty {
            self.root = None;
        }
        self.version = version;
        Ok(removed.value)
    }
}
