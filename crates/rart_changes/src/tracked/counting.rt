//! Changes of one key, with the nodes entered and made counted.
ghost use Rattle.std.specs.Prelude.{◌≡◌, ◌<◌, ◌*◌, false, length, IfOk, IsTrue, OnErr, OnOk};
ghost use Rattle.rart_below.specs.Bytes.{IsAdmitted};
ghost use Rattle.rart_below.specs.Clones.{ClonesEqual};
ghost use Rattle.rart_changes.specs.Tracking.{after_insertion, after_removal};
ghost use Rattle.rart_maps.specs.Bounds.{change_bound, lookup_bound};
ghost use Rattle.rart_maps.specs.Versions.{HasRoom, has_key, has_no_key, value_at};
ghost use Rattle.rart_versioned.specs.Counts.{CountsUpTo};

use crate::tracked::{TrackedTree, marked};
use rart_below::KeyTrait;
use rart_versioned::Work;
use std::alloc::AllocError;

impl<K: KeyTrait, V: Clone + Drop> TrackedTree<K, V> {
    /// As `insert`, with the nodes entered and made counted into `work`: at most three more entered
    /// than three times the bytes of the key, and at most four more made than twice these. Where it
    /// succeeds one is made at least, and one entered where there is a key in the current version.
    pub fn insert_counted(
        &mut self,
        key: &[u8],
        value: V,
        work: &mut Work,
    ) -> Result<bool, AllocError>
        requires clones { ClonesEqual V.is_clone }
        requires room { HasRoom self.old.current 1 }
        requires admitted { IsAdmitted K.MAXIMUM_SIZE (length key.now) }
        ensures answer { IfOk result (λ replaced. replaced ≡ has_key self.old.current key.now) }
        ensures set { OnOk result (self.new ≡ after_insertion self.old key.now value) }
        ensures refused { OnErr result (self.new ≡ self.old) }
        ensures counted { CountsUpTo (3 * lookup_bound key.now) (2 * change_bound key.now)
            work.old work.new }
        ensures entered { has_no_key self.old.current ≡ false
            → OnOk result (work.old.entered < work.new.entered) }
        ensures made { OnOk result (work.old.made < work.new.made) }
    {
        Ok(self.insert_and_replace_counted(key, value, work)?.is_some())
    }

    /// As `insert_and_replace`, counted as by `insert_counted`.
    pub fn insert_and_replace_counted(
        &mut self,
        key: &[u8],
        value: V,
        work: &mut Work,
    ) -> Result<Option<V>, AllocError>
        requires clones { ClonesEqual V.is_clone }
        requires room { HasRoom self.old.current 1 }
        requires admitted { IsAdmitted K.MAXIMUM_SIZE (length key.now) }
        ensures answer { IfOk result (λ replaced. replaced ≡ value_at self.old.current key.now) }
        ensures set { OnOk result (self.new ≡ after_insertion self.old key.now value) }
        ensures refused { OnErr result (self.new ≡ self.old) }
        ensures counted { CountsUpTo (3 * lookup_bound key.now) (2 * change_bound key.now)
            work.old work.new }
        ensures entered { has_no_key self.old.current ≡ false
            → OnOk result (work.old.entered < work.new.entered) }
        ensures made { OnOk result (work.old.made < work.new.made) }
    {
        let touched = marked(&self.touched, key, work)?;
        let replaced = self
            .current
            .insert_and_replace_bytes_counted(key, value, work)?;
        self.touched = touched;
        Ok(replaced)
    }

    /// As `remove`, with the nodes entered and made counted into `work`: at most five more entered
    /// than five times the bytes of the key, and at most four more made than twice these. One is
    /// entered at least where there is a key in the current version. Where this one is absent it is
    /// looked up alone, and none is made.
    pub fn remove_counted(&mut self, key: &[u8], work: &mut Work) -> Result<Option<V>, AllocError>
        requires clones { ClonesEqual V.is_clone }
        requires room { HasRoom self.old.current 1 }
        ensures answer { IfOk result (λ removed. removed ≡ value_at self.old.current key.now) }
        ensures removed { OnOk result (self.new ≡ after_removal self.old key.now) }
        ensures refused { OnErr result (self.new ≡ self.old) }
        ensures present { OnErr result (IsTrue (has_key self.old.current key.now)) }
        ensures counted { CountsUpTo (5 * lookup_bound key.now) (2 * change_bound key.now)
            work.old work.new }
        ensures absent { has_key self.old.current key.now ≡ false
            → CountsUpTo (lookup_bound key.now) 0 work.old work.new }
        ensures entered { has_no_key self.old.current ≡ false
            → work.old.entered < work.new.entered }
    {
        if self.current.get_bytes_counted(key, work).is_none() {
            return Ok(None);
        }
        self.current.know_keys_for_proof();
        let touched = marked(&self.touched, key, work)?;
        let removed = self.current.remove_bytes_counted(key, work)?;
        self.touched = touched;
        Ok(removed)
    }

    /// As `delete`, counted as by `remove_counted`.
    pub fn delete_counted(&mut self, key: &[u8], work: &mut Work) -> Result<bool, AllocError>
        requires clones { ClonesEqual V.is_clone }
        requires room { HasRoom self.old.current 1 }
        ensures answer { IfOk result (λ removed. removed ≡ has_key self.old.current key.now) }
        ensures removed { OnOk result (self.new ≡ after_removal self.old key.now) }
        ensures refused { OnErr result (self.new ≡ self.old) }
        ensures present { OnErr result (IsTrue (has_key self.old.current key.now)) }
        ensures counted { CountsUpTo (5 * lookup_bound key.now) (2 * change_bound key.now)
            work.old work.new }
        ensures absent { has_key self.old.current key.now ≡ false
            → CountsUpTo (lookup_bound key.now) 0 work.old work.new }
        ensures entered { has_no_key self.old.current ≡ false
            → work.old.entered < work.new.entered }
    {
        Ok(self.remove_counted(key, work)?.is_some())
    }
}
