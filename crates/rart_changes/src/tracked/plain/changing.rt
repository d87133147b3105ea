//! Changes of one key: the current version is changed as a tree is, and the key is touched.
ghost use Rattle.std.specs.Prelude.{◌≡◌, length, IfOk, IsTrue, OnErr, OnOk};
ghost use Rattle.rart_below.specs.Bytes.{IsAdmitted};
ghost use Rattle.rart_below.specs.Clones.{ClonesEqual};
ghost use Rattle.rart_changes.specs.Tracking.{after_insertion, after_removal, tracking_from};
ghost use Rattle.rart_maps.specs.Versions.{HasRoom, has_key, value_at};

use crate::tracked::{TrackedTree, no_keys};
use rart_below::KeyTrait;
use rart_versioned::Work;
use std::alloc::AllocError;
use std::convert::AsSlice;

impl<K: KeyTrait, V: Clone + Drop> TrackedTree<K, V> {
    /// Sets a key to a value, and touches it. The key may be a text, bytes, or whatever else lends
    /// bytes, of a length that the key type admits. The number is one greater then, and the answer
    /// is whether a value was replaced. Refused for memory, all is as before.
    pub fn insert<Q: AsSlice<u8> + Drop>(&mut self, key: Q, value: V) -> Result<bool, AllocError>
        requires clones { ClonesEqual V.is_clone }
        requires room { HasRoom self.old.current 1 }
        requires admitted { IsAdmitted K.MAXIMUM_SIZE (length (Q.items key)) }
        ensures answer { IfOk result
            (λ replaced. replaced ≡ has_key self.old.current (Q.items key)) }
        ensures set { OnOk result (self.new ≡ after_insertion self.old (Q.items key) value) }
        ensures refused { OnErr result (self.new ≡ self.old) }
    {
        Ok(self.insert_and_replace(key, value)?.is_some())
    }

    /// As `insert`, and answers the value that was replaced, if one was.
    pub fn insert_and_replace<Q: AsSlice<u8> + Drop>(
        &mut self,
        key: Q,
        value: V,
    ) -> Result<Option<V>, AllocError>
        requires clones { ClonesEqual V.is_clone }
        requires room { HasRoom self.old.current 1 }
        requires admitted { IsAdmitted K.MAXIMUM_SIZE (length (Q.items key)) }
        ensures answer { IfOk result
            (λ replaced. replaced ≡ value_at self.old.current (Q.items key)) }
        ensures set { OnOk result (self.new ≡ after_insertion self.old (Q.items key) value) }
        ensures refused { OnErr result (self.new ≡ self.old) }
    {
        self.insert_and_replace_counted(key.as_slice(), value, &mut Work::new())
    }

    /// Takes a key out, touches it, and gives its value: the number is one greater then. The key
    /// may be a text, bytes, or whatever else lends bytes. Where it is absent the answer is `None`,
    /// all is as before, and it isn't refused. Refused for memory, all is as before.
    pub fn remove<Q: AsSlice<u8> + Drop>(&mut self, key: Q) -> Result<Option<V>, AllocError>
        requires clones { ClonesEqual V.is_clone }
        requires room { HasRoom self.old.current 1 }
        ensures answer { IfOk result
            (λ removed. removed ≡ value_at self.old.current (Q.items key)) }
        ensures removed { OnOk result (self.new ≡ after_removal self.old (Q.items key)) }
        ensures refused { OnErr result (self.new ≡ self.old) }
        ensures present { OnErr result (IsTrue (has_key self.old.current (Q.items key))) }
    {
        self.remove_counted(key.as_slice(), &mut Work::new())
    }

    /// Takes a key out and says whether it was there, otherwise as `remove`.
    pub fn delete<Q: AsSlice<u8> + Drop>(&mut self, key: Q) -> Result<bool, AllocError>
        requires clones { ClonesEqual V.is_clone }
        requires room { HasRoom self.old.current 1 }
        ensures answer { IfOk result
            (λ removed. removed ≡ has_key self.old.current (Q.items key)) }
        ensures removed { OnOk result (self.new ≡ after_removal self.old (Q.items key)) }
        ensures refused { OnErr result (self.new ≡ self.old) }
        ensures present { OnErr result (IsTrue (has_key self.old.current (Q.items key))) }
    {
        Ok(self.remove(key)?.is_some())
    }

    /// Goes back to the base: it is the current version, with the base's number, which is lower
    /// than it was where a key was changed. No key is touched then. Refused for memory, all is as
    /// before.
    pub fn undo(&mut self) -> Result<(), AllocError>
        ensures undone { OnOk result (self.new ≡ tracking_from self.old.base) }
        ensures refused { OnErr result (self.new ≡ self.old) }
    {
        let base = self.base.clone()?;
        base.know_keys_for_proof();
        self.current = base;
        self.touched = no_keys(self.alloc);
        Ok(())
    }

    /// Takes the current version as base: no key is touched then. Refused for memory, all is as
    /// before.
    pub fn commit(&mut self) -> Result<(), AllocError>
        ensures committed { OnOk result (self.new ≡ tracking_from self.old.current) }
        ensures refused { OnErr result (self.new ≡ self.old) }
    {
        let current = self.current.clone()?;
        current.know_keys_for_proof();
        self.base = current;
        self.touched = no_keys(self.alloc);
        Ok(())
    }
}
