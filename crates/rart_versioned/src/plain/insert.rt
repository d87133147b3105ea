// Ported from rart 0.11.0 (Apache-2.0), and rewritten.
//! Insertion with no count.
ghost use Rattle.std.specs.Prelude.{◌≡◌, length, IfOk, OnErr, OnOk, Some};
ghost use Rattle.rart_below.specs.Bytes.{IsAdmitted};
ghost use Rattle.rart_below.specs.Clones.{ClonesEqual};
ghost use Rattle.rart_maps.specs.Lookups.{Sets};
ghost use Rattle.rart_maps.specs.Versions.{HasRoom, has_key, value_at, with_key};

use crate::counted::VersionedAdaptiveRadixTree;
use rart_below::KeyTrait;
use rart_node::Work;
use std::alloc::AllocError;
use std::convert::AsSlice;

impl<K: KeyTrait, V: Clone + Drop> VersionedAdaptiveRadixTree<K, V> {
    /// Sets a key to a value, raises the number by one, and answers whether a value was replaced.
    /// Refused for memory, map and number are as before.
    ///
    /// ```
    /// let replaced = list.insert_k(&tea, 300)?;
    /// ```
    pub fn insert_k(&mut self, key: &K, value: V) -> Result<bool, AllocError>
        requires clones { ClonesEqual V.is_clone }
        requires room { HasRoom self.old 1 }
        ensures answer { IfOk result (λ replaced. replaced ≡ has_key self.old (K.bytes key.now)) }
        ensures set { OnOk result (self.new ≡ with_key self.old (K.bytes key.now) value 1) }
        ensures lookups { OnOk result (Sets self.old self.new (K.bytes key.now) (Some value)) }
        ensures refused { OnErr result (self.new ≡ self.old) }
    {
        self.insert_k_counted(key, value, &mut Work::new())
    }

    /// As `insert_k`, the key by value.
    ///
    /// ```
    /// list.insert(VectorKey::new_from_slice(alloc, b"tea")?, 300)?;
    /// ```
    pub fn insert(&mut self, key: K, value: V) -> Result<bool, AllocError>
        requires clones { ClonesEqual V.is_clone }
        requires room { HasRoom self.old 1 }
        ensures answer { IfOk result (λ replaced. replaced ≡ has_key self.old (K.bytes key)) }
        ensures set { OnOk result (self.new ≡ with_key self.old (K.bytes key) value 1) }
        ensures lookups { OnOk result (Sets self.old self.new (K.bytes key) (Some value)) }
        ensures refused { OnErr result (self.new ≡ self.old) }
    {
        self.insert_k(&key, value)
    }

    /// As `insert_k`, and answers the value that was replaced, if one was.
    pub fn insert_and_replace_k(&mut self, key: &K, value: V) -> Result<Option<V>, AllocError>
        requires clones { ClonesEqual V.is_clone }
        requires room { HasRoom self.old 1 }
        ensures answer { IfOk result (λ replaced. replaced ≡ value_at self.old (K.bytes key.now)) }
        ensures set { OnOk result (self.new ≡ with_key self.old (K.bytes key.now) value 1) }
        ensures lookups { OnOk result (Sets self.old self.new (K.bytes key.now) (Some value)) }
        ensures refused { OnErr result (self.new ≡ self.old) }
    {
        self.insert_and_replace_k_counted(key, value, &mut Work::new())
    }

    /// As `insert_and_replace_k`, the key by value.
    pub fn insert_and_replace(&mut self, key: K, value: V) -> Result<Option<V>, AllocError>
        requires clones { ClonesEqual V.is_clone }
        requires room { HasRoom self.old 1 }
        ensures answer { IfOk result (λ replaced. replaced ≡ value_at self.old (K.bytes key)) }
        ensures set { OnOk result (self.new ≡ with_key self.old (K.bytes key) value 1) }
        ensures lookups { OnOk result (Sets self.old self.new (K.bytes key) (Some value)) }
        ensures refused { OnErr result (self.new ≡ self.old) }
    {
        self.insert_and_replace_k(&key, value)
    }

    /// As `insert_k`, the key as a text, as bytes, or as whatever else lends bytes, of a length
    /// that the key type admits: no key is made for it.
    ///
    /// ```
    /// let replaced = list.insert_bytes("tea", 300)?;
    /// ```
    pub fn insert_bytes<Q: AsSlice<u8> + Drop>(
        &mut self,
        key: Q,
        value: V,
    ) -> Result<bool, AllocError>
        requires clones { ClonesEqual V.is_clone }
        requires room { HasRoom self.old 1 }
        requires admitted { IsAdmitted K.MAXIMUM_SIZE (length (Q.items key)) }
        ensures answer { IfOk result (λ replaced. replaced ≡ has_key self.old (Q.items key)) }
        ensures set { OnOk result (self.new ≡ with_key self.old (Q.items key) value 1) }
        ensures lookups { OnOk result (Sets self.old self.new (Q.items key) (Some value)) }
        ensures refused { OnErr result (self.new ≡ self.old) }
    {
        Ok(self.insert_and_replace_bytes(key, value)?.is_some())
    }

    /// As `insert_bytes`, and answers the value that was replaced, if one was.
    pub fn insert_and_replace_bytes<Q: AsSlice<u8> + Drop>(
        &mut self,
        key: Q,
        value: V,
    ) -> Result<Option<V>, AllocError>
        requires clones { ClonesEqual V.is_clone }
        requires room { HasRoom self.old 1 }
        requires admitted { IsAdmitted K.MAXIMUM_SIZE (length (Q.items key)) }
        ensures answer { IfOk result (λ replaced. replaced ≡ value_at self.old (Q.items key)) }
        ensures set { OnOk result (self.new ≡ with_key self.old (Q.items key) value 1) }
        ensures lookups { OnOk result (Sets self.old self.new (Q.items key) (Some value)) }
        ensures refused { OnErr result (self.new ≡ self.old) }
    {
        self.insert_and_replace_bytes_counted(key.as_slice(), value, &mut Work::new())
    }
}
