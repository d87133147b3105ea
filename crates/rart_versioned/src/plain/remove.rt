// Ported from rart 0.11.0 (Apache-2.0), and rewritten.
//! Removal with no count.
ghost use Rattle.std.specs.Prelude.{◌≡◌, IfOk, IsTrue, None, OnErr, OnOk};
ghost use Rattle.rart_below.specs.Clones.{ClonesEqual};
ghost use Rattle.rart_maps.specs.Changes.{after_removal};
ghost use Rattle.rart_maps.specs.Lookups.{Sets};
ghost use Rattle.rart_maps.specs.Versions.{HasRoom, has_key, value_at};

use crate::counted::VersionedAdaptiveRadixTree;
use rart_below::KeyTrait;
use rart_node::Work;
use std::alloc::AllocError;
use std::convert::AsSlice;

impl<K: KeyTrait, V: Clone + Drop> VersionedAdaptiveRadixTree<K, V> {
    /// As `remove_k`, with the key by value.
    pub fn remove(&mut self, key: K) -> Result<Option<V>, AllocError>
        requires clones { ClonesEqual V.is_clone }
        requires room { HasRoom self.old 1 }
        ensures answer { IfOk result (λ removed. removed ≡ value_at self.old (K.bytes key)) }
        ensures removed { OnOk result (self.new ≡ after_removal self.old (K.bytes key)) }
        ensures lookups { OnOk result (Sets self.old self.new (K.bytes key) None) }
        ensures refused { OnErr result (self.new ≡ self.old) }
        ensures present { OnErr result (IsTrue (has_key self.old (K.bytes key))) }
    {
        self.remove_k(&key)
    }

    /// Takes the key out and gives its value: the number is then one greater. Where the key is
    /// absent the answer is None, map and number stay, and it isn't refused. Refused for memory,
    /// map and number are as before.
    ///
    /// ```
    /// if let Some(price) = list.remove_k(&tea)? {
    ///     prices.push(price)?;
    /// }
    /// ```
    pub fn remove_k(&mut self, key: &K) -> Result<Option<V>, AllocError>
        requires clones { ClonesEqual V.is_clone }
        requires room { HasRoom self.old 1 }
        ensures answer { IfOk result (λ removed. removed ≡ value_at self.old (K.bytes key.now)) }
        ensures removed { OnOk result (self.new ≡ after_removal self.old (K.bytes key.now)) }
        ensures lookups { OnOk result (Sets self.old self.new (K.bytes key.now) None) }
        ensures refused { OnErr result (self.new ≡ self.old) }
        ensures present { OnErr result (IsTrue (has_key self.old (K.bytes key.now))) }
    {
        self.remove_k_counted(key, &mut Work::new())
    }

    /// As `remove_k`, the key as a text, as bytes, or as whatever else lends bytes. rart has no
    /// such call.
    ///
    /// ```
    /// let price = list.remove_bytes("tea")?;
    /// ```
    pub fn remove_bytes<Q: AsSlice<u8> + Drop>(&mut self, key: Q) -> Result<Option<V>, AllocError>
        requires clones { ClonesEqual V.is_clone }
        requires room { HasRoom self.old 1 }
        ensures answer { IfOk result (λ removed. removed ≡ value_at self.old (Q.items key)) }
        ensures removed { OnOk result (self.new ≡ after_removal self.old (Q.items key)) }
        ensures lookups { OnOk result (Sets self.old self.new (Q.items key) None) }
        ensures refused { OnErr result (self.new ≡ self.old) }
        ensures present { OnErr result (IsTrue (has_key self.old (Q.items key))) }
    {
        self.remove_bytes_counted(key.as_slice(), &mut Work::new())
    }

    /// As `delete_k`, with the key by value.
    pub fn delete(&mut self, key: K) -> Result<bool, AllocError>
        requires clones { ClonesEqual V.is_clone }
        requires room { HasRoom self.old 1 }
        ensures answer { IfOk result (λ removed. removed ≡ has_key self.old (K.bytes key)) }
        ensures removed { OnOk result (self.new ≡ after_removal self.old (K.bytes key)) }
        ensures lookups { OnOk result (Sets self.old self.new (K.bytes key) None) }
        ensures refused { OnErr result (self.new ≡ self.old) }
        ensures present { OnErr result (IsTrue (has_key self.old (K.bytes key))) }
    {
        self.delete_k(&key)
    }

    /// Takes the key out and says whether it was there, otherwise as `remove_k`.
    pub fn delete_k(&mut self, key: &K) -> Result<bool, AllocError>
        requires clones { ClonesEqual V.is_clone }
        requires room { HasRoom self.old 1 }
        ensures answer { IfOk result (λ removed. removed ≡ has_key self.old (K.bytes key.now)) }
        ensures removed { OnOk result (self.new ≡ after_removal self.old (K.bytes key.now)) }
        ensures lookups { OnOk result (Sets self.old self.new (K.bytes key.now) None) }
        ensures refused { OnErr result (self.new ≡ self.old) }
        ensures present { OnErr result (IsTrue (has_key self.old (K.bytes key.now))) }
    {
        self.delete_k_counted(key, &mut Work::new())
    }
}
