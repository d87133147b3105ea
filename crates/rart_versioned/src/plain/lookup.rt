// Ported from rart 0.11.0 (Apache-2.0), and rewritten.
//! Lookup with no count.
ghost use Rattle.std.specs.Prelude.{◌≡◌};
ghost use Rattle.std.specs.Option.{option_copied};
ghost use Rattle.rart_maps.specs.Versions.{has_key, value_at};

use crate::counted::VersionedAdaptiveRadixTree;
use rart_below::KeyTrait;
use rart_node::Work;
use std::convert::AsSlice;

impl<K: KeyTrait, V: Clone + Drop> VersionedAdaptiveRadixTree<K, V> {
    /// The value of a key, if the key is there. It can't be refused.
    ///
    /// ```
    /// let price = list.get_k(&tea).copied().unwrap_or(0);
    /// ```
    pub fn get_k(&self, key: &K) -> Option<&V>
        ensures { option_copied result ≡ value_at self.now (K.bytes key.now) }
    {
        self.get_k_counted(key, &mut Work::new())
    }

    /// As `get_k`, the key by value.
    pub fn get(&self, key: K) -> Option<&V>
        ensures { option_copied result ≡ value_at self.now (K.bytes key) }
    {
        self.get_k(&key)
    }

    /// As `get_k`, the key as a text, as bytes, or as whatever else lends bytes. rart has no such
    /// call.
    ///
    /// ```
    /// let price = list.get_bytes("tea").copied().unwrap_or(0);
    /// ```
    pub fn get_bytes<Q: AsSlice<u8> + Drop>(&self, key: Q) -> Option<&V>
        ensures { option_copied result ≡ value_at self.now (Q.items key) }
    {
        self.get_bytes_counted(key.as_slice(), &mut Work::new())
    }

    /// Whether a key is there. The key may be a text, bytes, or whatever else lends bytes. It can't
    /// be refused. rart has no such call.
    ///
    /// ```
    /// let is_listed = list.contains_key("tea") || list.contains_key(&tea);
    /// ```
    pub fn contains_key<Q: AsSlice<u8> + Drop>(&self, key: Q) -> bool
        ensures { result ≡ has_key self.now (Q.items key) }
    {
        self.get_bytes(key).is_some()
    }
}
