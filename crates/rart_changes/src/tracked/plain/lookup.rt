//! Lookups with no count.
ghost use Rattle.std.specs.Prelude.{◌≡◌, false};
ghost use Rattle.std.specs.Option.{option_copied};
ghost use Rattle.rart_changes.specs.Tracking.{is_in};
ghost use Rattle.rart_maps.specs.Versions.{value_at};

use crate::tracked::TrackedTree;
use rart_below::KeyTrait;
use std::convert::AsSlice;

impl<K: KeyTrait, V: Clone + Drop> TrackedTree<K, V> {
    /// The value of a key, if the key is there. The key may be a text, bytes, or whatever else
    /// lends bytes. It can't be refused.
    pub fn get<Q: AsSlice<u8> + Drop>(&self, key: Q) -> Option<&V>
        ensures { option_copied result ≡ value_at self.now.current (Q.items key) }
    {
        self.current.get_bytes(key)
    }

    /// Whether a key was touched. The key may be a text, bytes, or whatever else lends bytes. It
    /// can't be refused.
    pub fn is_touched<Q: AsSlice<u8> + Drop>(&self, key: Q) -> bool
        ensures touched { result ≡ is_in self.now.touched (Q.items key) }
        ensures tracked { result ≡ false → value_at self.now.current (Q.items key)
            ≡ value_at self.now.base (Q.items key) }
    {
        self.touched.contains_key(key)
    }
}
