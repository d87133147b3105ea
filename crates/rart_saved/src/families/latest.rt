//! The version of a family that is being read.
ghost use Rattle.std.specs.Prelude.{◌≡◌, ◌+◌, ◌<◌, ◌≤◌, ◌^◌, length, IfOk, OnOk};
ghost use Rattle.std.specs.FinMap as finite;
ghost use Rattle.rart_below.specs.Bytes.{IsAdmitted};
ghost use Rattle.rart_below.specs.Clones.{ClonesEqual};
ghost use Rattle.rart_maps.specs.Lookups.{with_value};
ghost use Rattle.rart_maps.specs.Versions.{empty_at};

use crate::value::SavedValue;
use rart_versioned::{KeyTrait, VersionedAdaptiveRadixTree};
use std::alloc::{AllocError, Global};

/// The version that was read last, or is being read, and how many keys it has. Each of them has
/// bytes of its own in its form, so they are never more than the bytes that were read.
#[derive(Drop)]
pub(crate) struct Latest<K: KeyTrait, V: SavedValue> {
    pub(crate) tree: VersionedAdaptiveRadixTree<K, V>,
    pub(crate) keys: u64,
}

impl<K: KeyTrait, V: SavedValue> Latest<K, V> {
    /// That before the first version: the one without a key.
    pub(crate) fn new(alloc: Global) -> Latest<K, V>
        ensures empty { result.tree.content ≡ finite.empty }
        ensures counted { result.keys ≡ 0 }
    {
        Latest {
            tree: VersionedAdaptiveRadixTree::new(alloc),
            keys: 0,
        }
    }

    /// Sets a key to the value, or takes it out where there is none. What the number is then is
    /// unspecified.
    pub(crate) fn put(&mut self, key: &[u8], value: Option<V>) -> Result<(), AllocError>
        requires clones { ClonesEqual V.is_clone }
        requires admitted { IsAdmitted K.MAXIMUM_SIZE (length key.now) }
        requires counted { self.old.keys ≡ finite.len self.old.tree.content }
        requires room { self.old.keys + 1 < 2 ^ 64 }
        ensures set { OnOk result (self.new.tree.content
            ≡ with_value self.old.tree.content key.now value) }
        ensures counted { OnOk result (self.new.keys ≡ finite.len self.new.tree.content) }
        ensures most { OnOk result (self.new.keys ≤ self.old.keys + 1) }
    {
        // (the least that it may be, so that there is room for one more)
        self.tree.set_version(self.keys);
        match value {
            Some(value) => {
                let is_replaced = self.tree.insert_bytes(key, value)?;
                self.keys += u64::from(!is_replaced);
            }
            None => {
                let removed = self.tree.remove_bytes(key)?;
                self.keys -= u64::from(removed.is_some());
            }
        }
        Ok(())
    }
}
