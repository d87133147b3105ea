// Ported from rart 0.11.0 (Apache-2.0), and rewritten.
//! Lookup of a key.
ghost use Rattle.std.specs.Prelude.{◌≡◌, ◌+◌, ◌<◌, ◌≤◌, false, length};
ghost use Rattle.std.specs.Option.{option_copied};
ghost use Rattle.rart_maps.specs.Bounds.{lookup_bound};
ghost use Rattle.rart_maps.specs.Pairs.{prefix_matches};
ghost use Rattle.rart_maps.specs.Versions.{has_no_key, value_at};
ghost use Rattle.rart_node.specs.Counts.{CountsUpTo};

use crate::counted::tree::VersionedAdaptiveRadixTree;
use rart_below::{KeyTrait, Partial};
use rart_node::{NodeRef, Work};
use rart_ways::get_below;

impl<K: KeyTrait, V: Clone + Drop> VersionedAdaptiveRadixTree<K, V> {
    /// As `get_k`, with the nodes entered counted into `work`: at most one more than the key has
    /// bytes, and at least one where there is a key in the map, and one for each key that begins
    /// this one.
    pub fn get_k_counted(&self, key: &K, work: &mut Work) -> Option<&V>
        ensures value { option_copied result ≡ value_at self.now (K.bytes key.now) }
        ensures counted { CountsUpTo (lookup_bound (K.bytes key.now)) 0 work.old work.new }
        ensures entered { has_no_key self.now ≡ false → work.old.entered < work.new.entered }
        ensures each { work.old.entered
            + length (prefix_matches self.now.content (K.bytes key.now)) ≤ work.new.entered }
    {
        self.get_bytes_counted(key.as_ref(), work)
    }

    /// As `get_bytes`, counted as by `get_k_counted`.
    pub fn get_bytes_counted(&self, key: &[u8], work: &mut Work) -> Option<&V>
        ensures value { option_copied result ≡ value_at self.now key.now }
        ensures counted { CountsUpTo (lookup_bound key.now) 0 work.old work.new }
        ensures entered { has_no_key self.now ≡ false → work.old.entered < work.new.entered }
        ensures each { work.old.entered
            + length (prefix_matches self.now.content key.now) ≤ work.new.entered }
    {
        match &self.root {
            None => None,
            Some(root) => get_below(root, key, work),
        }
    }
}
