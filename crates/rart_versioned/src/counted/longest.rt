// Ported from rart 0.11.0 (Apache-2.0), and rewritten.
//! The longest of the keys that begin a probe.
ghost use Rattle.std.specs.Prelude.{◌≡◌, ◌+◌, ◌<◌, ◌≤◌, false, length, IfOk, IfSome, IsSome, OnErr};
ghost use Rattle.rart_maps.specs.Bounds.{lookup_bound};
ghost use Rattle.rart_maps.specs.Pairs.{longest_prefix_match, prefix_matches};
ghost use Rattle.rart_maps.specs.Versions.{has_no_key};
ghost use Rattle.rart_node.specs.Counts.{CountsUpTo};
ghost use Rattle.rart_versioned.specs.Longest.{entry_found, prefix_found};

use crate::counted::tree::VersionedAdaptiveRadixTree;
use rart_below::{KeyTrait, Partial};
use rart_node::{NodeRef, Work};
use rart_ways::longest_prefix_match;
use std::alloc::AllocError;

impl<K: KeyTrait, V: Clone + Drop> VersionedAdaptiveRadixTree<K, V> {
    /// As `longest_prefix_match_k`, with the nodes entered counted into `work`: at most one more
    /// than the probe has bytes, and at least one where there is a key in the map, and one for each
    /// key that begins the probe.
    pub fn longest_prefix_match_k_counted(
        &self,
        probe: &K,
        work: &mut Work,
    ) -> Result<Option<(K, &V)>, AllocError>
        ensures found { IfOk result (λ found. entry_found K.bytes found
            ≡ longest_prefix_match self.now.content (K.bytes probe.now)) }
        ensures present { OnErr result
            (IsSome (longest_prefix_match self.now.content (K.bytes probe.now))) }
        ensures counted { CountsUpTo (lookup_bound (K.bytes probe.now)) 0 work.old work.new }
        ensures entered { has_no_key self.now ≡ false → work.old.entered < work.new.entered }
        ensures each { work.old.entered
            + length (prefix_matches self.now.content (K.bytes probe.now)) ≤ work.new.entered }
    {
        let bytes = probe.as_ref();
        let Some((length, value)) = self.longest_prefix_counted(bytes, work) else {
            return Ok(None);
        };
        let key = K::new_from_slice(self.alloc, &bytes[..length])?;
        Ok(Some((key, value)))
    }

    /// As `longest_prefix`, counted as by `longest_prefix_match_k_counted`.
    pub fn longest_prefix_counted(&self, probe: &[u8], work: &mut Work) -> Option<(usize, &V)>
        ensures found { prefix_found probe.now result
            ≡ longest_prefix_match self.now.content probe.now }
        ensures within { IfSome result (λ found. found.0 ≤ length probe.now) }
        ensures counted { CountsUpTo (lookup_bound probe.now) 0 work.old work.new }
        ensures entered { has_no_key self.now ≡ false → work.old.entered < work.new.entered }
        ensures each { work.old.entered
            + length (prefix_matches self.now.content probe.now) ≤ work.new.entered }
    {
        match &self.root {
            None => None,
            Some(root) => longest_prefix_match(root, probe, work),
        }
    }
}
