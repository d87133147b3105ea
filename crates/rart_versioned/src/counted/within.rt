// Ported from rart 0.11.0 (Apache-2.0), and rewritten.
//! Whether there is a pair within two bounds.
ghost use Rattle.std.specs.Prelude.{◌≡◌, ◌+◌, ◌<◌, ◌==◌, false, length, not};
ghost use Rattle.std.specs.Range.Bound.{bound_map};
ghost use Rattle.rart_maps.specs.Bounds.{bound_length};
ghost use Rattle.rart_maps.specs.Pairs.{within};
ghost use Rattle.rart_maps.specs.Versions.{has_no_key};
ghost use Rattle.rart_node.specs.Counts.{CountsUpTo};

use crate::counted::tree::VersionedAdaptiveRadixTree;
use rart_below::{KeyTrait, Partial};
use rart_node::{NodeRef, Work};
use rart_ways::has_within;
use std::ops::Bound;

impl<K: KeyTrait, V: Clone + Drop> VersionedAdaptiveRadixTree<K, V> {
    /// As `has_within`, with the nodes entered counted into `work`: at most one for each byte of
    /// both bounds, and three; and at least one where there is a key in the map.
    pub fn has_within_counted(&self, low: Bound<&[u8]>, high: Bound<&[u8]>, work: &mut Work) -> bool
        ensures answer { result ≡ not (length (within self.now.content
            (bound_map (λ low. low.now) low.entry) (bound_map (λ high. high.now) high.entry))
            == 0) }
        ensures counted { CountsUpTo (bound_length (bound_map (λ low. low.now) low.entry)
            + bound_length (bound_map (λ high. high.now) high.entry) + 3) 0 work.old work.new }
        ensures entered { has_no_key self.now ≡ false → work.old.entered < work.new.entered }
    {
        match &self.root {
            None => false,
            Some(root) => has_within(root, low, high, work),
        }
    }
}
