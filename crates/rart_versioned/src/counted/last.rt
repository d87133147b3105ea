// Ported from rart 0.11.0 (Apache-2.0), and rewritten.
//! The last of the pairs, of all or up to an upper bound.
ghost use Rattle.std.specs.Prelude.{◌≡◌, ◌+◌, ◌<◌, false, reverse};
ghost use Rattle.std.specs.Range.Bound.{bound_map};
ghost use Rattle.std.specs.declared.ops.Bound.TheVariants.{Unbounded};
ghost use Rattle.rart_maps.specs.Bounds.{bound_length};
ghost use Rattle.rart_maps.specs.Pairs.{pairs, within};
ghost use Rattle.rart_maps.specs.Versions.{has_no_key};
ghost use Rattle.rart_node.specs.Counts.{CountsUpTo};
ghost use Rattle.rart_ways.specs.Firsts.{Finds, found_length};

use crate::counted::tree::VersionedAdaptiveRadixTree;
use rart_below::{KeyTrait, Partial};
use rart_node::{NodeRef, Work};
use rart_ways::last_to;
use std::ops::Bound;

impl<K: KeyTrait, V: Clone + Drop> VersionedAdaptiveRadixTree<K, V> {
    /// As `last_to`, with the nodes entered counted into `work`: at most one for each byte of
    /// the bound and of the key, and one; and at least one where there is a key in the map.
    pub fn last_to_counted(
        &self,
        high: Bound<&[u8]>,
        room: &mut [u8],
        work: &mut Work,
    ) -> Option<(usize, &V)>
        ensures last { Finds (reverse (within self.now.content Unbounded
            (bound_map (λ high. high.now) high.entry))) result room.old room.new }
        ensures counted { CountsUpTo (bound_length (bound_map (λ high. high.now) high.entry) + 1
            + found_length result) 0 work.old work.new }
        ensures entered { has_no_key self.now ≡ false → work.old.entered < work.new.entered }
    {
        match &self.root {
            None => None,
            Some(root) => last_to(root, high, room, work),
        }
    }

    /// As `last`, with the nodes entered counted into `work`: at most one for each byte of the key,
    /// and one; and at least one where there is a key in the map.
    pub fn last_counted(&self, room: &mut [u8], work: &mut Work) -> Option<(usize, &V)>
        ensures last { Finds (reverse (pairs self.now.content)) result room.old room.new }
        ensures counted { CountsUpTo (1 + found_length result) 0 work.old work.new }
        ensures entered { has_no_key self.now ≡ false → work.old.entered < work.new.entered }
    {
        self.last_to_counted(Bound::Unbounded, room, work)
    }
}
