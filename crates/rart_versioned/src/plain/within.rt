// Ported from rart 0.11.0 (Apache-2.0), and rewritten.
//! Whether there is a pair within two bounds, with no count.
ghost use Rattle.std.specs.Prelude.{◌≡◌, ◌==◌, not, length};
ghost use Rattle.std.specs.Range.Bound.{bound_map};
ghost use Rattle.rart_maps.specs.Pairs.{within};

use crate::counted::VersionedAdaptiveRadixTree;
use rart_below::KeyTrait;
use rart_node::Work;
use std::ops::Bound;

impl<K: KeyTrait, V: Clone + Drop> VersionedAdaptiveRadixTree<K, V> {
    /// Whether there is a pair whose key is within two bounds. It can't be refused, and puts no key
    /// together. rart has no such call.
    ///
    /// ```
    /// let has_more = list.has_within(Bound::Excluded(tea.as_ref()), Bound::Unbounded);
    /// ```
    pub fn has_within(&self, low: Bound<&[u8]>, high: Bound<&[u8]>) -> bool
        ensures { result ≡ not (length (within self.now.content
            (bound_map (λ low. low.now) low.entry) (bound_map (λ high. high.now) high.entry))
            == 0) }
    {
        self.has_within_counted(low, high, &mut Work::new())
    }
}
