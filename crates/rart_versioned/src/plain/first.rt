// Ported from rart 0.11.0 (Apache-2.0), and rewritten.
//! The first of the pairs, of all or from a lower bound on, with no count.
ghost use Rattle.std.specs.Range.Bound.{bound_map};
ghost use Rattle.std.specs.declared.ops.Bound.TheVariants.{Unbounded};
ghost use Rattle.rart_maps.specs.Pairs.{pairs, within};
ghost use Rattle.rart_ways.specs.Firsts.{Finds};

use crate::counted::VersionedAdaptiveRadixTree;
use rart_below::KeyTrait;
use rart_node::Work;
use std::ops::Bound;

impl<K: KeyTrait, V: Clone + Drop> VersionedAdaptiveRadixTree<K, V> {
    /// The first of the pairs whose keys meet a lower bound: how many bytes its key has, and a
    /// reference to its value. `None` where there is none. It can't be refused. rart has no such
    /// call.
    ///
    /// ```
    /// let mut room = [0; 16];
    /// let found = list.first_from(Bound::Included(tea.as_ref()), &mut room);
    /// ```
    ///
    /// The key is written to the front of `room`, if it fits there; else what `room` has then is
    /// unspecified. Behind the key, and where there is none, `room` is as before.
    pub fn first_from(&self, low: Bound<&[u8]>, room: &mut [u8]) -> Option<(usize, &V)>
        ensures { Finds (within self.now.content (bound_map (λ low. low.now) low.entry)
            Unbounded) result room.old room.new }
    {
        self.first_from_counted(low, room, &mut Work::new())
    }
    /// The first of all pairs, otherwise as `first_from`: `BTreeMap::first_key_value`.
    ///
    /// ```
    /// let mut room = [0; 16];
    /// let found = list.first(&mut room);
    /// ```
    pub fn first(&self, room: &mut [u8]) -> Option<(usize, &V)>
        ensures { Finds (pairs self.now.content) result room.old room.new }
    {
        self.first_counted(room, &mut Work::new())
    }
}
