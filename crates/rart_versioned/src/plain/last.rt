// Ported from rart 0.11.0 (Apache-2.0), and rewritten.
//! The last of the pairs, of all or up to an upper bound, with no count.
ghost use Rattle.std.specs.Prelude.{reverse};
ghost use Rattle.std.specs.Range.Bound.{bound_map};
ghost use Rattle.std.specs.declared.ops.Bound.TheVariants.{Unbounded};
ghost use Rattle.rart_maps.specs.Pairs.{pairs, within};
ghost use Rattle.rart_ways.specs.Firsts.{Finds};

use crate::counted::VersionedAdaptiveRadixTree;
use rart_below::KeyTrait;
use rart_node::Work;
use std::ops::Bound;

impl<K: KeyTrait, V: Clone + Drop> VersionedAdaptiveRadixTree<K, V> {
    /// The last of the pairs whose keys meet an upper bound, as `first_from` tells the first from
    /// a lower one: how many bytes its key has, and a reference to its value. `None` where there is
    /// none. It can't be refused. rart has no such call.
    ///
    /// ```
    /// let mut room = [0; 16];
    /// let newest = log.last_to(Bound::Included(monday.as_ref()), &mut room);
    /// ```
    ///
    /// The key is written to the front of `room`, if it fits there; else what `room` has then is
    /// unspecified. Behind the key, and where there is none, `room` is as before.
    pub fn last_to(&self, high: Bound<&[u8]>, room: &mut [u8]) -> Option<(usize, &V)>
        ensures { Finds (reverse (within self.now.content Unbounded
            (bound_map (λ high. high.now) high.entry))) result room.old room.new }
    {
        self.last_to_counted(high, room, &mut Work::new())
    }
    /// The last of all pairs, otherwise as `last_to`: `BTreeMap::last_key_value`.
    ///
    /// ```
    /// let mut room = [0; 16];
    /// let found = list.last(&mut room);
    /// ```
    pub fn last(&self, room: &mut [u8]) -> Option<(usize, &V)>
        ensures { Finds (reverse (pairs self.now.content)) result room.old room.new }
    {
        self.last_counted(room, &mut Work::new())
    }
}
