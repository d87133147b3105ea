// Ported from rart 0.11.0 (Apache-2.0), and rewritten.
//! What becomes of a key that is there, once a callback has answered.
ghost use Rattle.std.specs.Prelude.{◌≡◌, ◌≤◌, ◌*◌, IsTrue, OnErr, OnOk};
ghost use Rattle.rart_below.specs.Clones.{ClonesEqual};
ghost use Rattle.rart_maps.specs.Bounds.{change_bound, lookup_bound};
ghost use Rattle.rart_maps.specs.Versions.{HasRoom, has_key, with_rise};
ghost use Rattle.rart_node.specs.Counts.{CountsUpTo};
ghost use Rattle.rart_versioned.specs.SlotChanges.{change_enters, change_makes, change_of, version_after};

use crate::counted::tree::VersionedAdaptiveRadixTree;
use rart_below::{KeyTrait, Slot, SlotUpdate};
use rart_node::Work;
use std::alloc::AllocError;

/// What is to be done at a key that is there.
#[derive(Drop)]
pub(crate) enum Change<V> {
    /// The value stays.
    Stay,
    /// This value takes its place.
    Put(V),
    /// The key is taken out.
    Take,
}

impl<V: Drop> Change<V> {
    /// What a callback asks for by what it left in an occupied slot and by its answer.
    pub(crate) fn of(left: Slot<V>, told: SlotUpdate<V>) -> Change<V>
        ensures { result ≡ change_of left told }
    {
        match told {
            SlotUpdate::Insert(value) => Change::Put(value),
            SlotUpdate::Remove => Change::Take,
            SlotUpdate::Keep => match left {
                Slot::Vacant => Change::Stay,
                Slot::Occupied(value) => Change::Put(value),
            },
        }
    }
}

impl<K: KeyTrait, V: Clone + Drop> VersionedAdaptiveRadixTree<K, V> {
    /// Does so at a key that is there, and raises the number by so much. Refused for memory, map
    /// and number are as before.
    pub(crate) fn settle(
        &mut self,
        key: &K,
        change: Change<V>,
        more: u64,
        work: &mut Work,
    ) -> Result<(), AllocError>
        requires clones { ClonesEqual V.is_clone }
        requires room { HasRoom self.old more }
        requires raised { 1 ≤ more }
        requires present { IsTrue (has_key self.old (K.bytes key.now)) }
        ensures done { OnOk result
            (self.new ≡ version_after self.old (K.bytes key.now) change more) }
        ensures refused { OnErr result (self.new ≡ self.old) }
        ensures counted { CountsUpTo (2 * lookup_bound (K.bytes key.now))
            (change_bound (K.bytes key.now)) work.old work.new }
        ensures counted_by_change { CountsUpTo (change_enters (K.bytes key.now) change)
            (change_makes (K.bytes key.now) change) work.old work.new }
    {
        match change {
            Change::Stay => {
                self.raise(more);
                Ok(())
            }
            Change::Put(value) => {
                self.put_in(key.as_ref(), value, more, work)?;
                Ok(())
            }
            Change::Take => {
                self.take_in(key.as_ref(), more, work)?;
                Ok(())
            }
        }
    }

    /// Raises the number by so much.
    pub(crate) fn raise(&mut self, more: u64)
        requires { HasRoom self.old more }
        ensures { self.new ≡ with_rise self.old more }
    {
        self.version += more;
    }
}
