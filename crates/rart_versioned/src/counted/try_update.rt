// Ported from rart 0.11.0 (Apache-2.0), and rewritten.
//! Updates of a key's slot by a callback that may fail.
ghost use Rattle.std.specs.Prelude.{◌≡◌, ◌<◌, ◌*◌, false, IsTrue};
ghost use Rattle.std.specs.Fn.{FnOnceTakesAtMut};
ghost use Rattle.rart_below.specs.Clones.{ClonesEqual};
ghost use Rattle.rart_maps.specs.Bounds.{change_bound, enter_bound, lookup_bound};
ghost use Rattle.rart_maps.specs.Changes.{slot_of};
ghost use Rattle.rart_maps.specs.Versions.{HasRoom, has_key, has_no_key, value_at};
ghost use Rattle.rart_node.specs.Counts.{CountsUpTo};
ghost use Rattle.rart_versioned.specs.ChangeCounts.{MakesToTryInsert};
ghost use Rattle.rart_versioned.specs.SlotChanges.{attempt_of, attempt_of_absent, change_enters, change_makes, rise_of, Tries, TriesAbsent};
ghost use Rattle.rart_versioned.specs.UpdateCounts.{CountsTry};
ghost use Rattle.rart_versioned.specs.Updates.{TriesUpdate};

use crate::counted::change::Change;
use crate::counted::tree::VersionedAdaptiveRadixTree;
use crate::counted::update::is_occupied;
use rart_below::{KeyTrait, Refusal, Slot, SlotUpdate};
use rart_node::Work;

impl<K: KeyTrait, V: Clone + Drop> VersionedAdaptiveRadixTree<K, V> {
    /// As `try_update_k`, counted as by `update_k_counted`. For an error none is made, and the key
    /// is looked up once, whether it is there or not.
    pub fn try_update_k_counted<E: Drop, F: FnOnce(&mut Slot<V>) -> Result<SlotUpdate<V>, E>>(
        &mut self,
        key: &K,
        f: F,
        work: &mut Work,
    ) -> Result<bool, Refusal<E>>
        requires clones { ClonesEqual V.is_clone }
        requires room { HasRoom self.old 2 }
        requires callable { FnOnceTakesAtMut F.FnOnce f
            (slot_of (value_at self.old (K.bytes key.now))) }
        ensures updates { TriesUpdate F.FnOnce f self.old (K.bytes key.now) result self.new }
        ensures counted { CountsUpTo (enter_bound (K.bytes key.now))
            (change_bound (K.bytes key.now)) work.old work.new }
        ensures entered { has_no_key self.old ≡ false → work.old.entered < work.new.entered }
        ensures absent_makes_none { has_key self.old (K.bytes key.now) ≡ false
            → MakesToTryInsert result work.old work.new }
        ensures counted_by_answer { CountsTry F.FnOnce f self.old (K.bytes key.now) result self.new
            work.old work.new }
    {
        let mut slot = match self.slot_at(key, work) {
            Ok(slot) => slot,
            Err(refused) => return Err(Refusal::Memory(refused)),
        };
        let was_there = is_occupied(&slot);
        let told = f(&mut slot);
        if was_there {
            return self.settle_tried(key, slot, told, work);
        }
        self.settle_tried_absent(key, told, work)
    }

    /// Does what a callback left and answered where the key is there.
    fn settle_tried<E: Drop>(
        &mut self,
        key: &K,
        left: Slot<V>,
        told: Result<SlotUpdate<V>, E>,
        work: &mut Work,
    ) -> Result<bool, Refusal<E>>
        requires clones { ClonesEqual V.is_clone }
        requires room { HasRoom self.old 2 }
        requires present { IsTrue (has_key self.old (K.bytes key.now)) }
        ensures tries { Tries self.old (K.bytes key.now) left told result self.new }
        ensures counted { CountsUpTo (2 * lookup_bound (K.bytes key.now))
            (change_bound (K.bytes key.now)) work.old work.new }
        ensures counted_by_answer { CountsUpTo
            (change_enters (K.bytes key.now) (attempt_of left told))
            (change_makes (K.bytes key.now) (attempt_of left told)) work.old work.new }
    {
        match told {
            Err(error) => {
                self.raise(2);
                Err(Refusal::Callback(error))
            }
            Ok(told) => {
                let more = rise_of(&told);
                match self.settle(key, Change::of(left, told), more, work) {
                    Ok(()) => Ok(true),
                    Err(refused) => Err(Refusal::Memory(refused)),
                }
            }
        }
    }

    /// Does what a callback answered where the key is absent.
    fn settle_tried_absent<E: Drop>(
        &mut self,
        key: &K,
        told: Result<SlotUpdate<V>, E>,
        work: &mut Work,
    ) -> Result<bool, Refusal<E>>
        requires clones { ClonesEqual V.is_clone }
        requires room { HasRoom self.old 1 }
        requires absent { has_key self.old (K.bytes key.now) ≡ false }
        ensures tries { TriesAbsent self.old (K.bytes key.now) told result self.new }
        ensures counted { CountsUpTo (lookup_bound (K.bytes key.now))
            (change_bound (K.bytes key.now)) work.old work.new }
        ensures absent_makes_none { MakesToTryInsert result work.old work.new }
        ensures counted_by_answer { CountsUpTo
            (change_enters (K.bytes key.now) (attempt_of_absent told))
            (change_makes (K.bytes key.now) (attempt_of_absent told)) work.old work.new }
    {
        match told {
            Err(error) => Err(Refusal::Callback(error)),
            Ok(told) => match self.settle_absent(key, told, work) {
                Ok(answer) => Ok(answer),
                Err(refused) => Err(Refusal::Memory(refused)),
            },
        }
    }
}

/// How much greater the number is for an answer where the key is there.
fn rise_of<V: Drop>(told: &SlotUpdate<V>) -> u64
    ensures { result ≡ rise_of told.now }
{
    match told {
        SlotUpdate::Keep => 1,
        SlotUpdate::Insert(_) => 2,
        SlotUpdate::Remove => 2,
    }
}
