//! Updates of a key's slot by a callback that may fail: as the others, and for its error no key is
//! touched.
ghost use Rattle.std.specs.Prelude.{◌≡◌, ◌<◌, ◌+◌, ◌*◌, false, OnErr, OnOk};
ghost use Rattle.std.specs.Fn.{FnOnceTakesAtMut};
ghost use Rattle.std.specs.Result.{result_unwrap_or};
ghost use Rattle.rart_below.specs.Clones.{ClonesEqual};
ghost use Rattle.rart_changes.specs.Tracking.{updated};
ghost use Rattle.rart_maps.specs.Bounds.{change_bound, enter_bound, lookup_bound};
ghost use Rattle.rart_maps.specs.Changes.{slot_of};
ghost use Rattle.rart_maps.specs.Versions.{HasRoom, has_key, has_no_key, value_at};
ghost use Rattle.rart_versioned.specs.ChangeCounts.{MakesToTryInsert};
ghost use Rattle.rart_versioned.specs.Counts.{CountsUpTo};
ghost use Rattle.rart_versioned.specs.SlotChanges.{TriesAbsent};
ghost use Rattle.rart_versioned.specs.UpdateLookups.{TriedUpdateSets};
ghost use Rattle.rart_versioned.specs.Updates.{TriesUpdate};

use crate::tracked::{TrackedTree, marked_key};
use rart_below::{KeyTrait, Refusal, Slot, SlotUpdate};
use rart_versioned::Work;

impl<K: KeyTrait, V: Clone + Drop> TrackedTree<K, V> {
    /// As `try_update`, counted as by `update_counted`. None is made where the key is absent
    /// and the callback fails.
    pub fn try_update_counted<E: Drop, F: FnOnce(&mut Slot<V>) -> Result<SlotUpdate<V>, E>>(
        &mut self,
        key: &K,
        f: F,
        work: &mut Work,
    ) -> Result<bool, Refusal<E>>
        requires clones { ClonesEqual V.is_clone }
        requires room { HasRoom self.old.current 2 }
        requires callable { FnOnceTakesAtMut F.FnOnce f
            (slot_of (value_at self.old.current (K.bytes key.now))) }
        ensures updates { TriesUpdate F.FnOnce f self.old.current (K.bytes key.now) result
            self.new.current }
        ensures touched { self.new ≡ updated self.old (K.bytes key.now)
            (result_unwrap_or result false) self.new.current }
        ensures lookups { OnOk result
            (TriedUpdateSets F.FnOnce f self.old.current (K.bytes key.now) self.new.current) }
        ensures refused { OnErr result (self.new.current.content ≡ self.old.current.content) }
        ensures counted { CountsUpTo
            (3 * lookup_bound (K.bytes key.now) + enter_bound (K.bytes key.now))
            (2 * change_bound (K.bytes key.now)) work.old work.new }
        ensures entered { has_no_key self.old.current ≡ false
            → work.old.entered < work.new.entered }
        ensures absent { has_key self.old.current (K.bytes key.now) ≡ false
            → CountsUpTo (4 * lookup_bound (K.bytes key.now)) (2 * change_bound (K.bytes key.now))
            work.old work.new }
        ensures absent_makes_none { has_key self.old.current (K.bytes key.now) ≡ false
            → MakesToTryInsert result work.old work.new }
    {
        if self.current.get_k_counted(key, work).is_none() {
            let told = f(&mut Slot::Vacant);
            return self.settle_tried_absent(key, told, work);
        }
        let touched = match marked_key(&self.touched, key, work) {
            Ok(touched) => touched,
            Err(refused) => return Err(Refusal::Memory(refused)),
        };
        let is_there = self.current.try_update_k_counted(key, f, work)?;
        self.touched = touched;
        Ok(is_there)
    }

    /// As `settle_absent`, of a callback that may fail.
    fn settle_tried_absent<E: Drop>(
        &mut self,
        key: &K,
        told: Result<SlotUpdate<V>, E>,
        work: &mut Work,
    ) -> Result<bool, Refusal<E>>
        requires clones { ClonesEqual V.is_clone }
        requires room { HasRoom self.old.current 1 }
        requires absent { has_key self.old.current (K.bytes key.now) ≡ false }
        ensures tries { TriesAbsent self.old.current (K.bytes key.now) told result
            self.new.current }
        ensures touched { self.new ≡ updated self.old (K.bytes key.now)
            (result_unwrap_or result false) self.new.current }
        ensures counted { CountsUpTo (3 * lookup_bound (K.bytes key.now))
            (2 * change_bound (K.bytes key.now)) work.old work.new }
        ensures absent_makes_none { MakesToTryInsert result work.old work.new }
    {
        match told {
            Err(error) => Err(Refusal::Callback(error)),
            Ok(told) => match self.settle_absent(key, told, work) {
                Ok(is_there) => Ok(is_there),
                Err(refused) => Err(Refusal::Memory(refused)),
            },
        }
    }
}
