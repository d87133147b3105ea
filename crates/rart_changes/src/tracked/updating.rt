//! Updates of a key's slot by a callback: the current version is updated as a tree is, and the key
//! is touched where it was there or is now.
ghost use Rattle.std.specs.Prelude.{◌≡◌, ◌<◌, ◌+◌, ◌*◌, false, IfOk, OnErr, OnOk};
ghost use Rattle.std.specs.Fn.{FnOnceTakesAtMut};
ghost use Rattle.rart_below.specs.Clones.{ClonesEqual};
ghost use Rattle.rart_changes.specs.Tracking.{updated};
ghost use Rattle.rart_maps.specs.Bounds.{change_bound, enter_bound, lookup_bound};
ghost use Rattle.rart_maps.specs.Changes.{slot_of};
ghost use Rattle.rart_maps.specs.Versions.{HasRoom, has_key, has_no_key, value_at};
ghost use Rattle.rart_versioned.specs.Counts.{CountsUpTo};
ghost use Rattle.rart_versioned.specs.SlotChanges.{AsksMemory, outcome_of_absent};
ghost use Rattle.rart_versioned.specs.UpdateLookups.{UpdateSets};
ghost use Rattle.rart_versioned.specs.Updates.{Updates, UpdateTakesMemory};

use crate::tracked::{TrackedTree, marked_key};
use rart_below::{KeyTrait, Slot, SlotUpdate};
use rart_versioned::Work;
use std::alloc::AllocError;

impl<K: KeyTrait, V: Clone + Drop> TrackedTree<K, V> {
    /// As `update`, with the nodes entered and made counted into `work`: at most six more entered
    /// than six times the bytes of the key, and at most four more made than twice these. One is
    /// entered at least where there is a key in the current version. Where this one is absent at
    /// most four more are entered than four times its bytes, and none is made where it stays so.
    pub fn update_counted<F: FnOnce(&mut Slot<V>) -> SlotUpdate<V>>(
        &mut self,
        key: &K,
        f: F,
        work: &mut Work,
    ) -> Result<bool, AllocError>
        requires clones { ClonesEqual V.is_clone }
        requires room { HasRoom self.old.current 1 }
        requires callable { FnOnceTakesAtMut F.FnOnce f
            (slot_of (value_at self.old.current (K.bytes key.now))) }
        ensures updates { IfOk result (λ answer.
            Updates F.FnOnce f self.old.current (K.bytes key.now) answer self.new.current) }
        ensures touched { IfOk result (λ answer.
            self.new ≡ updated self.old (K.bytes key.now) answer self.new.current) }
        ensures lookups { OnOk result
            (UpdateSets F.FnOnce f self.old.current (K.bytes key.now) self.new.current) }
        ensures refused { OnErr result (self.new ≡ self.old) }
        ensures memory { OnErr result
            (UpdateTakesMemory F.FnOnce f self.old.current (K.bytes key.now)) }
        ensures counted { CountsUpTo
            (3 * lookup_bound (K.bytes key.now) + enter_bound (K.bytes key.now))
            (2 * change_bound (K.bytes key.now)) work.old work.new }
        ensures entered { has_no_key self.old.current ≡ false
            → work.old.entered < work.new.entered }
        ensures absent { has_key self.old.current (K.bytes key.now) ≡ false
            → CountsUpTo (4 * lookup_bound (K.bytes key.now)) (2 * change_bound (K.bytes key.now))
            work.old work.new }
        ensures absent_makes_none { has_key self.old.current (K.bytes key.now) ≡ false
            → IfOk result (λ is_there. is_there ≡ false → work.new.made ≡ work.old.made) }
    {
        if self.current.get_k_counted(key, work).is_none() {
            let told = f(&mut Slot::Vacant);
            return self.settle_absent(key, told, work);
        }
        let touched = marked_key(&self.touched, key, work)?;
        let is_there = self.current.update_k_counted(key, f, work)?;
        self.touched = touched;
        Ok(is_there)
    }

    /// Does what a callback answered where the key is absent, and says whether it is there now.
    pub(crate) fn settle_absent(
        &mut self,
        key: &K,
        told: SlotUpdate<V>,
        work: &mut Work,
    ) -> Result<bool, AllocError>
        requires clones { ClonesEqual V.is_clone }
        requires room { HasRoom self.old.current 1 }
        requires absent { has_key self.old.current (K.bytes key.now) ≡ false }
        ensures done { IfOk result (λ answer. (answer, self.new.current)
            ≡ outcome_of_absent self.old.current (K.bytes key.now) told) }
        ensures touched { IfOk result (λ answer.
            self.new ≡ updated self.old (K.bytes key.now) answer self.new.current) }
        ensures refused { OnErr result (self.new ≡ self.old) }
        ensures memory { OnErr result (AsksMemory told) }
        ensures counted { CountsUpTo (3 * lookup_bound (K.bytes key.now))
            (2 * change_bound (K.bytes key.now)) work.old work.new }
        ensures absent_makes_none { IfOk result
            (λ is_there. is_there ≡ false → work.new.made ≡ work.old.made) }
    {
        match told {
            SlotUpdate::Insert(value) => {
                self.insert_counted(key.as_ref(), value, work)?;
                Ok(true)
            }
            SlotUpdate::Keep => Ok(false),
            SlotUpdate::Remove => Ok(false),
        }
    }
}
