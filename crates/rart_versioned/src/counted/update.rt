// Ported from rart 0.11.0 (Apache-2.0), and rewritten.
//! Updates of a key's slot by a callback.
ghost use Rattle.std.specs.Prelude.{◌≡◌, ◌<◌, false, IfOk, IsTrue, OnErr, OnOk};
ghost use Rattle.std.specs.Fn.{FnOnceTakesAtMut};
ghost use Rattle.rart_below.specs.Clones.{ClonesEqual};
ghost use Rattle.rart_maps.specs.Bounds.{change_bound, enter_bound, lookup_bound};
ghost use Rattle.rart_maps.specs.Changes.{slot_of};
ghost use Rattle.rart_maps.specs.Versions.{HasRoom, has_key, has_no_key, value_at};
ghost use Rattle.rart_node.specs.Counts.{CountsUpTo};
ghost use Rattle.rart_versioned.specs.SlotChanges.{change_enters, change_makes, change_of_absent, is_occupied, outcome_of_absent, AsksMemory};
ghost use Rattle.rart_versioned.specs.UpdateCounts.{CountsUpdate};
ghost use Rattle.rart_versioned.specs.Updates.{Updates, UpdateTakesMemory};

use crate::counted::change::Change;
use crate::counted::tree::VersionedAdaptiveRadixTree;
use rart_below::{KeyTrait, Slot, SlotUpdate};
use rart_node::Work;
use std::alloc::AllocError;

impl<K: KeyTrait, V: Clone + Drop> VersionedAdaptiveRadixTree<K, V> {
    /// As `update_k`, with the nodes entered and made counted into `work`: at most three more
    /// entered than three times the bytes of the key, and at most two more made than it has.
    ///
    /// At most two more are entered than twice its bytes, unless the answer takes out a key that is
    /// there. None is made where nothing is stored or taken out: where the key is absent and stays
    /// so, and where an occupied slot was left vacant and the answer is `Keep`.
    pub fn update_k_counted<F: FnOnce(&mut Slot<V>) -> SlotUpdate<V>>(
        &mut self,
        key: &K,
        f: F,
        work: &mut Work,
    ) -> Result<bool, AllocError>
        requires clones { ClonesEqual V.is_clone }
        requires room { HasRoom self.old 1 }
        requires callable { FnOnceTakesAtMut F.FnOnce f
            (slot_of (value_at self.old (K.bytes key.now))) }
        ensures updates { IfOk result
            (λ answer. Updates F.FnOnce f self.old (K.bytes key.now) answer self.new) }
        ensures refused { OnErr result (self.new ≡ self.old) }
        ensures memory { OnErr result (UpdateTakesMemory F.FnOnce f self.old (K.bytes key.now)) }
        ensures counted { CountsUpTo (enter_bound (K.bytes key.now))
            (change_bound (K.bytes key.now)) work.old work.new }
        ensures entered { has_no_key self.old ≡ false → work.old.entered < work.new.entered }
        ensures absent_makes_none { has_key self.old (K.bytes key.now) ≡ false → IfOk result
            (λ is_there. is_there ≡ false → work.new.made ≡ work.old.made) }
        ensures counted_by_answer { CountsUpdate F.FnOnce f self.old (K.bytes key.now) result
            self.new work.old work.new }
    {
        let mut slot = self.slot_at(key, work)?;
        let was_there = is_occupied(&slot);
        let told = f(&mut slot);
        if was_there {
            self.settle(key, Change::of(slot, told), 1, work)?;
            return Ok(true);
        }
        self.settle_absent(key, told, work)
    }

    /// The slot that a callback is lent, with a copy of the value.
    pub(crate) fn slot_at(&self, key: &K, work: &mut Work) -> Result<Slot<V>, AllocError>
        requires clones { ClonesEqual V.is_clone }
        ensures slot { IfOk result
            (λ slot. slot ≡ slot_of (value_at self.now (K.bytes key.now))) }
        ensures present { OnErr result (IsTrue (has_key self.now (K.bytes key.now))) }
        ensures counted { CountsUpTo (lookup_bound (K.bytes key.now)) 0 work.old work.new }
        ensures entered { has_no_key self.now ≡ false → work.old.entered < work.new.entered }
    {
        match self.get_k_counted(key, work) {
            None => Ok(Slot::Vacant),
            Some(value) => Ok(Slot::Occupied(value.clone()?)),
        }
    }

    /// Does what a callback answered where the key is absent, and says whether it is there now.
    pub(crate) fn settle_absent(
        &mut self,
        key: &K,
        told: SlotUpdate<V>,
        work: &mut Work,
    ) -> Result<bool, AllocError>
        requires clones { ClonesEqual V.is_clone }
        requires room { HasRoom self.old 1 }
        requires absent { has_key self.old (K.bytes key.now) ≡ false }
        ensures done { IfOk result (λ answer. (answer, self.new)
            ≡ outcome_of_absent self.old (K.bytes key.now) told) }
        ensures refused { OnErr result (self.new ≡ self.old) }
        ensures memory { OnErr result (AsksMemory told) }
        ensures counted { CountsUpTo (lookup_bound (K.bytes key.now))
            (change_bound (K.bytes key.now)) work.old work.new }
        ensures absent_makes_none { IfOk result
            (λ is_there. is_there ≡ false → work.new.made ≡ work.old.made) }
        ensures counted_by_answer { CountsUpTo
            (change_enters (K.bytes key.now) (change_of_absent told))
            (change_makes (K.bytes key.now) (change_of_absent told)) work.old work.new }
    {
        match told {
            SlotUpdate::Insert(value) => {
                self.put_in(key.as_ref(), value, 1, work)?;
                Ok(true)
            }
            SlotUpdate::Keep => Ok(false),
            SlotUpdate::Remove => Ok(false),
        }
    }
}

/// Whether the slot is one of a key that is there.
pub(crate) fn is_occupied<V: Drop>(slot: &Slot<V>) -> bool
    ensures { result ≡ is_occupied slot.now }
{
    match slot {
        Slot::Vacant => false,
        Slot::Occupied(_) => true,
    }
}
