//! Updates by a callback, with no count.
ghost use Rattle.std.specs.Prelude.{◌≡◌, false, IfOk, OnErr, OnOk};
ghost use Rattle.std.specs.Fn.{FnOnceTakesAtMut};
ghost use Rattle.std.specs.Result.{result_unwrap_or};
ghost use Rattle.rart_below.specs.Clones.{ClonesEqual};
ghost use Rattle.rart_changes.specs.Tracking.{updated};
ghost use Rattle.rart_maps.specs.Changes.{slot_of};
ghost use Rattle.rart_maps.specs.Versions.{HasRoom, value_at};
ghost use Rattle.rart_versioned.specs.UpdateLookups.{TriedUpdateSets, UpdateSets};
ghost use Rattle.rart_versioned.specs.Updates.{TriesUpdate, Updates, UpdateTakesMemory};

use crate::tracked::TrackedTree;
use rart_below::{KeyTrait, Refusal, Slot, SlotUpdate};
use rart_versioned::Work;
use std::alloc::AllocError;

impl<K: KeyTrait, V: Clone + Drop> TrackedTree<K, V> {
    /// Lends the callback the slot of the key, and does what it answers, as the tree's `update_k`.
    /// The answer is whether the key was there or is now: then it is touched, and the number is one
    /// greater. Else all is as before, and it isn't refused. Refused for memory, all is as
    /// before, and the callback may have run.
    pub fn update<F: FnOnce(&mut Slot<V>) -> SlotUpdate<V>>(
        &mut self,
        key: &K,
        f: F,
    ) -> Result<bool, AllocError>
        requires clones { ClonesEqual V.is_clone }
        requires room { HasRoom self.old.current 1 }
        requires callable { FnOnceTakesAtMut F.FnOnce f
            (slot_of (value_at self.old.current (K.bytes key.now))) }
        ensures updates { IfOk result (λ answer.
            Updates F.FnOnce f self.old.current (K.bytes key.now) answer self.new.current) }
        ensures touched { IfOk result (λ answer.
            self.new ≡ updated self.old (K.bytes key.now) answer self.new.current) }
        ensures lookups { OnOk result
            (UpdateSets F.FnOnce f self.old.current (K.bytes key.now) self.new.current) }
        ensures refused { OnErr result (self.new ≡ self.old) }
        ensures memory { OnErr result
            (UpdateTakesMemory F.FnOnce f self.old.current (K.bytes key.now)) }
    {
        self.update_counted(key, f, &mut Work::new())
    }

    /// As `update` for a callback that may fail, as the tree's `try_update_k`.
    ///
    /// Its error is answered as `Refusal::Callback`: both maps and the touched keys are as before,
    /// and the number of the current one is two greater where the key is there. Refused for memory
    /// the answer is `Refusal::Memory`, all is as before, and the callback may have run.
    pub fn try_update<E: Drop, F: FnOnce(&mut Slot<V>) -> Result<SlotUpdate<V>, E>>(
        &mut self,
        key: &K,
        f: F,
    ) -> Result<bool, Refusal<E>>
        requires clones { ClonesEqual V.is_clone }
        requires room { HasRoom self.old.current 2 }
        requires callable { FnOnceTakesAtMut F.FnOnce f
            (slot_of (value_at self.old.current (K.bytes key.now))) }
        ensures updates { TriesUpdate F.FnOnce f self.old.current (K.bytes key.now) result
            self.new.current }
        ensures touched { self.new ≡ updated self.old (K.bytes key.now)
            (result_unwrap_or result false) self.new.current }
        ensures lookups { OnOk result
            (TriedUpdateSets F.FnOnce f self.old.current (K.bytes key.now) self.new.current) }
        ensures refused { OnErr result (self.new.current.content ≡ self.old.current.content) }
    {
        self.try_update_counted(key, f, &mut Work::new())
    }
}
