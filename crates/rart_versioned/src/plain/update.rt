// Ported from rart 0.11.0 (Apache-2.0), and rewritten.
//! Updates by a callback, with no count.
ghost use Rattle.std.specs.Prelude.{◌≡◌, IfOk, OnErr, OnOk};
ghost use Rattle.std.specs.Fn.{FnOnceTakesAtMut};
ghost use Rattle.rart_below.specs.Clones.{ClonesEqual};
ghost use Rattle.rart_maps.specs.Changes.{slot_of};
ghost use Rattle.rart_maps.specs.Versions.{HasRoom, value_at};
ghost use Rattle.rart_versioned.specs.UpdateLookups.{TriedUpdateSets, UpdateSets};
ghost use Rattle.rart_versioned.specs.Updates.{TriesUpdate, Updates, UpdateTakesMemory};

use crate::counted::VersionedAdaptiveRadixTree;
use rart_below::{KeyTrait, Refusal, Slot, SlotUpdate};
use rart_node::Work;
use std::alloc::AllocError;

impl<K: KeyTrait, V: Clone + Drop> VersionedAdaptiveRadixTree<K, V> {
    /// As `update_k`, with the key by value.
    pub fn update<F: FnOnce(&mut Slot<V>) -> SlotUpdate<V>>(
        &mut self,
        key: K,
        f: F,
    ) -> Result<bool, AllocError>
        requires clones { ClonesEqual V.is_clone }
        requires room { HasRoom self.old 1 }
        requires callable { FnOnceTakesAtMut F.FnOnce f
            (slot_of (value_at self.old (K.bytes key))) }
        ensures updates { IfOk result
            (λ answer. Updates F.FnOnce f self.old (K.bytes key) answer self.new) }
        ensures lookups { OnOk result (UpdateSets F.FnOnce f self.old (K.bytes key) self.new) }
        ensures refused { OnErr result (self.new ≡ self.old) }
        ensures memory { OnErr result (UpdateTakesMemory F.FnOnce f self.old (K.bytes key)) }
    {
        self.update_k(&key, f)
    }

    /// Lends the callback the slot of the key, and does what it answers. `Keep` stores what it left
    /// in an occupied slot, `Insert` stores its value, `Remove` takes the key out. Each of them
    /// makes the number one greater and answers whether the key was there or is now.
    ///
    /// ```
    /// list.update_k(&tea, |slot: &mut Slot<u64>| match slot {
    ///     Slot::Vacant => SlotUpdate::Insert(1),
    ///     Slot::Occupied(count) => {
    ///         *count = count.saturating_add(1);
    ///         SlotUpdate::Keep
    ///     }
    /// })?;
    /// ```
    ///
    /// Of an absent key `Keep` and `Remove` leave map and number and aren't refused. Where the
    /// callback leaves an occupied slot vacant and answers `Keep`, the value stays. Refused for
    /// memory, map and number are as before, and the callback may have run.
    pub fn update_k<F: FnOnce(&mut Slot<V>) -> SlotUpdate<V>>(
        &mut self,
        key: &K,
        f: F,
    ) -> Result<bool, AllocError>
        requires clones { ClonesEqual V.is_clone }
        requires room { HasRoom self.old 1 }
        requires callable { FnOnceTakesAtMut F.FnOnce f
            (slot_of (value_at self.old (K.bytes key.now))) }
        ensures updates { IfOk result
            (λ answer. Updates F.FnOnce f self.old (K.bytes key.now) answer self.new) }
        ensures lookups { OnOk result (UpdateSets F.FnOnce f self.old (K.bytes key.now) self.new) }
        ensures refused { OnErr result (self.new ≡ self.old) }
        ensures memory { OnErr result (UpdateTakesMemory F.FnOnce f self.old (K.bytes key.now)) }
    {
        self.update_k_counted(key, f, &mut Work::new())
    }

    /// As `try_update_k`, with the key by value.
    pub fn try_update<E: Drop, F: FnOnce(&mut Slot<V>) -> Result<SlotUpdate<V>, E>>(
        &mut self,
        key: K,
        f: F,
    ) -> Result<bool, Refusal<E>>
        requires clones { ClonesEqual V.is_clone }
        requires room { HasRoom self.old 2 }
        requires callable { FnOnceTakesAtMut F.FnOnce f
            (slot_of (value_at self.old (K.bytes key))) }
        ensures updates { TriesUpdate F.FnOnce f self.old (K.bytes key) result self.new }
        ensures lookups { OnOk result
            (TriedUpdateSets F.FnOnce f self.old (K.bytes key) self.new) }
        ensures refused { OnErr result (self.new.content ≡ self.old.content) }
    {
        self.try_update_k(&key, f)
    }

    /// As `update_k` for a callback that may fail.
    ///
    /// Its error is answered as `Refusal::Callback`: nothing that it wrote is stored, and no
    /// further memory is taken. Where the key is there the number is two greater for an error and
    /// for each answer but `Keep`. Refused for memory the answer is `Refusal::Memory`, map and
    /// number are as before, and the callback may have run.
    pub fn try_update_k<E: Drop, F: FnOnce(&mut Slot<V>) -> Result<SlotUpdate<V>, E>>(
        &mut self,
        key: &K,
        f: F,
    ) -> Result<bool, Refusal<E>>
        requires clones { ClonesEqual V.is_clone }
        requires room { HasRoom self.old 2 }
        requires callable { FnOnceTakesAtMut F.FnOnce f
            (slot_of (value_at self.old (K.bytes key.now))) }
        ensures updates { TriesUpdate F.FnOnce f self.old (K.bytes key.now) result self.new }
        ensures lookups { OnOk result
            (TriedUpdateSets F.FnOnce f self.old (K.bytes key.now) self.new) }
        ensures refused { OnErr result (self.new.content ≡ self.old.content) }
    {
        self.try_update_k_counted(key, f, &mut Work::new())
    }
}
