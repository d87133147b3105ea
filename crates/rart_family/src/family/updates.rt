//! Commands that update the slot of a key by a callback.
ghost use Rattle.std.specs.Prelude.{◌≡◌, IfOk, IsSome, OnErr, Some};
ghost use Rattle.rart_versioned.specs.Clones.{ClonesEqual};
ghost use Rattle.rart_maps.specs.Versions.{HasRoom, value_at};
ghost use Rattle.rart_maps.specs.Changes.{Changes, slot_of, slot_update, slot_attempt};
ghost use Rattle.rart_maps.specs.Bounds.{enter_bound};
ghost use Rattle.rart_family.specs.Attempts.{Tries, replied};
ghost use Rattle.rart_family.specs.Costs.{CountsChanges};
ghost use Rattle.rart_family.specs.Families.{value_after_write, callback_answer};
ghost use Rattle.rart_family.specs.Updates.{Inserts, IsThereOrSet};
ghost use Rattle.rart_family.specs.declared.family.command.Command.TheVariants.{Update, TryUpdate};
ghost use Rattle.rart_versioned.specs.ChangeCounts.{CountsChange};

use super::refused::Refused;
use super::{Failure, Family, Reply};
use rart_versioned::{KeyTrait, Refusal, Slot, SlotUpdate, VersionedAdaptiveRadixTree, Work};
use std::alloc::AllocError;

impl<K: KeyTrait, V: Clone + Drop> Family<K, V> {
    pub(super) fn update(
        &mut self,
        place: usize,
        key: &K,
        write: &Option<V>,
        answer: &SlotUpdate<V>,
        changes: &mut Work,
    ) -> Result<Reply<K, V>, Refused>
        requires clones { ClonesEqual V.is_clone }
        ensures tries { Tries K.bytes self.old
            (Update place key.now write.now answer.now) result self.new }
        ensures changes { CountsChanges K.bytes self.old (Update place key.now write.now answer.now)
            (replied K.bytes result) changes.old changes.new }
    {
        let version = self.version_to_change(place, 1)?;
        let write = write_copy(write)?;
        let answer = answer_copy(answer)?;
        let is_there = update_in(version, key, write, answer, changes)?;
        Ok(Reply::Flag(is_there))
    }

    pub(super) fn try_update(
        &mut self,
        place: usize,
        key: &K,
        write: &Option<V>,
        answer: &Option<SlotUpdate<V>>,
        changes: &mut Work,
    ) -> Result<Reply<K, V>, Refused>
        requires clones { ClonesEqual V.is_clone }
        ensures tries { Tries K.bytes self.old
            (TryUpdate place key.now write.now answer.now) result self.new }
        ensures changes { CountsChanges K.bytes self.old
            (TryUpdate place key.now write.now answer.now)
            (replied K.bytes result) changes.old changes.new }
    {
        let version = self.version_to_change(place, 2)?;
        let write = write_copy(write)?;
        let answer = match answer {
            Some(answer) => Some(answer_copy(answer)?),
            None => None,
        };
        match try_update_in(version, key, write, answer, changes)? {
            Ok(is_there) => Ok(Reply::Flag(is_there)),
            Err(Failure) => Ok(Reply::Failed),
        }
    }
}

fn write_copy<V: Clone + Drop>(write: &Option<V>) -> Result<Option<V>, AllocError>
    requires clones { ClonesEqual V.is_clone }
    ensures copy { IfOk result (λ copy. copy ≡ write.now) }
    ensures refused { OnErr result (IsSome write.now) }
{
    match write {
        Some(value) => Ok(Some(value.clone()?)),
        None => Ok(None),
    }
}

fn answer_copy<V: Clone + Drop>(answer: &SlotUpdate<V>) -> Result<SlotUpdate<V>, AllocError>
    requires clones { ClonesEqual V.is_clone }
    ensures copy { IfOk result (λ copy. copy ≡ answer.now) }
    ensures refused { OnErr result (Inserts answer.now) }
{
    match answer {
        SlotUpdate::Keep => Ok(SlotUpdate::Keep),
        SlotUpdate::Insert(value) => Ok(SlotUpdate::Insert(value.clone()?)),
        SlotUpdate::Remove => Ok(SlotUpdate::Remove),
    }
}

/// What a command's callback does to its slot: it writes where there is something to write, and a
/// value to write over.
fn write_slot<V: Drop>(slot: &mut Slot<V>, write: Option<V>)
    ensures { (found : _) → slot.old ≡ slot_of found
        → slot.new ≡ slot_of (value_after_write found write) }
{
    if let (Slot::Occupied(old), Some(value)) = (slot, write) {
        *old = value;
    }
}

/// Updates a key of this version by a callback that writes and answers so.
fn update_in<K: KeyTrait, V: Clone + Drop>(
    version: &mut VersionedAdaptiveRadixTree<K, V>,
    key: &K,
    write: Option<V>,
    answer: SlotUpdate<V>,
    changes: &mut Work,
) -> Result<bool, AllocError>
    requires clones { ClonesEqual V.is_clone }
    requires room { HasRoom version.old 1 }
    ensures changes { Changes result version.old version.new
        (slot_update version.old (K.bytes key.now)
        (slot_of (value_after_write (value_at version.old (K.bytes key.now)) write)) answer) }
    ensures refused { OnErr result (IsThereOrSet version.old (K.bytes key.now) (Some answer)) }
    ensures counted { CountsChange (enter_bound (K.bytes key.now)) version.old (K.bytes key.now)
        changes.old changes.new }
{
    version.update_k_counted(
        key,
        move |slot: &mut Slot<V>| -> SlotUpdate<V> {
            write_slot(slot, write);
            answer
        },
        changes,
    )
}

/// The same by a callback that fails where there is no answer.
fn try_update_in<K: KeyTrait, V: Clone + Drop>(
    version: &mut VersionedAdaptiveRadixTree<K, V>,
    key: &K,
    write: Option<V>,
    answer: Option<SlotUpdate<V>>,
    changes: &mut Work,
) -> Result<Result<bool, Failure>, AllocError>
    requires clones { ClonesEqual V.is_clone }
    requires room { HasRoom version.old 2 }
    ensures changes { Changes result version.old version.new
        (slot_attempt version.old (K.bytes key.now)
        (slot_of (value_after_write (value_at version.old (K.bytes key.now)) write))
        (callback_answer answer)) }
    ensures refused { OnErr result (IsThereOrSet version.old (K.bytes key.now) answer) }
    ensures counted { CountsChange (enter_bound (K.bytes key.now)) version.old (K.bytes key.now)
        changes.old changes.new }
{
    let tried = version.try_update_k_counted(
        key,
        move |slot: &mut Slot<V>| -> Result<SlotUpdate<V>, Failure> {
            write_slot(slot, write);
            answer.ok_or(Failure)
        },
        changes,
    );
    match tried {
        Ok(is_there) => Ok(Ok(is_there)),
        Err(Refusal::Callback(failure)) => Ok(Err(failure)),
        Err(Refusal::Memory(refused)) => Err(refused),
    }
}
