//! What changed from the base to the current version, as a list.
ghost use Rattle.std.specs.Prelude.{◌≡◌, [], ◌∷◌, ◌++◌, map, IfOk, OnOk};
ghost use Rattle.std.specs.List.{cons_option};
ghost use Rattle.std.specs.Option.{option_copied, option_map};
ghost use Rattle.rart_below.specs.Clones.{ClonesEqual};
ghost use Rattle.rart_changes.specs.ChangeVisits.{changes_at};
ghost use Rattle.rart_changes.specs.Shown.{shown_change};
ghost use Rattle.rart_maps.specs.ChangeLists.{changes};

use crate::tracked::TrackedTree;
use crate::tracked::keys::keys_of;
use rart_below::KeyTrait;
use rart_maps::do_differ;
use rart_versioned::{VersionedAdaptiveRadixTree, Work};
use std::alloc::{AllocError, Global};

/// A key at which two maps differ, with copies of the values that they have there.
#[derive(Drop)]
pub struct KeyChange<K, V> {
    pub key: K,
    pub before: Option<V>,
    pub after: Option<V>,
}

impl<K: KeyTrait, V: Clone + Drop + Eq> TrackedTree<K, V> {
    /// Each key at which the current version differs from the base, in order, with copies of the
    /// value before and after, where there are any. Refused for memory, there is no list.
    pub fn changes(&self) -> Result<Vec<KeyChange<K, V>>, AllocError>
        requires clones { ClonesEqual V.is_clone }
        ensures { IfOk result (λ list. map (shown_change K.bytes) list.items
            ≡ changes V.eq self.now.base.content self.now.current.content) }
    {
        let keys = keys_of(self.alloc, &self.touched, &mut Work::new())?;
        changes_of(self.alloc, &self.base, &self.current, keys)
    }
}

// The changes at these keys.
fn changes_of<K: KeyTrait, V: Clone + Drop + Eq>(
    alloc: Global,
    old: &VersionedAdaptiveRadixTree<K, V>,
    new: &VersionedAdaptiveRadixTree<K, V>,
    keys: Vec<K>,
) -> Result<Vec<KeyChange<K, V>>, AllocError>
    requires clones { ClonesEqual V.is_clone }
    ensures { IfOk result (λ list. map (shown_change K.bytes) list.items
        ≡ changes_at V.eq old.now.content new.now.content (map K.bytes keys.items)) }
{
    let mut list = Vec::new(alloc);
    for key in keys {
        let change = change_of(old, new, key)?;
        push_change(&mut list, change)?;
    }
    Ok(list)
}

// Puts the change behind the others, if there is one.
fn push_change<K: KeyTrait, V: Drop>(
    list: &mut Vec<KeyChange<K, V>>,
    change: Option<KeyChange<K, V>>,
) -> Result<(), AllocError>
    ensures { OnOk result (map (shown_change K.bytes) list.new.items
        ≡ map (shown_change K.bytes) list.old.items
        ++ cons_option (option_map (shown_change K.bytes) change) []) }
{
    if let Some(change) = change {
        list.push(change)?;
    }
    Ok(())
}

// The change at a key, if there is one.
fn change_of<K: KeyTrait, V: Clone + Drop + Eq>(
    old: &VersionedAdaptiveRadixTree<K, V>,
    new: &VersionedAdaptiveRadixTree<K, V>,
    key: K,
) -> Result<Option<KeyChange<K, V>>, AllocError>
    requires clones { ClonesEqual V.is_clone }
    ensures { IfOk result (λ found. cons_option (option_map (shown_change K.bytes) found) []
        ≡ changes_at V.eq old.now.content new.now.content (K.bytes key ∷ [])) }
{
    let before = old.get_k(&key);
    let after = new.get_k(&key);
    if !do_differ(before, after) {
        return Ok(None);
    }
    let before = copy_of(before)?;
    let after = copy_of(after)?;
    Ok(Some(KeyChange { key, before, after }))
}

fn copy_of<V: Clone + Drop>(value: Option<&V>) -> Result<Option<V>, AllocError>
    requires clones { ClonesEqual V.is_clone }
    ensures { IfOk result (λ copy. copy ≡ option_copied value.entry) }
{
    match value {
        None => Ok(None),
        Some(value) => Ok(Some(value.clone()?)),
    }
}
