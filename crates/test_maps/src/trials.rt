//! Diffs, patches and merges of trees, beside those of their maps.
ghost use Rattle.std.specs.Prelude.{IfOk, IsTrue, length};
ghost use Rattle.rart_maps.specs.ChangeLists.{changes};
ghost use Rattle.rart_maps.specs.Versions.{HasRoom};

use crate::draw::Key;
use crate::version::{Map, Version};
use rart_changes::Merging;
use rart_versioned::{KeyTrait, VersionedAdaptiveRadixTree};
use std::alloc::AllocError;

/// Whether the trees tell the changes between their maps: each is one, they ascend, and they are as
/// many.
pub fn diff_agrees(before: &Version, after: &Version) -> Result<bool, AllocError> {
    let mut last: Option<Key> = None;
    let mut told = 0_u64;
    let mut is_met = true;
    before.tree.diff_with(
        &after.tree,
        &mut |key: Key, old: Option<&u64>, new: Option<&u64>| {
            is_met = is_met
                && old != new
                && old == before.map.get(key.as_ref())
                && new == after.map.get(key.as_ref());
            if let Some(last) = &last {
                is_met = is_met && last.as_ref() < key.as_ref();
            }
            told = told.saturating_add(1);
            last = Some(key);
        },
    )?;
    let count = take_over(&mut before.copy()?, &before.map, &after.map, false)?;
    Ok(
        is_met
            && told == count
            && before.tree.diff_count(&after.tree)? == u128::from(count)
            && before.tree.equals(&after.tree)? == (count == 0),
    )
}

/// Whether what a patch makes of ours, or a merge, is what the maps make of each key.
pub fn take_over_agrees(
    base: &Version,
    ours: &Version,
    theirs: &Version,
    merges: bool,
) -> Result<bool, AllocError> {
    let mut copy = ours.copy()?;
    if !has_room(&copy.tree, &base.tree, &theirs.tree)? {
        return Ok(false);
    }
    if merges {
        copy.tree.merge_with(
            &base.tree,
            &theirs.tree,
            &mut |key: &Key, was: Option<&u64>, our: Option<&u64>, their: Option<&u64>| {
                answer(key.as_ref(), was.copied(), our.copied(), their.copied())
            },
        )?;
    } else {
        copy.tree.patch(&base.tree, &theirs.tree)?;
    }
    take_over(&mut copy, &base.map, &theirs.map, merges)?;
    Ok(copy.agrees())
}

// Makes the changes of theirs on the map of ours, and in a merge the answers at conflicts. Says how
// many keys theirs changed.
fn take_over(
    ours: &mut Version,
    base: &Map,
    theirs: &Map,
    merges: bool,
) -> Result<u64, AllocError> {
    let mut count = 0_u64;
    for (key, was) in base {
        if !theirs.contains_key(key) {
            settle(ours, key, Some(*was), None, merges)?;
            count = count.saturating_add(1);
        }
    }
    for (key, their) in theirs {
        let was = base.get(key).copied();
        if was != Some(*their) {
            settle(ours, key, was, Some(*their), merges)?;
            count = count.saturating_add(1);
        }
    }
    Ok(count)
}

fn settle(
    ours: &mut Version,
    key: &[u8],
    was: Option<u64>,
    their: Option<u64>,
    merges: bool,
) -> Result<(), AllocError> {
    let our = ours.map.get(key).copied();
    if merges && our != was && our != their {
        ours.put(key, answer(key, was, our, their))
    } else {
        ours.put(key, their)
    }
}

// What a conflict is answered by, by the length of its key: one side, none, or what neither has.
fn answer(key: &[u8], was: Option<u64>, our: Option<u64>, their: Option<u64>) -> Option<u64> {
    match key.len() % 4 {
        0 => our,
        1 => their,
        2 => None,
        _ => Some(was.unwrap_or(5).saturating_add(7)),
    }
}

// Whether the number has room for as many changes as there are from one version to another.
fn has_room<K: KeyTrait, V: Clone + Drop + Eq>(
    tree: &VersionedAdaptiveRadixTree<K, V>,
    old: &VersionedAdaptiveRadixTree<K, V>,
    new: &VersionedAdaptiveRadixTree<K, V>,
) -> Result<bool, AllocError>
    ensures { IfOk result (λ has. IsTrue has
        → HasRoom tree.now (length (changes V.eq old.now.content new.now.content))) }
{
    let left = u64::MAX - tree.version();
    Ok(old.diff_count(new)? <= u128::from(left))
}
