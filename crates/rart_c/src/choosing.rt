//! What C calls to set a key by whether it is there.
ghost use Rattle.std.specs.Prelude.{◌≡◌, ◌<◌, ◌≤◌, ◌⊎◌, ◌↔◌, IsTrue, length};
ghost use Rattle.rart_c.specs.Answers.{IsRefused, IsRefusedKey, Tells};
ghost use Rattle.rart_c.specs.Choices.{after_addition};
ghost use Rattle.rart_c.specs.Trees.{of_version};
ghost use Rattle.rart_c.specs.declared.answer.TheConstants.{LAST_NUMBER, TOO_LONG};
ghost use Rattle.rart_maps.specs.Changes.{after_writing};
ghost use Rattle.rart_maps.specs.Versions.{HasRoom, has_key, value_at};

use crate::answer::{ABSENT, TOO_LONG, tell};
use crate::handle::RartTree;
use crate::{handling, lent};
use std::alloc::Global;

/// Sets a key to a value where it is not there, the number then one greater, and answers `ABSENT`.
/// Where it is there nothing changes, and it answers `DONE` and writes the value that is there.
/// `TOO_LONG` says that the key is longer than a key may be, `LAST_NUMBER` that it is not there and
/// the number can't be raised, `NO_MEMORY` that it is not there and memory was refused: nothing
/// changed then.
#[unsafe(no_mangle)]
pub extern "C" fn rart_add(
    alloc: Global,
    tree: &mut RartTree,
    key: &[u8],
    value: u64,
    found: &mut u64,
) -> u8
    ensures done { IsRefusedKey result ⊎ ((tree.new.shows
        ≡ of_version tree.old.shows (after_addition tree.old.shows.version key.now value))
        × Tells (value_at tree.old.shows.version key.now) result found.old found.new) }
    ensures refused { IsRefusedKey result
        → (tree.new.shows ≡ tree.old.shows) × (found.new ≡ found.old)
        × ¬ (IsTrue (has_key tree.old.shows.version key.now)) }
    ensures long { (result ≡ TOO_LONG) ↔ (tree.old.shows.longest < length key.now) }
    ensures room { (result ≡ LAST_NUMBER) ↔ ((length key.now ≤ tree.old.shows.longest)
        × ¬ (IsTrue (has_key tree.old.shows.version key.now))
        × ¬ (HasRoom tree.old.shows.version 1)) }
{
    if lent::has(tree.table(), key) {
        return tell(lent::get(tree.table(), key).copied(), found);
    }
    if key.len() > lent::longest_key(tree.table()) {
        return TOO_LONG;
    }
    match handling::insert(alloc, tree, key, value) {
        Ok(_) => ABSENT,
        Err(refusal) => refusal.number(),
    }
}

/// Sets a key to a value where it is there, the number then one greater, and answers `DONE` and
/// writes the value that was replaced. Where it is not there nothing changes, and it answers
/// `ABSENT`. `LAST_NUMBER` says that the key is there and the number can't be raised, `NO_MEMORY`
/// that it is there and memory was refused: nothing changed then.
#[unsafe(no_mangle)]
pub extern "C" fn rart_replace(
    alloc: Global,
    tree: &mut RartTree,
    key: &[u8],
    value: u64,
    replaced: &mut u64,
) -> u8
    ensures done { IsRefused result ⊎ ((tree.new.shows
        ≡ of_version tree.old.shows (after_writing tree.old.shows.version key.now value))
        × Tells (value_at tree.old.shows.version key.now) result replaced.old replaced.new) }
    ensures refused { IsRefused result
        → (tree.new.shows ≡ tree.old.shows) × (replaced.new ≡ replaced.old)
        × IsTrue (has_key tree.old.shows.version key.now) }
    ensures room { (result ≡ LAST_NUMBER)
        ↔ (IsTrue (has_key tree.old.shows.version key.now)
        × ¬ (HasRoom tree.old.shows.version 1)) }
{
    if !lent::has(tree.table(), key) {
        return ABSENT;
    }
    match handling::insert(alloc, tree, key, value) {
        Ok(was) => tell(was, replaced),
        Err(refusal) => refusal.number(),
    }
}
