//! What C calls to change a tree.
ghost use Rattle.std.specs.Prelude.{◌≡◌, ◌<◌, ◌≤◌, ◌⊎◌, ◌↔◌, IsTrue, length};
ghost use Rattle.rart_c.specs.Answers.{IsRefused, IsRefusedKey, Tells};
ghost use Rattle.rart_c.specs.Trees.{tree_at, of_version};
ghost use Rattle.rart_c.specs.declared.answer.TheConstants.{LAST_NUMBER, TOO_LONG};
ghost use Rattle.rart_maps.specs.Changes.{after_removal};
ghost use Rattle.rart_maps.specs.Versions.{HasRoom, has_key, value_at, with_key};

use crate::answer::{TOO_LONG, tell};
use crate::handle::RartTree;
use crate::{handling, lent};
use std::alloc::Global;

/// Frees what the tree leads to: it has no key then, its number is 0, and keys may be as long as at
/// first. That it is all zeros then is tested alone.
#[unsafe(no_mangle)]
pub extern "C" fn rart_clear(alloc: Global, tree: &mut RartTree)
    ensures { tree.new.shows ≡ tree_at 0 }
{
    *tree = RartTree::empty(alloc);
}

/// Sets a key to a value, the number then one greater. Answers `DONE` and writes the value that was
/// replaced, or answers `ABSENT` where the key is new. `TOO_LONG` says that the key is longer than
/// a key may be, `LAST_NUMBER` that the number can't be raised, `NO_MEMORY` that memory was
/// refused: nothing changed then.
#[unsafe(no_mangle)]
pub extern "C" fn rart_insert(
    alloc: Global,
    tree: &mut RartTree,
    key: &[u8],
    value: u64,
    replaced: &mut u64,
) -> u8
    ensures done { IsRefusedKey result ⊎ ((tree.new.shows
        ≡ of_version tree.old.shows (with_key tree.old.shows.version key.now value 1))
        × Tells (value_at tree.old.shows.version key.now) result replaced.old replaced.new) }
    ensures refused { IsRefusedKey result
        → (tree.new.shows ≡ tree.old.shows) × (replaced.new ≡ replaced.old) }
    ensures long { (result ≡ TOO_LONG) ↔ (tree.old.shows.longest < length key.now) }
    ensures room { (result ≡ LAST_NUMBER) ↔ ((length key.now ≤ tree.old.shows.longest)
        × ¬ (HasRoom tree.old.shows.version 1)) }
{
    if key.len() > lent::longest_key(tree.table()) {
        return TOO_LONG;
    }
    match handling::insert(alloc, tree, key, value) {
        Ok(was) => tell(was, replaced),
        Err(refusal) => refusal.number(),
    }
}

/// Takes a key out, the number then one greater. Answers `DONE` and writes its value, or answers
/// `ABSENT`, and then nothing changed. `LAST_NUMBER` says that the key is there and the number
/// can't be raised, `NO_MEMORY` that it is there and memory was refused: nothing changed then.
#[unsafe(no_mangle)]
pub extern "C" fn rart_remove(tree: &mut RartTree, key: &[u8], value: &mut u64) -> u8
    ensures done { IsRefused result ⊎ ((tree.new.shows
        ≡ of_version tree.old.shows (after_removal tree.old.shows.version key.now))
        × Tells (value_at tree.old.shows.version key.now) result value.old value.new) }
    ensures refused { IsRefused result
        → (tree.new.shows ≡ tree.old.shows) × (value.new ≡ value.old)
        × IsTrue (has_key tree.old.shows.version key.now) }
    ensures room { (result ≡ LAST_NUMBER)
        ↔ (IsTrue (has_key tree.old.shows.version key.now)
        × ¬ (HasRoom tree.old.shows.version 1)) }
{
    match handling::remove(tree, key) {
        Ok(was) => tell(was, value),
        Err(refusal) => refusal.number(),
    }
}
