//! What C calls to change a tree of byte strings.
ghost use Rattle.std.specs.Prelude.{◌≡◌, ◌<◌, ◌≤◌, ◌⊎◌, ◌↔◌, IsTrue, MatchResult, length};
ghost use Rattle.rart_c.specs.Answers.{Explains, IsRefused, IsRefusedKey, told_there};
ghost use Rattle.rart_c.specs.Trees.{tree_at, of_version};
ghost use Rattle.rart_c.specs.declared.answer.TheConstants.{LAST_NUMBER, TOO_LONG};
ghost use Rattle.rart_maps.specs.Changes.{Changes, after_removal, replacement};
ghost use Rattle.rart_maps.specs.Versions.{HasRoom, has_key, with_key};

use crate::answer::{Refusal, TOO_LONG, tell_there};
use crate::bytes::handle::RartBytes;
use crate::bytes::value::Bytes;
use crate::{handling, lent};
use std::alloc::Global;

/// Frees what the tree leads to: it has no key then, its number is 0, and keys may be as long as at
/// first. That it is all zeros then is tested alone.
#[unsafe(no_mangle)]
pub extern "C" fn rart_bytes_clear(alloc: Global, tree: &mut RartBytes)
    ensures { tree.new.shows ≡ tree_at 0 }
{
    *tree = RartBytes::empty(alloc);
}

/// Sets a key to a copy of the value, the number then one greater. Answers `DONE` where a value was
/// replaced, `ABSENT` where the key is new. `TOO_LONG` says that the key is longer than a key may
/// be, `LAST_NUMBER` that the number can't be raised, `NO_MEMORY` that memory was refused: nothing
/// changed then.
#[unsafe(no_mangle)]
pub extern "C" fn rart_bytes_insert(
    alloc: Global,
    tree: &mut RartBytes,
    key: &[u8],
    value: &[u8],
) -> u8
    ensures done { IsRefusedKey result ⊎ ((tree.new.shows
        ≡ of_version tree.old.shows (with_key tree.old.shows.version key.now value.now 1))
        × (result ≡ told_there (has_key tree.old.shows.version key.now))) }
    ensures refused { IsRefusedKey result → tree.new.shows ≡ tree.old.shows }
    ensures long { (result ≡ TOO_LONG) ↔ (tree.old.shows.longest < length key.now) }
    ensures room { (result ≡ LAST_NUMBER) ↔ ((length key.now ≤ tree.old.shows.longest)
        × ¬ (HasRoom tree.old.shows.version 1)) }
{
    if key.len() > lent::longest_key(tree.table()) {
        return TOO_LONG;
    }
    match set(alloc, tree, key, value) {
        Ok(was) => tell_there(was.is_some()),
        Err(refusal) => refusal.number(),
    }
}

/// Takes a key out, the number then one greater. Answers `DONE`, or `ABSENT` where there is no such
/// key, and then nothing changed. `LAST_NUMBER` says that the key is there and the number can't be
/// raised, `NO_MEMORY` that it is there and memory was refused: nothing changed then.
#[unsafe(no_mangle)]
pub extern "C" fn rart_bytes_remove(tree: &mut RartBytes, key: &[u8]) -> u8
    ensures done { IsRefused result ⊎ ((tree.new.shows
        ≡ of_version tree.old.shows (after_removal tree.old.shows.version key.now))
        × (result ≡ told_there (has_key tree.old.shows.version key.now))) }
    ensures refused { IsRefused result
        → (tree.new.shows ≡ tree.old.shows) × IsTrue (has_key tree.old.shows.version key.now) }
    ensures room { (result ≡ LAST_NUMBER)
        ↔ (IsTrue (has_key tree.old.shows.version key.now)
        × ¬ (HasRoom tree.old.shows.version 1)) }
{
    match handling::remove(tree, key) {
        Ok(was) => tell_there(was.is_some()),
        Err(refusal) => refusal.number(),
    }
}

/// Sets a key to a copy of the value, and gives the value that was replaced. That there is no room
/// is told before memory is asked for.
pub(crate) fn set(
    alloc: Global,
    tree: &mut RartBytes,
    key: &[u8],
    value: &[u8],
) -> Result<Option<Bytes>, Refusal>
    requires short { length key.now ≤ tree.old.shows.longest }
    ensures changes { Changes result tree.old.shows.version tree.new.shows.version
        (replacement tree.old.shows.version key.now value.now) }
    ensures room { MatchResult result (λ _. HasRoom tree.old.shows.version 1)
        (Explains tree.old.shows.version) }
    ensures longest { tree.new.shows.longest ≡ tree.old.shows.longest }
{
    if lent::version(tree.table()) == u64::MAX {
        return Err(Refusal::LastNumber);
    }
    handling::insert(alloc, tree, key, Bytes::new(alloc, value)?)
}
