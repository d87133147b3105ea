//! What C calls on all pairs of a tree of byte strings whose key a prefix begins.
ghost use Rattle.std.specs.Prelude.{◌≡◌, ◌<◌, ◌≤◌, ◌⊎◌, ◌↔◌, IsTrue};
ghost use Rattle.rart_c.specs.Answers.{IsRefused, IsRefusedKey, Tells};
ghost use Rattle.rart_c.specs.Trees.{of_version};
ghost use Rattle.rart_c.specs.Under.{some_under};
ghost use Rattle.rart_c.specs.declared.answer.TheConstants.{DONE, LAST_NUMBER, TOO_LONG};
ghost use Rattle.rart_maps.specs.Prefixes.{after_prefix_removal, after_prefix_restoring, has_under, under_prefix};
ghost use Rattle.rart_maps.specs.Versions.{HasRoom};

use crate::bytes::handle::RartBytes;
use crate::calls;
use std::alloc::Global;

/// Takes out all pairs whose key the prefix begins, the number then one greater. Answers `DONE` and
/// writes how many there were, or answers `ABSENT` where there is none, and then nothing changed.
/// `LAST_NUMBER` says that there is one and the number can't be raised, `NO_MEMORY` that there is
/// one and memory was refused: nothing changed then.
///
/// It counts them, so it takes time by their number.
#[unsafe(no_mangle)]
pub extern "C" fn rart_bytes_remove_prefix(
    tree: &mut RartBytes,
    prefix: &[u8],
    removed: &mut usize,
) -> u8
    ensures done { IsRefused result ⊎ ((tree.new.shows ≡ of_version tree.old.shows
        (after_prefix_removal tree.old.shows.version prefix.now))
        × Tells (some_under tree.old.shows.version prefix.now) result removed.old removed.new) }
    ensures refused { IsRefused result
        → (tree.new.shows ≡ tree.old.shows) × (removed.new ≡ removed.old)
        × IsTrue (has_under tree.old.shows.version prefix.now) }
    ensures room { (result ≡ LAST_NUMBER)
        ↔ (IsTrue (has_under tree.old.shows.version prefix.now)
        × ¬ (HasRoom tree.old.shows.version 1)) }
{
    calls::remove_prefix(tree, prefix, removed)
}

/// Makes `part` the map of the pairs alone whose key the prefix begins, its number one greater, and
/// frees what `part` was. Keys may be as long in it. What stands below the prefix both share.
/// `LAST_NUMBER` says that the number can't be raised, `NO_MEMORY` that memory was refused: `part`
/// is as before then.
///
/// It counts them, so it takes time by their number.
#[unsafe(no_mangle)]
pub extern "C" fn rart_bytes_prefix_snapshot(
    alloc: Global,
    tree: &mut RartBytes,
    prefix: &[u8],
    part: &mut RartBytes,
) -> u8
    ensures done { IsRefused result
        ⊎ ((result ≡ DONE) × (part.new.shows
        ≡ of_version tree.old.shows (under_prefix tree.old.shows.version prefix.now 1))) }
    ensures refused { IsRefused result → part.new.shows ≡ part.old.shows }
    ensures room { (result ≡ LAST_NUMBER) ↔ ¬ (HasRoom tree.old.shows.version 1) }
    ensures same { tree.new.shows ≡ tree.old.shows }
{
    calls::prefix_snapshot(alloc, tree, prefix, part)
}

/// Puts in place of all pairs whose key the prefix begins those that another tree has there, the
/// number then the sum of both; the others stay, and so does the other tree. `TOO_LONG` says that
/// keys may be longer in the other tree, `LAST_NUMBER` that the sum is 2^64 or more, `NO_MEMORY`
/// that memory was refused: nothing changed then. Put back from its own snapshots, a tree about
/// doubles its number each time.
///
/// It counts the pairs that go and come, so it takes time by their number.
#[unsafe(no_mangle)]
pub extern "C" fn rart_bytes_restore_prefix(
    alloc: Global,
    tree: &mut RartBytes,
    prefix: &[u8],
    from: &mut RartBytes,
) -> u8
    ensures done { IsRefusedKey result ⊎ ((result ≡ DONE) × (tree.new.shows
        ≡ of_version tree.old.shows (after_prefix_restoring tree.old.shows.version prefix.now
        from.old.shows.version))) }
    ensures refused { IsRefusedKey result → tree.new.shows ≡ tree.old.shows }
    ensures long { (result ≡ TOO_LONG) ↔ (tree.old.shows.longest < from.old.shows.longest) }
    ensures room { (result ≡ LAST_NUMBER) ↔ ((from.old.shows.longest ≤ tree.old.shows.longest)
        × ¬ (HasRoom tree.old.shows.version from.old.shows.version.number)) }
    ensures same { from.new.shows ≡ from.old.shows }
{
    calls::restore_prefix(alloc, tree, prefix, from)
}
