//! What C calls to have a tree as bytes, and a tree of bytes.
ghost use Rattle.std.specs.Prelude.{◌≡◌, Some};
ghost use Rattle.rart_c.specs.Saves.{GivesBack, Saves, TellsLength, TellsLoad};
ghost use Rattle.rart_c.specs.declared.answer.TheConstants.{DONE};
ghost use Rattle.rart_saved.specs.Forms.{IsVersionOf, saved};
ghost use Rattle.rart_saved.specs.Values.{eight_bytes};

use crate::calls;
use crate::handle::RartTree;
use std::alloc::Global;

/// Writes to `len` how many bytes `rart_save` writes, and answers `DONE`. It goes through all
/// pairs, and takes memory for the way and for one of them: `NO_MEMORY` says that it was refused,
/// and `len` is as before then.
#[unsafe(no_mangle)]
pub extern "C" fn rart_saved_len(alloc: Global, tree: &mut RartTree, len: &mut usize) -> u8
    ensures length { TellsLength (saved eight_bytes 1 tree.old.shows.version) result len.old
        len.new }
    ensures same { tree.new.shows ≡ tree.old.shows }
{
    calls::saved_len(alloc, tree, len)
}

/// Writes the version as bytes to the front of `into`, and how many they are to `len`: its map and
/// its number, and a sum of all, in the one form that they have. Answers `DONE`; the other bytes of
/// `into` are as before. `TOO_SMALL` says that `into` has fewer, and `len` is written too;
/// `NO_MEMORY` that memory was refused, of which it takes what `rart_saved_len` does. What `into`
/// has after these two answers is unspecified.
#[unsafe(no_mangle)]
pub extern "C" fn rart_save(
    alloc: Global,
    tree: &mut RartTree,
    into: &mut [u8],
    len: &mut usize,
) -> u8
    ensures saved { Saves (saved eight_bytes 1 tree.old.shows.version) result
        (into.old, len.old) (into.new, len.new) }
    ensures loadable { IsVersionOf (Some tree.old.shows.longest) tree.old.shows.version }
    ensures same { tree.new.shows ≡ tree.old.shows }
{
    calls::save(alloc, tree, into, len)
}

/// Makes the tree the version whose bytes these are, as `rart_save` writes them, and frees what it
/// was. Keys may be as long as before. Answers `DONE`; with any other answer it is as before.
/// `TRUNCATED` says that the bytes end early, `UNSUPPORTED` that their format is another,
/// `MALFORMED` that what begins at `bytes[offset]` stands in no form, `TOO_LONG` that the key whose
/// form begins there is longer than a key may be, `WRONG_SUM` that the sum at the end is another.
/// `NO_MEMORY` says that memory was refused, which is asked for as bytes come: no length in them is
/// believed. `offset` is written with `MALFORMED` and `TOO_LONG` alone, and is less than the length
/// of `bytes` then. What `rart_save` wrote has no answers but `DONE`, `TOO_LONG` and `NO_MEMORY`;
/// which other one comes of other bytes, and that `offset` is the byte to look at, is tested alone.
#[unsafe(no_mangle)]
pub extern "C" fn rart_load(
    alloc: Global,
    tree: &mut RartTree,
    bytes: &[u8],
    offset: &mut usize,
) -> u8
    ensures loaded { result ≡ DONE → (bytes.now ≡ saved eight_bytes 1 tree.new.shows.version)
        × (tree.new.shows.longest ≡ tree.old.shows.longest) }
    ensures refused { ¬ (result ≡ DONE) → tree.new.shows ≡ tree.old.shows }
    ensures tells { TellsLoad bytes.now result offset.old offset.new }
    ensures gives_back { GivesBack eight_bytes 1 tree.old.shows.longest bytes.now result
        tree.new.shows.version }
{
    calls::load(alloc, tree, bytes, offset)
}
