//! What C calls to have one tree more.
ghost use Rattle.std.specs.Prelude.{◌≡◌, ◌⊎◌, ◌↔◌};
ghost use Rattle.rart_c.specs.Answers.{IsRefused};
ghost use Rattle.rart_c.specs.declared.answer.TheConstants.{DONE, LAST_NUMBER, NO_MEMORY};
ghost use Rattle.rart_c.specs.Trees.{tree_at, of_version};
ghost use Rattle.rart_maps.specs.Versions.{HasRoom, with_rise};

use crate::calls;
use crate::handle::RartTree;
use std::alloc::Global;

/// Makes `copy` the same map, its number one greater, and frees what `copy` was. Keys may be as
/// long in it. `LAST_NUMBER` says that the number can't be raised, `NO_MEMORY` that memory was
/// refused: `copy` is as before then.
#[unsafe(no_mangle)]
pub extern "C" fn rart_snapshot(alloc: Global, tree: &mut RartTree, copy: &mut RartTree) -> u8
    ensures done { IsRefused result
        ⊎ ((result ≡ DONE) × (copy.new.shows
        ≡ of_version tree.old.shows (with_rise tree.old.shows.version 1))) }
    ensures refused { IsRefused result → copy.new.shows ≡ copy.old.shows }
    ensures room { (result ≡ LAST_NUMBER) ↔ ¬ (HasRoom tree.old.shows.version 1) }
    ensures same { tree.new.shows ≡ tree.old.shows }
{
    calls::snapshot(alloc, tree, copy)
}

/// Makes `copy` the same map, its number too, and frees what `copy` was. Keys may be as long in it.
/// `NO_MEMORY` says that memory was refused: `copy` is as before then.
#[unsafe(no_mangle)]
pub extern "C" fn rart_clone(alloc: Global, tree: &mut RartTree, copy: &mut RartTree) -> u8
    ensures done { (result ≡ NO_MEMORY)
        ⊎ ((result ≡ DONE) × (copy.new.shows ≡ tree.old.shows)) }
    ensures refused { result ≡ NO_MEMORY → copy.new.shows ≡ copy.old.shows }
    ensures same { tree.new.shows ≡ tree.old.shows }
{
    calls::clone(alloc, tree, copy)
}

/// Frees what the tree leads to, and leaves it without a key, with this number, keys as long as at
/// first. `NO_MEMORY` says that memory was refused: it is as before then.
#[unsafe(no_mangle)]
pub extern "C" fn rart_new_at(alloc: Global, tree: &mut RartTree, number: u64) -> u8
    ensures done { (result ≡ NO_MEMORY)
        ⊎ ((result ≡ DONE) × (tree.new.shows ≡ tree_at number)) }
    ensures refused { result ≡ NO_MEMORY → tree.new.shows ≡ tree.old.shows }
{
    calls::new_at(alloc, tree, number)
}
