//! How long a key of a tree of byte strings may be. A chain of keys that begin one another is as
//! deep as the longest of them has bytes, and a change takes stack for each level.
ghost use Rattle.std.specs.Prelude.{◌≡◌, ◌⊎◌, ◌↔◌, IsTrue};
ghost use Rattle.rart_c.specs.Trees.{KeepsLimit, with_longest};
ghost use Rattle.rart_c.specs.declared.answer.TheConstants.{DONE, NO_MEMORY, NOT_EMPTY};
ghost use Rattle.rart_maps.specs.Versions.{has_no_key};

use crate::bytes::handle::RartBytes;
use crate::{calls, lent};
use std::alloc::Global;

/// How many bytes a key may have: no key of the tree is longer.
#[unsafe(no_mangle)]
pub extern "C" fn rart_bytes_longest_key(tree: &mut RartBytes) -> usize
    ensures longest { result ≡ tree.old.shows.longest }
    ensures kept { KeepsLimit tree.old.shows }
    ensures same { tree.new.shows ≡ tree.old.shows }
{
    lent::longest_key(tree.table())
}

/// Sets how many bytes a key may have, of a tree without a key; its number stays. At first it is
/// 1,024. `NOT_EMPTY` says that there is a key, `NO_MEMORY` that memory was refused: nothing
/// changed then.
#[unsafe(no_mangle)]
pub extern "C" fn rart_bytes_set_longest_key(
    alloc: Global,
    tree: &mut RartBytes,
    longest: usize,
) -> u8
    ensures done { (result ≡ NOT_EMPTY) ⊎ ((result ≡ NO_MEMORY) ⊎ ((result ≡ DONE)
        × (tree.new.shows ≡ with_longest tree.old.shows longest))) }
    ensures refused { (result ≡ NOT_EMPTY) ⊎ (result ≡ NO_MEMORY)
        → tree.new.shows ≡ tree.old.shows }
    ensures empty { (result ≡ NOT_EMPTY) ↔ ¬ (IsTrue (has_no_key tree.old.shows.version)) }
{
    calls::set_longest_key(alloc, tree, longest)
}
