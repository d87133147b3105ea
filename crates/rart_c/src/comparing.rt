//! What C calls to compare trees, and to have what one of them has beside the other.
ghost use Rattle.std.specs.Prelude.{◌≡◌, ◌⊎◌, nat_eq};
ghost use Rattle.rart_c.specs.Differences.{difference, intersection};
ghost use Rattle.rart_c.specs.Equality.{TellsEqual};
ghost use Rattle.rart_c.specs.Trees.{of_content};
ghost use Rattle.rart_c.specs.declared.answer.TheConstants.{DONE, NO_MEMORY};

use crate::answer::tell_equal;
use crate::handle::RartTree;
use crate::{calls, lent};
use std::alloc::Global;

/// Whether both trees have the same keys with the same values, whatever their numbers: answers
/// `DONE` where they have, else `DIFFERENT`. `NO_MEMORY` says that memory was refused, and tells
/// nothing of the trees.
#[unsafe(no_mangle)]
pub extern "C" fn rart_equals(alloc: Global, tree: &mut RartTree, other: &mut RartTree) -> u8
    ensures answer { TellsEqual tree.old.shows.version.content other.old.shows.version.content
        result }
    ensures same { tree.new.shows ≡ tree.old.shows }
    ensures other_same { other.new.shows ≡ other.old.shows }
{
    tell_equal(lent::equals(alloc, tree.table(), other.table()))
}

/// Makes `part` the map of the pairs of `tree` alone whose key `other` lacks, or has with another
/// value, its number that of `tree`, and frees what `part` was. Keys may be as long in it as in
/// `tree`. With the trees exchanged it is the other side of what differs. `NO_MEMORY` says that
/// memory was refused: `part` is as before then.
///
/// It goes once through both, and takes memory for each pair of `part`.
#[unsafe(no_mangle)]
pub extern "C" fn rart_difference(
    alloc: Global,
    tree: &mut RartTree,
    other: &mut RartTree,
    part: &mut RartTree,
) -> u8
    ensures done { (result ≡ NO_MEMORY) ⊎ ((result ≡ DONE)
        × (part.new.shows ≡ of_content tree.old.shows (difference nat_eq
        tree.old.shows.version.content other.old.shows.version.content))) }
    ensures refused { result ≡ NO_MEMORY → part.new.shows ≡ part.old.shows }
    ensures same { tree.new.shows ≡ tree.old.shows }
    ensures other_same { other.new.shows ≡ other.old.shows }
{
    calls::difference(alloc, tree, other, part)
}

/// Makes `part` the map of the pairs of `tree` alone whose key `other` has too, its number that of
/// `tree`, and frees what `part` was. Keys may be as long in it as in `tree`. `NO_MEMORY` says that
/// memory was refused: `part` is as before then.
///
/// It goes through both only where keys of both can lie, and takes memory for each pair of `part`.
#[unsafe(no_mangle)]
pub extern "C" fn rart_intersection(
    alloc: Global,
    tree: &mut RartTree,
    other: &mut RartTree,
    part: &mut RartTree,
) -> u8
    ensures done { (result ≡ NO_MEMORY) ⊎ ((result ≡ DONE)
        × (part.new.shows ≡ of_content tree.old.shows (intersection
        tree.old.shows.version.content other.old.shows.version.content))) }
    ensures refused { result ≡ NO_MEMORY → part.new.shows ≡ part.old.shows }
    ensures same { tree.new.shows ≡ tree.old.shows }
    ensures other_same { other.new.shows ≡ other.old.shows }
{
    calls::intersection(alloc, tree, other, part)
}
