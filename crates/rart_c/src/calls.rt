//! What calls of C do alike with both kinds of trees. Their exports say it whole.
ghost use Rattle.std.specs.Prelude.{◌≡◌, ◌<◌, ◌≤◌, ◌⊎◌, ◌↔◌, IsTrue, Some};
ghost use Rattle.rart_below.specs.Clones.{ClonesEqual};
ghost use Rattle.rart_c.specs.Answers.{IsRefused, IsRefusedKey, Tells};
ghost use Rattle.rart_c.specs.Differences.{difference, intersection};
ghost use Rattle.rart_c.specs.Saves.{GivesBack, Saves, TellsLength, TellsLoad};
ghost use Rattle.rart_c.specs.Trees.{of_content, of_version, tree_at, with_longest};
ghost use Rattle.rart_c.specs.Under.{some_under};
ghost use Rattle.rart_c.specs.declared.answer.TheConstants.{DONE, LAST_NUMBER, NOT_EMPTY, NO_MEMORY, TOO_LONG};
ghost use Rattle.rart_maps.specs.Prefixes.{after_prefix_removal, after_prefix_restoring, has_under, under_prefix};
ghost use Rattle.rart_maps.specs.Versions.{HasRoom, has_no_key, with_rise};
ghost use Rattle.rart_saved.specs.Forms.{IsVersionOf, saved};

use crate::answer::{
    DONE, NO_MEMORY, NOT_EMPTY, TOO_LONG, tell_count, tell_length, tell_unread, tell_written,
};
use crate::handling::{self, Handle};
use crate::table::Table;
use crate::{combining, forms, lent};
use std::alloc::Global;

/// Makes `copy` the same map, its number one greater.
pub(crate) fn snapshot<H: Handle>(alloc: Global, tree: &mut H, copy: &mut H) -> u8
    ensures done { IsRefused result ⊎ ((result ≡ DONE) × (H.shows copy.new
        ≡ of_version (H.shows tree.old) (with_rise (H.shows tree.old).version 1))) }
    ensures refused { IsRefused result → H.shows copy.new ≡ H.shows copy.old }
    ensures room { (result ≡ LAST_NUMBER) ↔ ¬ (HasRoom (H.shows tree.old).version 1) }
    ensures same { H.shows tree.new ≡ H.shows tree.old }
{
    match lent::snapshot(alloc, tree.table()) {
        Ok(made) => {
            *copy = H::of(made);
            DONE
        }
        Err(refusal) => refusal.number(),
    }
}

/// Makes `copy` the same map, its number too.
pub(crate) fn clone<H: Handle>(alloc: Global, tree: &mut H, copy: &mut H) -> u8
    ensures done { (result ≡ NO_MEMORY)
        ⊎ ((result ≡ DONE) × (H.shows copy.new ≡ H.shows tree.old)) }
    ensures refused { result ≡ NO_MEMORY → H.shows copy.new ≡ H.shows copy.old }
    ensures same { H.shows tree.new ≡ H.shows tree.old }
{
    let Ok(made) = lent::clone(alloc, tree.table()) else {
        return NO_MEMORY;
    };
    *copy = match made {
        None => H::empty(alloc),
        Some(made) => H::of(made),
    };
    DONE
}

/// Leaves the tree without a key, with this number.
pub(crate) fn new_at<H: Handle>(alloc: Global, tree: &mut H, number: u64) -> u8
    ensures done { (result ≡ NO_MEMORY)
        ⊎ ((result ≡ DONE) × (H.shows tree.new ≡ tree_at number)) }
    ensures refused { result ≡ NO_MEMORY → H.shows tree.new ≡ H.shows tree.old }
{
    match Box::new(alloc, Table::new_at(alloc, number)) {
        Ok(table) => {
            *tree = H::of(table);
            DONE
        }
        Err(_) => NO_MEMORY,
    }
}

/// Sets how many bytes a key may have, of a tree without a key.
pub(crate) fn set_longest_key<H: Handle>(alloc: Global, tree: &mut H, longest: usize) -> u8
    ensures done { (result ≡ NOT_EMPTY) ⊎ ((result ≡ NO_MEMORY) ⊎ ((result ≡ DONE)
        × (H.shows tree.new ≡ with_longest (H.shows tree.old) longest))) }
    ensures refused { (result ≡ NOT_EMPTY) ⊎ (result ≡ NO_MEMORY)
        → H.shows tree.new ≡ H.shows tree.old }
    ensures empty { (result ≡ NOT_EMPTY) ↔ ¬ (IsTrue (has_no_key (H.shows tree.old).version)) }
{
    if lent::len(tree.table()) > 0 {
        return NOT_EMPTY;
    }
    match handling::set_longest(alloc, tree, longest) {
        Ok(()) => DONE,
        Err(_) => NO_MEMORY,
    }
}

/// Takes out all pairs whose key the prefix begins, and tells how many there were.
pub(crate) fn remove_prefix<H: Handle>(tree: &mut H, prefix: &[u8], removed: &mut usize) -> u8
    requires clones { ClonesEqual H.Value.is_clone }
    ensures done { IsRefused result ⊎ ((H.shows tree.new ≡ of_version (H.shows tree.old)
        (after_prefix_removal (H.shows tree.old).version prefix.now))
        × Tells (some_under (H.shows tree.old).version prefix.now) result removed.old
        removed.new) }
    ensures refused { IsRefused result
        → (H.shows tree.new ≡ H.shows tree.old) × (removed.new ≡ removed.old)
        × IsTrue (has_under (H.shows tree.old).version prefix.now) }
    ensures room { (result ≡ LAST_NUMBER)
        ↔ (IsTrue (has_under (H.shows tree.old).version prefix.now)
        × ¬ (HasRoom (H.shows tree.old).version 1)) }
{
    match handling::remove_prefix(tree, prefix) {
        Ok(count) => tell_count(count, removed),
        Err(refusal) => refusal.number(),
    }
}

/// Makes `part` the map of the pairs alone whose key the prefix begins.
pub(crate) fn prefix_snapshot<H: Handle>(
    alloc: Global,
    tree: &mut H,
    prefix: &[u8],
    part: &mut H,
) -> u8
    requires clones { ClonesEqual H.Value.is_clone }
    ensures done { IsRefused result ⊎ ((result ≡ DONE) × (H.shows part.new
        ≡ of_version (H.shows tree.old)
        (under_prefix (H.shows tree.old).version prefix.now 1))) }
    ensures refused { IsRefused result → H.shows part.new ≡ H.shows part.old }
    ensures room { (result ≡ LAST_NUMBER) ↔ ¬ (HasRoom (H.shows tree.old).version 1) }
    ensures same { H.shows tree.new ≡ H.shows tree.old }
{
    match lent::prefix_snapshot(alloc, tree.table(), prefix) {
        Ok(made) => {
            *part = H::of(made);
            DONE
        }
        Err(refusal) => refusal.number(),
    }
}

/// Puts in place of all pairs whose key the prefix begins those that another tree has there.
pub(crate) fn restore_prefix<H: Handle>(
    alloc: Global,
    tree: &mut H,
    prefix: &[u8],
    from: &mut H,
) -> u8
    requires clones { ClonesEqual H.Value.is_clone }
    ensures done { IsRefusedKey result ⊎ ((result ≡ DONE) × (H.shows tree.new
        ≡ of_version (H.shows tree.old) (after_prefix_restoring (H.shows tree.old).version
        prefix.now (H.shows from.old).version))) }
    ensures refused { IsRefusedKey result → H.shows tree.new ≡ H.shows tree.old }
    ensures long { (result ≡ TOO_LONG)
        ↔ ((H.shows tree.old).longest < (H.shows from.old).longest) }
    ensures room { (result ≡ LAST_NUMBER)
        ↔ (((H.shows from.old).longest ≤ (H.shows tree.old).longest)
        × ¬ (HasRoom (H.shows tree.old).version (H.shows from.old).version.number)) }
    ensures same { H.shows from.new ≡ H.shows from.old }
{
    let from = from.table();
    if lent::longest_key(from) > lent::longest_key(tree.table()) {
        return TOO_LONG;
    }
    match handling::restore_prefix(alloc, tree, prefix, from) {
        Ok(()) => DONE,
        Err(refusal) => refusal.number(),
    }
}

/// Makes `part` the map of the pairs of `tree` alone that `other` lacks.
pub(crate) fn difference<H: Handle>(alloc: Global, tree: &mut H, other: &mut H, part: &mut H) -> u8
    requires clones { ClonesEqual H.Value.is_clone }
    ensures done { (result ≡ NO_MEMORY) ⊎ ((result ≡ DONE) × (H.shows part.new
        ≡ of_content (H.shows tree.old) (difference H.Value.eq
        (H.shows tree.old).version.content (H.shows other.old).version.content))) }
    ensures refused { result ≡ NO_MEMORY → H.shows part.new ≡ H.shows part.old }
    ensures same { H.shows tree.new ≡ H.shows tree.old }
    ensures other_same { H.shows other.new ≡ H.shows other.old }
{
    let Ok(made) = combining::difference(alloc, tree.table(), other.table()) else {
        return NO_MEMORY;
    };
    *part = H::of(made);
    DONE
}

/// Makes `part` the map of the pairs of `tree` alone whose key `other` has too.
pub(crate) fn intersection<H: Handle>(
    alloc: Global,
    tree: &mut H,
    other: &mut H,
    part: &mut H,
) -> u8
    requires clones { ClonesEqual H.Value.is_clone }
    ensures done { (result ≡ NO_MEMORY) ⊎ ((result ≡ DONE) × (H.shows part.new
        ≡ of_content (H.shows tree.old) (intersection
        (H.shows tree.old).version.content (H.shows other.old).version.content))) }
    ensures refused { result ≡ NO_MEMORY → H.shows part.new ≡ H.shows part.old }
    ensures same { H.shows tree.new ≡ H.shows tree.old }
    ensures other_same { H.shows other.new ≡ H.shows other.old }
{
    let Ok(made) = combining::intersection(alloc, tree.table(), other.table()) else {
        return NO_MEMORY;
    };
    *part = H::of(made);
    DONE
}

/// Tells how many bytes `save` writes.
pub(crate) fn saved_len<H: Handle>(alloc: Global, tree: &mut H, len: &mut usize) -> u8
    ensures length { TellsLength (saved H.Value.written H.Value.KIND (H.shows tree.old).version)
        result len.old len.new }
    ensures same { H.shows tree.new ≡ H.shows tree.old }
{
    tell_length(forms::len(alloc, tree.table()), len)
}

/// Writes the version as bytes to the front of `into`, and tells how many they are.
pub(crate) fn save<H: Handle>(alloc: Global, tree: &mut H, into: &mut [u8], len: &mut usize) -> u8
    ensures saved { Saves (saved H.Value.written H.Value.KIND (H.shows tree.old).version) result
        (into.old, len.old) (into.new, len.new) }
    ensures loadable { IsVersionOf (Some (H.shows tree.old).longest)
        (H.shows tree.old).version }
    ensures same { H.shows tree.new ≡ H.shows tree.old }
{
    let written = forms::save(alloc, tree.table(), into);
    tell_written(written, into.len(), len)
}

/// Makes the tree the version whose bytes these are, or tells why they were not read.
pub(crate) fn load<H: Handle>(alloc: Global, tree: &mut H, bytes: &[u8], offset: &mut usize) -> u8
    requires clones { ClonesEqual H.Value.is_clone }
    ensures loaded { result ≡ DONE → (bytes.now
        ≡ saved H.Value.written H.Value.KIND (H.shows tree.new).version)
        × ((H.shows tree.new).longest ≡ (H.shows tree.old).longest) }
    ensures refused { ¬ (result ≡ DONE) → H.shows tree.new ≡ H.shows tree.old }
    ensures tells { TellsLoad bytes.now result offset.old offset.new }
    ensures gives_back { GivesBack H.Value.written H.Value.KIND (H.shows tree.old).longest
        bytes.now result (H.shows tree.new).version }
{
    match forms::load(alloc, bytes, lent::longest_key(tree.table())) {
        Ok(table) => {
            *tree = H::of(table);
            DONE
        }
        Err(error) => tell_unread(error, offset),
    }
}
