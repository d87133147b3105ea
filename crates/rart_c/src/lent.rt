//! What is read of a table that a handle lends, or of none: the tree as it is at first.
ghost use Rattle.std.specs.Prelude.{◌≡◌, ◌≤◌, ◌==◌, ◌↔◌, length, not, reverse, IfOk, IsTrue, MatchOption, MatchResult};
ghost use Rattle.std.specs.FinMap as finite;
ghost use Rattle.std.specs.Option.{ForSome, option_copied};
ghost use Rattle.std.specs.Range.Bound.{bound_map};
ghost use Rattle.std.specs.declared.ops.Bound.TheVariants.{Unbounded};
ghost use Rattle.rart_c.specs.Answers.{Explains};
ghost use Rattle.rart_c.specs.Longest.{length_found, longest_length};
ghost use Rattle.rart_c.specs.Shown.{shown};
ghost use Rattle.rart_below.specs.Clones.{ClonesEqual};
ghost use Rattle.rart_maps.specs.ChangeLaws.{Decides};
ghost use Rattle.rart_maps.specs.Pairs.{common, within};
ghost use Rattle.rart_maps.specs.Prefixes.{under_prefix};
ghost use Rattle.rart_c.specs.Trees.{KeepsLimit, tree_at, of_version};
ghost use Rattle.rart_maps.specs.Versions.{HasRoom, has_key, value_at, with_rise};
ghost use Rattle.rart_ways.specs.Firsts.{Finds};

use crate::answer::Refusal;
use crate::limits::LONGEST_KEY;
use crate::table::Table;
use rart_versioned::{VectorPartial, VersionedCursor, VersionedCursorRev};
use std::alloc::{AllocError, Global};
use std::ops::Bound;

pub(crate) fn version<V: Clone + Drop>(table: Option<&Table<V>>) -> u64
    ensures { result ≡ (shown table.entry).version.number }
{
    match table {
        None => 0,
        Some(table) => table.tree.version(),
    }
}

pub(crate) fn len<V: Clone + Drop>(table: Option<&Table<V>>) -> usize
    ensures { result ≡ finite.len (shown table.entry).version.content }
{
    match table {
        None => 0,
        Some(table) => table.len,
    }
}

/// How long a key may be. None is longer.
pub(crate) fn longest_key<V: Clone + Drop>(table: Option<&Table<V>>) -> usize
    ensures longest { result ≡ (shown table.entry).longest }
    ensures kept { KeepsLimit (shown table.entry) }
{
    match table {
        None => LONGEST_KEY,
        Some(table) => {
            table.know_limit_for_proof();
            table.longest
        }
    }
}

/// The value of a key, if it is there.
pub(crate) fn get<'a, V: Clone + Drop>(table: Option<&'a Table<V>>, key: &[u8]) -> Option<&'a V>
    ensures { option_copied result ≡ value_at (shown table.entry).version key.now }
{
    match table {
        None => None,
        Some(table) => table.tree.get_bytes(key),
    }
}

/// Whether a key is there, and is then no longer than a key may be.
pub(crate) fn has<V: Clone + Drop>(table: Option<&Table<V>>, key: &[u8]) -> bool
    ensures there { result ≡ has_key (shown table.entry).version key.now }
    ensures short { IsTrue result → length key.now ≤ (shown table.entry).longest }
{
    let _ = longest_key(table); // (by which the proof knows that no key is longer)
    get(table, key).is_some()
}

/// How long the longest key is that begins the probe, and its value, if there is one.
pub(crate) fn longest<'a, V: Clone + Drop>(
    table: Option<&'a Table<V>>,
    probe: &[u8],
) -> Option<(usize, &'a V)>
    ensures { length_found result ≡ longest_length (shown table.entry).version probe.now }
{
    match table {
        None => None,
        Some(table) => table.tree.longest_prefix(probe),
    }
}

/// The first of the pairs from a bound on, if there is one: how long its key is, which is written
/// to the front of `room`, if it fits there; and its value.
pub(crate) fn first<'a, V: Clone + Drop>(
    table: Option<&'a Table<V>>,
    low: Bound<&[u8]>,
    room: &mut [u8],
) -> Option<(usize, &'a V)>
    ensures { Finds (within (shown table.entry).version.content
        (bound_map (λ low. low.now) low.entry) Unbounded) result room.old room.new }
{
    match table {
        None => None,
        Some(table) => table.tree.first_from(low, room),
    }
}

/// A cursor before the pairs from a bound on, where there is a table, and memory.
pub(crate) fn cursor<'a, V: Clone + Drop>(
    table: Option<&'a Table<V>>,
    low: Bound<&[u8]>,
) -> Option<VersionedCursor<'a, VectorPartial, V>>
    ensures { ForSome result (λ cursor. cursor.left ≡ within (shown table.entry).version.content
        (bound_map (λ low. low.now) low.entry) Unbounded) }
{
    table?.tree.cursor_from(low).ok()
}

/// A cursor behind the pairs up to a bound, which goes back, where there is a table, and memory.
pub(crate) fn cursor_back<'a, V: Clone + Drop>(
    table: Option<&'a Table<V>>,
    high: Bound<&[u8]>,
) -> Option<VersionedCursorRev<'a, VectorPartial, V>>
    ensures { ForSome result (λ cursor. cursor.left ≡ reverse
        (within (shown table.entry).version.content Unbounded
        (bound_map (λ high. high.now) high.entry))) }
{
    table?.tree.cursor_to(high).ok()
}

/// The last of the pairs up to a bound, as `first` tells the first.
pub(crate) fn last<'a, V: Clone + Drop>(
    table: Option<&'a Table<V>>,
    high: Bound<&[u8]>,
    room: &mut [u8],
) -> Option<(usize, &'a V)>
    ensures { Finds (reverse (within (shown table.entry).version.content Unbounded
        (bound_map (λ high. high.now) high.entry))) result room.old room.new }
{
    match table {
        None => None,
        Some(table) => table.tree.last_to(high, room),
    }
}

/// Whether there is a pair within two bounds.
pub(crate) fn has_within<V: Clone + Drop>(
    table: Option<&Table<V>>,
    low: Bound<&[u8]>,
    high: Bound<&[u8]>,
) -> bool
    ensures { result ≡ not (length (within (shown table.entry).version.content
        (bound_map (λ low. low.now) low.entry) (bound_map (λ high. high.now) high.entry)) == 0) }
{
    match table {
        None => false,
        Some(table) => table.tree.has_within(low, high),
    }
}

/// How many keys both have.
pub(crate) fn common<V: Clone + Drop>(table: Option<&Table<V>>, other: Option<&Table<V>>) -> usize
    ensures { result ≡ length (common (shown table.entry).version.content
        (shown other.entry).version.content) }
{
    match (table, other) {
        (Some(table), Some(other)) => table.tree.intersect_count(&other.tree),
        _ => 0,
    }
}

/// Whether both have the same keys with the same values.
pub(crate) fn equals<V: Clone + Drop + Eq>(
    alloc: Global,
    table: Option<&Table<V>>,
    other: Option<&Table<V>>,
) -> Result<bool, AllocError>
    requires { Decides V.eq }
    ensures { IfOk result (λ equal. IsTrue equal
        ↔ ((shown table.entry).version.content ≡ (shown other.entry).version.content)) }
{
    let none = Table::new_at(alloc, 0);
    match (table, other) {
        (None, None) => Ok(true),
        (None, Some(other)) => none.equals(other),
        (Some(table), None) => table.equals(&none),
        (Some(table), Some(other)) => table.equals(other),
    }
}

/// The same map once more, its number one greater.
pub(crate) fn snapshot<V: Clone + Drop>(
    alloc: Global,
    table: Option<&Table<V>>,
) -> Result<Box<Table<V>>, Refusal>
    ensures copy { IfOk result (λ copy. copy.value
        ≡ of_version (shown table.entry) (with_rise (shown table.entry).version 1)) }
    ensures room { MatchResult result (λ _. HasRoom (shown table.entry).version 1)
        (Explains (shown table.entry).version) }
{
    let copy = match table {
        None => Table::new_at(alloc, 1),
        Some(table) => table.snapshot()?,
    };
    match Box::new(alloc, copy) {
        Ok(copy) => Ok(copy),
        Err(_) => Err(Refusal::NoMemory),
    }
}

/// The pairs alone whose key the prefix begins, the number one greater.
pub(crate) fn prefix_snapshot<V: Clone + Drop>(
    alloc: Global,
    table: Option<&Table<V>>,
    prefix: &[u8],
) -> Result<Box<Table<V>>, Refusal>
    requires clones { ClonesEqual V.is_clone }
    ensures kept { IfOk result (λ part. part.value ≡ of_version (shown table.entry)
        (under_prefix (shown table.entry).version prefix.now 1)) }
    ensures room { MatchResult result (λ _. HasRoom (shown table.entry).version 1)
        (Explains (shown table.entry).version) }
{
    let none = Table::new_at(alloc, 0);
    let table = match table {
        None => &none,
        Some(table) => table,
    };
    match Box::new(alloc, table.prefix_snapshot(prefix)?) {
        Ok(part) => Ok(part),
        Err(_) => Err(Refusal::NoMemory),
    }
}

/// The same map once more, its number too. Of none there is none.
pub(crate) fn clone<V: Clone + Drop>(
    alloc: Global,
    table: Option<&Table<V>>,
) -> Result<Option<Box<Table<V>>>, AllocError>
    ensures { IfOk result (λ copy. MatchOption copy (shown table.entry ≡ tree_at 0)
        (λ copy. copy.value ≡ shown table.entry)) }
{
    let Some(table) = table else {
        return Ok(None);
    };
    Ok(Some(Box::new(alloc, table.clone()?)?))
}
