//! What C calls to walk over a tree of byte strings, from key to key.
ghost use Rattle.std.specs.Prelude.{◌≡◌, ℕ, List, length, reverse};
ghost use Rattle.std.specs.declared.ops.Bound.TheVariants.{Included, Excluded, Unbounded};
ghost use Rattle.rart_c.specs.Firsts.{ReadsFirst};
ghost use Rattle.rart_maps.specs.Pairs.{within};
ghost use Rattle.rart_ways.specs.Firsts.{Finds};

use crate::answer::{ABSENT, TOO_SMALL};
use crate::bytes::handle::RartBytes;
use crate::bytes::reading::read;
use crate::bytes::value::Bytes;
use crate::lent;
use std::ops::Bound;

/// Answers `DONE`, writes the first key that is not before this one to the front of `room`, its
/// value to the front of `into`, and the lengths of both; behind them `room` and `into` are as
/// before. Where the key is longer than `room`, or the value than `into`, it answers `TOO_SMALL`
/// and writes both lengths, the key where `room` has the bytes for it, and no value; what `room`
/// has else is unspecified. Where there is none it answers `ABSENT` and writes nothing. It takes no
/// memory.
#[unsafe(no_mangle)]
pub extern "C" fn rart_bytes_seek(
    tree: &mut RartBytes,
    from: &[u8],
    room: &mut [u8],
    key_len: &mut usize,
    into: &mut [u8],
    len: &mut usize,
) -> u8
    ensures found { ReadsFirst (within tree.old.shows.version.content (Included from.now) Unbounded)
        result (room.old, key_len.old) (room.new, key_len.new) (into.old, len.old)
        (into.new, len.new) }
    ensures same { tree.new.shows ≡ tree.old.shows }
{
    let size = room.len();
    let found = lent::first(tree.table(), Bound::Included(from), room);
    read_first(found, size, key_len, into, len)
}

/// As `rart_bytes_seek`, of the keys behind this one.
#[unsafe(no_mangle)]
pub extern "C" fn rart_bytes_next(
    tree: &mut RartBytes,
    after: &[u8],
    room: &mut [u8],
    key_len: &mut usize,
    into: &mut [u8],
    len: &mut usize,
) -> u8
    ensures found { ReadsFirst (within tree.old.shows.version.content (Excluded after.now)
        Unbounded) result (room.old, key_len.old) (room.new, key_len.new) (into.old, len.old)
        (into.new, len.new) }
    ensures same { tree.new.shows ≡ tree.old.shows }
{
    let size = room.len();
    let found = lent::first(tree.table(), Bound::Excluded(after), room);
    read_first(found, size, key_len, into, len)
}

/// As `rart_bytes_seek`, of the last key that is not behind this one.
#[unsafe(no_mangle)]
pub extern "C" fn rart_bytes_seek_back(
    tree: &mut RartBytes,
    from: &[u8],
    room: &mut [u8],
    key_len: &mut usize,
    into: &mut [u8],
    len: &mut usize,
) -> u8
    ensures found { ReadsFirst (reverse (within tree.old.shows.version.content Unbounded
        (Included from.now))) result (room.old, key_len.old) (room.new, key_len.new)
        (into.old, len.old) (into.new, len.new) }
    ensures same { tree.new.shows ≡ tree.old.shows }
{
    let size = room.len();
    let found = lent::last(tree.table(), Bound::Included(from), room);
    read_first(found, size, key_len, into, len)
}

/// As `rart_bytes_seek_back`, of the keys before this one.
#[unsafe(no_mangle)]
pub extern "C" fn rart_bytes_prev(
    tree: &mut RartBytes,
    before: &[u8],
    room: &mut [u8],
    key_len: &mut usize,
    into: &mut [u8],
    len: &mut usize,
) -> u8
    ensures found { ReadsFirst (reverse (within tree.old.shows.version.content Unbounded
        (Excluded before.now))) result (room.old, key_len.old) (room.new, key_len.new)
        (into.old, len.old) (into.new, len.new) }
    ensures same { tree.new.shows ≡ tree.old.shows }
{
    let size = room.len();
    let found = lent::last(tree.table(), Bound::Excluded(before), room);
    read_first(found, size, key_len, into, len)
}

/// As `rart_bytes_seek`, of the last key of all.
#[unsafe(no_mangle)]
pub extern "C" fn rart_bytes_last(
    tree: &mut RartBytes,
    room: &mut [u8],
    key_len: &mut usize,
    into: &mut [u8],
    len: &mut usize,
) -> u8
    ensures found { ReadsFirst (reverse (within tree.old.shows.version.content Unbounded Unbounded))
        result (room.old, key_len.old) (room.new, key_len.new) (into.old, len.old)
        (into.new, len.new) }
    ensures same { tree.new.shows ≡ tree.old.shows }
{
    let size = room.len();
    let found = lent::last(tree.table(), Bound::Unbounded, room);
    read_first(found, size, key_len, into, len)
}

/// Reads the first of some pairs out, as it was found with so much room for its key, if there is
/// one.
fn read_first(
    found: Option<(usize, &Bytes)>,
    room: usize,
    key_len: &mut usize,
    into: &mut [u8],
    len: &mut usize,
) -> u8
    ensures { (pairs : List (List ℕ × List ℕ)) (before after : List ℕ) → length before ≡ room
        → Finds pairs found.entry before after
        → ReadsFirst pairs result (before, key_len.old) (after, key_len.new)
        (into.old, len.old) (into.new, len.new) }
{
    let Some((length, value)) = found else {
        return ABSENT;
    };
    *key_len = length;
    if room < length {
        *len = value.as_slice().len();
        return TOO_SMALL;
    }
    read(Some(value), into, len)
}
