//! What C calls to walk over a tree, from key to key.
ghost use Rattle.std.specs.Prelude.{◌≡◌, reverse};
ghost use Rattle.std.specs.declared.ops.Bound.TheVariants.{Included, Excluded, Unbounded};
ghost use Rattle.rart_c.specs.Firsts.{TellsFirst};
ghost use Rattle.rart_maps.specs.Pairs.{within};

use crate::answer::tell_first;
use crate::handle::RartTree;
use crate::lent;
use std::ops::Bound;

/// Answers `DONE` and writes the first key that is not before this one to the front of `room`, its
/// length and its value; behind the key `room` is as before. Where `room` is shorter than that key
/// it answers `TOO_SMALL` and writes its length and no value; what `room` has then is unspecified.
/// Where there is none it answers `ABSENT` and writes nothing. It takes no memory.
#[unsafe(no_mangle)]
pub extern "C" fn rart_seek(
    tree: &mut RartTree,
    from: &[u8],
    room: &mut [u8],
    len: &mut usize,
    value: &mut u64,
) -> u8
    ensures found { TellsFirst (within tree.old.shows.version.content (Included from.now) Unbounded)
        result (room.old, len.old) (room.new, len.new) value.old value.new }
    ensures same { tree.new.shows ≡ tree.old.shows }
{
    let size = room.len();
    let found = lent::first(tree.table(), Bound::Included(from), room);
    tell_first(found, size, len, value)
}

/// As `rart_seek`, of the keys behind this one.
#[unsafe(no_mangle)]
pub extern "C" fn rart_next(
    tree: &mut RartTree,
    after: &[u8],
    room: &mut [u8],
    len: &mut usize,
    value: &mut u64,
) -> u8
    ensures found { TellsFirst (within tree.old.shows.version.content (Excluded after.now)
        Unbounded) result (room.old, len.old) (room.new, len.new) value.old value.new }
    ensures same { tree.new.shows ≡ tree.old.shows }
{
    let size = room.len();
    let found = lent::first(tree.table(), Bound::Excluded(after), room);
    tell_first(found, size, len, value)
}

/// As `rart_seek`, of the last key that is not behind this one.
#[unsafe(no_mangle)]
pub extern "C" fn rart_seek_back(
    tree: &mut RartTree,
    from: &[u8],
    room: &mut [u8],
    len: &mut usize,
    value: &mut u64,
) -> u8
    ensures found { TellsFirst (reverse (within tree.old.shows.version.content Unbounded
        (Included from.now))) result (room.old, len.old) (room.new, len.new) value.old value.new }
    ensures same { tree.new.shows ≡ tree.old.shows }
{
    let size = room.len();
    let found = lent::last(tree.table(), Bound::Included(from), room);
    tell_first(found, size, len, value)
}

/// As `rart_seek_back`, of the keys before this one.
#[unsafe(no_mangle)]
pub extern "C" fn rart_prev(
    tree: &mut RartTree,
    before: &[u8],
    room: &mut [u8],
    len: &mut usize,
    value: &mut u64,
) -> u8
    ensures found { TellsFirst (reverse (within tree.old.shows.version.content Unbounded
        (Excluded before.now))) result (room.old, len.old) (room.new, len.new) value.old value.new }
    ensures same { tree.new.shows ≡ tree.old.shows }
{
    let size = room.len();
    let found = lent::last(tree.table(), Bound::Excluded(before), room);
    tell_first(found, size, len, value)
}

/// As `rart_seek`, of the last key of all.
#[unsafe(no_mangle)]
pub extern "C" fn rart_last(
    tree: &mut RartTree,
    room: &mut [u8],
    len: &mut usize,
    value: &mut u64,
) -> u8
    ensures found { TellsFirst (reverse (within tree.old.shows.version.content Unbounded Unbounded))
        result (room.old, len.old) (room.new, len.new) value.old value.new }
    ensures same { tree.new.shows ≡ tree.old.shows }
{
    let size = room.len();
    let found = lent::last(tree.table(), Bound::Unbounded, room);
    tell_first(found, size, len, value)
}
