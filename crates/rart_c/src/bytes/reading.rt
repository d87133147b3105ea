//! What C calls to read a tree of byte strings.
ghost use Rattle.std.specs.Prelude.{◌≡◌, length};
ghost use Rattle.std.specs.FinMap as finite;
ghost use Rattle.std.specs.Option.{option_copied, option_map};
ghost use Rattle.rart_c.specs.Longest.{length_found, longest_length};
ghost use Rattle.rart_c.specs.Reads.{Reads, written};
ghost use Rattle.rart_maps.specs.Pairs.{common};
ghost use Rattle.rart_maps.specs.Versions.{has_no_key, value_at};

use crate::answer::{ABSENT, DONE, TOO_SMALL};
use crate::bytes::handle::RartBytes;
use crate::bytes::value::Bytes;
use crate::lent;

/// The version's number. A key that is set or taken out raises it by one, a prefix that is put back
/// by the other tree's.
#[unsafe(no_mangle)]
pub extern "C" fn rart_bytes_version(tree: &mut RartBytes) -> u64
    ensures number { result ≡ tree.old.shows.version.number }
    ensures same { tree.new.shows ≡ tree.old.shows }
{
    lent::version(tree.table())
}

/// How many keys there are.
#[unsafe(no_mangle)]
pub extern "C" fn rart_bytes_len(tree: &mut RartBytes) -> usize
    ensures count { result ≡ finite.len tree.old.shows.version.content }
    ensures same { tree.new.shows ≡ tree.old.shows }
{
    lent::len(tree.table())
}

/// Whether there is no key.
#[unsafe(no_mangle)]
pub extern "C" fn rart_bytes_is_empty(tree: &mut RartBytes) -> bool
    ensures answer { result ≡ has_no_key tree.old.shows.version }
    ensures same { tree.new.shows ≡ tree.old.shows }
{
    rart_bytes_len(tree) == 0
}

/// Answers `DONE`, writes the value of a key to the first bytes of `into`, and its length to `len`.
/// `TOO_SMALL` says that `into` has fewer bytes than the value: `len` is written then and nothing
/// else. Answers `ABSENT` where there is no such key. It takes no memory.
#[unsafe(no_mangle)]
pub extern "C" fn rart_bytes_get(
    tree: &mut RartBytes,
    key: &[u8],
    into: &mut [u8],
    len: &mut usize,
) -> u8
    ensures found { Reads (value_at tree.old.shows.version key.now) result
        (into.old, len.old) (into.new, len.new) }
    ensures same { tree.new.shows ≡ tree.old.shows }
{
    read(lent::get(tree.table(), key), into, len)
}

/// Of the longest key that begins the probe: answers as `rart_bytes_get` of that key does, and
/// where there is one writes how long it is to `key_len`, also where `into` is too small. It takes
/// no memory.
#[unsafe(no_mangle)]
pub extern "C" fn rart_bytes_longest(
    tree: &mut RartBytes,
    probe: &[u8],
    key_len: &mut usize,
    into: &mut [u8],
    len: &mut usize,
) -> u8
    ensures found { Reads (option_map (λ pair. pair.1)
        (longest_length tree.old.shows.version probe.now)) result
        (into.old, len.old) (into.new, len.new) }
    ensures key { key_len.new ≡ written (option_map (λ pair. pair.0)
        (longest_length tree.old.shows.version probe.now)) key_len.old }
    ensures same { tree.new.shows ≡ tree.old.shows }
{
    read_longest(lent::longest(tree.table(), probe), key_len, into, len)
}

/// How many keys are in both trees. It takes no memory.
#[unsafe(no_mangle)]
pub extern "C" fn rart_bytes_common(tree: &mut RartBytes, other: &mut RartBytes) -> usize
    ensures count { result ≡ length (common tree.old.shows.version.content
        other.old.shows.version.content) }
    ensures same { tree.new.shows ≡ tree.old.shows }
    ensures other_same { other.new.shows ≡ other.old.shows }
{
    lent::common(tree.table(), other.table())
}

/// Reads a value out, if there is one.
pub(crate) fn read(found: Option<&Bytes>, into: &mut [u8], len: &mut usize) -> u8
    ensures { Reads (option_copied found.entry) result (into.old, len.old) (into.new, len.new) }
{
    let Some(found) = found else {
        return ABSENT;
    };
    let bytes = found.as_slice();
    *len = bytes.len();
    if into.len() < bytes.len() {
        return TOO_SMALL;
    }
    into[..bytes.len()].copy_from_slice(bytes);
    DONE
}

/// The same of a key that was found by its prefix, and tells how long that is.
fn read_longest(
    found: Option<(usize, &Bytes)>,
    key_len: &mut usize,
    into: &mut [u8],
    len: &mut usize,
) -> u8
    ensures found { Reads (option_map (λ pair. pair.1) (length_found found.entry)) result
        (into.old, len.old) (into.new, len.new) }
    ensures key { key_len.new ≡ written
        (option_map (λ pair. pair.0) (length_found found.entry)) key_len.old }
{
    match found {
        None => ABSENT,
        Some((length, value)) => {
            *key_len = length;
            read(Some(value), into, len)
        }
    }
}
