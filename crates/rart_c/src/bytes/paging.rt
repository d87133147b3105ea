//! What C calls to read a page of a tree of byte strings.
ghost use Rattle.std.specs.Prelude.{◌≡◌, ◌+◌, ◌<◌, ◌≤◌, ◌↔◌, ℕ, IsTrue, List, drop, length, reverse, take};
ghost use Rattle.rart_c.specs.Pages.{IsAt, TellsPageSo, WritesStrings, bound_of, first_told, lengths_of, pairs_from, start_of};
ghost use Rattle.rart_maps.specs.Pairs.{within};

use crate::answer::{ABSENT, DONE, NO_ENTRIES, TOO_SMALL};
use crate::bytes::handle::RartBytes;
use crate::bytes::value::Bytes;
use crate::paging::{Order, Page, bound_of};

/// Where the key of an entry ends among the bytes of its page, and where its value behind it.
#[repr(C)]
#[derive(Clone, Copy)]
pub struct RartBytesEntry {
    pub key_end: usize,
    pub end: usize,
}

/// Writes the first pairs within two bounds, as many as there is room for: to the front of `bytes`
/// each key and its value behind it, an entry of each pair to the front of `entries`, and how many
/// they are to `count`. What `bytes` has behind them is unspecified; `entries` is as before there.
/// Answers as `rart_page`, but where `TOO_SMALL` says that the first key and its value are longer
/// than `bytes`: then it writes both lengths.
#[unsafe(no_mangle)]
pub extern "C" fn rart_bytes_page(
    tree: &mut RartBytes,
    low: &[u8],
    low_kind: u8,
    high: &[u8],
    high_kind: u8,
    bytes: &mut [u8],
    entries: &mut [RartBytesEntry],
    count: &mut usize,
    key_len: &mut usize,
    len: &mut usize,
) -> u8
    ensures page { (left : List (List ℕ × List ℕ))
        × WritesStrings (within tree.old.shows.version.content (bound_of low_kind low.now)
        (bound_of high_kind high.now)) left count.new bytes.new entries.old entries.new
        × TellsPageSo lengths_of count.new (length entries.old) left result
        (key_len.old, len.old) (key_len.new, len.new) }
    ensures same { tree.new.shows ≡ tree.old.shows }
{
    let (low, high) = (bound_of(low_kind, low), bound_of(high_kind, high));
    let page = Page::new(tree.table(), Order::Ascending, low, high, entries.len());
    let (written, next) = write_page(page, bytes, entries);
    *count = written;
    tell_page(written, entries.len(), next, key_len, len)
}

/// As `rart_bytes_page`, from the last pair back: the last pairs within two bounds, descending, as
/// `rart_page_back` has them.
#[unsafe(no_mangle)]
pub extern "C" fn rart_bytes_page_back(
    tree: &mut RartBytes,
    low: &[u8],
    low_kind: u8,
    high: &[u8],
    high_kind: u8,
    bytes: &mut [u8],
    entries: &mut [RartBytesEntry],
    count: &mut usize,
    key_len: &mut usize,
    len: &mut usize,
) -> u8
    ensures page { (left : List (List ℕ × List ℕ))
        × WritesStrings (reverse (within tree.old.shows.version.content (bound_of low_kind low.now)
        (bound_of high_kind high.now))) left count.new bytes.new entries.old entries.new
        × TellsPageSo lengths_of count.new (length entries.old) left result
        (key_len.old, len.old) (key_len.new, len.new) }
    ensures same { tree.new.shows ≡ tree.old.shows }
{
    let (from, to) = (bound_of(high_kind, high), bound_of(low_kind, low));
    let page = Page::new(tree.table(), Order::Descending, from, to, entries.len());
    let (written, next) = write_page(page, bytes, entries);
    *count = written;
    tell_page(written, entries.len(), next, key_len, len)
}

/// Tells whether a page has pairs, or why it has none, by the lengths of the first.
fn tell_page(
    count: usize,
    room: usize,
    next: Option<(usize, usize)>,
    key_len: &mut usize,
    len: &mut usize,
) -> u8
    ensures { (left : List (List ℕ × List ℕ)) → (count ≡ 0 → next ≡ first_told lengths_of left)
        → TellsPageSo lengths_of count room left result
        (key_len.old, len.old) (key_len.new, len.new) }
{
    if count > 0 {
        return DONE;
    }
    let Some((key, value)) = next else {
        return ABSENT;
    };
    if room == 0 {
        return NO_ENTRIES;
    }
    *key_len = key;
    *len = value;
    TOO_SMALL
}

/// Writes the first pairs of a page. Gives how many have room, and where none has, how long the key
/// is of the first and its value, if there is one.
fn write_page(
    mut page: Page<'_, '_, Bytes>,
    bytes: &mut [u8],
    entries: &mut [RartBytesEntry],
) -> (usize, Option<(usize, usize)>)
    requires { IsAt page (start_of page) }
    ensures { (left : List (List ℕ × List ℕ))
        × WritesStrings (pairs_from page.entry (start_of page.entry)) left
        result.0 bytes.new entries.old entries.new
        × (result.0 ≡ 0 → result.1 ≡ first_told lengths_of left) }
{
    let mut last = None;
    let mut end = 0;
    let mut count = 0;
    loop {
        if count > 0 && count == entries.len() {
            return (count, None);
        }
        let Some((len, value)) = page.next(bytes, last, end) else {
            return (count, None);
        };
        let string = value.as_slice();
        if has_no_room(bytes.len() - end, len, string.len()) || count == entries.len() {
            return (count, Some((len, string.len())));
        }
        let (start, key_end) = (end, end + len);
        put(bytes, key_end, string);
        end = key_end + string.len();
        last = Some((start, key_end));
        entries[count] = RartBytesEntry { key_end, end };
        count += 1;
    }
}

/// Whether two lengths are more than there is room for.
fn has_no_room(room: usize, len: usize, value_len: usize) -> bool
    ensures { IsTrue result ↔ (room < len + value_len) }
{
    room < len || room - len < value_len
}

/// Writes a value over other bytes, from a place on.
fn put(bytes: &mut [u8], at: usize, value: &[u8])
    requires { at + length value.now ≤ length bytes.old }
    ensures kept { take at bytes.new ≡ take at bytes.old }
    ensures value { take (length value.now) (drop at bytes.new) ≡ value.now }
{
    let (_, room) = bytes.split_at_mut(at);
    room[..value.len()].copy_from_slice(value);
}
