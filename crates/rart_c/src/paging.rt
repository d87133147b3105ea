//! What C calls to read a page: the pairs within two bounds, as many as there is room for.
ghost use Rattle.std.specs.Prelude.{◌≡◌, ◌≤◌, ◌==◌, ◌∷◌, ℕ, IfOk, List, OnErr, OnOk, drop, length, not, reverse, take};
ghost use Rattle.std.specs.Option.{ForSome};
ghost use Rattle.std.specs.Range.Bound.{bound_map};
ghost use Rattle.std.specs.declared.ops.Bound.{Bound};
ghost use Rattle.std.specs.declared.ops.Bound.TheVariants.{Excluded, Unbounded};
ghost use Rattle.rart_c.specs.Pages.{FindsFirst, IsAt, IsCursorFor, TellsPage, WritesPage, bound_behind, bound_of, first_length, is_before_end, pairs_from, range_in, start_of};
ghost use Rattle.rart_c.specs.Shown.{shown};
ghost use Rattle.rart_maps.specs.Pairs.{within};
ghost use Rattle.rart_maps.specs.Versions.{Map};
ghost use Rattle.rart_ways.specs.Firsts.{Finds};

mod cursor;

use crate::answer::{ABSENT, DONE, NO_ENTRIES, TOO_SMALL};
use crate::handle::RartTree;
use crate::lent;
use crate::paging::cursor::PageCursor;
use crate::table::Table;
use rart_below::{is_from, is_up_to};
use std::alloc::AllocError;
use std::ops::Bound;

/// The bound is a key that meets it.
pub const INCLUDED: u8 = 0;

/// The bound is a key that doesn't meet it.
pub const EXCLUDED: u8 = 1;

/// Each key meets the bound. Any greater number says so too.
pub const UNBOUNDED: u8 = 2;

/// A page of at most so many entries is found by searching.
const FEW: usize = 1;

/// The order in which a page has its pairs.
#[derive(Clone, Copy, PartialEq, Eq)]
pub(crate) enum Order {
    Ascending,
    Descending,
}

/// Where the key of an entry ends among the bytes of its page, and its value.
#[repr(C)]
#[derive(Clone, Copy)]
pub struct RartEntry {
    pub end: usize,
    pub value: u64,
}

/// Writes the first pairs within two bounds, as many as there is room for: their keys one behind
/// the other to the front of `bytes`, an entry of each to the front of `entries`, and how many they
/// are to `count`. What `bytes` has behind the keys is unspecified; `entries` is as before there.
/// Answers `DONE` where it has a pair, else `count` is 0: the next page begins `EXCLUDED` at a copy
/// of the last key, and pages are asked for until none is there, which answers `ABSENT`.
/// `NO_ENTRIES` says that `entries` has no room for one that is there, `TOO_SMALL` that the first
/// key is longer than `bytes`, and writes its length to `needed`. A bound is of the kind
/// `INCLUDED`, `EXCLUDED` or `UNBOUNDED`. Memory that it takes to walk it gives back, and where it
/// lacks some it searches from key to key: it is never refused.
#[unsafe(no_mangle)]
pub extern "C" fn rart_page(
    tree: &mut RartTree,
    low: &[u8],
    low_kind: u8,
    high: &[u8],
    high_kind: u8,
    bytes: &mut [u8],
    entries: &mut [RartEntry],
    count: &mut usize,
    needed: &mut usize,
) -> u8
    ensures page { (left : List (List ℕ × ℕ))
        × WritesPage (within tree.old.shows.version.content (bound_of low_kind low.now)
        (bound_of high_kind high.now)) left count.new bytes.new entries.old entries.new
        × TellsPage count.new (length entries.old) left result needed.old needed.new }
    ensures same { tree.new.shows ≡ tree.old.shows }
{
    let (low, high) = (bound_of(low_kind, low), bound_of(high_kind, high));
    let page = Page::new(tree.table(), Order::Ascending, low, high, entries.len());
    let (written, next) = write_page(page, bytes, entries);
    *count = written;
    tell_page(written, entries.len(), next, needed)
}

/// As `rart_page`, from the last pair back: the last pairs within two bounds, descending, as many
/// as there is room for. The next page has a copy of the key that was written last for its `high`,
/// which is `EXCLUDED` then.
#[unsafe(no_mangle)]
pub extern "C" fn rart_page_back(
    tree: &mut RartTree,
    low: &[u8],
    low_kind: u8,
    high: &[u8],
    high_kind: u8,
    bytes: &mut [u8],
    entries: &mut [RartEntry],
    count: &mut usize,
    needed: &mut usize,
) -> u8
    ensures page { (left : List (List ℕ × ℕ))
        × WritesPage (reverse (within tree.old.shows.version.content (bound_of low_kind low.now)
        (bound_of high_kind high.now))) left count.new bytes.new entries.old entries.new
        × TellsPage count.new (length entries.old) left result needed.old needed.new }
    ensures same { tree.new.shows ≡ tree.old.shows }
{
    let (from, to) = (bound_of(high_kind, high), bound_of(low_kind, low));
    let page = Page::new(tree.table(), Order::Descending, from, to, entries.len());
    let (written, next) = write_page(page, bytes, entries);
    *count = written;
    tell_page(written, entries.len(), next, needed)
}

/// The bound of this kind at a key.
pub(crate) fn bound_of(kind: u8, key: &[u8]) -> Bound<&[u8]>
    ensures { bound_map (λ key. key.now) result ≡ bound_of kind key.now }
{
    if kind == INCLUDED {
        return Bound::Included(key);
    }
    if kind == EXCLUDED {
        return Bound::Excluded(key);
    }
    Bound::Unbounded
}

/// Tells whether a page has pairs, or why it has none, by how long the key is of the first.
fn tell_page(count: usize, room: usize, next: Option<usize>, needed: &mut usize) -> u8
    ensures { (left : List (List ℕ × ℕ)) → (count ≡ 0 → next ≡ first_length left)
        → TellsPage count room left result needed.old needed.new }
{
    if count > 0 {
        return DONE;
    }
    let Some(len) = next else {
        return ABSENT;
    };
    if room == 0 {
        return NO_ENTRIES;
    }
    *needed = len;
    TOO_SMALL
}

/// Writes the first pairs of a page. Gives how many have room, and where none has, how long the key
/// is of the first, if there is one.
fn write_page(
    mut page: Page<'_, '_, u64>,
    bytes: &mut [u8],
    entries: &mut [RartEntry],
) -> (usize, Option<usize>)
    requires { IsAt page (start_of page) }
    ensures { (left : List (List ℕ × ℕ))
        × WritesPage (pairs_from page.entry (start_of page.entry)) left
        result.0 bytes.new entries.old entries.new
        × (result.0 ≡ 0 → result.1 ≡ first_length left) }
{
    let mut last = None;
    let mut end = 0;
    let mut count = 0;
    loop {
        if count > 0 && count == entries.len() {
            return (count, None);
        }
        let Some((len, value)) = page.next(bytes, last, end) else {
            return (count, None);
        };
        if bytes.len() - end < len || count == entries.len() {
            return (count, Some(len));
        }
        let start = end;
        end += len;
        last = Some((start, end));
        entries[count] = RartEntry { end, value: *value };
        count += 1;
    }
}

/// The pairs of a table, or of none, from one bound to another in an order: a page has the first of
/// them. A cursor, where there is one, has left those that aren't written yet, to the last of all.
#[derive(Drop)]
pub(crate) struct Page<'t, 'b, V: Clone + Drop> {
    table: Option<&'t Table<V>>,
    order: Order,
    from: Bound<&'b [u8]>,
    to: Bound<&'b [u8]>,
    cursor: Option<PageCursor<'t, V>>,
}

impl<'t, 'b, V: Clone + Drop> Page<'t, 'b, V> {
    /// A page for so many pairs. A few are found sooner by searching, so it has no cursor then, nor
    /// where memory is refused.
    pub(crate) fn new(
        table: Option<&'t Table<V>>,
        order: Order,
        from: Bound<&'b [u8]>,
        to: Bound<&'b [u8]>,
        room: usize,
    ) -> Page<'t, 'b, V>
        ensures pairs { pairs_from result (start_of result)
            ≡ range_in order (shown table.entry).version.content
            (bound_map (λ from. from.now) from.entry) (bound_map (λ to. to.now) to.entry) }
        ensures cursor { IsAt result (start_of result) }
    {
        let cursor = if room <= FEW {
            None
        } else {
            cursor_for(table, order, from)
        };
        Page {
            table,
            order,
            from,
            to,
            cursor,
        }
    }

    /// The first of the pairs behind the last key that was written, which begins and ends here; or
    /// of all of them, where none was. Its key is written from `end` on, if it fits. Where the
    /// cursor lacks memory it is let go, and the pair is found by searching: so none is refused.
    pub(crate) fn next(
        &mut self,
        bytes: &mut [u8],
        last: Option<(usize, usize)>,
        end: usize,
    ) -> Option<(usize, &'t V)>
        requires end { end ≤ length bytes.old }
        requires last { ForSome last (λ last. (last.0 ≤ last.1) × (last.1 ≤ end)) }
        requires cursor { IsAt self.old
            (bound_behind last (start_of self.old) (take end bytes.old)) }
        ensures kept { take end bytes.new ≡ take end bytes.old }
        ensures first { FindsFirst (pairs_from self.old
            (bound_behind last (start_of self.old) (take end bytes.old))) result
            (drop end bytes.old) (drop end bytes.new) }
        ensures cursor { (key : List ℕ) (value : V) (others : List (List ℕ × V))
            → pairs_from self.old (bound_behind last (start_of self.old) (take end bytes.old))
            ≡ (key, value) ∷ others → IsAt self.new (Excluded key) }
        ensures same { (from : Bound (List ℕ))
            → pairs_from self.new from ≡ pairs_from self.old from }
    {
        let (written, room) = bytes.split_at_mut(end);
        if let Some(open) = &mut self.cursor {
            if let Ok(found) = next_of(open, self.order, self.to, room) {
                return found;
            }
        }
        self.cursor = None;
        self.first_behind(written, last, room)
    }

    /// The same by searching: `written` is what stands before `end`, `room` what is behind it.
    fn first_behind(
        &self,
        written: &[u8],
        last: Option<(usize, usize)>,
        room: &mut [u8],
    ) -> Option<(usize, &'t V)>
        requires { ForSome last (λ last. (last.0 ≤ last.1) × (last.1 ≤ length written.now)) }
        ensures { FindsFirst (pairs_from self.now
            (bound_behind last (start_of self.now) written.now)) result room.old room.new }
    {
        match last {
            None => self.first(self.from, room),
            Some((start, stop)) => {
                let from = Bound::Excluded(&written[..stop][start..]);
                self.first(from, room)
            }
        }
    }

    /// The first of the pairs from a bound on, if there is one. Where its key doesn't fit, whether
    /// it meets the other bound is asked of the table.
    fn first(&self, from: Bound<&[u8]>, room: &mut [u8]) -> Option<(usize, &'t V)>
        ensures { FindsFirst (pairs_from self.now (bound_map (λ from. from.now) from.entry)) result
            room.old room.new }
    {
        let Some((len, value)) = self.first_of_all(from, room) else {
            return None;
        };
        let is_within = if len <= room.len() {
            meets(&room[..len], self.order, self.to)
        } else {
            self.has_any(from)
        };
        if is_within { Some((len, value)) } else { None }
    }

    /// The same whether or not it meets the other bound.
    fn first_of_all(&self, from: Bound<&[u8]>, room: &mut [u8]) -> Option<(usize, &'t V)>
        ensures { Finds (range_in self.now.order (shown self.now.table).version.content
            (bound_map (λ from. from.now) from.entry) Unbounded) result room.old room.new }
    {
        match self.order {
            Order::Ascending => lent::first(self.table, from, room),
            Order::Descending => lent::last(self.table, from, room),
        }
    }

    /// Whether there is a pair from a bound on.
    fn has_any(&self, from: Bound<&[u8]>) -> bool
        ensures { result ≡ not (length
            (pairs_from self.now (bound_map (λ from. from.now) from.entry)) == 0) }
    {
        match self.order {
            Order::Ascending => lent::has_within(self.table, from, self.to),
            Order::Descending => lent::has_within(self.table, self.to, from),
        }
    }
}

/// A cursor before the pairs from a bound on, in an order.
fn cursor_for<'t, V: Clone + Drop>(
    table: Option<&'t Table<V>>,
    order: Order,
    from: Bound<&[u8]>,
) -> Option<PageCursor<'t, V>>
    ensures { ForSome result (IsCursorFor order (shown table.entry).version.content
        (bound_map (λ from. from.now) from.entry)) }
{
    match order {
        Order::Ascending => Some(PageCursor::Onward(lent::cursor(table, from)?)),
        Order::Descending => Some(PageCursor::Back(lent::cursor_back(table, from)?)),
    }
}

/// The next pair of a cursor, where its key meets the bound to which pairs go in an order. The key
/// is written to the front of the room, if it fits. Refused for memory, the room is as before.
fn next_of<'t, V: Drop>(
    cursor: &mut PageCursor<'t, V>,
    order: Order,
    to: Bound<&[u8]>,
    room: &mut [u8],
) -> Result<Option<(usize, &'t V)>, AllocError>
    ensures first { (m : Map V) (from : Bound (List ℕ)) → IsCursorFor order m from cursor.old
        → IfOk result (λ found. FindsFirst
        (range_in order m from (bound_map (λ to. to.now) to.entry)) found room.old room.new) }
    ensures left { (m : Map V) (from : Bound (List ℕ)) → IsCursorFor order m from cursor.old
        → (key : List ℕ) (value : V) (others : List (List ℕ × V))
        → range_in order m from (bound_map (λ to. to.now) to.entry) ≡ (key, value) ∷ others
        → OnOk result (IsCursorFor order m (Excluded key) cursor.new) }
    ensures refused { OnErr result (room.new ≡ room.old) }
{
    let Some(value) = cursor.next_value()? else {
        return Ok(None);
    };
    let key = cursor.key();
    if !meets(key, order, to) {
        return Ok(None);
    }
    write_key(key, room);
    Ok(Some((key.len(), value)))
}

/// Writes a key to the front of the room, if it fits.
fn write_key(key: &[u8], room: &mut [u8])
    ensures written { length key.now ≤ length room.old → take (length key.now) room.new ≡ key.now }
    ensures behind { drop (length key.now) room.new ≡ drop (length key.now) room.old }
{
    if key.len() <= room.len() {
        room[..key.len()].copy_from_slice(key);
    }
}

/// Whether a key meets the bound to which pairs go in an order.
fn meets(key: &[u8], order: Order, to: Bound<&[u8]>) -> bool
    ensures { result ≡ is_before_end order (bound_map (λ to. to.now) to.entry) key.now }
{
    match order {
        Order::Ascending => is_up_to(key, to),
        Order::Descending => is_from(key, to),
    }
}
