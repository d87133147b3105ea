// Ported from rart 0.11.0 (Apache-2.0), and rewritten.
//! The way down a tree to the first of the pairs whose keys meet a lower bound, and to the last of
//! those whose keys meet an upper one.
//!
//! It takes no memory: the key is written, prefix by prefix, into room that the caller has.
ghost use Rattle.std.specs.Prelude.{◌≡◌, ◌+◌, ◌^◌, ◌-◌, ◌<◌, Some, length, reverse};
ghost use Rattle.std.specs.Ordering.{as_partial_cmp};
ghost use Rattle.std.specs.Range.Bound.{is_up_to_end, bound_map};
ghost use Rattle.rart_below.specs.Bytes.{byte_order};
ghost use Rattle.rart_node.specs.Counts.{CountsUpTo};
ghost use Rattle.rart_node.specs.Trees.{IsTree, pairs_of, path_bound};
ghost use Rattle.rart_maps.specs.Bounds.{bound_string};
ghost use Rattle.rart_node.specs.PairsBehind.{AreShort};
ghost use Rattle.rart_ways.specs.Firsts.{Finds, first_passes, found_length};
ghost use Rattle.rart_ways.specs.Lasts.{pairs_reaching, pairs_to};
ghost use Rattle.rart_ways.specs.Starts.{pairs_from, pairs_meeting};

mod end;
mod greatest;
mod least;
mod start;
mod within;

use end::{Last, find_end};
use greatest::greatest;
use least::{least, write_at};
use rart_below::Partial;
use rart_node::{NodeRef, Work};
use start::find_start;
use std::ops::Bound;
use within::least_meets;

/// Whether the string that a bound names is itself within the bound.
#[derive(Clone, Copy)]
pub(crate) enum Edge {
    Included,
    Excluded,
}

/// The first of the pairs below a pointer whose keys meet a lower bound: how many bytes its key
/// has, and a reference to its value. `None` where there is none.
///
/// The key is written to the front of `room`, if it fits there; else what `room` has then is not
/// told. Behind the key, and where there is none, it is as before. At most one node is entered for
/// each byte of the bound and of the key, and one; and the first at least. It takes no memory.
pub fn first_from<'a, P: Partial, V: Drop>(
    root: &'a NodeRef<P, V>,
    low: Bound<&[u8]>,
    room: &mut [u8],
    work: &mut Work,
) -> Option<(usize, &'a V)>
    requires tree { IsTree root.now.shape }
    requires short { AreShort (Some (2 ^ 64 - 1)) (pairs_of root.now.shape) }
    ensures first { Finds (pairs_meeting (bound_map (λ low. low.now) low.entry) root.now.shape)
        result room.old room.new }
    ensures counted { let from = bound_string (bound_map (λ low. low.now) low.entry) in
        CountsUpTo (path_bound root.now.shape from + found_length result) 0 work.old work.new }
    ensures entered { work.old.entered < work.new.entered }
{
    match low {
        Bound::Included(low) => first_behind(root, low, Edge::Included, room, work),
        Bound::Excluded(low) => first_behind(root, low, Edge::Excluded, room, work),
        Bound::Unbounded => first_behind(root, &[], Edge::Included, room, work),
    }
}

/// The first of the pairs from a string on, or behind it.
fn first_behind<'a, P: Partial, V: Drop>(
    root: &'a NodeRef<P, V>,
    low: &[u8],
    edge: Edge,
    room: &mut [u8],
    work: &mut Work,
) -> Option<(usize, &'a V)>
    requires tree { IsTree root.now.shape }
    requires short { AreShort (Some (2 ^ 64 - 1)) (pairs_of root.now.shape) }
    ensures first { Finds (pairs_from edge low.now root.now.shape) result room.old room.new }
    ensures counted { CountsUpTo (path_bound root.now.shape low.now + found_length result) 0
        work.old work.new }
    ensures entered { work.old.entered < work.new.entered }
{
    let (path, start) = find_start(root, low, edge, work)?;
    Some(least(start, path, room, work))
}

/// The last of the pairs below a pointer whose keys meet an upper bound, told as by `first_from`:
/// at most one node is entered for each byte of the bound and of the key, and one; and the first at
/// least. It takes no memory.
pub fn last_to<'a, P: Partial, V: Drop>(
    root: &'a NodeRef<P, V>,
    high: Bound<&[u8]>,
    room: &mut [u8],
    work: &mut Work,
) -> Option<(usize, &'a V)>
    requires tree { IsTree root.now.shape }
    requires short { AreShort (Some (2 ^ 64 - 1)) (pairs_of root.now.shape) }
    ensures last { Finds (reverse (pairs_reaching (bound_map (λ high. high.now) high.entry)
        root.now.shape)) result room.old room.new }
    ensures counted { let to = bound_string (bound_map (λ high. high.now) high.entry) in
        CountsUpTo (path_bound root.now.shape to + found_length result) 0 work.old work.new }
    ensures entered { work.old.entered < work.new.entered }
{
    match high {
        Bound::Included(high) => last_before(root, high, Edge::Included, room, work),
        Bound::Excluded(high) => last_before(root, high, Edge::Excluded, room, work),
        Bound::Unbounded => Some(greatest(root.open(work), &[], room, work)),
    }
}

/// The last of the pairs up to a string, or before it.
fn last_before<'a, P: Partial, V: Drop>(
    root: &'a NodeRef<P, V>,
    high: &[u8],
    edge: Edge,
    room: &mut [u8],
    work: &mut Work,
) -> Option<(usize, &'a V)>
    requires tree { IsTree root.now.shape }
    requires short { AreShort (Some (2 ^ 64 - 1)) (pairs_of root.now.shape) }
    ensures last { Finds (reverse (pairs_to edge high.now root.now.shape)) result
        room.old room.new }
    ensures counted { CountsUpTo (path_bound root.now.shape high.now + found_length result) 0
        work.old work.new }
    ensures entered { work.old.entered < work.new.entered }
{
    let (path, last) = find_end(root, high, edge, work)?;
    match last {
        Last::Value(value) => Some((write_at(room, 0, path), value)),
        Last::Below(node) => Some(greatest(node, path, room, work)),
    }
}

/// Whether the first of the pairs below a pointer whose keys meet a lower bound meets an upper one.
///
/// At most one node is entered for each byte of both bounds, and three; and the first at least. It
/// takes no memory.
pub fn has_within<P: Partial, V: Drop>(
    root: &NodeRef<P, V>,
    low: Bound<&[u8]>,
    high: Bound<&[u8]>,
    work: &mut Work,
) -> bool
    requires tree { IsTree root.now.shape }
    requires short { AreShort (Some (2 ^ 64 - 1)) (pairs_of root.now.shape) }
    ensures passes { let from = bound_map (λ low. low.now) low.entry in
        let to = bound_map (λ high. high.now) high.entry in
        result ≡ first_passes (is_up_to_end (as_partial_cmp byte_order) to)
        (pairs_meeting from root.now.shape) }
    ensures counted { let from = bound_string (bound_map (λ low. low.now) low.entry) in
        let to = bound_string (bound_map (λ high. high.now) high.entry) in
        CountsUpTo (path_bound root.now.shape from + length to + 2) 0 work.old work.new }
    ensures entered { work.old.entered < work.new.entered }
{
    match low {
        Bound::Included(low) => has_behind(root, low, Edge::Included, high, work),
        Bound::Excluded(low) => has_behind(root, low, Edge::Excluded, high, work),
        Bound::Unbounded => has_behind(root, &[], Edge::Included, high, work),
    }
}

/// Whether the first of the pairs from a string on, or behind it, meets an upper bound.
fn has_behind<P: Partial, V: Drop>(
    root: &NodeRef<P, V>,
    low: &[u8],
    edge: Edge,
    high: Bound<&[u8]>,
    work: &mut Work,
) -> bool
    requires tree { IsTree root.now.shape }
    requires short { AreShort (Some (2 ^ 64 - 1)) (pairs_of root.now.shape) }
    ensures passes { let to = bound_map (λ high. high.now) high.entry in
        result ≡ first_passes (is_up_to_end (as_partial_cmp byte_order) to)
        (pairs_from edge low.now root.now.shape) }
    ensures counted { let to = bound_string (bound_map (λ high. high.now) high.entry) in
        CountsUpTo (path_bound root.now.shape low.now + length to + 2) 0 work.old work.new }
    ensures entered { work.old.entered < work.new.entered }
{
    let Some((path, start)) = find_start(root, low, edge, work) else {
        return false;
    };
    match high {
        Bound::Included(high) => least_meets(start, path, high, Edge::Included, work),
        Bound::Excluded(high) => least_meets(start, path, high, Edge::Excluded, work),
        Bound::Unbounded => true,
    }
}
