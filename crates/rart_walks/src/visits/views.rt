// Ported from rart 0.11.0 (Apache-2.0), and rewritten.
//! Visits of pairs, their keys lent as views.
ghost use Rattle.std.specs.Prelude.{◌≡◌, ◌+◌, ◌^◌, ◌-◌, ◌≤◌, Some, OnOk, count_by, length};
ghost use Rattle.std.specs.List.{concat};
ghost use Rattle.std.specs.Ordering.{as_partial_cmp};
ghost use Rattle.std.specs.Range.Bound.{bound_map, is_up_to_end};
ghost use Rattle.rart_below.specs.Bytes.{byte_order};
ghost use Rattle.rart_maps.specs.FoundLaws.{KeysAscend};
ghost use Rattle.rart_maps.specs.Visits.{ByView, Visitable, VisitableUntil, Visits, VisitsUntil};
ghost use Rattle.rart_node.specs.Counts.{CountsUpTo};
ghost use Rattle.rart_walks.specs.Ends.{Ends, EntersUpTo};
ghost use Rattle.rart_walks.specs.Visited.{pairs_up_to};
ghost use Rattle.rart_walks.specs.WalkFields.{at_hand, cursor, IsWalk};
ghost use Rattle.rart_node.specs.KeyPaths.{HoldsSegments, extent_in_segments};

use crate::walk::Walk;
use rart_below::{LendingKeyView, Partial, Refusal, VisitControl};
use rart_node::{SegmentsPath, Work};
use std::alloc::AllocError;
use std::cmp::Ordering;
use std::ops::Bound;

/// Calls the closure on each pair that a walk has left: with a view of the key, which ends with the
/// call, and a reference to the value.
///
/// It enters each node that the walk has left, and so one at least for each pair, but for one at
/// hand. Refused for memory, it has called the closure on a prefix of the pairs.
pub fn visit_views<'a, P: Partial, V: Drop, F: FnMut(LendingKeyView<'_, '_>, &V)>(
    mut walk: Walk<'a, P, V, SegmentsPath<'a>>,
    f: &mut F,
    work: &mut Work,
) -> Result<(), AllocError>
    requires walk { IsWalk HoldsSegments extent_in_segments (Some (2 ^ 64 - 1)) walk }
    requires visitable { Visitable F.FnMut ByView f.old (cursor walk).pairs }
    ensures visits { Visits F.FnMut ByView result f.old (cursor walk.entry).pairs f.new }
    ensures counted { CountsUpTo (length (cursor walk.entry).paths) 0 work.old work.new }
    ensures exact { OnOk result
        (work.new.entered ≡ work.old.entered + length (cursor walk.entry).paths) }
    ensures each { OnOk result (work.old.entered + length (cursor walk.entry).pairs
        ≤ work.new.entered + at_hand walk.entry) }
{
    'visiting: while let Some(value) = walk.next_value(work)? {
        f(view_of(walk.key_path()), value);
    }
    Ok(())
}

/// As `visit_views`, up to the first pair on which the closure answers `Stop` or an error. Its error
/// is answered as `Refusal::Callback`. It enters no node behind the one of that pair.
///
/// Refused for memory, the answer is `Refusal::Memory`: it has called the closure on a prefix of
/// the pairs, and each time the closure answered `Continue`.
pub fn visit_views_until<
    'a,
    P: Partial,
    V: Drop,
    E: Drop,
    F: FnMut(LendingKeyView<'_, '_>, &V) -> Result<VisitControl, E>,
>(mut walk: Walk<'a, P, V, SegmentsPath<'a>>, f: &mut F, work: &mut Work) -> Result<(), Refusal<E>>
    requires walk { IsWalk HoldsSegments extent_in_segments (Some (2 ^ 64 - 1)) walk }
    requires visitable { VisitableUntil F.FnMut ByView f.old (cursor walk).pairs }
    ensures visits { VisitsUntil F.FnMut ByView result f.old (cursor walk.entry).pairs f.new }
    ensures counted { CountsUpTo (length (cursor walk.entry).paths) 0 work.old work.new }
    ensures ends { let left = cursor walk.entry in
        let through = work.old.entered + length left.pairs
        ≤ work.new.entered + at_hand walk.entry in
        let ended = EntersUpTo left.paths (at_hand walk.entry) work.old work.new in
        Ends F.FnMut ByView through ended result f.old left.pairs f.new }
{
    'visiting: loop {
        let value = match walk.next_node(work) {
            Ok(Some(Some(value))) => value,
            Ok(Some(None)) => continue 'visiting,
            Ok(None) => return Ok(()),
            Err(refused) => return Err(Refusal::Memory(refused)),
        };
        match f(view_of(walk.key_path()), value) {
            Ok(VisitControl::Continue) => {}
            Ok(VisitControl::Stop) => return Ok(()),
            Err(error) => return Err(Refusal::Callback(error)),
        }
    }
}

/// As `visit_views`, for the pairs up to an upper bound. It ends at the first node past that, with
/// a value or without: so, of the nodes that the walk has left, it enters no more than those whose
/// path meets the bound, and one; and one at least for each pair, but for one at hand.
pub fn visit_views_up_to<'a, P: Partial, V: Drop, F: FnMut(LendingKeyView<'_, '_>, &V)>(
    mut walk: Walk<'a, P, V, SegmentsPath<'a>>,
    high: Bound<&[u8]>,
    f: &mut F,
    work: &mut Work,
) -> Result<(), AllocError>
    requires walk { IsWalk HoldsSegments extent_in_segments (Some (2 ^ 64 - 1)) walk }
    requires ascend { KeysAscend (λ pair. pair.0) (cursor walk).pairs }
    requires visitable { Visitable F.FnMut ByView f.old
        (pairs_up_to (bound_map (λ high. high.now) high) (cursor walk).pairs) }
    ensures visits { Visits F.FnMut ByView result f.old
        (pairs_up_to (bound_map (λ high. high.now) high.entry) (cursor walk.entry).pairs) f.new }
    ensures counted { CountsUpTo (length (cursor walk.entry).paths) 0 work.old work.new }
    ensures few { let within = is_up_to_end (as_partial_cmp byte_order)
        (bound_map (λ high. high.now) high.entry) in
        CountsUpTo (count_by within (cursor walk.entry).paths + 1) 0 work.old work.new }
    ensures each { let pairs = pairs_up_to (bound_map (λ high. high.now) high.entry)
        (cursor walk.entry).pairs in
        OnOk result (work.old.entered + length pairs ≤ work.new.entered + at_hand walk.entry) }
{
    'visiting: while let Some(value) = walk.next_node(work)? {
        let path = view_of(walk.key_path());
        if !is_up_to(&path, high) {
            return Ok(());
        }
        if let Some(value) = value {
            f(path, value);
        }
    }
    Ok(())
}

/// The path of the node at which a walk stands: where that gives a value, its key.
pub(super) fn view_of<'a, 'view>(key_path: &'view SegmentsPath<'a>) -> LendingKeyView<'a, 'view>
    ensures { result ≡ concat key_path.now }
{
    LendingKeyView::new(key_path.segments(), key_path.len())
}

/// Whether a path meets an upper bound.
fn is_up_to(path: &LendingKeyView<'_, '_>, high: Bound<&[u8]>) -> bool
    ensures { result ≡ is_up_to_end (as_partial_cmp byte_order)
        (bound_map (λ high. high.now) high.entry) path.now }
{
    match high {
        Bound::Included(high) => path.cmp_slice(high) != Ordering::Greater,
        Bound::Excluded(high) => path.cmp_slice(high) == Ordering::Less,
        Bound::Unbounded => true,
    }
}
