//! Visits of pairs from the last to the first, their keys lent as views. rart has none.
ghost use Rattle.std.specs.Prelude.{◌≡◌, ◌+◌, ◌^◌, ◌-◌, ◌≤◌, Some, OnOk, length};
ghost use Rattle.rart_maps.specs.Visits.{ByView, Visitable, VisitableUntil, Visits, VisitsUntil};
ghost use Rattle.rart_node.specs.Counts.{CountsUpTo};
ghost use Rattle.rart_walks.specs.BackFields.{IsWalkBack, at_hand, back_cursor};
ghost use Rattle.rart_walks.specs.Ends.{Ends};
ghost use Rattle.rart_node.specs.KeyPaths.{HoldsSegments};
ghost use Rattle.rart_walks.specs.OnWay.{EntersOnWay};

use super::views::view_of;
use crate::walk_back::WalkBack;
use rart_below::{LendingKeyView, Partial, Refusal, VisitControl};
use rart_node::{SegmentsPath, Work};
use std::alloc::AllocError;

/// Calls the closure on each pair that a walk back has left: with a view of the key, which ends
/// with the call, and a reference to the value.
///
/// It enters each node that the walk has left, and so one at least for each pair, but for those at
/// hand. Refused for memory, it has called the closure on a prefix of the pairs.
pub fn visit_views_back<'a, P: Partial, V: Drop, F: FnMut(LendingKeyView<'_, '_>, &V)>(
    mut walk: WalkBack<'a, P, V, SegmentsPath<'a>>,
    f: &mut F,
    work: &mut Work,
) -> Result<(), AllocError>
    requires walk { IsWalkBack HoldsSegments (Some (2 ^ 64 - 1)) walk }
    requires visitable { Visitable F.FnMut ByView f.old (back_cursor walk).pairs }
    ensures visits { Visits F.FnMut ByView result f.old (back_cursor walk.entry).pairs f.new }
    ensures counted { CountsUpTo (length (back_cursor walk.entry).paths) 0 work.old work.new }
    ensures exact { OnOk result
        (work.new.entered ≡ work.old.entered + length (back_cursor walk.entry).paths) }
    ensures each { OnOk result (work.old.entered + length (back_cursor walk.entry).pairs
        ≤ work.new.entered + at_hand walk.entry) }
{
    'visiting: while let Some(value) = walk.next_value(work)? {
        f(view_of(walk.key_path()), value);
    }
    Ok(())
}

/// As `visit_views_back`, up to the first pair on which the closure answers `Stop` or an error. Its
/// error is answered as `Refusal::Callback`. Then each node that it entered is on the way to a key
/// that the closure was called on.
///
/// Refused for memory, the answer is `Refusal::Memory`: it has called the closure on a prefix of
/// the pairs, and each time the closure answered `Continue`.
pub fn visit_views_back_until<
    'a,
    P: Partial,
    V: Drop,
    E: Drop,
    F: FnMut(LendingKeyView<'_, '_>, &V) -> Result<VisitControl, E>,
>(
    mut walk: WalkBack<'a, P, V, SegmentsPath<'a>>,
    f: &mut F,
    work: &mut Work,
) -> Result<(), Refusal<E>>
    requires walk { IsWalkBack HoldsSegments (Some (2 ^ 64 - 1)) walk }
    requires visitable { VisitableUntil F.FnMut ByView f.old (back_cursor walk).pairs }
    ensures visits { VisitsUntil F.FnMut ByView result f.old (back_cursor walk.entry).pairs f.new }
    ensures counted { CountsUpTo (length (back_cursor walk.entry).paths) 0 work.old work.new }
    ensures ends { let left = back_cursor walk.entry in
        let through = work.old.entered + length left.pairs
        ≤ work.new.entered + at_hand walk.entry in
        let ended = EntersOnWay left.paths (at_hand walk.entry) work.old work.new in
        Ends F.FnMut ByView through ended result f.old left.pairs f.new }
{
    'visiting: loop {
        let value = match walk.next_node(work) {
            Ok(Some(Some(value))) => value,
            Ok(Some(None)) => continue 'visiting,
            Ok(None) => return Ok(()),
            Err(refused) => return Err(Refusal::Memory(refused)),
        };
        match f(view_of(walk.key_path()), value) {
            Ok(VisitControl::Continue) => {}
            Ok(VisitControl::Stop) => return Ok(()),
            Err(error) => return Err(Refusal::Callback(error)),
        }
    }
}
