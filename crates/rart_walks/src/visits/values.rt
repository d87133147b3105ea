// Ported from rart 0.11.0 (Apache-2.0), and rewritten.
//! Visits of values alone.
ghost use Rattle.std.specs.Prelude.{◌+◌, ◌≤◌, OnOk, length, map};
ghost use Rattle.rart_maps.specs.Visits.{ByValue, Visitable, VisitableUntil, Visits, VisitsUntil};
ghost use Rattle.rart_node.specs.Counts.{CountsUpTo};
ghost use Rattle.rart_walks.specs.Ends.{ByPairValue, Ends, EntersUpTo};
ghost use Rattle.rart_walks.specs.WalkFields.{at_hand, cursor, IsWalk};

use crate::walk::Walk;
use rart_below::{Partial, Refusal, VisitControl};
use rart_node::{KeyPath, Work};
use std::alloc::AllocError;

/// Calls the closure on each value that a walk has left. It enters a node at least for each, but
/// for one at hand.
///
/// Refused for memory, it has called it on a prefix of them.
pub fn visit_values<'a, P: Partial, V: Drop, T: KeyPath<'a>, F: FnMut(&V)>(
    mut walk: Walk<'a, P, V, T>,
    f: &mut F,
    work: &mut Work,
) -> Result<(), AllocError>
    requires walk { IsWalk T.holds T.extent T.greatest walk }
    requires visitable { Visitable F.FnMut ByValue f.old
        (map (λ pair. pair.1) (cursor walk).pairs) }
    ensures visits { Visits F.FnMut ByValue result f.old
        (map (λ pair. pair.1) (cursor walk.entry).pairs) f.new }
    ensures counted { CountsUpTo (length (cursor walk.entry).paths) 0 work.old work.new }
    ensures each { OnOk result (work.old.entered + length (cursor walk.entry).pairs
        ≤ work.new.entered + at_hand walk.entry) }
{
    'visiting: while let Some(value) = walk.next_value(work)? {
        f(value);
    }
    Ok(())
}

/// Calls the closure on each value that a walk has left, up to the first on which it answers `Stop`
/// or an error. Its error is answered as `Refusal::Callback`. It enters no node behind the one of
/// that value.
///
/// Refused for memory, the answer is `Refusal::Memory`: it has called the closure on a prefix of
/// them, and each time the closure answered `Continue`.
pub fn visit_values_until<
    'a,
    P: Partial,
    V: Drop,
    T: KeyPath<'a>,
    E: Drop,
    F: FnMut(&V) -> Result<VisitControl, E>,
>(mut walk: Walk<'a, P, V, T>, f: &mut F, work: &mut Work) -> Result<(), Refusal<E>>
    requires walk { IsWalk T.holds T.extent T.greatest walk }
    requires visitable { VisitableUntil F.FnMut ByValue f.old
        (map (λ pair. pair.1) (cursor walk).pairs) }
    ensures visits { VisitsUntil F.FnMut ByValue result f.old
        (map (λ pair. pair.1) (cursor walk.entry).pairs) f.new }
    ensures counted { CountsUpTo (length (cursor walk.entry).paths) 0 work.old work.new }
    ensures ends { let left = cursor walk.entry in
        let through = work.old.entered + length left.pairs
        ≤ work.new.entered + at_hand walk.entry in
        let ended = EntersUpTo left.paths (at_hand walk.entry) work.old work.new in
        Ends F.FnMut ByPairValue through ended result f.old left.pairs f.new }
{
    'visiting: loop {
        let value = match walk.next_node(work) {
            Ok(Some(Some(value))) => value,
            Ok(Some(None)) => continue 'visiting,
            Ok(None) => return Ok(()),
            Err(refused) => return Err(Refusal::Memory(refused)),
        };
        match f(value) {
            Ok(VisitControl::Continue) => {}
            Ok(VisitControl::Stop) => return Ok(()),
            Err(error) => return Err(Refusal::Callback(error)),
        }
    }
}
