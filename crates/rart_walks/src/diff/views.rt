//! Visits of the changes, their keys lent as views.
ghost use Rattle.std.specs.Prelude.{◌≡◌, ◌+◌, OnOk};
ghost use Rattle.std.specs.Option.{option_copied};
ghost use Rattle.rart_maps.specs.ChangeVisits.{ByViewChange};
ghost use Rattle.rart_maps.specs.Visits.{CallableOn, CalledOn, Visits, Visitable, VisitsUntil, VisitableUntil};
ghost use Rattle.rart_node.specs.Counts.{CountsUpTo};
ghost use Rattle.rart_walks.specs.DiffEnds.{EntersTo};
ghost use Rattle.rart_walks.specs.Ends.{Ends};
ghost use Rattle.rart_walks.specs.TwoWalks.{GoTogether, changes_ahead, nodes_ahead};

use crate::diff::changes::ChangeWalk;
use crate::walk::Walk;
use rart_below::{LendingKeyView, Partial, Refusal, VisitControl};
use rart_node::{BytesPath, Work};
use std::alloc::AllocError;

/// As `visit_changed_keys`, with a view of the key, which ends with the call.
pub fn visit_changed_views<
    'a,
    P: Partial,
    V: Drop + Eq,
    F: FnMut(LendingKeyView<'_, '_>, Option<&V>, Option<&V>),
>(
    old: Walk<'a, P, V, BytesPath>,
    new: Walk<'a, P, V, BytesPath>,
    f: &mut F,
    work: &mut Work,
) -> Result<(), AllocError>
    requires walks { GoTogether old new }
    requires visitable { Visitable F.FnMut ByViewChange f.old (changes_ahead V.eq old new) }
    ensures visits { Visits F.FnMut ByViewChange result f.old
        (changes_ahead V.eq old.entry new.entry) f.new }
    ensures counted { CountsUpTo (nodes_ahead old.entry new.entry) 0 work.old work.new }
    ensures exact { OnOk result
        (work.new.entered ≡ work.old.entered + nodes_ahead old.entry new.entry) }
{
    let mut changes = ChangeWalk::new(old, new);
    'visiting: while let Some((before, after)) = changes.next(work)? {
        show(changes.key(), before, after, f);
    }
    Ok(())
}

/// As `visit_changed_views`, up to the first key on which the closure answers `Stop` or an error.
/// Its error is answered as `Refusal::Callback`. No node is entered then that is behind the first
/// key of its tree from that one on.
///
/// Refused for memory, the answer is `Refusal::Memory`: it has called the closure on a prefix of
/// them, and each time the closure answered `Continue`.
pub fn visit_changed_views_until<
    'a,
    P: Partial,
    V: Drop + Eq,
    E: Drop,
    F: FnMut(LendingKeyView<'_, '_>, Option<&V>, Option<&V>) -> Result<VisitControl, E>,
>(
    old: Walk<'a, P, V, BytesPath>,
    new: Walk<'a, P, V, BytesPath>,
    f: &mut F,
    work: &mut Work,
) -> Result<(), Refusal<E>>
    requires walks { GoTogether old new }
    requires visitable { VisitableUntil F.FnMut ByViewChange f.old (changes_ahead V.eq old new) }
    ensures visits { VisitsUntil F.FnMut ByViewChange result f.old
        (changes_ahead V.eq old.entry new.entry) f.new }
    ensures counted { CountsUpTo (nodes_ahead old.entry new.entry) 0 work.old work.new }
    ensures ends { let through = work.new.entered
        ≡ work.old.entered + nodes_ahead old.entry new.entry in
        let ended = EntersTo old.entry new.entry work.old work.new in
        Ends F.FnMut ByViewChange through ended result f.old
        (changes_ahead V.eq old.entry new.entry) f.new }
{
    let mut changes = ChangeWalk::new(old, new);
    'visiting: loop {
        let (before, after) = match changes.next(work) {
            Ok(Some(values)) => values,
            Ok(None) => return Ok(()),
            Err(refused) => return Err(Refusal::Memory(refused)),
        };
        match show(changes.key(), before, after, f) {
            Ok(VisitControl::Continue) => {}
            Ok(VisitControl::Stop) => return Ok(()),
            Err(error) => return Err(Refusal::Callback(error)),
        }
    }
}

/// Calls the closure on a change, with a view of its key.
fn show<V, R, F: FnMut(LendingKeyView<'_, '_>, Option<&V>, Option<&V>) -> R>(
    key: &[u8],
    before: Option<&V>,
    after: Option<&V>,
    f: &mut F,
) -> R
    requires { CallableOn F.FnMut ByViewChange f.old
        (key.now, option_copied before, option_copied after) }
    ensures { CalledOn F.FnMut ByViewChange f.old
        (key.now, option_copied before.entry, option_copied after.entry) result f.new }
{
    let segments = [key];
    f(LendingKeyView::new(&segments, key.len()), before, after)
}
