//! How many changes there are, and whether there are any.
ghost use Rattle.std.specs.Prelude.{◌≡◌, ◌↔◌, ◌+◌, ◌<◌, ◌^◌, [], length, IfOk, IsTrue, OnOk};
ghost use Rattle.rart_node.specs.Counts.{CountsUpTo};
ghost use Rattle.rart_walks.specs.DiffEnds.{EntersToFirst};
ghost use Rattle.rart_walks.specs.TwoWalks.{GoTogether, changes_ahead, nodes_ahead};

use crate::diff::changes::ChangeWalk;
use crate::walk::Walk;
use rart_below::Partial;
use rart_node::{BytesPath, Work};
use std::alloc::AllocError;

/// At how many keys what two walks have left differs.
///
/// It enters nodes as `visit_changed_keys` does. Refused for memory, there is no answer.
pub fn count_changes<'a, P: Partial, V: Drop + Eq>(
    old: Walk<'a, P, V, BytesPath>,
    new: Walk<'a, P, V, BytesPath>,
    work: &mut Work,
) -> Result<u128, AllocError>
    requires walks { GoTogether old new }
    requires fits { length (changes_ahead V.eq old new) < 2 ^ 128 }
    ensures count { IfOk result (λ count. count ≡ length (changes_ahead V.eq old.entry new.entry)) }
    ensures counted { CountsUpTo (nodes_ahead old.entry new.entry) 0 work.old work.new }
    ensures exact { OnOk result
        (work.new.entered ≡ work.old.entered + nodes_ahead old.entry new.entry) }
{
    let mut changes = ChangeWalk::new(old, new);
    let mut count = 0u128;
    'counting: while let Some(_values) = changes.next(work)? {
        count += 1;
    }
    Ok(count)
}

/// Whether what two walks have left differs at no key.
///
/// It enters no node that is behind the first key of its tree from the one on at which it does.
/// Refused for memory, there is no answer.
pub fn are_equal<'a, P: Partial, V: Drop + Eq>(
    old: Walk<'a, P, V, BytesPath>,
    new: Walk<'a, P, V, BytesPath>,
    work: &mut Work,
) -> Result<bool, AllocError>
    requires { GoTogether old new }
    ensures equal { IfOk result (λ equal. IsTrue equal
        ↔ (changes_ahead V.eq old.entry new.entry ≡ [])) }
    ensures counted { CountsUpTo (nodes_ahead old.entry new.entry) 0 work.old work.new }
    ensures ends { OnOk result (EntersToFirst old.entry new.entry work.old work.new
        (changes_ahead V.eq old.entry new.entry)) }
{
    let mut changes = ChangeWalk::new(old, new);
    Ok(changes.next(work)?.is_none())
}
