//! Which of two trees has the first key.
ghost use Rattle.rart_walks.specs.SideFields.{ComesFirst, IsAtFirst};

use crate::diff::side::Side;
use rart_below::Partial;
use std::cmp::Ordering;

/// The order of the keys that two sides stand at: a side without one comes last. `None` where
/// neither has one.
pub(crate) fn order_of<P: Partial, V: Drop>(
    before: &Side<'_, P, V>,
    after: &Side<'_, P, V>,
) -> Option<Ordering>
    requires before { IsAtFirst before.now }
    requires after { IsAtFirst after.now }
    ensures { ComesFirst before.now after.now result }
{
    match (before.has_key(), after.has_key()) {
        (false, false) => None,
        (true, false) => Some(Ordering::Less),
        (false, true) => Some(Ordering::Greater),
        (true, true) => Some(before.key().cmp(after.key())),
    }
}
