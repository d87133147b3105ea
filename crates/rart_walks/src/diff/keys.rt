//! Visits of the changes, each with a key of its own.
ghost use Rattle.std.specs.Prelude.{◌≡◌, ◌+◌, OnOk};
ghost use Rattle.rart_maps.specs.ChangeVisits.{ByKeyChange};
ghost use Rattle.rart_maps.specs.Visits.{Visits, Visitable};
ghost use Rattle.rart_node.specs.Counts.{CountsUpTo};
ghost use Rattle.rart_walks.specs.Diffs.{AreAdmitted};
ghost use Rattle.rart_walks.specs.TwoWalks.{GoTogether, changes_ahead, nodes_ahead};
ghost use Rattle.rart_walks.specs.WalkFields.{cursor};

use crate::diff::changes::ChangeWalk;
use crate::walk::Walk;
use rart_below::{KeyTrait, Partial};
use rart_node::{BytesPath, Work};
use std::alloc::{AllocError, Global};

/// Calls the closure on each key at which what two walks have left differs, in order: with the key,
/// and references to the value before and after, where there are any.
///
/// It enters the nodes that the walks have left, each once. Refused for memory, it has called the
/// closure on a prefix of the keys, and may not have entered all of them.
pub fn visit_changed_keys<
    'a,
    K: KeyTrait,
    P: Partial,
    V: Drop + Eq,
    F: FnMut(K, Option<&V>, Option<&V>),
>(
    alloc: Global,
    old: Walk<'a, P, V, BytesPath>,
    new: Walk<'a, P, V, BytesPath>,
    f: &mut F,
    work: &mut Work,
) -> Result<(), AllocError>
    requires walks { GoTogether old new }
    requires old_admitted { AreAdmitted K.MAXIMUM_SIZE (cursor old).pairs }
    requires new_admitted { AreAdmitted K.MAXIMUM_SIZE (cursor new).pairs }
    requires visitable { Visitable F.FnMut (ByKeyChange K.bytes) f.old
        (changes_ahead V.eq old new) }
    ensures visits { Visits F.FnMut (ByKeyChange K.bytes) result f.old
        (changes_ahead V.eq old.entry new.entry) f.new }
    ensures counted { CountsUpTo (nodes_ahead old.entry new.entry) 0 work.old work.new }
    ensures exact { OnOk result
        (work.new.entered ≡ work.old.entered + nodes_ahead old.entry new.entry) }
{
    let mut changes = ChangeWalk::new(old, new);
    'visiting: while let Some((before, after)) = changes.next(work)? {
        let key = K::new_from_slice(alloc, changes.key())?;
        f(key, before, after);
    }
    Ok(())
}
