//! Where a tracked version and another one are in conflict: keys that both changed since the base,
//! and not to the same.
ghost use Rattle.std.specs.Prelude.{◌≡◌, ◌≤◌, ◌+◌, ◌*◌, [], ◌∷◌, length, map, OnErr, OnOk};
ghost use Rattle.rart_maps.specs.Bounds.{lookup_bound};
ghost use Rattle.rart_maps.specs.Visits.{Visit, Visits, Visitable};
ghost use Rattle.rart_maps.specs.Merges.{conflicts};
ghost use Rattle.rart_changes.specs.ChangeVisits.{lookup_least, lookups_bound};
ghost use Rattle.rart_changes.specs.ConflictVisits.{ByConflict, conflicts_at, conflicts_bound, conflicts_least};
ghost use Rattle.rart_versioned.specs.Counts.{CountsUpTo};

use crate::tracked::TrackedTree;
use crate::tracked::keys::keys_of;
use rart_below::KeyTrait;
use rart_maps::are_in_conflict;
use rart_versioned::{VersionedAdaptiveRadixTree, Work};
use std::alloc::AllocError;

impl<K: KeyTrait, V: Clone + Drop + Eq> TrackedTree<K, V> {
    /// As `conflicts_with`, with the nodes entered counted into `work`: at most two for each
    /// touched key, and for each three more than three times its bytes. So they don't depend on the
    /// size of the maps. Refused for memory, it has entered no more. Else one at least for each
    /// touched key, and one more for each in each of the three versions that has a key.
    pub fn conflicts_with_counted<F: FnMut(K, Option<&V>, Option<&V>, Option<&V>)>(
        &self,
        theirs: &VersionedAdaptiveRadixTree<K, V>,
        f: &mut F,
        work: &mut Work,
    ) -> Result<(), AllocError>
        requires { Visitable F.FnMut (ByConflict K.bytes) f.old (conflicts V.eq
            self.now.base.content self.now.current.content theirs.now.content) }
        ensures visits { Visits F.FnMut (ByConflict K.bytes) result f.old (conflicts V.eq
            self.now.base.content self.now.current.content theirs.now.content) f.new }
        ensures refused { OnErr result (f.new ≡ f.old) }
        ensures counted { CountsUpTo (conflicts_bound self.now.touched) 0 work.old work.new }
        ensures each { OnOk result
            (work.old.entered + conflicts_least self.now theirs.now ≤ work.new.entered) }
    {
        let keys = keys_of(self.alloc, &self.touched, work)?;
        show_conflicts(&self.base, &self.current, theirs, keys, f, work);
        Ok(())
    }
}

// Calls the closure on each of these keys at which three maps are in conflict.
fn show_conflicts<
    K: KeyTrait,
    V: Clone + Drop + Eq,
    F: FnMut(K, Option<&V>, Option<&V>, Option<&V>),
>(
    base: &VersionedAdaptiveRadixTree<K, V>,
    ours: &VersionedAdaptiveRadixTree<K, V>,
    theirs: &VersionedAdaptiveRadixTree<K, V>,
    keys: Vec<K>,
    f: &mut F,
    work: &mut Work,
)
    requires { Visitable F.FnMut (ByConflict K.bytes) f.old (conflicts_at V.eq base.now.content
        ours.now.content theirs.now.content (map K.bytes keys.items)) }
    ensures visits { Visit F.FnMut (ByConflict K.bytes) f.old (conflicts_at V.eq base.now.content
        ours.now.content theirs.now.content (map K.bytes keys.items)) f.new }
    ensures counted { CountsUpTo (lookups_bound 3 (map K.bytes keys.items)) 0 work.old work.new }
    ensures each { work.old.entered + length keys.items
        * (lookup_least base.now + lookup_least ours.now + lookup_least theirs.now)
        ≤ work.new.entered }
{
    for key in keys {
        show_conflict(base, ours, theirs, key, f, work);
    }
}

// Calls the closure on a key where three maps are in conflict at it.
fn show_conflict<
    K: KeyTrait,
    V: Clone + Drop + Eq,
    F: FnMut(K, Option<&V>, Option<&V>, Option<&V>),
>(
    base: &VersionedAdaptiveRadixTree<K, V>,
    ours: &VersionedAdaptiveRadixTree<K, V>,
    theirs: &VersionedAdaptiveRadixTree<K, V>,
    key: K,
    f: &mut F,
    work: &mut Work,
)
    requires { Visitable F.FnMut (ByConflict K.bytes) f.old (conflicts_at V.eq base.now.content
        ours.now.content theirs.now.content (K.bytes key ∷ [])) }
    ensures visits { Visit F.FnMut (ByConflict K.bytes) f.old (conflicts_at V.eq base.now.content
        ours.now.content theirs.now.content (K.bytes key ∷ [])) f.new }
    ensures counted { CountsUpTo (3 * lookup_bound (K.bytes key)) 0 work.old work.new }
    ensures entered { work.old.entered
        + (lookup_least base.now + lookup_least ours.now + lookup_least theirs.now)
        ≤ work.new.entered }
{
    let before = base.get_k_counted(&key, work);
    let our = ours.get_k_counted(&key, work);
    let their = theirs.get_k_counted(&key, work);
    if are_in_conflict(before, our, their) {
        f(key, before, our, their);
    }
}
