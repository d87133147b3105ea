//! What changed from the base to the current version: a visit of the touched keys.
ghost use Rattle.std.specs.Prelude.{◌≡◌, ◌≤◌, ◌+◌, ◌*◌, [], ◌∷◌, length, map, OnErr, OnOk};
ghost use Rattle.rart_versioned.specs.Counts.{CountsUpTo};
ghost use Rattle.rart_maps.specs.Bounds.{lookup_bound};
ghost use Rattle.rart_maps.specs.Visits.{Visit, Visits, Visitable};
ghost use Rattle.rart_maps.specs.ChangeLists.{changes};
ghost use Rattle.rart_changes.specs.ChangeVisits.{changes_at, changes_bound, changes_least, lookup_least, lookups_bound};
ghost use Rattle.rart_maps.specs.ChangeVisits.{ByKeyChange};

use crate::tracked::TrackedTree;
use crate::tracked::keys::keys_of;
use rart_below::KeyTrait;
use rart_maps::do_differ;
use rart_versioned::{VersionedAdaptiveRadixTree, Work};
use std::alloc::AllocError;

impl<K: KeyTrait, V: Clone + Drop + Eq> TrackedTree<K, V> {
    /// As `changes_with`, with the nodes entered counted into `work`: at most two for each touched
    /// key, and for each two more than twice its bytes. So they don't depend on the size of the
    /// maps. Refused for memory, it has entered no more. Else one at least for each touched key,
    /// and one more for each in each of both versions that has a key.
    pub fn changes_with_counted<F: FnMut(K, Option<&V>, Option<&V>)>(
        &self,
        f: &mut F,
        work: &mut Work,
    ) -> Result<(), AllocError>
        requires { Visitable F.FnMut (ByKeyChange K.bytes) f.old
            (changes V.eq self.now.base.content self.now.current.content) }
        ensures visits { Visits F.FnMut (ByKeyChange K.bytes) result f.old
            (changes V.eq self.now.base.content self.now.current.content) f.new }
        ensures refused { OnErr result (f.new ≡ f.old) }
        ensures counted { CountsUpTo (changes_bound self.now.touched) 0 work.old work.new }
        ensures each { OnOk result
            (work.old.entered + changes_least self.now ≤ work.new.entered) }
    {
        let keys = keys_of(self.alloc, &self.touched, work)?;
        show_changes(&self.base, &self.current, keys, f, work);
        Ok(())
    }
}

// Calls the closure on each of these keys at which two maps differ.
fn show_changes<K: KeyTrait, V: Clone + Drop + Eq, F: FnMut(K, Option<&V>, Option<&V>)>(
    old: &VersionedAdaptiveRadixTree<K, V>,
    new: &VersionedAdaptiveRadixTree<K, V>,
    keys: Vec<K>,
    f: &mut F,
    work: &mut Work,
)
    requires { Visitable F.FnMut (ByKeyChange K.bytes) f.old
        (changes_at V.eq old.now.content new.now.content (map K.bytes keys.items)) }
    ensures visits { Visit F.FnMut (ByKeyChange K.bytes) f.old
        (changes_at V.eq old.now.content new.now.content (map K.bytes keys.items)) f.new }
    ensures counted { CountsUpTo (lookups_bound 2 (map K.bytes keys.items)) 0 work.old work.new }
    ensures each { work.old.entered
        + length keys.items * (lookup_least old.now + lookup_least new.now) ≤ work.new.entered }
{
    for key in keys {
        show_change(old, new, key, f, work);
    }
}

// Calls the closure on a key where two maps differ at it.
fn show_change<K: KeyTrait, V: Clone + Drop + Eq, F: FnMut(K, Option<&V>, Option<&V>)>(
    old: &VersionedAdaptiveRadixTree<K, V>,
    new: &VersionedAdaptiveRadixTree<K, V>,
    key: K,
    f: &mut F,
    work: &mut Work,
)
    requires { Visitable F.FnMut (ByKeyChange K.bytes) f.old
        (changes_at V.eq old.now.content new.now.content (K.bytes key ∷ [])) }
    ensures visits { Visit F.FnMut (ByKeyChange K.bytes) f.old
        (changes_at V.eq old.now.content new.now.content (K.bytes key ∷ [])) f.new }
    ensures counted { CountsUpTo (2 * lookup_bound (K.bytes key)) 0 work.old work.new }
    ensures entered { work.old.entered + (lookup_least old.now + lookup_least new.now)
        ≤ work.new.entered }
{
    let before = old.get_k_counted(&key, work);
    let after = new.get_k_counted(&key, work);
    if do_differ(before, after) {
        f(key, before, after);
    }
}
