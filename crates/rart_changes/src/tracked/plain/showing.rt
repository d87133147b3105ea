//! What changed, and what is in conflict, with no count.
ghost use Rattle.std.specs.Prelude.{◌≡◌, OnErr};
ghost use Rattle.rart_maps.specs.Visits.{Visits, Visitable};
ghost use Rattle.rart_maps.specs.ChangeLists.{changes};
ghost use Rattle.rart_maps.specs.Merges.{conflicts};
ghost use Rattle.rart_maps.specs.ChangeVisits.{ByKeyChange};
ghost use Rattle.rart_changes.specs.ConflictVisits.{ByConflict};

use crate::tracked::TrackedTree;
use rart_below::KeyTrait;
use rart_versioned::{VersionedAdaptiveRadixTree, Work};
use std::alloc::AllocError;

impl<K: KeyTrait, V: Clone + Drop + Eq> TrackedTree<K, V> {
    /// Calls the closure on each key at which the current version differs from the base, in order:
    /// with the key, and references to the value before and after, where there are any. A touched
    /// key whose values are equal has not changed.
    ///
    /// Refused for memory, the closure is not called.
    pub fn changes_with<F: FnMut(K, Option<&V>, Option<&V>)>(
        &self,
        f: &mut F,
    ) -> Result<(), AllocError>
        requires { Visitable F.FnMut (ByKeyChange K.bytes) f.old
            (changes V.eq self.now.base.content self.now.current.content) }
        ensures visits { Visits F.FnMut (ByKeyChange K.bytes) result f.old
            (changes V.eq self.now.base.content self.now.current.content) f.new }
        ensures refused { OnErr result (f.new ≡ f.old) }
    {
        self.changes_with_counted(f, &mut Work::new())
    }

    /// Calls the closure on each key at which the current version and theirs both differ from the
    /// base, and from each other, in order: with the key, and references to the values of the base,
    /// of the current version and of theirs, where there are any.
    ///
    /// Refused for memory, the closure is not called.
    pub fn conflicts_with<F: FnMut(K, Option<&V>, Option<&V>, Option<&V>)>(
        &self,
        theirs: &VersionedAdaptiveRadixTree<K, V>,
        f: &mut F,
    ) -> Result<(), AllocError>
        requires { Visitable F.FnMut (ByConflict K.bytes) f.old (conflicts V.eq
            self.now.base.content self.now.current.content theirs.now.content) }
        ensures visits { Visits F.FnMut (ByConflict K.bytes) result f.old (conflicts V.eq
            self.now.base.content self.now.current.content theirs.now.content) f.new }
        ensures refused { OnErr result (f.new ≡ f.old) }
    {
        self.conflicts_with_counted(theirs, f, &mut Work::new())
    }
}
