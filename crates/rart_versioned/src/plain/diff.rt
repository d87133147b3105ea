// Ported from rart 0.11.0 (Apache-2.0), and rewritten.
//! What changed from one tree to another, with no count.
ghost use Rattle.std.specs.Prelude.{◌≡◌, ◌↔◌, [], length, IfOk, IsTrue};
ghost use Rattle.rart_maps.specs.ChangeLists.{changes};
ghost use Rattle.rart_maps.specs.ChangeVisits.{ByKeyChange, ByViewChange};
ghost use Rattle.rart_maps.specs.Visits.{Visits, Visitable, VisitsUntil, VisitableUntil};

use crate::counted::VersionedAdaptiveRadixTree;
use rart_below::{KeyTrait, LendingKeyView, Refusal, VisitControl};
use rart_node::Work;
use std::alloc::AllocError;

impl<K: KeyTrait, V: Clone + Drop + Eq> VersionedAdaptiveRadixTree<K, V> {
    /// Calls the closure on each key at which the other map differs from this one, in order: with
    /// the key, and references to the value here and there, where there are any. The other way the
    /// changes are the same ones, each reversed.
    ///
    /// Both trees are gone through at once, each node at most once. Refused for memory, it has
    /// called the closure on a prefix of the keys.
    ///
    /// ```
    /// before.diff_with(&after, &mut |name: ArrayKey<16>, old: Option<&u64>, new: Option<&u64>| {
    ///     changed += 1u64;
    /// })?;
    /// ```
    pub fn diff_with<F: FnMut(K, Option<&V>, Option<&V>)>(
        &self,
        other: &VersionedAdaptiveRadixTree<K, V>,
        f: &mut F,
    ) -> Result<(), AllocError>
        requires visitable { Visitable F.FnMut (ByKeyChange K.bytes) f.old
            (changes V.eq self.now.content other.now.content) }
        ensures visits { Visits F.FnMut (ByKeyChange K.bytes) result f.old
            (changes V.eq self.now.content other.now.content) f.new }
    {
        self.diff_with_counted(other, f, &mut Work::new())
    }

    /// As `diff_with`, with a view of the key, which ends with the call. No key is made for it.
    pub fn diff_lending_with<F: FnMut(LendingKeyView<'_, '_>, Option<&V>, Option<&V>)>(
        &self,
        other: &VersionedAdaptiveRadixTree<K, V>,
        f: &mut F,
    ) -> Result<(), AllocError>
        requires visitable { Visitable F.FnMut ByViewChange f.old
            (changes V.eq self.now.content other.now.content) }
        ensures visits { Visits F.FnMut ByViewChange result f.old
            (changes V.eq self.now.content other.now.content) f.new }
    {
        self.diff_lending_with_counted(other, f, &mut Work::new())
    }

    /// As `diff_lending_with`, up to the first key on which the closure answers `Stop` or an error.
    /// Its error is answered as `Refusal::Callback`.
    ///
    /// Refused for memory, the answer is `Refusal::Memory`: it has called the closure on a prefix
    /// of the keys, and each time the closure answered `Continue`.
    pub fn try_diff_lending_with<
        E: Drop,
        F: FnMut(LendingKeyView<'_, '_>, Option<&V>, Option<&V>) -> Result<VisitControl, E>,
    >(&self, other: &VersionedAdaptiveRadixTree<K, V>, f: &mut F) -> Result<(), Refusal<E>>
        requires visitable { VisitableUntil F.FnMut ByViewChange f.old
            (changes V.eq self.now.content other.now.content) }
        ensures visits { VisitsUntil F.FnMut ByViewChange result f.old
            (changes V.eq self.now.content other.now.content) f.new }
    {
        self.try_diff_lending_with_counted(other, f, &mut Work::new())
    }

    /// At how many keys the other map differs from this one. Refused for memory, there is no
    /// answer.
    ///
    /// ```
    /// let changed = before.diff_count(&after)?;
    /// ```
    pub fn diff_count(&self, other: &VersionedAdaptiveRadixTree<K, V>) -> Result<u128, AllocError>
        ensures { IfOk result (λ count. count
            ≡ length (changes V.eq self.now.content other.now.content)) }
    {
        self.diff_count_counted(other, &mut Work::new())
    }

    /// Whether both maps have the same keys, with equal values. Refused for memory, there is no
    /// answer.
    pub fn equals(&self, other: &VersionedAdaptiveRadixTree<K, V>) -> Result<bool, AllocError>
        ensures { IfOk result (λ equal. IsTrue equal
            ↔ (changes V.eq self.now.content other.now.content ≡ [])) }
    {
        self.equals_counted(other, &mut Work::new())
    }
}
