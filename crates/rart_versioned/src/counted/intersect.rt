// Ported from rart 0.11.0 (Apache-2.0), and rewritten.
//! Intersections of two trees, and their counts.
ghost use Rattle.std.specs.Prelude.{◌≡◌, ◌+◌, ◌*◌, ◌≤◌, false, length, map, IfNone, IfSome, OnOk};
ghost use Rattle.rart_maps.specs.Bounds.{meet_bound};
ghost use Rattle.rart_maps.specs.Pairs.{common};
ghost use Rattle.rart_maps.specs.Versions.{has_no_key};
ghost use Rattle.rart_maps.specs.Visits.{ByKeyPair, ByValuePair, ByViewPair, Visit, Visits, Visitable, VisitsUntil, VisitableUntil};
ghost use Rattle.rart_node.specs.Counts.{CountsUpTo};
ghost use Rattle.rart_versioned.specs.Meets.{AreRoots, HaveNoCommon};
ghost use Rattle.rart_versioned.specs.VisitCounts.{CountsCommon};

use crate::counted::tree::VersionedAdaptiveRadixTree;
use rart_below::{KeyTrait, LendingKeyView, Partial, Refusal, VisitControl};
use rart_lockstep::{
    Ended, ViewsPath, count_common, visit_common, visit_common_keys, visit_common_values,
    without_stop,
};
use rart_node::{KeyPath, NodeRef, Work};
use std::alloc::AllocError;

impl<K: KeyTrait, V: Clone + Drop> VersionedAdaptiveRadixTree<K, V> {
    /// As `intersect_with`, with the nodes entered counted into `work`: at most two for each string
    /// that begins a key of both, so none where either map has no key; at least two where both have
    /// one, and, where it isn't refused, two for each common key.
    pub fn intersect_with_counted<'a, F: FnMut(K, &'a V, &'a V)>(
        &'a self,
        other: &'a VersionedAdaptiveRadixTree<K, V>,
        f: &mut F,
        work: &mut Work,
    ) -> Result<(), AllocError>
        requires visitable { Visitable F.FnMut (ByKeyPair K.bytes) f.old
            (common self.now.content other.now.content) }
        ensures visits { Visits F.FnMut (ByKeyPair K.bytes) result f.old
            (common self.now.content other.now.content) f.new }
        ensures counted { CountsUpTo (meet_bound self.now.content other.now.content) 0
            work.old work.new }
        ensures entered { has_no_key self.now ≡ false → has_no_key other.now ≡ false
            → work.old.entered + 2 ≤ work.new.entered }
        ensures each { OnOk result (work.old.entered
            + 2 * length (common self.now.content other.now.content) ≤ work.new.entered) }
    {
        match self.both_roots(other) {
            None => Ok(()),
            Some((left, right)) => visit_common_keys(self.alloc, left, right, f, work),
        }
    }

    /// As `intersect_lending_with`, with the nodes entered counted into `work`, as many as in
    /// `intersect_with_counted`.
    pub fn intersect_lending_with_counted<'a, F: FnMut(LendingKeyView<'a, '_>, &'a V, &'a V)>(
        &'a self,
        other: &'a VersionedAdaptiveRadixTree<K, V>,
        f: &mut F,
        work: &mut Work,
    ) -> Result<(), AllocError>
        requires visitable { Visitable F.FnMut ByViewPair f.old
            (common self.now.content other.now.content) }
        ensures visits { Visits F.FnMut ByViewPair result f.old
            (common self.now.content other.now.content) f.new }
        ensures counted { CountsUpTo (meet_bound self.now.content other.now.content) 0
            work.old work.new }
        ensures entered { has_no_key self.now ≡ false → has_no_key other.now ≡ false
            → work.old.entered + 2 ≤ work.new.entered }
        ensures each { OnOk result (work.old.entered
            + 2 * length (common self.now.content other.now.content) ≤ work.new.entered) }
    {
        match self.both_roots(other) {
            None => Ok(()),
            Some((left, right)) => {
                let key_path: ViewsPath<'a, V, AllocError> = ViewsPath::new(self.alloc);
                visit_common(key_path, left, right, f, work)
            }
        }
    }

    /// As `try_intersect_lending_with`, with the nodes entered counted into `work`: at most as many
    /// as in `intersect_with_counted`. At least two where both maps have a key, and two for each
    /// common key where it went through all of them.
    pub fn try_intersect_lending_with_counted<
        'a,
        F: FnMut(LendingKeyView<'a, '_>, &'a V, &'a V) -> Result<VisitControl, AllocError>,
    >(
        &'a self,
        other: &'a VersionedAdaptiveRadixTree<K, V>,
        f: &mut F,
        work: &mut Work,
    ) -> Result<(), Refusal<AllocError>>
        requires visitable { VisitableUntil F.FnMut ByViewPair f.old
            (common self.now.content other.now.content) }
        ensures visits { VisitsUntil F.FnMut ByViewPair result f.old
            (common self.now.content other.now.content) f.new }
        ensures counted { CountsUpTo (meet_bound self.now.content other.now.content) 0
            work.old work.new }
        ensures entered { has_no_key self.now ≡ false → has_no_key other.now ≡ false
            → work.old.entered + 2 ≤ work.new.entered }
        ensures ends { CountsCommon F.FnMut ByViewPair f.old
            (common self.now.content other.now.content) result f.new work.old work.new }
    {
        match self.both_roots(other) {
            None => Ok(()),
            Some((left, right)) => {
                let key_path: ViewsPath<'a, V, Ended<AllocError>> = ViewsPath::new(self.alloc);
                without_stop(visit_common(key_path, left, right, f, work))
            }
        }
    }

    /// As `intersect_values_with`, with the nodes entered counted into `work`, as many as in
    /// `intersect_with_counted`.
    pub fn intersect_values_with_counted<'a, F: FnMut(&'a V, &'a V)>(
        &'a self,
        other: &'a VersionedAdaptiveRadixTree<K, V>,
        f: &mut F,
        work: &mut Work,
    )
        requires visitable { Visitable F.FnMut ByValuePair f.old
            (map (λ entry. (entry.1, entry.2)) (common self.now.content other.now.content)) }
        ensures visits { Visit F.FnMut ByValuePair f.old
            (map (λ entry. (entry.1, entry.2)) (common self.now.content other.now.content)) f.new }
        ensures counted { CountsUpTo (meet_bound self.now.content other.now.content) 0
            work.old work.new }
        ensures entered { has_no_key self.now ≡ false → has_no_key other.now ≡ false
            → work.old.entered + 2 ≤ work.new.entered }
        ensures each { work.old.entered
            + 2 * length (common self.now.content other.now.content) ≤ work.new.entered }
    {
        match self.both_roots(other) {
            None => {}
            Some((left, right)) => visit_common_values(left, right, f, work),
        }
    }

    /// As `intersect_count`, with the nodes entered counted into `work`, as many as in
    /// `intersect_with_counted`.
    pub fn intersect_count_counted(
        &self,
        other: &VersionedAdaptiveRadixTree<K, V>,
        work: &mut Work,
    ) -> usize
        ensures count { result ≡ length (common self.now.content other.now.content) }
        ensures counted { CountsUpTo (meet_bound self.now.content other.now.content) 0
            work.old work.new }
        ensures entered { has_no_key self.now ≡ false → has_no_key other.now ≡ false
            → work.old.entered + 2 ≤ work.new.entered }
        ensures each { work.old.entered
            + 2 * length (common self.now.content other.now.content) ≤ work.new.entered }
    {
        match self.both_roots(other) {
            None => 0,
            Some((left, right)) => {
                // (there are at most as many keys as the number says, so a number holds them)
                self.know_keys_for_proof();
                count_common(left, right, work)
            }
        }
    }

    /// The roots of both, unless either has no key.
    fn both_roots<'a>(
        &'a self,
        other: &'a VersionedAdaptiveRadixTree<K, V>,
    ) -> Option<
        (
            &'a NodeRef<K::PartialType, V>,
            &'a NodeRef<K::PartialType, V>,
        ),
    >
        ensures both { IfSome result (λ roots. AreRoots K.MAXIMUM_SIZE roots.0.now.shape
            roots.1.now.shape self.now other.now) }
        ensures lacking { IfNone result (HaveNoCommon self.now other.now) }
    {
        match (&self.root, &other.root) {
            (Some(left), Some(right)) => Some((left, right)),
            _ => None,
        }
    }
}
