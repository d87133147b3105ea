// Ported from rart 0.11.0 (Apache-2.0), and rewritten.
//! Visitors over a tree, and their counts.
ghost use Rattle.std.specs.Prelude.{◌≡◌, ◌+◌, ◌<◌, ◌≤◌, [], false, length, map, OnOk};
ghost use Rattle.std.specs.Range.Bound.{bound_map};
ghost use Rattle.rart_maps.specs.Bounds.{lookup_bound, node_count, range_bound, reach_bound, reach_by_pairs};
ghost use Rattle.rart_maps.specs.Pairs.{pairs, prefix_matches, under, within};
ghost use Rattle.rart_maps.specs.Versions.{has_no_key};
ghost use Rattle.rart_maps.specs.Visits.{BySlice, ByValue, ByView, Visit, Visits, Visitable, VisitsUntil, VisitableUntil};
ghost use Rattle.rart_node.specs.Counts.{CountsUpTo};
ghost use Rattle.rart_walks.specs.Ends.{ByPairValue};
ghost use Rattle.rart_versioned.specs.VisitCounts.{CountsVisit};

use crate::counted::tree::VersionedAdaptiveRadixTree;
use crate::counted::walks::bytes_of;
use rart_below::{KeyTrait, LendingKeyView, Partial, Refusal, VisitControl};
use rart_node::{NodeRef, Work};
use rart_walks::{
    NoPath, SegmentsPath, Walk, visit_values, visit_values_until, visit_views, visit_views_until,
    visit_views_up_to,
};
use rart_ways::visit_prefix_matches;
use std::alloc::AllocError;
use std::ops::Bound;

impl<K: KeyTrait, V: Clone + Drop> VersionedAdaptiveRadixTree<K, V> {
    /// As `prefix_for_each_view_k`, with the nodes entered counted into `work`: at most one more
    /// than the prefix has bytes, and one for each string that the prefix begins and that begins a
    /// key; and at most one more than the prefix has bytes, and two for each key that it begins.
    /// One at least where there is a key in the map, and, where it isn't refused, one for each
    /// pair.
    pub fn prefix_for_each_view_k_counted<F: FnMut(LendingKeyView<'_, '_>, &V)>(
        &self,
        prefix: &K,
        f: &mut F,
        work: &mut Work,
    ) -> Result<(), AllocError>
        requires visitable { Visitable F.FnMut ByView f.old
            (under self.now.content (K.bytes prefix.now)) }
        ensures visits { Visits F.FnMut ByView result f.old
            (under self.now.content (K.bytes prefix.now)) f.new }
        ensures counted { CountsUpTo (reach_bound self.now.content (K.bytes prefix.now)) 0
            work.old work.new }
        ensures counted_by_pairs { CountsUpTo (reach_by_pairs self.now.content
            (K.bytes prefix.now)) 0 work.old work.new }
        ensures entered { has_no_key self.now ≡ false → work.old.entered < work.new.entered }
        ensures each { OnOk result (work.old.entered
            + length (under self.now.content (K.bytes prefix.now)) ≤ work.new.entered) }
    {
        let walk = self.walk_under(prefix.as_ref(), work)?;
        visit_views(walk, f, work)
    }

    /// As `prefix_values_for_each_k`, with the nodes entered counted into `work`: as many at most,
    /// and at least, as in `prefix_for_each_view_k_counted`.
    pub fn prefix_values_for_each_k_counted<F: FnMut(&V)>(
        &self,
        prefix: &K,
        f: &mut F,
        work: &mut Work,
    ) -> Result<(), AllocError>
        requires visitable { Visitable F.FnMut ByValue f.old
            (map (λ pair. pair.1) (under self.now.content (K.bytes prefix.now))) }
        ensures visits { Visits F.FnMut ByValue result f.old
            (map (λ pair. pair.1) (under self.now.content (K.bytes prefix.now))) f.new }
        ensures counted { CountsUpTo (reach_bound self.now.content (K.bytes prefix.now)) 0
            work.old work.new }
        ensures counted_by_pairs { CountsUpTo (reach_by_pairs self.now.content
            (K.bytes prefix.now)) 0 work.old work.new }
        ensures entered { has_no_key self.now ≡ false → work.old.entered < work.new.entered }
        ensures each { OnOk result (work.old.entered
            + length (under self.now.content (K.bytes prefix.now)) ≤ work.new.entered) }
    {
        let walk: Walk<'_, K::PartialType, V, NoPath> = self.walk_under(prefix.as_ref(), work)?;
        visit_values(walk, f, work)
    }

    /// As `try_prefix_values_for_each_k`, with the nodes entered counted into `work`: at most as
    /// many as in `prefix_for_each_view_k_counted`. Where the closure ends it, none is entered
    /// behind the key that it was called on last: at most one for each byte of the prefix and of
    /// that key, two for each value that it was called on, and two. One at least where there is a
    /// key in the map, and, where it isn't refused, one for each value that it was called on.
    pub fn try_prefix_values_for_each_k_counted<E: Drop, F: FnMut(&V) -> Result<VisitControl, E>>(
        &self,
        prefix: &K,
        f: &mut F,
        work: &mut Work,
    ) -> Result<(), Refusal<E>>
        requires visitable { VisitableUntil F.FnMut ByValue f.old
            (map (λ pair. pair.1) (under self.now.content (K.bytes prefix.now))) }
        ensures visits { VisitsUntil F.FnMut ByValue result f.old
            (map (λ pair. pair.1) (under self.now.content (K.bytes prefix.now))) f.new }
        ensures counted { CountsUpTo (reach_bound self.now.content (K.bytes prefix.now)) 0
            work.old work.new }
        ensures counted_by_pairs { CountsUpTo (reach_by_pairs self.now.content
            (K.bytes prefix.now)) 0 work.old work.new }
        ensures entered { has_no_key self.now ≡ false → work.old.entered < work.new.entered }
        ensures ends { CountsVisit F.FnMut ByPairValue (K.bytes prefix.now) f.old
            (under self.now.content (K.bytes prefix.now)) result f.new work.old work.new }
    {
        let walk: Result<Walk<'_, K::PartialType, V, NoPath>, AllocError> = self.walk_under(
            prefix.as_ref(),
            work,
        );
        match walk {
            Ok(walk) => visit_values_until(walk, f, work),
            Err(refused) => Err(Refusal::Memory(refused)),
        }
    }

    /// As `for_each_view`, with the nodes entered counted into `work`: one for each key, and one
    /// for each other string at which keys part. So they are at most twice as many as keys,
    /// whatever was inserted and removed before. Refused for memory, it has entered no more, and
    /// one at least where there is a key.
    pub fn for_each_view_counted<F: FnMut(LendingKeyView<'_, '_>, &V)>(
        &self,
        f: &mut F,
        work: &mut Work,
    ) -> Result<(), AllocError>
        requires visitable { Visitable F.FnMut ByView f.old (pairs self.now.content) }
        ensures visits { Visits F.FnMut ByView result f.old (pairs self.now.content) f.new }
        ensures counted { CountsUpTo (node_count self.now.content) 0 work.old work.new }
        ensures exact { OnOk result
            (work.new.entered ≡ work.old.entered + node_count self.now.content) }
        ensures entered { has_no_key self.now ≡ false → work.old.entered < work.new.entered }
    {
        let walk = self.whole_walk(work)?;
        visit_views(walk, f, work)
    }

    /// As `try_for_each_view`, with the nodes entered counted into `work`: at most as many as in
    /// `for_each_view_counted`. Where the closure ends it, none is entered behind the key that it
    /// was called on last: at most one for each byte of that key, two for each pair that it was
    /// called on, and two. One at least where there is a key in the map, and, where it isn't
    /// refused, one for each pair that it was called on.
    pub fn try_for_each_view_counted<
        E: Drop,
        F: FnMut(LendingKeyView<'_, '_>, &V) -> Result<VisitControl, E>,
    >(&self, f: &mut F, work: &mut Work) -> Result<(), Refusal<E>>
        requires visitable { VisitableUntil F.FnMut ByView f.old (pairs self.now.content) }
        ensures visits { VisitsUntil F.FnMut ByView result f.old (pairs self.now.content) f.new }
        ensures counted { CountsUpTo (node_count self.now.content) 0 work.old work.new }
        ensures entered { has_no_key self.now ≡ false → work.old.entered < work.new.entered }
        ensures ends { CountsVisit F.FnMut ByView [] f.old (pairs self.now.content) result f.new
            work.old work.new }
    {
        let walk: Result<Walk<'_, K::PartialType, V, SegmentsPath<'_>>, AllocError> =
            self.whole_walk(work);
        match walk {
            Ok(walk) => visit_views_until(walk, f, work),
            Err(refused) => Err(Refusal::Memory(refused)),
        }
    }

    /// As `for_each_range_view`, with the nodes entered counted into `work`: at most one for each
    /// byte of either bound, two for each pair within them, and two. A side without a bound has no
    /// byte. Refused for memory, it has entered no more. One at least where there is a key in the
    /// map, and, where it isn't refused, one for each pair.
    pub fn for_each_range_view_counted<F: FnMut(LendingKeyView<'_, '_>, &V)>(
        &self,
        range: (Bound<K>, Bound<K>),
        f: &mut F,
        work: &mut Work,
    ) -> Result<(), AllocError>
        requires visitable { Visitable F.FnMut ByView f.old (within self.now.content
            (bound_map K.bytes range.0) (bound_map K.bytes range.1)) }
        ensures visits { Visits F.FnMut ByView result f.old (within self.now.content
            (bound_map K.bytes range.0) (bound_map K.bytes range.1)) f.new }
        ensures counted { CountsUpTo (range_bound self.now.content
            (bound_map K.bytes range.0) (bound_map K.bytes range.1)) 0
            work.old work.new }
        ensures entered { has_no_key self.now ≡ false → work.old.entered < work.new.entered }
        ensures each { OnOk result (work.old.entered + length (within self.now.content
            (bound_map K.bytes range.0) (bound_map K.bytes range.1)) ≤ work.new.entered) }
    {
        let (low, high) = range;
        self.visit_range(bytes_of(&low), bytes_of(&high), f, work)
    }

    /// As `for_each_range_view_counted`, the bounds by their bytes.
    fn visit_range<F: FnMut(LendingKeyView<'_, '_>, &V)>(
        &self,
        low: Bound<&[u8]>,
        high: Bound<&[u8]>,
        f: &mut F,
        work: &mut Work,
    ) -> Result<(), AllocError>
        requires visitable { Visitable F.FnMut ByView f.old (within self.now.content
            (bound_map (λ low. low.now) low) (bound_map (λ high. high.now) high)) }
        ensures visits { Visits F.FnMut ByView result f.old (within self.now.content
            (bound_map (λ low. low.now) low.entry) (bound_map (λ high. high.now) high.entry))
            f.new }
        ensures counted { CountsUpTo (range_bound self.now.content
            (bound_map (λ low. low.now) low.entry) (bound_map (λ high. high.now) high.entry)) 0
            work.old work.new }
        ensures entered { has_no_key self.now ≡ false → work.old.entered < work.new.entered }
        ensures each { OnOk result (work.old.entered + length (within self.now.content
            (bound_map (λ low. low.now) low.entry) (bound_map (λ high. high.now) high.entry))
            ≤ work.new.entered) }
    {
        let walk = self.walk_from(low, work)?;
        visit_views_up_to(walk, high, f, work)
    }

    /// As `prefix_match_for_each_k`, with the nodes entered counted into `work`: at most one more
    /// than the probe has bytes, and at least one where there is a key in the map, and one for each
    /// pair.
    pub fn prefix_match_for_each_k_counted<F: FnMut(&[u8], &V)>(
        &self,
        probe: &K,
        f: &mut F,
        work: &mut Work,
    )
        requires visitable { Visitable F.FnMut BySlice f.old
            (prefix_matches self.now.content (K.bytes probe.now)) }
        ensures visits { Visit F.FnMut BySlice f.old
            (prefix_matches self.now.content (K.bytes probe.now)) f.new }
        ensures counted { CountsUpTo (lookup_bound (K.bytes probe.now)) 0 work.old work.new }
        ensures entered { has_no_key self.now ≡ false → work.old.entered < work.new.entered }
        ensures each { work.old.entered
            + length (prefix_matches self.now.content (K.bytes probe.now)) ≤ work.new.entered }
    {
        match &self.root {
            None => {}
            Some(root) => visit_prefix_matches(root, probe.as_ref(), f, work),
        }
    }
}
