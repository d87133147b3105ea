// Ported from rart 0.11.0 (Apache-2.0), and rewritten.
//! What changed from one tree to another, and its counts.
ghost use Rattle.std.specs.Prelude.{◌≡◌, ◌↔◌, ◌+◌, ◌<◌, ◌≤◌, ℕ, List, [], false, length, IfOk, IsTrue, OnOk};
ghost use Rattle.rart_maps.specs.ChangeLists.{changes};
ghost use Rattle.rart_maps.specs.ChangeVisits.{ByKeyChange, ByViewChange};
ghost use Rattle.rart_maps.specs.Bounds.{node_count};
ghost use Rattle.rart_maps.specs.Versions.{has_no_key};
ghost use Rattle.rart_maps.specs.Visits.{Visits, Visitable, VisitsUntil, VisitableUntil};
ghost use Rattle.rart_node.specs.Counts.{CountsUpTo};
ghost use Rattle.rart_versioned.specs.TreeWalks.{AreWalks};
ghost use Rattle.rart_versioned.specs.VisitCounts.{CountsDiff, EndsAtFirst, node_count_to};
ghost use Rattle.rart_walks.specs.DiffEnds.{nodes_to};
ghost use Rattle.rart_walks.specs.WalkFields.{at_hand, cursor};

use crate::counted::tree::VersionedAdaptiveRadixTree;
use rart_below::{KeyTrait, LendingKeyView, Partial, Refusal, VisitControl};
use rart_node::Work;
use rart_walks::{
    BytesPath, Walk, are_equal, count_changes, visit_changed_keys, visit_changed_views,
    visit_changed_views_until,
};
use std::alloc::AllocError;

impl<K: KeyTrait, V: Clone + Drop + Eq> VersionedAdaptiveRadixTree<K, V> {
    /// As `diff_with`, with the nodes entered counted into `work`: one for each key of either map,
    /// and one for each other string at which keys of it part. Refused for memory, it has entered
    /// no more, and one at least where there is a key in either map.
    pub fn diff_with_counted<F: FnMut(K, Option<&V>, Option<&V>)>(
        &self,
        other: &VersionedAdaptiveRadixTree<K, V>,
        f: &mut F,
        work: &mut Work,
    ) -> Result<(), AllocError>
        requires visitable { Visitable F.FnMut (ByKeyChange K.bytes) f.old
            (changes V.eq self.now.content other.now.content) }
        ensures visits { Visits F.FnMut (ByKeyChange K.bytes) result f.old
            (changes V.eq self.now.content other.now.content) f.new }
        ensures counted { CountsUpTo (node_count self.now.content + node_count other.now.content) 0
            work.old work.new }
        ensures entered { has_no_key self.now ≡ false → work.old.entered < work.new.entered }
        ensures entered_other { has_no_key other.now ≡ false → work.old.entered < work.new.entered }
        ensures exact { OnOk result (work.new.entered ≡ work.old.entered
            + (node_count self.now.content + node_count other.now.content)) }
    {
        let (old, new) = self.both_walks(other, work)?;
        visit_changed_keys(self.alloc, old, new, f, work)
    }

    /// As `diff_lending_with`, with the nodes entered counted into `work`, as many as in
    /// `diff_with_counted`.
    pub fn diff_lending_with_counted<F: FnMut(LendingKeyView<'_, '_>, Option<&V>, Option<&V>)>(
        &self,
        other: &VersionedAdaptiveRadixTree<K, V>,
        f: &mut F,
        work: &mut Work,
    ) -> Result<(), AllocError>
        requires visitable { Visitable F.FnMut ByViewChange f.old
            (changes V.eq self.now.content other.now.content) }
        ensures visits { Visits F.FnMut ByViewChange result f.old
            (changes V.eq self.now.content other.now.content) f.new }
        ensures counted { CountsUpTo (node_count self.now.content + node_count other.now.content) 0
            work.old work.new }
        ensures entered { has_no_key self.now ≡ false → work.old.entered < work.new.entered }
        ensures entered_other { has_no_key other.now ≡ false → work.old.entered < work.new.entered }
        ensures exact { OnOk result (work.new.entered ≡ work.old.entered
            + (node_count self.now.content + node_count other.now.content)) }
    {
        let (old, new) = self.both_walks(other, work)?;
        visit_changed_views(old, new, f, work)
    }

    /// As `try_diff_lending_with`, with the nodes entered counted into `work`: as many as in
    /// `diff_with_counted`, and no more where it is refused. Where the closure ends it, none is
    /// entered of either tree that is behind its first key from that of the change on, and one at
    /// least for each change.
    pub fn try_diff_lending_with_counted<
        E: Drop,
        F: FnMut(LendingKeyView<'_, '_>, Option<&V>, Option<&V>) -> Result<VisitControl, E>,
    >(
        &self,
        other: &VersionedAdaptiveRadixTree<K, V>,
        f: &mut F,
        work: &mut Work,
    ) -> Result<(), Refusal<E>>
        requires visitable { VisitableUntil F.FnMut ByViewChange f.old
            (changes V.eq self.now.content other.now.content) }
        ensures visits { VisitsUntil F.FnMut ByViewChange result f.old
            (changes V.eq self.now.content other.now.content) f.new }
        ensures counted { CountsUpTo (node_count self.now.content + node_count other.now.content) 0
            work.old work.new }
        ensures entered { has_no_key self.now ≡ false → work.old.entered < work.new.entered }
        ensures entered_other { has_no_key other.now ≡ false → work.old.entered < work.new.entered }
        ensures ends { CountsDiff F.FnMut ByViewChange V.eq f.old self.now.content
            other.now.content result f.new work.old work.new }
    {
        match self.both_walks(other, work) {
            Ok((old, new)) => visit_changed_views_until(old, new, f, work),
            Err(refused) => Err(Refusal::Memory(refused)),
        }
    }

    /// As `diff_count`, with the nodes entered counted into `work`, as many as in
    /// `diff_with_counted`.
    pub fn diff_count_counted(
        &self,
        other: &VersionedAdaptiveRadixTree<K, V>,
        work: &mut Work,
    ) -> Result<u128, AllocError>
        ensures count { IfOk result (λ count. count
            ≡ length (changes V.eq self.now.content other.now.content)) }
        ensures counted { CountsUpTo (node_count self.now.content + node_count other.now.content) 0
            work.old work.new }
        ensures entered { has_no_key self.now ≡ false → work.old.entered < work.new.entered }
        ensures entered_other { has_no_key other.now ≡ false → work.old.entered < work.new.entered }
        ensures exact { OnOk result (work.new.entered ≡ work.old.entered
            + (node_count self.now.content + node_count other.now.content)) }
    {
        // (either map has at most as many keys as its number says, so the count fits)
        self.know_keys_for_proof();
        other.know_keys_for_proof();
        let (old, new) = self.both_walks(other, work)?;
        count_changes(old, new, work)
    }

    /// As `equals`, with the nodes entered counted into `work`: as many as in
    /// `try_diff_lending_with_counted` of a closure that ends it at the first change.
    pub fn equals_counted(
        &self,
        other: &VersionedAdaptiveRadixTree<K, V>,
        work: &mut Work,
    ) -> Result<bool, AllocError>
        ensures equal { IfOk result (λ equal. IsTrue equal
            ↔ (changes V.eq self.now.content other.now.content ≡ [])) }
        ensures counted { CountsUpTo (node_count self.now.content + node_count other.now.content) 0
            work.old work.new }
        ensures entered { has_no_key self.now ≡ false → work.old.entered < work.new.entered }
        ensures entered_other { has_no_key other.now ≡ false → work.old.entered < work.new.entered }
        ensures ends { OnOk result (EndsAtFirst self.now.content other.now.content
            work.old work.new (changes V.eq self.now.content other.now.content)) }
    {
        let (old, new) = self.both_walks(other, work)?;
        are_equal(old, new, work)
    }

    /// Walks over all pairs of both. They enter the roots, where there are any. What was entered,
    /// and what the walks have left to enter, are all nodes of both.
    fn both_walks<'a>(
        &'a self,
        other: &'a VersionedAdaptiveRadixTree<K, V>,
        work: &mut Work,
    ) -> Result<
        (
            Walk<'a, K::PartialType, V, BytesPath>,
            Walk<'a, K::PartialType, V, BytesPath>,
        ),
        AllocError,
    >
        ensures walks { IfOk result (λ walks. AreWalks V.eq K.MAXIMUM_SIZE self.now other.now
            walks.0 walks.1) }
        ensures nodes { IfOk result (λ walks. work.new.entered
            + (length (cursor walks.0).paths + length (cursor walks.1).paths)
            ≡ work.old.entered + (node_count self.now.content + node_count other.now.content)) }
        ensures to { IfOk result (λ walks. (key : List ℕ) → work.new.entered
            + (nodes_to key walks.0 + nodes_to key walks.1) ≤ work.old.entered
            + (node_count_to self.now.content key + node_count_to other.now.content key)) }
        ensures held { IfOk result (λ walks. work.old.entered
            + (at_hand walks.0 + at_hand walks.1) ≤ work.new.entered) }
        ensures counted { CountsUpTo (node_count self.now.content + node_count other.now.content) 0
            work.old work.new }
        ensures entered { has_no_key self.now ≡ false → work.old.entered < work.new.entered }
        ensures entered_other { has_no_key other.now ≡ false → work.old.entered < work.new.entered }
    {
        let old = self.whole_walk(work)?;
        let new = other.whole_walk(work)?;
        Ok((old, new))
    }
}
