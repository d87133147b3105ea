//! Visitors over a tree from the last key to the first, and their counts. rart has none.
ghost use Rattle.std.specs.Prelude.{◌≡◌, ◌+◌, ◌<◌, [], false, reverse, OnOk};
ghost use Rattle.rart_maps.specs.Bounds.{node_count};
ghost use Rattle.rart_maps.specs.Pairs.{pairs};
ghost use Rattle.rart_maps.specs.Versions.{has_no_key};
ghost use Rattle.rart_maps.specs.Visits.{ByView, Visits, Visitable, VisitsUntil, VisitableUntil};
ghost use Rattle.rart_node.specs.Counts.{CountsUpTo};
ghost use Rattle.rart_versioned.specs.VisitCounts.{CountsVisit};

use crate::counted::tree::VersionedAdaptiveRadixTree;
use rart_below::{KeyTrait, LendingKeyView, Refusal, VisitControl};
use rart_node::Work;
use rart_walks::{SegmentsPath, WalkBack, visit_views_back, visit_views_back_until};
use std::alloc::AllocError;

impl<K: KeyTrait, V: Clone + Drop> VersionedAdaptiveRadixTree<K, V> {
    /// As `for_each_view_rev`, with the nodes entered counted into `work`: as many as in
    /// `for_each_view_counted`.
    pub fn for_each_view_rev_counted<F: FnMut(LendingKeyView<'_, '_>, &V)>(
        &self,
        f: &mut F,
        work: &mut Work,
    ) -> Result<(), AllocError>
        requires visitable { Visitable F.FnMut ByView f.old (reverse (pairs self.now.content)) }
        ensures visits { Visits F.FnMut ByView result f.old (reverse (pairs self.now.content))
            f.new }
        ensures counted { CountsUpTo (node_count self.now.content) 0 work.old work.new }
        ensures exact { OnOk result
            (work.new.entered ≡ work.old.entered + node_count self.now.content) }
        ensures entered { has_no_key self.now ≡ false → work.old.entered < work.new.entered }
    {
        let walk = self.whole_walk_back(work)?;
        visit_views_back(walk, f, work)
    }

    /// As `try_for_each_view_rev`, with the nodes entered counted into `work`: at most as many as
    /// in `for_each_view_counted`. Where the closure ends it, each node that was entered begins the
    /// key that it was called on last, or stands behind it: at most one for each byte of that key,
    /// two for each pair that it was called on, and two. One at least where there is a key in the
    /// map, and, where it isn't refused, one for each pair that it was called on.
    pub fn try_for_each_view_rev_counted<
        E: Drop,
        F: FnMut(LendingKeyView<'_, '_>, &V) -> Result<VisitControl, E>,
    >(&self, f: &mut F, work: &mut Work) -> Result<(), Refusal<E>>
        requires visitable { VisitableUntil F.FnMut ByView f.old
            (reverse (pairs self.now.content)) }
        ensures visits { VisitsUntil F.FnMut ByView result f.old
            (reverse (pairs self.now.content)) f.new }
        ensures counted { CountsUpTo (node_count self.now.content) 0 work.old work.new }
        ensures entered { has_no_key self.now ≡ false → work.old.entered < work.new.entered }
        ensures ends { CountsVisit F.FnMut ByView [] f.old (reverse (pairs self.now.content))
            result f.new work.old work.new }
    {
        let walk: Result<WalkBack<'_, K::PartialType, V, SegmentsPath<'_>>, AllocError> =
            self.whole_walk_back(work);
        match walk {
            Ok(walk) => visit_views_back_until(walk, f, work),
            Err(refused) => Err(Refusal::Memory(refused)),
        }
    }
}
