//! Visitors over a tree from the last key to the first, with no count. rart has none.
ghost use Rattle.std.specs.Prelude.{reverse};
ghost use Rattle.rart_maps.specs.Pairs.{pairs};
ghost use Rattle.rart_maps.specs.Visits.{ByView, Visits, Visitable, VisitsUntil, VisitableUntil};

use crate::counted::VersionedAdaptiveRadixTree;
use rart_below::{KeyTrait, LendingKeyView, Refusal, VisitControl};
use rart_node::Work;
use std::alloc::AllocError;

impl<K: KeyTrait, V: Clone + Drop> VersionedAdaptiveRadixTree<K, V> {
    /// Calls the closure on each pair, from the last key to the first: with a view of the key,
    /// which ends with the call, and a reference to the value.
    ///
    /// Refused for memory, it has called the closure on the first of these pairs, or on none.
    ///
    /// ```
    /// let mut oldest = 0;
    /// log.for_each_view_rev(&mut |_day: LendingKeyView<'_, '_>, entry: &u64| {
    ///     oldest = *entry;
    /// })?;
    /// ```
    pub fn for_each_view_rev<F: FnMut(LendingKeyView<'_, '_>, &V)>(
        &self,
        f: &mut F,
    ) -> Result<(), AllocError>
        requires visitable { Visitable F.FnMut ByView f.old (reverse (pairs self.now.content)) }
        ensures visits { Visits F.FnMut ByView result f.old (reverse (pairs self.now.content))
            f.new }
    {
        self.for_each_view_rev_counted(f, &mut Work::new())
    }

    /// As `for_each_view_rev`, up to the first pair on which the closure answers `Stop` or an
    /// error. Its error is answered as `Refusal::Callback`, and then the visit has ended there too.
    ///
    /// Refused for memory, the answer is `Refusal::Memory`: it has called the closure on the pairs
    /// from the last one to some other, and each time the closure answered `Continue`.
    ///
    /// ```
    /// let mut newest = 0;
    /// log.try_for_each_view_rev(
    ///     &mut |_day: LendingKeyView<'_, '_>, entry: &u64| -> Result<VisitControl, Overflow> {
    ///         newest = *entry;
    ///         Ok(VisitControl::Stop)
    ///     },
    /// )?;
    /// ```
    pub fn try_for_each_view_rev<
        E: Drop,
        F: FnMut(LendingKeyView<'_, '_>, &V) -> Result<VisitControl, E>,
    >(&self, f: &mut F) -> Result<(), Refusal<E>>
        requires visitable { VisitableUntil F.FnMut ByView f.old
            (reverse (pairs self.now.content)) }
        ensures { VisitsUntil F.FnMut ByView result f.old (reverse (pairs self.now.content))
            f.new }
    {
        self.try_for_each_view_rev_counted(f, &mut Work::new())
    }
}
