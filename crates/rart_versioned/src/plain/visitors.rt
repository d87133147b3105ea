// Ported from rart 0.11.0 (Apache-2.0), and rewritten.
//! Visitors over a tree, with no count.
ghost use Rattle.std.specs.Prelude.{map};
ghost use Rattle.std.specs.Range.Bound.{bound_map};
ghost use Rattle.rart_maps.specs.Pairs.{pairs, prefix_matches, under, within};
ghost use Rattle.rart_maps.specs.Visits.{BySlice, ByValue, ByView, Visit, Visits, Visitable, VisitsUntil, VisitableUntil};

use crate::counted::VersionedAdaptiveRadixTree;
use rart_below::{KeyTrait, LendingKeyView, Refusal, VisitControl};
use rart_node::Work;
use std::alloc::AllocError;
use std::ops::Bound;

impl<K: KeyTrait, V: Clone + Drop> VersionedAdaptiveRadixTree<K, V> {
    /// Calls the closure on each pair, in the order of the keys: with a view of the key, which ends
    /// with the call, and a reference to the value.
    ///
    /// Refused for memory, it has called the closure on a prefix of the pairs. In Rust the
    /// closure is passed by value, and the call never tells of memory.
    ///
    /// ```
    /// let mut longest = 0;
    /// tree.for_each_view(&mut |key: LendingKeyView<'_, '_>, _value: &u64| {
    ///     longest = longest.max(key.len());
    /// })?;
    /// ```
    pub fn for_each_view<F: FnMut(LendingKeyView<'_, '_>, &V)>(
        &self,
        f: &mut F,
    ) -> Result<(), AllocError>
        requires visitable { Visitable F.FnMut ByView f.old (pairs self.now.content) }
        ensures visits { Visits F.FnMut ByView result f.old (pairs self.now.content) f.new }
    {
        self.for_each_view_counted(f, &mut Work::new())
    }

    /// As `for_each_view`, up to the first pair on which the closure answers `Stop` or an error. Its
    /// error is answered as `Refusal::Callback`, and then the visit has ended there too. rart has
    /// none.
    ///
    /// Refused for memory, the answer is `Refusal::Memory`: it has called the closure on a prefix
    /// of the pairs, and each time the closure answered `Continue`.
    ///
    /// ```
    /// let mut shortest = 0;
    /// tree.try_for_each_view(
    ///     &mut |key: LendingKeyView<'_, '_>, _value: &u64| -> Result<VisitControl, Overflow> {
    ///         shortest = key.len();
    ///         Ok(VisitControl::Stop)
    ///     },
    /// )?;
    /// ```
    pub fn try_for_each_view<
        E: Drop,
        F: FnMut(LendingKeyView<'_, '_>, &V) -> Result<VisitControl, E>,
    >(&self, f: &mut F) -> Result<(), Refusal<E>>
        requires visitable { VisitableUntil F.FnMut ByView f.old (pairs self.now.content) }
        ensures { VisitsUntil F.FnMut ByView result f.old (pairs self.now.content) f.new }
    {
        self.try_for_each_view_counted(f, &mut Work::new())
    }

    /// As `for_each_view`, for the pairs within a lower and an upper bound. Both compare by bytes,
    /// and bounds the other way round have no pair between them.
    ///
    /// ```
    /// let mut latest = 0;
    /// let days = (Bound::Included(monday), Bound::Excluded(friday));
    /// log.for_each_range_view(days, &mut |_day: LendingKeyView<'_, '_>, entry: &u64| {
    ///     latest = *entry;
    /// })?;
    /// ```
    pub fn for_each_range_view<F: FnMut(LendingKeyView<'_, '_>, &V)>(
        &self,
        range: (Bound<K>, Bound<K>),
        f: &mut F,
    ) -> Result<(), AllocError>
        requires visitable { Visitable F.FnMut ByView f.old (within self.now.content
            (bound_map K.bytes range.0) (bound_map K.bytes range.1)) }
        ensures visits { Visits F.FnMut ByView result f.old (within self.now.content
            (bound_map K.bytes range.0) (bound_map K.bytes range.1)) f.new }
    {
        self.for_each_range_view_counted(range, f, &mut Work::new())
    }

    /// As `for_each_view`, for the pairs whose key the prefix begins. The prefix may end inside the
    /// bytes that its keys have in common, and the empty one begins every key.
    ///
    /// ```
    /// let mut is_listed = false;
    /// tree.prefix_for_each_view_k(&folder, &mut |path: LendingKeyView<'_, '_>, _size: &u64| {
    ///     is_listed |= path.cmp_slice(name) == Ordering::Equal;
    /// })?;
    /// ```
    pub fn prefix_for_each_view_k<F: FnMut(LendingKeyView<'_, '_>, &V)>(
        &self,
        prefix: &K,
        f: &mut F,
    ) -> Result<(), AllocError>
        requires visitable { Visitable F.FnMut ByView f.old
            (under self.now.content (K.bytes prefix.now)) }
        ensures visits { Visits F.FnMut ByView result f.old
            (under self.now.content (K.bytes prefix.now)) f.new }
    {
        self.prefix_for_each_view_k_counted(prefix, f, &mut Work::new())
    }

    /// As `prefix_for_each_view_k`, the prefix by value.
    pub fn prefix_for_each_view<F: FnMut(LendingKeyView<'_, '_>, &V)>(
        &self,
        prefix: K,
        f: &mut F,
    ) -> Result<(), AllocError>
        requires visitable { Visitable F.FnMut ByView f.old
            (under self.now.content (K.bytes prefix)) }
        ensures visits { Visits F.FnMut ByView result f.old
            (under self.now.content (K.bytes prefix)) f.new }
    {
        self.prefix_for_each_view_k(&prefix, f)
    }

    /// Calls the closure on a reference to each value whose key the prefix begins, in the order of
    /// the keys. No key is put together for it.
    ///
    /// Refused for memory, it has called the closure on a prefix of the values. In Rust the
    /// closure is passed by value, and the call never tells of memory.
    ///
    /// ```
    /// let mut greatest = 0;
    /// orders.prefix_values_for_each_k(&customer, &mut |cents: &u64| {
    ///     greatest = greatest.max(*cents);
    /// })?;
    /// ```
    pub fn prefix_values_for_each_k<F: FnMut(&V)>(
        &self,
        prefix: &K,
        f: &mut F,
    ) -> Result<(), AllocError>
        requires visitable { Visitable F.FnMut ByValue f.old
            (map (λ pair. pair.1) (under self.now.content (K.bytes prefix.now))) }
        ensures visits { Visits F.FnMut ByValue result f.old
            (map (λ pair. pair.1) (under self.now.content (K.bytes prefix.now))) f.new }
    {
        self.prefix_values_for_each_k_counted(prefix, f, &mut Work::new())
    }

    /// As `prefix_values_for_each_k`, the prefix by value.
    pub fn prefix_values_for_each<F: FnMut(&V)>(
        &self,
        prefix: K,
        f: &mut F,
    ) -> Result<(), AllocError>
        requires visitable { Visitable F.FnMut ByValue f.old
            (map (λ pair. pair.1) (under self.now.content (K.bytes prefix))) }
        ensures visits { Visits F.FnMut ByValue result f.old
            (map (λ pair. pair.1) (under self.now.content (K.bytes prefix))) f.new }
    {
        self.prefix_values_for_each_k(&prefix, f)
    }

    /// As `prefix_values_for_each_k` for a closure that may end the visit: it goes on up to and
    /// including the first value on which the closure answers `Stop` or an error, which is answered
    /// as `Refusal::Callback`.
    ///
    /// Refused for memory the answer is `Refusal::Memory`: the closure was called on a prefix of
    /// the values, and answered `Continue` each time. In Rust the error stands alone.
    ///
    /// ```
    /// let mut seats = 0u64;
    /// rows.try_prefix_values_for_each_k(&hall, &mut |free: &u64| match seats.checked_add(*free) {
    ///     Some(more) => {
    ///         seats = more;
    ///         Ok(if seats < wanted { VisitControl::Continue } else { VisitControl::Stop })
    ///     }
    ///     None => Err(Overflow),
    /// })?;
    /// ```
    pub fn try_prefix_values_for_each_k<E: Drop, F: FnMut(&V) -> Result<VisitControl, E>>(
        &self,
        prefix: &K,
        f: &mut F,
    ) -> Result<(), Refusal<E>>
        requires visitable { VisitableUntil F.FnMut ByValue f.old
            (map (λ pair. pair.1) (under self.now.content (K.bytes prefix.now))) }
        ensures visits { VisitsUntil F.FnMut ByValue result f.old
            (map (λ pair. pair.1) (under self.now.content (K.bytes prefix.now))) f.new }
    {
        self.try_prefix_values_for_each_k_counted(prefix, f, &mut Work::new())
    }

    /// As `try_prefix_values_for_each_k`, the prefix by value.
    pub fn try_prefix_values_for_each<E: Drop, F: FnMut(&V) -> Result<VisitControl, E>>(
        &self,
        prefix: K,
        f: &mut F,
    ) -> Result<(), Refusal<E>>
        requires visitable { VisitableUntil F.FnMut ByValue f.old
            (map (λ pair. pair.1) (under self.now.content (K.bytes prefix))) }
        ensures visits { VisitsUntil F.FnMut ByValue result f.old
            (map (λ pair. pair.1) (under self.now.content (K.bytes prefix))) f.new }
    {
        self.try_prefix_values_for_each_k(&prefix, f)
    }

    /// Calls the closure on each pair whose key begins the probe, the shortest first: with the part
    /// of the probe that the key is, and a reference to the value. It can't be refused.
    ///
    /// In Rust the closure is passed by value.
    ///
    /// ```
    /// let mut next_hop = 0;
    /// routes.prefix_match_for_each_k(&address, &mut |_route: &[u8], hop: &u64| next_hop = *hop);
    /// ```
    pub fn prefix_match_for_each_k<F: FnMut(&[u8], &V)>(&self, probe: &K, f: &mut F)
        requires visitable { Visitable F.FnMut BySlice f.old
            (prefix_matches self.now.content (K.bytes probe.now)) }
        ensures visits { Visit F.FnMut BySlice f.old
            (prefix_matches self.now.content (K.bytes probe.now)) f.new }
    {
        self.prefix_match_for_each_k_counted(probe, f, &mut Work::new());
    }

    /// As `prefix_match_for_each_k`, the probe by value.
    pub fn prefix_match_for_each<F: FnMut(&[u8], &V)>(&self, probe: K, f: &mut F)
        requires visitable { Visitable F.FnMut BySlice f.old
            (prefix_matches self.now.content (K.bytes probe)) }
        ensures visits { Visit F.FnMut BySlice f.old
            (prefix_matches self.now.content (K.bytes probe)) f.new }
    {
        self.prefix_match_for_each_k(&probe, f);
    }
}
