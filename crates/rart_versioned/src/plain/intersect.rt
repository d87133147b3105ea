// Ported from rart 0.11.0 (Apache-2.0), and rewritten.
//! Intersections of two trees, with no count.
ghost use Rattle.std.specs.Prelude.{◌≡◌, length, map};
ghost use Rattle.rart_maps.specs.Pairs.{common};
ghost use Rattle.rart_maps.specs.Visits.{ByKeyPair, ByValuePair, ByViewPair, Visit, Visits, Visitable, VisitsUntil, VisitableUntil};

use crate::counted::VersionedAdaptiveRadixTree;
use rart_below::{KeyTrait, LendingKeyView, Refusal, VisitControl};
use rart_node::Work;
use std::alloc::AllocError;

impl<K: KeyTrait, V: Clone + Drop> VersionedAdaptiveRadixTree<K, V> {
    /// Calls the closure on each key of both maps, in order: with the key and references to what
    /// either map has there, this one's first.
    ///
    /// Both trees are gone down at once, as far as keys of both can lie there. Refused for memory,
    /// which the way to a key and the key itself may take, it has called the closure on a prefix
    /// of the keys. In Rust the closure is passed by value, and the call never tells of memory.
    ///
    /// ```
    /// let mut changed = 0u64;
    /// before.intersect_with(&after, &mut |_name: ArrayKey<16>, old: &u64, new: &u64| {
    ///     changed = changed.saturating_add(u64::from(old != new));
    /// })?;
    /// ```
    pub fn intersect_with<'a, F: FnMut(K, &'a V, &'a V)>(
        &'a self,
        other: &'a VersionedAdaptiveRadixTree<K, V>,
        f: &mut F,
    ) -> Result<(), AllocError>
        requires visitable { Visitable F.FnMut (ByKeyPair K.bytes) f.old
            (common self.now.content other.now.content) }
        ensures visits { Visits F.FnMut (ByKeyPair K.bytes) result f.old
            (common self.now.content other.now.content) f.new }
    {
        self.intersect_with_counted(other, f, &mut Work::new())
    }

    /// As `intersect_with`, with a view of the key, which ends with the call. No key is put
    /// together for it. Its segments may be kept, as the values may.
    ///
    /// ```
    /// let mut longest = 0;
    /// left.intersect_lending_with(&right, &mut |key: LendingKeyView<'_, '_>, _l: &u64, _r: &u64| {
    ///     longest = longest.max(key.len());
    /// })?;
    /// ```
    pub fn intersect_lending_with<'a, F: FnMut(LendingKeyView<'a, '_>, &'a V, &'a V)>(
        &'a self,
        other: &'a VersionedAdaptiveRadixTree<K, V>,
        f: &mut F,
    ) -> Result<(), AllocError>
        requires visitable { Visitable F.FnMut ByViewPair f.old
            (common self.now.content other.now.content) }
        ensures visits { Visits F.FnMut ByViewPair result f.old
            (common self.now.content other.now.content) f.new }
    {
        self.intersect_lending_with_counted(other, f, &mut Work::new())
    }

    /// As `intersect_lending_with`, up to the first key on which the closure answers `Stop`, or that
    /// memory was refused to it. That is answered as `Refusal::Callback`, and then the visit has
    /// ended there too. rart has none.
    ///
    /// Where memory is refused to the call itself, the answer is `Refusal::Memory`: it has called
    /// the closure on a prefix of the keys, and each time the closure answered `Continue`.
    ///
    /// ```
    /// let mut is_shared = false;
    /// left.try_intersect_lending_with(
    ///     &right,
    ///     &mut |_key: LendingKeyView<'_, '_>, _l: &u64, _r: &u64| -> Result<VisitControl, AllocError> {
    ///         is_shared = true;
    ///         Ok(VisitControl::Stop)
    ///     },
    /// )?;
    /// ```
    pub fn try_intersect_lending_with<
        'a,
        F: FnMut(LendingKeyView<'a, '_>, &'a V, &'a V) -> Result<VisitControl, AllocError>,
    >(
        &'a self,
        other: &'a VersionedAdaptiveRadixTree<K, V>,
        f: &mut F,
    ) -> Result<(), Refusal<AllocError>>
        requires visitable { VisitableUntil F.FnMut ByViewPair f.old
            (common self.now.content other.now.content) }
        ensures { VisitsUntil F.FnMut ByViewPair result f.old
            (common self.now.content other.now.content) f.new }
    {
        self.try_intersect_lending_with_counted(other, f, &mut Work::new())
    }

    /// As `intersect_with`, with the values alone. It can't be refused.
    ///
    /// ```
    /// let mut product = 0u64;
    /// list.intersect_values_with(&amounts, &mut |price: &u64, amount: &u64| {
    ///     product = product.saturating_add(price.saturating_mul(*amount));
    /// });
    /// ```
    pub fn intersect_values_with<'a, F: FnMut(&'a V, &'a V)>(
        &'a self,
        other: &'a VersionedAdaptiveRadixTree<K, V>,
        f: &mut F,
    )
        requires visitable { Visitable F.FnMut ByValuePair f.old
            (map (λ entry. (entry.1, entry.2)) (common self.now.content other.now.content)) }
        ensures visits { Visit F.FnMut ByValuePair f.old
            (map (λ entry. (entry.1, entry.2)) (common self.now.content other.now.content)) f.new }
    {
        self.intersect_values_with_counted(other, f, &mut Work::new());
    }

    /// How many keys both maps have. It can't be refused.
    ///
    /// ```
    /// let kept = before.intersect_count(&after);
    /// ```
    pub fn intersect_count(&self, other: &VersionedAdaptiveRadixTree<K, V>) -> usize
        ensures { result ≡ length (common self.now.content other.now.content) }
    {
        self.intersect_count_counted(other, &mut Work::new())
    }
}
