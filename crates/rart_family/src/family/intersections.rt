//! Commands that read two versions at once.
ghost use Rattle.std.specs.Prelude.{◌≡◌, ◌⊎◌, ◌+◌, ◌≤◌, false, None, Some, IfErr, IfOk};
ghost use Rattle.rart_maps.specs.Bounds.{meet_bound};
ghost use Rattle.rart_maps.specs.Pairs.{common};
ghost use Rattle.rart_maps.specs.Versions.{has_no_key};
ghost use Rattle.rart_versioned.specs.Clones.{ClonesEqual};
ghost use Rattle.rart_versioned.specs.Counts.{CountsUpTo};
ghost use Rattle.rart_family.specs.Attempts.{Tries, replied};
ghost use Rattle.rart_family.specs.Collections.{triples_of};
ghost use Rattle.rart_family.specs.Costs.{CountsReads};
ghost use Rattle.rart_family.specs.Families.{value_pairs_of, version_at};
ghost use Rattle.rart_family.specs.declared.family.refused.Refused.TheVariants.{NoVersion};
ghost use Rattle.rart_family.specs.declared.family.command.Command.TheVariants.{Intersect, IntersectViews, IntersectValues, IntersectCount};

use super::collection::Collection;
use super::refused::Refused;
use super::{Family, Reply};
use rart_versioned::{KeyTrait, LendingKeyView, VersionedAdaptiveRadixTree, Work};
use std::alloc::{AllocError, Global};

impl<K: KeyTrait, V: Clone + Drop> Family<K, V> {
    pub(super) fn intersect(
        &self,
        left: usize,
        right: usize,
        reads: &mut Work,
    ) -> Result<Reply<K, V>, Refused>
        requires clones { ClonesEqual V.is_clone }
        ensures tries { Tries K.bytes self.now (Intersect left right) result self.now }
        ensures reads { CountsReads K.bytes self.now (Intersect left right)
            (replied K.bytes result) reads.old reads.new }
    {
        let (one, other) = self.versions_at(left, right)?;
        let entries = common_entries(self.alloc, one, other, reads)?;
        Ok(Reply::Pairs(entries))
    }

    pub(super) fn intersect_views(
        &self,
        left: usize,
        right: usize,
        reads: &mut Work,
    ) -> Result<Reply<K, V>, Refused>
        requires clones { ClonesEqual V.is_clone }
        ensures tries { Tries K.bytes self.now (IntersectViews left right) result self.now }
        ensures reads { CountsReads K.bytes self.now (IntersectViews left right)
            (replied K.bytes result) reads.old reads.new }
    {
        let (one, other) = self.versions_at(left, right)?;
        let entries = common_entries_by_views(self.alloc, one, other, reads)?;
        Ok(Reply::Pairs(entries))
    }

    pub(super) fn intersect_values(
        &self,
        left: usize,
        right: usize,
        reads: &mut Work,
    ) -> Result<Reply<K, V>, Refused>
        requires clones { ClonesEqual V.is_clone }
        ensures tries { Tries K.bytes self.now (IntersectValues left right) result self.now }
        ensures reads { CountsReads K.bytes self.now (IntersectValues left right)
            (replied K.bytes result) reads.old reads.new }
    {
        let (one, other) = self.versions_at(left, right)?;
        let values = common_values(self.alloc, one, other, reads)?;
        Ok(Reply::ValuePairs(values))
    }

    pub(super) fn intersect_count(
        &self,
        left: usize,
        right: usize,
        reads: &mut Work,
    ) -> Result<Reply<K, V>, Refused>
        ensures tries { Tries K.bytes self.now (IntersectCount left right) result self.now }
        ensures reads { CountsReads K.bytes self.now (IntersectCount left right)
            (replied K.bytes result) reads.old reads.new }
    {
        let (one, other) = self.versions_at(left, right)?;
        Ok(Reply::Count(one.intersect_count_counted(other, reads)))
    }

    /// The versions at two places, unless either has none.
    fn versions_at(
        &self,
        left: usize,
        right: usize,
    ) -> Result<
        (
            &VersionedAdaptiveRadixTree<K, V>,
            &VersionedAdaptiveRadixTree<K, V>,
        ),
        Refused,
    >
        ensures found { IfOk result (λ versions. (version_at self.now left ≡ Some versions.0.now)
            × (version_at self.now right ≡ Some versions.1.now)) }
        ensures lacking { IfErr result (λ refused. (refused ≡ NoVersion)
            × ((version_at self.now left ≡ None) ⊎ (version_at self.now right ≡ None))) }
    {
        let one = self.at(left)?;
        let other = self.at(right)?;
        Ok((one, other))
    }
}

/// The keys of both versions, with copies of their values.
fn common_entries<K: KeyTrait, V: Clone + Drop>(
    alloc: Global,
    one: &VersionedAdaptiveRadixTree<K, V>,
    other: &VersionedAdaptiveRadixTree<K, V>,
    reads: &mut Work,
) -> Result<Vec<(K, V, V)>, AllocError>
    requires clones { ClonesEqual V.is_clone }
    ensures entries { IfOk result (λ entries. triples_of K.bytes entries.items
        ≡ common one.now.content other.now.content) }
    ensures counted { CountsUpTo (meet_bound one.now.content other.now.content) 0
        reads.old reads.new }
    ensures entered { has_no_key one.now ≡ false → has_no_key other.now ≡ false
        → reads.old.entered + 2 ≤ reads.new.entered }
{
    let mut collection = Collection::new(alloc);
    one.intersect_with_counted(
        other,
        &mut |key: K, left: &V, right: &V| {
            collection.keep_pair(key, left, right);
        },
        reads,
    )?;
    collection.kept
}

/// The same, by views of the keys.
fn common_entries_by_views<K: KeyTrait, V: Clone + Drop>(
    alloc: Global,
    one: &VersionedAdaptiveRadixTree<K, V>,
    other: &VersionedAdaptiveRadixTree<K, V>,
    reads: &mut Work,
) -> Result<Vec<(K, V, V)>, AllocError>
    requires clones { ClonesEqual V.is_clone }
    ensures entries { IfOk result (λ entries. triples_of K.bytes entries.items
        ≡ common one.now.content other.now.content) }
    ensures counted { CountsUpTo (meet_bound one.now.content other.now.content) 0
        reads.old reads.new }
    ensures entered { has_no_key one.now ≡ false → has_no_key other.now ≡ false
        → reads.old.entered + 2 ≤ reads.new.entered }
{
    // (each key has a length that keys may have)
    one.know_keys_for_proof();
    let mut collection = Collection::new(alloc);
    one.intersect_lending_with_counted(
        other,
        &mut |key: LendingKeyView<'_, '_>, left: &V, right: &V| {
            collection.keep_view_pair(&key, left, right);
        },
        reads,
    )?;
    collection.kept
}

/// Copies of the values of the keys of both versions.
fn common_values<K: KeyTrait, V: Clone + Drop>(
    alloc: Global,
    one: &VersionedAdaptiveRadixTree<K, V>,
    other: &VersionedAdaptiveRadixTree<K, V>,
    reads: &mut Work,
) -> Result<Vec<(V, V)>, AllocError>
    requires clones { ClonesEqual V.is_clone }
    ensures values { IfOk result (λ values. values.items
        ≡ value_pairs_of (common one.now.content other.now.content)) }
    ensures counted { CountsUpTo (meet_bound one.now.content other.now.content) 0
        reads.old reads.new }
    ensures entered { has_no_key one.now ≡ false → has_no_key other.now ≡ false
        → reads.old.entered + 2 ≤ reads.new.entered }
{
    let mut collection = Collection::new(alloc);
    one.intersect_values_with_counted(
        other,
        &mut |left: &V, right: &V| {
            collection.keep_values(left, right);
        },
        reads,
    );
    collection.kept
}
