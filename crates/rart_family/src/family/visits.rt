//! Commands that list what a version has, by its visitors.
ghost use Rattle.std.specs.Prelude.{◌≡◌, length, IfOk};
ghost use Rattle.std.specs.Range.Bound.{bound_map};
ghost use Rattle.rart_maps.specs.Pairs.{pairs, under, within, prefix_matches};
ghost use Rattle.rart_versioned.specs.Clones.{ClonesEqual};
ghost use Rattle.rart_family.specs.Attempts.{Tries};
ghost use Rattle.rart_family.specs.Collections.{pairs_of};
ghost use Rattle.rart_family.specs.Families.{stopped, values_of};
ghost use Rattle.rart_family.specs.Replies.{reply_value};
ghost use Rattle.rart_family.specs.declared.family.command.Command.TheVariants.{MatchesEach, Views, PrefixViews, RangeViews, PrefixValues, Until};

use super::collection::{Collection, Countdown};
use super::refused::Refused;
use super::walks::bounds_copy;
use super::{Failure, Family, Reply};
use rart_versioned::{KeyTrait, LendingKeyView, Refusal, VersionedAdaptiveRadixTree};
use std::alloc::{AllocError, Global};
use std::ops::Bound;

impl<K: KeyTrait, V: Clone + Drop> Family<K, V> {
    pub(super) fn prefix_matches_each(&self, place: usize, key: &K) -> Result<Reply<K, V>, Refused>
        requires clones { ClonesEqual V.is_clone }
        ensures { Tries K.bytes self.now (MatchesEach place key.now) result self.now }
    {
        let version = self.at(place)?;
        let entries = entries_by_slices(self.alloc, version, key)?;
        Ok(Reply::Entries(entries))
    }

    pub(super) fn views(&self, place: usize) -> Result<Reply<K, V>, Refused>
        requires clones { ClonesEqual V.is_clone }
        ensures { Tries K.bytes self.now (Views place) result self.now }
    {
        let version = self.at(place)?;
        let entries = entries_by_views(self.alloc, version)?;
        Ok(Reply::Entries(entries))
    }

    pub(super) fn prefix_views(&self, place: usize, prefix: &K) -> Result<Reply<K, V>, Refused>
        requires clones { ClonesEqual V.is_clone }
        ensures { Tries K.bytes self.now (PrefixViews place prefix.now) result self.now }
    {
        let version = self.at(place)?;
        let entries = entries_under_by_views(self.alloc, version, prefix)?;
        Ok(Reply::Entries(entries))
    }

    pub(super) fn range_views(
        &self,
        place: usize,
        lo: &Bound<K>,
        hi: &Bound<K>,
    ) -> Result<Reply<K, V>, Refused>
        requires clones { ClonesEqual V.is_clone }
        ensures { Tries K.bytes self.now (RangeViews place lo.now hi.now) result self.now }
    {
        let version = self.at(place)?;
        let bounds = bounds_copy(self.alloc, lo, hi)?;
        let entries = entries_within_by_views(self.alloc, version, bounds)?;
        Ok(Reply::Entries(entries))
    }

    pub(super) fn prefix_values(&self, place: usize, prefix: &K) -> Result<Reply<K, V>, Refused>
        requires clones { ClonesEqual V.is_clone }
        ensures { Tries K.bytes self.now (PrefixValues place prefix.now) result self.now }
    {
        let version = self.at(place)?;
        let values = values_under(self.alloc, version, prefix)?;
        Ok(Reply::Values(values))
    }

    pub(super) fn until(
        &self,
        place: usize,
        prefix: &K,
        visits: u64,
        fails: bool,
    ) -> Result<Reply<K, V>, Refused>
        requires clones { ClonesEqual V.is_clone }
        ensures { Tries K.bytes self.now (Until place prefix.now visits fails) result self.now }
    {
        let version = self.at(place)?;
        Ok(reply_until(self.alloc, version, prefix, visits, fails)?)
    }
}

fn entries_by_slices<K: KeyTrait, V: Clone + Drop>(
    alloc: Global,
    version: &VersionedAdaptiveRadixTree<K, V>,
    probe: &K,
) -> Result<Vec<(K, V)>, AllocError>
    requires clones { ClonesEqual V.is_clone }
    ensures { IfOk result (λ entries.
        pairs_of K.bytes entries.items ≡ prefix_matches version.now.content (K.bytes probe.now)) }
{
    // (each key has a length that keys may have)
    version.know_keys_for_proof();
    let mut collection = Collection::new(alloc);
    version.prefix_match_for_each_k(
        probe,
        &mut |key: &[u8], value: &V| {
            collection.keep_slice(key, value);
        },
    );
    collection.kept
}

fn entries_by_views<K: KeyTrait, V: Clone + Drop>(
    alloc: Global,
    version: &VersionedAdaptiveRadixTree<K, V>,
) -> Result<Vec<(K, V)>, AllocError>
    requires clones { ClonesEqual V.is_clone }
    ensures { IfOk result (λ entries.
        pairs_of K.bytes entries.items ≡ pairs version.now.content) }
{
    version.know_keys_for_proof();
    let mut collection = Collection::new(alloc);
    version.for_each_view(&mut |key: LendingKeyView<'_, '_>, value: &V| {
        collection.keep_view(&key, value);
    })?;
    collection.kept
}

fn entries_under_by_views<K: KeyTrait, V: Clone + Drop>(
    alloc: Global,
    version: &VersionedAdaptiveRadixTree<K, V>,
    prefix: &K,
) -> Result<Vec<(K, V)>, AllocError>
    requires clones { ClonesEqual V.is_clone }
    ensures { IfOk result (λ entries.
        pairs_of K.bytes entries.items ≡ under version.now.content (K.bytes prefix.now)) }
{
    version.know_keys_for_proof();
    let mut collection = Collection::new(alloc);
    version.prefix_for_each_view_k(
        prefix,
        &mut |key: LendingKeyView<'_, '_>, value: &V| {
            collection.keep_view(&key, value);
        },
    )?;
    collection.kept
}

fn entries_within_by_views<K: KeyTrait, V: Clone + Drop>(
    alloc: Global,
    version: &VersionedAdaptiveRadixTree<K, V>,
    bounds: (Bound<K>, Bound<K>),
) -> Result<Vec<(K, V)>, AllocError>
    requires clones { ClonesEqual V.is_clone }
    ensures { IfOk result (λ entries. pairs_of K.bytes entries.items
        ≡ within version.now.content (bound_map K.bytes bounds.0) (bound_map K.bytes bounds.1)) }
{
    version.know_keys_for_proof();
    let mut collection = Collection::new(alloc);
    version.for_each_range_view(
        bounds,
        &mut |key: LendingKeyView<'_, '_>, value: &V| {
            collection.keep_view(&key, value);
        },
    )?;
    collection.kept
}

fn values_under<K: KeyTrait, V: Clone + Drop>(
    alloc: Global,
    version: &VersionedAdaptiveRadixTree<K, V>,
    prefix: &K,
) -> Result<Vec<V>, AllocError>
    requires clones { ClonesEqual V.is_clone }
    ensures { IfOk result (λ values.
        values.items ≡ values_of (under version.now.content (K.bytes prefix.now))) }
{
    let mut collection = Collection::new(alloc);
    version.prefix_values_for_each_k(
        prefix,
        &mut |value: &V| {
            collection.keep_value(value);
        },
    )?;
    collection.kept
}

fn reply_until<K: KeyTrait, V: Clone + Drop>(
    alloc: Global,
    version: &VersionedAdaptiveRadixTree<K, V>,
    prefix: &K,
    visits: u64,
    fails: bool,
) -> Result<Reply<K, V>, AllocError>
    requires clones { ClonesEqual V.is_clone }
    ensures { IfOk result (λ reply. reply_value K.bytes reply
        ≡ stopped visits fails (values_of (under version.now.content (K.bytes prefix.now)))) }
{
    let mut countdown = Countdown::new(alloc, visits, fails);
    let visited = version.try_prefix_values_for_each_k(
        prefix,
        &mut |value: &V| { countdown.visit(value) },
    );
    match visited {
        Ok(()) => Ok(Reply::Stopped {
            values: countdown.values,
            failed: false,
        }),
        Err(Refusal::Callback(Refusal::Callback(Failure))) => Ok(Reply::Stopped {
            values: countdown.values,
            failed: true,
        }),
        Err(Refusal::Callback(Refusal::Memory(refused))) => Err(refused),
        Err(Refusal::Memory(refused)) => Err(refused),
    }
}
