//! Commands that list what a version has, by its iterators, or the longest match alone.
ghost use Rattle.std.specs.Prelude.{◌≡◌, List, ℕ, IfOk};
ghost use Rattle.std.specs.Iterator.{IsFinite};
ghost use Rattle.std.specs.Option.{option_to_list};
ghost use Rattle.std.specs.Range.Bound.{bound_map};
ghost use Rattle.rart_maps.specs.Iterations.{ByKey, ByReference};
ghost use Rattle.rart_maps.specs.Pairs.{longest_prefix_match};
ghost use Rattle.rart_versioned.specs.Clones.{ClonesEqual};
ghost use Rattle.rart_family.specs.Attempts.{Tries};
ghost use Rattle.rart_family.specs.Collections.{pairs_of, GivesAll};
ghost use Rattle.rart_family.specs.declared.family.command.Command.TheVariants.{Iter, Values, Range, Prefix, Matches, Longest};

use super::refused::Refused;
use super::{Family, Reply};
use rart_versioned::{KeyTrait, VersionedAdaptiveRadixTree};
use std::alloc::{AllocError, Global};
use std::ops::Bound;

#[tactic(auto, using(crate::proofs::CollectionLemmas::gives_all))]
impl<K: KeyTrait, V: Clone + Drop> Family<K, V> {
    pub(super) fn iter(&self, place: usize) -> Result<Reply<K, V>, Refused>
        requires clones { ClonesEqual V.is_clone }
        ensures { Tries K.bytes self.now (Iter place) result self.now }
    {
        let version = self.at(place)?;
        let entries = entries_of(self.alloc, version.iter()?)?;
        Ok(Reply::Entries(entries))
    }

    pub(super) fn values(&self, place: usize) -> Result<Reply<K, V>, Refused>
        requires clones { ClonesEqual V.is_clone }
        ensures { Tries K.bytes self.now (Values place) result self.now }
    {
        let version = self.at(place)?;
        let values = values_of(self.alloc, version.values_iter()?)?;
        Ok(Reply::Values(values))
    }

    pub(super) fn range(
        &self,
        place: usize,
        lo: &Bound<K>,
        hi: &Bound<K>,
    ) -> Result<Reply<K, V>, Refused>
        requires clones { ClonesEqual V.is_clone }
        ensures { Tries K.bytes self.now (Range place lo.now hi.now) result self.now }
    {
        let version = self.at(place)?;
        let bounds = bounds_copy(self.alloc, lo, hi)?;
        let entries = entries_of(self.alloc, version.range(bounds)?)?;
        Ok(Reply::Entries(entries))
    }

    pub(super) fn prefix(&self, place: usize, prefix: &K) -> Result<Reply<K, V>, Refused>
        requires clones { ClonesEqual V.is_clone }
        ensures { Tries K.bytes self.now (Prefix place prefix.now) result self.now }
    {
        let version = self.at(place)?;
        let entries = entries_of(self.alloc, version.prefix_iter_k(prefix)?)?;
        Ok(Reply::Entries(entries))
    }

    pub(super) fn prefix_matches(&self, place: usize, key: &K) -> Result<Reply<K, V>, Refused>
        requires clones { ClonesEqual V.is_clone }
        ensures { Tries K.bytes self.now (Matches place key.now) result self.now }
    {
        let version = self.at(place)?;
        let entries = entries_of(self.alloc, version.prefix_match_iter_k(key)?)?;
        Ok(Reply::Entries(entries))
    }

    pub(super) fn longest(&self, place: usize, key: &K) -> Result<Reply<K, V>, Refused>
        requires clones { ClonesEqual V.is_clone }
        ensures { Tries K.bytes self.now (Longest place key.now) result self.now }
    {
        let version = self.at(place)?;
        let entries = longest_match(self.alloc, version, key)?;
        Ok(Reply::Entries(entries))
    }
}

/// The two bounds once more.
pub(super) fn bounds_copy<K: KeyTrait>(
    alloc: Global,
    lo: &Bound<K>,
    hi: &Bound<K>,
) -> Result<(Bound<K>, Bound<K>), AllocError>
    ensures lo { IfOk result (λ bounds. bound_map K.bytes bounds.0 ≡ bound_map K.bytes lo.now) }
    ensures hi { IfOk result (λ bounds. bound_map K.bytes bounds.1 ≡ bound_map K.bytes hi.now) }
{
    Ok((bound_copy(alloc, lo)?, bound_copy(alloc, hi)?))
}

fn bound_copy<K: KeyTrait>(alloc: Global, bound: &Bound<K>) -> Result<Bound<K>, AllocError>
    ensures { IfOk result (λ copy. bound_map K.bytes copy ≡ bound_map K.bytes bound.now) }
{
    match bound {
        Bound::Included(key) => Ok(Bound::Included(key_copy(alloc, key)?)),
        Bound::Excluded(key) => Ok(Bound::Excluded(key_copy(alloc, key)?)),
        Bound::Unbounded => Ok(Bound::Unbounded),
    }
}

pub(super) fn key_copy<K: KeyTrait>(alloc: Global, key: &K) -> Result<K, AllocError>
    ensures { IfOk result (λ copy. K.bytes copy ≡ K.bytes key.now) }
{
    K::new_from_slice(alloc, key.as_ref())
}

/// The longest key that begins this one, with a copy of its value.
fn longest_match<K: KeyTrait, V: Clone + Drop>(
    alloc: Global,
    version: &VersionedAdaptiveRadixTree<K, V>,
    key: &K,
) -> Result<Vec<(K, V)>, AllocError>
    requires clones { ClonesEqual V.is_clone }
    ensures { IfOk result (λ entries. pairs_of K.bytes entries.items
        ≡ option_to_list (longest_prefix_match version.now.content (K.bytes key.now))) }
{
    let mut entries = Vec::new(alloc);
    if let Some((key, value)) = version.longest_prefix_match_k(key)? {
        entries.push((key, value.clone()?))?;
    }
    Ok(entries)
}

/// Copies of all entries that a walk gives.
fn entries_of<'a, K: KeyTrait, V: Clone + Drop + 'a, I>(
    alloc: Global,
    walk: I,
) -> Result<Vec<(K, V)>, AllocError>
where
    I: Iterator<Item = Result<(K, &'a V), AllocError>>,
    requires clones { ClonesEqual V.is_clone }
    requires starts { I.can_next walk }
    requires ends { IsFinite (I.remaining walk) }
    ensures { IfOk result (λ entries. (found : List (List ℕ × V))
        → GivesAll I.next_gives (ByKey K.bytes) found walk
        → pairs_of K.bytes entries.items ≡ found) }
{
    let mut entries = Vec::new(alloc);
    for item in walk {
        let (key, value) = item?;
        entries.push((key, value.clone()?))?;
    }
    Ok(entries)
}

/// Copies of all values that a walk gives.
fn values_of<'a, V: Clone + Drop + 'a, I>(alloc: Global, walk: I) -> Result<Vec<V>, AllocError>
where
    I: Iterator<Item = Result<&'a V, AllocError>>,
    requires clones { ClonesEqual V.is_clone }
    requires starts { I.can_next walk }
    requires ends { IsFinite (I.remaining walk) }
    ensures { IfOk result (λ values. (found : List V)
        → GivesAll I.next_gives ByReference found walk → values.items ≡ found) }
{
    let mut values = Vec::new(alloc);
    for item in walk {
        values.push(item?.clone()?)?;
    }
    Ok(values)
}
