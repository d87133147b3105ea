//! Copies of what visitors are called on.
ghost use Rattle.std.specs.Prelude.{◌≡◌, ◌++◌, ◌∷◌, [], length, Ok, IfOk, OnOk};
ghost use Rattle.rart_versioned.specs.Clones.{ClonesEqual};
ghost use Rattle.rart_versioned.specs.Bytes.{IsAdmitted};
ghost use Rattle.rart_family.specs.Collections.{pairs_of, triples_of, Keeps};
ghost use Rattle.rart_family.specs.Countdowns.{Visited};

use super::Failure;
use rart_versioned::{KeyTrait, LendingKeyView, Refusal, VisitControl};
use std::alloc::{AllocError, Global};

/// Copies of the members that a visitor has gone over so far, or that memory for one of them was
/// refused: then nothing more is kept.
#[derive(Drop)]
pub(super) struct Collection<T> {
    alloc: Global,
    pub(super) kept: Result<Vec<T>, AllocError>,
}

impl<T: Drop> Collection<T> {
    pub(super) fn new(alloc: Global) -> Collection<T>
        ensures { IfOk result.kept (λ kept. kept.items ≡ []) }
    {
        Collection {
            alloc,
            kept: Ok(Vec::new(alloc)),
        }
    }
}

impl<K: KeyTrait, V: Clone + Drop> Collection<(K, V)> {
    pub(super) fn keep_view(&mut self, key: &LendingKeyView<'_, '_>, value: &V)
        requires admitted { IsAdmitted K.MAXIMUM_SIZE (length key.now) }
        requires clones { ClonesEqual V.is_clone }
        ensures { Keeps (pairs_of K.bytes) self.old.kept ((key.now, value.now) ∷ [])
            self.new.kept }
    {
        if let Ok(entries) = &mut self.kept {
            if let Err(refused) = push_view(self.alloc, entries, key, value) {
                self.kept = Err(refused);
            }
        }
    }

    pub(super) fn keep_slice(&mut self, key: &[u8], value: &V)
        requires admitted { IsAdmitted K.MAXIMUM_SIZE (length key.now) }
        requires clones { ClonesEqual V.is_clone }
        ensures { Keeps (pairs_of K.bytes) self.old.kept ((key.now, value.now) ∷ [])
            self.new.kept }
    {
        if let Ok(entries) = &mut self.kept {
            if let Err(refused) = push_slice(self.alloc, entries, key, value) {
                self.kept = Err(refused);
            }
        }
    }
}

impl<V: Clone + Drop> Collection<V> {
    pub(super) fn keep_value(&mut self, value: &V)
        requires clones { ClonesEqual V.is_clone }
        ensures { Keeps (λ values. values) self.old.kept (value.now ∷ []) self.new.kept }
    {
        if let Ok(values) = &mut self.kept {
            if let Err(refused) = push_value(values, value) {
                self.kept = Err(refused);
            }
        }
    }
}

impl<K: KeyTrait, V: Clone + Drop> Collection<(K, V, V)> {
    pub(super) fn keep_pair(&mut self, key: K, left: &V, right: &V)
        requires clones { ClonesEqual V.is_clone }
        ensures { Keeps (triples_of K.bytes) self.old.kept
            ((K.bytes key, left.now, right.now) ∷ []) self.new.kept }
    {
        if let Ok(entries) = &mut self.kept {
            if let Err(refused) = push_pair(entries, key, left, right) {
                self.kept = Err(refused);
            }
        }
    }

    pub(super) fn keep_view_pair(&mut self, key: &LendingKeyView<'_, '_>, left: &V, right: &V)
        requires admitted { IsAdmitted K.MAXIMUM_SIZE (length key.now) }
        requires clones { ClonesEqual V.is_clone }
        ensures { Keeps (triples_of K.bytes) self.old.kept
            ((key.now, left.now, right.now) ∷ []) self.new.kept }
    {
        if self.kept.is_ok() {
            match key.to_key(self.alloc) {
                Ok(key) => self.keep_pair(key, left, right),
                Err(refused) => self.kept = Err(refused),
            }
        }
    }
}

impl<V: Clone + Drop> Collection<(V, V)> {
    pub(super) fn keep_values(&mut self, left: &V, right: &V)
        requires clones { ClonesEqual V.is_clone }
        ensures { Keeps (λ values. values) self.old.kept ((left.now, right.now) ∷ [])
            self.new.kept }
    {
        if let Ok(values) = &mut self.kept {
            if let Err(refused) = push_values(values, left, right) {
                self.kept = Err(refused);
            }
        }
    }
}

fn push_pair<K: KeyTrait, V: Clone + Drop>(
    entries: &mut Vec<(K, V, V)>,
    key: K,
    left: &V,
    right: &V,
) -> Result<(), AllocError>
    requires clones { ClonesEqual V.is_clone }
    ensures { OnOk result (triples_of K.bytes entries.new.items
        ≡ triples_of K.bytes entries.old.items ++ (K.bytes key, left.now, right.now) ∷ []) }
{
    entries.push((key, left.clone()?, right.clone()?))?;
    Ok(())
}

fn push_values<V: Clone + Drop>(
    values: &mut Vec<(V, V)>,
    left: &V,
    right: &V,
) -> Result<(), AllocError>
    requires clones { ClonesEqual V.is_clone }
    ensures { OnOk result
        (values.new.items ≡ values.old.items ++ (left.now, right.now) ∷ []) }
{
    values.push((left.clone()?, right.clone()?))?;
    Ok(())
}

fn push_view<K: KeyTrait, V: Clone + Drop>(
    alloc: Global,
    entries: &mut Vec<(K, V)>,
    key: &LendingKeyView<'_, '_>,
    value: &V,
) -> Result<(), AllocError>
    requires admitted { IsAdmitted K.MAXIMUM_SIZE (length key.now) }
    requires clones { ClonesEqual V.is_clone }
    ensures { OnOk result (pairs_of K.bytes entries.new.items
        ≡ pairs_of K.bytes entries.old.items ++ (key.now, value.now) ∷ []) }
{
    entries.push((key.to_key(alloc)?, value.clone()?))?;
    Ok(())
}

fn push_slice<K: KeyTrait, V: Clone + Drop>(
    alloc: Global,
    entries: &mut Vec<(K, V)>,
    key: &[u8],
    value: &V,
) -> Result<(), AllocError>
    requires admitted { IsAdmitted K.MAXIMUM_SIZE (length key.now) }
    requires clones { ClonesEqual V.is_clone }
    ensures { OnOk result (pairs_of K.bytes entries.new.items
        ≡ pairs_of K.bytes entries.old.items ++ (key.now, value.now) ∷ []) }
{
    entries.push((K::new_from_slice(alloc, key)?, value.clone()?))?;
    Ok(())
}

/// Puts a copy of the value at the end.
pub(super) fn push_value<V: Clone + Drop>(values: &mut Vec<V>, value: &V) -> Result<(), AllocError>
    requires clones { ClonesEqual V.is_clone }
    ensures { OnOk result (values.new.items ≡ values.old.items ++ value.now ∷ []) }
{
    values.push(value.clone()?)?;
    Ok(())
}

/// The callback of `Command::Until`: copies of the values that it was called on so far, on which
/// visit it ends, and how.
#[derive(Drop)]
pub(super) struct Countdown<V> {
    pub(super) values: Vec<V>,
    last_visit: u64,
    fails: bool,
}

impl<V: Clone + Drop> Countdown<V> {
    pub(super) fn new(alloc: Global, last_visit: u64, fails: bool) -> Countdown<V>
        ensures values { result.values.items ≡ [] }
        ensures last_visit { result.last_visit ≡ last_visit }
        ensures fails { result.fails ≡ fails }
    {
        Countdown {
            values: Vec::new(alloc),
            last_visit,
            fails,
        }
    }

    pub(super) fn visit(&mut self, value: &V) -> Result<VisitControl, Refusal<Failure>>
        requires clones { ClonesEqual V.is_clone }
        ensures { Visited self.old value.now result self.new }
    {
        if let Err(refused) = push_value(&mut self.values, value) {
            return Err(Refusal::Memory(refused));
        }
        if self.values.len() as u64 != self.last_visit {
            return Ok(VisitControl::Continue);
        }
        if self.fails {
            return Err(Refusal::Callback(Failure));
        }
        Ok(VisitControl::Stop)
    }
}
