//! The tree that a handle leads to, how many keys it has, and how long they may be.
ghost use Rattle.std.specs.Prelude.{◌≡◌, ◌≤◌, ◌↔◌, length, IfOk, OnErr, OnOk, IsSome, IsTrue, MatchResult};
ghost use Rattle.rart_below.specs.Clones.{ClonesEqual};
ghost use Rattle.rart_c.specs.Answers.{Explains, ExplainsRise};
ghost use Rattle.rart_maps.specs.ChangeLaws.{Decides};
ghost use Rattle.rart_maps.specs.Changes.{Changes, removal, replacement};
ghost use Rattle.rart_maps.specs.Pairs.{under};
ghost use Rattle.rart_maps.specs.Prefixes.{after_prefix_removal, after_prefix_restoring, has_under, under_prefix};
ghost use Rattle.rart_c.specs.Shown.{shown};
ghost use Rattle.rart_c.specs.Trees.{KeepsLimit, tree_at, with_longest, of_version};
ghost use Rattle.rart_maps.specs.Versions.{HasRoom, has_key, has_no_key, with_rise};

use crate::answer::Refusal;
use crate::limits::LONGEST_KEY;
use rart_versioned::{VectorKey, VersionedAdaptiveRadixTree};
use std::alloc::{AllocError, Global};
use std::marker::Model;

/// A tree, how many keys it has, and how long a key may be: none is longer. Contracts see the
/// version that the tree is, and that limit.
#[derive(Drop)]
pub(crate) struct Table<V: Clone> {
    pub(crate) tree: VersionedAdaptiveRadixTree<VectorKey, V>,
    pub(crate) len: usize,
    pub(crate) longest: usize,
}

impl<V: Clone> Model for Table<V> {
    ghost use Rattle.rart_c.specs.Tables.{IsSound};
    ghost use Rattle.rart_c.specs.Trees.{Tree, tree_code};

    ghost Value = { Tree V };

    ghost coded = { tree_code V.code };

    ghost view = { λ table. record { version = table.tree; longest = table.longest } };

    ghost invariant = { λ table. IsSound table.len table.tree table.longest };
}

impl<V: Clone + Drop> Table<V> {
    /// A map without a key, with this number.
    pub(crate) fn new_at(alloc: Global, number: u64) -> Table<V>
        ensures { result ≡ tree_at number }
    {
        Table {
            tree: VersionedAdaptiveRadixTree::new_at(alloc, number),
            len: 0,
            longest: LONGEST_KEY,
        }
    }

    /// That no key is longer than a key may be.
    pub(crate) fn know_limit_for_proof(&self)
        ensures { KeepsLimit self.now }
    {
        let _ = &self.longest;
    }

    /// Sets how long a key may be. It takes no memory.
    pub(crate) fn set_longest(&mut self, longest: usize)
        requires { IsTrue (has_no_key self.old.version) }
        ensures { self.new ≡ with_longest self.old longest }
    {
        self.longest = longest;
    }

    /// Sets a key to a value, and gives the value that was replaced.
    pub(crate) fn insert(&mut self, key: &[u8], value: V) -> Result<Option<V>, Refusal>
        requires clones { ClonesEqual V.is_clone }
        requires short { length key.now ≤ self.old.longest }
        ensures changes { Changes result self.old.version self.new.version
            (replacement self.old.version key.now value) }
        ensures room { MatchResult result (λ _. HasRoom self.old.version 1)
            (Explains self.old.version) }
        ensures longest { self.new.longest ≡ self.old.longest }
    {
        if self.tree.version() == u64::MAX {
            return Err(Refusal::LastNumber);
        }
        let Ok(replaced) = self.tree.insert_and_replace_bytes(key, value) else {
            return Err(Refusal::NoMemory);
        };
        if replaced.is_none() {
            self.len += 1;
        }
        Ok(replaced)
    }

    /// Takes a key out, and gives its value. Without the key nothing changes, and it isn't refused.
    pub(crate) fn remove(&mut self, key: &[u8]) -> Result<Option<V>, Refusal>
        requires clones { ClonesEqual V.is_clone }
        ensures changes { Changes result self.old.version self.new.version
            (removal self.old.version key.now) }
        ensures room { MatchResult result (λ found. IsSome found → HasRoom self.old.version 1)
            (Explains self.old.version) }
        ensures present { OnErr result (IsTrue (has_key self.old.version key.now)) }
        ensures longest { self.new.longest ≡ self.old.longest }
    {
        if self.tree.version() == u64::MAX {
            return match self.tree.get_bytes(key) {
                None => Ok(None),
                Some(_) => Err(Refusal::LastNumber),
            };
        }
        let Ok(removed) = self.tree.remove_bytes(key) else {
            return Err(Refusal::NoMemory);
        };
        if removed.is_some() {
            self.len -= 1;
        }
        Ok(removed)
    }

    /// Takes out all pairs whose key the prefix begins, and says how many. Without any nothing
    /// changes, and it isn't refused.
    pub(crate) fn remove_prefix(&mut self, prefix: &[u8]) -> Result<usize, Refusal>
        requires clones { ClonesEqual V.is_clone }
        ensures changes { Changes result self.old.version self.new.version (
          length (under self.old.version.content prefix.now),
          after_prefix_removal self.old.version prefix.now,
        ) }
        ensures room { MatchResult result
            (λ _. IsTrue (has_under self.old.version prefix.now) → HasRoom self.old.version 1)
            (Explains self.old.version) }
        ensures present { OnErr result (IsTrue (has_under self.old.version prefix.now)) }
        ensures longest { self.new.longest ≡ self.old.longest }
    {
        if !self.tree.contains_prefix(prefix) {
            return Ok(0);
        }
        if self.tree.version() == u64::MAX {
            return Err(Refusal::LastNumber);
        }
        let Ok(count) = self.tree.count_under(prefix) else {
            return Err(Refusal::NoMemory);
        };
        let Ok(_) = self.tree.remove_prefix(prefix) else {
            return Err(Refusal::NoMemory);
        };
        self.len -= count as usize;
        Ok(count as usize)
    }

    /// Puts in place of the pairs whose key the prefix begins those that another table has there,
    /// the number then the sum of both.
    pub(crate) fn restore_prefix(&mut self, prefix: &[u8], from: &Table<V>) -> Result<(), Refusal>
        requires clones { ClonesEqual V.is_clone }
        requires short { from.now.longest ≤ self.old.longest }
        ensures restored { OnOk result (self.new ≡ of_version self.old
            (after_prefix_restoring self.old.version prefix.now from.now.version)) }
        ensures refused { OnErr result (self.new ≡ self.old) }
        ensures room { MatchResult result
            (λ _. HasRoom self.old.version from.now.version.number)
            (ExplainsRise self.old.version from.now.version.number) }
    {
        if self.tree.version() > u64::MAX - from.tree.version() {
            return Err(Refusal::LastNumber);
        }
        let Ok(removed) = self.tree.count_under(prefix) else {
            return Err(Refusal::NoMemory);
        };
        let Ok(restored) = from.tree.count_under(prefix) else {
            return Err(Refusal::NoMemory);
        };
        let Ok(()) = self.tree.restore_prefix(prefix, &from.tree) else {
            return Err(Refusal::NoMemory);
        };
        self.len = self.len - removed as usize + restored as usize;
        Ok(())
    }

    /// The pairs alone whose key the prefix begins, the number one greater.
    pub(crate) fn prefix_snapshot(&self, prefix: &[u8]) -> Result<Table<V>, Refusal>
        requires clones { ClonesEqual V.is_clone }
        ensures kept { IfOk result (λ part. part
            ≡ of_version self.now (under_prefix self.now.version prefix.now 1)) }
        ensures room { MatchResult result (λ _. HasRoom self.now.version 1)
            (Explains self.now.version) }
    {
        if self.tree.version() == u64::MAX {
            return Err(Refusal::LastNumber);
        }
        let Ok(count) = self.tree.count_under(prefix) else {
            return Err(Refusal::NoMemory);
        };
        let Ok(tree) = self.tree.prefix_snapshot(prefix) else {
            return Err(Refusal::NoMemory);
        };
        Ok(Table {
            tree,
            len: count as usize,
            longest: self.longest,
        })
    }

    /// The same map once more, its number one greater.
    pub(crate) fn snapshot(&self) -> Result<Table<V>, Refusal>
        ensures copy { IfOk result
            (λ copy. copy ≡ of_version self.now (with_rise self.now.version 1)) }
        ensures room { MatchResult result (λ _. HasRoom self.now.version 1)
            (Explains self.now.version) }
    {
        if self.tree.version() == u64::MAX {
            return Err(Refusal::LastNumber);
        }
        match self.tree.snapshot() {
            Ok(tree) => Ok(Table {
                tree,
                len: self.len,
                longest: self.longest,
            }),
            Err(_) => Err(Refusal::NoMemory),
        }
    }

    /// The same map once more, its number too.
    pub(crate) fn clone(&self) -> Result<Table<V>, AllocError>
        ensures { IfOk result (λ copy. copy ≡ self.now) }
    {
        let tree = self.tree.clone()?;
        Ok(Table {
            tree,
            len: self.len,
            longest: self.longest,
        })
    }
}

impl<V: Clone + Drop + Eq> Table<V> {
    /// Whether both have the same keys with the same values.
    pub(crate) fn equals(&self, other: &Table<V>) -> Result<bool, AllocError>
        requires { Decides V.eq }
        ensures { IfOk result (λ equal. IsTrue equal
            ↔ (self.now.version.content ≡ other.now.version.content)) }
    {
        self.tree.equals(&other.tree)
    }
}

/// The table, or where there is none this one, which has no key.
pub(crate) fn or_empty<'a, V: Clone + Drop>(
    table: Option<&'a Table<V>>,
    none: &'a Table<V>,
) -> &'a Table<V>
    requires { none.now ≡ tree_at 0 }
    ensures { result.now ≡ shown table.entry }
{
    match table {
        None => none,
        Some(table) => table,
    }
}
