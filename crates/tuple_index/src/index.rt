//! The index: one versioned tree, whose keys are those of the tuples.
ghost use Rattle.std.specs.Prelude.{◌≡◌, ◌⊎◌, ◌+◌, ◌*◌, ◌<◌, ◌^◌, ◌≤◌, ◌++◌, ◌∷◌, [], All, length, take, filter, map, IsOk, IfOk, IsTrue, OnOk, OnErr, if◌then◌else◌};
ghost use Rattle.rart_maps.specs.Pairs.{common, under};
ghost use Rattle.tuple_index.specs.Decoding.{tuple_at};
ghost use Rattle.tuple_index.specs.Tuples.{HasRoom, bytes_of, has_columns, has_some_with, has_tuple, key_of, listed, no_tuple, tuples_with, tuples_without, with_tuple, with_tuples_of, without_tuple};
ghost use Rattle.tuple_index.specs.Tuples.{common_tuples, tuples_of_either, tuples_of_one_alone, without_tuples_of};

use crate::tuple::Tuple;
use rart_versioned::{ArrayKey, KeyTrait, VersionedAdaptiveRadixTree};
use std::alloc::{AllocError, Global};
use std::marker::Model;

/// A set of tuples, with a number that every change raises.
///
/// Contracts see it as a finite set of tuples and the number. A snapshot changes independently.
#[derive(Drop)]
pub struct TupleIndex {
    alloc: Global,
    tree: VersionedAdaptiveRadixTree<ArrayKey<16>, ()>,
}

impl Model for TupleIndex {
    ghost use Rattle.rart_maps.specs.Pairs.{pairs};
    ghost use Rattle.tuple_index.specs.Indexes.{AreTupleKeys, index_of};
    ghost use Rattle.tuple_index.specs.Tuples.{Index, index_code};

    ghost Value = { Index };

    ghost coded = { index_code };

    ghost view = { λ index. index_of index.tree };

    ghost invariant = { λ index. AreTupleKeys (pairs index.tree.content) };
}

impl TupleIndex {
    /// The empty set, its number 0.
    pub fn new(alloc: Global) -> TupleIndex
        ensures tuples { result.tuples ≡ no_tuple }
        ensures number { result.number ≡ 0 }
    {
        TupleIndex {
            alloc,
            tree: VersionedAdaptiveRadixTree::new(alloc),
        }
    }

    /// The number: how often a tuple was put in, there before or not, or taken out, and a snapshot
    /// made, on the way here.
    pub fn version(&self) -> u64
        ensures { result ≡ self.now.number }
    {
        self.tree.version()
    }

    /// The same set once more, its number one greater. Refused for memory, this one is as before.
    pub fn snapshot(&self) -> Result<TupleIndex, AllocError>
        requires room { HasRoom self.now 1 }
        ensures tuples { IfOk result (λ copy. copy.tuples ≡ self.now.tuples) }
        ensures number { IfOk result (λ copy. copy.number ≡ self.now.number + 1) }
    {
        Ok(TupleIndex {
            alloc: self.alloc,
            tree: self.tree.snapshot()?,
        })
    }

    /// Puts a tuple in, raises the number by one, and answers whether the tuple was there already.
    /// Refused for memory, set and number are as before.
    pub fn add(&mut self, tuple: Tuple) -> Result<bool, AllocError>
        requires room { HasRoom self.old 1 }
        ensures answer { IfOk result (λ there. there ≡ has_tuple self.old.tuples tuple) }
        ensures tuples { OnOk result (self.new.tuples ≡ with_tuple self.old.tuples tuple) }
        ensures number { OnOk result (self.new.number ≡ self.old.number + 1) }
        ensures refused { OnErr result (self.new ≡ self.old) }
    {
        let key = key_with(self.alloc, &tuple.key())?;
        self.tree.insert(key, ())
    }

    /// Takes a tuple out, and answers whether it was there: the number is then one greater. Where
    /// it wasn't, set and number stay, and it isn't refused. Refused for memory, they are as
    /// before.
    pub fn take(&mut self, tuple: Tuple) -> Result<bool, AllocError>
        requires room { HasRoom self.old 1 }
        ensures answer { IfOk result (λ there. there ≡ has_tuple self.old.tuples tuple) }
        ensures tuples { OnOk result (self.new.tuples ≡ without_tuple self.old.tuples tuple) }
        ensures number { IfOk result (λ there. self.new.number
            ≡ (if there then self.old.number + 1 else self.old.number)) }
        ensures refused { OnErr result (self.new ≡ self.old) }
        ensures present { OnErr result (IsTrue (has_tuple self.old.tuples tuple)) }
    {
        let key = key_with(self.alloc, &tuple.key())?;
        self.tree.delete(key)
    }

    /// Whether a tuple is in the set. No memory is taken, so the answer is always `Ok`.
    pub fn has(&self, tuple: Tuple) -> Result<bool, AllocError>
        ensures answered { IsOk result }
        ensures there { IfOk result (λ there. there ≡ has_tuple self.now.tuples tuple) }
    {
        let key = key_with(self.alloc, &tuple.key())?;
        Ok(self.tree.get(key).is_some())
    }

    /// The tuples whose first columns are these, at most four, in order. Of no column they are all.
    /// Refused for memory, there is no list.
    pub fn query(&self, columns: &[u32]) -> Result<Vec<Tuple>, AllocError>
        requires columns { length columns.now ≤ 4 }
        ensures { IfOk result (λ found. found.items
            ≡ filter (has_columns columns.now) (listed self.now.tuples)) }
    {
        let padded = padded_key(columns);
        let prefix = key_with(self.alloc, &padded[..4 * columns.len()])?;
        tuples_under(self.alloc, &self.tree, &prefix)
    }

    /// The tuples that are in both sets, in order. Refused for memory, there is no list.
    pub fn join(&self, other: &TupleIndex) -> Result<Vec<Tuple>, AllocError>
        ensures { IfOk result (λ found. found.items
            ≡ filter (has_tuple other.now.tuples) (listed self.now.tuples)) }
    {
        tuples_of_both(self.alloc, &self.tree, &other.tree)
    }

    /// Whether there is a tuple whose first columns are these, at most four. Of no column it tells
    /// whether there is any. It can't be refused.
    ///
    /// ```
    /// let knows_someone = facts.has_any(&[KNOWS, ann]);
    /// ```
    pub fn has_any(&self, columns: &[u32]) -> bool
        requires columns { length columns.now ≤ 4 }
        ensures { result ≡ has_some_with self.now.tuples columns.now }
    {
        let key = padded_key(columns);
        self.tree.contains_prefix(&key[..4 * columns.len()])
    }

    /// Takes out all tuples whose first columns are these, at most four, and answers whether there
    /// was one: the number is then one greater, however many they were. Where there was none, set
    /// and number stay, and it isn't refused. Refused for memory, they are as before.
    ///
    /// ```
    /// let knew_someone = facts.take_all(&[KNOWS, ann])?;
    /// ```
    pub fn take_all(&mut self, columns: &[u32]) -> Result<bool, AllocError>
        requires columns { length columns.now ≤ 4 }
        requires room { HasRoom self.old 1 }
        ensures answer { IfOk result (λ some. some ≡ has_some_with self.old.tuples columns.now) }
        ensures tuples { OnOk result
            (self.new.tuples ≡ tuples_without self.old.tuples columns.now) }
        ensures number { IfOk result (λ some. self.new.number
            ≡ (if some then self.old.number + 1 else self.old.number)) }
        ensures refused { OnErr result (self.new ≡ self.old) }
        ensures present { OnErr result (IsTrue (has_some_with self.old.tuples columns.now)) }
    {
        let key = padded_key(columns);
        self.tree.remove_prefix(&key[..4 * columns.len()])
    }

    /// A set of its own of the tuples whose first columns are these, at most four, its number one
    /// greater. Refused for memory, which it is not where there is no such tuple, this one is as
    /// before.
    ///
    /// ```
    /// let of_ann = facts.snapshot_of(&[KNOWS, ann])?;
    /// ```
    pub fn snapshot_of(&self, columns: &[u32]) -> Result<TupleIndex, AllocError>
        requires columns { length columns.now ≤ 4 }
        requires room { HasRoom self.now 1 }
        ensures tuples { IfOk result
            (λ part. part.tuples ≡ tuples_with self.now.tuples columns.now) }
        ensures number { IfOk result (λ part. part.number ≡ self.now.number + 1) }
        ensures present { OnErr result (IsTrue (has_some_with self.now.tuples columns.now)) }
    {
        let key = padded_key(columns);
        Ok(TupleIndex {
            alloc: self.alloc,
            tree: self.tree.prefix_snapshot(&key[..4 * columns.len()])?,
        })
    }

    /// Puts the tuples of another set whose first columns are these, at most four, in place of the
    /// own ones that begin so. The number is then the sum of both, whether or not a tuple changes.
    /// The other set stays as it is. Refused for memory, which it is not where neither has such a
    /// tuple, set and number are as before.
    ///
    /// ```
    /// facts.restore_all(&[KNOWS, ann], &yesterday)?;
    /// ```
    pub fn restore_all(&mut self, columns: &[u32], from: &TupleIndex) -> Result<(), AllocError>
        requires columns { length columns.now ≤ 4 }
        requires room { HasRoom self.old from.now.number }
        ensures tuples { OnOk result
            (self.new.tuples ≡ with_tuples_of columns.now from.now.tuples self.old.tuples) }
        ensures number { OnOk result (self.new.number ≡ self.old.number + from.now.number) }
        ensures refused { OnErr result (self.new ≡ self.old) }
        ensures present { OnErr result (IsTrue (has_some_with self.old.tuples columns.now)
            ⊎ IsTrue (has_some_with from.now.tuples columns.now)) }
    {
        let key = padded_key(columns);
        self.tree
            .restore_prefix(&key[..4 * columns.len()], &from.tree)
    }

    /// A set of its own of the tuples that are in either set. Its number is the sum of both, since
    /// it may have all tuples of both. Both sets and their numbers stay as they are, also where
    /// memory for it is refused. What one of them has alone is shared.
    ///
    /// ```
    /// let known = facts.union(&told)?;
    /// ```
    pub fn union(&self, other: &TupleIndex) -> Result<TupleIndex, AllocError>
        requires room { HasRoom self.now other.now.number }
        ensures tuples { IfOk result
            (λ both. both.tuples ≡ tuples_of_either self.now.tuples other.now.tuples) }
        ensures number { IfOk result (λ both. both.number ≡ self.now.number + other.now.number) }
    {
        Ok(TupleIndex {
            alloc: self.alloc,
            tree: self.tree.union(&other.tree)?,
        })
    }

    /// A set of its own of the tuples that are in both sets, its number one greater than this
    /// one's. Both sets and their numbers stay as they are, also where memory for it is refused.
    /// This one's tuples that begin alike are shared where all of them are in both. `join` lists
    /// the common tuples, and makes no set.
    pub fn intersection(&self, other: &TupleIndex) -> Result<TupleIndex, AllocError>
        requires room { HasRoom self.now 1 }
        ensures tuples { IfOk result
            (λ part. part.tuples ≡ common_tuples self.now.tuples other.now.tuples) }
        ensures number { IfOk result (λ part. part.number ≡ self.now.number + 1) }
    {
        Ok(TupleIndex {
            alloc: self.alloc,
            tree: self.tree.intersection(&other.tree)?,
        })
    }

    /// A set of its own of this one's tuples that the other lacks, its number one greater than this
    /// one's. Both sets and their numbers stay as they are, also where memory for it is refused.
    /// What this one has alone is shared.
    ///
    /// ```
    /// let learnt = facts.difference(&yesterday)?;
    /// ```
    pub fn difference(&self, other: &TupleIndex) -> Result<TupleIndex, AllocError>
        requires room { HasRoom self.now 1 }
        ensures tuples { IfOk result
            (λ part. part.tuples ≡ without_tuples_of other.now.tuples self.now.tuples) }
        ensures number { IfOk result (λ part. part.number ≡ self.now.number + 1) }
    {
        Ok(TupleIndex {
            alloc: self.alloc,
            tree: self.tree.difference(&other.tree)?,
        })
    }

    /// A set of its own of the tuples that one of the two sets has and the other lacks. Its number
    /// is the sum of both. Both sets and their numbers stay as they are, also where memory for it
    /// is refused. What one of them has alone is shared.
    pub fn symmetric_difference(&self, other: &TupleIndex) -> Result<TupleIndex, AllocError>
        requires room { HasRoom self.now other.now.number }
        ensures tuples { IfOk result
            (λ apart. apart.tuples ≡ tuples_of_one_alone self.now.tuples other.now.tuples) }
        ensures number { IfOk result (λ apart. apart.number ≡ self.now.number + other.now.number) }
    {
        Ok(TupleIndex {
            alloc: self.alloc,
            tree: self.tree.symmetric_difference(&other.tree)?,
        })
    }
}

// The key of a tuple with these columns first. Their bytes, which begin it, begin the keys of all
// such tuples and of no other.
fn padded_key(columns: &[u32]) -> [u8; 16]
    requires { length columns.now ≤ 4 }
    ensures bytes { take (4 * length columns.now) result ≡ bytes_of columns.now }
    ensures narrow { All (λ column. column < 2 ^ 32) columns.now }
{
    Tuple::with_columns(columns).key()
}

fn key_with(alloc: Global, bytes: &[u8]) -> Result<ArrayKey<16>, AllocError>
    requires { length bytes.now ≤ 16 }
    ensures made { IsOk result }
    ensures bytes { IfOk result (λ key. key.bytes.items ≡ bytes.now) }
{
    ArrayKey::new_from_slice(alloc, bytes)
}

// The tuples of the keys that the prefix begins.
fn tuples_under(
    alloc: Global,
    tree: &VersionedAdaptiveRadixTree<ArrayKey<16>, ()>,
    prefix: &ArrayKey<16>,
) -> Result<Vec<Tuple>, AllocError>
    ensures { IfOk result (λ found. found.items
        ≡ map (λ pair. tuple_at pair.0) (under tree.now.content prefix.now.bytes.items)) }
{
    let mut found = Vec::new(alloc);
    for item in tree.prefix_iter_k(prefix)? {
        let (key, _unit) = item?;
        found.push(Tuple::of_key(key.as_ref()))?;
    }
    Ok(found)
}

// The tuples of the keys that both trees have.
fn tuples_of_both(
    alloc: Global,
    one: &VersionedAdaptiveRadixTree<ArrayKey<16>, ()>,
    other: &VersionedAdaptiveRadixTree<ArrayKey<16>, ()>,
) -> Result<Vec<Tuple>, AllocError>
    ensures { IfOk result (λ found. found.items
        ≡ map (λ entry. tuple_at entry.0) (common one.now.content other.now.content)) }
{
    let mut found: Vec<Tuple> = Vec::new(alloc);
    let mut kept: Result<(), AllocError> = Ok(());
    let mut keep = |key: ArrayKey<16>, _left: &(), _right: &()|
        ensures { IsOk kept.exit → IsOk kept.entry
            × (found.exit.items ≡ found.entry.items ++ tuple_at key.bytes.items ∷ []) }
    {
        if kept.is_ok() {
            kept = put(&mut found, Tuple::of_key(key.as_ref()));
        }
    };
    one.intersect_with(other, &mut keep)?;
    kept?;
    Ok(found)
}

fn put(found: &mut Vec<Tuple>, tuple: Tuple) -> Result<(), AllocError>
    ensures { OnOk result (found.new.items ≡ found.old.items ++ tuple ∷ []) }
{
    found.push(tuple)?;
    Ok(())
}
