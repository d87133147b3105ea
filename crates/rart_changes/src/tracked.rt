//! A tracked version: how it begins, and what is read off it.
ghost use Rattle.std.specs.Prelude.{◌≡◌, ◌<◌, ◌≤◌, ◌+◌, ◌*◌, false, length, IfOk};
ghost use Rattle.std.specs.FinMap as finite;
ghost use Rattle.std.specs.Option.{option_copied};
ghost use Rattle.rart_below.specs.Bytes.{IsAdmitted};
ghost use Rattle.rart_changes.specs.Asks.{CanMark};
ghost use Rattle.rart_changes.specs.Tracking.{IsMarked, IsTracked, tracking_from};
ghost use Rattle.rart_maps.specs.Bounds.{change_bound, lookup_bound};
ghost use Rattle.rart_maps.specs.Pairs.{prefix_matches};
ghost use Rattle.rart_maps.specs.Versions.{empty_at, has_no_key, value_at};
ghost use Rattle.rart_versioned.specs.Counts.{CountsUpTo};

mod conflicts;
mod counting;
mod keys;
mod lending;
mod plain;
mod showing;
mod try_updating;
mod updating;

pub use plain::KeyChange;
use rart_below::KeyTrait;
use rart_versioned::{VersionedAdaptiveRadixTree, Work};
use std::alloc::{AllocError, Global};
use std::marker::Model;

/// A version that keeps the one that it began with, its base, and the keys that were touched since.
///
/// Contracts see it as the base, the current version, and the finite set of touched keys. A key
/// that was not touched has what it has in the base.
///
/// It has no calls of a prefix, which would touch each key under it: set or take out these keys, or
/// change a plain version by `restore_prefix` and begin with that.
pub struct TrackedTree<K: KeyTrait, V: Clone> {
    pub(crate) alloc: Global,
    pub(crate) base: VersionedAdaptiveRadixTree<K, V>,
    pub(crate) current: VersionedAdaptiveRadixTree<K, V>,
    pub(crate) touched: VersionedAdaptiveRadixTree<K, ()>,
}

/// Written out, as that of the tree.
impl<K: KeyTrait, V: Clone + Drop> Drop for TrackedTree<K, V> {
    fn drop(self) {
        let TrackedTree {
            alloc: _,
            base: _,
            current: _,
            touched: _,
        } = self;
    }
}

impl<K: KeyTrait, V: Clone> Model for TrackedTree<K, V> {
    ghost use Rattle.rart_changes.specs.Tracking.{Keeps, Tracking, tracking_code, tracking_of};

    ghost Value = { Tracking V };

    ghost coded = { tracking_code V.code };

    ghost view = { λ inside. tracking_of inside.base inside.current inside.touched };

    ghost invariant = { λ inside. Keeps inside.base inside.current inside.touched };
}

impl<K: KeyTrait, V: Clone + Drop> TrackedTree<K, V> {
    /// Begins with a version as base. It is the current one too, and no key is touched. Refused for
    /// memory, there is none.
    pub fn begin(
        alloc: Global,
        tree: &VersionedAdaptiveRadixTree<K, V>,
    ) -> Result<TrackedTree<K, V>, AllocError>
        ensures { IfOk result (λ tracked. tracked ≡ tracking_from tree.now) }
    {
        tree.know_keys_for_proof();
        Ok(TrackedTree {
            alloc,
            base: tree.clone()?,
            current: tree.clone()?,
            touched: no_keys(alloc),
        })
    }

    /// The current version. A key that was not touched has there what it has in the base.
    pub fn current(&self) -> &VersionedAdaptiveRadixTree<K, V>
        ensures current { result.now ≡ self.now.current }
        ensures tracked { IsTracked self.now }
    {
        &self.current
    }

    /// The version that it began with.
    pub fn base(&self) -> &VersionedAdaptiveRadixTree<K, V>
        ensures { result.now ≡ self.now.base }
    {
        &self.base
    }

    /// As `get`, with the nodes entered counted into `work`: at most one more than the key has
    /// bytes, and at least one where there is a key in the current version, and one for each key
    /// that begins this one.
    pub fn get_counted(&self, key: &[u8], work: &mut Work) -> Option<&V>
        ensures value { option_copied result ≡ value_at self.now.current key.now }
        ensures counted { CountsUpTo (lookup_bound key.now) 0 work.old work.new }
        ensures entered { has_no_key self.now.current ≡ false
            → work.old.entered < work.new.entered }
        ensures each { work.old.entered
            + length (prefix_matches self.now.current.content key.now) ≤ work.new.entered }
    {
        self.current.get_bytes_counted(key, work)
    }

    /// How many keys were touched.
    pub fn touched_count(&self) -> u64
        ensures { result ≡ finite.len self.now.touched }
    {
        self.touched.version()
    }
}

/// A set without a key.
pub(crate) fn no_keys<K: KeyTrait>(alloc: Global) -> VersionedAdaptiveRadixTree<K, ()>
    ensures empty { result ≡ empty_at 0 }
    ensures counted { result.number ≡ finite.len result.content }
{
    VersionedAdaptiveRadixTree::new(alloc)
}

/// These keys and one more, where the number of the tree is how many there are. The key is looked
/// up, and put in where it is absent. Refused for memory, there are none.
pub(crate) fn marked<K: KeyTrait>(
    touched: &VersionedAdaptiveRadixTree<K, ()>,
    key: &[u8],
    work: &mut Work,
) -> Result<VersionedAdaptiveRadixTree<K, ()>, AllocError>
    requires markable { CanMark touched.now }
    requires admitted { IsAdmitted K.MAXIMUM_SIZE (length key.now) }
    ensures marked { IfOk result (IsMarked touched.now key.now) }
    ensures counted { CountsUpTo (2 * lookup_bound key.now) (change_bound key.now)
        work.old work.new }
{
    let mut marked = touched.clone()?;
    if marked.get_bytes_counted(key, work).is_none() {
        marked.insert_and_replace_bytes_counted(key, (), work)?;
    }
    Ok(marked)
}

/// As `marked`, with a key.
pub(crate) fn marked_key<K: KeyTrait>(
    touched: &VersionedAdaptiveRadixTree<K, ()>,
    key: &K,
    work: &mut Work,
) -> Result<VersionedAdaptiveRadixTree<K, ()>, AllocError>
    requires { CanMark touched.now }
    ensures marked { IfOk result (IsMarked touched.now (K.bytes key.now)) }
    ensures counted { CountsUpTo (2 * lookup_bound (K.bytes key.now))
        (change_bound (K.bytes key.now)) work.old work.new }
{
    marked(touched, key.as_ref(), work)
}
