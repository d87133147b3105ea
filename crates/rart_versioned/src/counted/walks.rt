// Ported from rart 0.11.0 (Apache-2.0), and rewritten.
//! Walks over a tree, for its iterators and visitors.
ghost use Rattle.std.specs.Prelude.{◌≡◌};
ghost use Rattle.std.specs.Range.Bound.{bound_map};
ghost use Rattle.rart_versioned.specs.TreeWalks.{KeepsKeys};
ghost use Rattle.rart_versioned.specs.TreeWalks.{WalksAll, WalksFrom, WalksUnder};

use crate::counted::tree::VersionedAdaptiveRadixTree;
use rart_below::{KeyTrait, Partial};
use rart_node::{NodeRef, Work};
use rart_walks::{KeyPath, Walk};
use std::alloc::AllocError;
use std::ops::Bound;

impl<K: KeyTrait, V: Clone + Drop> VersionedAdaptiveRadixTree<K, V> {
    /// A walk over all pairs. It enters the root, where there is one.
    pub(crate) fn whole_walk<'a, T: KeyPath<'a>>(
        &'a self,
        work: &mut Work,
    ) -> Result<Walk<'a, K::PartialType, V, T>, AllocError>
        requires { KeepsKeys T.greatest }
        ensures { WalksAll T.holds T.extent T.greatest K.MAXIMUM_SIZE self.now result
            work.old work.new }
    {
        match &self.root {
            None => Ok(Walk::new(self.alloc)),
            Some(root) => Walk::whole(self.alloc, root, work),
        }
    }

    /// A walk over the pairs whose key a prefix begins.
    ///
    /// It enters at most one node for each byte of the prefix, and one; and one at least where
    /// there is a key. Then it has left to enter at most one for each string that the prefix begins
    /// and that begins a key. Of these, those whose path meets an upper bound are at most one for
    /// each byte of that, one, and two for each pair from the prefix up to the bound.
    pub(crate) fn walk_under<'a, T: KeyPath<'a>>(
        &'a self,
        prefix: &[u8],
        work: &mut Work,
    ) -> Result<Walk<'a, K::PartialType, V, T>, AllocError>
        requires { KeepsKeys T.greatest }
        ensures { WalksUnder T.holds T.extent T.greatest K.MAXIMUM_SIZE self.now result
            work.old work.new prefix.now }
    {
        match &self.root {
            None => Ok(Walk::new(self.alloc)),
            Some(root) => Walk::under(self.alloc, root, prefix, work),
        }
    }

    /// A walk over the pairs whose key meets a lower bound.
    ///
    /// It enters at most one node for each byte of the bound, and one; and one at least where there
    /// is a key. Of the nodes that it has left to enter then, those whose path meets an upper bound
    /// are at most one for each byte of that, and two for each pair within both.
    pub(crate) fn walk_from<'a, T: KeyPath<'a>>(
        &'a self,
        low: Bound<&[u8]>,
        work: &mut Work,
    ) -> Result<Walk<'a, K::PartialType, V, T>, AllocError>
        requires { KeepsKeys T.greatest }
        ensures { WalksFrom T.holds T.extent T.greatest K.MAXIMUM_SIZE self.now result
            work.old work.new (bound_map (λ low. low.now) low.entry) }
    {
        match &self.root {
            None => Ok(Walk::new(self.alloc)),
            Some(root) => Walk::from(self.alloc, root, low, work),
        }
    }
}

/// A bound by its bytes.
pub(crate) fn bytes_of<K: KeyTrait>(bound: &Bound<K>) -> Bound<&[u8]>
    ensures { bound_map (λ bytes. bytes.now) result ≡ bound_map K.bytes bound.now }
{
    match bound {
        Bound::Included(key) => Bound::Included(key.as_ref()),
        Bound::Excluded(key) => Bound::Excluded(key.as_ref()),
        Bound::Unbounded => Bound::Unbounded,
    }
}
