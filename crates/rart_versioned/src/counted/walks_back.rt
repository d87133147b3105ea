//! Walks back over a tree, for its iterators and visitors. rart has none.
ghost use Rattle.std.specs.Range.Bound.{bound_map};
ghost use Rattle.rart_versioned.specs.BackWalks.{WalksAllBack, WalksTo, WalksUnderBack};
ghost use Rattle.rart_versioned.specs.TreeWalks.{KeepsKeys};

use crate::counted::tree::VersionedAdaptiveRadixTree;
use rart_below::{KeyTrait, Partial};
use rart_node::{NodeRef, Work};
use rart_walks::{KeyPath, WalkBack};
use std::alloc::AllocError;
use std::ops::Bound;

impl<K: KeyTrait, V: Clone + Drop> VersionedAdaptiveRadixTree<K, V> {
    /// A walk back over all pairs. It enters the root, where there is one.
    pub(crate) fn whole_walk_back<'a, T: KeyPath<'a>>(
        &'a self,
        work: &mut Work,
    ) -> Result<WalkBack<'a, K::PartialType, V, T>, AllocError>
        requires { KeepsKeys T.greatest }
        ensures { WalksAllBack T.holds T.greatest K.MAXIMUM_SIZE self.now result
            work.old work.new }
    {
        match &self.root {
            None => Ok(WalkBack::new(self.alloc)),
            Some(root) => WalkBack::whole(self.alloc, root, work),
        }
    }

    /// A walk back over the pairs whose key a prefix begins. It enters at most one node for each
    /// byte of the prefix, and one; and one at least where there is a key.
    pub(crate) fn walk_back_under<'a, T: KeyPath<'a>>(
        &'a self,
        prefix: &[u8],
        work: &mut Work,
    ) -> Result<WalkBack<'a, K::PartialType, V, T>, AllocError>
        requires { KeepsKeys T.greatest }
        ensures { WalksUnderBack T.holds T.greatest K.MAXIMUM_SIZE self.now result
            work.old work.new prefix.now }
    {
        match &self.root {
            None => Ok(WalkBack::new(self.alloc)),
            Some(root) => WalkBack::under(self.alloc, root, prefix, work),
        }
    }

    /// A walk back over the pairs whose key meets an upper bound. It enters at most one node for
    /// each byte of the bound, and one; and one at least where there is a key.
    pub(crate) fn walk_back_to<'a, T: KeyPath<'a>>(
        &'a self,
        high: Bound<&[u8]>,
        work: &mut Work,
    ) -> Result<WalkBack<'a, K::PartialType, V, T>, AllocError>
        requires { KeepsKeys T.greatest }
        ensures { WalksTo T.holds T.greatest K.MAXIMUM_SIZE self.now result
            work.old work.new (bound_map (λ high. high.now) high.entry) }
    {
        match &self.root {
            None => Ok(WalkBack::new(self.alloc)),
            Some(root) => WalkBack::to(self.alloc, root, high, work),
        }
    }
}
