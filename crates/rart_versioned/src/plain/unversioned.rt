// Ported from rart 0.11.0 (Apache-2.0), and rewritten.
//! The way to a plain tree.
ghost use Rattle.std.specs.Prelude.{◌≡◌, IfErr, IfOk};
ghost use Rattle.rart_below.specs.Clones.{ClonesEqual};

use crate::counted::VersionedAdaptiveRadixTree;
use rart_below::{AdaptiveRadixTree, KeyTrait};
use std::alloc::AllocError;

impl<K: KeyTrait, V: Clone + Drop> VersionedAdaptiveRadixTree<K, V> {
    /// The same pairs in a plain tree, which has no versions. Refused for memory, it hands this
    /// version back, with map and number as they were: in Rust it never tells of memory.
    ///
    /// ```
    /// match list.into_unversioned() {
    ///     Ok(plain) => names = plain.len(),
    ///     Err(version) => kept.push(version)?,
    /// }
    /// ```
    ///
    /// The values are copied. In Rust those of nodes that nobody shares are moved.
    pub fn into_unversioned(self) -> Result<AdaptiveRadixTree<K, V>, Self>
        requires clones { ClonesEqual V.is_clone }
        ensures plain { IfOk result (λ plain. plain ≡ self.content) }
        ensures refused { IfErr result (λ version. version ≡ self) }
    {
        match self.plain_copy() {
            Ok(plain) => Ok(plain),
            Err(_refused) => Err(self),
        }
    }

    /// A plain tree with the same pairs.
    fn plain_copy(&self) -> Result<AdaptiveRadixTree<K, V>, AllocError>
        requires clones { ClonesEqual V.is_clone }
        ensures { IfOk result (λ plain. plain ≡ self.now.content) }
    {
        let mut pairs = Vec::new(self.alloc);
        let mut items = self.iter()?;
        // (a `for` over an iterator of keys of any type gets no proof)
        'gathering: while let Some(item) = items.next() {
            let (key, value) = item?;
            pairs.push((key, value.clone()?))?;
        }
        AdaptiveRadixTree::from_pairs(self.alloc, pairs)
    }
}
