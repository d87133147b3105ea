// Ported from rart 0.11.0 (Apache-2.0), and rewritten.
//! The tree itself, what contracts see of it, and the calls that make one or read its number.
ghost use Rattle.std.specs.Prelude.{◌≡◌, ◌≤◌, ◌<◌, ◌^◌, ℕ, IfOk, IsTrue, List, length};

use rart_below::{KeyTrait, Partial};
use rart_node::NodeRef;
use std::alloc::{AllocError, Global};
use std::marker::Model;

/// An ordered map from keys to values, with a number that every change of a key raises.
///
/// Contracts see it as a finite map from the keys' bytes, and the number. What a snapshot or a
/// clone shows is copied where either is changed, so neither sees what the other becomes.
pub struct VersionedAdaptiveRadixTree<K: KeyTrait, V: Clone> {
    pub(crate) alloc: Global,
    pub(crate) root: Option<NodeRef<K::PartialType, V>>,
    pub(crate) version: u64,
}

/// Written out, so that a crate that drops a tree proves nothing of the nodes below it.
impl<K: KeyTrait, V: Clone + Drop> Drop for VersionedAdaptiveRadixTree<K, V> {
    fn drop(self) {
        let VersionedAdaptiveRadixTree {
            alloc: _,
            root: _,
            version: _,
        } = self;
    }
}

impl<K: KeyTrait, V: Clone> Model for VersionedAdaptiveRadixTree<K, V> {
    ghost use Rattle.rart_versioned.specs.Roots.{below_root, map_of, IsSound};
    ghost use Rattle.rart_maps.specs.Versions.{Version, version_code};

    ghost Value = { Version V };

    ghost coded = { version_code V.code };

    ghost view = { λ tree. record {
      content = map_of (below_root tree.root);
      number = tree.version;
    } };

    ghost invariant = { λ tree. IsSound K.MAXIMUM_SIZE tree.version (below_root tree.root) };
}

impl<K: KeyTrait, V: Clone + Drop> VersionedAdaptiveRadixTree<K, V> {
    ghost use Rattle.std.specs.FinMap as finite;
    ghost use Rattle.rart_maps.specs.Lookups.{LacksAll};
    ghost use Rattle.rart_maps.specs.StartLaws.{HasByteKeys};
    ghost use Rattle.rart_maps.specs.Versions.{empty_at, has_key, has_no_key, with_rise, HasRoom};
    ghost use Rattle.rart_versioned.specs.Keys.{IsKeyLength};

    /// A map without a key, its number 0.
    pub fn new(alloc: Global) -> VersionedAdaptiveRadixTree<K, V>
        ensures empty { result ≡ empty_at 0 }
        ensures lookups { LacksAll result }
    {
        VersionedAdaptiveRadixTree::new_at(alloc, 0)
    }

    /// As `new`. In Rust this is the trait `Default`.
    pub fn default(alloc: Global) -> VersionedAdaptiveRadixTree<K, V>
        ensures empty { result ≡ empty_at 0 }
        ensures lookups { LacksAll result }
    {
        VersionedAdaptiveRadixTree::new(alloc)
    }

    /// A map without a key, with this number. The Rust has no such call: there a new tree has
    /// number 0.
    pub fn new_at(alloc: Global, number: u64) -> VersionedAdaptiveRadixTree<K, V>
        ensures empty { result ≡ empty_at number }
        ensures lookups { LacksAll result }
    {
        VersionedAdaptiveRadixTree {
            alloc,
            root: None,
            version: number,
        }
    }

    /// Whether there is no key.
    pub fn is_empty(&self) -> bool
        ensures { result ≡ has_no_key self.now }
    {
        match &self.root {
            None => true,
            Some(_) => false,
        }
    }

    /// The number. The map has at most as many keys, and each is a string of bytes, as long as the
    /// key type admits and shorter than 2^64.
    pub fn version(&self) -> u64
        ensures number { result ≡ self.now.number }
        ensures few { finite.len self.now.content ≤ result }
        ensures lengths { (key : List ℕ) → IsTrue (has_key self.now key)
            → IsKeyLength K.MAXIMUM_SIZE (length key) }
        ensures bytes { HasByteKeys self.now.content }
    {
        self.version
    }

    /// Does nothing, and is called for the proof alone: what every tree's keys are, by its
    /// contract, is known then. In Rust it is not there.
    pub fn know_keys_for_proof(&self)
        ensures few { finite.len self.now.content ≤ self.now.number }
        ensures fits { self.now.number < 2 ^ 64 }
        ensures lengths { (key : List ℕ) → IsTrue (has_key self.now key)
            → IsKeyLength K.MAXIMUM_SIZE (length key) }
        ensures bytes { HasByteKeys self.now.content }
    {
        let _number = self.version();
    }

    /// The same map once more, its number one greater. This one stays as it is, its number too,
    /// also where the copy is refused for memory.
    ///
    /// ```
    /// let yesterday = list.snapshot()?;
    /// list.insert_k(&tea, 350)?;
    /// let before = yesterday.get_k(&tea);
    /// ```
    pub fn snapshot(&self) -> Result<VersionedAdaptiveRadixTree<K, V>, AllocError>
        requires room { HasRoom self.now 1 }
        ensures { IfOk result (λ copy. copy ≡ with_rise self.now 1) }
    {
        self.with_version(self.version + 1)
    }

    /// The same map once more with the same number. Refused for memory, this one is as before. The
    /// Rust's documentation says that this is `snapshot`, its code keeps the number.
    pub fn clone(&self) -> Result<VersionedAdaptiveRadixTree<K, V>, AllocError>
        ensures { IfOk result (λ copy. copy ≡ self.now) }
    {
        self.with_version(self.version)
    }

    /// The same map once more with a number that is not below this one's.
    pub(crate) fn with_version(
        &self,
        version: u64,
    ) -> Result<VersionedAdaptiveRadixTree<K, V>, AllocError>
        requires { self.now.number ≤ version }
        ensures { IfOk result (λ copy. copy
            ≡ record { content = self.now.content; number = version }) }
    {
        let root = match &self.root {
            None => None,
            Some(root) => Some(root.copy()?),
        };
        Ok(VersionedAdaptiveRadixTree {
            alloc: self.alloc,
            root,
            version,
        })
    }
}
