// Ported from rart 0.11.0 (Apache-2.0), and rewritten.
//! The longest of the keys that begin a probe, with no count.
ghost use Rattle.std.specs.Prelude.{◌≡◌, ◌≤◌, length, IfOk, IfSome, IsSome, OnErr};
ghost use Rattle.rart_maps.specs.Pairs.{longest_prefix_match};
ghost use Rattle.rart_versioned.specs.Longest.{entry_found, prefix_found};

use crate::counted::VersionedAdaptiveRadixTree;
use rart_below::KeyTrait;
use rart_node::Work;
use std::alloc::AllocError;
use std::convert::AsSlice;

impl<K: KeyTrait, V: Clone + Drop> VersionedAdaptiveRadixTree<K, V> {
    /// The pair with the longest key that begins the probe, if there is one: the last of those that
    /// `prefix_match_iter_k` gives. The key is a copy, the value a reference.
    ///
    /// ```
    /// let route = routes.longest_prefix_match_k(&address)?;
    /// ```
    ///
    /// Where no key begins the probe it isn't refused. In Rust the plain tree alone has this call.
    pub fn longest_prefix_match_k(&self, probe: &K) -> Result<Option<(K, &V)>, AllocError>
        ensures found { IfOk result (λ found. entry_found K.bytes found
            ≡ longest_prefix_match self.now.content (K.bytes probe.now)) }
        ensures present { OnErr result
            (IsSome (longest_prefix_match self.now.content (K.bytes probe.now))) }
    {
        self.longest_prefix_match_k_counted(probe, &mut Work::new())
    }

    /// How many bytes of the probe the longest key has that begins it, and a reference to its
    /// value. The probe may be a text, bytes, or whatever else lends bytes. It can't be refused.
    /// rart has no such call.
    ///
    /// ```
    /// let hop = routes.longest_prefix([10, 1, 2, 3]).map(|route| *route.1);
    /// ```
    pub fn longest_prefix<Q: AsSlice<u8> + Drop>(&self, probe: Q) -> Option<(usize, &V)>
        ensures found { prefix_found (Q.items probe) result
            ≡ longest_prefix_match self.now.content (Q.items probe) }
        ensures within { IfSome result (λ found. found.0 ≤ length (Q.items probe)) }
    {
        self.longest_prefix_counted(probe.as_slice(), &mut Work::new())
    }

    /// As `longest_prefix_match_k`, the probe by value.
    pub fn longest_prefix_match(&self, probe: K) -> Result<Option<(K, &V)>, AllocError>
        ensures found { IfOk result (λ found. entry_found K.bytes found
            ≡ longest_prefix_match self.now.content (K.bytes probe)) }
        ensures present { OnErr result
            (IsSome (longest_prefix_match self.now.content (K.bytes probe))) }
    {
        self.longest_prefix_match_k(&probe)
    }
}
