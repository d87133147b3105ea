// Ported from rart 0.11.0 (Apache-2.0), and rewritten.
//! A tree made of pairs that ascend, with no count.
ghost use Rattle.std.specs.Prelude.{◌≡◌, ◌≤◌, ℕ, Err, IfOk, length};
ghost use Rattle.rart_below.specs.Plain.{by_bytes};
ghost use Rattle.rart_maps.specs.Disorders.{IsDisorderAt};
ghost use Rattle.rart_maps.specs.Pairs as maps;

use crate::counted::{SortedError, VersionedAdaptiveRadixTree};
use rart_below::KeyTrait;
use rart_node::Work;
use std::alloc::Global;

impl<K: KeyTrait, V: Clone + Drop> VersionedAdaptiveRadixTree<K, V> {
    ghost use Rattle.rart_versioned.specs.declared.counted.sorted.SortedError.TheVariants.{NotAscending};

    /// The map of these pairs, whose keys strictly ascend, its number how many they are: as by as
    /// many insertions into a new tree.
    ///
    /// ```
    /// let mut pairs = Vec::new(alloc);
    /// pairs.push((friday, 500))?;
    /// pairs.push((monday, 300))?;
    /// let prices = VersionedAdaptiveRadixTree::from_sorted(alloc, pairs)?;
    /// ```
    ///
    /// Each node is made once, from the leaves up, at the width that it keeps. `NotAscending` comes
    /// where a key does not stand behind the one before it, and `Memory` where memory was refused.
    /// Refused, nothing is left behind, and the pairs are dropped. The Rust has no such call.
    pub fn from_sorted(
        alloc: Global,
        pairs: Vec<(K, V)>,
    ) -> Result<VersionedAdaptiveRadixTree<K, V>, SortedError>
        ensures pairs { IfOk result (λ tree. maps.pairs tree.content
            ≡ by_bytes K.bytes pairs.items) }
        ensures number { IfOk result (λ tree. tree.number ≡ length pairs.items) }
        ensures disorder { (at : ℕ) → result ≡ Err (NotAscending at)
            → IsDisorderAt K.bytes at pairs.items }
    {
        let number = pairs.len() as u64;
        VersionedAdaptiveRadixTree::from_sorted_at(alloc, pairs, number)
    }

    /// As `from_sorted`, with this number, which is not below how many pairs there are.
    pub fn from_sorted_at(
        alloc: Global,
        pairs: Vec<(K, V)>,
        number: u64,
    ) -> Result<VersionedAdaptiveRadixTree<K, V>, SortedError>
        requires { length pairs.items ≤ number }
        ensures pairs { IfOk result (λ tree. maps.pairs tree.content
            ≡ by_bytes K.bytes pairs.items) }
        ensures number { IfOk result (λ tree. tree.number ≡ number) }
        ensures disorder { (at : ℕ) → result ≡ Err (NotAscending at)
            → IsDisorderAt K.bytes at pairs.items }
    {
        VersionedAdaptiveRadixTree::from_sorted_counted(alloc, pairs, number, &mut Work::new())
    }
}
