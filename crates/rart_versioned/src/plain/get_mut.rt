// Ported from rart 0.11.0 (Apache-2.0), and rewritten.
//! A value lent for writing, with no count.
ghost use Rattle.std.specs.Prelude.{◌≡◌, IsTrue, IfOk, IfErr, OnErr, Some};
ghost use Rattle.std.specs.Borrow.{sem};
ghost use Rattle.std.specs.Option.{option_map};
ghost use Rattle.rart_below.specs.Clones.{ClonesEqual};
ghost use Rattle.rart_versioned.specs.Lent.{LendsValue, LendsFound};
ghost use Rattle.rart_versioned.specs.Missing.{Explains};
ghost use Rattle.rart_maps.specs.Versions.{HasRoom, has_key, value_at};

use crate::counted::VersionedAdaptiveRadixTree;
use crate::counted::missing::{Missing, found_of};
use rart_below::KeyTrait;
use rart_node::Work;
use std::alloc::AllocError;

impl<K: KeyTrait, V: Clone + Drop> VersionedAdaptiveRadixTree<K, V> {
    /// Lends the value of a key for writing. The number is one greater then, and once the reference
    /// is over the key has the value that it was left with. `Absent` comes where nothing is at the
    /// key, and then it isn't refused; `Memory` where a copy on the way was refused. Either way
    /// map and number are as before.
    pub fn value_mut(&mut self, key: &K) -> Result<&mut V, Missing>
        requires clones { ClonesEqual V.is_clone }
        requires room { HasRoom self.old 1 }
        ensures* writes_back { sem 𝓛 (LendsValue K.row V.row K.PartialType.row K.MAXIMUM_SIZE
            K.bytes K.eq K.cmp K.partial_cmp K.PartialType.Partial V.Clone self.entry
            (K.bytes key.now) result) }
        ensures value { IfOk result (λ value. value_at self.old (K.bytes key.now)
            ≡ Some value.now) }
        ensures missing { IfErr result
            (λ missing. Explains missing (value_at self.old (K.bytes key.now))) }
    {
        self.value_mut_counted(key, &mut Work::new())
    }

    /// As `value_mut`, the key by value.
    fn value_mut_by_value(&mut self, key: K) -> Result<&mut V, Missing>
        requires clones { ClonesEqual V.is_clone }
        requires room { HasRoom self.old 1 }
        ensures* writes_back { sem 𝓛 (LendsValue K.row V.row K.PartialType.row K.MAXIMUM_SIZE
            K.bytes K.eq K.cmp K.partial_cmp K.PartialType.Partial V.Clone self.entry (K.bytes key)
            result) }
        ensures value { IfOk result (λ value. value_at self.old (K.bytes key) ≡ Some value.now) }
        ensures missing { IfErr result
            (λ missing. Explains missing (value_at self.old (K.bytes key))) }
    {
        self.value_mut(&key)
    }

    /// As `value_mut`, as rart has it: an absent key is no failure, and is answered by `None`.
    pub fn get_mut_k(&mut self, key: &K) -> Result<Option<&mut V>, AllocError>
        requires clones { ClonesEqual V.is_clone }
        requires room { HasRoom self.old 1 }
        ensures* writes_back { sem 𝓛 (LendsFound K.row V.row K.PartialType.row K.MAXIMUM_SIZE
            K.bytes K.eq K.cmp K.partial_cmp K.PartialType.Partial V.Clone self.entry
            (K.bytes key.now) result) }
        ensures value { IfOk result (λ found. option_map (λ value. value.now) found
            ≡ value_at self.old (K.bytes key.now)) }
        ensures present { OnErr result (IsTrue (has_key self.old (K.bytes key.now))) }
    {
        found_of(self.value_mut(key))
    }

    /// As `get_mut_k`, the key by value.
    pub fn get_mut(&mut self, key: K) -> Result<Option<&mut V>, AllocError>
        requires clones { ClonesEqual V.is_clone }
        requires room { HasRoom self.old 1 }
        ensures* writes_back { sem 𝓛 (LendsFound K.row V.row K.PartialType.row K.MAXIMUM_SIZE
            K.bytes K.eq K.cmp K.partial_cmp K.PartialType.Partial V.Clone self.entry (K.bytes key)
            result) }
        ensures value { IfOk result (λ found. option_map (λ value. value.now) found
            ≡ value_at self.old (K.bytes key)) }
        ensures present { OnErr result (IsTrue (has_key self.old (K.bytes key))) }
    {
        found_of(self.value_mut_by_value(key))
    }
}
