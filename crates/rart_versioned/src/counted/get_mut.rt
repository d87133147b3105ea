// Ported from rart 0.11.0 (Apache-2.0), and rewritten.
//! A value lent for writing.
ghost use Rattle.std.specs.Borrow.{sem};
ghost use Rattle.std.specs.Option.{option_map};
ghost use Rattle.std.specs.Prelude.{◌≡◌, ◌+◌, ◌*◌, ◌<◌, Some, None, IsSome, IsTrue, IfOk, IfErr, OnOk, OnErr};
ghost use Rattle.rart_below.specs.Clones.{ClonesEqual};
ghost use Rattle.rart_maps.specs.Bounds.{lookup_bound};
ghost use Rattle.rart_maps.specs.Versions.{has_key, value_at, HasRoom};
ghost use Rattle.rart_node.specs.Counts.{CountsUpTo};
ghost use Rattle.rart_versioned.specs.Asks.{CanLend};
ghost use Rattle.rart_versioned.specs.ChangeCounts.{CountsChange};
ghost use Rattle.rart_versioned.specs.Lent.{LendsValue, LendsFound};
ghost use Rattle.rart_versioned.specs.Missing.{Explains};
ghost use Rattle.rart_versioned.specs.Roots.{LendsBelow, below_root, found_in};

use crate::counted::missing::{Missing, found_of};
use crate::counted::tree::VersionedAdaptiveRadixTree;
use rart_below::{KeyTrait, Partial};
use rart_node::{NodeRef, Work};
use rart_ways::{lend_below, path_length};
use std::alloc::AllocError;

/// Lends the value of a key below a root for writing, and then raises the number by one. Refused
/// for memory, or where nothing is at the key, root and number are as before.
fn lend_in<'a, P: Partial, V: Clone + Drop>(
    root: &'a mut Option<NodeRef<P, V>>,
    number: &mut u64,
    key: &[u8],
    work: &mut Work,
) -> Result<&'a mut V, Missing>
    requires { CanLend V.is_clone (below_root root.old) number.old }
    ensures* writes_back { sem 𝓛 (LendsBelow P.row V.row P.Partial root.entry key.now result) }
    ensures value { IfOk result (λ value. found_in (below_root root.old) key.now ≡ Some value.now) }
    ensures missing { IfErr result (λ missing. Explains missing (found_in
        (below_root root.old) key.now)) }
    ensures raised { OnOk result (number.new ≡ number.old + 1) }
    ensures kept { OnErr result (number.new ≡ number.old) }
    ensures counted { CountsUpTo (2 * lookup_bound key.now) (lookup_bound key.now) work.old
        work.new }
    ensures entered { IsSome root.old → work.old.entered < work.new.entered }
    ensures absent_makes_none { found_in (below_root root.old) key.now ≡ None
        → work.new.made ≡ work.old.made }
{
    match root.as_mut() {
        None => Err(Missing::Absent),
        Some(at) => match path_length(at, key, work) {
            None => Err(Missing::Absent),
            Some(steps) => match lend_below(at, key, steps, work) {
                Ok(value) => {
                    *number += 1;
                    Ok(value)
                }
                Err(error) => Err(Missing::Memory(error)),
            },
        },
    }
}

impl<K: KeyTrait, V: Clone + Drop> VersionedAdaptiveRadixTree<K, V> {
    /// As `value_mut`, with the nodes entered and made counted into `work`: at most two more
    /// entered than twice the bytes of the key, and at most two more made than it has. None is made
    /// where the key is absent.
    pub fn value_mut_counted(&mut self, key: &K, work: &mut Work) -> Result<&mut V, Missing>
        requires clones { ClonesEqual V.is_clone }
        requires room { HasRoom self.old 1 }
        ensures* writes_back { sem 𝓛 (LendsValue K.row V.row K.PartialType.row K.MAXIMUM_SIZE
            K.bytes K.eq K.cmp K.partial_cmp K.PartialType.Partial V.Clone self.entry
            (K.bytes key.now) result) }
        ensures value { IfOk result (λ value. value_at self.old (K.bytes key.now)
            ≡ Some value.now) }
        ensures missing { IfErr result
            (λ missing. Explains missing (value_at self.old (K.bytes key.now))) }
        ensures counted { CountsChange (2 * lookup_bound (K.bytes key.now)) self.old
            (K.bytes key.now) work.old work.new }
        ensures absent_makes_none { value_at self.old (K.bytes key.now) ≡ None
            → work.new.made ≡ work.old.made }
    {
        lend_in(&mut self.root, &mut self.version, key.as_ref(), work)
    }

    /// As `get_mut_k`, counted as by `value_mut_counted`.
    pub fn get_mut_k_counted(
        &mut self,
        key: &K,
        work: &mut Work,
    ) -> Result<Option<&mut V>, AllocError>
        requires clones { ClonesEqual V.is_clone }
        requires room { HasRoom self.old 1 }
        ensures* writes_back { sem 𝓛 (LendsFound K.row V.row K.PartialType.row K.MAXIMUM_SIZE
            K.bytes K.eq K.cmp K.partial_cmp K.PartialType.Partial V.Clone self.entry
            (K.bytes key.now) result) }
        ensures value { IfOk result (λ found. option_map (λ value. value.now) found
            ≡ value_at self.old (K.bytes key.now)) }
        ensures present { OnErr result (IsTrue (has_key self.old (K.bytes key.now))) }
        ensures counted { CountsChange (2 * lookup_bound (K.bytes key.now)) self.old
            (K.bytes key.now) work.old work.new }
        ensures absent_makes_none { value_at self.old (K.bytes key.now) ≡ None
            → work.new.made ≡ work.old.made }
    {
        found_of(self.value_mut_counted(key, work))
    }
}
