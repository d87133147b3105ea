// Ported from rart 0.11.0 (Apache-2.0), and rewritten.
//! All that another version has under a prefix, put in place of what stands there.
ghost use Rattle.std.specs.Prelude.{◌≡◌, ◌⊎◌, ◌+◌, ◌*◌, ◌<◌, ℕ, List, IsSome, IsTrue, None, OnErr, OnOk, false, length};
ghost use Rattle.rart_below.specs.Bytes.{IsAdmitted};
ghost use Rattle.rart_below.specs.Clones.{ClonesEqual};
ghost use Rattle.rart_maps.specs.Bounds.{change_bound, lookup_bound};
ghost use Rattle.rart_maps.specs.Prefixes.{after_prefix_restoring, has_under};
ghost use Rattle.rart_maps.specs.Versions.{HasRoom, has_no_key};
ghost use Rattle.rart_node.specs.Counts.{CountsUpTo};
ghost use Rattle.rart_versioned.specs.Roots.{HasSomeIn, IsReplacedUnder, IsTreeIn, below_root, found_in};

use crate::counted::tree::VersionedAdaptiveRadixTree;
use rart_below::{KeyTrait, Partial};
use rart_node::{NodeRef, Work};
use rart_ways::{Cleared, clear_below, keep_under, put_under};
use std::alloc::{AllocError, Global};

impl<K: KeyTrait, V: Clone + Drop> VersionedAdaptiveRadixTree<K, V> {
    /// As `restore_prefix`, with the nodes entered and made counted into `work`: in both versions
    /// together at most three more entered than three times the bytes of the prefix, and at most
    /// three more made than it has. One is entered at least where either map has a key.
    pub fn restore_prefix_counted(
        &mut self,
        prefix: &[u8],
        from: &VersionedAdaptiveRadixTree<K, V>,
        work: &mut Work,
    ) -> Result<(), AllocError>
        requires clones { ClonesEqual V.is_clone }
        requires room { HasRoom self.old from.now.number }
        ensures restored { OnOk result
            (self.new ≡ after_prefix_restoring self.old prefix.now from.now) }
        ensures refused { OnErr result (self.new ≡ self.old) }
        ensures present { OnErr result (IsTrue (has_under self.old prefix.now)
            ⊎ IsTrue (has_under from.now prefix.now)) }
        ensures counted { CountsUpTo (3 * lookup_bound prefix.now) (change_bound prefix.now + 1)
            work.old work.new }
        ensures entered { has_no_key self.old ≡ false → work.old.entered < work.new.entered }
        ensures entered_other { has_no_key from.now ≡ false → work.old.entered < work.new.entered }
    {
        let version = self.version + from.version;
        restore_under(
            self.alloc,
            &mut self.root,
            prefix,
            &from.root,
            version,
            work,
        )?;
        self.version = version;
        Ok(())
    }
}

/// Puts all that stands under a prefix below one root, or the lack of one, in place of all that
/// stands there below another. Refused for memory, all is as before.
fn restore_under<P: Partial, V: Clone + Drop>(
    alloc: Global,
    root: &mut Option<NodeRef<P, V>>,
    prefix: &[u8],
    from: &Option<NodeRef<P, V>>,
    version: u64,
    work: &mut Work,
) -> Result<(), AllocError>
    requires clones { ClonesEqual V.is_clone }
    requires tree { IsTreeIn (below_root root.old) }
    requires lengths { (key : List ℕ) → IsSome (found_in (below_root root.old) key)
        → IsAdmitted P.MAXIMUM_SIZE (length key) }
    requires tree_from { IsTreeIn (below_root from.now) }
    requires lengths_from { (key : List ℕ) → IsSome (found_in (below_root from.now) key)
        → IsAdmitted P.MAXIMUM_SIZE (length key) }
    ensures replaced { OnOk result (IsReplacedUnder prefix.now (below_root from.now)
        (below_root root.old) (below_root root.new)) }
    ensures refused { OnErr result (below_root root.new ≡ below_root root.old) }
    ensures present { OnErr result (HasSomeIn prefix.now (below_root root.old)
        ⊎ HasSomeIn prefix.now (below_root from.now)) }
    ensures counted { CountsUpTo (3 * lookup_bound prefix.now) (change_bound prefix.now + 1)
        work.old work.new }
    ensures entered { IsSome root.old → work.old.entered < work.new.entered }
    ensures entered_from { IsSome from.now → work.old.entered < work.new.entered }
{
    let Some(from) = from else {
        return empty_under(alloc, root, prefix, version, work);
    };
    let Some(own) = root else {
        *root = keep_under(alloc, from, prefix, version, work)?;
        return Ok(());
    };
    if put_under(alloc, own, prefix, from, version, work)? {
        return Ok(());
    }
    empty_under(alloc, root, prefix, version, work)
}

/// Takes out all that stands under a prefix below a root, or the lack of one. Refused for memory,
/// all is as before.
fn empty_under<P: Partial, V: Clone + Drop>(
    alloc: Global,
    root: &mut Option<NodeRef<P, V>>,
    prefix: &[u8],
    version: u64,
    work: &mut Work,
) -> Result<(), AllocError>
    requires clones { ClonesEqual V.is_clone }
    requires tree { IsTreeIn (below_root root.old) }
    requires lengths { (key : List ℕ) → IsSome (found_in (below_root root.old) key)
        → IsAdmitted P.MAXIMUM_SIZE (length key) }
    ensures emptied { OnOk result (IsReplacedUnder prefix.now None (below_root root.old)
        (below_root root.new)) }
    ensures refused { OnErr result (below_root root.new ≡ below_root root.old) }
    ensures present { OnErr result (HasSomeIn prefix.now (below_root root.old)) }
    ensures counted { CountsUpTo (2 * lookup_bound prefix.now) (lookup_bound prefix.now)
        work.old work.new }
    ensures entered { IsSome root.old → work.old.entered < work.new.entered }
{
    let Some(node) = root else {
        return Ok(());
    };
    match clear_below(alloc, node, prefix, version, work)? {
        Cleared::Nothing => Ok(()),
        Cleared::Part => Ok(()),
        Cleared::Whole => {
            *root = None;
            Ok(())
        }
    }
}
