// Ported from rart 0.11.0 (Apache-2.0), and rewritten.
//! All that stands under a prefix: kept as a version of its own, and taken out. It is one node and
//! what is below that, so no call goes further than the prefix.
ghost use Rattle.std.specs.Prelude.{◌≡◌, ◌+◌, ◌<◌, ◌*◌, false, IfOk, IsTrue, OnErr, OnOk};
ghost use Rattle.rart_below.specs.Clones.{ClonesEqual};
ghost use Rattle.rart_maps.specs.Bounds.{lookup_bound};
ghost use Rattle.rart_maps.specs.Prefixes.{after_prefix_removal, has_under, under_prefix};
ghost use Rattle.rart_maps.specs.Versions.{HasRoom, has_no_key};
ghost use Rattle.rart_node.specs.Counts.{CountsUpTo};

use crate::counted::tree::VersionedAdaptiveRadixTree;
use rart_below::{KeyTrait, Partial};
use rart_node::{NodeRef, Work};
use rart_ways::{Cleared, clear_below, has_under, keep_under};
use std::alloc::AllocError;

impl<K: KeyTrait, V: Clone + Drop> VersionedAdaptiveRadixTree<K, V> {
    /// As `contains_prefix`, with the nodes entered counted into `work`: at most one more than the
    /// prefix has bytes, and at least one where there is a key in the map.
    pub fn contains_prefix_counted(&self, prefix: &[u8], work: &mut Work) -> bool
        ensures there { result ≡ has_under self.now prefix.now }
        ensures counted { CountsUpTo (lookup_bound prefix.now) 0 work.old work.new }
        ensures entered { has_no_key self.now ≡ false → work.old.entered < work.new.entered }
    {
        match &self.root {
            None => false,
            Some(root) => has_under(root, prefix, work),
        }
    }

    /// As `prefix_snapshot`, with the nodes entered and made counted into `work`: at most one more
    /// entered than the prefix has bytes, and at most one made.
    pub fn prefix_snapshot_counted(
        &self,
        prefix: &[u8],
        work: &mut Work,
    ) -> Result<VersionedAdaptiveRadixTree<K, V>, AllocError>
        requires clones { ClonesEqual V.is_clone }
        requires room { HasRoom self.now 1 }
        ensures kept { IfOk result (λ part. part ≡ under_prefix self.now prefix.now 1) }
        ensures present { OnErr result (IsTrue (has_under self.now prefix.now)) }
        ensures counted { CountsUpTo (lookup_bound prefix.now) 1 work.old work.new }
        ensures entered { has_no_key self.now ≡ false → work.old.entered < work.new.entered }
        ensures absent_makes_none { has_under self.now prefix.now ≡ false
            → work.new.made ≡ work.old.made }
    {
        let version = self.version + 1;
        let alloc = self.alloc;
        let Some(root) = &self.root else {
            return Ok(VersionedAdaptiveRadixTree::new_at(alloc, version));
        };
        let root = keep_under(alloc, root, prefix, version, work)?;
        Ok(VersionedAdaptiveRadixTree {
            alloc,
            root,
            version,
        })
    }

    /// As `remove_prefix`, with the nodes entered and made counted into `work`: at most two more
    /// entered than twice the bytes of the prefix, and at most one more made than it has. None is
    /// made where it begins no key.
    pub fn remove_prefix_counted(
        &mut self,
        prefix: &[u8],
        work: &mut Work,
    ) -> Result<bool, AllocError>
        requires clones { ClonesEqual V.is_clone }
        requires room { HasRoom self.old 1 }
        ensures answer { IfOk result (λ removed. removed ≡ has_under self.old prefix.now) }
        ensures removed { OnOk result (self.new ≡ after_prefix_removal self.old prefix.now) }
        ensures refused { OnErr result (self.new ≡ self.old) }
        ensures present { OnErr result (IsTrue (has_under self.old prefix.now)) }
        ensures counted { CountsUpTo (2 * lookup_bound prefix.now) (lookup_bound prefix.now)
            work.old work.new }
        ensures entered { has_no_key self.old ≡ false → work.old.entered < work.new.entered }
        ensures absent_makes_none { has_under self.old prefix.now ≡ false
            → work.new.made ≡ work.old.made }
    {
        let version = self.version + 1;
        let alloc = self.alloc;
        let Some(root) = &mut self.root else {
            return Ok(false);
        };
        match clear_below(alloc, root, prefix, version, work)? {
            Cleared::Nothing => return Ok(false),
            Cleared::Part => {}
            Cleared::Whole => self.root = None,
        }
        self.version = version;
        Ok(true)
    }

    /// As `take_prefix`, with the nodes entered and made counted into `work`: at most three more
    /// entered than three times the bytes of the prefix, and at most two more made than it has.
    /// None is made where it begins no key.
    pub fn take_prefix_counted(
        &mut self,
        prefix: &[u8],
        work: &mut Work,
    ) -> Result<VersionedAdaptiveRadixTree<K, V>, AllocError>
        requires clones { ClonesEqual V.is_clone }
        requires room { HasRoom self.old 1 }
        ensures taken { IfOk result (λ part. part ≡ under_prefix self.old prefix.now 1) }
        ensures removed { OnOk result (self.new ≡ after_prefix_removal self.old prefix.now) }
        ensures refused { OnErr result (self.new ≡ self.old) }
        ensures present { OnErr result (IsTrue (has_under self.old prefix.now)) }
        ensures counted { CountsUpTo (3 * lookup_bound prefix.now) (lookup_bound prefix.now + 1)
            work.old work.new }
        ensures entered { has_no_key self.old ≡ false → work.old.entered < work.new.entered }
        ensures absent_makes_none { has_under self.old prefix.now ≡ false
            → work.new.made ≡ work.old.made }
    {
        let taken = self.prefix_snapshot_counted(prefix, work)?;
        self.remove_prefix_counted(prefix, work)?;
        Ok(taken)
    }
}
