//! What two versions make together: what one of them has and the other lacks, what both have, what
//! either has, and what one of them has alone. A subtree that stays whole is shared, and no call
//! goes further than the two are alike. rart has none.
ghost use Rattle.std.specs.Prelude.{◌≡◌, ◌+◌, ◌*◌, ◌≤◌, false, length, IfOk, OnOk};
ghost use Rattle.rart_below.specs.Clones.{ClonesEqual};
ghost use Rattle.rart_maps.specs.Bounds.{apart_makes, cut_makes, difference_bound, intersection_bound, union_bound, union_makes};
ghost use Rattle.rart_maps.specs.MapParts.{version_apart, version_common, version_joined, version_without};
ghost use Rattle.rart_maps.specs.Pairs.{common};
ghost use Rattle.rart_maps.specs.Versions.{HasRoom, has_no_key};
ghost use Rattle.rart_node.specs.Counts.{CountsUpTo};

use crate::counted::tree::VersionedAdaptiveRadixTree;
use rart_algebra::{common_below, difference_below, symmetric_difference_below, union_below};
use rart_below::{KeyTrait, Partial};
use rart_node::Work;
use std::alloc::AllocError;

impl<K: KeyTrait, V: Clone + Drop> VersionedAdaptiveRadixTree<K, V> {
    /// As `difference`, with the nodes entered and made counted into `work`: at most two entered
    /// for each place of the two, and one for each common key; at least two where both have a key,
    /// and, where it isn't refused, two for each common key. At most one is made for each string
    /// that begins a common key. A place is a string that begins keys of both, at which one of the
    /// two has a key, or keys of either part.
    pub fn difference_counted(
        &self,
        other: &VersionedAdaptiveRadixTree<K, V>,
        work: &mut Work,
    ) -> Result<VersionedAdaptiveRadixTree<K, V>, AllocError>
        requires clones { ClonesEqual V.is_clone }
        requires room { HasRoom self.now 1 }
        ensures difference { IfOk result (λ it. it ≡ version_without self.now other.now) }
        ensures counted { CountsUpTo (difference_bound self.now.content other.now.content)
            (cut_makes self.now.content other.now.content) work.old work.new }
        ensures entered { has_no_key self.now ≡ false → has_no_key other.now ≡ false
            → work.old.entered + 2 ≤ work.new.entered }
        ensures each { OnOk result (work.old.entered
            + 2 * length (common self.now.content other.now.content) ≤ work.new.entered) }
    {
        let version = self.version + 1;
        let alloc = self.alloc;
        let Some(left) = &self.root else {
            return Ok(VersionedAdaptiveRadixTree::new_at(alloc, version));
        };
        let Some(right) = &other.root else {
            return Ok(VersionedAdaptiveRadixTree {
                alloc,
                root: Some(left.copy()?),
                version,
            });
        };
        let root = difference_below(alloc, left, right, version, work)?;
        Ok(VersionedAdaptiveRadixTree {
            alloc,
            root,
            version,
        })
    }

    /// As `intersection`, with the nodes entered and made counted into `work`: at most three
    /// entered for each place of the two, as `difference_counted` has them; at least two where both
    /// have a key, and, where it isn't refused, two for each common key. At most one is made for
    /// each string that begins a common key.
    pub fn intersection_counted(
        &self,
        other: &VersionedAdaptiveRadixTree<K, V>,
        work: &mut Work,
    ) -> Result<VersionedAdaptiveRadixTree<K, V>, AllocError>
        requires clones { ClonesEqual V.is_clone }
        requires room { HasRoom self.now 1 }
        ensures intersection { IfOk result (λ it. it ≡ version_common self.now other.now) }
        ensures counted { CountsUpTo (intersection_bound self.now.content other.now.content)
            (cut_makes self.now.content other.now.content) work.old work.new }
        ensures entered { has_no_key self.now ≡ false → has_no_key other.now ≡ false
            → work.old.entered + 2 ≤ work.new.entered }
        ensures each { OnOk result (work.old.entered
            + 2 * length (common self.now.content other.now.content) ≤ work.new.entered) }
    {
        let version = self.version + 1;
        let alloc = self.alloc;
        let Some(left) = &self.root else {
            return Ok(VersionedAdaptiveRadixTree::new_at(alloc, version));
        };
        let Some(right) = &other.root else {
            return Ok(VersionedAdaptiveRadixTree::new_at(alloc, version));
        };
        let root = common_below(alloc, left, right, version, work)?;
        Ok(VersionedAdaptiveRadixTree {
            alloc,
            root,
            version,
        })
    }

    /// As `union`, with the nodes entered and made counted into `work`: at most two entered for
    /// each place of the two, as `difference_counted` has them; at least two where both have a key,
    /// and, where it isn't refused, two for each common key. At most three are made for each place
    /// that begins a key which the other version adds.
    pub fn union_counted(
        &self,
        other: &VersionedAdaptiveRadixTree<K, V>,
        work: &mut Work,
    ) -> Result<VersionedAdaptiveRadixTree<K, V>, AllocError>
        requires clones { ClonesEqual V.is_clone }
        requires room { HasRoom self.now other.now.number }
        ensures union { IfOk result (λ it. it ≡ version_joined self.now other.now) }
        ensures counted { CountsUpTo (union_bound self.now.content other.now.content)
            (union_makes self.now.content other.now.content) work.old work.new }
        ensures entered { has_no_key self.now ≡ false → has_no_key other.now ≡ false
            → work.old.entered + 2 ≤ work.new.entered }
        ensures each { OnOk result (work.old.entered
            + 2 * length (common self.now.content other.now.content) ≤ work.new.entered) }
    {
        let version = self.version + other.version;
        let Some(left) = &self.root else {
            return other.with_version(version);
        };
        let Some(right) = &other.root else {
            return self.with_version(version);
        };
        let alloc = self.alloc;
        let root = union_below(alloc, left, right, version, work)?;
        Ok(VersionedAdaptiveRadixTree {
            alloc,
            root,
            version,
        })
    }

    /// As `symmetric_difference`, with the nodes entered and made counted into `work`: at most two
    /// entered for each place of the two, and one for each common key; at least two where both have
    /// a key, and, where it isn't refused, two for each common key. At most three are made for each
    /// place.
    pub fn symmetric_difference_counted(
        &self,
        other: &VersionedAdaptiveRadixTree<K, V>,
        work: &mut Work,
    ) -> Result<VersionedAdaptiveRadixTree<K, V>, AllocError>
        requires clones { ClonesEqual V.is_clone }
        requires room { HasRoom self.now other.now.number }
        ensures apart { IfOk result (λ it. it ≡ version_apart self.now other.now) }
        ensures counted { CountsUpTo (difference_bound self.now.content other.now.content)
            (apart_makes self.now.content other.now.content) work.old work.new }
        ensures entered { has_no_key self.now ≡ false → has_no_key other.now ≡ false
            → work.old.entered + 2 ≤ work.new.entered }
        ensures each { OnOk result (work.old.entered
            + 2 * length (common self.now.content other.now.content) ≤ work.new.entered) }
    {
        let version = self.version + other.version;
        let Some(left) = &self.root else {
            return other.with_version(version);
        };
        let Some(right) = &other.root else {
            return self.with_version(version);
        };
        let alloc = self.alloc;
        let root = symmetric_difference_below(alloc, left, right, version, work)?;
        Ok(VersionedAdaptiveRadixTree {
            alloc,
            root,
            version,
        })
    }
}
