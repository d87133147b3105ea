//! What two versions make together, with no count. rart has none.
ghost use Rattle.std.specs.Prelude.{◌≡◌, IfOk};
ghost use Rattle.rart_below.specs.Clones.{ClonesEqual};
ghost use Rattle.rart_maps.specs.MapParts.{version_apart, version_common, version_joined, version_without};
ghost use Rattle.rart_maps.specs.Versions.{HasRoom};

use crate::counted::VersionedAdaptiveRadixTree;
use rart_below::KeyTrait;
use rart_node::Work;
use std::alloc::AllocError;

impl<K: KeyTrait, V: Clone + Drop> VersionedAdaptiveRadixTree<K, V> {
    /// A version of its own with the pairs of this one whose key the other lacks, whatever the
    /// values, its number one greater than this one's. Both versions and their numbers stay as they
    /// are, also where memory for it is refused.
    ///
    /// Both trees are gone down at once, as far as they are alike. What this one has alone is
    /// shared: where the keys of the two part at their first bytes, the call takes a few steps,
    /// however many keys there are. rart has no such call.
    ///
    /// ```
    /// let only_here = permissions.difference(&granted_there)?;
    /// ```
    pub fn difference(
        &self,
        other: &VersionedAdaptiveRadixTree<K, V>,
    ) -> Result<VersionedAdaptiveRadixTree<K, V>, AllocError>
        requires clones { ClonesEqual V.is_clone }
        requires room { HasRoom self.now 1 }
        ensures { IfOk result (λ it. it ≡ version_without self.now other.now) }
    {
        self.difference_counted(other, &mut Work::new())
    }

    /// A version of its own with the pairs of this one whose key the other has too, whatever the
    /// values, its number one greater than this one's. Both versions and their numbers stay as they
    /// are, also where memory for it is refused.
    ///
    /// Both trees are gone down at once, as far as they are alike: where their keys part at their
    /// first bytes, the call takes a few steps, however many there are. A subtree of which every
    /// key is in both is shared. rart has no such call; `intersect_values_with` visits the common
    /// keys.
    ///
    /// ```
    /// let granted_in_both = permissions.intersection(&granted_there)?;
    /// ```
    pub fn intersection(
        &self,
        other: &VersionedAdaptiveRadixTree<K, V>,
    ) -> Result<VersionedAdaptiveRadixTree<K, V>, AllocError>
        requires clones { ClonesEqual V.is_clone }
        requires room { HasRoom self.now 1 }
        ensures { IfOk result (λ it. it ≡ version_common self.now other.now) }
    {
        self.intersection_counted(other, &mut Work::new())
    }

    /// A version of its own with the pairs of both, this one's where a key is in both. Its number
    /// is the sum of the two numbers, since it may have all keys of both: a version united with
    /// itself 64 times has no room left, and `set_version` lowers a number. Both versions and their
    /// numbers stay as they are, also where memory for it is refused. In Rust this is `append` of a
    /// `BTreeMap`, where the other one's values stay, and the other map is emptied.
    ///
    /// Both trees are gone down at once, as far as they are alike, and what one of them has alone
    /// is shared: where the keys of the two part at their first bytes, the call takes a few steps,
    /// however many keys there are. rart has no such call.
    ///
    /// ```
    /// let routes = east.union(&west)?;
    /// ```
    pub fn union(
        &self,
        other: &VersionedAdaptiveRadixTree<K, V>,
    ) -> Result<VersionedAdaptiveRadixTree<K, V>, AllocError>
        requires clones { ClonesEqual V.is_clone }
        requires room { HasRoom self.now other.now.number }
        ensures { IfOk result (λ it. it ≡ version_joined self.now other.now) }
    {
        self.union_counted(other, &mut Work::new())
    }

    /// A version of its own with the pairs of either version whose key the other lacks, whatever
    /// the values. Its number is the sum of the two numbers. Both versions and their numbers stay
    /// as they are, also where memory for it is refused.
    ///
    /// Both trees are gone down at once, as far as they are alike, and what one of them has alone
    /// is shared. rart has no such call; `diff_with` visits the keys that differ, also by their
    /// values.
    ///
    /// ```
    /// let granted_in_one = permissions.symmetric_difference(&granted_there)?;
    /// ```
    pub fn symmetric_difference(
        &self,
        other: &VersionedAdaptiveRadixTree<K, V>,
    ) -> Result<VersionedAdaptiveRadixTree<K, V>, AllocError>
        requires clones { ClonesEqual V.is_clone }
        requires room { HasRoom self.now other.now.number }
        ensures { IfOk result (λ it. it ≡ version_apart self.now other.now) }
    {
        self.symmetric_difference_counted(other, &mut Work::new())
    }
}
