// Ported from rart 0.11.0 (Apache-2.0), and rewritten.
//! All that stands under a prefix, with no count. A prefix may be a text, bytes, a key, or whatever
//! else lends bytes.
ghost use Rattle.std.specs.Prelude.{◌≡◌, ◌⊎◌, IfOk, IsTrue, OnErr, OnOk};
ghost use Rattle.rart_below.specs.Clones.{ClonesEqual};
ghost use Rattle.rart_maps.specs.Prefixes.{after_prefix_removal, after_prefix_restoring, has_under, under_prefix};
ghost use Rattle.rart_maps.specs.Versions.{HasRoom};

use crate::counted::VersionedAdaptiveRadixTree;
use rart_below::KeyTrait;
use rart_node::Work;
use std::alloc::AllocError;
use std::convert::AsSlice;

impl<K: KeyTrait, V: Clone + Drop> VersionedAdaptiveRadixTree<K, V> {
    /// Whether the prefix begins a key, itself among them. It can't be refused. rart has no such
    /// call.
    ///
    /// ```
    /// let has_teas = list.contains_prefix("tea ");
    /// ```
    pub fn contains_prefix<Q: AsSlice<u8> + Drop>(&self, prefix: Q) -> bool
        ensures { result ≡ has_under self.now (Q.items prefix) }
    {
        self.contains_prefix_counted(prefix.as_slice(), &mut Work::new())
    }

    /// A version of its own with the pairs alone whose key the prefix begins, its number one
    /// greater than this one's. Both share what is below the prefix. This version and its number
    /// stay as they are, also where memory for the copy is refused. Where the prefix begins no key,
    /// it isn't refused.
    ///
    /// ```
    /// let of_customer = orders.prefix_snapshot(&customer)?;
    /// ```
    pub fn prefix_snapshot<Q: AsSlice<u8> + Drop>(
        &self,
        prefix: Q,
    ) -> Result<VersionedAdaptiveRadixTree<K, V>, AllocError>
        requires clones { ClonesEqual V.is_clone }
        requires room { HasRoom self.now 1 }
        ensures kept { IfOk result (λ part. part ≡ under_prefix self.now (Q.items prefix) 1) }
        ensures present { OnErr result (IsTrue (has_under self.now (Q.items prefix))) }
    {
        self.prefix_snapshot_counted(prefix.as_slice(), &mut Work::new())
    }

    /// Takes out all pairs whose key the prefix begins, and says whether there was one: the number
    /// is then one greater. Where there was none, map and number stay, and it isn't refused.
    /// Refused for memory, map and number are as before.
    ///
    /// ```
    /// let had_teas = list.remove_prefix("tea ")?;
    /// ```
    pub fn remove_prefix<Q: AsSlice<u8> + Drop>(&mut self, prefix: Q) -> Result<bool, AllocError>
        requires clones { ClonesEqual V.is_clone }
        requires room { HasRoom self.old 1 }
        ensures answer { IfOk result (λ removed. removed ≡ has_under self.old (Q.items prefix)) }
        ensures removed { OnOk result (self.new ≡ after_prefix_removal self.old (Q.items prefix)) }
        ensures refused { OnErr result (self.new ≡ self.old) }
        ensures present { OnErr result (IsTrue (has_under self.old (Q.items prefix))) }
    {
        self.remove_prefix_counted(prefix.as_slice(), &mut Work::new())
    }

    /// Takes out all pairs whose key the prefix begins, as `remove_prefix`, and answers them, as
    /// `prefix_snapshot`. Refused for memory, map and number are as before.
    ///
    /// ```
    /// let teas = list.take_prefix("tea ")?;
    /// ```
    pub fn take_prefix<Q: AsSlice<u8> + Drop>(
        &mut self,
        prefix: Q,
    ) -> Result<VersionedAdaptiveRadixTree<K, V>, AllocError>
        requires clones { ClonesEqual V.is_clone }
        requires room { HasRoom self.old 1 }
        ensures taken { IfOk result (λ part. part ≡ under_prefix self.old (Q.items prefix) 1) }
        ensures removed { OnOk result (self.new ≡ after_prefix_removal self.old (Q.items prefix)) }
        ensures refused { OnErr result (self.new ≡ self.old) }
        ensures present { OnErr result (IsTrue (has_under self.old (Q.items prefix))) }
    {
        self.take_prefix_counted(prefix.as_slice(), &mut Work::new())
    }

    /// Puts all pairs of another version whose key the prefix begins in place of the pairs of this
    /// one whose key it begins; the other pairs stay. A key that the other version lacks there
    /// goes. Both share what is below the prefix, and the other version stays as it is, its number
    /// too.
    ///
    /// The number is then the sum of both, whether or not a pair changes: a version that is
    /// restored from one fixed version again and again rises by that one's number each time, and
    /// not at all where that is 0. Refused for memory, map and number are as before. It is not
    /// refused where neither has a key that the prefix begins.
    ///
    /// With the pairs `a` 1, `ab` 2, `abc` 3, `ac` 4 here and `aba` 20, `abc` 30, `b` 50 there, the
    /// prefix `ab` leaves `a` 1, `aba` 20, `abc` 30, `ac` 4; the empty one makes this map that one.
    ///
    /// ```
    /// let yesterday = list.clone()?;
    /// list.insert_bytes("tea pot", 2_000)?;
    /// list.restore_prefix("tea ", &yesterday)?;
    /// ```
    pub fn restore_prefix<Q: AsSlice<u8> + Drop>(
        &mut self,
        prefix: Q,
        from: &VersionedAdaptiveRadixTree<K, V>,
    ) -> Result<(), AllocError>
        requires clones { ClonesEqual V.is_clone }
        requires room { HasRoom self.old from.now.number }
        ensures restored { OnOk result
            (self.new ≡ after_prefix_restoring self.old (Q.items prefix) from.now) }
        ensures refused { OnErr result (self.new ≡ self.old) }
        ensures present { OnErr result (IsTrue (has_under self.old (Q.items prefix))
            ⊎ IsTrue (has_under from.now (Q.items prefix))) }
    {
        self.restore_prefix_counted(prefix.as_slice(), from, &mut Work::new())
    }
}
