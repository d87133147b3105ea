// Ported from rart 0.11.0 (Apache-2.0), and rewritten.
//! Many removals, told by a closure, of which all are made or none.
ghost use Rattle.std.specs.Prelude.{◌≡◌, Bool, IfOk, OnErr, OnOk};
ghost use Rattle.std.specs.FinMap as finite;
ghost use Rattle.rart_below.specs.Clones.{ClonesEqual};
ghost use Rattle.rart_maps.specs.Pairs.{pairs};
ghost use Rattle.rart_maps.specs.Versions.{HasRoom};
ghost use Rattle.rart_maps.specs.Visits.{BySlice, CallableOn, CalledOn};
ghost use Rattle.rart_versioned.specs.Replies.{Answerable, IsAskedUpTo};
ghost use Rattle.rart_versioned.specs.Retained.{Retains, after_reply};

use crate::counted::VersionedAdaptiveRadixTree;
use rart_below::KeyTrait;
use std::alloc::AllocError;
use std::ops::Bound;

impl<K: KeyTrait, V: Clone + Drop> VersionedAdaptiveRadixTree<K, V> {
    /// Asks the closure about each pair once, in the order of the keys, by the bytes of the key
    /// and a reference to the value, and takes out those for which it answers `false`: the number
    /// rises by one for each of these.
    ///
    /// ```
    /// list.retain(&mut |name: &[u8], price: &u64| name.len() < 20 && *price > 0)?;
    /// ```
    ///
    /// It asks for room for as many removals as there are keys. All are made or none: refused for
    /// memory, map and number are as before, and the closure was asked about the first pairs, or
    /// none. So it changes a clone, which copies each node on the ways to the keys once. rart has
    /// no such call.
    pub fn retain<F: FnMut(&[u8], &V) -> bool>(&mut self, keep: &mut F) -> Result<(), AllocError>
        requires clones { ClonesEqual V.is_clone }
        requires room { HasRoom self.old (finite.len self.old.content) }
        requires answerable { Answerable F.FnMut BySlice keep.old (pairs self.old.content) }
        ensures retains { OnOk result (Retains F.FnMut BySlice keep.old self.old
            keep.new self.new) }
        ensures refused { OnErr result (self.new ≡ self.old) }
        ensures asked { OnErr result (IsAskedUpTo F.FnMut BySlice keep.old
            (pairs self.old.content) keep.new) }
    {
        *self = self.retained(keep)?;
        Ok(())
    }

    /// A clone without the pairs for which the closure answers `false`.
    fn retained<F: FnMut(&[u8], &V) -> bool>(&self, keep: &mut F) -> Result<Self, AllocError>
        requires clones { ClonesEqual V.is_clone }
        requires room { HasRoom self.now (finite.len self.now.content) }
        requires answerable { Answerable F.FnMut BySlice keep.old (pairs self.now.content) }
        ensures retains { IfOk result (λ next. Retains F.FnMut BySlice keep.old self.now
            keep.new next) }
        ensures asked { OnErr result (IsAskedUpTo F.FnMut BySlice keep.old
            (pairs self.now.content) keep.new) }
    {
        let mut next = self.clone()?;
        let mut cursor = self.cursor_from(Bound::Unbounded)?;
        'asking: while let Some(value) = cursor.next_value()? {
            next.ask_about(cursor.key(), value, keep)?;
        }
        Ok(next)
    }

    /// Asks the closure about a pair, and takes its key out where it answers `false`.
    fn ask_about<F: FnMut(&[u8], &V) -> bool>(
        &mut self,
        key: &[u8],
        value: &V,
        keep: &mut F,
    ) -> Result<(), AllocError>
        requires clones { ClonesEqual V.is_clone }
        requires room { HasRoom self.old 1 }
        requires callable { CallableOn F.FnMut BySlice keep.old (key.now, value.now) }
        ensures { (kept : Bool)
            × CalledOn F.FnMut BySlice keep.old (key.now, value.now) kept keep.new
            × OnOk result (self.new ≡ after_reply self.old (key.now, value.now) kept) }
    {
        if !keep(key, value) {
            self.remove_bytes(key)?;
        }
        Ok(())
    }
}
