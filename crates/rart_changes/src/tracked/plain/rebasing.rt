//! The same changes, made on another base.
ghost use Rattle.std.specs.Prelude.{◌≡◌, ◌+◌, [], ◌∷◌, map, Contains, OnErr, OnOk};
ghost use Rattle.std.specs.Option.{option_copied};
ghost use Rattle.std.specs.FinMap as finite;
ghost use Rattle.rart_below.specs.Clones.{ClonesEqual};
ghost use Rattle.rart_changes.specs.Asks.{CanReplay};
ghost use Rattle.rart_changes.specs.ChangeVisits.{changes_at};
ghost use Rattle.rart_changes.specs.Rebasing.{IsTrackedSetTo, IsWithin, Replays};
ghost use Rattle.rart_maps.specs.ChangeLists.{changes, effects, patched};
ghost use Rattle.rart_maps.specs.Versions.{HasRoom};

use crate::tracked::TrackedTree;
use crate::tracked::keys::keys_of;
use rart_below::KeyTrait;
use rart_maps::do_differ;
use rart_versioned::{VersionedAdaptiveRadixTree, Work};
use std::alloc::AllocError;

impl<K: KeyTrait, V: Clone + Drop + Eq> TrackedTree<K, V> {
    /// Takes another version as base, and makes the changes on it: the current version is then that
    /// one with each key that changed here as it is here. Where that one changed the key too, which
    /// `conflicts_with` tells, its value is lost. No other key is touched then than before. Its
    /// number is that one's, and one greater for each key that is set, or taken out where that one
    /// has it.
    ///
    /// It asks for room for as many changes as keys are touched. Refused for memory, all is as
    /// before.
    pub fn rebase(&mut self, onto: &VersionedAdaptiveRadixTree<K, V>) -> Result<(), AllocError>
        requires clones { ClonesEqual V.is_clone }
        requires room { HasRoom onto.now (finite.len self.old.touched) }
        ensures base { OnOk result (self.new.base ≡ onto.now) }
        ensures current { OnOk result (self.new.current.content ≡ patched onto.now.content
            (changes V.eq self.old.base.content self.old.current.content)) }
        ensures number { OnOk result (self.new.current.number ≡ onto.now.number
            + effects onto.now.content
            (changes V.eq self.old.base.content self.old.current.content)) }
        ensures touched { OnOk result (IsWithin self.new.touched self.old.touched) }
        ensures refused { OnErr result (self.new ≡ self.old) }
    {
        let keys = keys_of(self.alloc, &self.touched, &mut Work::new())?;
        let mut next = TrackedTree::begin(self.alloc, onto)?;
        next.replay(&self.base, &self.current, keys)?;
        *self = next;
        Ok(())
    }

    // Makes the changes at these keys.
    fn replay(
        &mut self,
        old: &VersionedAdaptiveRadixTree<K, V>,
        new: &VersionedAdaptiveRadixTree<K, V>,
        keys: Vec<K>,
    ) -> Result<(), AllocError>
        requires { CanReplay V.is_clone K.bytes self.old.current keys.items }
        ensures { OnOk result (Replays self.old self.new
            (changes_at V.eq old.now.content new.now.content (map K.bytes keys.items))
            (λ q. Contains (map K.bytes keys.items) q)) }
    {
        for key in keys {
            self.replay_one(old, new, key)?;
        }
        Ok(())
    }

    // Makes the change at a key, if there is one.
    fn replay_one(
        &mut self,
        old: &VersionedAdaptiveRadixTree<K, V>,
        new: &VersionedAdaptiveRadixTree<K, V>,
        key: K,
    ) -> Result<(), AllocError>
        requires clones { ClonesEqual V.is_clone }
        requires room { HasRoom self.old.current 1 }
        ensures { OnOk result (Replays self.old self.new
            (changes_at V.eq old.now.content new.now.content (K.bytes key ∷ []))
            (λ q. q ≡ K.bytes key)) }
    {
        let after = new.get_k(&key);
        if do_differ(old.get_k(&key), after) {
            self.set_to(key, after)?;
        }
        Ok(())
    }

    // Sets a key to a copy of the value, or takes it out where there is none.
    fn set_to(&mut self, key: K, value: Option<&V>) -> Result<(), AllocError>
        requires clones { ClonesEqual V.is_clone }
        requires room { HasRoom self.old.current 1 }
        ensures { OnOk result (IsTrackedSetTo self.old (K.bytes key) (option_copied value.entry)
            self.new) }
    {
        match value {
            Some(value) => {
                self.insert(key.as_ref(), value.clone()?)?;
            }
            None => {
                self.delete(key.as_ref())?;
            }
        }
        Ok(())
    }
}
