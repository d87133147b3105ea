//! Patches and merges, as methods of a version.
ghost use Rattle.std.specs.Prelude.{◌≡◌, ◌+◌, OnErr, OnOk, length};
ghost use Rattle.rart_below.specs.Clones.{ClonesEqual};
ghost use Rattle.rart_changes.specs.Merging.{ByLentConflict, MergesTo, held_in_either};
ghost use Rattle.rart_maps.specs.ChangeLists.{changes, effects, patched};
ghost use Rattle.rart_maps.specs.Merges.{conflicts};
ghost use Rattle.rart_maps.specs.Versions.{Version, HasRoom};
ghost use Rattle.rart_versioned.specs.Replies.{Answerable, IsAskedUpTo};

mod drafts;
mod merges;
mod patches;
mod setting;

use crate::merging::merges::merged_copy;
use crate::merging::patches::patched_copy;
use rart_below::KeyTrait;
use rart_versioned::VersionedAdaptiveRadixTree;
use std::alloc::AllocError;

/// What a version takes over from others: `VersionedAdaptiveRadixTree` does so.
///
/// Contracts see it as `version`, a map and a number.
pub trait Merging<K: KeyTrait, V: Clone + Drop + Eq> {
    ghost version: { Self → Version V };

    /// Makes the changes from an old version to a new one on this one. Each key at which those two
    /// differ is set to a copy of its value in the new one, or taken out where it is not there. The
    /// others stay as they are. The old one and the new one need have nothing to do with this one.
    ///
    /// The number is one greater for each key that is set, or taken out where it is there. It asks
    /// for room for all the changes, which `diff_count` counts. Refused for memory, map and number
    /// are as before.
    ///
    /// ```
    /// mine.patch(before, after)?;
    /// ```
    fn patch(&mut self, old: &Self, new: &Self) -> Result<(), AllocError>
        requires clones { ClonesEqual V.is_clone }
        requires room { HasRoom (version self.old)
            (length (changes V.eq (version old.now).content (version new.now).content)) }
        ensures patched { OnOk result ((version self.new).content
            ≡ patched (version self.old).content
            (changes V.eq (version old.now).content (version new.now).content)) }
        ensures number { OnOk result ((version self.new).number ≡ (version self.old).number
            + effects (version self.old).content
            (changes V.eq (version old.now).content (version new.now).content)) }
        ensures refused { OnErr result (self.new ≡ self.old) };

    /// Merges theirs into this one, ours, where both began with the base: the changes from the base
    /// to theirs are made on ours. In conflict is a key that both changed, and not to the same. It
    /// gets what the closure answers, or goes where that is `None`. The closure is called with the
    /// key, and references to the values of the base, of ours and of theirs, where there are any.
    /// It is called on the conflicts alone, in order, once each.
    ///
    /// The number is one greater for each key that theirs changed and that is there before the call
    /// or after it. It asks for room for all the changes of theirs, which `diff_count` counts.
    /// Refused for memory, map and number are as before, and the closure was called on a prefix
    /// of the conflicts.
    ///
    /// ```
    /// // of two new prices the greater; a line that one side took out goes
    /// ours.merge_with(
    ///     base,
    ///     theirs,
    ///     &mut |_line: &VectorKey, _was: Option<&u64>, our: Option<&u64>, their: Option<&u64>| {
    ///         match (our, their) {
    ///             (Some(our), Some(their)) => Some((*our).max(*their)),
    ///             _ => None,
    ///         }
    ///     },
    /// )?;
    /// ```
    fn merge_with<F: FnMut(&K, Option<&V>, Option<&V>, Option<&V>) -> Option<V>>(
        &mut self,
        base: &Self,
        theirs: &Self,
        f: &mut F,
    ) -> Result<(), AllocError>
        requires clones { ClonesEqual V.is_clone }
        requires room { HasRoom (version self.old)
            (length (changes V.eq (version base.now).content (version theirs.now).content)) }
        requires answerable { Answerable F.FnMut (ByLentConflict K.bytes) f.old
            (conflicts V.eq (version base.now).content (version self.old).content
            (version theirs.now).content) }
        ensures merged { OnOk result (MergesTo F.FnMut (ByLentConflict K.bytes) V.eq f.old
            (version base.now).content (version self.old).content (version theirs.now).content
            f.new (version self.new).content) }
        ensures number { OnOk result ((version self.new).number ≡ (version self.old).number
            + held_in_either (version self.old).content (version self.new).content
            (changes V.eq (version base.now).content (version theirs.now).content)) }
        ensures refused { OnErr result (self.new ≡ self.old) }
        ensures asked { OnErr result (IsAskedUpTo F.FnMut (ByLentConflict K.bytes) f.old
            (conflicts V.eq (version base.now).content (version self.old).content
            (version theirs.now).content) f.new) };
}

impl<K: KeyTrait, V: Clone + Drop + Eq> Merging<K, V> for VersionedAdaptiveRadixTree<K, V> {
    ghost version = { λ version. version };

    fn patch(
        &mut self,
        old: &VersionedAdaptiveRadixTree<K, V>,
        new: &VersionedAdaptiveRadixTree<K, V>,
    ) -> Result<(), AllocError> {
        let next = patched_copy(self, old, new)?;
        *self = next;
        Ok(())
    }

    fn merge_with<F: FnMut(&K, Option<&V>, Option<&V>, Option<&V>) -> Option<V>>(
        &mut self,
        base: &VersionedAdaptiveRadixTree<K, V>,
        theirs: &VersionedAdaptiveRadixTree<K, V>,
        f: &mut F,
    ) -> Result<(), AllocError> {
        let next = merged_copy(base, self, theirs, f)?;
        *self = next;
        Ok(())
    }
}
