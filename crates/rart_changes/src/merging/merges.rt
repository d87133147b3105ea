//! The changes of two sides, made on a copy of the one.
ghost use Rattle.std.specs.Prelude.{◌≡◌, ◌+◌, OnErr, IfOk, IsOk, OnOk, Option, length};
ghost use Rattle.std.specs.Option.{option_copied};
ghost use Rattle.rart_below.specs.Clones.{ClonesEqual};
ghost use Rattle.rart_changes.specs.Merging.{ByLentConflict, MergesTo, held_in_either};
ghost use Rattle.rart_changes.specs.Setting.{IsSetTo};
ghost use Rattle.rart_changes.specs.Settling.{Askable, AskableIn, Settles, SettlesIn, three_at};
ghost use Rattle.rart_maps.specs.ChangeLists.{changes};
ghost use Rattle.rart_maps.specs.Merges.{conflicts, in_conflict};
ghost use Rattle.rart_maps.specs.Versions.{HasRoom, value_at};
ghost use Rattle.rart_versioned.specs.Replies.{Answerable, IsAskedUpTo};

use crate::merging::drafts::Draft;
use crate::merging::setting::{put, put_copy};
use rart_below::KeyTrait;
use rart_maps::are_in_conflict;
use rart_versioned::VersionedAdaptiveRadixTree;
use std::alloc::AllocError;

/// A copy of ours with the changes of theirs since the base, and the closure's answers at the
/// conflicts.
pub(crate) fn merged_copy<
    K: KeyTrait,
    V: Clone + Drop + Eq,
    F: FnMut(&K, Option<&V>, Option<&V>, Option<&V>) -> Option<V>,
>(
    base: &VersionedAdaptiveRadixTree<K, V>,
    ours: &VersionedAdaptiveRadixTree<K, V>,
    theirs: &VersionedAdaptiveRadixTree<K, V>,
    f: &mut F,
) -> Result<VersionedAdaptiveRadixTree<K, V>, AllocError>
    requires clones { ClonesEqual V.is_clone }
    requires room { HasRoom ours.now
        (length (changes V.eq base.now.content theirs.now.content)) }
    requires answerable { Answerable F.FnMut (ByLentConflict K.bytes) f.old
        (conflicts V.eq base.now.content ours.now.content theirs.now.content) }
    ensures merges { IfOk result (λ after. MergesTo F.FnMut (ByLentConflict K.bytes) V.eq f.old
        base.now.content ours.now.content theirs.now.content f.new after.content) }
    ensures number { IfOk result (λ after. after.number ≡ ours.now.number
        + held_in_either ours.now.content after.content
        (changes V.eq base.now.content theirs.now.content)) }
    ensures refused { OnErr result (IsAskedUpTo F.FnMut (ByLentConflict K.bytes) f.old
        (conflicts V.eq base.now.content ours.now.content theirs.now.content) f.new) }
{
    let mut draft = Draft::of(ours)?;
    base.diff_with(
        theirs,
        &mut |key: K, before: Option<&V>, their: Option<&V>|
            requires clones { ClonesEqual V.is_clone }
            requires room { IsOk draft.made → HasRoom draft.next 1 }
            requires askable { AskableIn F.FnMut (ByLentConflict K.bytes) V.eq draft.made f.now
                (three_at K.bytes ours.now key before their) }
            ensures settles { SettlesIn F.FnMut (ByLentConflict K.bytes) V.eq draft.entry.made
                draft.entry.next f.entry.now
                (three_at K.bytes ours.entry.now key before.entry their.entry)
                draft.exit.made draft.exit.next f.exit.now }
            ensures ours { ours.exit.now ≡ ours.entry.now }
        {
            draft.settle(ours, key, before, their, f);
        },
    )?;
    draft.made?;
    Ok(draft.next)
}

impl<K: KeyTrait, V: Clone + Drop + Eq> Draft<K, V> {
    /// Settles a key that theirs changed.
    fn settle<F: FnMut(&K, Option<&V>, Option<&V>, Option<&V>) -> Option<V>>(
        &mut self,
        ours: &VersionedAdaptiveRadixTree<K, V>,
        key: K,
        before: Option<&V>,
        their: Option<&V>,
        f: &mut F,
    )
        requires clones { ClonesEqual V.is_clone }
        requires room { IsOk self.old.made → HasRoom self.old.next 1 }
        requires askable { AskableIn F.FnMut (ByLentConflict K.bytes) V.eq self.old.made f.old
            (three_at K.bytes ours.now key before their) }
        ensures { SettlesIn F.FnMut (ByLentConflict K.bytes) V.eq self.old.made self.old.next f.old
            (three_at K.bytes ours.now key before.entry their.entry)
            self.new.made self.new.next f.new }
    {
        if self.made.is_ok() {
            self.made = settle_in(&mut self.next, ours, key, before, their, f);
        }
    }
}

/// Gives a key that theirs changed the closure's answer, where there is a conflict, and else what
/// theirs has.
fn settle_in<
    K: KeyTrait,
    V: Clone + Drop + Eq,
    F: FnMut(&K, Option<&V>, Option<&V>, Option<&V>) -> Option<V>,
>(
    next: &mut VersionedAdaptiveRadixTree<K, V>,
    ours: &VersionedAdaptiveRadixTree<K, V>,
    key: K,
    before: Option<&V>,
    their: Option<&V>,
    f: &mut F,
) -> Result<(), AllocError>
    requires clones { ClonesEqual V.is_clone }
    requires room { HasRoom next.old 1 }
    requires askable { Askable F.FnMut (ByLentConflict K.bytes)
        (in_conflict V.eq (option_copied before) (value_at ours.now (K.bytes key))
        (option_copied their)) f.old (three_at K.bytes ours.now key before their) }
    ensures { (answer : Option V) × Settles F.FnMut (ByLentConflict K.bytes)
        (in_conflict V.eq (option_copied before.entry) (value_at ours.now (K.bytes key))
        (option_copied their.entry)) f.old
        (three_at K.bytes ours.now key before.entry their.entry) answer f.new
        × OnOk result (IsSetTo next.old (K.bytes key) answer next.new) }
{
    let our = ours.get_k(&key);
    if are_in_conflict(before, our, their) {
        let answer = f(&key, before, our, their);
        put(next, key, answer)
    } else {
        put_copy(next, key, their)
    }
}
