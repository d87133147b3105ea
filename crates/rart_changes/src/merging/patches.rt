//! The changes from one version to another, made on a copy of a third.
ghost use Rattle.std.specs.Prelude.{◌≡◌, length, IfOk, IsOk};
ghost use Rattle.rart_below.specs.Clones.{ClonesEqual};
ghost use Rattle.rart_changes.specs.Patching.{IsPatched};
ghost use Rattle.rart_changes.specs.Setting.{IsSetTo};
ghost use Rattle.rart_maps.specs.ChangeLists.{changes};
ghost use Rattle.rart_maps.specs.Versions.{HasRoom, value_at};

use crate::merging::drafts::Draft;
use rart_below::KeyTrait;
use rart_versioned::VersionedAdaptiveRadixTree;
use std::alloc::AllocError;

/// A copy of a version with the changes from one to another.
pub(crate) fn patched_copy<K: KeyTrait, V: Clone + Drop + Eq>(
    tree: &VersionedAdaptiveRadixTree<K, V>,
    old: &VersionedAdaptiveRadixTree<K, V>,
    new: &VersionedAdaptiveRadixTree<K, V>,
) -> Result<VersionedAdaptiveRadixTree<K, V>, AllocError>
    requires clones { ClonesEqual V.is_clone }
    requires room { HasRoom tree.now
        (length (changes V.eq old.now.content new.now.content)) }
    ensures { IfOk result (λ after. IsPatched tree.now
        (changes V.eq old.now.content new.now.content) after) }
{
    let mut draft = Draft::of(tree)?;
    // (the value is looked up once more: a closure that lends the draft alone gets no proof here)
    old.diff_with(
        new,
        &mut |key: K, _before: Option<&V>, _after: Option<&V>|
            requires clones { ClonesEqual V.is_clone }
            requires room { IsOk draft.made → HasRoom draft.next 1 }
            ensures sets { IsOk draft.exit.made → IsOk draft.entry.made
                × IsSetTo draft.entry.next (K.bytes key) (value_at new.entry.now (K.bytes key))
                draft.exit.next }
            ensures new { new.exit.now ≡ new.entry.now }
        {
            draft.take_over(new, key);
        },
    )?;
    draft.made?;
    Ok(draft.next)
}
