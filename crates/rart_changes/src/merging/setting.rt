//! One key of a version set to a value, or taken out.
ghost use Rattle.std.specs.Prelude.{OnOk};
ghost use Rattle.std.specs.Option.{option_copied};
ghost use Rattle.rart_below.specs.Clones.{ClonesEqual};
ghost use Rattle.rart_changes.specs.Setting.{IsSetTo};
ghost use Rattle.rart_maps.specs.Versions.{HasRoom};

use rart_below::KeyTrait;
use rart_versioned::VersionedAdaptiveRadixTree;
use std::alloc::AllocError;

/// Sets a key to the value, or takes it out where there is none.
pub(crate) fn put<K: KeyTrait, V: Clone + Drop>(
    tree: &mut VersionedAdaptiveRadixTree<K, V>,
    key: K,
    value: Option<V>,
) -> Result<(), AllocError>
    requires clones { ClonesEqual V.is_clone }
    requires room { HasRoom tree.old 1 }
    ensures { OnOk result (IsSetTo tree.old (K.bytes key) value tree.new) }
{
    match value {
        Some(value) => {
            tree.insert(key, value)?;
        }
        None => {
            tree.delete(key)?;
        }
    }
    Ok(())
}

/// As `put`, with a copy of the value.
pub(crate) fn put_copy<K: KeyTrait, V: Clone + Drop>(
    tree: &mut VersionedAdaptiveRadixTree<K, V>,
    key: K,
    value: Option<&V>,
) -> Result<(), AllocError>
    requires clones { ClonesEqual V.is_clone }
    requires room { HasRoom tree.old 1 }
    ensures { OnOk result (IsSetTo tree.old (K.bytes key) (option_copied value.entry) tree.new) }
{
    match value {
        Some(value) => put(tree, key, Some(value.clone()?)),
        None => put(tree, key, None),
    }
}
