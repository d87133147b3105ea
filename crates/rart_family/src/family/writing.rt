//! A value written through the reference that a version lends.
ghost use Rattle.std.specs.Prelude.{◌*◌, OnErr, IsTrue};
ghost use Rattle.rart_versioned.specs.Clones.{ClonesEqual};
ghost use Rattle.rart_maps.specs.Versions.{HasRoom, has_key};
ghost use Rattle.rart_maps.specs.Changes.{Changes, writing};
ghost use Rattle.rart_maps.specs.Bounds.{lookup_bound};
ghost use Rattle.rart_versioned.specs.ChangeCounts.{CountsChange};

use rart_versioned::{KeyTrait, Missing, VersionedAdaptiveRadixTree, Work};
use std::alloc::AllocError;

/// Writes the value of a key that is there, and says whether it was.
pub(super) fn write_value<K: KeyTrait, V: Clone + Drop>(
    version: &mut VersionedAdaptiveRadixTree<K, V>,
    key: &K,
    value: V,
    changes: &mut Work,
) -> Result<bool, AllocError>
    requires clones { ClonesEqual V.is_clone }
    requires room { HasRoom version.old 1 }
    ensures changes { Changes result version.old version.new
        (writing version.old (K.bytes key.now) value) }
    ensures present { OnErr result (IsTrue (has_key version.old (K.bytes key.now))) }
    ensures counted { CountsChange (2 * lookup_bound (K.bytes key.now)) version.old
        (K.bytes key.now) changes.old changes.new }
{
    match version.value_mut_counted(key, changes) {
        Ok(to) => {
            *to = value;
            Ok(true)
        }
        Err(Missing::Absent) => Ok(false),
        Err(Missing::Memory(error)) => Err(error),
    }
}
