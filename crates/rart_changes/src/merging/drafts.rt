//! A version that changes are being made on.
ghost use Rattle.std.specs.Prelude.{◌≡◌, IfOk, IsOk};
ghost use Rattle.rart_below.specs.Clones.{ClonesEqual};
ghost use Rattle.rart_changes.specs.Setting.{IsSetTo};
ghost use Rattle.rart_maps.specs.Versions.{HasRoom, value_at};

use crate::merging::setting::put_copy;
use rart_below::KeyTrait;
use rart_versioned::VersionedAdaptiveRadixTree;
use std::alloc::AllocError;

/// A copy of a version with the changes that were made so far, or that memory for one of them was
/// refused: then nothing more is made.
#[derive(Drop)]
pub(crate) struct Draft<K: KeyTrait, V: Clone + Drop> {
    pub(crate) next: VersionedAdaptiveRadixTree<K, V>,
    pub(crate) made: Result<(), AllocError>,
}

impl<K: KeyTrait, V: Clone + Drop> Draft<K, V> {
    /// A copy with no change made.
    pub(crate) fn of(tree: &VersionedAdaptiveRadixTree<K, V>) -> Result<Draft<K, V>, AllocError>
        ensures next { IfOk result (λ draft. draft.next ≡ tree.now) }
        ensures made { IfOk result (λ draft. IsOk draft.made) }
    {
        Ok(Draft {
            next: tree.clone()?,
            made: Ok(()),
        })
    }

    /// Gives a key what the other version has there.
    pub(crate) fn take_over(&mut self, other: &VersionedAdaptiveRadixTree<K, V>, key: K)
        requires clones { ClonesEqual V.is_clone }
        requires room { IsOk self.old.made → HasRoom self.old.next 1 }
        ensures { IsOk self.new.made → IsOk self.old.made × IsSetTo self.old.next (K.bytes key)
            (value_at other.now (K.bytes key)) self.new.next }
    {
        if self.made.is_ok() {
            let value = other.get_k(&key);
            self.made = put_copy(&mut self.next, key, value);
        }
    }
}
