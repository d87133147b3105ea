//! The keys of a set of keys, collected into a list.
ghost use Rattle.std.specs.Prelude.{◌≡◌, ◌≤◌, ◌+◌, ◌*◌, ◌++◌, ◌∷◌, [], length, map, IfOk, OnOk};
ghost use Rattle.std.specs.FinMap as finite;
ghost use Rattle.rart_below.specs.Bytes.{IsAdmitted};
ghost use Rattle.rart_versioned.specs.Counts.{CountsUpTo};
ghost use Rattle.rart_changes.specs.KeptKeys.{Kept};
ghost use Rattle.rart_changes.specs.Tracking.{listed};

use rart_below::{KeyTrait, LendingKeyView};
use rart_versioned::{VersionedAdaptiveRadixTree, Work};
use std::alloc::{AllocError, Global};

/// The keys of a set, in order. It enters at most two nodes for each, and where it isn't refused at
/// least one. Refused for memory, there is no list.
pub(crate) fn keys_of<K: KeyTrait>(
    alloc: Global,
    set: &VersionedAdaptiveRadixTree<K, ()>,
    work: &mut Work,
) -> Result<Vec<K>, AllocError>
    ensures keys { IfOk result (λ keys. map K.bytes keys.items ≡ listed set.now.content) }
    ensures counted { CountsUpTo (2 * finite.len set.now.content) 0 work.old work.new }
    ensures each { OnOk result (work.old.entered + finite.len set.now.content ≤ work.new.entered) }
{
    // (each key has a length that keys may have)
    set.know_keys_for_proof();
    let mut kept: KeptKeys<K> = KeptKeys::new(alloc);
    set.for_each_view_counted(
        &mut |key: LendingKeyView<'_, '_>, _unit: &()| {
            kept.keep(&key);
        },
        work,
    )?;
    kept.keys
}

/// The keys that a visit has gone over so far, or that memory for one of them was refused: then
/// nothing more is kept.
#[derive(Drop)]
struct KeptKeys<K> {
    alloc: Global,
    keys: Result<Vec<K>, AllocError>,
}

impl<K: KeyTrait> KeptKeys<K> {
    fn new(alloc: Global) -> KeptKeys<K>
        ensures { IfOk result.keys (λ keys. keys.items ≡ []) }
    {
        KeptKeys {
            alloc,
            keys: Ok(Vec::new(alloc)),
        }
    }

    fn keep(&mut self, key: &LendingKeyView<'_, '_>)
        requires { IsAdmitted K.MAXIMUM_SIZE (length key.now) }
        ensures { Kept K.bytes self.old.keys (key.now ∷ []) self.new.keys }
    {
        if let Ok(keys) = &mut self.keys {
            if let Err(refused) = push_key(self.alloc, keys, key) {
                self.keys = Err(refused);
            }
        }
    }
}

fn push_key<K: KeyTrait>(
    alloc: Global,
    keys: &mut Vec<K>,
    key: &LendingKeyView<'_, '_>,
) -> Result<(), AllocError>
    requires { IsAdmitted K.MAXIMUM_SIZE (length key.now) }
    ensures { OnOk result (map K.bytes keys.new.items
        ≡ map K.bytes keys.old.items ++ key.now ∷ []) }
{
    keys.push(key.to_key(alloc)?)?;
    Ok(())
}
