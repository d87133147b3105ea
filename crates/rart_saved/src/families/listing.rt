//! What changed from one version to another, as bytes.
ghost use Rattle.std.specs.Prelude.{◌≡◌, ◌+◌, ◌≤◌, ◌++◌, [], length, map, IfOk, OnOk};
ghost use Rattle.std.specs.Option.{option_copied};
ghost use Rattle.rart_maps.specs.ChangeLists.{changes};
ghost use Rattle.rart_versioned.specs.VisitControl.TheVariants.{Continue};
ghost use Rattle.rart_saved.specs.FamilyForms.{as_setting, optional};
ghost use Rattle.rart_saved.specs.Forms.{entries, entry};

use crate::entries::put_entry;
use crate::value::SavedValue;
use rart_versioned::{KeyTrait, LendingKeyView, VersionedAdaptiveRadixTree, VisitControl};
use std::alloc::{AllocError, Global};

/// Changed keys as bytes, each with what it has now, how many they are, and the last of them.
#[derive(Drop)]
pub(crate) struct Listed {
    pub(crate) bytes: Vec<u8>,
    pub(crate) count: u64,
    before: Vec<u8>,
    /// A buffer for the key that is put.
    key: Vec<u8>,
}

impl Listed {
    /// No key.
    fn new(alloc: Global) -> Listed
        ensures bytes { result.bytes.items ≡ [] }
        ensures count { result.count ≡ 0 }
        ensures before { result.before.items ≡ [] }
    {
        Listed {
            bytes: Vec::new(alloc),
            count: 0,
            before: Vec::new(alloc),
            key: Vec::new(alloc),
        }
    }

    /// One more key, with a value or none. Refused for memory, some of its bytes may be there.
    fn put<V: SavedValue>(
        &mut self,
        key: &LendingKeyView<'_, '_>,
        value: Option<&V>,
    ) -> Result<VisitControl, AllocError>
        requires room { self.old.count ≤ length self.old.bytes.items }
        ensures goes_on { IfOk result (λ control. control ≡ Continue) }
        ensures bytes { OnOk result (self.new.bytes.items ≡ self.old.bytes.items
            ++ entry (optional V.written) self.old.before.items
            (key.now, option_copied value.entry)) }
        ensures count { OnOk result (self.new.count ≡ self.old.count + 1) }
        ensures before { OnOk result (self.new.before.items ≡ key.now) }
    {
        key.write_into(&mut self.key)?;
        put_entry(
            &mut self.bytes,
            &mut self.before,
            self.key.as_slice(),
            value,
        )?;
        self.count += 1;
        Ok(VisitControl::Continue)
    }
}

/// The keys at which two versions differ, each with what it has in the new one.
pub(crate) fn list_settings<K: KeyTrait, V: SavedValue + Eq>(
    alloc: Global,
    old: &VersionedAdaptiveRadixTree<K, V>,
    new: &VersionedAdaptiveRadixTree<K, V>,
) -> Result<Listed, AllocError>
    ensures bytes { IfOk result (λ listed. listed.bytes.items ≡ entries (optional V.written) []
        (map as_setting (changes V.eq old.now.content new.now.content))) }
    ensures count { IfOk result (λ listed. listed.count
        ≡ length (changes V.eq old.now.content new.now.content)) }
{
    let mut listed = Listed::new(alloc);
    old.try_diff_lending_with(
        new,
        &mut |key: LendingKeyView<'_, '_>, _before: Option<&V>, after: Option<&V>| {
            listed.put(&key, after)
        },
    )
    .map_err(|_| AllocError)?;
    Ok(listed)
}
