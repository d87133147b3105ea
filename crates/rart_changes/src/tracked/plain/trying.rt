//! Insertion that tests for length and room itself.
ghost use Rattle.std.specs.Prelude.{◌≡◌, length, Err, IfOk, IsOkUnless, OnErr, OnOk};
ghost use Rattle.rart_below.specs.Bytes.{IsAdmitted};
ghost use Rattle.rart_below.specs.Clones.{ClonesEqual};
ghost use Rattle.rart_changes.specs.Tracking.{after_insertion};
ghost use Rattle.rart_maps.specs.Versions.{HasRoom, has_key};

use crate::tracked::TrackedTree;
use rart_below::{KeyTrait, is_admitted};
use rart_versioned::{InsertError, VersionedAdaptiveRadixTree};
use std::convert::AsSlice;

impl<K: KeyTrait, V: Clone + Drop> TrackedTree<K, V> {
    /// As `insert`, of any key and any number. `TooLong` comes where the key is longer than the key
    /// type admits, and there alone. Else `NoRoom` comes where the current number is the greatest,
    /// and `NoMemory` where memory was refused. Refused, all is as before.
    pub fn try_insert<Q: AsSlice<u8> + Drop>(
        &mut self,
        key: Q,
        value: V,
    ) -> Result<bool, InsertError<V>>
        requires clones { ClonesEqual V.is_clone }
        ensures answer { IfOk result
            (λ replaced. replaced ≡ has_key self.old.current (Q.items key)) }
        ensures set { OnOk result (self.new ≡ after_insertion self.old (Q.items key) value) }
        ensures refused { OnErr result (self.new ≡ self.old) }
        ensures too_long { ¬ IsAdmitted K.MAXIMUM_SIZE (length (Q.items key))
            → result ≡ Err (InsertError.TooLong value) }
        ensures no_room { IsAdmitted K.MAXIMUM_SIZE (length (Q.items key))
            → ¬ HasRoom self.old.current 1 → result ≡ Err (InsertError.NoRoom value) }
        ensures room { IsAdmitted K.MAXIMUM_SIZE (length (Q.items key))
            → HasRoom self.old.current 1 → IsOkUnless result InsertError.NoMemory }
    {
        if !is_admitted(K::MAXIMUM_SIZE, key.as_slice().len()) {
            return Err(InsertError::TooLong(value));
        }
        if self.current().version() == u64::MAX {
            return Err(InsertError::NoRoom(value));
        }
        match self.insert(key, value) {
            Ok(replaced) => Ok(replaced),
            Err(_refused) => Err(InsertError::NoMemory),
        }
    }
}
