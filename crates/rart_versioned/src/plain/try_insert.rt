// Ported from rart 0.11.0 (Apache-2.0), and rewritten.
//! Insertion that tests for length and room itself.
ghost use Rattle.std.specs.Prelude.{◌≡◌, length, Err, IfOk, IsOkUnless, OnErr, OnOk, Some};
ghost use Rattle.rart_below.specs.Bytes.{IsAdmitted};
ghost use Rattle.rart_below.specs.Clones.{ClonesEqual};
ghost use Rattle.rart_maps.specs.Lookups.{Sets};
ghost use Rattle.rart_maps.specs.Versions.{HasRoom, has_key, with_key};

use crate::counted::VersionedAdaptiveRadixTree;
use rart_below::{KeyTrait, is_admitted};
use std::convert::AsSlice;
use thiserror::Error;

/// Why a value was not put in. Map and number are then as before.
#[derive(Drop, Error)]
#[derive_where(Debug)]
pub enum InsertError<V> {
    /// The key is longer than the key type admits. The value comes back.
    #[error("the key is longer than the tree's keys may be")]
    TooLong(#[derive_where(skip)] V),
    /// The number is the greatest of 64 bits and can't rise. The value comes back.
    #[error("the number of the tree can't rise")]
    NoRoom(#[derive_where(skip)] V),
    /// Memory was refused on the way to the key. The value was handed down there and is gone.
    #[error("out of memory")]
    NoMemory,
}

impl<K: KeyTrait, V: Clone + Drop> VersionedAdaptiveRadixTree<K, V> {
    /// As `insert_bytes`, of any key and any number. `TooLong` comes where the key is longer than
    /// the key type admits, and there alone. Else `NoRoom` comes where the number is the greatest,
    /// and `NoMemory` where memory was refused. Refused, map and number are as before. The Rust has
    /// no such call.
    ///
    /// ```
    /// let replaced = list.try_insert(name, 300)?;
    /// ```
    pub fn try_insert<Q: AsSlice<u8> + Drop>(
        &mut self,
        key: Q,
        value: V,
    ) -> Result<bool, InsertError<V>>
        requires clones { ClonesEqual V.is_clone }
        ensures answer { IfOk result (λ replaced. replaced ≡ has_key self.old (Q.items key)) }
        ensures set { OnOk result (self.new ≡ with_key self.old (Q.items key) value 1) }
        ensures lookups { OnOk result (Sets self.old self.new (Q.items key) (Some value)) }
        ensures refused { OnErr result (self.new ≡ self.old) }
        ensures too_long { ¬ IsAdmitted K.MAXIMUM_SIZE (length (Q.items key))
            → result ≡ Err (InsertError.TooLong value) }
        ensures no_room { IsAdmitted K.MAXIMUM_SIZE (length (Q.items key))
            → ¬ HasRoom self.old 1 → result ≡ Err (InsertError.NoRoom value) }
        ensures room { IsAdmitted K.MAXIMUM_SIZE (length (Q.items key))
            → HasRoom self.old 1 → IsOkUnless result InsertError.NoMemory }
    {
        if !is_admitted(K::MAXIMUM_SIZE, key.as_slice().len()) {
            return Err(InsertError::TooLong(value));
        }
        if self.version() == u64::MAX {
            return Err(InsertError::NoRoom(value));
        }
        match self.insert_bytes(key, value) {
            Ok(replaced) => Ok(replaced),
            Err(_refused) => Err(InsertError::NoMemory),
        }
    }
}
