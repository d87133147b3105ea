//! A byte string as a value, shared by the versions that have it.
ghost use Rattle.std.specs.Prelude.{◌≡◌, IfOk};

use rart_saved::{LoadError, SavedValue, put_sized, sized_at};
use std::alloc::{AllocError, Global};
use std::marker::Model;
use std::rc::RcSlice;

/// A byte string. A clone shares its bytes. Contracts see the bytes.
#[derive(Drop)]
pub(crate) struct Bytes {
    bytes: RcSlice<u8>,
}

impl Model for Bytes {
    ghost use Rattle.std.specs.Prelude.{List, ℕ};
    ghost use Rattle.std.specs.Coded.{coded_list, coded_ℕ};
    ghost use Rattle.std.specs.Rc.{rc_slice_items};

    ghost Value = { List ℕ };

    ghost coded = { coded_list coded_ℕ };

    ghost view = { λ value. rc_slice_items value.bytes };
}

impl Clone for Bytes {
    ghost is_clone = { λ value copy. copy ≡ value };

    fn clone(&self) -> Result<Bytes, AllocError> {
        Ok(Bytes {
            bytes: self.bytes.clone()?,
        })
    }
}

impl PartialEq for Bytes {
    ghost use Rattle.std.specs.Prelude.{nat_eq};
    ghost use Rattle.std.specs.Cmp.{partial_equiv_from_equiv};
    ghost use Rattle.std.specs.Cmp.Lexicographic.{pointwise};
    ghost use Rattle.std.proofs.lemmas.Cmp.{nat_list_eq_equiv};

    ghost eq = { pointwise nat_eq };

    ghost laws = { partial_equiv_from_equiv nat_list_eq_equiv };

    fn eq(&self, other: &Bytes) -> bool {
        self.as_slice() == other.as_slice()
    }
}

impl Eq for Bytes {
    ghost use Rattle.std.proofs.lemmas.Cmp.{nat_list_eq_equiv};

    ghost laws = { nat_list_eq_equiv };
}

impl Bytes {
    pub(crate) fn new(alloc: Global, bytes: &[u8]) -> Result<Bytes, AllocError>
        ensures { IfOk result (λ value. value ≡ bytes.now) }
    {
        Ok(Bytes {
            bytes: RcSlice::from_slice(alloc, bytes)?,
        })
    }

    pub(crate) fn as_slice(&self) -> &[u8]
        ensures { result.now ≡ self.now }
    {
        self.bytes.as_slice()
    }
}

impl SavedValue for Bytes {
    ghost use Rattle.rart_saved.specs.Laws.{sized-apart};
    ghost use Rattle.rart_saved.specs.Values.{sized};

    const KIND: u8 = 2;

    ghost KIND = { 2 };

    ghost written = { sized };

    fn write(&self, out: &mut Vec<u8>) -> Result<(), AllocError> {
        put_sized(out, self.as_slice())
    }

    fn read(alloc: Global, bytes: &[u8], at: usize) -> Result<(Bytes, usize), LoadError> {
        let (string, end) = sized_at(bytes, at)?;
        Ok((Bytes::new(alloc, string)?, end))
    }

    ghost apart = { sized-apart };
}
