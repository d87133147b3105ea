//! A value whose clones are counted, and of which one can be refused.
use std::alloc::{AllocError, Global};
use std::cell::Cell;
use std::marker::Model;
use std::rc::Rc;

/// Counts the clones of all values that name it, and says which one is refused.
#[derive(Drop)]
pub struct Fuse {
    clones: Cell<u64>,
    refused: Cell<u64>,
}

impl Fuse {
    /// No clone is refused. Where one request is refused it is made once more.
    pub fn new(alloc: Global) -> Result<Rc<Fuse>, AllocError> {
        match Fuse::at_once(alloc) {
            Ok(fuse) => Ok(fuse),
            Err(AllocError) => Fuse::at_once(alloc),
        }
    }

    fn at_once(alloc: Global) -> Result<Rc<Fuse>, AllocError> {
        let fuse = Fuse {
            clones: Cell::new(0),
            refused: Cell::new(0),
        };
        Ok(Rc::new(alloc, fuse)?)
    }

    /// Of the clones from here on the one of this number is refused, counted from 1. With 0 none
    /// is.
    pub fn light(&self, number: u64) {
        self.clones.set(0);
        self.refused.set(number);
    }

    /// How many clones were asked for since.
    pub fn clones(&self) -> u64 {
        self.clones.get()
    }

    // Whether this clone is the one.
    fn burns_out(&self) -> bool {
        let number = self.clones.get().saturating_add(1);
        self.clones.set(number);
        number == self.refused.get()
    }
}

/// A number as a value. Contracts see the number alone.
#[derive(Drop)]
pub struct Fragile {
    number: u64,
    fuse: Rc<Fuse>,
}

impl Model for Fragile {
    ghost use Rattle.std.specs.Prelude.{ℕ};
    ghost use Rattle.std.specs.Coded.{coded_ℕ};

    ghost Value = { ℕ };

    ghost coded = { coded_ℕ };

    ghost view = { λ fragile. fragile.number };
}

impl Clone for Fragile {
    ghost use Rattle.std.specs.Prelude.{◌≡◌};

    ghost is_clone = { λ fragile copy. copy ≡ fragile };

    fn clone(&self) -> Result<Fragile, AllocError> {
        if self.fuse.burns_out() {
            return Err(AllocError);
        }
        Ok(Fragile {
            number: self.number,
            fuse: self.fuse.clone()?,
        })
    }
}

impl PartialEq for Fragile {
    ghost use Rattle.std.specs.Prelude.{nat_eq};
    ghost use Rattle.std.specs.Cmp.{partial_equiv_from_equiv};
    ghost use Rattle.std.proofs.lemmas.Cmp.{nat_eq_equiv};

    ghost eq = { nat_eq };

    ghost laws = { partial_equiv_from_equiv nat_eq_equiv };

    fn eq(&self, other: &Fragile) -> bool {
        self.number == other.number
    }
}

impl Eq for Fragile {
    ghost use Rattle.std.proofs.lemmas.Cmp.{nat_eq_equiv};

    ghost laws = { nat_eq_equiv };
}

impl Fragile {
    /// This number. Refused where too many values name the fuse.
    pub fn new(number: u64, fuse: &Rc<Fuse>) -> Result<Fragile, AllocError> {
        Ok(Fragile {
            number,
            fuse: fuse.clone()?,
        })
    }

    pub fn number(&self) -> u64 {
        self.number
    }
}
