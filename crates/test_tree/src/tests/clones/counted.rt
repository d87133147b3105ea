//! A value whose clones are counted.
ghost use Rattle.std.specs.Prelude.{◌≡◌, IfOk};

use std::alloc::AllocError;
use std::cell::Cell;
use std::marker::Model;
use std::rc::Rc;

/// A number as a value, and how many clones were made of all values that name the count. Contracts
/// see the number alone.
#[derive(Drop)]
pub struct Counted {
    number: u64,
    clones: Rc<Cell<u64>>,
}

impl Model for Counted {
    ghost use Rattle.std.specs.Prelude.{ℕ};
    ghost use Rattle.std.specs.Coded.{coded_ℕ};

    ghost Value = { ℕ };

    ghost coded = { coded_ℕ };

    ghost view = { λ counted. counted.number };
}

impl Clone for Counted {
    ghost use Rattle.std.specs.Prelude.{◌≡◌};

    ghost is_clone = { λ counted copy. copy ≡ counted };

    fn clone(&self) -> Result<Counted, AllocError> {
        let count = self.clones.get();
        self.clones.set(count.wrapping_add(1));
        Counted::new(self.number, &self.clones)
    }
}

impl Counted {
    /// This number. Refused where too many values name the count.
    pub fn new(number: u64, clones: &Rc<Cell<u64>>) -> Result<Counted, AllocError>
        ensures { IfOk result (λ counted. counted ≡ number) }
    {
        Ok(Counted {
            number,
            clones: clones.clone()?,
        })
    }
}
