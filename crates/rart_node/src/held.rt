// Ported from rart 0.11.0 (Apache-2.0), and rewritten.
//! What a node holds of its own: a value or none, beside half of its number.
ghost use Rattle.std.specs.Prelude.{◌≡◌, None, Some, IfOk, option_copied};
ghost use Rattle.std.specs.Option.{option_copied_mut};
ghost use Rattle.std.specs.Borrow.{sem};
ghost use Rattle.rart_below.specs.Clones.{ClonesEqual};
ghost use Rattle.rart_node.specs.Contents.{held_value};

use std::alloc::AllocError;
use std::mem;

/// A value or none, and the lower half of the number that its node was made with. The halves stand
/// where the two enums of a node have room: in one piece the number takes eight bytes of its own,
/// and a leaf a block of 96 in place of 80.
#[derive(Drop)]
pub(crate) enum Held<V> {
    Vacant(u32),
    Occupied(u32, V),
}

impl<V: Drop> Held<V> {
    ghost use Rattle.rart_node.specs.Lent.{LendsHeld};

    pub(crate) fn lower(&self) -> u32 {
        match self {
            Held::Vacant(lower) => *lower,
            Held::Occupied(lower, _) => *lower,
        }
    }

    pub(crate) fn as_ref(&self) -> Option<&V>
        ensures { option_copied result ≡ held_value self.now }
    {
        match self {
            Held::Vacant(_) => None,
            Held::Occupied(_, value) => Some(value),
        }
    }

    pub(crate) fn as_mut(&mut self) -> Option<&mut V>
        ensures* writes_back { sem 𝓛 (LendsHeld V.row self.entry result) }
        ensures value { option_copied_mut result ≡ held_value self.old }
    {
        match self {
            Held::Vacant(_) => None,
            Held::Occupied(_, value) => Some(value),
        }
    }

    pub(crate) fn into_value(self) -> Option<V>
        ensures { result ≡ held_value self }
    {
        match self {
            Held::Vacant(_) => None,
            Held::Occupied(_, value) => Some(value),
        }
    }

    /// Puts the value in, and gives the one that was there.
    pub(crate) fn replace(&mut self, value: V) -> Option<V>
        ensures old { result ≡ held_value self.old }
        ensures new { held_value self.new ≡ Some value }
    {
        let lower = self.lower();
        mem::replace(self, Held::Occupied(lower, value)).into_value()
    }

    /// Takes the value out, and gives it.
    pub(crate) fn take(&mut self) -> Option<V>
        ensures old { result ≡ held_value self.old }
        ensures new { held_value self.new ≡ None }
    {
        let lower = self.lower();
        mem::replace(self, Held::Vacant(lower)).into_value()
    }
}

impl<V: Clone> Held<V> {
    /// The same value or none, beside half of another number.
    pub(crate) fn copy(&self, lower: u32) -> Result<Held<V>, AllocError>
        ensures { IfOk result (λ copy. ClonesEqual V.is_clone
            → held_value copy ≡ held_value self.now) }
    {
        Ok(match self {
            Held::Vacant(_) => Held::Vacant(lower),
            Held::Occupied(_, value) => Held::Occupied(lower, value.clone()?),
        })
    }
}
