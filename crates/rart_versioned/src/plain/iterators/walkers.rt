// Ported from rart 0.11.0 (Apache-2.0), and rewritten.
//! What an iterator asks of a walk, whichever way that goes: so one iterator serves both ways.
ghost use Rattle.std.specs.Prelude.{◌≡◌, ℕ, Bool, List, [], ◌∷◌, IfOk, OnErr, false};
ghost use Rattle.std.specs.Range.Bound.{bound_map};
ghost use Rattle.std.specs.declared.ops.Bound.{Bound};
ghost use Rattle.rart_versioned.specs.Walkers.{AreInOrder, LendsNext, pairs_within};

mod back;
mod onward;

use std::alloc::AllocError;
use std::ops::Bound;

/// A walk over the pairs of a tree, one way or the other.
///
/// The trait names no lifetime, since the toolchain proves no drop of a struct whose bound names
/// one. So what a walk lends of a value is a type of the walk's own.
pub trait Walker<V>: Drop {
    /// What is lent of a value: a reference to it.
    type Lent: Drop;

    // the value of which something was lent
    ghost value: { Self.Lent → V };

    // The walk is in order, and its key path keeps the way to where it stands.
    ghost is_sound: { Self → Type 0 };

    // the pairs that are left
    ghost left: { Self → List (List ℕ × V) };

    // the bytes of the key whose value was given last
    ghost key: { Self → List ℕ };

    /// Gives the next value, or `None` where there is none left.
    ///
    /// Refused for memory, the walk has ended: nothing is left.
    fn next_lent(&mut self) -> Result<Option<Self::Lent>, AllocError>
        requires { is_sound self.old }
        ensures sound { is_sound self.new }
        ensures gives { IfOk result (λ lent.
            LendsNext value (left self.old) (key self.new) lent (left self.new)) }
        ensures refused { OnErr result (left self.new ≡ []) };
}

/// A walk that keeps the bytes of its keys.
pub trait KeyWalker<V>: Walker<V> {
    /// The bytes of the key whose value was given last.
    fn key_bytes(&self) -> &[u8]
        requires { Self.is_sound self.now }
        ensures { result.now ≡ Self.key self.now };
}

/// A walk whose keys are in order, so that a range can end with the first key past an end: an upper
/// bound onward, a lower one back.
pub trait RangeWalker<V>: KeyWalker<V> {
    // The walk comes to the one key before the other.
    ghost comes_before: { List ℕ → List ℕ → Type 0 };

    // whether a key meets the bound that is the end
    ghost is_within: { Bound (List ℕ) → List ℕ → Bool };

    /// Whether a key with these bytes meets the bound that is the end.
    fn meets(end: Bound<&[u8]>, bytes: &[u8]) -> bool
        ensures { result ≡ is_within (bound_map (λ end. end.now) end.entry) bytes.now };

    // Where the first key doesn't meet it, none does.
    ghost past: { (end : Bound (List ℕ)) (pair : List ℕ × V) (rest : List (List ℕ × V))
        → AreInOrder comes_before (pair ∷ rest) → is_within end pair.0 ≡ false
        → pairs_within (is_within end) (pair ∷ rest) ≡ [] };
}
