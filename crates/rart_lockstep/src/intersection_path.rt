// Ported from rart 0.11.0 (Apache-2.0), and rewritten.
//! What is done at a key of two trees, by what keeps the way there.
ghost use Rattle.std.specs.Prelude.{◌≡◌, ◌∷◌, [], ℕ, List, Option, None, length, IsTrue, OnErr};
ghost use Rattle.std.specs.Fn.{Mut};
ghost use Rattle.std.specs.List.{concat};
ghost use Rattle.rart_below.specs.Bytes.{IsAdmitted};
ghost use Rattle.rart_maps.specs.Visits.{CallableOn};
ghost use Rattle.rart_lockstep.specs.Endings.{VisitsBy};

use rart_node::KeyPath;
use std::alloc::AllocError;

/// A key path that calls a closure on the key that it keeps the way to, and on what two trees have
/// there.
///
/// Contracts see by `Shows` which arguments stand for a key and two values.
pub trait IntersectionPath<'a, V, F>: KeyPath<'a> {
    /// Why a visit ends early.
    type Broken: Drop;

    ghost Arguments: { Type 0 };

    ghost Answer: { Type 0 };

    ghost calls: { Mut F Arguments Answer };

    ghost Shows: { Arguments → List ℕ × V × V → Type 0 };

    // the answer of the closure on which a visit goes on
    ghost goes: { Answer };

    // the answer that ended a visit; none where memory was refused
    ghost told: { Self.Broken → Option Answer };

    /// That memory was refused.
    fn refused(error: AllocError) -> Self::Broken
        ensures { told result ≡ None };

    /// Calls the closure once. Refused for memory, it has not called it.
    fn meet(&self, left: &'a V, right: &'a V, f: &mut F) -> Result<(), Self::Broken>
        requires callable { (segments : List (List ℕ)) × Self.holds self.now segments
            × IsAdmitted Self.greatest (length (concat segments))
            × CallableOn calls Shows f.old (concat segments, left.now, right.now) }
        ensures visits { (segments : List (List ℕ)) → Self.holds self.now segments →
            VisitsBy calls Shows goes told result f.old
            ((concat segments, left.now, right.now) ∷ []) f.new }
        ensures refused { OnErr result (IsTrue Self.can_refuse) };
}
