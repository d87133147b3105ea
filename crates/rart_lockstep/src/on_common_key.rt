// Ported from rart 0.11.0 (Apache-2.0), and rewritten.
//! What is done at a key of two trees.
ghost use Rattle.std.specs.Prelude.{◌≡◌, ℕ, List, Option, None, length, IsTrue, OnErr};
ghost use Rattle.std.specs.Fn.{Mut};
ghost use Rattle.std.specs.List.{concat};
ghost use Rattle.rart_below.specs.Bytes.{IsAdmitted};
ghost use Rattle.rart_maps.specs.Visits.{CallableInTurn};
ghost use Rattle.rart_lockstep.specs.Endings.{VisitsBy};
ghost use Rattle.rart_lockstep.specs.Entries.{entry_here};

use crate::pair_cursor::PairCursor;
use std::alloc::AllocError;

/// A cursor in two trees at which a closure is called, from a key path that keeps the way there.
///
/// Contracts see by `Shows` which arguments stand for a key and what either tree has there.
pub(crate) trait OnCommonKey<V, T, F>: PairCursor<V, T> {
    /// Why a visit ends early.
    type Broken: Drop;

    ghost Arguments: { Type 0 };

    ghost Answer: { Type 0 };

    ghost calls: { Mut F Arguments Answer };

    ghost Shows: { Arguments → List ℕ × V × V → Type 0 };

    // the answer of the closure on which a visit goes on
    ghost goes: { Answer };

    // the answer that ended a visit; none where memory was refused
    ghost told: { Self.Broken → Option Answer };

    /// That memory was refused.
    fn refused(error: AllocError) -> Self::Broken
        ensures { told result ≡ None };

    /// Calls the closure on the key that ends here, if both have a value there.
    fn meet(&self, key_path: &T, f: &mut F) -> Result<(), Self::Broken>
        requires visitable { (segments : List (List ℕ)) × Self.holds key_path.now segments
            × IsAdmitted Self.greatest (length (concat segments))
            × CallableInTurn calls Shows goes f.old
            (entry_here (concat segments) (Self.left self.now) (Self.right self.now)) }
        ensures visits { (segments : List (List ℕ)) → Self.holds key_path.now segments →
            VisitsBy calls Shows goes told result f.old
            (entry_here (concat segments) (Self.left self.now) (Self.right self.now)) f.new }
        ensures refused { OnErr result (IsTrue Self.can_refuse) };
}
