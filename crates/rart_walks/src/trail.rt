// Ported from rart 0.11.0 (Apache-2.0), and rewritten.
//! The segments of a way, which contracts see and no program reads.
ghost use Rattle.std.specs.Prelude.{◌≡◌, ℕ, List, [], ◌∷◌, ◌++◌};
ghost use Rattle.std.specs.Borrow.{ftrue};
ghost use Rattle.std.specs.Coded.{coded_ℕ, coded_list};

use std::marker::Model;

/// Segments that contracts alone see: they take no bytes and nothing runs. Only `new` and `push` make
/// or change one.
#[derive(Drop)]
pub(crate) struct Trail {
    pub ghost segments: { List (List ℕ) } by { coded_list (coded_list coded_ℕ) },
}

impl Model for Trail {
    ghost also_owns = { λ _. ftrue };
}

impl Trail {
    pub(crate) fn new() -> Trail
        ensures { result.segments ≡ [] }
    {
        Trail {}
    }

    /// Puts a segment at the end.
    #[inline(always)]
    pub(crate) fn push(&mut self, _segment: &[u8])
        ensures { self.new.segments ≡ self.old.segments ++ _segment.now ∷ [] }
    {}
}
