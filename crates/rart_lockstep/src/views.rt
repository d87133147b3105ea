// Ported from rart 0.11.0 (Apache-2.0), and rewritten.
//! Keys of two trees lent as views.
ghost use Rattle.std.specs.Prelude.{◌-◌, ◌^◌, true, None, Some};

use crate::ended::Ended;
use crate::intersection_path::IntersectionPath;
use rart_below::{LendingKeyView, Refusal, VisitControl};
use rart_node::{KeyPath, SegmentsPath};
use std::alloc::{AllocError, Global};
use std::marker::PhantomData;

/// A key path of segments, for a closure that is lent a view of the key, which ends with the call,
/// and references to what either tree has there. It may keep the segments and the references. A `B`
/// tells why a visit ends early: `AllocError`, or `Ended<E>` where the closure may end it.
#[derive(Drop)]
pub struct ViewsPath<'a, V, B> {
    key_path: SegmentsPath<'a>,
    // (the values live as long as the segments)
    lent: PhantomData<&'a V>,
    broken: PhantomData<B>,
}

impl<'a, V, B: Drop> KeyPath<'a> for ViewsPath<'a, V, B> {
    ghost use Rattle.rart_node.specs.KeyPaths.{HoldsSegments, extent_in_segments};

    ghost holds = { λ key_path. HoldsSegments key_path.key_path };

    ghost extent = { extent_in_segments };

    ghost greatest = { Some (2 ^ 64 - 1) };

    ghost can_refuse = { true };

    fn new(alloc: Global) -> ViewsPath<'a, V, B> {
        ViewsPath {
            key_path: SegmentsPath::new(alloc),
            lent: PhantomData,
            broken: PhantomData,
        }
    }

    #[inline]
    fn push(&mut self, segment: &'a [u8]) -> Result<(), AllocError> {
        self.key_path.push(segment)
    }

    #[inline]
    fn mark(&self) -> usize {
        self.key_path.mark()
    }

    fn clear(&mut self) {
        self.key_path.clear();
    }

    #[inline]
    fn cut(&mut self, mark: usize) {
        self.key_path.cut(mark);
    }

    #[inline]
    fn pop(&mut self, segment: &'a [u8]) {
        self.key_path.pop(segment);
    }
}

impl<'a, V, F: FnMut(LendingKeyView<'a, '_>, &'a V, &'a V)> IntersectionPath<'a, V, F>
    for ViewsPath<'a, V, AllocError> {
    ghost use Rattle.std.specs.Borrow.{Bor};
    ghost use Rattle.std.specs.Prelude.{ℕ, List};
    ghost use Rattle.rart_maps.specs.Visits.{ByViewPair};

    type Broken = AllocError;

    ghost Arguments = { List ℕ × (Bor V × (Bor V × Unit {0})) };

    ghost Answer = { Unit {0} };

    ghost calls = { F.FnMut };

    ghost Shows = { ByViewPair };

    ghost goes = { tt };

    ghost told = { λ _. None };

    #[inline(always)]
    fn refused(error: AllocError) -> AllocError {
        error
    }

    fn meet(&self, left: &'a V, right: &'a V, f: &mut F) -> Result<(), AllocError> {
        let key = LendingKeyView::new(self.key_path.segments(), self.key_path.len());
        f(key, left, right);
        Ok(())
    }
}

impl<
    'a,
    V,
    E: Drop,
    F: FnMut(LendingKeyView<'a, '_>, &'a V, &'a V) -> Result<VisitControl, E>,
> IntersectionPath<'a, V, F> for ViewsPath<'a, V, Ended<E>> {
    ghost use Rattle.std.specs.Borrow.{Bor};
    ghost use Rattle.std.specs.Prelude.{ℕ, List, Result, Ok};
    ghost use Rattle.rart_below.specs.declared.visit.VisitControl.{VisitControl};
    ghost use Rattle.rart_below.specs.declared.visit.VisitControl.TheVariants.{Continue};
    ghost use Rattle.rart_maps.specs.Visits.{ByViewPair};
    ghost use Rattle.rart_lockstep.specs.Endings.{ending_answer};

    type Broken = Ended<E>;

    ghost Arguments = { List ℕ × (Bor V × (Bor V × Unit {0})) };

    ghost Answer = { Result VisitControl E };

    ghost calls = { F.FnMut };

    ghost Shows = { ByViewPair };

    ghost goes = { Ok Continue };

    ghost told = { ending_answer };

    #[inline(always)]
    fn refused(error: AllocError) -> Ended<E> {
        Ended::Refused(Refusal::Memory(error))
    }

    fn meet(&self, left: &'a V, right: &'a V, f: &mut F) -> Result<(), Ended<E>> {
        let key = LendingKeyView::new(self.key_path.segments(), self.key_path.len());
        match f(key, left, right) {
            Ok(VisitControl::Continue) => Ok(()),
            Ok(VisitControl::Stop) => Err(Ended::Stopped),
            Err(error) => Err(Ended::Refused(Refusal::Callback(error))),
        }
    }
}
