// Ported from rart 0.11.0 (Apache-2.0), and rewritten.
//! Visits of the values of the keys of two trees.
ghost use Rattle.std.specs.Prelude.{◌+◌, ◌*◌, ◌≤◌, false, length, None, map};
ghost use Rattle.std.specs.FinSet as set;
ghost use Rattle.rart_maps.specs.Visits.{ByValuePair, Visit, Visitable};
ghost use Rattle.rart_node.specs.Counts.{CountsUpTo};
ghost use Rattle.rart_node.specs.Trees.{IsTree};
ghost use Rattle.rart_lockstep.specs.CommonPairs.{common_pairs, shared_of};

use crate::intersection_path::IntersectionPath;
use crate::visit::visit_common;
use rart_below::Partial;
use rart_node::{KeyPath, NodeRef, Work};
use std::alloc::{AllocError, Global};
use std::marker::PhantomData;

/// Calls the closure on each key of two trees, in order: with references to what either tree has
/// there.
///
/// Two nodes are entered for each string that begins keys of both at most, and the two that the
/// pointers show at least, and two for each of the keys. It takes no memory.
pub fn visit_common_values<'a, P: Partial, V: Drop, F: FnMut(&'a V, &'a V)>(
    left: &'a NodeRef<P, V>,
    right: &'a NodeRef<P, V>,
    f: &mut F,
    work: &mut Work,
)
    requires left { IsTree left.now.shape }
    requires right { IsTree right.now.shape }
    requires visitable { Visitable F.FnMut ByValuePair f.old (map (λ entry. (entry.1, entry.2))
        (common_pairs left.now.shape right.now.shape)) }
    ensures visits { Visit F.FnMut ByValuePair f.old (map (λ entry. (entry.1, entry.2))
        (common_pairs left.now.shape right.now.shape)) f.new }
    ensures counted { CountsUpTo (2 * set.len (shared_of left.now.shape
        right.now.shape)) 0 work.old work.new }
    ensures entered { work.old.entered + 2 ≤ work.new.entered }
    ensures least { work.old.entered
        + 2 * length (common_pairs left.now.shape right.now.shape) ≤ work.new.entered }
{
    // (a key path that keeps nothing refuses nothing)
    let key_path = ValuesPath { lent: PhantomData };
    let _met = visit_common(key_path, left, right, f, work);
}

/// A key path that keeps nothing, for a closure that is lent the values alone.
#[derive(Drop)]
struct ValuesPath<'a, V> {
    lent: PhantomData<&'a V>,
}

impl<'a, V> KeyPath<'a> for ValuesPath<'a, V> {
    ghost use Rattle.rart_node.specs.KeyPaths.{HoldsNothing, no_extent};

    ghost holds = { HoldsNothing };

    ghost extent = { no_extent };

    ghost greatest = { None };

    ghost can_refuse = { false };

    fn new(_alloc: Global) -> ValuesPath<'a, V> {
        ValuesPath { lent: PhantomData }
    }

    #[inline]
    fn push(&mut self, _segment: &'a [u8]) -> Result<(), AllocError> {
        Ok(())
    }

    #[inline]
    fn mark(&self) -> usize {
        0
    }

    fn clear(&mut self) {}

    #[inline]
    fn cut(&mut self, _mark: usize) {}

    #[inline]
    fn pop(&mut self, _segment: &'a [u8]) {}
}

impl<'a, V, F: FnMut(&'a V, &'a V)> IntersectionPath<'a, V, F> for ValuesPath<'a, V> {
    ghost use Rattle.std.specs.Borrow.{Bor};
    ghost use Rattle.rart_lockstep.specs.Entries.{ByItsValues};

    type Broken = AllocError;

    ghost Arguments = { Bor V × (Bor V × Unit {0}) };

    ghost Answer = { Unit {0} };

    ghost calls = { F.FnMut };

    ghost Shows = { ByItsValues };

    ghost goes = { tt };

    ghost told = { λ _. None };

    #[inline(always)]
    fn refused(error: AllocError) -> AllocError {
        error
    }

    fn meet(&self, left: &'a V, right: &'a V, f: &mut F) -> Result<(), AllocError> {
        f(left, right);
        Ok(())
    }
}
