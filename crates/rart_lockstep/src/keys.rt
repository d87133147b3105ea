// Ported from rart 0.11.0 (Apache-2.0), and rewritten.
//! Visits of the keys of two trees, each made anew.
ghost use Rattle.std.specs.Prelude.{◌+◌, ◌*◌, ◌≤◌, length, true, None, OnOk};
ghost use Rattle.std.specs.FinSet as set;
ghost use Rattle.rart_maps.specs.Visits.{ByKeyPair, Visits, Visitable};
ghost use Rattle.rart_node.specs.Counts.{CountsUpTo};
ghost use Rattle.rart_node.specs.Trees.{IsTree, pairs_of};
ghost use Rattle.rart_lockstep.specs.CommonPairs.{common_pairs, shared_of};
ghost use Rattle.rart_node.specs.PairsBehind.{AreShort};

use crate::intersect_below;
use crate::intersection_path::IntersectionPath;
use crate::tree_cursors::TreeCursors;
use rart_below::{KeyTrait, Partial};
use rart_node::{BytesPath, KeyPath, NodeRef, Work};
use std::alloc::{AllocError, Global};
use std::marker::PhantomData;

/// Calls the closure on each key of two trees, in order: with the key and references to what either
/// tree has there.
///
/// Refused for memory, it has called it on a prefix of them. Two nodes are entered for each
/// string that begins keys of both at most, and the two that the pointers show at least; not
/// refused, two for each of the keys.
pub fn visit_common_keys<'a, K: KeyTrait, P: Partial, V: Drop, F: FnMut(K, &'a V, &'a V)>(
    alloc: Global,
    left: &'a NodeRef<P, V>,
    right: &'a NodeRef<P, V>,
    f: &mut F,
    work: &mut Work,
) -> Result<(), AllocError>
    requires left { IsTree left.now.shape }
    requires right { IsTree right.now.shape }
    requires admitted { AreShort K.MAXIMUM_SIZE (pairs_of left.now.shape) }
    requires visitable { Visitable F.FnMut (ByKeyPair K.bytes) f.old
        (common_pairs left.now.shape right.now.shape) }
    ensures visits { Visits F.FnMut (ByKeyPair K.bytes) result f.old
        (common_pairs left.now.shape right.now.shape) f.new }
    ensures counted { CountsUpTo (2 * set.len (shared_of left.now.shape
        right.now.shape)) 0 work.old work.new }
    ensures entered { work.old.entered + 2 ≤ work.new.entered }
    ensures least { OnOk result (work.old.entered
        + 2 * length (common_pairs left.now.shape right.now.shape) ≤ work.new.entered) }
{
    let mut key_path: KeyMaker<'a, K, V> = KeyMaker::new(alloc);
    let at = TreeCursors::open(left, right, work);
    intersect_below(at, &mut key_path, f, work)
}

/// A key path that makes keys.
#[derive(Drop)]
struct KeyMaker<'a, K, V> {
    alloc: Global,
    key_path: BytesPath,
    made: PhantomData<K>,
    lent: PhantomData<&'a V>,
}

impl<'a, K: KeyTrait, V> KeyPath<'a> for KeyMaker<'a, K, V> {
    ghost use Rattle.rart_node.specs.KeyPaths.{HoldsBytes, extent_in_bytes};

    ghost holds = { λ maker. HoldsBytes maker.key_path };

    ghost extent = { extent_in_bytes };

    ghost greatest = { K.MAXIMUM_SIZE };

    ghost can_refuse = { true };

    fn new(alloc: Global) -> KeyMaker<'a, K, V> {
        KeyMaker {
            alloc,
            key_path: BytesPath::new(alloc),
            made: PhantomData,
            lent: PhantomData,
        }
    }

    #[inline]
    fn push(&mut self, segment: &'a [u8]) -> Result<(), AllocError> {
        self.key_path.push_short(segment)
    }

    #[inline]
    fn mark(&self) -> usize {
        self.key_path.mark()
    }

    fn clear(&mut self) {
        self.key_path.clear();
    }

    #[inline]
    fn cut(&mut self, mark: usize) {
        self.key_path.cut(mark);
    }

    #[inline]
    fn pop(&mut self, segment: &'a [u8]) {
        self.key_path.pop(segment);
    }
}

impl<'a, K: KeyTrait, V, F: FnMut(K, &'a V, &'a V)> IntersectionPath<'a, V, F>
    for KeyMaker<'a, K, V> {
    ghost use Rattle.std.specs.Borrow.{Bor};

    type Broken = AllocError;

    ghost Arguments = { K × (Bor V × (Bor V × Unit {0})) };

    ghost Answer = { Unit {0} };

    ghost calls = { F.FnMut };

    ghost Shows = { ByKeyPair K.bytes };

    ghost goes = { tt };

    ghost told = { λ _. None };

    #[inline(always)]
    fn refused(error: AllocError) -> AllocError {
        error
    }

    #[inline]
    fn meet(&self, left: &'a V, right: &'a V, f: &mut F) -> Result<(), AllocError> {
        let key = K::new_from_slice(self.alloc, self.key_path.as_slice())?;
        f(key, left, right);
        Ok(())
    }
}
