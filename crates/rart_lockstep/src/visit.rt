// Ported from rart 0.11.0 (Apache-2.0), and rewritten.
//! A visit of the keys of two trees.
ghost use Rattle.std.specs.Prelude.{◌+◌, ◌*◌, ◌≤◌, [], length, IsTrue, OnErr, OnOk};
ghost use Rattle.std.specs.FinSet as set;
ghost use Rattle.rart_maps.specs.Visits.{CallableInTurn};
ghost use Rattle.rart_lockstep.specs.Endings.{VisitsBy};
ghost use Rattle.rart_node.specs.Counts.{CountsUpTo};
ghost use Rattle.rart_node.specs.Trees.{IsTree, pairs_of};
ghost use Rattle.rart_lockstep.specs.CommonPairs.{common_pairs, shared_of};
ghost use Rattle.rart_node.specs.PairsBehind.{AreShort};

use crate::intersect_below;
use crate::intersection_path::IntersectionPath;
use crate::on_common_key::OnCommonKey;
use crate::tree_cursors::TreeCursors;
use rart_below::Partial;
use rart_node::{NodeRef, Work};
use std::alloc::AllocError;

/// Calls the closure on each key of two trees, in order, from an empty key path, in the key path's
/// way.
///
/// Where memory is refused, or an answer of the closure ends it, it has called it on a prefix of
/// them. Two nodes are entered for each
/// string that begins keys of both at most, and the two that the pointers show at least; not
/// refused, two for each of the keys. It takes no memory but what the key path does.
///
/// Its bounds name no closure, since a closure that may keep what it is lent can't be handed to
/// another crate by itself.
pub fn visit_common<'a, P: Partial, V: Drop, F, T: IntersectionPath<'a, V, F>>(
    mut key_path: T,
    left: &'a NodeRef<P, V>,
    right: &'a NodeRef<P, V>,
    f: &mut F,
    work: &mut Work,
) -> Result<(), T::Broken>
    requires left { IsTree left.now.shape }
    requires right { IsTree right.now.shape }
    requires empty { T.holds key_path [] }
    requires admitted { AreShort T.greatest (pairs_of left.now.shape) }
    requires visitable { CallableInTurn T.calls T.Shows T.goes f.old
        (common_pairs left.now.shape right.now.shape) }
    ensures visits { VisitsBy T.calls T.Shows T.goes T.told result f.old
        (common_pairs left.now.shape right.now.shape) f.new }
    ensures refused { OnErr result (IsTrue T.can_refuse) }
    ensures counted { CountsUpTo (2 * set.len (shared_of left.now.shape
        right.now.shape)) 0 work.old work.new }
    ensures entered { work.old.entered + 2 ≤ work.new.entered }
    ensures least { OnOk result (work.old.entered
        + 2 * length (common_pairs left.now.shape right.now.shape) ≤ work.new.entered) }
{
    let at = TreeCursors::open(left, right, work);
    intersect_below(at, &mut key_path, f, work)
}

impl<'a, P: Partial, V: Drop, F, T: IntersectionPath<'a, V, F>> OnCommonKey<V, T, F>
    for TreeCursors<'a, P, V> {
    type Broken = T::Broken;

    ghost Arguments = { T.Arguments };

    ghost Answer = { T.Answer };

    ghost calls = { T.calls };

    ghost Shows = { T.Shows };

    ghost goes = { T.goes };

    ghost told = { T.told };

    #[inline(always)]
    fn refused(error: AllocError) -> T::Broken {
        T::refused(error)
    }

    fn meet(&self, key_path: &T, f: &mut F) -> Result<(), T::Broken> {
        match self.values_here() {
            None => Ok(()),
            Some((left, right)) => key_path.meet(left, right, f),
        }
    }
}
