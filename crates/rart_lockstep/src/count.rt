// Ported from rart 0.11.0 (Apache-2.0), and rewritten.
//! The number of keys of two trees.
ghost use Rattle.std.specs.Prelude.{◌≡◌, ◌+◌, ◌*◌, ◌<◌, ◌≤◌, ◌^◌, length};
ghost use Rattle.std.specs.FinSet as set;
ghost use Rattle.rart_node.specs.Counts.{CountsUpTo};
ghost use Rattle.rart_node.specs.Trees.{IsTree};
ghost use Rattle.rart_lockstep.specs.CommonPairs.{common_pairs, shared_of};

use crate::values::visit_common_values;
use rart_below::Partial;
use rart_node::{NodeRef, Work};

/// How many keys two trees have in common.
///
/// It enters nodes as `visit_common_values` does, and takes no memory.
pub fn count_common<P: Partial, V: Drop>(
    left: &NodeRef<P, V>,
    right: &NodeRef<P, V>,
    work: &mut Work,
) -> usize
    requires left { IsTree left.now.shape }
    requires right { IsTree right.now.shape }
    requires fits { length (common_pairs left.now.shape right.now.shape) < 2 ^ 64 }
    ensures count { result ≡ length (common_pairs left.now.shape right.now.shape) }
    ensures counted { CountsUpTo (2 * set.len (shared_of left.now.shape
        right.now.shape)) 0 work.old work.new }
    ensures entered { work.old.entered + 2 ≤ work.new.entered }
    ensures least { work.old.entered
        + 2 * length (common_pairs left.now.shape right.now.shape) ≤ work.new.entered }
{
    let mut count = 0usize;
    visit_common_values(
        left,
        right,
        &mut |_left: &V, _right: &V| {
            count += 1;
        },
        work,
    );
    count
}
