// Ported from rart 0.11.0 (Apache-2.0), and rewritten.
//! The greatest pair below a node.
ghost use Rattle.std.specs.Prelude.{◌≡◌, ◌+◌, ◌-◌, ◌^◌, ◌≤◌, IsSome, Some, length, reverse};
ghost use Rattle.rart_node.specs.Counts.{CountsUpTo};
ghost use Rattle.rart_node.specs.Shape.{prefix_of, value_of};
ghost use Rattle.rart_node.specs.Trees.{IsTree, pairs_of};
ghost use Rattle.rart_node.specs.PairsBehind.{behind_path, AreShort};
ghost use Rattle.rart_ways.specs.Firsts.{IsFirst};

use crate::seeking::least::write_at;
use rart_below::Partial;
use rart_node::{NodeRef, VersionedNode, Work};

/// What no byte reaches.
const PAST_BYTES: usize = 256;

/// The greatest pair below a node that is open, to which this path leads: how long its key is, and
/// its value. The key is written to the front of `room`, if it fits there. At most one node is
/// entered for each byte that the key has behind the prefix of that node.
pub(crate) fn greatest<'a, P: Partial, V: Drop>(
    start: &'a VersionedNode<P, V>,
    path: &[u8],
    room: &mut [u8],
    work: &mut Work,
) -> (usize, &'a V)
    requires tree { IsTree start.now.shape }
    requires short { AreShort (Some (2 ^ 64 - 1)) (behind_path path.now
        (pairs_of start.now.shape)) }
    ensures last { IsFirst (reverse (behind_path path.now (pairs_of start.now.shape))) result.0
        result.1.now room.old room.new }
    ensures longer { length path.now + length (prefix_of start.now.shape) ≤ result.0 }
    ensures counted { CountsUpTo (result.0 - (length path.now
        + length (prefix_of start.now.shape))) 0 work.old work.new }
{
    let mut node = start;
    let mut len = write_at(room, 0, path);
    'down: loop {
        len = write_at(room, len, node.prefix().as_ref());
        node = match node.last_child_below(PAST_BYTES) {
            Some(child) => child.open(work),
            None => return (len, own_value(node)),
        };
    }
}

/// The value of a node without children.
fn own_value<'a, P: Partial, V: Drop>(node: &'a VersionedNode<P, V>) -> &'a V
    requires { IsSome (value_of node.now.shape) }
    ensures { Some result.now ≡ value_of node.now.shape }
{
    match node.value() {
        Some(value) => value,
        None => unreachable!(),
    }
}
