// Ported from rart 0.11.0 (Apache-2.0), and rewritten.
//! The least pair below a node.
ghost use Rattle.std.specs.Prelude.{◌≡◌, ℕ, ◌+◌, ◌-◌, ◌^◌, ◌<◌, ◌≤◌, ◌++◌, Some, length, take, drop};
ghost use Rattle.rart_node.specs.Counts.{CountsUpTo};
ghost use Rattle.rart_node.specs.Shape.{prefix_of};
ghost use Rattle.rart_node.specs.Trees.{IsTree, pairs_of};
ghost use Rattle.rart_node.specs.PairsBehind.{behind_path, AreShort};
ghost use Rattle.rart_ways.specs.Firsts.{IsFirst};

use rart_below::Partial;
use rart_node::{NodeRef, VersionedNode, Work};

/// The least pair below a node that is open, to which this path leads: how long its key is, and its
/// value. The key is written to the front of `room`, if it fits there. At most one node is entered
/// for each byte that the key has behind the prefix of that node.
pub(crate) fn least<'a, P: Partial, V: Drop>(
    start: &'a VersionedNode<P, V>,
    path: &[u8],
    room: &mut [u8],
    work: &mut Work,
) -> (usize, &'a V)
    requires tree { IsTree start.now.shape }
    requires short { AreShort (Some (2 ^ 64 - 1)) (behind_path path.now
        (pairs_of start.now.shape)) }
    ensures first { IsFirst (behind_path path.now (pairs_of start.now.shape)) result.0
        result.1.now room.old room.new }
    ensures longer { length path.now + length (prefix_of start.now.shape) ≤ result.0 }
    ensures counted { CountsUpTo (result.0 - (length path.now
        + length (prefix_of start.now.shape))) 0 work.old work.new }
{
    let mut node = start;
    let mut len = write_at(room, 0, path);
    'down: loop {
        len = write_at(room, len, node.prefix().as_ref());
        if let Some(value) = node.value() {
            return (len, value);
        }
        node = match node.iter().next_child() {
            Some(child) => child.open(work),
            None => unreachable!(),
        };
    }
}

/// Writes bytes behind the first ones, if they fit there, and gives where they end. What is behind
/// that is as before.
pub(crate) fn write_at(room: &mut [u8], at: usize, bytes: &[u8]) -> usize
    requires { at + length bytes.now < 2 ^ 64 }
    ensures end { result ≡ at + length bytes.now }
    ensures written { result ≤ length room.old
        → take result room.new ≡ take at room.old ++ bytes.now }
    ensures behind { (later : ℕ) → result ≤ later → drop later room.new ≡ drop later room.old }
    ensures same { length room.new ≡ length room.old }
{
    let end = at + bytes.len();
    if end > room.len() {
        return end;
    }
    room[at..end].copy_from_slice(bytes);
    end
}
