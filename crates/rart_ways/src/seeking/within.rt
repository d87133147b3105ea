// Ported from rart 0.11.0 (Apache-2.0), and rewritten.
//! Whether the least key below a node meets an upper bound.
ghost use Rattle.std.specs.Prelude.{◌≡◌, ◌+◌, ◌-◌, ◌^◌, ◌∷◌, [], ℕ, List, Some, length};
ghost use Rattle.rart_node.specs.Counts.{CountsUpTo};
ghost use Rattle.rart_node.specs.Trees.{IsTree, pairs_of};
ghost use Rattle.rart_node.specs.PairsBehind.{behind_path, AreShort};
ghost use Rattle.rart_ways.specs.Besides.{StandsSo, is_to};

use crate::seeking::Edge;
use rart_below::Partial;
use rart_node::{NodeRef, VersionedNode, Work};
use std::cmp::Ordering;

/// How the prefix of a string stands to another one.
enum Beside<'r> {
    /// It begins the other, which has this rest.
    Along(&'r [u8]),
    /// Whatever goes on with it stands before the other.
    Before,
    /// Whatever goes on with it stands behind the other.
    Behind,
}

/// Whether the least key below a node that is open, to which this path leads, stands before
/// another string, or, where that is included, is that one. It enters at most one node for each
/// byte of that, and one.
pub(crate) fn least_meets<P: Partial, V: Drop>(
    start: &VersionedNode<P, V>,
    path: &[u8],
    high: &[u8],
    edge: Edge,
    work: &mut Work,
) -> bool
    requires tree { IsTree start.now.shape }
    requires short { AreShort (Some (2 ^ 64 - 1)) (behind_path path.now
        (pairs_of start.now.shape)) }
    ensures meets { (pair : List ℕ × V) (others : List (List ℕ × V))
        → behind_path path.now (pairs_of start.now.shape) ≡ pair ∷ others
        → result ≡ is_to edge high.now pair.0 }
    ensures counted { CountsUpTo (length high.now + 1) 0 work.old work.new }
{
    let mut node = start;
    let mut rest = match along(high, path) {
        Beside::Along(rest) => rest,
        Beside::Before => return true,
        Beside::Behind => return false,
    };
    'down: loop {
        rest = match along(rest, node.prefix().as_ref()) {
            Beside::Along(rest) => rest,
            Beside::Before => return true,
            Beside::Behind => return false,
        };
        if let Some(_value) = node.value() {
            return ends_before(rest, edge);
        }
        node = match node.iter().next_child() {
            Some(child) => child.open(work),
            None => unreachable!(),
        };
    }
}

/// How a string that begins so stands to another one.
fn along<'r>(string: &'r [u8], front: &[u8]) -> Beside<'r>
    ensures { StandsSo string.now front.now result }
{
    if let Some(rest) = string.strip_prefix(front) {
        return Beside::Along(rest);
    }
    match front.cmp(&string) {
        Ordering::Less => Beside::Before,
        Ordering::Equal => unreachable!(),
        Ordering::Greater => Beside::Behind,
    }
}

/// Whether a key that begins a bound, which has this rest, meets it.
fn ends_before(rest: &[u8], edge: Edge) -> bool
    ensures { result ≡ is_to edge rest.now [] }
{
    if !rest.is_empty() {
        return true;
    }
    match edge {
        Edge::Included => true,
        Edge::Excluded => false,
    }
}
