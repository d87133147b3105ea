// Ported from rart 0.11.0 (Apache-2.0), and rewritten.
//! The way down to where the last of the pairs up to a bound stands.
ghost use Rattle.std.specs.Prelude.{◌≡◌, ◌+◌, ◌-◌, ◌^◌, ◌<◌, ◌⊎◌, ◌++◌, ℕ, List, Some, length};
ghost use Rattle.std.specs.Option.{option_map};
ghost use Rattle.rart_below.specs.Bytes.{common_length};
ghost use Rattle.rart_below.specs.Children.{children_below};
ghost use Rattle.rart_node.specs.Counts.{CountsUpTo};
ghost use Rattle.rart_node.specs.Shape.{IsAscending, children_of, prefix_of, value_of};
ghost use Rattle.rart_node.specs.Trees.{IsTree, pairs_of, path_bound};
ghost use Rattle.rart_node.specs.PairsBehind.{behind_path, pairs_of_all, pending_pair, AreShort};
ghost use Rattle.rart_ways.specs.Lasts.{EndAt, IsDeepEnd, end_length, end_shape, pairs_to, reached_part};
ghost use Rattle.rart_ways.specs.Starts.{AreTurns};

use crate::seeking::Edge;
use rart_below::Partial;
use rart_node::{NodeRef, VersionedNode, Work, rest_of};

/// Where the last of some pairs stands: at the end of a path, which is its key, or below a node
/// behind it.
#[derive(Drop)]
pub(crate) enum Last<T, N> {
    Value(T),
    Below(N),
}

/// A pair or a node that the way passed, behind the path to it.
type Turn<'k, 'a, P, V> = Option<(&'k [u8], Last<&'a V, &'a NodeRef<P, V>>)>;

/// The same, where the node is open.
pub(crate) type End<'k, 'a, P, V> = Option<(&'k [u8], Last<&'a V, &'a VersionedNode<P, V>>)>;

/// What of the pairs of a node, at which the way ends, is at or before the bound.
enum Reached {
    All,
    Own,
    Nothing,
}

/// Where the last of the pairs up to a string, or before it, stands. `None` where there is no such
/// pair.
///
/// Beside the nodes along the string one more is entered at most, whose prefix has a byte then.
pub(crate) fn find_end<'k, 'a, P: Partial, V: Drop>(
    root: &'a NodeRef<P, V>,
    high: &'k [u8],
    edge: Edge,
    work: &mut Work,
) -> End<'k, 'a, P, V>
    requires tree { IsTree root.now.shape }
    requires short { AreShort (Some (2 ^ 64 - 1)) (pairs_of root.now.shape) }
    ensures end { EndAt (pairs_to edge high.now root.now.shape) (end_shape result) }
    ensures counted { CountsUpTo (path_bound root.now.shape high.now
        + end_length (end_shape result)) 0 work.old work.new }
    ensures entered { work.old.entered < work.new.entered }
{
    let mut at = root;
    let mut rest = high;
    let mut turn = None;
    'down: loop {
        let node = at.open(work);
        let common = node.prefix().prefix_length_slice(rest);
        if common == rest.len() || common < node.prefix().len() {
            return match reached_of(node, rest, common, edge) {
                Reached::All => Some((&high[..high.len() - rest.len()], Last::Below(node))),
                Reached::Own => open_turn(own_turn(node, high, turn), work),
                Reached::Nothing => open_turn(turn, work),
            };
        }
        rest = rest_of(rest, common);
        turn = turn_before(node, rest[0], &high[..high.len() - rest.len()], turn);
        at = match node.seek_child(rest[0]) {
            Some(child) => child,
            None => return open_turn(turn, work),
        };
    }
}

/// Of a node, of whose prefix the string has not the whole, or has no more.
fn reached_of<P: Partial, V: Drop>(
    node: &VersionedNode<P, V>,
    rest: &[u8],
    common: usize,
    edge: Edge,
) -> Reached
    requires tree { IsTree node.now.shape }
    requires common { common ≡ common_length (prefix_of node.now.shape) rest.now }
    requires ends { (common ≡ length rest.now) ⊎ (common < length (prefix_of node.now.shape)) }
    ensures reached { pairs_to edge rest.now node.now.shape ≡ reached_part result node.now.shape }
    ensures ended { result ≡ Reached.Own → rest.now ≡ prefix_of node.now.shape }
{
    if common < rest.len() {
        if rest[common] < node.prefix().at(common) {
            return Reached::Nothing;
        }
        return Reached::All;
    }
    if common < node.prefix().len() {
        return Reached::Nothing;
    }
    match edge {
        Edge::Included => Reached::Own,
        Edge::Excluded => Reached::Nothing,
    }
}

/// The pair of a node to whose prefix this path leads, or where it has none what was passed before.
fn own_turn<'k, 'a, P: Partial, V: Drop>(
    node: &'a VersionedNode<P, V>,
    path: &'k [u8],
    turn: Turn<'k, 'a, P, V>,
) -> Turn<'k, 'a, P, V>
    ensures end { (passed : List (List ℕ × V)) → EndAt passed (end_shape turn.entry)
        → EndAt (passed ++ pending_pair path.now (value_of node.now.shape)) (end_shape result) }
    ensures deep { IsDeepEnd (end_shape turn.entry) → IsDeepEnd (end_shape result) }
{
    match node.value() {
        Some(value) => Some((path, Last::Value(value))),
        None => turn,
    }
}

/// The last child below a byte, of a node to whose prefix this path leads, or where there is none
/// its pair, or what was passed before.
fn turn_before<'k, 'a, P: Partial, V: Drop>(
    node: &'a VersionedNode<P, V>,
    byte: u8,
    path: &'k [u8],
    turn: Turn<'k, 'a, P, V>,
) -> Turn<'k, 'a, P, V>
    requires order { IsAscending node.now.shape }
    ensures end { let below = behind_path path.now
        (pairs_of_all (children_below byte (children_of node.now.shape))) in
        (passed : List (List ℕ × V)) → EndAt passed (end_shape turn.entry)
        → AreTurns (children_of node.now.shape)
        → EndAt (passed ++ pending_pair path.now (value_of node.now.shape) ++ below)
        (end_shape result) }
    ensures deep { IsDeepEnd (end_shape turn.entry) → AreTurns (children_of node.now.shape)
        → IsDeepEnd (end_shape result) }
{
    match node.last_child_below(usize::from(byte)) {
        Some(child) => Some((path, Last::Below(child))),
        None => own_turn(node, path, turn),
    }
}

/// The node that a turn leads to, opened.
fn open_turn<'k, 'a, P: Partial, V: Drop>(
    turn: Turn<'k, 'a, P, V>,
    work: &mut Work,
) -> End<'k, 'a, P, V>
    ensures shown { end_shape result ≡ end_shape turn.entry }
    ensures counted { IsDeepEnd (end_shape turn.entry)
        → CountsUpTo (end_length (end_shape result)) 0 work.old work.new }
{
    match turn? {
        (path, Last::Value(value)) => Some((path, Last::Value(value))),
        (path, Last::Below(child)) => Some((path, Last::Below(child.open(work)))),
    }
}
