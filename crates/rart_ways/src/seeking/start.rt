// Ported from rart 0.11.0 (Apache-2.0), and rewritten.
//! The way down to the node below which the first of the pairs from a bound on stands.
ghost use Rattle.std.specs.Prelude.{◌≡◌, ◌+◌, ◌-◌, ◌^◌, ◌<◌, ◌⊎◌, ◌++◌, ℕ, List, Some, length, is_some, if◌then◌else◌};
ghost use Rattle.std.specs.Option.{option_map};
ghost use Rattle.rart_below.specs.Bytes.{common_length};
ghost use Rattle.rart_below.specs.Children.{child_at, children_from};
ghost use Rattle.rart_node.specs.Counts.{CountsUpTo};
ghost use Rattle.rart_node.specs.Shape.{IsAscending, children_of, prefix_of};
ghost use Rattle.rart_node.specs.Trees.{IsTree, pairs_of, path_bound};
ghost use Rattle.rart_node.specs.VersionedNodeIter.{children_left};
ghost use Rattle.rart_node.specs.PairsBehind.{behind_path, pairs_of_all, AreShort};
ghost use Rattle.rart_ways.specs.Starts.{AreTurns, IsDeep, StartAt, kept_part, pairs_from, start_length, start_shape};

use crate::seeking::Edge;
use rart_below::Partial;
use rart_node::{NodeRef, VersionedNode, VersionedNodeIter, Work, rest_of};

/// What of the pairs of a node, at which the way ends, is at or behind the bound.
enum Kept {
    All,
    Inside,
    Nothing,
}

/// The node, open, whose pairs are the first of those from a string on, or behind it, and the path
/// to it. `None` where there is no such pair.
///
/// Beside the nodes along the string one more is entered at most, whose prefix has a byte then.
pub(crate) fn find_start<'k, 'a, P: Partial, V: Drop>(
    root: &'a NodeRef<P, V>,
    low: &'k [u8],
    edge: Edge,
    work: &mut Work,
) -> Option<(&'k [u8], &'a VersionedNode<P, V>)>
    requires tree { IsTree root.now.shape }
    requires short { AreShort (Some (2 ^ 64 - 1)) (pairs_of root.now.shape) }
    ensures start { StartAt (pairs_from edge low.now root.now.shape) (start_shape result) }
    ensures counted { CountsUpTo (path_bound root.now.shape low.now
        + start_length (start_shape result)) 0 work.old work.new }
    ensures soon { CountsUpTo (path_bound root.now.shape low.now + 1) 0 work.old work.new }
    ensures entered { work.old.entered < work.new.entered }
{
    let mut at = root;
    let mut rest = low;
    let mut turn = None;
    'down: loop {
        let node = at.open(work);
        let common = node.prefix().prefix_length_slice(rest);
        if common == rest.len() || common < node.prefix().len() {
            return match kept_of(node, rest, common, edge) {
                Kept::All => Some((&low[..low.len() - rest.len()], node)),
                Kept::Inside => open_turn(turn_of(node.iter(), low, turn), work),
                Kept::Nothing => open_turn(turn, work),
            };
        }
        rest = rest_of(rest, common);
        let (child, later) = around(node, rest[0]);
        turn = turn_of(later, &low[..low.len() - rest.len()], turn);
        at = match child {
            Some(child) => child,
            None => return open_turn(turn, work),
        };
    }
}

/// Of a node, of whose prefix the string has not the whole, or has no more.
fn kept_of<P: Partial, V: Drop>(
    node: &VersionedNode<P, V>,
    rest: &[u8],
    common: usize,
    edge: Edge,
) -> Kept
    requires tree { IsTree node.now.shape }
    requires common { common ≡ common_length (prefix_of node.now.shape) rest.now }
    requires ends { (common ≡ length rest.now) ⊎ (common < length (prefix_of node.now.shape)) }
    ensures kept { pairs_from edge rest.now node.now.shape ≡ kept_part result node.now.shape }
    ensures ended { result ≡ Kept.Inside → rest.now ≡ prefix_of node.now.shape }
{
    if common < rest.len() {
        if rest[common] < node.prefix().at(common) {
            return Kept::All;
        }
        return Kept::Nothing;
    }
    if common < node.prefix().len() {
        return Kept::All;
    }
    match edge {
        Edge::Included => Kept::All,
        Edge::Excluded => Kept::Inside,
    }
}

/// The child under a byte, and the children behind it.
fn around<'a, P: Partial, V: Drop>(
    node: &'a VersionedNode<P, V>,
    byte: u8,
) -> (Option<&'a NodeRef<P, V>>, VersionedNodeIter<'a, P, V>)
    requires { IsAscending node.now.shape }
    ensures child { option_map (λ child. child.now.shape) result.0
        ≡ child_at byte (children_of node.now.shape) }
    ensures later { children_left result.1 ≡ children_from (byte + 1) (children_of node.now.shape) }
{
    let mut later = node.iter_from(byte);
    match node.seek_child(byte) {
        None => (None, later),
        Some(child) => {
            later.next();
            (Some(child), later)
        }
    }
}

/// The first of some children behind a path, or where there is none what is ahead of them.
fn turn_of<'k, 'a, P: Partial, V: Drop>(
    mut children: VersionedNodeIter<'a, P, V>,
    path: &'k [u8],
    turn: Option<(&'k [u8], &'a NodeRef<P, V>)>,
) -> Option<(&'k [u8], &'a NodeRef<P, V>)>
    ensures start { let later = children_left children.entry in
        (ahead : List (List ℕ × V)) → StartAt ahead (start_shape turn.entry) → AreTurns later
        → AreShort (Some (2 ^ 64 - 1)) (behind_path path.now (pairs_of_all later))
        → StartAt (behind_path path.now (pairs_of_all later) ++ ahead) (start_shape result) }
    ensures deep { IsDeep (start_shape turn.entry) → AreTurns (children_left children.entry)
        → IsDeep (start_shape result) }
{
    match children.next_child() {
        Some(child) => Some((path, child)),
        None => turn,
    }
}

/// The node that a turn leads to, opened.
fn open_turn<'k, 'a, P: Partial, V: Drop>(
    turn: Option<(&'k [u8], &'a NodeRef<P, V>)>,
    work: &mut Work,
) -> Option<(&'k [u8], &'a VersionedNode<P, V>)>
    ensures shown { start_shape result ≡ start_shape turn.entry }
    ensures entered { work.new.entered
        ≡ work.old.entered + (if is_some (start_shape result) then 1 else 0) }
    ensures made { work.new.made ≡ work.old.made }
{
    let (path, child) = turn?;
    Some((path, child.open(work)))
}
