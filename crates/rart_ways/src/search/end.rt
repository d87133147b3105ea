// Ported from rart 0.11.0 (Apache-2.0), and rewritten.
//! The way down to the node that a key ends at, and the node above that.
ghost use Rattle.std.specs.Prelude.{◌≡◌, ◌+◌, ◌<◌, ◌≤◌, None, Some, IfNone, IfSome};
ghost use Rattle.rart_node.specs.Counts.{CountsUpTo};
ghost use Rattle.rart_node.specs.Shape.{prefix_of};
ghost use Rattle.rart_node.specs.Trees.{IsTree, found, path_bound};
ghost use Rattle.rart_ways.specs.Paths.{path_end};
ghost use Rattle.rart_ways.specs.Plans.{IsAbove};

use crate::search::steps::step;
use rart_below::Partial;
use rart_node::{NodeRef, VersionedNode, Work};

/// A node, and the byte of the way under which it has a child.
#[derive(Drop)]
pub(crate) struct Fork<'a, P: Partial, V> {
    pub node: &'a VersionedNode<P, V>,
    pub byte: u8,
}

/// The node that a key ends at.
#[derive(Drop)]
pub(crate) struct KeyEnd<'a, P: Partial, V> {
    pub node: &'a VersionedNode<P, V>,
    /// The node above it: none of the root.
    pub above: Option<Fork<'a, P, V>>,
    /// How many nodes below the root it is.
    pub steps: usize,
}

/// The node below a root that a key ends at, or `None` where there is none.
///
/// Each node on the way is entered once. It takes no memory.
pub(crate) fn key_end<'a, P: Partial, V: Drop>(
    root: &'a NodeRef<P, V>,
    key: &[u8],
    work: &mut Work,
) -> Option<KeyEnd<'a, P, V>>
    requires tree { IsTree root.now.shape }
    ensures ends { IfSome result (λ end. path_end end.steps key.now root.now.shape
        ≡ Some (end.node.now.shape, prefix_of end.node.now.shape)) }
    ensures above { IfSome result (λ end. IfSome end.above (λ above. IsAbove key.now
        root.now.shape end.steps above.node.now.shape above.byte end.node.now.shape
        (prefix_of end.node.now.shape))) }
    ensures root { IfSome result (λ end. IfNone end.above (end.steps ≡ 0)) }
    ensures few { IfSome result (λ end. end.steps + 1 ≤ path_bound root.now.shape key.now) }
    ensures absent { IfNone result (found root.now.shape key.now ≡ None) }
    ensures counted { CountsUpTo (path_bound root.now.shape key.now) 0 work.old work.new }
    ensures entered { work.old.entered < work.new.entered }
{
    let mut at = root;
    let mut rest = key;
    let mut above = None;
    let mut steps = 0;
    'down: loop {
        let passed = step(at, rest, work)?;
        let node = passed.node;
        rest = passed.rest;
        let Some(byte) = rest.first() else {
            return Some(KeyEnd { node, above, steps });
        };
        let byte = *byte;
        at = node.seek_child(byte)?;
        above = Some(Fork { node, byte });
        // Below the root each node takes a byte of the key at least.
        let length = key.len();
        prove!(steps < length);
        steps += 1;
    }
}
