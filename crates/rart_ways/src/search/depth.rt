// Ported from rart 0.11.0 (Apache-2.0), and rewritten.
//! How far down a tree the value of a key stands.
ghost use Rattle.std.specs.Prelude.{◌≡◌, ◌+◌, ◌<◌, ◌≤◌, None, IfNone, IfSome};
ghost use Rattle.rart_node.specs.Counts.{CountsUpTo};
ghost use Rattle.rart_node.specs.Trees.{IsTree, found, path_bound};
ghost use Rattle.rart_ways.specs.Paths.{Arrives};

use crate::search::steps::step;
use rart_below::Partial;
use rart_node::{NodeRef, Work};

/// How many nodes below a pointer a key ends, or `None` where it has no value there. It takes no
/// memory.
pub fn path_length<P: Partial, V: Drop>(
    root: &NodeRef<P, V>,
    key: &[u8],
    work: &mut Work,
) -> Option<usize>
    requires tree { IsTree root.now.shape }
    ensures arrives { IfSome result (λ steps. Arrives steps key.now root.now.shape) }
    ensures few { IfSome result (λ steps. steps + 1 ≤ path_bound root.now.shape key.now) }
    ensures absent { IfNone result (found root.now.shape key.now ≡ None) }
    ensures counted { CountsUpTo (path_bound root.now.shape key.now) 0 work.old work.new }
    ensures entered { work.old.entered < work.new.entered }
{
    let mut at = root;
    let mut rest = key;
    let mut steps = 0;
    'down: loop {
        let passed = step(at, rest, work)?;
        rest = passed.rest;
        at = match passed.child() {
            Some(child) => child,
            None if rest.is_empty() && passed.node.value().is_some() => return Some(steps),
            None => return None,
        };
        // Below the root each node takes a byte of the key at least.
        let length = key.len();
        prove!(steps < length);
        steps += 1;
    }
}
