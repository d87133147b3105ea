// Ported from rart 0.11.0 (Apache-2.0), and rewritten.
//! The visit of the keys that begin a probe.
ghost use Rattle.std.specs.Prelude.{◌<◌};
ghost use Rattle.std.specs.Option.{option_copied};
ghost use Rattle.rart_maps.specs.Visits.{BySlice, Visit, Visitable};
ghost use Rattle.rart_node.specs.Counts.{CountsUpTo};
ghost use Rattle.rart_node.specs.Trees.{IsTree, path_bound};
ghost use Rattle.rart_node.specs.PairsBehind.{pending_pair};
ghost use Rattle.rart_ways.specs.Searches.{EntersEach, prefix_matches};

use crate::search::steps::step;
use rart_below::Partial;
use rart_node::{NodeRef, Work};

/// Calls the closure on each pair below a pointer whose key begins the probe, the shortest first:
/// with the slice of the probe that the key is, and a reference to the value.
///
/// Each node along the probe is entered once: at least the first and one for each key that begins
/// the probe, and no more than one for each byte of the probe beside the first. It takes no memory.
pub fn visit_prefix_matches<P: Partial, V: Drop, F: FnMut(&[u8], &V)>(
    root: &NodeRef<P, V>,
    probe: &[u8],
    f: &mut F,
    work: &mut Work,
)
    requires tree { IsTree root.now.shape }
    requires visitable { Visitable F.FnMut BySlice f.old
        (prefix_matches probe.now root.now.shape) }
    ensures visits { Visit F.FnMut BySlice f.old
        (prefix_matches probe.now root.now.shape) f.new }
    ensures counted { CountsUpTo (path_bound root.now.shape probe.now) 0 work.old work.new }
    ensures entered { work.old.entered < work.new.entered }
    ensures each { EntersEach (prefix_matches probe.now root.now.shape) work.old work.new }
{
    let mut at = root;
    let mut rest = probe;
    'down: loop {
        let Some(passed) = step(at, rest, work) else {
            return;
        };
        rest = passed.rest;
        let end = probe.len() - rest.len();
        visit_own(&probe[..end], passed.node.value(), f);
        let Some(child) = passed.child() else {
            return;
        };
        at = child;
    }
}

/// The visit of one node's own value, if it has one.
fn visit_own<V, F: FnMut(&[u8], &V)>(key: &[u8], value: Option<&V>, f: &mut F)
    requires { Visitable F.FnMut BySlice f.old (pending_pair key.now (option_copied value)) }
    ensures { Visit F.FnMut BySlice f.old (pending_pair key.now (option_copied value.entry)) f.new }
{
    if let Some(value) = value {
        f(key, value);
    }
}
