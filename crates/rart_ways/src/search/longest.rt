// Ported from rart 0.11.0 (Apache-2.0), and rewritten.
//! The longest of the keys that begin a probe.
ghost use Rattle.std.specs.Prelude.{◌≡◌, ◌<◌, ◌≤◌, ℕ, List, None, IfSome, length, take};
ghost use Rattle.std.specs.List.{last_or};
ghost use Rattle.std.specs.Option.{option_copied};
ghost use Rattle.rart_node.specs.Counts.{CountsUpTo};
ghost use Rattle.rart_node.specs.Trees.{IsTree, path_bound};
ghost use Rattle.rart_node.specs.PairsBehind.{pending_pair};
ghost use Rattle.rart_ways.specs.Longest.{pair_found};
ghost use Rattle.rart_ways.specs.Searches.{EntersEach, prefix_matches};

use crate::search::steps::step;
use rart_below::Partial;
use rart_node::{NodeRef, Work};

/// The longest key below a pointer that begins the probe, if there is one: how many bytes it has,
/// and a reference to its value.
///
/// Each node along the probe is entered once: at least the first and one for each key that begins
/// the probe, and no more than one for each byte of the probe beside the first. It takes no memory.
pub fn longest_prefix_match<'a, P: Partial, V: Drop>(
    root: &'a NodeRef<P, V>,
    probe: &[u8],
    work: &mut Work,
) -> Option<(usize, &'a V)>
    requires tree { IsTree root.now.shape }
    ensures longest { pair_found probe.now result
        ≡ last_or None (prefix_matches probe.now root.now.shape) }
    ensures within { IfSome result (λ found. found.0 ≤ length probe.now) }
    ensures counted { CountsUpTo (path_bound root.now.shape probe.now) 0 work.old work.new }
    ensures entered { work.old.entered < work.new.entered }
    ensures each { EntersEach (prefix_matches probe.now root.now.shape) work.old work.new }
{
    let mut at = root;
    let mut rest = probe;
    let mut longest = None;
    'down: loop {
        let Some(passed) = step(at, rest, work) else {
            return longest;
        };
        rest = passed.rest;
        longest = longer(longest, probe.len() - rest.len(), passed.node.value());
        let Some(child) = passed.child() else {
            return longest;
        };
        at = child;
    }
}

/// The value of a node, if it has one, with the length of its key; or else what was found above it.
fn longer<'a, V>(
    above: Option<(usize, &'a V)>,
    passed: usize,
    value: Option<&'a V>,
) -> Option<(usize, &'a V)>
    ensures pair { (probe : List ℕ) → pair_found probe result
        ≡ last_or (pair_found probe above.entry)
        (pending_pair (take passed probe) (option_copied value.entry)) }
    ensures within { (most : ℕ) → passed ≤ most → IfSome above.entry (λ found. found.0 ≤ most)
        → IfSome result (λ found. found.0 ≤ most) }
{
    match value {
        Some(value) => Some((passed, value)),
        None => above,
    }
}
