// Ported from rart 0.11.0 (Apache-2.0), and rewritten.
//! The value of a key.
ghost use Rattle.std.specs.Prelude.{◌≡◌, ◌<◌};
ghost use Rattle.std.specs.Option.{option_copied};
ghost use Rattle.rart_node.specs.Counts.{CountsUpTo};
ghost use Rattle.rart_node.specs.Trees.{IsTree, found, path_bound};
ghost use Rattle.rart_ways.specs.Searches.{EntersEach, prefix_matches};

use crate::search::steps::step;
use rart_below::Partial;
use rart_node::{NodeRef, Work};

/// The value of a key below a pointer, if the key is there.
///
/// Each node on the way is entered once: at least the first and one for each key that begins this
/// one, and no more than one for each byte of the key beside the first. It takes no memory.
pub fn get_below<'a, P: Partial, V: Drop>(
    root: &'a NodeRef<P, V>,
    key: &[u8],
    work: &mut Work,
) -> Option<&'a V>
    requires tree { IsTree root.now.shape }
    ensures value { option_copied result ≡ found root.now.shape key.now }
    ensures counted { CountsUpTo (path_bound root.now.shape key.now) 0 work.old work.new }
    ensures entered { work.old.entered < work.new.entered }
    ensures each { EntersEach (prefix_matches key.now root.now.shape) work.old work.new }
{
    let mut at = root;
    let mut rest = key;
    'down: loop {
        let passed = step(at, rest, work)?;
        rest = passed.rest;
        at = match passed.child() {
            Some(child) => child,
            None if rest.is_empty() => return passed.node.value(),
            None => return None,
        };
    }
}
