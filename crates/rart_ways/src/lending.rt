// Ported from rart 0.11.0 (Apache-2.0), and rewritten.
//! The way down a tree to a value that is lent for writing.
ghost use Rattle.std.specs.Prelude.{◌≡◌, ◌+◌, Some, IfOk};
ghost use Rattle.std.specs.Borrow.{sem};
ghost use Rattle.rart_below.specs.Clones.{ClonesEqual};
ghost use Rattle.rart_node.specs.Counts.{CountsUpTo};
ghost use Rattle.rart_node.specs.Trees.{IsTree, found};
ghost use Rattle.rart_ways.specs.Grafts.{LendsAlong};
ghost use Rattle.rart_ways.specs.Paths.{Arrives};

pub(crate) mod path;

use path::{Path, Whole};
use rart_below::Partial;
use rart_node::{NodeRef, Work};
use std::alloc::AllocError;

/// Lends the value of a key that ends `steps` nodes below a pointer, for writing.
///
/// Each node on the way is opened for writing once. Refused for memory, the pointer shows what it
/// showed.
pub fn lend_below<'a, P: Partial, V: Clone + Drop>(
    at: &'a mut NodeRef<P, V>,
    key: &[u8],
    steps: usize,
    work: &mut Work,
) -> Result<&'a mut V, AllocError>
    requires clones { ClonesEqual V.is_clone }
    requires tree { IsTree at.old.shape }
    requires arrives { Arrives steps key.now at.old.shape }
    ensures* writes_back { sem 𝓛 (LendsAlong P.row V.row P.Partial at.entry key.now result) }
    ensures value { IfOk result (λ value. found at.old.shape key.now ≡ Some value.now) }
    ensures counted { CountsUpTo (steps + 1) (steps + 1) work.old work.new }
{
    let mut passed = 0;
    let node = Whole::down(at, key, &mut passed, steps, work)?;
    match node.value_mut() {
        Some(value) => Ok(value),
        None => unreachable!(),
    }
}
