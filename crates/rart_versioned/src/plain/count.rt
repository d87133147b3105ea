// Ported from rart 0.11.0 (Apache-2.0), and rewritten.
//! How many keys there are, which no tree keeps: a walk over them.
ghost use Rattle.std.specs.Prelude.{◌≡◌, ◌^◌, ◌<◌, None, IfOk, length};
ghost use Rattle.rart_maps.specs.Pairs.{pairs, under};
ghost use Rattle.rart_node.specs.KeyPaths.{HoldsNothing, no_extent};
ghost use Rattle.rart_walks.specs.WalkFields.{IsWalk, cursor};

use crate::counted::VersionedAdaptiveRadixTree;
use rart_below::{KeyTrait, Partial};
use rart_node::Work;
use rart_walks::{NoPath, Walk};
use std::alloc::AllocError;
use std::convert::AsSlice;

impl<K: KeyTrait, V: Clone + Drop> VersionedAdaptiveRadixTree<K, V> {
    /// How many keys the map has, or out of memory. It walks over all of them, as `BTreeMap::len`
    /// does not: a map that is asked often wants a number beside it. rart has no such call.
    ///
    /// ```
    /// let products = list.count()?;
    /// ```
    pub fn count(&self) -> Result<u64, AllocError>
        ensures { IfOk result (λ count. count ≡ length (pairs self.now.content)) }
    {
        self.know_keys_for_proof();
        count_left(self.whole_walk(&mut Work::new())?)
    }

    /// How many keys the prefix begins, or out of memory: a walk over these alone. The prefix may
    /// be a text, bytes, or whatever else lends bytes; the empty one begins every key. rart has no
    /// such call.
    ///
    /// ```
    /// let teas = list.count_under("tea/")?;
    /// ```
    pub fn count_under<Q: AsSlice<u8> + Drop>(&self, prefix: Q) -> Result<u64, AllocError>
        ensures { IfOk result (λ count. count ≡ length (under self.now.content (Q.items prefix))) }
    {
        self.know_keys_for_proof();
        count_left(self.walk_under(prefix.as_slice(), &mut Work::new())?)
    }
}

/// How many pairs a walk has left, which it walks to its end.
fn count_left<'a, P: Partial, V: Drop>(mut walk: Walk<'a, P, V, NoPath>) -> Result<u64, AllocError>
    requires walk { IsWalk HoldsNothing no_extent None walk }
    requires few { length (cursor walk).pairs < 2 ^ 64 }
    ensures { IfOk result (λ count. count ≡ length (cursor walk.entry).pairs) }
{
    let mut count = 0;
    while let Some(_value) = walk.next_value(&mut Work::new())? {
        count += 1;
    }
    Ok(count)
}
