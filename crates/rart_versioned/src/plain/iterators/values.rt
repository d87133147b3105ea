// Ported from rart 0.11.0 (Apache-2.0), and rewritten.
//! The values of a tree, in the order of their keys, or from that of the last key to that of the
//! first. rart has only the former.
ghost use Rattle.std.specs.Prelude.{◌≡◌, Some, map, reverse, IfOk, IfSome};
ghost use Rattle.rart_maps.specs.Pairs.{pairs};

use super::walkers::Walker;
use crate::counted::VersionedAdaptiveRadixTree;
use rart_below::KeyTrait;
use rart_node::Work;
use rart_walks::{NoPath, Walk, WalkBack};
use std::alloc::AllocError;
use std::marker::{Model, PhantomData};

/// The values of a tree, in the order of their keys.
pub type VersionedValuesIter<'a, P, V> = ValuesOver<V, Walk<'a, P, V, NoPath>>;

/// The values of a tree, from that of the last key to that of the first.
pub type VersionedValuesRevIter<'a, P, V> = ValuesOver<V, WalkBack<'a, P, V, NoPath>>;

/// The values of a tree, as a walk comes to them.
///
/// Contracts see the values that are still to come, or `None` behind the end and behind a refusal.
#[derive(Drop)]
pub struct ValuesOver<V, W: Walker<V>> {
    walk: Option<W>,
    lent: PhantomData<(V, W::Lent)>,
}

impl<V, W: Walker<V>> Model for ValuesOver<V, W> {
    ghost use Rattle.std.specs.Prelude.{List, Option, IfSome};
    ghost use Rattle.rart_versioned.specs.Walkers.{values_left};

    ghost Value = { Option (List V) };

    ghost view = { λ iter. values_left W.left iter.walk };

    ghost invariant = { λ iter. IfSome iter.walk W.is_sound };
}

impl<K: KeyTrait, V: Clone + Drop> VersionedAdaptiveRadixTree<K, V> {
    /// All values, in the order of their keys. No key is made.
    ///
    /// ```
    /// for price in list.values_iter()? {
    ///     prices.push(*price?)?;
    /// }
    /// ```
    ///
    /// Refused for memory, there is no iterator. A later refusal is an item, which is the last: so
    /// without one the values are all. In Rust neither is there, and the items are values.
    pub fn values_iter(&self) -> Result<VersionedValuesIter<'_, K::PartialType, V>, AllocError>
        ensures { IfOk result (λ iter. iter
            ≡ Some (map (λ pair. pair.1) (pairs self.now.content))) }
    {
        let walk = self.whole_walk(&mut Work::new())?;
        Ok(ValuesOver {
            walk: Some(walk),
            lent: PhantomData,
        })
    }

    /// All values, from that of the last key to that of the first. No key is made. In Rust this is
    /// `values_iter().rev()`, which rart does not have.
    ///
    /// ```
    /// for price in list.values_iter_rev()? {
    ///     prices.push(*price?)?;
    /// }
    /// ```
    ///
    /// Refused for memory, there is no iterator. A later refusal is an item, which is the last: so
    /// without one the values are all.
    pub fn values_iter_rev(
        &self,
    ) -> Result<VersionedValuesRevIter<'_, K::PartialType, V>, AllocError>
        ensures { IfOk result (λ iter. iter
            ≡ Some (map (λ pair. pair.1) (reverse (pairs self.now.content)))) }
    {
        let walk = self.whole_walk_back(&mut Work::new())?;
        Ok(ValuesOver {
            walk: Some(walk),
            lent: PhantomData,
        })
    }
}

impl<V: Drop, W: Walker<V>> Iterator for ValuesOver<V, W> {
    type Item = Result<W::Lent, AllocError>;

    ghost use Rattle.std.specs.Iterator.{UpTo};
    ghost use Rattle.std.specs.Iterator.SizeHint.{IsWithinCount};
    ghost use Rattle.rart_maps.specs.Iterations.{NextGives, items_left};
    ghost use Rattle.rart_versioned.specs.Iterators.{IsHintOf};
    ghost use Rattle.rart_versioned.specs.Walkers.{ByLent};

    ghost next_gives = { NextGives (ByLent W.value) };

    ghost remaining = { items_left };

    fn next(&mut self) -> Option<Result<W::Lent, AllocError>> {
        match &mut self.walk {
            None => None,
            Some(walk) => match walk.next_lent() {
                Ok(Some(value)) => Some(Ok(value)),
                Ok(None) => {
                    self.walk = None;
                    None
                }
                Err(refused) => {
                    self.walk = None;
                    Some(Err(refused))
                }
            },
        }
    }

    /// That nothing comes any more is known behind the end alone.
    fn size_hint(&self) -> (usize, Option<usize>)
        ensures lower { IsWithinCount result.0 (items_left self.now) }
        ensures upper { IfSome result.1 (UpTo (items_left self.now)) }
        ensures hint { IsHintOf self.now result }
    {
        match &self.walk {
            None => (0, Some(0)),
            Some(_) => (0, None),
        }
    }
}
