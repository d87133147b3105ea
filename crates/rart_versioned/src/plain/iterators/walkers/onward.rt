// Ported from rart 0.11.0 (Apache-2.0), and rewritten.
//! Walks in the order of the keys.
ghost use Rattle.std.specs.Prelude.{None};
ghost use Rattle.std.specs.Ordering.{as_partial_cmp};
ghost use Rattle.std.specs.Range.Bound.{is_up_to_end};
ghost use Rattle.rart_below.specs.Bytes.{byte_order};
ghost use Rattle.rart_maps.proofs.RangeLemmas.{up_to-past};
ghost use Rattle.rart_maps.specs.Order.{IsBefore};
ghost use Rattle.rart_node.specs.KeyPaths.{HoldsBytes, HoldsNothing, extent_in_bytes, no_extent};
ghost use Rattle.rart_walks.specs.WalkFields.{IsWalk, cursor, path_to};

use super::{KeyWalker, RangeWalker, Walker};
use rart_below::{Partial, is_up_to};
use rart_node::Work;
use rart_walks::{BytesPath, NoPath, Walk};
use std::alloc::AllocError;
use std::ops::Bound;

// One `impl` for every key path would have a bound that names a lifetime.
impl<'a, P: Partial, V: Drop> Walker<V> for Walk<'a, P, V, BytesPath> {
    type Lent = &'a V;

    ghost value = { λ lent. lent.now };

    ghost is_sound = { IsWalk HoldsBytes extent_in_bytes None };

    ghost left = { λ walk. (cursor walk).pairs };

    ghost key = { path_to };

    #[inline(always)]
    fn next_lent(&mut self) -> Result<Option<&'a V>, AllocError> {
        self.next_value(&mut Work::new())
    }
}

impl<'a, P: Partial, V: Drop> KeyWalker<V> for Walk<'a, P, V, BytesPath> {
    #[inline(always)]
    fn key_bytes(&self) -> &[u8] {
        self.key_path().as_slice()
    }
}

impl<'a, P: Partial, V: Drop> RangeWalker<V> for Walk<'a, P, V, BytesPath> {
    ghost comes_before = { IsBefore };

    ghost is_within = { is_up_to_end (as_partial_cmp byte_order) };

    fn meets(end: Bound<&[u8]>, bytes: &[u8]) -> bool {
        is_up_to(bytes, end)
    }

    ghost past = { up_to-past };
}

impl<'a, P: Partial, V: Drop> Walker<V> for Walk<'a, P, V, NoPath> {
    type Lent = &'a V;

    ghost value = { λ lent. lent.now };

    ghost is_sound = { IsWalk HoldsNothing no_extent None };

    ghost left = { λ walk. (cursor walk).pairs };

    ghost key = { path_to };

    #[inline(always)]
    fn next_lent(&mut self) -> Result<Option<&'a V>, AllocError> {
        self.next_value(&mut Work::new())
    }
}
