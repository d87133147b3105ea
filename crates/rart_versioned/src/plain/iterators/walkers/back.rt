// Ported from rart 0.11.0 (Apache-2.0), and rewritten.
//! Walks from the last key back.
ghost use Rattle.std.specs.Prelude.{None};
ghost use Rattle.std.specs.Ordering.{as_partial_cmp};
ghost use Rattle.std.specs.Range.Bound.{is_from_start};
ghost use Rattle.rart_below.specs.Bytes.{byte_order};
ghost use Rattle.rart_maps.specs.Order.{IsBefore};
ghost use Rattle.rart_node.specs.KeyPaths.{HoldsBytes, HoldsNothing};
ghost use Rattle.rart_walks.proofs.DescendLemmas.{down_to-past};
ghost use Rattle.rart_walks.specs.BackFields.{IsWalkBack, back_cursor, path_to};

use super::{KeyWalker, RangeWalker, Walker};
use rart_below::{Partial, is_from};
use rart_node::Work;
use rart_walks::{BytesPath, NoPath, WalkBack};
use std::alloc::AllocError;
use std::ops::Bound;

// One `impl` for every key path would have a bound that names a lifetime.
impl<'a, P: Partial, V: Drop> Walker<V> for WalkBack<'a, P, V, BytesPath> {
    type Lent = &'a V;

    ghost value = { λ lent. lent.now };

    ghost is_sound = { IsWalkBack HoldsBytes None };

    ghost left = { λ walk. (back_cursor walk).pairs };

    ghost key = { path_to };

    #[inline(always)]
    fn next_lent(&mut self) -> Result<Option<&'a V>, AllocError> {
        self.next_value(&mut Work::new())
    }
}

impl<'a, P: Partial, V: Drop> KeyWalker<V> for WalkBack<'a, P, V, BytesPath> {
    #[inline(always)]
    fn key_bytes(&self) -> &[u8] {
        self.key_path().as_slice()
    }
}

impl<'a, P: Partial, V: Drop> RangeWalker<V> for WalkBack<'a, P, V, BytesPath> {
    ghost comes_before = { λ a b. IsBefore b a };

    ghost is_within = { is_from_start (as_partial_cmp byte_order) };

    fn meets(end: Bound<&[u8]>, bytes: &[u8]) -> bool {
        is_from(bytes, end)
    }

    ghost past = { down_to-past };
}

impl<'a, P: Partial, V: Drop> Walker<V> for WalkBack<'a, P, V, NoPath> {
    type Lent = &'a V;

    ghost value = { λ lent. lent.now };

    ghost is_sound = { IsWalkBack HoldsNothing None };

    ghost left = { λ walk. (back_cursor walk).pairs };

    ghost key = { path_to };

    #[inline(always)]
    fn next_lent(&mut self) -> Result<Option<&'a V>, AllocError> {
        self.next_value(&mut Work::new())
    }
}
