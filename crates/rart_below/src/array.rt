// Ported from rart 0.11.0 (Apache-2.0), and rewritten.
//! Keys and prefixes held inline, of a greatest length.
ghost use Rattle.std.specs.Prelude.{◌≡◌, ◌+◌, ◌≤◌, ◌++◌, Some, length, take, drop, refl, IsOk, IfOk};
ghost use Rattle.std.proofs.Common.{rules};
ghost use Rattle.std.proofs.lemmas.Slice.Eq.{bytes_eq-Decides};
ghost use Rattle.std.specs.Cmp.{partial_order_from_own_ties};
ghost use Rattle.std.specs.Cmp.Rules.{comparing};
ghost use Rattle.std.specs.Ordering.{as_partial_cmp, on};
ghost use Rattle.rart_below.specs.Bytes.{byte_order};

use crate::beginnings::{compare_bytes, prefix_length};
use crate::key::KeyTrait;
use crate::partial::Partial;
use arrayvec::ArrayVec;
use std::alloc::{AllocError, Global};
use std::cmp::Ordering;
use std::convert::AsSlice;

/// At most `N` bytes, held inline. No call takes memory, so none is refused.
#[derive(Drop)]
pub struct ArrPartial<const N: usize> {
    bytes: ArrayVec<u8, N>,
    ghost fits: { length bytes.items ≤ N },
}

// Bytes of the full length are copied whole, by a copy whose length the compiler knows.
pub(crate) fn inline_bytes<const N: usize>(bytes: &[u8]) -> ArrayVec<u8, N>
    requires { length bytes.now ≤ N }
    ensures { result.items ≡ bytes.now }
{
    if let Ok(whole) = <[u8; N]>::try_from(bytes) {
        return ArrayVec::from(whole);
    }
    let mut inline = ArrayVec::new();
    let _ = inline.try_extend_from_slice(bytes);
    inline
}

impl<const N: usize> Partial for ArrPartial<N> {
    const MAXIMUM_SIZE: Option<usize> = Some(N);

    ghost MAXIMUM_SIZE = { Some N };

    ghost bytes = { λ partial. partial.bytes.items };

    fn new_from_slice(_alloc: Global, slice: &[u8]) -> Result<ArrPartial<N>, AllocError>
        requires admitted { length slice.now ≤ N }
        ensures made { IsOk result }
        ensures bytes { IfOk result (λ partial. partial.bytes.items ≡ slice.now) }
    {
        let bytes = inline_bytes(slice);
        Ok(ArrPartial { bytes })
    }

    fn len(&self) -> usize {
        self.bytes.len()
    }

    fn is_empty(&self) -> bool {
        self.bytes.is_empty()
    }

    fn at(&self, index: usize) -> u8 {
        self.bytes.as_slice()[index]
    }

    fn as_ref(&self) -> &[u8] {
        self.bytes.as_slice()
    }

    fn partial_before(&self, _alloc: Global, count: usize) -> Result<ArrPartial<N>, AllocError>
        requires within { count ≤ length self.now.bytes.items }
        ensures made { IsOk result }
        ensures bytes { IfOk result (λ before. before.bytes.items
            ≡ take count self.now.bytes.items) }
    {
        Ok(ArrPartial {
            bytes: inline_bytes(&self.bytes.as_slice()[..count]),
        })
    }

    fn partial_after(&self, _alloc: Global, count: usize) -> Result<ArrPartial<N>, AllocError>
        requires within { count ≤ length self.now.bytes.items }
        ensures made { IsOk result }
        ensures bytes { IfOk result (λ after. after.bytes.items ≡ drop count self.now.bytes.items) }
    {
        Ok(ArrPartial {
            bytes: inline_bytes(&self.bytes.as_slice()[count..]),
        })
    }

    fn partial_extended_with(
        &self,
        _alloc: Global,
        other: &ArrPartial<N>,
    ) -> Result<ArrPartial<N>, AllocError>
        requires admitted { length self.now.bytes.items + length other.now.bytes.items ≤ N }
        ensures made { IsOk result }
        ensures bytes { IfOk result (λ joined. joined.bytes.items
            ≡ self.now.bytes.items ++ other.now.bytes.items) }
    {
        let mut bytes = inline_bytes(self.bytes.as_slice());
        let _ = bytes.try_extend_from_slice(other.bytes.as_slice());
        Ok(ArrPartial { bytes })
    }

    fn copy(&self, _alloc: Global) -> Result<ArrPartial<N>, AllocError>
        ensures made { IsOk result }
        ensures bytes { IfOk result (λ copy. copy.bytes.items ≡ self.now.bytes.items) }
    {
        Ok(ArrPartial {
            bytes: inline_bytes(self.bytes.as_slice()),
        })
    }

    fn prefix_length_slice(&self, other: &[u8]) -> usize {
        prefix_length(self.bytes.as_slice(), other)
    }

    ghost admitted = { λ partial. partial.fits };
}

/// A key of at most `N` bytes, held inline. No call takes memory, so none is refused.
#[derive(PartialEq, Eq, Drop)]
pub struct ArrayKey<const N: usize> {
    bytes: ArrayVec<u8, N>,
    ghost fits: { length bytes.items ≤ N },
}

impl<const N: usize> PartialOrd for ArrayKey<N> {
    ghost partial_cmp = { as_partial_cmp (on (λ key. key.bytes.items) byte_order) };

    ghost laws = { partial_order_from_own_ties (Prim.search (comparing, rules))
        (Prim.search (comparing, rules)) };

    fn partial_cmp(&self, other: &ArrayKey<N>) -> Option<Ordering> {
        Some(self.cmp(other))
    }
}

impl<const N: usize> Ord for ArrayKey<N> {
    ghost cmp = { on (λ key. key.bytes.items) byte_order };

    ghost total = { Prim.search (comparing, rules) };

    ghost matches_partial_cmp = { Prim.search (comparing, rules) };

    ghost matches_eq = { Prim.search (comparing, rules) };

    fn cmp(&self, other: &ArrayKey<N>) -> Ordering {
        compare_bytes(self.bytes.as_slice(), other.bytes.as_slice())
    }
}

/// Its bytes, so that a call which takes whatever lends bytes takes a key too. In Rust this is
/// `AsRef<[u8]>`.
impl<const N: usize> AsSlice<u8> for ArrayKey<N> {
    ghost items = { λ key. key.bytes.items };

    fn as_slice(&self) -> &[u8] {
        self.bytes.as_slice()
    }
}

impl<const N: usize> KeyTrait for ArrayKey<N> {
    type PartialType = ArrPartial<N>;

    const MAXIMUM_SIZE: Option<usize> = Some(N); // that of its prefixes

    ghost MAXIMUM_SIZE = { Some N };

    ghost bytes = { λ key. key.bytes.items };

    fn new_from_slice(_alloc: Global, slice: &[u8]) -> Result<ArrayKey<N>, AllocError>
        requires admitted { length slice.now ≤ N }
        ensures made { IsOk result }
        ensures bytes { IfOk result (λ key. key.bytes.items ≡ slice.now) }
    {
        Ok(ArrayKey {
            bytes: inline_bytes(slice),
        })
    }

    fn new_from_partial(_alloc: Global, partial: &ArrPartial<N>) -> Result<ArrayKey<N>, AllocError>
        requires admitted { length partial.now.bytes.items ≤ N }
        ensures made { IsOk result }
        ensures bytes { IfOk result (λ key. key.bytes.items ≡ partial.now.bytes.items) }
    {
        Ok(ArrayKey {
            bytes: inline_bytes(partial.as_ref()),
        })
    }

    fn to_partial(&self, _alloc: Global, depth: usize) -> Result<ArrPartial<N>, AllocError>
        requires within { depth ≤ length self.now.bytes.items }
        ensures made { IsOk result }
        ensures bytes { IfOk result (λ partial. partial.bytes.items
            ≡ drop depth self.now.bytes.items) }
    {
        Ok(ArrPartial {
            bytes: inline_bytes(&self.bytes.as_slice()[depth..]),
        })
    }

    fn as_ref(&self) -> &[u8] {
        self.bytes.as_slice()
    }

    fn at(&self, index: usize) -> u8 {
        self.bytes.as_slice()[index]
    }

    fn length_at(&self, depth: usize) -> usize {
        self.bytes.len() - depth
    }

    ghost admitted = { λ key. key.fits };

    ghost maximum_of_partial = { refl };

    ghost equal_by_bytes = { λ a b. bytes_eq-Decides a.bytes.items b.bytes.items };

    ghost ordered_by_bytes = { λ a b. refl };
}
