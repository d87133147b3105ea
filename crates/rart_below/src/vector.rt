// Ported from rart 0.11.0 (Apache-2.0), and rewritten.
//! Keys and prefixes of any length.
ghost use Rattle.std.specs.Prelude.{◌≡◌, ◌≤◌, ◌++◌, None, IfOk, refl};
ghost use Rattle.std.proofs.lemmas.Slice.Eq.{bytes_eq-Decides};
ghost use Rattle.rart_below.specs.Held.{bytes_of, count_of, room_of};

use crate::beginnings::prefix_length;
use crate::held::Held;
use crate::key::KeyTrait;
use crate::partial::Partial;
use std::alloc::{AllocError, Global};
use std::convert::AsSlice;

/// Bytes of any number: at most 22 are held inline, more on the heap.
#[derive(Drop)]
pub struct VectorPartial {
    held: Held,
    ghost fits: { count_of held ≤ room_of held },
}

impl VectorPartial {
    /// These bytes.
    fn of(alloc: Global, bytes: &[u8]) -> Result<VectorPartial, AllocError>
        ensures { IfOk result (λ partial. bytes_of partial.held ≡ bytes.now) }
    {
        Ok(VectorPartial {
            held: Held::of(alloc, bytes)?,
        })
    }

    /// These bytes, and others behind them.
    fn joined(alloc: Global, front: &[u8], back: &[u8]) -> Result<VectorPartial, AllocError>
        ensures { IfOk result (λ partial. bytes_of partial.held ≡ front.now ++ back.now) }
    {
        Ok(VectorPartial {
            held: Held::joined(alloc, front, back)?,
        })
    }
}

impl Partial for VectorPartial {
    const MAXIMUM_SIZE: Option<usize> = None;

    ghost MAXIMUM_SIZE = { None };

    ghost bytes = { λ partial. bytes_of partial.held };

    fn new_from_slice(alloc: Global, slice: &[u8]) -> Result<VectorPartial, AllocError> {
        VectorPartial::of(alloc, slice)
    }

    fn len(&self) -> usize {
        self.as_ref().len()
    }

    fn is_empty(&self) -> bool {
        self.as_ref().is_empty()
    }

    fn at(&self, index: usize) -> u8 {
        self.as_ref()[index]
    }

    #[inline]
    fn as_ref(&self) -> &[u8] {
        self.held.as_slice()
    }

    fn partial_before(&self, alloc: Global, count: usize) -> Result<VectorPartial, AllocError> {
        VectorPartial::of(alloc, &self.as_ref()[..count])
    }

    fn partial_after(&self, alloc: Global, count: usize) -> Result<VectorPartial, AllocError> {
        VectorPartial::of(alloc, &self.as_ref()[count..])
    }

    fn partial_extended_with(
        &self,
        alloc: Global,
        other: &VectorPartial,
    ) -> Result<VectorPartial, AllocError> {
        VectorPartial::joined(alloc, self.as_ref(), other.as_ref())
    }

    fn copy(&self, alloc: Global) -> Result<VectorPartial, AllocError> {
        Ok(VectorPartial {
            held: self.held.copy(alloc)?,
        })
    }

    fn prefix_length_slice(&self, other: &[u8]) -> usize {
        prefix_length(self.as_ref(), other)
    }

    ghost admitted = { λ partial. tt };
}

/// A key of any length, its bytes on the heap.
#[derive(PartialEq, Eq, PartialOrd, Ord, Drop)]
pub struct VectorKey {
    bytes: Vec<u8>,
}

/// Its bytes, so that a call which takes whatever lends bytes takes a key too. In Rust this is
/// `AsRef<[u8]>`.
impl AsSlice<u8> for VectorKey {
    ghost items = { λ key. key.bytes.items };

    fn as_slice(&self) -> &[u8] {
        self.bytes.as_slice()
    }
}

impl KeyTrait for VectorKey {
    type PartialType = VectorPartial;

    const MAXIMUM_SIZE: Option<usize> = None; // that of its prefixes

    ghost MAXIMUM_SIZE = { None };

    ghost bytes = { λ key. key.bytes.items };

    fn new_from_slice(alloc: Global, slice: &[u8]) -> Result<VectorKey, AllocError> {
        Ok(VectorKey {
            bytes: slice.to_vec(alloc)?,
        })
    }

    fn new_from_partial(alloc: Global, partial: &VectorPartial) -> Result<VectorKey, AllocError> {
        VectorKey::new_from_slice(alloc, partial.as_ref())
    }

    fn to_partial(&self, alloc: Global, depth: usize) -> Result<VectorPartial, AllocError> {
        VectorPartial::of(alloc, &self.bytes[depth..])
    }

    fn as_ref(&self) -> &[u8] {
        self.bytes.as_slice()
    }

    fn at(&self, index: usize) -> u8 {
        self.bytes[index]
    }

    fn length_at(&self, depth: usize) -> usize {
        self.bytes.len() - depth
    }

    ghost admitted = { λ key. tt };

    ghost maximum_of_partial = { refl };

    ghost equal_by_bytes = { λ a b. bytes_eq-Decides a.bytes.items b.bytes.items };

    ghost ordered_by_bytes = { λ a b. refl };
}
