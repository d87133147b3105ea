// Ported from rart 0.11.0 (Apache-2.0), and rewritten.
//! What the tree asks of a key.
ghost use Rattle.std.specs.Prelude.{◌≡◌, ◌↔◌, ℕ, ◌-◌, ◌<◌, ◌≤◌, List, Option, length, drop, slice_index, IfOk, IsTrue};
ghost use Rattle.rart_below.specs.Bytes.{byte_order, IsAdmitted};

use crate::partial::Partial;
use std::alloc::{AllocError, Global};

/// A key of the tree.
///
/// Contracts see a key as its bytes. The laws say that every key's length is admitted, that
/// prefixes may be as long as keys, and that equality and order of keys are those of their bytes. A
/// key is copied by `K::new_from_slice(alloc, key.as_ref())`.
///
/// A key type that has `AsSlice<u8>` as well must lend the same bytes by it, since calls that take
/// whatever lends bytes take what it lends. No clause says so.
pub trait KeyTrait: Eq + Ord + Drop {
    /// What a node stores of such keys.
    type PartialType: Partial;

    /// The greatest length of a key in bytes, or `None` where each length is admitted.
    const MAXIMUM_SIZE: Option<usize>;

    ghost MAXIMUM_SIZE: { Option ℕ };

    ghost bytes: { Self → List ℕ };

    /// The key with these bytes.
    fn new_from_slice(alloc: Global, slice: &[u8]) -> Result<Self, AllocError>
        requires { IsAdmitted MAXIMUM_SIZE (length slice.now) }
        ensures { IfOk result (λ key. bytes key ≡ slice.now) };

    /// The key with the bytes of `partial`.
    fn new_from_partial(alloc: Global, partial: &Self::PartialType) -> Result<Self, AllocError>
        requires { IsAdmitted MAXIMUM_SIZE (length (Self.PartialType.bytes partial.now)) }
        ensures { IfOk result (λ key. bytes key ≡ Self.PartialType.bytes partial.now) };

    /// The bytes from `depth` on.
    fn to_partial(&self, alloc: Global, depth: usize) -> Result<Self::PartialType, AllocError>
        requires { depth ≤ length (bytes self.now) }
        ensures { IfOk result (λ partial. Self.PartialType.bytes partial
            ≡ drop depth (bytes self.now)) };

    fn as_ref(&self) -> &[u8]
        ensures { result.now ≡ bytes self.now };

    /// The byte at an index.
    fn at(&self, index: usize) -> u8
        requires { index < length (bytes self.now) }
        ensures { result ≡ slice_index (bytes self.now) index };

    /// The number of bytes from `depth` on.
    fn length_at(&self, depth: usize) -> usize
        requires { depth ≤ length (bytes self.now) }
        ensures { result ≡ length (bytes self.now) - depth };

    ghost admitted: { (key : Self) → IsAdmitted MAXIMUM_SIZE (length (bytes key)) };

    ghost maximum_of_partial: { Self.PartialType.MAXIMUM_SIZE ≡ MAXIMUM_SIZE };

    ghost equal_by_bytes: { (a b : Self) → IsTrue (Self.eq a b) ↔ (bytes a ≡ bytes b) };

    ghost ordered_by_bytes: { (a b : Self) → Self.cmp a b ≡ byte_order (bytes a) (bytes b) };
}

/// Whether a type of keys or prefixes admits a length. `most` is its greatest one, as
/// `K::MAXIMUM_SIZE`, or `None` where it has none.
///
/// ```
/// let is_short = is_admitted(VectorKey::MAXIMUM_SIZE, buffer.len());
/// ```
pub fn is_admitted(most: Option<usize>, length: usize) -> bool
    ensures { IsTrue result ↔ IsAdmitted most length }
{
    match most {
        None => true,
        Some(most) => length <= most,
    }
}
