// Ported from rart 0.11.0 (Apache-2.0), and rewritten.
//! What the tree asks of a prefix, the part of a key that one node stores.
ghost use Rattle.std.specs.Prelude.{◌≡◌, ◌==◌, ℕ, ◌+◌, ◌<◌, ◌≤◌, ◌++◌, List, Option, length, take, drop, slice_index, IfOk};
ghost use Rattle.rart_below.specs.Bytes.{common_length, IsAdmitted};

use std::alloc::{AllocError, Global};

/// A list of bytes: the part of a key that one node stores.
///
/// Contracts see a value as its bytes. A call that copies bytes may be refused for memory, and then
/// nothing has changed. The law says that every prefix's length is admitted.
pub trait Partial: Drop {
    /// The greatest number of bytes, or `None` where each number is admitted.
    const MAXIMUM_SIZE: Option<usize>;

    ghost MAXIMUM_SIZE: { Option ℕ };

    ghost bytes: { Self → List ℕ };

    /// A value with these bytes.
    fn new_from_slice(alloc: Global, slice: &[u8]) -> Result<Self, AllocError>
        requires { IsAdmitted MAXIMUM_SIZE (length slice.now) }
        ensures { IfOk result (λ partial. bytes partial ≡ slice.now) };

    /// The number of bytes.
    fn len(&self) -> usize
        ensures { result ≡ length (bytes self.now) };

    fn is_empty(&self) -> bool
        ensures { result ≡ (length (bytes self.now) == 0) };

    /// The byte at an index.
    fn at(&self, index: usize) -> u8
        requires { index < length (bytes self.now) }
        ensures { result ≡ slice_index (bytes self.now) index };

    fn as_ref(&self) -> &[u8]
        ensures { result.now ≡ bytes self.now };

    /// The first `count` bytes.
    fn partial_before(&self, alloc: Global, count: usize) -> Result<Self, AllocError>
        requires { count ≤ length (bytes self.now) }
        ensures { IfOk result (λ before. bytes before ≡ take count (bytes self.now)) };

    /// The bytes behind the first `count`.
    fn partial_after(&self, alloc: Global, count: usize) -> Result<Self, AllocError>
        requires { count ≤ length (bytes self.now) }
        ensures { IfOk result (λ after. bytes after ≡ drop count (bytes self.now)) };

    /// The bytes, and behind them those of `other`.
    fn partial_extended_with(&self, alloc: Global, other: &Self) -> Result<Self, AllocError>
        requires { IsAdmitted MAXIMUM_SIZE
            (length (bytes self.now) + length (bytes other.now)) }
        ensures { IfOk result (λ joined. bytes joined ≡ bytes self.now ++ bytes other.now) };

    /// The same bytes once more. In Rust this is `clone`.
    fn copy(&self, alloc: Global) -> Result<Self, AllocError>
        ensures { IfOk result (λ copy. bytes copy ≡ bytes self.now) };

    /// The length of the longest prefix that the bytes and `other` have in common.
    fn prefix_length_slice(&self, other: &[u8]) -> usize
        ensures { result ≡ common_length (bytes self.now) other.now };

    ghost admitted: { (partial : Self) → IsAdmitted MAXIMUM_SIZE (length (bytes partial)) };
}
