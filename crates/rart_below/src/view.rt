// Ported from rart 0.11.0 (Apache-2.0), and rewritten.
//! A key that a visitor is lent for one call, in segments.
ghost use Rattle.std.specs.Prelude.{◌≡◌, ◌==◌, ◌≤◌, ℕ, List, length, vec_capacity, IsOk, IfOk, OnOk, OnErr};
ghost use Rattle.rart_below.specs.Bytes.{byte_order, IsAdmitted};
ghost use Rattle.rart_below.specs.LendingKeyView.{joined_bytes};

use crate::beginnings::compare_bytes;
use crate::key::KeyTrait;
use arrayvec::ArrayVec;
use std::alloc::{AllocError, Global};
use std::cmp::Ordering;
use std::marker::Model;

/// The longest view that is gathered without a request for memory, in bytes.
const SHORT_LENGTH: usize = 64;

/// A key that a visitor lends for one call of its closure.
///
/// Contracts see a view as its bytes. They lie in segments, one behind the other; where these are
/// cut isn't promised. The segments live for `'a`, the list of them for `'view` alone, which ends
/// with the call: what is to outlive it is copied out, by `to_vec`, `to_key` or `write_into`.
#[derive(Drop)]
pub struct LendingKeyView<'a, 'view> {
    parts: &'view [&'a [u8]],
    byte_count: usize,
}

impl<'a, 'view> Model for LendingKeyView<'a, 'view> {
    ghost Value = { List ℕ };

    ghost view = { λ view. joined_bytes view.parts.now };

    ghost invariant = { λ view. view.byte_count ≡ length (joined_bytes view.parts.now) };
}

impl<'a, 'view> LendingKeyView<'a, 'view> {
    /// The view of these segments, which have `len` bytes together.
    ///
    /// ```
    /// let segments = [b"ab".as_slice(), b"c".as_slice()];
    /// let view = LendingKeyView::new(&segments, 3);
    /// ```
    pub fn new(segments: &'view [&'a [u8]], len: usize) -> Self
        requires { len ≡ length (joined_bytes segments.now) }
        ensures { result ≡ joined_bytes segments.now }
    {
        LendingKeyView {
            parts: segments,
            byte_count: len,
        }
    }

    /// The number of bytes.
    ///
    /// ```
    /// let mut longest = 0;
    /// tree.for_each_view(&mut |key, _value| longest = longest.max(key.len()))?;
    /// ```
    pub fn len(&self) -> usize
        ensures { result ≡ length self.now }
    {
        self.byte_count
    }

    /// Whether this is the empty key.
    ///
    /// ```
    /// let mut has_empty_key = false;
    /// tree.for_each_view(&mut |key, _value| has_empty_key |= key.is_empty())?;
    /// ```
    pub fn is_empty(&self) -> bool
        ensures { result ≡ (length self.now == 0) }
    {
        self.len() == 0
    }

    /// The segments in order, whose bytes are those of the key. rart doesn't give them.
    ///
    /// ```
    /// for segment in key.segments() {
    ///     buffer.extend_from_slice(segment)?;
    /// }
    /// ```
    pub fn segments(&self) -> &'view [&'a [u8]]
        ensures { joined_bytes result.now ≡ self.now }
    {
        self.parts
    }

    /// How the key's bytes stand to those of the slice, in lexicographic order.
    ///
    /// ```
    /// if key.cmp_slice(b"banana") == Ordering::Less {
    ///     before_banana += 1;
    /// }
    /// ```
    pub fn cmp_slice(&self, slice: &[u8]) -> Ordering
        ensures { result ≡ byte_order self.now slice.now }
    {
        let mut rest = slice;
        for segment in self.segments() {
            if rest.len() < segment.len() {
                return compare_bytes(segment, rest);
            }
            let (front, behind) = rest.split_at(segment.len());
            match compare_bytes(segment, front) {
                Ordering::Equal => rest = behind,
                unequal => return unequal,
            }
        }
        if rest.is_empty() {
            Ordering::Equal
        } else {
            Ordering::Less
        }
    }

    /// The key's bytes in a vector of their own, or out of memory.
    ///
    /// ```
    /// let bytes = key.to_vec(alloc)?;
    /// ```
    pub fn to_vec(&self, alloc: Global) -> Result<Vec<u8>, AllocError>
        ensures { IfOk result (λ bytes. bytes.items ≡ self.now) }
    {
        let mut bytes = Vec::with_capacity(alloc, self.len())?;
        for segment in self.segments() {
            bytes.extend_from_slice(segment)?;
        }
        Ok(bytes)
    }

    /// The key itself, or out of memory. By its code, which no clause tells, only a key on the heap
    /// or one of more than 64 bytes takes memory.
    ///
    /// ```
    /// let owned: VectorKey = key.to_key(alloc)?;
    /// ```
    pub fn to_key<K: KeyTrait>(&self, alloc: Global) -> Result<K, AllocError>
        requires { IsAdmitted K.MAXIMUM_SIZE (length self.now) }
        ensures { IfOk result (λ key. K.bytes key ≡ self.now) }
    {
        if self.len() <= SHORT_LENGTH {
            let bytes = self.short_bytes();
            K::new_from_slice(alloc, bytes.as_slice())
        } else {
            let bytes = self.to_vec(alloc)?;
            K::new_from_slice(alloc, bytes.as_slice())
        }
    }

    /// The bytes of a short key, gathered on the stack.
    fn short_bytes(&self) -> ArrayVec<u8, SHORT_LENGTH>
        requires { length self.now ≤ SHORT_LENGTH }
        ensures { result.items ≡ self.now }
    {
        let mut bytes = ArrayVec::new();
        for segment in self.segments() {
            // (the room is there)
            let _ = bytes.try_extend_from_slice(segment);
        }
        bytes
    }

    /// Replaces what is in the vector by the key's bytes. Where memory is refused for them, the
    /// vector is left as it was; none is asked for where it has room for the bytes already.
    ///
    /// ```
    /// key.write_into(&mut buffer)?;
    /// ```
    pub fn write_into(&self, bytes: &mut Vec<u8>) -> Result<(), AllocError>
        ensures ok { OnOk result (bytes.new.items ≡ self.now) }
        ensures refused { OnErr result (bytes.new.items ≡ bytes.old.items) }
        ensures room { length self.now ≤ vec_capacity bytes.old → IsOk result }
    {
        bytes.reserve(self.len().saturating_sub(bytes.len()))?;
        bytes.clear();
        for segment in self.segments() {
            // (the room is there)
            bytes.extend_from_slice(segment).unwrap();
        }
        Ok(())
    }
}
