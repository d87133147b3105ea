// Ported from rart 0.11.0 (Apache-2.0), and rewritten.
//! Where a walk keeps the way to the node that it stands at.
ghost use Rattle.std.specs.Prelude.{◌≡◌, ◌-◌, ℕ, ◌^◌, Bool, true, false, List, [], ◌∷◌, ◌++◌, Option, Some, None, IsTrue, OnErr, length, map, is_ok, if◌then◌else◌};
ghost use Rattle.std.specs.List.{concat};
ghost use Rattle.rart_below.specs.Bytes.{IsAdmitted};
ghost use Rattle.rart_node.specs.KeyPaths.{HoldsBytes, HoldsSegments, HoldsNothing, extent_in_bytes, extent_in_segments, no_extent};

use std::alloc::{AllocError, Global};
use std::marker::Model;

/// Where a walk keeps the prefixes of the nodes from the root to the one that it stands at: its
/// segments.
///
/// Contracts see by `holds` which segments a key path keeps, the root's first, by `extent` how far
/// such segments reach, by `greatest` how long they may be, joined, or `None` where each length
/// will do, and by `can_refuse` whether a segment may be refused for memory.
pub trait KeyPath<'a>: Drop {
    ghost holds: { Self → List (List ℕ) → Type 0 };

    ghost extent: { List (List ℕ) → ℕ };

    ghost greatest: { Option ℕ };

    ghost can_refuse: { Bool };

    /// A key path with no segment.
    fn new(alloc: Global) -> Self
        ensures { holds result [] };

    /// Puts a segment at the end. Refused for memory, the key path is as it was.
    fn push(&mut self, segment: &'a [u8]) -> Result<(), AllocError>
        requires { (segments : List (List ℕ)) × holds self.old segments
            × IsAdmitted greatest (length (concat (segments ++ segment.now ∷ []))) }
        ensures keeps { (segments : List (List ℕ)) → holds self.old segments
            → holds self.new (if is_ok result then segments ++ segment.now ∷ [] else segments) }
        ensures refused { OnErr result (IsTrue can_refuse) };

    /// How far its segments reach.
    fn mark(&self) -> usize
        ensures { (segments : List (List ℕ)) → holds self.now segments
            → result ≡ extent segments };

    /// Takes all segments off.
    fn clear(&mut self)
        ensures { holds self.new [] };

    /// Takes the last segments off, so that those stay which reach so far.
    fn cut(&mut self, mark: usize)
        requires { (kept gone : List (List ℕ)) × holds self.old (kept ++ gone)
            × (mark ≡ extent kept) }
        ensures { (kept gone : List (List ℕ)) → holds self.old (kept ++ gone) → mark ≡ extent kept
            → holds self.new kept };

    /// Takes the last segment off, which is this one.
    fn pop(&mut self, segment: &'a [u8])
        requires { (segments : List (List ℕ)) × holds self.old (segments ++ segment.now ∷ []) }
        ensures { (segments : List (List ℕ)) → holds self.old (segments ++ segment.now ∷ [])
            → holds self.new segments };
}

/// The segments joined: the bytes of a key, in one buffer that grows and shrinks.
///
/// Contracts see a key path as these bytes.
#[derive(Drop)]
pub struct BytesPath {
    bytes: Vec<u8>,
}

impl Model for BytesPath {
    ghost Value = { List ℕ };

    ghost view = { λ key_path. key_path.bytes.items };
}

impl BytesPath {
    /// The bytes.
    pub fn as_slice(&self) -> &[u8]
        ensures { result.now ≡ self.now }
    {
        self.bytes.as_slice()
    }

    /// As `push`, where one byte is common: that is no copy of a length that the compiler doesn't
    /// know.
    #[inline]
    pub fn push_short(&mut self, bytes: &[u8]) -> Result<(), AllocError>
        ensures { self.new ≡ (if is_ok result then self.old ++ bytes.now else self.old) }
    {
        if bytes.len() == 1 {
            self.bytes.push(bytes[0])?;
            return Ok(());
        }
        self.bytes.extend_from_slice(bytes)
    }
}

impl<'a> KeyPath<'a> for BytesPath {
    ghost holds = { HoldsBytes };

    ghost extent = { extent_in_bytes };

    ghost greatest = { None };

    ghost can_refuse = { true };

    fn new(alloc: Global) -> BytesPath {
        BytesPath {
            bytes: Vec::new(alloc),
        }
    }

    #[inline]
    fn push(&mut self, segment: &'a [u8]) -> Result<(), AllocError> {
        self.bytes.extend_from_slice(segment)
    }

    #[inline]
    fn mark(&self) -> usize {
        self.bytes.len()
    }

    fn clear(&mut self) {
        self.bytes.clear();
    }

    #[inline]
    fn cut(&mut self, mark: usize) {
        self.bytes.truncate(mark);
    }

    #[inline]
    fn pop(&mut self, segment: &'a [u8]) {
        let kept = self.bytes.len() - segment.len();
        self.bytes.truncate(kept);
    }
}

/// The segments as they stand in the nodes, and how many bytes they are, joined.
///
/// Contracts see a key path as its segments.
#[derive(Drop)]
pub struct SegmentsPath<'a> {
    segments: Vec<&'a [u8]>,
    len: usize,
}

impl<'a> Model for SegmentsPath<'a> {
    ghost Value = { List (List ℕ) };

    ghost view = { λ key_path. map (λ segment. segment.now) key_path.segments.items };

    ghost invariant = { λ key_path.
        key_path.len ≡ length (concat (map (λ segment. segment.now) key_path.segments.items)) };
}

impl<'a> SegmentsPath<'a> {
    /// The segments, the root's first.
    pub fn segments(&self) -> &[&'a [u8]]
        ensures { map (λ segment. segment.now) result.now ≡ self.now }
    {
        self.segments.as_slice()
    }

    /// How many bytes they are, joined.
    pub fn len(&self) -> usize
        ensures { result ≡ length (concat self.now) }
    {
        self.len
    }
}

impl<'a> KeyPath<'a> for SegmentsPath<'a> {
    ghost holds = { HoldsSegments };

    ghost extent = { extent_in_segments };

    ghost greatest = { Some (2 ^ 64 - 1) };

    ghost can_refuse = { true };

    fn new(alloc: Global) -> SegmentsPath<'a> {
        SegmentsPath {
            segments: Vec::new(alloc),
            len: 0,
        }
    }

    #[inline]
    fn push(&mut self, segment: &'a [u8]) -> Result<(), AllocError> {
        self.segments.push(segment)?;
        self.len += segment.len();
        Ok(())
    }

    #[inline]
    fn mark(&self) -> usize {
        self.segments.len()
    }

    fn clear(&mut self) {
        self.segments.clear();
        self.len = 0;
    }

    #[inline]
    fn cut(&mut self, mark: usize) {
        'cutting: while self.segments.len() > mark {
            if let Some(gone) = self.segments.pop() {
                self.len -= gone.len();
            }
        }
    }

    #[inline]
    fn pop(&mut self, segment: &'a [u8]) {
        self.segments.pop();
        self.len -= segment.len();
    }
}

/// Nothing: for a walk whose keys nobody asks for.
#[derive(Drop)]
pub struct NoPath;

impl<'a> KeyPath<'a> for NoPath {
    ghost holds = { HoldsNothing };

    ghost extent = { no_extent };

    ghost greatest = { None };

    ghost can_refuse = { false };

    fn new(_alloc: Global) -> NoPath {
        NoPath
    }

    #[inline]
    fn push(&mut self, _segment: &'a [u8]) -> Result<(), AllocError> {
        Ok(())
    }

    #[inline]
    fn mark(&self) -> usize {
        0
    }

    fn clear(&mut self) {}

    #[inline]
    fn cut(&mut self, _mark: usize) {}

    #[inline]
    fn pop(&mut self, _segment: &'a [u8]) {}
}
