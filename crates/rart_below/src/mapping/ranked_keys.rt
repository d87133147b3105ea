// Ported from rart 0.11.0 (Apache-2.0), and rewritten.
//! The keys of a mapping of width 4 or 16.
ghost use Rattle.std.specs.Prelude.{◌≡◌, ◌<◌, ◌≤◌, ◌+◌, ◌∷◌, ◌++◌, ℕ, [], length, take, drop, MatchOption, insert, remove};
ghost use Rattle.rart_below.specs.Layouts.{IsAbsent, IsPlaceOf, rank};

use std::marker::Model;

/// What fills up the keys: no byte is above it.
const GREATEST: u8 = 255;

/// At most `WIDTH` bytes, filled up with the greatest one. That is below none, so a rank is counted
/// over the whole width: in one compare where a register holds as many.
#[derive(Drop)]
pub(crate) struct RankedKeys<const WIDTH: usize> {
    bytes: [u8; WIDTH],
    // There are 256 bytes, and so no more keys: this width keeps a mapping of 4 in a block of 80.
    len: u16,
}

impl<const WIDTH: usize> Model for RankedKeys<WIDTH> {
    ghost use Rattle.std.specs.Prelude.{take};
    ghost use Rattle.rart_below.specs.RankedKeys.{RankedKeys as Keys, ranked_keys_code, IsFilledUp};

    ghost Value = { Keys };

    ghost coded = { ranked_keys_code };

    ghost view = { λ keys. record { items = take keys.len keys.bytes } };

    ghost invariant = { λ keys. IsFilledUp WIDTH keys.len keys.bytes };
}

/// How many of the bytes are below this one. It looks at each, so that no branch depends on them,
/// and counts in a byte, of which a register holds sixteen.
#[inline]
fn rank_in<const WIDTH: usize>(bytes: &[u8; WIDTH], byte: u8) -> usize
    requires { rank byte bytes.now ≤ byte }
    ensures { result ≡ rank byte bytes.now }
{
    let mut rank = 0u8;
    for place in 0..WIDTH {
        rank += u8::from(bytes[place] < byte);
    }
    usize::from(rank)
}

/// How many of the keys are below a number that no byte has: all are.
#[inline]
fn rank_past(keys: &[u8], from: usize) -> usize
    requires { 255 < from }
    ensures value { result ≡ rank from keys.now }
    ensures all { result ≡ length keys.now }
{
    keys.len()
}

/// Puts the byte in at `place`, before the later ones of the first `len`.
fn insert_byte(bytes: &mut [u8], place: usize, len: usize, byte: u8)
    requires within { place ≤ len }
    requires room { len < length bytes.old }
    ensures { bytes.new ≡ insert (take len bytes.old) place byte ++ drop (len + 1) bytes.old }
{
    bytes[len] = byte;
    bytes[place..len + 1].rotate_right(1);
}

/// Takes out the byte at `place` of the first `len`, of which the last becomes the greatest.
fn remove_byte(bytes: &mut [u8], place: usize, len: usize)
    requires within { place < len }
    requires room { len ≤ length bytes.old }
    ensures { bytes.new ≡ remove (take len bytes.old) place ++ 255 ∷ drop len bytes.old }
{
    bytes[place] = GREATEST;
    bytes[place..len].rotate_left(1);
}

impl<const WIDTH: usize> RankedKeys<WIDTH> {
    /// No key.
    pub(crate) fn new() -> Self
        ensures { result.items ≡ [] }
    {
        RankedKeys {
            bytes: [GREATEST; WIDTH],
            len: 0,
        }
    }

    /// The number of keys.
    #[inline]
    pub(crate) fn len(&self) -> usize
        ensures value { result ≡ length self.now.items }
        ensures fits { result ≤ WIDTH }
    {
        usize::from(self.len)
    }

    /// The number of ranked keys, of which there are no more than bytes.
    #[inline]
    pub(crate) fn count(&self) -> usize
        requires { (byte : ℕ) → rank byte self.now.items ≤ byte }
        ensures value { result ≡ length self.now.items }
        ensures few { result ≤ 256 }
    {
        rank_past(self.as_slice(), 256)
    }

    /// The keys.
    #[inline]
    pub(crate) fn as_slice(&self) -> &[u8]
        ensures value { result.now ≡ self.now.items }
        ensures fits { length result.now ≤ WIDTH }
    {
        &self.bytes[..usize::from(self.len)]
    }

    /// How many of the keys are below the byte.
    #[inline]
    pub(crate) fn rank_of(&self, byte: u8) -> usize
        requires { rank byte self.now.items ≤ byte }
        ensures value { result ≡ rank byte self.now.items }
        ensures fits { result ≤ length self.now.items }
    {
        rank_in(&self.bytes, byte)
    }

    /// How many of the keys are below the number.
    #[inline]
    pub(crate) fn rank_from(&self, from: usize) -> usize
        requires { (byte : ℕ) → rank byte self.now.items ≤ byte }
        ensures value { result ≡ rank from self.now.items }
        ensures fits { result ≤ length self.now.items }
        ensures all { 255 < from → result ≡ length self.now.items }
    {
        if from > usize::from(u8::MAX) {
            return rank_past(self.as_slice(), from);
        }
        self.rank_of(from as u8)
    }

    /// Where the byte stands among ascending keys.
    #[inline]
    pub(crate) fn place_of(&self, byte: u8) -> Option<usize>
        requires { rank byte self.now.items ≤ byte }
        ensures { MatchOption result (IsAbsent byte self.now.items)
            (IsPlaceOf byte self.now.items) }
    {
        let place = self.rank_of(byte);
        let keys = self.as_slice();
        if place < keys.len() && keys[place] == byte {
            Some(place)
        } else {
            None
        }
    }

    /// Puts a key in at `place`, before the later ones.
    pub(crate) fn insert(&mut self, place: usize, byte: u8)
        requires within { place ≤ length self.old.items }
        requires room { length self.old.items < WIDTH }
        requires few { length self.old.items ≤ 256 }
        ensures items { self.new.items ≡ insert self.old.items place byte }
        ensures len { length self.new.items ≡ length self.old.items + 1 }
    {
        insert_byte(&mut self.bytes, place, usize::from(self.len), byte);
        self.len += 1;
    }

    /// Takes out the key at `place`.
    pub(crate) fn remove(&mut self, place: usize)
        requires { place < length self.old.items }
        ensures items { self.new.items ≡ remove self.old.items place }
        ensures len { length self.new.items + 1 ≡ length self.old.items }
    {
        remove_byte(&mut self.bytes, place, usize::from(self.len));
        self.len -= 1;
    }

    /// Takes all keys out.
    pub(crate) fn clear(&mut self)
        ensures { self.new.items ≡ [] }
    {
        *self = RankedKeys::new();
    }

    /// The same keys.
    pub(crate) fn copy(&self) -> Self
        ensures { result.items ≡ self.now.items }
    {
        RankedKeys {
            bytes: self.bytes,
            len: self.len,
        }
    }
}
