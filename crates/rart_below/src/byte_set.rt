//! Sets of bytes. rart has no such type: there children in common are found one by one.
ghost use Rattle.std.specs.Prelude.{◌≡◌, ◌<◌, ◌≤◌, ◌==◌, ◌||◌, ◌&&◌, ℕ, false, not, slice_index_or};
ghost use Rattle.rart_below.specs.ByteSets.{has_byte, IsGreatestBelow, IsLeastFrom, TakesFirst};

/// A set of bytes: a bit for each, in four words.
///
/// Contracts see it by `has_byte`.
#[derive(Drop)]
pub struct ByteSet {
    pub(crate) words: [u64; 4],
}

impl ByteSet {
    /// No byte.
    pub fn new() -> ByteSet
        ensures { (byte : ℕ) → has_byte result byte ≡ false }
    {
        ByteSet { words: [0; 4] }
    }

    /// Puts the byte in, if it is not there.
    #[inline]
    pub fn insert(&mut self, byte: u8)
        ensures { (other : ℕ) → has_byte self.new other
            ≡ (other == byte || has_byte self.old other) }
    {
        self.words[usize::from(byte / 64)] |= 1 << (byte % 64);
    }

    /// The bytes of both sets.
    #[inline]
    pub fn common(&self, other: &ByteSet) -> ByteSet
        ensures { (byte : ℕ) → has_byte result byte
            ≡ (has_byte self.now byte && has_byte other.now byte) }
    {
        ByteSet {
            words: [
                self.words[0] & other.words[0],
                self.words[1] & other.words[1],
                self.words[2] & other.words[2],
                self.words[3] & other.words[3],
            ],
        }
    }

    /// Takes the byte out, if it is there.
    #[inline]
    pub(crate) fn remove(&mut self, byte: u8)
        ensures { (other : ℕ) → has_byte self.new other
            ≡ (not (other == byte) && has_byte self.old other) }
    {
        self.words[usize::from(byte / 64)] &= !(1 << (byte % 64));
    }

    /// The least byte that is not below the number.
    #[inline]
    pub(crate) fn least_from(&self, from: usize) -> Option<u8>
        ensures { IsLeastFrom from (λ byte. has_byte self.now byte) result }
    {
        let mut first = from;
        while first < 256 {
            let word = self.words[first / 64] >> (first % 64);
            if word != 0 {
                return Some((first + word.trailing_zeros() as usize) as u8);
            }
            first = first / 64 * 64 + 64;
        }
        None
    }

    /// The greatest byte that is below the number.
    #[inline]
    pub(crate) fn greatest_below(&self, end: usize) -> Option<u8>
        ensures { IsGreatestBelow end (λ byte. has_byte self.now byte) result }
    {
        let mut unseen = end.min(256);
        while unseen > 0 {
            let last = unseen - 1;
            let word = self.words[last / 64] & (u64::MAX >> (63 - last % 64));
            if word != 0 {
                return Some((last / 64 * 64 + 63 - word.leading_zeros() as usize) as u8);
            }
            unseen = last / 64 * 64;
        }
        None
    }

    /// The same bytes. No greater number is among them.
    #[inline]
    pub(crate) fn copy(&self) -> ByteSet
        ensures same { result ≡ self.now }
        ensures bytes { (number : ℕ) → 256 ≤ number → has_byte result number ≡ false }
    {
        ByteSet { words: self.words }
    }
}

/// The bytes of a set that are still to be taken, of which the least is next.
///
/// Contracts see by `left` the set of these.
#[derive(Drop)]
pub struct BytesLeft {
    left: ByteSet,
    // The first word that may have a byte.
    place: usize,
    ghost none_before: { (before : ℕ) → before < place → slice_index_or left.words before 0 ≡ 0 },
}

impl BytesLeft {
    /// All bytes of the set.
    #[inline(always)]
    pub fn new(bytes: ByteSet) -> BytesLeft
        ensures { result.left ≡ bytes }
    {
        BytesLeft {
            left: bytes,
            place: 0,
        }
    }

    /// Takes the least byte, if there is one.
    #[inline(always)]
    pub fn take_first(&mut self) -> Option<u8>
        ensures { TakesFirst self.old.left result self.new.left }
    {
        while self.place < 4 {
            let word = self.left.words[self.place];
            if word != 0 {
                let bit = word.trailing_zeros();
                self.left.words[self.place] = word & !(1 << bit);
                return Some((self.place * 64) as u8 + bit as u8);
            }
            self.place += 1;
        }
        None
    }
}
