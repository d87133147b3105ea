//! Keys drawn from a fixed seed.
use rand_core::utils::NextWord;
use rand_pcg::Pcg32;
use rart_versioned::{ArrayKey, KeyTrait};
use std::alloc::{AllocError, Global};

pub type Key = ArrayKey<16>;

/// A number below another one, or 0 where that is 0.
pub fn below(words: &mut Pcg32, count: u32) -> u32 {
    words.next_word().checked_rem(count).unwrap_or(0)
}

/// A key of few letters, so that keys begin one another and part at each length. One in eight has a
/// long prefix, and one in four ends with a byte of any kind.
pub fn key(words: &mut Pcg32, alloc: Global) -> Result<Key, AllocError> {
    let mut bytes = Vec::new(alloc);
    if below(words, 8) == 0 {
        bytes.extend_from_slice(b"shared-begin")?;
    }
    for _ in 0..below(words, 4) {
        let letter = *[b'a', b'b', b'c']
            .get(below(words, 3) as usize)
            .unwrap_or(&b'c');
        bytes.push(letter)?;
    }
    if below(words, 4) == 0 {
        bytes.push(words.next_word().to_be_bytes()[3])?;
    }
    let length = bytes.len().min(16);
    ArrayKey::new_from_slice(alloc, &bytes[..length])
}
