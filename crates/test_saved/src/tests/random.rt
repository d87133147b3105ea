//! Bytes drawn from a fixed seed, and sums.
use sha2::{Digest, Sha256};
use std::alloc::{AllocError, Global};

#[derive(Drop)]
pub struct Random {
    state: u64,
}

impl Random {
    pub fn new(seed: u64) -> Random {
        Random { state: seed }
    }

    /// The next number. Of its bits the high ones are the better ones.
    fn number(&mut self) -> u64 {
        self.state = self
            .state
            .wrapping_mul(0x5851_f42d_4c95_7f2d)
            .wrapping_add(0x1405_7b7e_f767_814f);
        self.state
    }

    pub fn byte(&mut self) -> u8 {
        self.number().to_be_bytes()[0]
    }

    /// Changes one byte behind those of a head, every other time to one below 6.
    pub fn change(&mut self, bytes: &mut Vec<u8>, head: usize) {
        let number = self.number();
        let [byte, ..] = number.to_be_bytes();
        let room = bytes.len().saturating_sub(head).max(1) as u64;
        let at = ((number >> 33) % room) as usize;
        if let Some(place) = bytes.iter_mut().skip(head).nth(at) {
            *place = if byte % 2 == 0 { byte } else { byte % 6 };
        }
    }
}

/// These bytes, and behind them their sum.
pub fn with_sum(alloc: Global, bytes: &[u8]) -> Result<Vec<u8>, AllocError> {
    let mut whole = bytes.to_vec(alloc)?;
    whole.extend_from_slice(&Sha256::digest(bytes))?;
    Ok(whole)
}
