//! Where bytes are written, one part behind the other: a vector, or a room of the caller's.
ghost use Rattle.std.specs.Prelude.{◌≡◌, ◌+◌, ◌≤◌, ◌++◌, ℕ, List, drop, length, take, IfOk, OnOk};
ghost use Rattle.sha2.specs.Sha256.{sha256};
ghost use Rattle.rart_saved.specs.Fills.{Fills};

use sha2::{Digest, Sha256};
use std::alloc::AllocError;

pub(crate) trait Sink {
    // What was `start` has these bytes: a vector has them alone, a room over its first ones.
    ghost holds: { Self → List ℕ → Self → Type 0 };

    /// Writes these bytes behind the others.
    fn put(&mut self, part: &[u8]) -> Result<(), AllocError>
        ensures { OnOk result ((start : Self) (done : List ℕ) → holds start done self.old
            → holds start (done ++ part.now) self.new) };

    /// Writes the sum of all that were written behind them.
    fn put_sum(&mut self) -> Result<(), AllocError>
        ensures { OnOk result ((start : Self) (done : List ℕ) → holds start done self.old
            → holds start (done ++ sha256 done) self.new) };
}

impl Sink for Vec<u8> {
    ghost holds = { λ start done bytes. bytes.items ≡ done };

    fn put(&mut self, part: &[u8]) -> Result<(), AllocError> {
        self.extend_from_slice(part)?;
        Ok(())
    }

    fn put_sum(&mut self) -> Result<(), AllocError> {
        let sum = Sha256::digest(self.as_slice());
        self.extend_from_slice(&sum)?;
        Ok(())
    }
}

/// A room of the caller's, and how many bytes were written. Those past its end are counted alone.
#[derive(Drop)]
pub(crate) struct Room<'a> {
    bytes: &'a mut [u8],
    pub(crate) end: usize,
}

impl<'a> Room<'a> {
    /// Nothing is written yet.
    pub(crate) fn new(bytes: &'a mut [u8]) -> Room<'a>
        ensures same_reference { result.bytes.ghost_name ≡ bytes.entry.ghost_name }
        ensures same_bytes { result.bytes.now ≡ bytes.old }
        ensures end { result.end ≡ 0 }
    {
        Room { bytes, end: 0 }
    }
}

impl<'a> Sink for Room<'a> {
    ghost holds = { λ start done room. (room.bytes.ghost_name ≡ start.bytes.ghost_name)
        × Fills start.bytes.now done room.bytes.now room.end };

    /// Refused, there are more bytes than a `usize` tells.
    fn put(&mut self, part: &[u8]) -> Result<(), AllocError> {
        self.end = fill(self.bytes, self.end, part)?;
        Ok(())
    }

    fn put_sum(&mut self) -> Result<(), AllocError> {
        self.end = fill_sum(self.bytes, self.end)?;
        Ok(())
    }
}

/// Writes the sum of what is there behind it, as `fill` does.
fn fill_sum(room: &mut [u8], at: usize) -> Result<usize, AllocError>
    ensures { IfOk result (λ end. (before done : List ℕ) → Fills before done room.old at
        → Fills before (done ++ sha256 done) room.new end) }
{
    let sum = sum_before(room, at);
    fill(room, at, &sum)
}

/// The sum of the bytes before an offset, where there is room for it behind them: else it is not
/// written, and so not made.
fn sum_before(room: &[u8], at: usize) -> [u8; 32]
    ensures { at + 32 ≤ length room.now → result ≡ sha256 (take at room.now) }
{
    if room.len() < at || room.len() - at < 32 {
        return [0; 32];
    }
    Sha256::digest(&room[..at])
}

/// Writes some bytes behind those that a room has at its front, where there is room for them, and
/// gives the offset behind them in either case.
fn fill(room: &mut [u8], at: usize, part: &[u8]) -> Result<usize, AllocError>
    ensures { IfOk result (λ end. (before done : List ℕ) → Fills before done room.old at
        → Fills before (done ++ part.now) room.new end) }
{
    let Some(end) = at.checked_add(part.len()) else {
        return Err(AllocError);
    };
    if end <= room.len() {
        put_over(room, at, part);
    }
    Ok(end)
}

/// Writes some bytes over others, from an offset on.
fn put_over(room: &mut [u8], at: usize, part: &[u8])
    requires { at + length part.now ≤ length room.old }
    ensures { room.new ≡ take at room.old ++ part.now ++ drop (at + length part.now) room.old }
{
    let (_before, behind) = room.split_at_mut(at);
    behind[..part.len()].copy_from_slice(part);
}
