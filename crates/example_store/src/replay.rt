//! A log is played: what its lines lead to.
ghost use Rattle.std.specs.Prelude.{◌≡◌, ◌↔◌, ◌+◌, ◌<◌, ◌^◌, length, IfOk, IfErr, OnOk, IsTrue, Some};
ghost use Rattle.rart_family.specs.Replies.{NoMemory};
ghost use Rattle.vtree_lines.specs.Laws.{HasNoFeed};
ghost use Rattle.example_store.specs.Replays.{IsReplayed, IsRefusedBy, PlaysOn, IsNoEntry, IsToldBy};
ghost use Rattle.example_store.specs.declared.replay.ReplayError.TheVariants.{Damaged};

use crate::answer::{Answer, LineFamily, answer_to};
use crate::checkpoint::Base;
use crate::log::{Sum, line_of};
use memchr::memchr;
use rart_family::Reply;
use std::alloc::Global;
use thiserror::Error;

/// The most bytes of an entry without its line feed: a sum, a space, and the longest good line.
const LONGEST_TAIL: usize = 217;

/// Why a log is not played.
#[derive(Debug, Clone, Copy, PartialEq, Eq, Error)]
pub enum ReplayError {
    /// What stands there is no entry behind those before it, nor a part of a last one.
    #[error("line {line}, which begins at byte {at}, is no entry behind those before it")]
    Damaged {
        /// The number of the line, the first being 1.
        line: u64,
        /// How many bytes stand before it.
        at: usize,
    },
    /// Memory was refused.
    #[error("memory was refused")]
    Memory,
}

/// What the entries of a log lead to.
#[derive(Drop)]
pub struct Replayed {
    /// The family.
    pub family: LineFamily,
    /// The sum behind the last line.
    pub sum: Sum,
    /// How many entries there are.
    pub count: u64,
    /// How many bytes they have. What stands behind them is a torn tail.
    pub length: usize,
}

impl Replayed {
    fn new(base: Base) -> Replayed
        ensures family { result.family ≡ base.family }
        ensures sum { result.sum ≡ base.sum }
        ensures count { result.count ≡ 0 }
        ensures length { result.length ≡ 0 }
    {
        let Base { family, sum } = base;
        Replayed {
            family,
            sum,
            count: 0,
            length: 0,
        }
    }

    /// What tells that the entry which comes next is none.
    fn damaged(&self) -> ReplayError
        requires { self.now.count + 1 < 2 ^ 64 }
        ensures { result ≡ Damaged (self.now.count + 1) self.now.length }
    {
        ReplayError::Damaged {
            line: self.count + 1,
            at: self.length,
        }
    }

    /// What tells that an answer is not to be kept.
    fn refused(&self, answer: &Answer) -> ReplayError
        requires { self.now.count + 1 < 2 ^ 64 }
        ensures { IsToldBy answer.now.reply self.now result }
    {
        if wants_memory(answer) {
            return ReplayError::Memory;
        }
        self.damaged()
    }

    /// Plays the entry of a text, given without its line feed. `Err` comes where it is none, and
    /// where memory was refused.
    fn play(&mut self, alloc: Global, text: &[u8]) -> Result<(), ReplayError>
        requires line { HasNoFeed text.now }
        requires count { self.old.count + 1 < 2 ^ 64 }
        requires length { self.old.length + length text.now + 1 < 2 ^ 64 }
        ensures ok { OnOk result (PlaysOn text.now self.old self.new) }
        ensures err { IfErr result (λ error. IsNoEntry text.now self.old error) }
    {
        let Some(entry) = line_of(&self.sum, text) else {
            return Err(self.damaged());
        };
        let answer = answer_to(alloc, &mut self.family, entry.0);
        if !answer.is_kept {
            return Err(self.refused(&answer));
        }
        let sum = entry.1;
        self.sum = sum;
        self.count += 1;
        self.length += text.len() + 1;
        Ok(())
    }
}

fn wants_memory(answer: &Answer) -> bool
    ensures { IsTrue result ↔ (answer.now.reply ≡ Some NoMemory) }
{
    matches!(answer.reply, Some(Reply::NoMemory))
}

/// Plays a log from its first byte, on what it stands behind. Behind its entries a part of a last
/// one may stand, no longer than an entry and without a line feed: the torn tail that a crash
/// leaves.
///
/// `Damaged` comes where the bytes are no log behind this; `Memory` where memory was refused.
pub fn replay(alloc: Global, base: Base, log: &[u8]) -> Result<Replayed, ReplayError>
    ensures ok { IfOk result (λ replayed. IsReplayed base log.now replayed) }
    ensures damaged { IfErr result (λ error. IsRefusedBy base log.now error) }
{
    let mut replayed = Replayed::new(base);
    let mut rest = log;
    'entries: while let Some(end) = memchr(b'\n', rest) {
        replayed.play(alloc, &rest[..end])?;
        rest = rest.split_at(end + 1).1;
    }
    if rest.len() > LONGEST_TAIL {
        return Err(replayed.damaged());
    }
    Ok(replayed)
}
