//! A store: a family, and the log of the lines that led to it.
ghost use Rattle.std.specs.Prelude.{◌≡◌, ◌↔◌, ◌⊎◌, ◌-◌, Err, IfOk, IfSome, None, OnOk, OnErr, IsTrue, codes, false};
ghost use Rattle.vtree_lines.specs.Laws.{HasNoFeed};
ghost use Rattle.vtree_lines.specs.Writing.{AppendsPart, Writes};
ghost use Rattle.vtree_lines.specs.declared.served.Served.TheVariants.{BadLine};
ghost use Rattle.example_store.specs.Log.{next_sum, entry};
ghost use Rattle.example_store.specs.Serving.{BreaksOff, ServesLine, ServesUpTo};
ghost use Rattle.example_store.specs.Stores.{Answers};
ghost use Rattle.example_store.specs.declared.store.Pause.TheVariants.{Due};
ghost use Rattle.example_store.specs.declared.store.ServeError.TheVariants.{Log};

use crate::answer::{Answer, LineFamily, answer_to, write_answer};
use crate::input::next_line;
use crate::log::{Sum, next_sum, write_entry};
use crate::replay::Replayed;
use std::alloc::Global;
use std::io::{Read, Write};
use std::marker::Model;
use thiserror::Error;
use vtree_lines::{Served, WriteFailed};

/// How many lines a log keeps before a checkpoint is due.
const LINES_TO_CHECKPOINT: u64 = 100_000;

/// A family, and the log of the lines that led to it. `flush` of the log returns once what was
/// written to it stays.
#[derive(Drop)]
pub struct Store<L: Write + Drop> {
    alloc: Global,
    family: LineFamily,
    sum: Sum,
    log: L,
    // how many lines it keeps before a checkpoint is due
    lines_left: u64,
    has_bad: bool,
}

impl<L: Write + Drop> Model for Store<L> {
    ghost use Rattle.example_store.specs.Stores.{State, state_code};

    ghost Value = { State };

    ghost coded = { state_code };

    ghost view = { λ store. record {
      family = store.family;
      sum = store.sum;
      lines_left = store.lines_left;
      log = L.contents store.log;
      has_bad = store.has_bad;
    } };
}

/// Why a store reads no further line.
#[derive(Debug, Clone, Copy, PartialEq, Eq)]
pub enum Pause {
    /// The input ended.
    End,
    /// The line `checkpoint` was read, and is not answered.
    Asked,
    /// So many lines are kept that a checkpoint is due.
    Due,
}

/// What ended the serving of lines before their end.
#[derive(Debug, Clone, Copy, PartialEq, Eq, Error)]
pub enum ServeError {
    /// Reading failed.
    #[error("reading failed")]
    Read,
    /// Writing the log failed, or it could not be made sure that it stays.
    #[error("writing the log failed")]
    Log,
    /// Writing a reply failed.
    #[error("writing failed")]
    Write,
}

impl<L: Write + Drop> Store<L> {
    /// The store whose log was played, and is written on behind its last entry.
    pub fn new(alloc: Global, replayed: Replayed, log: L) -> Store<L>
        ensures family { result.family ≡ replayed.family }
        ensures sum { result.sum ≡ replayed.sum }
        ensures log { result.log ≡ L.contents log }
        ensures lines_left { result.lines_left ≡ 100000 - replayed.count }
        ensures bad { result.has_bad ≡ false }
    {
        let lines_left = LINES_TO_CHECKPOINT.saturating_sub(replayed.count);
        let Replayed { family, sum, .. } = replayed;
        Store {
            alloc,
            family,
            sum,
            log,
            lines_left,
            has_bad: false,
        }
    }

    /// The family behind the lines so far.
    pub fn family(&self) -> &LineFamily
        ensures { result.now ≡ self.now.family }
    {
        &self.family
    }

    /// Whether some line was a bad one.
    pub fn served(&self) -> Served
        ensures { (result ≡ BadLine) ↔ IsTrue self.now.has_bad }
    {
        if self.has_bad {
            Served::BadLine
        } else {
            Served::Clean
        }
    }

    /// Goes on in a log that stands behind a checkpoint of the family, and has no line. This is the
    /// sum before its first.
    pub fn begin_log(&mut self, first: Sum, log: L)
        ensures family { self.new.family ≡ self.old.family }
        ensures sum { self.new.sum ≡ first }
        ensures log { self.new.log ≡ L.contents log }
        ensures lines_left { self.new.lines_left ≡ 100000 }
        ensures bad { self.new.has_bad ≡ self.old.has_bad }
    {
        self.sum = first;
        self.log = log;
        self.lines_left = LINES_TO_CHECKPOINT;
    }

    /// Waits for as many lines as behind a checkpoint until the next one is due.
    pub fn put_off_checkpoint(&mut self)
        ensures family { self.new.family ≡ self.old.family }
        ensures sum { self.new.sum ≡ self.old.sum }
        ensures log { self.new.log ≡ self.old.log }
        ensures lines_left { self.new.lines_left ≡ 100000 }
        ensures bad { self.new.has_bad ≡ self.old.has_bad }
    {
        self.lines_left = LINES_TO_CHECKPOINT;
    }

    /// Does what a line says, given without its line feed. A change is in the log, for good, before
    /// this returns.
    ///
    /// `Err` comes where writing the log failed: a part of the line's entry may stand in it, and
    /// the store is not to be used any more, since its family may be ahead of its log.
    pub fn answer(&mut self, line: &[u8]) -> Result<Answer, WriteFailed>
        requires { HasNoFeed line.now }
        ensures ok { IfOk result (λ answer. Answers line.now self.old self.new answer) }
        ensures err { OnErr result (AppendsPart self.old.log self.new.log
            (entry self.old.sum line.now)) }
    {
        let answer = answer_to(self.alloc, &mut self.family, line);
        if !answer.is_kept {
            self.has_bad = has_bad_with(self.has_bad, &answer);
            return Ok(answer);
        }
        self.keep(line)?;
        Ok(answer)
    }

    /// Writes the entry of a line, and makes sure that it stays.
    fn keep(&mut self, line: &[u8]) -> Result<(), WriteFailed>
        ensures family { self.new.family ≡ self.old.family }
        ensures log { Writes result self.old.log self.new.log (entry self.old.sum line.now) }
        ensures sum { OnOk result (self.new.sum ≡ next_sum self.old.sum line.now) }
        ensures lines_left { OnOk result (self.new.lines_left ≡ self.old.lines_left - 1) }
        ensures bad { self.new.has_bad ≡ self.old.has_bad }
    {
        let sum = next_sum(&self.sum, line);
        write_entry(&mut self.log, &sum, line)?;
        if self.log.flush().is_err() {
            return Err(WriteFailed);
        }
        self.sum = sum;
        self.lines_left = self.lines_left.saturating_sub(1);
        Ok(())
    }

    #[tactic(auto, using(crate::proofs::ServingLemmas::midst_none))]
    /// Reads lines to the end of input, up to the line `checkpoint`, or until a checkpoint is due,
    /// and answers each before the next one is read. The last may lack its line feed. A line of
    /// more than 200 bytes is a bad one.
    ///
    /// `Read`, `Log`, `Write` come where reading, writing the log, or a reply failed. With `Log` the
    /// lines before are served, and of the next one's entry a part may be in the log. The store is
    /// not to be used any more then.
    pub fn serve<R: Read, W: Write>(
        &mut self,
        reader: &mut R,
        writer: &mut W,
    ) -> Result<Pause, ServeError>
        ensures due { IfOk result (λ pause. (pause ≡ Due) ↔ (self.new.lines_left ≡ 0)) }
        ensures served { IfOk result (λ pause. IfSome (R.remaining reader.old) (λ input.
            ServesUpTo pause input (R.remaining reader.new) self.old self.new
            (W.contents writer.old) (W.contents writer.new))) }
        ensures log { result ≡ Err Log → IfSome (R.remaining reader.old) (λ input.
            BreaksOff input self.old self.new (W.contents writer.old) (W.contents writer.new)) }
    {
        for _ in 0..u64::MAX {
            if self.lines_left == 0 {
                return Ok(Pause::Due);
            }
            let Ok(line) = next_line(reader) else {
                return Err(ServeError::Read);
            };
            let Some(line) = line else {
                return Ok(Pause::End);
            };
            if is_checkpoint(&line) {
                return Ok(Pause::Asked);
            }
            self.reply(&line, writer)?;
        }
        Err(ServeError::Read)
    }

    /// Answers a line in writing.
    fn reply<W: Write>(&mut self, line: &[u8], writer: &mut W) -> Result<(), ServeError>
        requires { HasNoFeed line.now }
        ensures ok { OnOk result (ServesLine line.now self.old self.new
            (W.contents writer.old) (W.contents writer.new)) }
        ensures log { result ≡ Err Log → AppendsPart self.old.log self.new.log
            (entry self.old.sum line.now) × (W.contents writer.new ≡ W.contents writer.old) }
    {
        let Ok(answer) = self.answer(line) else {
            return Err(ServeError::Log);
        };
        match write_answer(&answer, writer) {
            Ok(()) => Ok(()),
            Err(_) => Err(ServeError::Write),
        }
    }
}

/// Whether a line was a bad one, of those before or this one.
fn has_bad_with(has_bad: bool, answer: &Answer) -> bool
    ensures { IsTrue result ↔ (IsTrue has_bad ⊎ (answer.now.reply ≡ None)) }
{
    has_bad || answer.reply.is_none()
}

/// Whether a line asks for a checkpoint.
fn is_checkpoint(line: &[u8]) -> bool
    ensures { IsTrue result ↔ (line.now ≡ codes "checkpoint") }
{
    line == b"checkpoint".as_slice()
}
