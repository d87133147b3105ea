//! A session: lines come byte by byte, and a reply is written at the end of each.
ghost use Rattle.std.specs.Prelude.{◌≡◌, ℕ, List, [], ◌∷◌, ◌++◌, Option};
ghost use Rattle.rart_family.specs.Replies.{reply_value};
ghost use Rattle.rart_family.specs.Keys.{by_bytes};
ghost use Rattle.vtree_lines.specs.Transcript.{Replies};
ghost use Rattle.vtree_lines.specs.Sessions.{IsReading, EndsLine, Commands, Serving, Takes, Finishes};

use crate::line::{LineCommand, LineKey, parse};
use crate::output::{WriteFailed, write_bytes};
use crate::reply::write_reply;
use crate::served::Served;
use arrayvec::ArrayVec;
use rart_family::{Family, Reply, Work};
use std::alloc::Global;
use std::io::Write;

/// The greatest length of a good line, without its line feed.
const LONGEST: usize = 200;

type LineFamily = Family<LineKey, u64>;

type LineReply = Reply<LineKey, u64>;

/// The family, the line that is being read, and whether each line so far was a good one. Of a line
/// that is too long the bytes past the greatest length are counted alone.
#[derive(Drop)]
pub struct Session {
    alloc: Global,
    family: LineFamily,
    line: ArrayVec<u8, LONGEST>,
    length: usize,
    served: Served,
}

impl Session {
    #[tactic(auto, using(crate::proofs::SessionLemmas::serving_begins))]
    /// No line is read yet, and the family has no place.
    pub fn new(alloc: Global) -> Session
        ensures { (known : Option (List ℕ)) → Serving [] result known known }
    {
        Session {
            alloc,
            family: Family::new(alloc),
            line: ArrayVec::new(),
            length: 0,
            served: Served::Clean,
        }
    }

    /// Takes a byte; a line feed ends its line. Where writing the line's text fails, a prefix of
    /// it is written.
    pub fn take<W: Write>(&mut self, byte: u8, writer: &mut W) -> Result<(), WriteFailed>
        ensures { Takes byte self.old self.new result
            (W.contents writer.old) (W.contents writer.new) }
    {
        if byte == b'\n' {
            return self.end_line(writer);
        }
        self.push(byte);
        Ok(())
    }

    /// Ends the last line where it lacks its line feed, and tells how all were served.
    pub fn finish<W: Write>(&mut self, writer: &mut W) -> Result<Served, WriteFailed>
        ensures { Finishes self.old result (W.contents writer.old) (W.contents writer.new) }
    {
        if self.length == 0 {
            return Ok(self.served);
        }
        self.end_line(writer)?;
        Ok(self.served)
    }

    fn push(&mut self, byte: u8)
        ensures family { self.new.family ≡ self.old.family }
        ensures served { self.new.served ≡ self.old.served }
        ensures reading { (front : List ℕ) → IsReading self.old front
            → IsReading self.new (front ++ byte ∷ []) }
    {
        self.length = self.length.saturating_add(1);
        let _ = self.line.try_push(byte);
    }

    fn end_line<W: Write>(&mut self, writer: &mut W) -> Result<(), WriteFailed>
        ensures ends { EndsLine self.old self.new result
            (W.contents writer.old) (W.contents writer.new) }
        ensures reading { IsReading self.new [] }
    {
        let command = self.command();
        self.line.clear();
        self.length = 0;
        match command {
            Some(command) => {
                let reply = self.reply_to(&command);
                write_reply(&reply, writer)
            }
            None => {
                self.served = Served::BadLine;
                write_bytes(writer, b"bad line\n")
            }
        }
    }

    /// The command of the line that is read.
    fn command(&self) -> Option<LineCommand>
        ensures { (line : List ℕ) → IsReading self.now line
            → Commands (by_bytes (λ key. key.bytes.items)) line result }
    {
        if self.length > LONGEST {
            return None;
        }
        parse(self.alloc, &self.line)
    }

    fn reply_to(&mut self, command: &LineCommand) -> LineReply
        ensures reply { Replies self.old.family (by_bytes (λ key. key.bytes.items) command.now)
            (reply_value (λ key. key.bytes.items) result) self.new.family }
        ensures length { self.new.length ≡ self.old.length }
        ensures line { self.new.line ≡ self.old.line }
        ensures served { self.new.served ≡ self.old.served }
    {
        self.family
            .reply(command, &mut Work::new(), &mut Work::new())
    }
}
