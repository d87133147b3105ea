//! Text out, through one fixed buffer.
ghost use Rattle.std.specs.Prelude.{◌≡◌, []};
ghost use Rattle.vtree_lines.specs.ReplyTexts.{number_text};
ghost use Rattle.vtree_lines.specs.Writing.{Writes, Puts};

use arrayvec::ArrayVec;
use itoa::Buffer;
use std::io::{ErrorKind, Write};
use thiserror::Error;

/// Bytes that a page holds.
const ROOM: usize = 1024;

/// Writing failed.
#[derive(Debug, Clone, Copy, PartialEq, Eq, Error)]
#[error("writing failed")]
pub struct WriteFailed;

#[tactic(auto, using(crate::proofs::KnownLemmas::bytes))]
/// Writes all the bytes; a write that was interrupted is tried again. Where writing fails, a
/// prefix of them is written.
pub fn write_bytes<W: Write>(writer: &mut W, bytes: &[u8]) -> Result<(), WriteFailed>
    ensures { Writes result (W.contents writer.old) (W.contents writer.new) bytes.now }
{
    let mut at = 0;
    for _ in 0..u64::MAX {
        if at >= bytes.len() {
            return Ok(());
        }
        match writer.write(&bytes[at..]) {
            Ok(0) => return Err(WriteFailed),
            Ok(count) => at += count,
            Err(error) => {
                if error.kind() != ErrorKind::Interrupted {
                    return Err(WriteFailed);
                }
            }
        }
    }
    Err(WriteFailed)
}

/// Text that is held until the page is full or sent, so that short pieces are written together.
#[derive(Drop)]
pub struct Page {
    bytes: ArrayVec<u8, ROOM>,
}

impl Page {
    /// An empty page.
    pub fn new() -> Page
        ensures { result.bytes.items ≡ [] }
    {
        Page {
            bytes: ArrayVec::new(),
        }
    }

    #[tactic(auto, using(crate::proofs::PutLemmas::page))]
    /// Puts a text behind what is held, which is written first where both have no room.
    pub fn put<W: Write>(&mut self, writer: &mut W, text: &[u8]) -> Result<(), WriteFailed>
        ensures { Puts result (W.contents writer.old) (W.contents writer.new)
            self.old.bytes.items self.new.bytes.items text.now }
    {
        if self.bytes.try_extend_from_slice(text).is_ok() {
            return Ok(());
        }
        self.send(writer)?;
        if self.bytes.try_extend_from_slice(text).is_ok() {
            return Ok(());
        }
        write_bytes(writer, text)
    }

    #[tactic(auto, using(crate::proofs::PutLemmas::texts))]
    /// Puts a space and a number in digits.
    pub fn put_number<W: Write>(&mut self, writer: &mut W, number: u64) -> Result<(), WriteFailed>
        ensures { Puts result (W.contents writer.old) (W.contents writer.new)
            self.old.bytes.items self.new.bytes.items (number_text number) }
    {
        self.put(writer, b" ")?;
        self.put(writer, Buffer::new().format(number).as_bytes())
    }

    /// Writes what is held. Where writing fails, a prefix of it is written.
    pub fn send<W: Write>(&mut self, writer: &mut W) -> Result<(), WriteFailed>
        ensures written { Writes result (W.contents writer.old) (W.contents writer.new)
            self.old.bytes.items }
        ensures empty { self.new.bytes.items ≡ [] }
    {
        let written = write_bytes(writer, self.bytes.as_slice());
        self.bytes.clear();
        written
    }
}
