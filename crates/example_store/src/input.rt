//! Lines, one after another.
ghost use Rattle.std.specs.Prelude.{IfOk, IfSome};
ghost use Rattle.std.specs.Option.{option_map};
ghost use Rattle.vtree_lines.specs.Laws.{HasNoFeed};
ghost use Rattle.example_store.specs.Input.{TakesByte, TakesLine};

use arrayvec::ArrayVec;
use std::io::{ErrorKind, Read};
use thiserror::Error;

/// Reading failed.
#[derive(Debug, Clone, Copy, PartialEq, Eq, Error)]
#[error("reading failed")]
pub struct ReadFailed;

/// The first bytes of a line: one more than a good line has.
pub type Line = ArrayVec<u8, 201>;

/// The next byte, or `None` at the end of input.
fn next_byte<R: Read>(reader: &mut R) -> Result<Option<u8>, ReadFailed>
    ensures { IfOk result (λ byte. TakesByte byte
        (R.remaining reader.old) (R.remaining reader.new)) }
{
    let mut byte = [0];
    for _ in 0..u64::MAX {
        match reader.read(&mut byte) {
            Ok(0) => return Ok(None),
            Ok(_) => return Ok(Some(byte[0])),
            Err(error) => {
                if error.kind() != ErrorKind::Interrupted {
                    return Err(ReadFailed);
                }
            }
        }
    }
    Err(ReadFailed)
}

#[tactic(auto, using(crate::proofs::InputLemmas::reading_none, crate::proofs::InputLemmas::line_read, crate::proofs::InputLemmas::line_last, crate::proofs::InputLemmas::line_none))]
/// The next line, without its line feed, which the last may lack; `None` at the end of input.
pub fn next_line<R: Read>(reader: &mut R) -> Result<Option<Line>, ReadFailed>
    ensures feedless { IfOk result (λ line. IfSome line (λ line. HasNoFeed line.items)) }
    ensures taken { IfOk result (λ line. IfSome (R.remaining reader.old) (λ input.
        TakesLine input (option_map (λ line. line.items) line) (R.remaining reader.new))) }
{
    let mut line = Line::new();
    for _ in 0..u64::MAX {
        let Some(byte) = next_byte(reader)? else {
            if line.is_empty() {
                return Ok(None);
            }
            return Ok(Some(line));
        };
        if byte == b'\n' {
            return Ok(Some(line));
        }
        let _ = line.try_push(byte);
    }
    Err(ReadFailed)
}
