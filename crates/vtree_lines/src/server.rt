//! The program's engine: lines are read, their commands are run, and replies are written.
ghost use Rattle.std.specs.Prelude.{◌≢◌, IfOk, IfErr, IfSome};
ghost use Rattle.vtree_lines.specs.declared.served.ServeError.TheVariants.{Memory};
ghost use Rattle.vtree_lines.specs.Lines.{input_lines};
ghost use Rattle.vtree_lines.specs.Transcript.{Serves, EndsBy, Gains};

use crate::served::{ServeError, Served};
use crate::session::Session;
use std::alloc::Global;
use std::io::{Read, Write};

/// Reads lines to the end of input, runs the command of each on one family, and writes its reply
/// before the next line is read.
///
/// `crate::line::parse` says what a line commands. Every other line is a bad one, also each of more
/// than 200 bytes: it does no command, and its reply is `bad line`. The last line may lack its line
/// feed. `2^64 - 1` bytes read count as the end of input.
///
/// `Read` comes where reading failed, and the texts of some first lines are written; `Write` where
/// writing failed, and of the next line's text a prefix too. No memory is taken for lines and
/// texts, so `Memory` doesn't come.
pub fn serve<R: Read + Drop, W: Write>(
    alloc: Global,
    reader: R,
    writer: &mut W,
) -> Result<Served, ServeError>
    ensures ok { IfOk result (λ served. IfSome (R.remaining reader) (λ input.
        Gains (W.contents writer.old) (W.contents writer.new)
        (Serves (input_lines input) served))) }
    ensures err { IfErr result (λ error. IfSome (R.remaining reader) (λ input.
        Gains (W.contents writer.old) (W.contents writer.new)
        (EndsBy error (input_lines input)))) }
    ensures memory { IfErr result (λ error. error ≢ Memory) }
{
    let mut session = Session::new(alloc);
    for byte in reader.bytes().take(usize::MAX) {
        let Ok(byte) = byte else {
            return Err(ServeError::Read);
        };
        session.take(byte, writer)?;
    }
    Ok(session.finish(writer)?)
}
