//! The program's engine over an input that is in memory: given these bytes, those bytes.
ghost use Rattle.std.specs.Prelude.{◌≡◌, ℕ, List, ◌++◌, IfOk, OnErr};
ghost use Rattle.vtree_lines.specs.Lines.{lines_of};
ghost use Rattle.vtree_lines.specs.Transcript.{Serves, Stops};

use crate::served::Served;
use crate::session::Session;
use std::alloc::{AllocError, Global};

/// Serves the lines of an input, and appends what is written to a vector.
///
/// `Err` comes where memory for the output was refused: the texts of some first lines are appended
/// then, and of the next one's a prefix.
pub fn serve_slice(alloc: Global, input: &[u8], output: &mut Vec<u8>) -> Result<Served, AllocError>
    ensures ok { IfOk result (λ served. (written : List ℕ)
        × (output.new.items ≡ output.old.items ++ written)
        × Serves (lines_of input.now) served written) }
    ensures err { OnErr result ((written : List ℕ)
        × (output.new.items ≡ output.old.items ++ written)
        × Stops (lines_of input.now) written) }
{
    let mut session = Session::new(alloc);
    for byte in input {
        if session.take(*byte, output).is_err() {
            return Err(AllocError);
        }
    }
    match session.finish(output) {
        Ok(served) => Ok(served),
        Err(_) => Err(AllocError),
    }
}
