//! What the program ends with.
ghost use Rattle.std.specs.Prelude.{◌≡◌, Ok, OnErr};
ghost use Rattle.vtree_lines.specs.declared.served.Served.TheVariants.{Clean, BadLine};

use crate::served::{ServeError, Served};

/// The program's status: 0 where each line was a good one, 1 where some line was bad, and 2 where
/// the serving ended before its input did.
pub fn status_of(answer: Result<Served, ServeError>) -> u8
    ensures clean { answer ≡ Ok Clean → result ≡ 0 }
    ensures bad_line { answer ≡ Ok BadLine → result ≡ 1 }
    ensures failed { OnErr answer (result ≡ 2) }
{
    match answer {
        Ok(Served::Clean) => 0,
        Ok(Served::BadLine) => 1,
        Err(_) => 2,
    }
}
