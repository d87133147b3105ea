// Ported from rart 0.11.0 (Apache-2.0), and rewritten.
//! Why a value isn't lent.
ghost use Rattle.std.specs.Prelude.{◌≡◌};
ghost use Rattle.rart_versioned.specs.Missing.{found_value};

use std::alloc::AllocError;
use thiserror::Error;

/// Why a value isn't lent. All is then as before.
#[derive(Debug, Drop, Error)]
pub enum Missing {
    /// Nothing is at the key.
    #[error("nothing is at the key")]
    Absent,
    /// Memory was refused, as for a copy of a node on the way to the key.
    #[error(transparent)]
    Memory(AllocError),
}

/// The same answer, where an absent key is no failure.
pub(crate) fn found_of<'a, V>(
    lent: Result<&'a mut V, Missing>,
) -> Result<Option<&'a mut V>, AllocError>
    ensures { result ≡ found_value lent.entry }
{
    match lent {
        Ok(value) => Ok(Some(value)),
        Err(Missing::Absent) => Ok(None),
        Err(Missing::Memory(error)) => Err(error),
    }
}
