//! How an input was served.
use crate::output::WriteFailed;
use thiserror::Error;

/// How a whole input was served.
#[derive(Debug, Clone, Copy, PartialEq, Eq)]
pub enum Served {
    /// Each line was a good one.
    Clean,
    /// At least one line was bad.
    BadLine,
}

/// What ended the serving of an input before its end.
#[derive(Debug, Clone, Copy, PartialEq, Eq, Error)]
pub enum ServeError {
    /// Reading failed.
    #[error("reading failed")]
    Read,
    /// Writing failed.
    #[error("writing failed")]
    Write,
    /// Memory for the buffer that is read into was refused.
    #[error("memory for the buffer was refused")]
    Memory,
}

impl From<WriteFailed> for ServeError {
    ghost use Rattle.std.specs.Prelude.{◌≡◌};
    ghost use Rattle.vtree_lines.specs.declared.served.ServeError.TheVariants.{Write};

    ghost from_gives = { λ _ error. error ≡ Write };

    fn from(_failed: WriteFailed) -> ServeError {
        ServeError::Write
    }
}
