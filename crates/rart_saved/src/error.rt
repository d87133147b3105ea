//! Why bytes were not read, or a version, a list of changes or a family not written.
use std::alloc::AllocError;
use thiserror::Error;

/// Why bytes were not read as a version, a list of changes or a family. Nothing is left behind.
#[derive(Debug, Clone, Copy, PartialEq, Eq, Error)]
pub enum LoadError {
    /// Reading failed.
    #[error("reading failed")]
    Io,
    /// Memory was refused. Only with this error, `Io` or `TooLong` may the bytes be what was to be
    /// read.
    #[error("out of memory")]
    Memory,
    /// The bytes end too early.
    #[error("the bytes end too early")]
    Truncated,
    /// What begins at that byte stands in no form of the kind: a byte of the head, a number in
    /// another form, a key out of order or of a length that the key type lacks, a value, or bytes
    /// behind the end.
    #[error("what begins at byte {at} stands in no form")]
    Malformed { at: usize },
    /// The key whose form begins at that byte is longer than a key may be by the limit that was
    /// given. Without one it never comes.
    #[error("the key at byte {at} is too long")]
    TooLong { at: usize },
    /// The sum at the end is not that of the bytes before it.
    #[error("the checksum is another one")]
    Checksum,
    /// The head names another format.
    #[error("format {format} is not supported")]
    Unsupported { format: u8 },
}

/// Why a version, a list of changes or a family was not written.
#[derive(Debug, Clone, Copy, PartialEq, Eq, Error)]
pub enum SaveError {
    /// Writing failed.
    #[error("writing failed")]
    Io,
    /// Memory was refused, and nothing is written.
    #[error("out of memory")]
    Memory,
}

impl From<AllocError> for SaveError {
    ghost use Rattle.std.specs.Prelude.{◌≡◌};
    ghost use Rattle.rart_saved.specs.declared.error.SaveError.TheVariants.{Memory};

    ghost from_gives = { λ _ error. error ≡ Memory };

    fn from(_refused: AllocError) -> SaveError {
        SaveError::Memory
    }
}

impl From<AllocError> for LoadError {
    ghost use Rattle.std.specs.Prelude.{◌≡◌};
    ghost use Rattle.rart_saved.specs.declared.error.LoadError.TheVariants.{Memory};

    ghost from_gives = { λ _ error. error ≡ Memory };

    fn from(_refused: AllocError) -> LoadError {
        LoadError::Memory
    }
}
