//! Why a command is not done.
use std::alloc::AllocError;

/// Why a command is not done, which leaves the family as it was.
#[derive(Drop)]
pub(super) enum Refused {
    /// A place of it is past the last one, or was discarded.
    NoVersion,
    /// The number would pass `2^64 - 1`.
    NoRoom,
    /// Memory was refused.
    NoMemory,
}

impl From<AllocError> for Refused {
    ghost use Rattle.std.specs.Prelude.{◌≡◌};
    ghost use Rattle.rart_family.specs.declared.family.refused.Refused.TheVariants.{NoMemory};

    ghost from_gives = { λ _ refused. refused ≡ NoMemory };

    fn from(_refused: AllocError) -> Refused {
        Refused::NoMemory
    }
}
