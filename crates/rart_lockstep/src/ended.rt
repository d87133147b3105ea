//! Why a visit of two trees ended early. rart has none that its closure may end.
ghost use Rattle.std.specs.Prelude.{◌≡◌};
ghost use Rattle.rart_lockstep.specs.Endings.{without_stop};

use rart_below::Refusal;

/// Why a visit ended early whose closure may end it.
#[derive(Drop)]
pub enum Ended<E> {
    /// The closure answered `Stop`.
    Stopped,
    /// Memory was refused, or the closure answered an error.
    Refused(Refusal<E>),
}

/// What the call that visits answers then: to be stopped is no error.
pub fn without_stop<E: Drop>(visited: Result<(), Ended<E>>) -> Result<(), Refusal<E>>
    ensures { result ≡ without_stop visited }
{
    match visited {
        Ok(()) => Ok(()),
        Err(Ended::Stopped) => Ok(()),
        Err(Ended::Refused(refusal)) => Err(refusal),
    }
}
