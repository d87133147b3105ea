//! The head of each file.
ghost use Rattle.std.specs.Prelude.{◌≡◌, ◌≢◌, ◌++◌, ℕ, List, IfErr, IfOk};
ghost use Rattle.rart_saved.specs.ChangeForms.{changes_head};
ghost use Rattle.rart_saved.specs.FamilyForms.{family_head};
ghost use Rattle.rart_saved.specs.Forms.{head};
ghost use Rattle.rart_saved.specs.Parts.{HasPart};
ghost use Rattle.rart_saved.specs.Refusals.{PointsInto};

use crate::error::LoadError;
use rart_below::prefix_length;

/// The number of this format.
const FORMAT: u8 = 1;

/// Of a version: the name, the number of the format, and the kind of values.
pub(crate) fn head_of(kind: u8) -> [u8; 9]
    ensures { result ≡ head kind }
{
    [b'c', b'o', b'm', b'f', b'r', b'e', b'y', FORMAT, kind]
}

/// Of a list of changes, the same with another name.
pub(crate) fn changes_head_of(kind: u8) -> [u8; 9]
    ensures { result ≡ changes_head kind }
{
    [b'c', b'h', b'a', b'n', b'g', b'e', b's', FORMAT, kind]
}

/// Of a family, the same with a third name.
pub(crate) fn family_head_of(kind: u8) -> [u8; 9]
    ensures { result ≡ family_head kind }
{
    [b'l', b'i', b'n', b'e', b'a', b'g', b'e', FORMAT, kind]
}

/// The offset behind a head, where the bytes begin with it.
pub(crate) fn take_head(bytes: &[u8], head: &[u8; 9]) -> Result<usize, LoadError>
    ensures read { IfOk result (λ end. HasPart bytes.now 0 head.now end) }
    ensures refused { IfErr result (λ _. (rest : List ℕ) → bytes.now ≢ head.now ++ rest) }
    ensures points { IfErr result (PointsInto bytes.now) }
{
    let shared = prefix_length(head, bytes);
    if shared == 9 {
        return Ok(9);
    }
    if shared == bytes.len() {
        return Err(LoadError::Truncated);
    }
    if shared == 7 {
        return Err(LoadError::Unsupported {
            format: bytes[shared],
        });
    }
    Err(LoadError::Malformed { at: shared })
}
