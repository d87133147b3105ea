//! What a key has now as bytes: a value, or that it was taken out.
ghost use Rattle.std.specs.Prelude.{◌≡◌, ◌+◌, ◌≤◌, [], ◌∷◌, ◌++◌, drop, length, IfErr, IfOk, OnOk};
ghost use Rattle.std.specs.Int.{from_bool};
ghost use Rattle.std.specs.Option.{option_copied};
ghost use Rattle.rart_saved.specs.FamilyForms.{optional};
ghost use Rattle.rart_saved.specs.FamilyLoads.{LacksMark};
ghost use Rattle.rart_saved.specs.Parts.{HasPart};
ghost use Rattle.rart_saved.specs.Refusals.{OnOtherErr, PointsInto};
ghost use Rattle.rart_saved.specs.Values.{LacksValue};

use crate::entries::{Form, LentForm};
use crate::error::LoadError;
use crate::value::SavedValue;
use std::alloc::{AllocError, Global};

impl<'a, V: SavedValue> LentForm for Option<&'a V> {
    ghost written = { λ value. optional V.written (option_copied value) };

    fn put(self, out: &mut Vec<u8>) -> Result<(), AllocError> {
        let Some(value) = self else {
            out.push(0)?;
            return Ok(());
        };
        out.push(1)?;
        value.write(out)?;
        Ok(())
    }
}

impl<V: SavedValue> Form for Option<V> {
    ghost written = { optional V.written };

    fn take(alloc: Global, bytes: &[u8], at: usize) -> Result<(Option<V>, usize), LoadError> {
        let is_there = is_there_at(bytes, at)?;
        if !is_there {
            return Ok((None, at + 1));
        }
        let (value, end) = V::read(alloc, bytes, at + 1)?;
        Ok((Some(value), end))
    }
}

/// Whether something stands behind the byte at an offset: 1 tells that it does, and 0 that nothing
/// does. Refused, neither of them is there.
pub(super) fn is_there_at(bytes: &[u8], at: usize) -> Result<bool, LoadError>
    requires { at ≤ length bytes.now }
    ensures read { IfOk result (λ is_there. HasPart bytes.now at
        (from_bool is_there ∷ []) (at + 1)) }
    ensures refused { IfErr result (λ _. LacksMark (drop at bytes.now)) }
    ensures points { IfErr result (PointsInto bytes.now) }
{
    let Some(byte) = bytes.get(at) else {
        return Err(LoadError::Truncated);
    };
    let mark = *byte;
    if mark > 1 {
        return Err(LoadError::Malformed { at });
    }
    Ok(mark == 1)
}
