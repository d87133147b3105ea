//! The values of a change as bytes: which of the two there are, and these.
ghost use Rattle.std.specs.Prelude.{◌≡◌, ◌≤◌, ◌++◌, drop, is_some, length, IfErr, IfOk, OnOk};
ghost use Rattle.rart_saved.specs.ChangeForms.{both_written, deed, if_there};
ghost use Rattle.rart_saved.specs.ChangeLoads.{LacksOne};
ghost use Rattle.rart_saved.specs.Parts.{HasPart};
ghost use Rattle.rart_saved.specs.Refusals.{OnOtherErr, PointsInto};
ghost use Rattle.rart_saved.specs.Values.{LacksValue};

use crate::entries::{Form, LentForm};
use crate::error::LoadError;
use crate::value::SavedValue;
use std::alloc::{AllocError, Global};

impl<'a, V: SavedValue> LentForm for (&'a Option<V>, &'a Option<V>) {
    ghost written = { λ values. both_written V.written (values.0.now, values.1.now) };

    fn put(self, out: &mut Vec<u8>) -> Result<(), AllocError> {
        let (before, after) = self;
        out.push(deed_of(before, after))?;
        put_value(out, before)?;
        put_value(out, after)?;
        Ok(())
    }
}

/// What a change with these values does, as a byte.
fn deed_of<V: Drop>(before: &Option<V>, after: &Option<V>) -> u8
    ensures { result ≡ deed before.now after.now }
{
    match (before, after) {
        (None, None) => 0,
        (None, Some(_)) => 1,
        (Some(_), None) => 2,
        (Some(_), Some(_)) => 3,
    }
}

/// Writes a value, where there is one.
fn put_value<V: SavedValue>(out: &mut Vec<u8>, value: &Option<V>) -> Result<(), AllocError>
    ensures { OnOk result (out.new.items ≡ out.old.items ++ if_there V.written value.now) }
{
    let Some(value) = value else {
        return Ok(());
    };
    value.write(out)?;
    Ok(())
}

impl<V: SavedValue> Form for (Option<V>, Option<V>) {
    ghost written = { both_written V.written };

    fn take(
        alloc: Global,
        bytes: &[u8],
        at: usize,
    ) -> Result<((Option<V>, Option<V>), usize), LoadError> {
        let Some(byte) = bytes.get(at) else {
            return Err(LoadError::Truncated);
        };
        let deed = *byte;
        if deed > 3 {
            return Err(LoadError::Malformed { at });
        }
        let (before, from) = take_value(alloc, bytes, at + 1, deed >= 2)?;
        let (after, end) = take_value(alloc, bytes, from, deed % 2 == 1)?;
        Ok(((before, after), end))
    }
}

/// The value whose form begins at an offset, if one is there, and the offset behind it.
fn take_value<V: SavedValue>(
    alloc: Global,
    bytes: &[u8],
    at: usize,
    is_there: bool,
) -> Result<(Option<V>, usize), LoadError>
    requires { at ≤ length bytes.now }
    ensures read { IfOk result (λ found. HasPart bytes.now at
        (if_there V.written found.0) found.1) }
    ensures there { IfOk result (λ found. is_some found.0 ≡ is_there) }
    ensures refused { OnOtherErr result (LacksOne V.written is_there (drop at bytes.now)) }
    ensures points { IfErr result (PointsInto bytes.now) }
{
    if !is_there {
        return Ok((None, at));
    }
    let (value, end) = V::read(alloc, bytes, at)?;
    Ok((Some(value), end))
}
