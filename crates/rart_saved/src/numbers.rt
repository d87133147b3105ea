//! Numbers below 2^64 as bytes: LEB128, each in its shortest form and no other.
ghost use Rattle.std.specs.Prelude.{◌≡◌, ◌++◌, ◌≤◌, ◌<◌, drop, length, IfErr, IfOk, OnOk};
ghost use Rattle.rart_saved.specs.Numbers.{groups, leb, LacksGroups, LacksNumber};
ghost use Rattle.rart_saved.specs.Parts.{HasPart};
ghost use Rattle.rart_saved.specs.Refusals.{PointsInto};

use crate::error::LoadError;
use std::alloc::AllocError;

/// Writes a number behind what is there. Refused for memory, some of its bytes may be there.
pub(crate) fn put_number(out: &mut Vec<u8>, number: u64) -> Result<(), AllocError>
    ensures { OnOk result (out.new.items ≡ out.old.items ++ leb number) }
{
    let mut left = number;
    while left >= 128 {
        out.push((left % 128) as u8 + 128)?;
        left /= 128;
    }
    out.push(left as u8)?;
    Ok(())
}

/// The number whose form begins at an offset, and the offset behind it. Refused where none does.
pub(crate) fn number_at(bytes: &[u8], at: usize) -> Result<(u64, usize), LoadError>
    requires { at ≤ length bytes.now }
    ensures read { IfOk result (λ found. HasPart bytes.now at (leb found.0) found.1) }
    ensures refused { IfErr result (λ _. LacksNumber (drop at bytes.now)) }
    ensures points { IfErr result (PointsInto bytes.now) }
    ensures moves { IfOk result (λ found. at < found.1) }
{
    groups_at(bytes, at, 9)
}

/// The same for a number of at most `more` groups and one.
fn groups_at(bytes: &[u8], at: usize, more: u32) -> Result<(u64, usize), LoadError>
    requires { at ≤ length bytes.now }
    ensures read { IfOk result (λ found. HasPart bytes.now at (groups more found.0) found.1) }
    ensures refused { IfErr result (λ _. LacksGroups more (drop at bytes.now)) }
    ensures points { IfErr result (PointsInto bytes.now) }
    ensures moves { IfOk result (λ found. at < found.1) }
{
    let Some(byte) = bytes.get(at) else {
        return Err(LoadError::Truncated);
    };
    let low = u64::from(*byte);
    if low < 128 {
        return Ok((low, at + 1));
    }
    if more == 0 {
        return Err(LoadError::Malformed { at });
    }
    let (high, end) = groups_at(bytes, at + 1, more - 1)?;
    if high == 0 || high >= 1 << 57 {
        return Err(LoadError::Malformed { at });
    }
    Ok((high * 128 + (low - 128), end))
}
