//! Values that have a form as bytes.
ghost use Rattle.std.specs.Prelude.{◌≡◌, ◌≤◌, ◌++◌, ℕ, List, drop, length, IfErr, IfOk, OnOk};
ghost use Rattle.rart_saved.specs.Parts.{HasPart};
ghost use Rattle.rart_saved.specs.Refusals.{OnOtherErr, PointsInto};
ghost use Rattle.rart_saved.specs.Values.{eight_bytes, sized, LacksValue};

use crate::error::LoadError;
use crate::numbers::{number_at, put_number};
use std::alloc::{AllocError, Global};
use std::marker::Model;

/// A value that has a form as bytes, by which alone it is read.
///
/// The law says that no form begins another: what begins with a value's form is of that value.
pub trait SavedValue: Clone + Drop {
    /// The kind of values, which a file names. Kinds below 128 are this crate's.
    const KIND: u8;

    ghost KIND: { ℕ };

    ghost written: { Self → List ℕ };

    /// Writes the form behind what is there. Refused for memory, some of its bytes may be there.
    fn write(&self, out: &mut Vec<u8>) -> Result<(), AllocError>
        ensures { OnOk result (out.new.items ≡ out.old.items ++ written self.now) };

    /// The value whose form begins at an offset, and the offset behind it. Refused for another
    /// reason than memory, no value's form begins there.
    fn read(alloc: Global, bytes: &[u8], at: usize) -> Result<(Self, usize), LoadError>
        requires { at ≤ length bytes.now }
        ensures read { IfOk result (λ found. HasPart bytes.now at (written found.0) found.1) }
        ensures refused { OnOtherErr result (LacksValue written (drop at bytes.now)) }
        ensures points { IfErr result (PointsInto bytes.now) };

    ghost apart: { (x y : Self) (r s : List ℕ) → written x ++ r ≡ written y ++ s → x ≡ y };
}

/// A number is eight bytes, the least first.
impl SavedValue for u64 {
    ghost use Rattle.rart_saved.specs.Laws.{eight_bytes-apart};

    const KIND: u8 = 1;

    ghost KIND = { 1 };

    ghost written = { eight_bytes };

    fn write(&self, out: &mut Vec<u8>) -> Result<(), AllocError> {
        out.extend_from_slice(&self.to_le_bytes())?;
        Ok(())
    }

    fn read(_alloc: Global, bytes: &[u8], at: usize) -> Result<(u64, usize), LoadError> {
        if bytes.len() - at < 8 {
            return Err(LoadError::Truncated);
        }
        let mut eight = [0_u8; 8];
        eight.copy_from_slice(&bytes[at..at + 8]);
        Ok((u64::from_le_bytes(eight), at + 8))
    }

    ghost apart = { eight_bytes-apart };
}

/// A byte string as a value. Contracts see its bytes.
#[derive(Debug, Drop)]
pub struct ByteString {
    bytes: Vec<u8>,
}

impl Model for ByteString {
    ghost Value = { List ℕ };

    ghost view = { λ string. string.bytes.items };
}

impl Clone for ByteString {
    ghost is_clone = { λ value copy. copy ≡ value };

    fn clone(&self) -> Result<ByteString, AllocError> {
        Ok(ByteString {
            bytes: self.bytes.clone()?,
        })
    }
}

/// By their bytes, so that equal ones are the same to contracts.
impl PartialEq for ByteString {
    ghost use Rattle.std.proofs.Common.{rules};
    ghost use Rattle.std.specs.Cmp.Rules.{comparing};
    ghost use Rattle.std.specs.Str.{bytes_eq};

    ghost eq = { bytes_eq };

    ghost laws = { Prim.search (comparing, rules) };

    fn eq(&self, other: &ByteString) -> bool {
        self.as_slice() == other.as_slice()
    }
}

impl Eq for ByteString {
    ghost use Rattle.std.proofs.Common.{rules};
    ghost use Rattle.std.specs.Cmp.Rules.{comparing};

    ghost laws = { Prim.search (comparing, rules) };
}

impl ByteString {
    /// A copy of these bytes.
    pub fn new(alloc: Global, bytes: &[u8]) -> Result<ByteString, AllocError>
        ensures { IfOk result (λ string. string ≡ bytes.now) }
    {
        Ok(ByteString {
            bytes: bytes.to_vec(alloc)?,
        })
    }

    pub fn as_slice(&self) -> &[u8]
        ensures { result.now ≡ self.now }
    {
        self.bytes.as_slice()
    }
}

/// A byte string is its length and its bytes.
impl SavedValue for ByteString {
    ghost use Rattle.rart_saved.specs.Laws.{sized-apart};

    const KIND: u8 = 2;

    ghost KIND = { 2 };

    ghost written = { sized };

    fn write(&self, out: &mut Vec<u8>) -> Result<(), AllocError> {
        put_sized(out, self.as_slice())
    }

    fn read(alloc: Global, bytes: &[u8], at: usize) -> Result<(ByteString, usize), LoadError> {
        let (string, end) = sized_at(bytes, at)?;
        Ok((ByteString::new(alloc, string)?, end))
    }

    ghost apart = { sized-apart };
}

/// Writes a byte string behind what is there: its length and its bytes. Refused for memory, some of
/// them may be there. A type of yours that is a byte string has its form by it.
pub fn put_sized(out: &mut Vec<u8>, string: &[u8]) -> Result<(), AllocError>
    ensures { OnOk result (out.new.items ≡ out.old.items ++ sized string.now) }
{
    put_number(out, string.len() as u64)?;
    out.extend_from_slice(string)?;
    Ok(())
}

/// The bytes of the byte string whose form begins at an offset, and the offset behind them.
/// Refused, none's does.
pub fn sized_at(bytes: &[u8], at: usize) -> Result<(&[u8], usize), LoadError>
    requires { at ≤ length bytes.now }
    ensures read { IfOk result (λ found. HasPart bytes.now at (sized found.0.now) found.1) }
    ensures refused { IfErr result (λ _. LacksValue sized (drop at bytes.now)) }
    ensures points { IfErr result (PointsInto bytes.now) }
{
    let (count, from) = number_at(bytes, at)?;
    if count > (bytes.len() - from) as u64 {
        return Err(LoadError::Truncated);
    }
    let end = from + count as usize;
    Ok((&bytes[from..end], end))
}
