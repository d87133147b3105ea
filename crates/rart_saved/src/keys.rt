//! Keys as bytes: each by what it has in common with the one before.
ghost use Rattle.std.specs.Prelude.{◌≡◌, ◌≢◌, ◌≤◌, ◌++◌, ◌<◌, ℕ, List, [], true, false, drop, length, IfErr, IfOk, OnOk};
ghost use Rattle.rart_below.specs.Bytes.{IsAdmitted, common_length};
ghost use Rattle.rart_saved.specs.Forms.{key_form};
ghost use Rattle.rart_saved.specs.Keys.{Follows, IsNext, LacksAdmittedKey, LacksKey};
ghost use Rattle.rart_saved.specs.Parts.{HasPart};
ghost use Rattle.rart_saved.specs.Refusals.{OnErrWithin, OnOtherErr, PointsInto};

use crate::error::LoadError;
use crate::numbers::{number_at, put_number};
use rart_below::{is_admitted, prefix_length};
use rart_versioned::KeyTrait;
use std::alloc::AllocError;

/// Writes a key behind the one before. Refused for memory, some of its bytes may be there.
pub(crate) fn put_key(out: &mut Vec<u8>, before: &[u8], key: &[u8]) -> Result<(), AllocError>
    ensures { OnOk result (out.new.items ≡ out.old.items ++ key_form before.now key.now) }
{
    let shared = prefix_length(before, key);
    put_number(out, shared as u64)?;
    put_number(out, (key.len() - shared) as u64)?;
    out.extend_from_slice(&key[shared..])?;
    Ok(())
}

/// Reads the key whose form begins at an offset into the one before, and gives the offset behind
/// it. This key type admits it, and it is no longer than a limit, if one is given. Refused for
/// another reason than memory, no such key behind that one has its form there.
pub(crate) fn take_key<K: KeyTrait>(
    bytes: &[u8],
    at: usize,
    longest: Option<usize>,
    is_first: bool,
    key: &mut Vec<u8>,
) -> Result<usize, LoadError>
    requires inside { at ≤ length bytes.now }
    requires first { is_first ≡ true → key.old.items ≡ [] }
    ensures read { IfOk result (λ end. HasPart bytes.now at
        (key_form key.old.items key.new.items) end) }
    ensures next { OnOk result (IsNext is_first key.old.items key.new.items) }
    ensures admitted { OnOk result (IsAdmitted K.MAXIMUM_SIZE (length key.new.items)) }
    ensures short { OnOk result (IsAdmitted longest (length key.new.items)) }
    ensures refused { OnErrWithin longest K.MAXIMUM_SIZE result
        (λ most. LacksAdmittedKey most is_first key.old.items (drop at bytes.now)) }
    ensures points { IfErr result (PointsInto bytes.now) }
{
    let end = take_any_key(bytes, at, is_first, key)?;
    let count = key.as_slice().len();
    if !is_admitted(K::MAXIMUM_SIZE, count) {
        return Err(LoadError::Malformed { at });
    }
    if !is_admitted(longest, count) {
        return Err(LoadError::TooLong { at });
    }
    Ok(end)
}

/// The same of a key of any length.
fn take_any_key(
    bytes: &[u8],
    at: usize,
    is_first: bool,
    key: &mut Vec<u8>,
) -> Result<usize, LoadError>
    requires inside { at ≤ length bytes.now }
    requires first { is_first ≡ true → key.old.items ≡ [] }
    ensures read { IfOk result (λ end. HasPart bytes.now at
        (key_form key.old.items key.new.items) end) }
    ensures next { OnOk result (IsNext is_first key.old.items key.new.items) }
    ensures refused { OnOtherErr result (LacksKey is_first key.old.items (drop at bytes.now)) }
    ensures points { IfErr result (PointsInto bytes.now) }
{
    let (shared, from) = number_at(bytes, at)?;
    let (count, from) = number_at(bytes, from)?;
    if count > (bytes.len() - from) as u64 {
        return Err(LoadError::Truncated);
    }
    let end = from + count as usize;
    if !does_follow(key, shared, &bytes[from..end], is_first) {
        return Err(LoadError::Malformed { at });
    }
    key.truncate(shared as usize);
    key.extend_from_slice(&bytes[from..end])?;
    Ok(end)
}

/// Whether a key that has just so many bytes in common with the one before, and then these, comes
/// behind it.
fn does_follow(before: &[u8], shared: u64, rest: &[u8], is_first: bool) -> bool
    requires { is_first ≡ true → before.now ≡ [] }
    ensures yes { result ≡ true → Follows is_first before.now shared rest.now }
    ensures no { result ≡ false → (key : List ℕ) → IsNext is_first before.now key
        → shared ≡ common_length before.now key → rest.now ≢ drop shared key }
{
    if shared > before.len() as u64 {
        return false;
    }
    let Some(byte) = rest.first() else {
        return is_first;
    };
    let shared = shared as usize;
    if shared == before.len() {
        return true;
    }
    before[shared] < *byte
}
