//! Entries: keys, each behind the one before it, and what stands behind each. A version has a value
//! there, a list of changes both values of a change, a family a value or that there is none.
ghost use Rattle.std.specs.Prelude.{◌≡◌, ◌≤◌, ◌++◌, ℕ, List, [], drop, length, true, IfErr, IfOk, OnOk};
ghost use Rattle.rart_below.specs.Bytes.{IsAdmitted};
ghost use Rattle.rart_saved.specs.Forms.{entry};
ghost use Rattle.rart_saved.specs.Keys.{IsNext};
ghost use Rattle.rart_saved.specs.Loads.{LacksPair};
ghost use Rattle.rart_saved.specs.Parts.{HasPart};
ghost use Rattle.rart_saved.specs.Refusals.{OnErrWithin, OnOtherErr, PointsInto};
ghost use Rattle.rart_saved.specs.Values.{LacksValue};

use crate::error::LoadError;
use crate::keys::{put_key, take_key};
use crate::value::SavedValue;
use rart_versioned::KeyTrait;
use std::alloc::{AllocError, Global};

/// What stands behind a key, as it is written: lent, where it is.
pub(crate) trait LentForm: Copy + Drop {
    ghost written: { Self → List ℕ };

    /// Writes the form behind what is there. Refused for memory, some of its bytes may be there.
    fn put(self, out: &mut Vec<u8>) -> Result<(), AllocError>
        ensures { OnOk result (out.new.items ≡ out.old.items ++ written self) };
}

/// What stands behind a key, as it is read.
pub(crate) trait Form: Drop {
    ghost written: { Self → List ℕ };

    /// What has its form at an offset, and the offset behind it. Refused for another reason than
    /// memory, nothing has its form there.
    fn take(alloc: Global, bytes: &[u8], at: usize) -> Result<(Self, usize), LoadError>
        requires { at ≤ length bytes.now }
        ensures read { IfOk result (λ found. HasPart bytes.now at (written found.0) found.1) }
        ensures refused { OnOtherErr result (LacksValue written (drop at bytes.now)) }
        ensures points { IfErr result (PointsInto bytes.now) };
}

impl<'a, V: SavedValue> LentForm for &'a V {
    ghost written = { λ value. V.written value.now };

    fn put(self, out: &mut Vec<u8>) -> Result<(), AllocError> {
        self.write(out)
    }
}

impl<V: SavedValue> Form for V {
    ghost written = { V.written };

    fn take(alloc: Global, bytes: &[u8], at: usize) -> Result<(V, usize), LoadError> {
        V::read(alloc, bytes, at)
    }
}

/// Writes an entry behind what is there, and its key over the one before. Refused for memory, some
/// of its bytes may be there.
pub(crate) fn put_entry<F: LentForm>(
    out: &mut Vec<u8>,
    before: &mut Vec<u8>,
    key: &[u8],
    form: F,
) -> Result<(), AllocError>
    ensures written { OnOk result (out.new.items ≡ out.old.items
        ++ entry F.written before.old.items (key.now, form)) }
    ensures before { OnOk result (before.new.items ≡ key.now) }
{
    put_key(out, before.as_slice(), key)?;
    form.put(out)?;
    before.clear();
    before.extend_from_slice(key)?;
    Ok(())
}

/// Reads the entry whose form begins at an offset, its key into the one before, and gives what
/// stands behind its key, and the offset behind that. Its key is one that `take_key` takes. Refused
/// for another reason than memory, no entry of such a key has its form there.
pub(crate) fn take_entry<K: KeyTrait, F: Form>(
    alloc: Global,
    bytes: &[u8],
    at: usize,
    longest: Option<usize>,
    is_first: bool,
    key: &mut Vec<u8>,
) -> Result<(F, usize), LoadError>
    requires inside { at ≤ length bytes.now }
    requires first { is_first ≡ true → key.old.items ≡ [] }
    ensures read { IfOk result (λ found. HasPart bytes.now at
        (entry F.written key.old.items (key.new.items, found.0)) found.1) }
    ensures next { OnOk result (IsNext is_first key.old.items key.new.items) }
    ensures admitted { OnOk result (IsAdmitted K.MAXIMUM_SIZE (length key.new.items)) }
    ensures short { OnOk result (IsAdmitted longest (length key.new.items)) }
    ensures refused { OnErrWithin longest K.MAXIMUM_SIZE result
        (λ most. LacksPair F.written most is_first key.old.items (drop at bytes.now)) }
    ensures points { IfErr result (PointsInto bytes.now) }
{
    let from = take_key::<K>(bytes, at, longest, is_first, key)?;
    let (form, end) = F::take(alloc, bytes, from)?;
    Ok((form, end))
}
