//! Bytes are read as a list of changes.
ghost use Rattle.std.specs.Prelude.{◌≡◌, ◌≤◌, [], drop, length, map, true, IfErr, IfOk, OnOk};
ghost use Rattle.rart_changes.specs.Shown.{shown_change};
ghost use Rattle.rart_maps.specs.FoundLaws.{KeysAscend};
ghost use Rattle.rart_saved.specs.ChangeForms.{as_pair, both_written, saved_changes};
ghost use Rattle.rart_saved.specs.ChangeLoads.{GivesBackChanges, LacksChanges, LacksEntries, shown_pairs};
ghost use Rattle.rart_saved.specs.Forms.{entries, entry};
ghost use Rattle.rart_saved.specs.Keys.{IsNext};
ghost use Rattle.rart_saved.specs.Loads.{LacksPair};
ghost use Rattle.rart_saved.specs.Parts.{HasPart};
ghost use Rattle.rart_saved.specs.Refusals.{OnOtherErr, PointsInto};

use crate::entries::take_entry;
use crate::error::LoadError;
use crate::head::{changes_head_of, take_head};
use crate::loading::{check_sum, push_one};
use crate::numbers::number_at;
use crate::value::SavedValue;
use rart_changes::KeyChange;
use rart_versioned::KeyTrait;
use std::alloc::Global;

/// The list of changes whose form these bytes are. All others are refused, as `load_slice` does.
///
/// ```
/// let changes: Vec<KeyChange<VectorKey, u64>> = load_changes_slice(alloc, bytes)?;
/// ```
///
/// `Memory` comes where memory was refused, and any other error where the bytes are of no list
/// whose keys ascend and are admitted by this key type.
pub fn load_changes_slice<K: KeyTrait, V: SavedValue>(
    alloc: Global,
    bytes: &[u8],
) -> Result<Vec<KeyChange<K, V>>, LoadError>
    ensures read { IfOk result (λ list. bytes.now
        ≡ saved_changes V.written V.KIND (map (shown_change K.bytes) list.items)) }
    ensures ascends { IfOk result
        (λ list. KeysAscend (λ change. change.0) (map (shown_change K.bytes) list.items)) }
    ensures gives_back { GivesBackChanges V.written V.KIND K.MAXIMUM_SIZE result
        (λ list. map (shown_change K.bytes) list.items) bytes.now }
    ensures points { IfErr result (PointsInto bytes.now) }
{
    read_changes(alloc, bytes)
}

/// The same. Refused for another reason than memory, the bytes are of no list.
fn read_changes<K: KeyTrait, V: SavedValue>(
    alloc: Global,
    bytes: &[u8],
) -> Result<Vec<KeyChange<K, V>>, LoadError>
    ensures read { IfOk result (λ list. bytes.now
        ≡ saved_changes V.written V.KIND (map (shown_change K.bytes) list.items)) }
    ensures ascends { IfOk result
        (λ list. KeysAscend (λ change. change.0) (map (shown_change K.bytes) list.items)) }
    ensures refused { OnOtherErr result
        (LacksChanges V.written V.KIND K.MAXIMUM_SIZE bytes.now) }
    ensures points { IfErr result (PointsInto bytes.now) }
{
    let at = take_head(bytes, &changes_head_of(V::KIND))?;
    let (count, from) = number_at(bytes, at)?;
    let (list, end) = take_changes(alloc, bytes, from, count)?;
    check_sum(bytes, end)?;
    Ok(list)
}

/// So many changes, whose forms begin at an offset, and the offset behind them.
fn take_changes<K: KeyTrait, V: SavedValue>(
    alloc: Global,
    bytes: &[u8],
    at: usize,
    count: u64,
) -> Result<(Vec<KeyChange<K, V>>, usize), LoadError>
    requires { at ≤ length bytes.now }
    ensures read { IfOk result (λ found. HasPart bytes.now at
        (entries (both_written V.written) [] (shown_pairs K.bytes found.0.items)) found.1) }
    ensures count { IfOk result (λ found. length (shown_pairs K.bytes found.0.items) ≡ count) }
    ensures ascends { IfOk result
        (λ found. KeysAscend (λ change. change.0) (map (shown_change K.bytes) found.0.items)) }
    ensures refused { OnOtherErr result
        (LacksEntries (both_written V.written) K.MAXIMUM_SIZE count (drop at bytes.now)) }
    ensures points { IfErr result (PointsInto bytes.now) }
{
    let mut key = Vec::new(alloc);
    let mut list = Vec::new(alloc);
    let mut end = at;
    'taking: for done in 0..count {
        let (change, behind) = take_change(alloc, bytes, end, done == 0, &mut key)?;
        push_one(&mut list, change)?;
        end = behind;
    }
    Ok((list, end))
}

/// The change whose form begins at an offset, its key read into the one before, and the offset
/// behind it.
fn take_change<K: KeyTrait, V: SavedValue>(
    alloc: Global,
    bytes: &[u8],
    at: usize,
    is_first: bool,
    key: &mut Vec<u8>,
) -> Result<(KeyChange<K, V>, usize), LoadError>
    requires inside { at ≤ length bytes.now }
    requires first { is_first ≡ true → key.old.items ≡ [] }
    ensures read { IfOk result (λ found. HasPart bytes.now at (entry (both_written V.written)
        key.old.items (as_pair (shown_change K.bytes found.0))) found.1) }
    ensures key { IfOk result (λ found. K.bytes found.0.key ≡ key.new.items) }
    ensures next { OnOk result (IsNext is_first key.old.items key.new.items) }
    ensures refused { OnOtherErr result (LacksPair (both_written V.written) K.MAXIMUM_SIZE
        is_first key.old.items (drop at bytes.now)) }
    ensures points { IfErr result (PointsInto bytes.now) }
{
    let ((before, after), end) = take_entry::<K, (Option<V>, Option<V>)>(
        alloc, bytes, at, None, is_first, key,
    )?;
    let key = K::new_from_slice(alloc, key.as_slice())?;
    Ok((KeyChange { key, before, after }, end))
}
