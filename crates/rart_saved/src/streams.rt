//! Versions, lists of changes and families over writers and readers.
ghost use Rattle.std.specs.Prelude.{◌≡◌, ◌⊎◌, map, IfErr, IfOk, IfSome, OnOk};
ghost use Rattle.std.specs.Io.KnownBytes.{Appends};
ghost use Rattle.rart_below.specs.Clones.{ClonesEqual};
ghost use Rattle.rart_changes.specs.Shown.{shown_change};
ghost use Rattle.rart_maps.specs.ChangeLaws.{Decides};
ghost use Rattle.rart_maps.specs.FoundLaws.{KeysAscend};
ghost use Rattle.rart_saved.specs.ChangeForms.{saved_changes};
ghost use Rattle.rart_saved.specs.ChangeLoads.{GivesBackChangesUnlessIo};
ghost use Rattle.rart_saved.specs.FamilyForms.{saved_family};
ghost use Rattle.rart_saved.specs.FamilyLoads.{GivesBackFamilyUnlessIo};
ghost use Rattle.rart_saved.specs.Forms.{saved};
ghost use Rattle.rart_saved.specs.Loads.{GivesBackUnlessIo};
ghost use Rattle.rart_saved.specs.declared.error.LoadError.TheVariants as unread;
ghost use Rattle.rart_saved.specs.declared.error.SaveError.TheVariants as refused;

use crate::changes::loading::load_changes_slice;
use crate::changes::saving::save_changes_slice;
use crate::error::{LoadError, SaveError};
use crate::families::loading::load_family_slice;
use crate::families::saving::save_family_slice;
use crate::loading::load_slice;
use crate::saving::save_slice;
use crate::value::SavedValue;
use rart_changes::KeyChange;
use rart_family::Family;
use rart_versioned::{KeyTrait, VersionedAdaptiveRadixTree};
use std::alloc::Global;
use std::io::{ErrorKind, Read, Write};

/// Writes a version's bytes, as `save_slice` gives them.
///
/// ```
/// save(alloc, &prices, &mut file)?;
/// ```
///
/// With `Io` some of the first may be written: no clause tells of a writer that failed. With
/// `Memory` the writer is as before.
pub fn save<K: KeyTrait, V: SavedValue, W: Write>(
    alloc: Global,
    tree: &VersionedAdaptiveRadixTree<K, V>,
    writer: &mut W,
) -> Result<(), SaveError>
    ensures written { OnOk result (Appends (W.contents writer.old) (W.contents writer.new)
        (saved V.written V.KIND tree.now)) }
    ensures memory { IfErr result (λ error. error ≡ refused.Memory → writer.new ≡ writer.old) }
{
    let bytes = save_slice(alloc, tree)?;
    write_bytes(writer, bytes.as_slice())
}

/// Writes the bytes of a list of changes, as `save_changes_slice` gives them, otherwise as `save`.
///
/// ```
/// save_changes(alloc, draft.changes()?.as_slice(), &mut file)?;
/// ```
pub fn save_changes<K: KeyTrait, V: SavedValue, W: Write>(
    alloc: Global,
    list: &[KeyChange<K, V>],
    writer: &mut W,
) -> Result<(), SaveError>
    ensures written { OnOk result (Appends (W.contents writer.old) (W.contents writer.new)
        (saved_changes V.written V.KIND (map (shown_change K.bytes) list.now))) }
    ensures memory { IfErr result (λ error. error ≡ refused.Memory → writer.new ≡ writer.old) }
{
    let bytes = save_changes_slice(alloc, list)?;
    write_bytes(writer, bytes.as_slice())
}

/// Writes a family's bytes, as `save_family_slice` gives them, otherwise as `save`.
///
/// ```
/// save_family(alloc, &versions, &mut file)?;
/// ```
pub fn save_family<K: KeyTrait, V: SavedValue + Eq, W: Write>(
    alloc: Global,
    family: &Family<K, V>,
    writer: &mut W,
) -> Result<(), SaveError>
    ensures written { OnOk result (Appends (W.contents writer.old) (W.contents writer.new)
        (saved_family V.written V.eq V.KIND family.now)) }
    ensures memory { IfErr result (λ error. error ≡ refused.Memory → writer.new ≡ writer.old) }
{
    let bytes = save_family_slice(alloc, family)?;
    write_bytes(writer, bytes.as_slice())
}

/// Writes all these bytes.
fn write_bytes<W: Write>(writer: &mut W, bytes: &[u8]) -> Result<(), SaveError>
    ensures written { OnOk result (Appends (W.contents writer.old) (W.contents writer.new)
        bytes.now) }
    ensures refused { IfErr result (λ error. error ≡ refused.Io) }
{
    match writer.write_all(bytes) {
        Ok(()) => Ok(()),
        Err(_failed) => Err(SaveError::Io),
    }
}

/// Reads all that a reader gives, as `load_slice` reads it.
///
/// ```
/// let prices: VersionedAdaptiveRadixTree<VectorKey, u64> = load(alloc, &mut reader)?;
/// ```
///
/// `Io` comes where reading failed, but `Memory` where its error is of the kind `OutOfMemory`.
pub fn load<K: KeyTrait, V: SavedValue, R: Read>(
    alloc: Global,
    reader: &mut R,
) -> Result<VersionedAdaptiveRadixTree<K, V>, LoadError>
    requires clones { ClonesEqual V.is_clone }
    ensures read { IfOk result (λ tree. IfSome (R.remaining reader.old)
        (λ bytes. bytes ≡ saved V.written V.KIND tree)) }
    ensures gives_back { IfSome (R.remaining reader.old)
        (GivesBackUnlessIo V.written V.KIND K.MAXIMUM_SIZE result) }
{
    let bytes = read_bytes(alloc, reader)?;
    load_slice(alloc, bytes.as_slice())
}

/// Reads all that a reader gives, as `load_changes_slice` reads it.
///
/// ```
/// let changes: Vec<KeyChange<VectorKey, u64>> = load_changes(alloc, &mut reader)?;
/// ```
///
/// `Io` comes where reading failed, but `Memory` where its error is of the kind `OutOfMemory`.
pub fn load_changes<K: KeyTrait, V: SavedValue, R: Read>(
    alloc: Global,
    reader: &mut R,
) -> Result<Vec<KeyChange<K, V>>, LoadError>
    ensures read { IfOk result (λ list. IfSome (R.remaining reader.old)
        (λ bytes. bytes ≡ saved_changes V.written V.KIND
        (map (shown_change K.bytes) list.items))) }
    ensures ascends { IfOk result
        (λ list. KeysAscend (λ change. change.0) (map (shown_change K.bytes) list.items)) }
    ensures gives_back { IfSome (R.remaining reader.old)
        (GivesBackChangesUnlessIo V.written V.KIND K.MAXIMUM_SIZE result
        (λ list. map (shown_change K.bytes) list.items)) }
{
    let bytes = read_bytes(alloc, reader)?;
    load_changes_slice(alloc, bytes.as_slice())
}

/// Reads all that a reader gives, as `load_family_slice` reads it.
///
/// ```
/// let versions: Family<VectorKey, u64> = load_family(alloc, &mut reader)?;
/// ```
///
/// `Io` comes where reading failed, but `Memory` where its error is of the kind `OutOfMemory`.
pub fn load_family<K: KeyTrait, V: SavedValue + Eq, R: Read>(
    alloc: Global,
    reader: &mut R,
) -> Result<Family<K, V>, LoadError>
    requires clones { ClonesEqual V.is_clone }
    requires decides { Decides V.eq }
    ensures read { IfOk result (λ family. IfSome (R.remaining reader.old)
        (λ bytes. bytes ≡ saved_family V.written V.eq V.KIND family)) }
    ensures gives_back { IfSome (R.remaining reader.old)
        (GivesBackFamilyUnlessIo V.written V.eq V.KIND K.MAXIMUM_SIZE result) }
{
    let bytes = read_bytes(alloc, reader)?;
    load_family_slice(alloc, bytes.as_slice())
}

/// All that a reader gives.
fn read_bytes<R: Read>(alloc: Global, reader: &mut R) -> Result<Vec<u8>, LoadError>
    ensures read { IfOk result (λ bytes. IfSome (R.remaining reader.old)
        (λ all. all ≡ bytes.items)) }
    ensures refused { IfErr result (λ error. (error ≡ unread.Memory) ⊎ (error ≡ unread.Io)) }
{
    let mut bytes = Vec::new(alloc);
    match reader.read_to_end(&mut bytes) {
        Ok(_count) => Ok(bytes),
        Err(failed) => match failed.kind() {
            ErrorKind::OutOfMemory => Err(LoadError::Memory),
            _ => Err(LoadError::Io),
        },
    }
}
