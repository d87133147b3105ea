//! Bytes are read as a family of versions.
ghost use Rattle.std.specs.Prelude.{◌≡◌, ◌≤◌, ◌++◌, IfErr, IfOk, IfSome, OnOk, Some, drop, length};
ghost use Rattle.std.specs.FinMap as finite;
ghost use Rattle.rart_below.specs.Clones.{ClonesEqual};
ghost use Rattle.rart_maps.specs.ChangeLaws.{Decides};
ghost use Rattle.rart_saved.specs.FamilyForms.{content_or, place, places, saved_family, version_behind};
ghost use Rattle.rart_saved.specs.FamilyLoads.{GivesBackFamily, GivesBackFamilyWithin, HasVersionsWithin, LacksFamily, LacksPlace, LacksPlaces, LacksVersionBehind};
ghost use Rattle.rart_saved.specs.Loads.{HasKeysWithin};
ghost use Rattle.rart_saved.specs.Parts.{HasPart};
ghost use Rattle.rart_saved.specs.Refusals.{OnErrWithin, PointsInto};

use crate::error::LoadError;
use crate::families::changing::take_settings;
use crate::families::latest::Latest;
use crate::families::optional::is_there_at;
use crate::head::{family_head_of, take_head};
use crate::loading::{check_sum, push_one};
use crate::numbers::number_at;
use crate::value::SavedValue;
use rart_family::Family;
use rart_versioned::{KeyTrait, VersionedAdaptiveRadixTree};
use std::alloc::Global;

/// The family whose form these bytes are. All others are refused, as `load_slice` does.
///
/// ```
/// let versions: Family<VectorKey, u64> = load_family_slice(alloc, bytes)?;
/// ```
///
/// Each version shares with the one before it what did not change. `Memory` comes where memory was
/// refused, and any other error where the bytes are of no family whose keys this key type admits.
pub fn load_family_slice<K: KeyTrait, V: SavedValue + Eq>(
    alloc: Global,
    bytes: &[u8],
) -> Result<Family<K, V>, LoadError>
    requires clones { ClonesEqual V.is_clone }
    requires decides { Decides V.eq }
    ensures read { IfOk result (λ family. bytes.now
        ≡ saved_family V.written V.eq V.KIND family) }
    ensures gives_back { GivesBackFamily V.written V.eq V.KIND K.MAXIMUM_SIZE result bytes.now }
    ensures points { IfErr result (PointsInto bytes.now) }
{
    read_family(alloc, bytes, None)
}

/// As `load_family_slice`, where no key is longer than a limit.
///
/// ```
/// let versions = load_family_slice_within::<VectorKey, u64>(alloc, bytes, 64)?;
/// ```
///
/// `TooLong` comes at the first key that is longer: of a family's bytes no other error does but
/// `Memory`. So what is read of a stranger's bytes takes stack by the limit alone.
pub fn load_family_slice_within<K: KeyTrait, V: SavedValue + Eq>(
    alloc: Global,
    bytes: &[u8],
    longest: usize,
) -> Result<Family<K, V>, LoadError>
    requires clones { ClonesEqual V.is_clone }
    requires decides { Decides V.eq }
    ensures read { IfOk result (λ family. bytes.now
        ≡ saved_family V.written V.eq V.KIND family) }
    ensures short { IfOk result (HasVersionsWithin (Some longest)) }
    ensures gives_back { GivesBackFamilyWithin V.written V.eq V.KIND (Some longest) K.MAXIMUM_SIZE
        result bytes.now }
    ensures points { IfErr result (PointsInto bytes.now) }
{
    read_family(alloc, bytes, Some(longest))
}

/// The same, where there is a limit. Refused for another reason than memory, the bytes are no such
/// family's.
fn read_family<K: KeyTrait, V: SavedValue + Eq>(
    alloc: Global,
    bytes: &[u8],
    longest: Option<usize>,
) -> Result<Family<K, V>, LoadError>
    requires clones { ClonesEqual V.is_clone }
    requires decides { Decides V.eq }
    ensures read { IfOk result (λ family. bytes.now
        ≡ saved_family V.written V.eq V.KIND family) }
    ensures short { IfOk result (HasVersionsWithin longest) }
    ensures refused { OnErrWithin longest K.MAXIMUM_SIZE result
        (λ most. LacksFamily V.written V.eq most V.KIND bytes.now) }
    ensures points { IfErr result (PointsInto bytes.now) }
{
    let at = take_head(bytes, &family_head_of(V::KIND))?;
    let (count, from) = number_at(bytes, at)?;
    let (versions, end) = take_places(alloc, bytes, from, count, longest)?;
    check_sum(bytes, end)?;
    Ok(Family::from_versions(alloc, versions))
}

/// So many places of a family, whose forms begin at an offset, and the offset behind them.
fn take_places<K: KeyTrait, V: SavedValue + Eq>(
    alloc: Global,
    bytes: &[u8],
    at: usize,
    count: u64,
    longest: Option<usize>,
) -> Result<(Vec<Option<VersionedAdaptiveRadixTree<K, V>>>, usize), LoadError>
    requires clones { ClonesEqual V.is_clone }
    requires decides { Decides V.eq }
    requires inside { at ≤ length bytes.now }
    ensures read { IfOk result (λ found. HasPart bytes.now at
        (places V.written V.eq finite.empty found.0.items) found.1) }
    ensures count { IfOk result (λ found. length found.0.items ≡ count) }
    ensures short { IfOk result (λ found. HasVersionsWithin longest found.0.items) }
    ensures refused { OnErrWithin longest K.MAXIMUM_SIZE result
        (λ most. LacksPlaces V.written V.eq most count (drop at bytes.now)) }
    ensures points { IfErr result (PointsInto bytes.now) }
{
    let mut latest = Latest::new(alloc);
    let mut versions = Vec::new(alloc);
    let mut end = at;
    'placing: for _done in 0..count {
        let (version, behind) = take_place(alloc, bytes, end, longest, &mut latest)?;
        push_one(&mut versions, version)?;
        end = behind;
    }
    Ok((versions, end))
}

/// The version, or none, of the place whose form begins at an offset, and the offset behind it.
fn take_place<K: KeyTrait, V: SavedValue + Eq>(
    alloc: Global,
    bytes: &[u8],
    at: usize,
    longest: Option<usize>,
    latest: &mut Latest<K, V>,
) -> Result<(Option<VersionedAdaptiveRadixTree<K, V>>, usize), LoadError>
    requires clones { ClonesEqual V.is_clone }
    requires decides { Decides V.eq }
    requires inside { at ≤ length bytes.now }
    requires counted { latest.old.keys ≡ finite.len latest.old.tree.content }
    requires room { latest.old.keys ≤ at }
    requires short { HasKeysWithin longest latest.old.tree }
    ensures read { IfOk result (λ found. HasPart bytes.now at
        (place V.written V.eq latest.old.tree.content found.0) found.1) }
    ensures latest { IfOk result (λ found. latest.new.tree.content
        ≡ content_or latest.old.tree.content found.0) }
    ensures counted { OnOk result (latest.new.keys ≡ finite.len latest.new.tree.content) }
    ensures room { IfOk result (λ found. latest.new.keys ≤ found.1) }
    ensures short { IfOk result (λ found. IfSome found.0 (HasKeysWithin longest)) }
    ensures within { OnOk result (HasKeysWithin longest latest.new.tree) }
    ensures refused { OnErrWithin longest K.MAXIMUM_SIZE result
        (λ most. LacksPlace V.written V.eq most latest.old.tree.content (drop at bytes.now)) }
    ensures points { IfErr result (PointsInto bytes.now) }
{
    let is_there = is_there_at(bytes, at)?;
    if !is_there {
        return Ok((None, at + 1));
    }
    let end = take_version(alloc, bytes, at + 1, longest, latest)?;
    let version = latest.tree.clone()?;
    Ok((Some(version), end))
}

/// Makes of the version before it the one whose form begins at an offset, and gives the offset
/// behind it.
fn take_version<K: KeyTrait, V: SavedValue + Eq>(
    alloc: Global,
    bytes: &[u8],
    at: usize,
    longest: Option<usize>,
    latest: &mut Latest<K, V>,
) -> Result<usize, LoadError>
    requires clones { ClonesEqual V.is_clone }
    requires decides { Decides V.eq }
    requires inside { at ≤ length bytes.now }
    requires counted { latest.old.keys ≡ finite.len latest.old.tree.content }
    requires room { latest.old.keys ≤ at }
    requires short { HasKeysWithin longest latest.old.tree }
    ensures read { IfOk result (λ end. HasPart bytes.now at
        (version_behind V.written V.eq latest.old.tree.content latest.new.tree) end) }
    ensures counted { OnOk result (latest.new.keys ≡ finite.len latest.new.tree.content) }
    ensures room { IfOk result (λ end. latest.new.keys ≤ end) }
    ensures short { OnOk result (HasKeysWithin longest latest.new.tree) }
    ensures refused { OnErrWithin longest K.MAXIMUM_SIZE result
        (λ most. LacksVersionBehind V.written V.eq most latest.old.tree.content
        (drop at bytes.now)) }
    ensures points { IfErr result (PointsInto bytes.now) }
{
    let (number, from) = number_at(bytes, at)?;
    let (count, from) = number_at(bytes, from)?;
    let before = latest.tree.clone()?;
    let end = take_settings(alloc, bytes, from, count, longest, &before, latest)?;
    if latest.keys > number {
        return Err(LoadError::Malformed { at });
    }
    latest.tree.set_version(number);
    Ok(end)
}
