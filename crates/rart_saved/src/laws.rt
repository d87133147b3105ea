//! What the forms of versions and of changes fix, and worked forms: laws, each the contract of a
//! function.
ghost use Rattle.std.specs.Prelude.{◌≡◌, ◌≢◌, ◌<◌, ◌⊎◌, IfErr, IfOk, map};
ghost use Rattle.rart_below.specs.Clones.{ClonesEqual};
ghost use Rattle.rart_changes.specs.Shown.{shown_change};
ghost use Rattle.rart_saved.specs.ChangeForms.{IsChangeList};
ghost use Rattle.rart_saved.specs.ChangeFormLaws.{ChangeFormsAreOfOne, ChangeFormsStandApart, ChangesAreNoVersion, NoChange, OneOfEach};
ghost use Rattle.rart_saved.specs.Forms.{IsVersionOf};
ghost use Rattle.rart_saved.specs.SavedLaws.{FormsAreOfOne, FormsStandApart};
ghost use Rattle.rart_saved.specs.declared.error.LoadError.TheVariants.{Io, Memory};
ghost use Rattle.rart_saved.specs.WorkedForms.{NumberOfOneByte, NumberOfTwoBytes, GreatestNumber, NumberAsValue, EmptyVersion, GreatestVersion, EmptyKey, KeysInKeys, SumBehind};

pub mod change_lists;
mod families;

use crate::changes::loading::load_changes_slice;
use crate::changes::saving::save_changes_slice;
use crate::error::LoadError;
use crate::loading::load_slice;
use crate::saving::save_slice;
use crate::streams::{load, load_changes};
use crate::value::{ByteString, SavedValue};
pub use families::{
    families_are_given_back, families_are_given_back_by_streams, families_are_given_back_within,
    families_are_of_trees, family_forms_stand_apart, limits_are_of_each_version,
    worked_family_forms,
};
use rart_changes::KeyChange;
use rart_versioned::{KeyTrait, VersionedAdaptiveRadixTree};
use std::alloc::Global;

/// Versions whose bytes are equal are equal, and no version's bytes begin another's.
pub fn forms_stand_apart<V: SavedValue>()
    ensures one { FormsAreOfOne V.written V.KIND }
    ensures apart { FormsStandApart V.written V.KIND }
{}

/// Lists of changes whose bytes are equal are equal, no list's bytes begin another's, and neither a
/// list's bytes begin a version's nor the other way.
pub fn change_forms_stand_apart<V: SavedValue>()
    ensures one { ChangeFormsAreOfOne V.written V.KIND }
    ensures apart { ChangeFormsStandApart V.written V.KIND }
    ensures version { ChangesAreNoVersion V.written V.KIND }
{}

/// Worked forms of changes: none, and one key inserted, one replaced and one removed.
pub fn worked_change_forms()
    ensures none { NoChange }
    ensures each { OneOfEach }
{}

/// Worked forms: numbers at the ends of what a byte holds, the greatest, and one as a value; the
/// empty version, the greatest number, the empty key, keys that begin one another, empty values,
/// and where the sum stands.
pub fn worked_forms()
    ensures one_byte { NumberOfOneByte }
    ensures two_bytes { NumberOfTwoBytes }
    ensures greatest_number { GreatestNumber }
    ensures as_value { NumberAsValue }
    ensures empty_version { EmptyVersion }
    ensures greatest_version { GreatestVersion }
    ensures empty_key { EmptyKey }
    ensures keys_in_keys { KeysInKeys }
    ensures sum_behind { SumBehind }
{}

/// The kinds of this crate's own values differ, and are below 128, as those of yours aren't.
pub fn own_kinds_are_apart()
    ensures apart { ⟦<u64 as SavedValue>⟧.KIND ≢ ⟦<ByteString as SavedValue>⟧.KIND }
    ensures numbers { ⟦<u64 as SavedValue>⟧.KIND < 128 }
    ensures byte_strings { ⟦<ByteString as SavedValue>⟧.KIND < 128 }
{}

/// Each kind is a byte, so that a file names it whole.
pub fn kinds_are_bytes<V: SavedValue>() -> u8
    ensures kind { result ≡ V.KIND }
    ensures byte { V.KIND < 256 }
{
    V::KIND
}

/// Every tree is a version that its form gives back.
pub fn trees_are_versions<K: KeyTrait, V: SavedValue>(tree: &VersionedAdaptiveRadixTree<K, V>)
    ensures { IsVersionOf K.MAXIMUM_SIZE tree.now }
{
    tree.know_keys_for_proof();
}

/// What is saved is loaded again, or memory is refused.
pub fn forms_are_given_back<K: KeyTrait, V: SavedValue>(
    alloc: Global,
    tree: &VersionedAdaptiveRadixTree<K, V>,
) -> Result<VersionedAdaptiveRadixTree<K, V>, LoadError>
    requires clones { ClonesEqual V.is_clone }
    ensures same { IfOk result (λ back. back ≡ tree.now) }
    ensures memory { IfErr result (λ error. error ≡ Memory) }
{
    trees_are_versions(tree);
    let bytes = save_slice(alloc, tree)?;
    load_slice(alloc, bytes.as_slice())
}

/// The same over a stream of these bytes, where reading may fail too.
pub fn forms_are_given_back_by_streams<K: KeyTrait, V: SavedValue>(
    alloc: Global,
    tree: &VersionedAdaptiveRadixTree<K, V>,
) -> Result<VersionedAdaptiveRadixTree<K, V>, LoadError>
    requires clones { ClonesEqual V.is_clone }
    ensures same { IfOk result (λ back. back ≡ tree.now) }
    ensures errors { IfErr result (λ error. (error ≡ Memory) ⊎ (error ≡ Io)) }
{
    trees_are_versions(tree);
    let bytes = save_slice(alloc, tree)?;
    load(alloc, &mut bytes.as_slice())
}

/// What is saved of changes whose keys ascend is loaded again, or memory is refused.
pub fn changes_are_given_back<K: KeyTrait, V: SavedValue>(
    alloc: Global,
    list: &[KeyChange<K, V>],
) -> Result<Vec<KeyChange<K, V>>, LoadError>
    requires { IsChangeList K.MAXIMUM_SIZE (map (shown_change K.bytes) list.now) }
    ensures same { IfOk result (λ back. map (shown_change K.bytes) back.items
        ≡ map (shown_change K.bytes) list.now) }
    ensures memory { IfErr result (λ error. error ≡ Memory) }
{
    let bytes = save_changes_slice(alloc, list)?;
    load_changes_slice(alloc, bytes.as_slice())
}

/// The same over a stream of these bytes, where reading may fail too.
pub fn changes_are_given_back_by_streams<K: KeyTrait, V: SavedValue>(
    alloc: Global,
    list: &[KeyChange<K, V>],
) -> Result<Vec<KeyChange<K, V>>, LoadError>
    requires { IsChangeList K.MAXIMUM_SIZE (map (shown_change K.bytes) list.now) }
    ensures same { IfOk result (λ back. map (shown_change K.bytes) back.items
        ≡ map (shown_change K.bytes) list.now) }
    ensures errors { IfErr result (λ error. (error ≡ Memory) ⊎ (error ≡ Io)) }
{
    let bytes = save_changes_slice(alloc, list)?;
    load_changes(alloc, &mut bytes.as_slice())
}
