//! The same of families of versions.
ghost use Rattle.std.specs.Prelude.{◌≡◌, ◌⊎◌, IfErr, IfOk, IfSome, Some};
ghost use Rattle.std.specs.Option.{option_copied};
ghost use Rattle.rart_below.specs.Clones.{ClonesEqual};
ghost use Rattle.rart_maps.specs.ChangeLaws.{Decides};
ghost use Rattle.rart_saved.specs.FamilyFormLaws.{FamiliesAreNoChanges, FamiliesAreNoVersion, FamilyFormsAreOfOne, FamilyFormsStandApart, LimitsAreOfEachVersion};
ghost use Rattle.rart_saved.specs.FamilyForms.{IsFamilyOf};
ghost use Rattle.rart_saved.specs.FamilyLoads.{HasVersionsWithin};
ghost use Rattle.rart_saved.specs.Forms.{IsVersionOf};
ghost use Rattle.rart_saved.specs.WorkedFamilies.{DiscardedPlace, EmptyFamily, OneEmptyVersion, OneOfEachStep};
ghost use Rattle.rart_saved.specs.declared.error.LoadError.TheVariants.{Io, Memory};

use crate::error::LoadError;
use crate::families::loading::{load_family_slice, load_family_slice_within};
use crate::families::saving::save_family_slice;
use crate::streams::load_family;
use crate::value::SavedValue;
use rart_family::Family;
use rart_versioned::{KeyTrait, VersionedAdaptiveRadixTree};
use std::alloc::Global;

/// Families whose bytes are equal are equal, no family's bytes begin another's, and they neither
/// begin nor are begun by those of a version or of a list of changes.
pub fn family_forms_stand_apart<V: SavedValue + Eq>()
    ensures one { FamilyFormsAreOfOne V.written V.eq V.KIND }
    ensures apart { FamilyFormsStandApart V.written V.eq V.KIND }
    ensures version { FamiliesAreNoVersion V.written V.eq V.KIND }
    ensures changes { FamiliesAreNoChanges V.written V.eq V.KIND }
{}

/// Worked forms of families: no place, an empty version, a discarded place, and a version behind
/// another, from which one key was taken out, one put in, one replaced and one left.
pub fn worked_family_forms()
    ensures none { EmptyFamily }
    ensures empty { OneEmptyVersion }
    ensures discarded { DiscardedPlace }
    ensures step { OneOfEachStep }
{}

/// What a load with a limit on keys may refuse as too long: a family one of whose versions has a
/// longer key. A discarded place has no key.
pub fn limits_are_of_each_version<V>()
    ensures { LimitsAreOfEachVersion V }
{}

/// Every family is one that its form gives back.
pub fn families_are_of_trees<K: KeyTrait, V: SavedValue>(family: &Family<K, V>)
    ensures { IsFamilyOf K.MAXIMUM_SIZE family.now }
{
    'knowing: for place in 0..family.len() {
        know_version(family.version_at(place));
    }
}

/// A tree, where there is one, is a version that its form gives back.
fn know_version<K: KeyTrait, V: SavedValue>(version: Option<&VersionedAdaptiveRadixTree<K, V>>)
    ensures { IfSome (option_copied version.entry) (IsVersionOf K.MAXIMUM_SIZE) }
{
    if let Some(version) = version {
        version.know_keys_for_proof();
    }
}

/// What is saved of a family is loaded again, or memory is refused.
pub fn families_are_given_back<K: KeyTrait, V: SavedValue + Eq>(
    alloc: Global,
    family: &Family<K, V>,
) -> Result<Family<K, V>, LoadError>
    requires clones { ClonesEqual V.is_clone }
    requires decides { Decides V.eq }
    ensures same { IfOk result (λ back. back ≡ family.now) }
    ensures memory { IfErr result (λ error. error ≡ Memory) }
{
    families_are_of_trees(family);
    let bytes = save_family_slice(alloc, family)?;
    load_family_slice(alloc, bytes.as_slice())
}

/// The same with a limit on keys: where no key is longer, memory alone may be refused.
pub fn families_are_given_back_within<K: KeyTrait, V: SavedValue + Eq>(
    alloc: Global,
    family: &Family<K, V>,
    longest: usize,
) -> Result<Family<K, V>, LoadError>
    requires clones { ClonesEqual V.is_clone }
    requires decides { Decides V.eq }
    requires within { HasVersionsWithin (Some longest) family.now }
    ensures same { IfOk result (λ back. back ≡ family.now) }
    ensures memory { IfErr result (λ error. error ≡ Memory) }
{
    families_are_of_trees(family);
    let bytes = save_family_slice(alloc, family)?;
    load_family_slice_within(alloc, bytes.as_slice(), longest)
}

/// The same over a stream of these bytes, where reading may fail too.
pub fn families_are_given_back_by_streams<K: KeyTrait, V: SavedValue + Eq>(
    alloc: Global,
    family: &Family<K, V>,
) -> Result<Family<K, V>, LoadError>
    requires clones { ClonesEqual V.is_clone }
    requires decides { Decides V.eq }
    ensures same { IfOk result (λ back. back ≡ family.now) }
    ensures errors { IfErr result (λ error. (error ≡ Memory) ⊎ (error ≡ Io)) }
{
    families_are_of_trees(family);
    let bytes = save_family_slice(alloc, family)?;
    load_family(alloc, &mut bytes.as_slice())
}
