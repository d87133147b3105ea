//! A family of versions is written as bytes.
ghost use Rattle.std.specs.Prelude.{◌≡◌, ◌++◌, IfOk, OnOk};
ghost use Rattle.std.specs.Option.{option_copied};
ghost use Rattle.rart_saved.specs.FamilyForms.{place, saved_family, version_behind};

use crate::families::listing::list_settings;
use crate::head::family_head_of;
use crate::numbers::put_number;
use crate::sink::Sink;
use crate::value::SavedValue;
use rart_family::Family;
use rart_versioned::{KeyTrait, VersionedAdaptiveRadixTree};
use std::alloc::{AllocError, Global};

/// A family as bytes: its first version whole, and each later one as its number and what changed
/// from the one before it. They are of the maps, the numbers and the places alone.
///
/// ```
/// let bytes = save_family_slice(alloc, &versions)?;
/// ```
///
/// A version that has little in common with the one before it takes bytes for each key at which
/// they differ.
pub fn save_family_slice<K: KeyTrait, V: SavedValue + Eq>(
    alloc: Global,
    family: &Family<K, V>,
) -> Result<Vec<u8>, AllocError>
    ensures { IfOk result (λ bytes. bytes.items
        ≡ saved_family V.written V.eq V.KIND family.now) }
{
    let empty = VersionedAdaptiveRadixTree::new(alloc);
    let mut before = &empty;
    let mut bytes = Vec::new(alloc);
    bytes.extend_from_slice(&family_head_of(V::KIND))?;
    put_number(&mut bytes, family.len() as u64)?;
    'placing: for place in 0..family.len() {
        let version = family.version_at(place);
        put_place(alloc, &mut bytes, before, version)?;
        before = version.unwrap_or(before);
    }
    bytes.put_sum()?;
    Ok(bytes)
}

/// What is at a place, behind the last version before it. Refused for memory, some of its bytes may
/// be there.
fn put_place<K: KeyTrait, V: SavedValue + Eq>(
    alloc: Global,
    out: &mut Vec<u8>,
    before: &VersionedAdaptiveRadixTree<K, V>,
    version: Option<&VersionedAdaptiveRadixTree<K, V>>,
) -> Result<(), AllocError>
    ensures { OnOk result (out.new.items ≡ out.old.items
        ++ place V.written V.eq before.now.content (option_copied version.entry)) }
{
    let Some(version) = version else {
        out.push(0)?;
        return Ok(());
    };
    out.push(1)?;
    put_version(alloc, out, before, version)?;
    Ok(())
}

/// A version behind the one before it. Refused for memory, some of its bytes may be there.
fn put_version<K: KeyTrait, V: SavedValue + Eq>(
    alloc: Global,
    out: &mut Vec<u8>,
    before: &VersionedAdaptiveRadixTree<K, V>,
    version: &VersionedAdaptiveRadixTree<K, V>,
) -> Result<(), AllocError>
    ensures { OnOk result (out.new.items ≡ out.old.items
        ++ version_behind V.written V.eq before.now.content version.now) }
{
    let settings = list_settings(alloc, before, version)?;
    put_number(out, version.version())?;
    put_number(out, settings.count)?;
    out.extend_from_slice(settings.bytes.as_slice())?;
    Ok(())
}
