//! What changed from one version to the next is read, and made.
ghost use Rattle.std.specs.Prelude.{◌≡◌, ◌≤◌, ◌++◌, [], true, Option, IfErr, IfOk, IsTrue, OnOk, drop, length, map};
ghost use Rattle.std.specs.FinMap as finite;
ghost use Rattle.rart_below.specs.Bytes.{IsAdmitted};
ghost use Rattle.rart_below.specs.Clones.{ClonesEqual};
ghost use Rattle.rart_maps.specs.ChangeLaws.{Decides};
ghost use Rattle.rart_maps.specs.ChangeLists.{changes, differ};
ghost use Rattle.rart_maps.specs.Lookups.{with_value};
ghost use Rattle.rart_maps.specs.Versions.{value_at};
ghost use Rattle.rart_saved.specs.FamilyForms.{as_setting, optional};
ghost use Rattle.rart_saved.specs.FamilyLoads.{LacksSetting, LacksSettings};
ghost use Rattle.rart_saved.specs.Forms.{entries, entry};
ghost use Rattle.rart_saved.specs.Keys.{IsNext};
ghost use Rattle.rart_saved.specs.Loads.{HasKeysWithin};
ghost use Rattle.rart_saved.specs.Parts.{HasPart};
ghost use Rattle.rart_saved.specs.Refusals.{OnErrWithin, PointsInto};

use crate::entries::take_entry;
use crate::error::LoadError;
use crate::families::latest::Latest;
use crate::value::SavedValue;
use rart_maps::do_differ;
use rart_versioned::{KeyTrait, VersionedAdaptiveRadixTree};
use std::alloc::Global;

/// Makes so many changes, whose forms begin at an offset, and gives the offset behind them. They
/// are what changes from the version before to the one that they lead to.
pub(crate) fn take_settings<K: KeyTrait, V: SavedValue + Eq>(
    alloc: Global,
    bytes: &[u8],
    at: usize,
    count: u64,
    longest: Option<usize>,
    before: &VersionedAdaptiveRadixTree<K, V>,
    latest: &mut Latest<K, V>,
) -> Result<usize, LoadError>
    requires clones { ClonesEqual V.is_clone }
    requires decides { Decides V.eq }
    requires inside { at ≤ length bytes.now }
    requires begins { latest.old.tree.content ≡ before.now.content }
    requires short { HasKeysWithin longest before.now }
    requires counted { latest.old.keys ≡ finite.len latest.old.tree.content }
    requires room { latest.old.keys ≤ at }
    ensures read { IfOk result (λ end. HasPart bytes.now at (entries (optional V.written) []
        (map as_setting (changes V.eq before.now.content latest.new.tree.content))) end) }
    ensures count { OnOk result
        (length (changes V.eq before.now.content latest.new.tree.content) ≡ count) }
    ensures counted { OnOk result (latest.new.keys ≡ finite.len latest.new.tree.content) }
    ensures room { IfOk result (λ end. latest.new.keys ≤ end) }
    ensures short { OnOk result (HasKeysWithin longest latest.new.tree) }
    ensures refused { OnErrWithin longest K.MAXIMUM_SIZE result
        (λ most. LacksSettings V.written V.eq most before.now.content count (drop at bytes.now)) }
    ensures points { IfErr result (PointsInto bytes.now) }
{
    before.know_keys_for_proof();
    let mut key = Vec::new(alloc);
    let mut end = at;
    'taking: for done in 0..count {
        end = take_setting(
            alloc,
            bytes,
            end,
            longest,
            done == 0,
            &mut key,
            before,
            latest,
        )?;
    }
    Ok(end)
}

/// Makes the change whose form begins at an offset, its key read into the one before, and gives the
/// offset behind it.
fn take_setting<K: KeyTrait, V: SavedValue + Eq>(
    alloc: Global,
    bytes: &[u8],
    at: usize,
    longest: Option<usize>,
    is_first: bool,
    key: &mut Vec<u8>,
    before: &VersionedAdaptiveRadixTree<K, V>,
    latest: &mut Latest<K, V>,
) -> Result<usize, LoadError>
    requires clones { ClonesEqual V.is_clone }
    requires inside { at ≤ length bytes.now }
    requires first { is_first ≡ true → key.old.items ≡ [] }
    requires counted { latest.old.keys ≡ finite.len latest.old.tree.content }
    requires room { latest.old.keys ≤ at }
    ensures read { IfOk result (λ end. (now : Option V)
        × HasPart bytes.now at
        (entry (optional V.written) key.old.items (key.new.items, now)) end
        × IsTrue (differ V.eq (value_at before.now key.new.items) now)
        × (latest.new.tree.content ≡ with_value latest.old.tree.content key.new.items now)) }
    ensures next { OnOk result (IsNext is_first key.old.items key.new.items) }
    ensures short { OnOk result (IsAdmitted longest (length key.new.items)) }
    ensures counted { OnOk result (latest.new.keys ≡ finite.len latest.new.tree.content) }
    ensures room { IfOk result (λ end. latest.new.keys ≤ end) }
    ensures refused { OnErrWithin longest K.MAXIMUM_SIZE result
        (λ most. LacksSetting V.written V.eq most before.now.content is_first key.old.items
        (drop at bytes.now)) }
    ensures points { IfErr result (PointsInto bytes.now) }
{
    let (now, end) = take_entry::<K, Option<V>>(alloc, bytes, at, longest, is_first, key)?;
    if !do_differ(before.get_bytes(key.as_slice()), now.as_ref()) {
        return Err(LoadError::Malformed { at });
    }
    latest.put(key.as_slice(), now)?;
    Ok(end)
}
