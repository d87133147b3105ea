//! A patch and a merge.
ghost use Rattle.std.specs.Prelude.{IfOk, IsTrue, length};
ghost use Rattle.rart_maps.specs.ChangeLists.{changes};
ghost use Rattle.rart_maps.specs.Versions.{HasRoom};

use super::begun::{Begun, Version};
use super::fragile::{Fragile, Fuse};
use rart_changes::Merging;
use rart_family::{KeyTrait, VectorKey, VersionedAdaptiveRadixTree};
use std::alloc::AllocError;
use std::rc::Rc;

// Whether ours has room for the changes of theirs. It is asked once more where it is refused.
fn has_room<K: KeyTrait, V: Clone + Drop + Eq>(
    ours: &VersionedAdaptiveRadixTree<K, V>,
    base: &VersionedAdaptiveRadixTree<K, V>,
    theirs: &VersionedAdaptiveRadixTree<K, V>,
) -> Result<bool, AllocError>
    ensures { IfOk result (λ has. IsTrue has
        → HasRoom ours.now (length (changes V.eq base.now.content theirs.now.content))) }
{
    let left = u128::from(u64::MAX - ours.version());
    match base.diff_count(theirs) {
        Ok(count) => Ok(count <= left),
        Err(AllocError) => Ok(base.diff_count(theirs)? <= left),
    }
}

/// Makes the changes of theirs on ours.
pub fn patch(begun: &mut Begun) -> Result<bool, AllocError> {
    if !has_room(&begun.ours, &begun.base, &begun.theirs)? {
        return Ok(false);
    }
    begun.ours.patch(&begun.base, &begun.theirs)?;
    Ok(true)
}

/// The same, and answers whether the closure was asked at the one conflict.
pub fn merge(fuse: &Rc<Fuse>, begun: &mut Begun) -> Result<bool, AllocError> {
    if !has_room(&begun.ours, &begun.base, &begun.theirs)? {
        return Ok(false);
    }
    let mut asked = 0_u64;
    let mut answer = |_key: &VectorKey, _base: Option<&Fragile>, _our: Option<
        &Fragile,
    >, _their: Option<&Fragile>| -> Option<Fragile> {
        asked = asked.saturating_add(1);
        match Fragile::new(7, fuse) {
            Ok(value) => Some(value),
            Err(_refused) => None,
        }
    };
    begun
        .ours
        .merge_with(&begun.base, &begun.theirs, &mut answer)?;
    Ok(asked == 1)
}
