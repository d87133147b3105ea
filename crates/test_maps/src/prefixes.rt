//! What stands under a prefix of a tree, beside that of its map: kept, taken out, both, and put in
//! place of what another one has there.
ghost use Rattle.std.specs.Prelude.{IsTrue};
ghost use Rattle.rart_maps.specs.Versions.{HasRoom};

use crate::draw::{below, key};
use crate::version::{Tree, Version};
use rand_pcg::Pcg32;
use rart_versioned::{KeyTrait, Work};
use std::alloc::{AllocError, Global};

/// Whether the calls on a prefix that is drawn make of a version what is to be made of its map, and
/// leave a copy of it alone.
pub fn prefixes_agree(
    words: &mut Pcg32,
    alloc: Global,
    version: &Version,
) -> Result<bool, AllocError> {
    let prefix = key(words, alloc)?;
    let prefix = prefix.as_ref();
    let counts = below(words, 2) == 0;
    let mut rest = version.copy()?;
    let mut giver = version.copy()?;
    if !(has_room(&version.tree) && has_room(&rest.tree) && has_room(&giver.tree)) {
        return Ok(false);
    }
    let under = version.under(kept(&version.tree, prefix, counts)?, prefix)?;
    let was_there = removed(&mut rest.tree, prefix, counts)?;
    rest.take_out(prefix)?;
    let taken = version.under(taken(&mut giver.tree, prefix, counts)?, prefix)?;
    giver.take_out(prefix)?;
    Ok(
        was_there != under.map.is_empty()
            && under.agrees()
            && rest.agrees()
            && taken.agrees()
            && giver.agrees()
            && version.agrees(),
    )
}

fn kept(tree: &Tree, prefix: &[u8], counts: bool) -> Result<Tree, AllocError>
    requires { HasRoom tree.now 1 }
{
    if counts {
        return tree.prefix_snapshot_counted(prefix, &mut Work::new());
    }
    tree.prefix_snapshot(prefix)
}

fn removed(tree: &mut Tree, prefix: &[u8], counts: bool) -> Result<bool, AllocError>
    requires { HasRoom tree.old 1 }
{
    if counts {
        return tree.remove_prefix_counted(prefix, &mut Work::new());
    }
    tree.remove_prefix(prefix)
}

fn taken(tree: &mut Tree, prefix: &[u8], counts: bool) -> Result<Tree, AllocError>
    requires { HasRoom tree.old 1 }
{
    if counts {
        return tree.take_prefix_counted(prefix, &mut Work::new());
    }
    tree.take_prefix(prefix)
}

// Whether the number may rise.
fn has_room(tree: &Tree) -> bool
    ensures { IsTrue result → HasRoom tree.now 1 }
{
    tree.version() < u64::MAX
}

/// Whether a copy of a version gets from another one what that one's map has under a prefix that is
/// drawn, and leaves both alone. Restored from the version, it is as before.
pub fn restored_agree(
    words: &mut Pcg32,
    alloc: Global,
    version: &Version,
    other: &Version,
) -> Result<bool, AllocError> {
    let prefix = key(words, alloc)?;
    let prefix = prefix.as_ref();
    let length = prefix.len().min(below(words, 4) as usize);
    let prefix = &prefix[..length];
    let counts = below(words, 2) == 0;
    let mut changed = version.copy()?;
    for from in [other, version] {
        if !has_room_for(&changed.tree, &from.tree) {
            return Ok(false);
        }
        restored(&mut changed.tree, prefix, &from.tree, counts)?;
        changed.take_over(from, prefix)?;
        if !(changed.agrees() && version.agrees() && other.agrees()) {
            return Ok(false);
        }
    }
    Ok(true)
}

fn restored(tree: &mut Tree, prefix: &[u8], from: &Tree, counts: bool) -> Result<(), AllocError>
    requires { HasRoom tree.old from.now.number }
{
    if counts {
        return tree.restore_prefix_counted(prefix, from, &mut Work::new());
    }
    tree.restore_prefix(prefix, from)
}

// Whether the number may rise by another tree's.
fn has_room_for(tree: &Tree, from: &Tree) -> bool
    ensures { IsTrue result → HasRoom tree.now from.now.number }
{
    tree.version() <= u64::MAX - from.version()
}
