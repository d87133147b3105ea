//! The calls that change many pairs, or answer them.
ghost use Rattle.rart_maps.specs.Versions.{HasRoom};

use super::begun::{Begun, Version, has_room, key_of, number_of};
use super::fragile::{Fragile, Fuse};
use rart_family::VectorKey;
use std::alloc::{AllocError, Global};
use std::rc::Rc;

/// A call on ours, in which `e` has the value 4, and `ee` 5, `eee` 6, `eeee` 7, `eeeee` 8.
#[derive(Clone, Copy)]
pub enum Bulk {
    Extend,
    Retain,
    PrefixSnapshot,
    RemovePrefix,
    TakePrefix,
    RestorePrefix,
    Difference,
    Intersection,
}

impl Bulk {
    /// Makes the call, and answers whether it did what is wanted.
    pub fn make(
        self,
        alloc: Global,
        fuse: &Rc<Fuse>,
        begun: &mut Begun,
    ) -> Result<bool, AllocError> {
        let ours = &mut begun.ours;
        if !has_room(ours) {
            return Ok(false);
        }
        match self {
            Bulk::Extend => extend(ours, pairs(alloc, fuse)?),
            Bulk::Retain => retain(ours),
            Bulk::PrefixSnapshot => {
                let part = ours.prefix_snapshot(b"ee")?;
                Ok(tell(&part) == [None, Some(5), Some(6)])
            }
            Bulk::RemovePrefix => {
                Ok(ours.remove_prefix(b"ee")? && tell(ours) == [Some(4), None, None])
            }
            Bulk::TakePrefix => take(ours),
            Bulk::RestorePrefix => restore(alloc, ours, &begun.base),
            Bulk::Difference => {
                let part = ours.difference(&begun.theirs)?;
                let alone = number_of(part.get_bytes(b"abc"));
                Ok(alone == Some(2) && tell(&part) == [None, None, None])
            }
            Bulk::Intersection => {
                let part = ours.intersection(&begun.theirs)?;
                let alone = number_of(part.get_bytes(b"abc"));
                Ok(alone.is_none() && tell(&part) == [Some(4), Some(5), Some(6)])
            }
        }
    }
}

// The values of `e`, `ee` and `eee`.
fn tell(version: &Version) -> [Option<u64>; 3] {
    [b"e".as_slice(), b"ee", b"eee"].map(|key| number_of(version.get_bytes(key)))
}

// Pairs to put in, which are made once more where that is refused.
fn pairs(alloc: Global, fuse: &Rc<Fuse>) -> Result<Vec<(VectorKey, Fragile)>, AllocError> {
    match pairs_at_once(alloc, fuse) {
        Ok(pairs) => Ok(pairs),
        Err(AllocError) => pairs_at_once(alloc, fuse),
    }
}

fn pairs_at_once(alloc: Global, fuse: &Rc<Fuse>) -> Result<Vec<(VectorKey, Fragile)>, AllocError> {
    let mut pairs = Vec::new(alloc);
    pairs.push((key_of(alloc, b"eee")?, Fragile::new(20, fuse)?))?;
    pairs.push((key_of(alloc, b"ee")?, Fragile::new(21, fuse)?))?;
    Ok(pairs)
}

fn extend(ours: &mut Version, pairs: Vec<(VectorKey, Fragile)>) -> Result<bool, AllocError> {
    if pairs.len() as u64 > u64::MAX - ours.version() {
        return Ok(false);
    }
    ours.extend(pairs)?;
    Ok(tell(ours) == [Some(4), Some(21), Some(20)])
}

fn retain(ours: &mut Version) -> Result<bool, AllocError> {
    if ours.version() > u64::MAX / 2 {
        return Ok(false);
    }
    ours.retain(&mut |_key: &[u8], value: &Fragile| value.number() != 6)?;
    Ok(tell(ours) == [Some(4), Some(5), None])
}

fn take(ours: &mut Version) -> Result<bool, AllocError>
    requires { HasRoom ours.old 2 }
{
    let part = ours.take_prefix(b"ee")?;
    Ok(tell(&part) == [None, Some(5), Some(6)] && tell(ours) == [Some(4), None, None])
}

// The base has `c`, ours has not, and its node is shared. In the base `ee` is below `e`, and in an
// empty version it is not, so that its node is copied with more bytes.
fn restore(alloc: Global, ours: &mut Version, base: &Version) -> Result<bool, AllocError> {
    let mut empty = Version::new(alloc);
    if base.version() > u64::MAX - ours.version().max(empty.version()) {
        return Ok(false);
    }
    empty.restore_prefix(b"ee", base)?;
    ours.restore_prefix(b"c", base)?;
    Ok(number_of(ours.get_bytes(b"c")) == Some(3) && tell(&empty) == [None, Some(5), Some(6)])
}
