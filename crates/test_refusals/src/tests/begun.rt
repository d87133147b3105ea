//! What the calls meet: a version, one that was changed since, and a tracked version of it.
ghost use Rattle.std.specs.Prelude.{IsTrue};
ghost use Rattle.rart_maps.specs.Versions.{HasRoom};

use super::fragile::{Fragile, Fuse};
use rart_changes::TrackedTree;
use rart_family::{KeyTrait, VectorKey, VersionedAdaptiveRadixTree};
use std::alloc::{AllocError, Global};
use std::rc::Rc;

/// A version whose values a fuse can refuse to clone.
pub type Version = VersionedAdaptiveRadixTree<VectorKey, Fragile>;

/// A tracked one.
pub type Tracked = TrackedTree<VectorKey, Fragile>;

/// The keys of the base. The last ones begin each other, so that a walk has many nodes open at a
/// time. The value of each is its place, counted from 1.
pub const BASE: [&[u8]; 8] = [b"ab", b"abc", b"c", b"e", b"ee", b"eee", b"eeee", b"eeeee"];

/// Of the base ours has `d` more and not `c`, and theirs another value at `c` and not `abc`. All
/// nodes that they could share they share.
#[derive(Drop)]
pub struct Begun {
    pub base: Version,
    pub theirs: Version,
    pub ours: Version,
    pub tracked: Tracked,
}

impl Begun {
    /// They are made once more where that is refused.
    pub fn new(alloc: Global, fuse: &Rc<Fuse>) -> Result<Begun, AllocError> {
        match Begun::at_once(alloc, fuse) {
            Ok(begun) => Ok(begun),
            Err(AllocError) => Begun::at_once(alloc, fuse),
        }
    }

    fn at_once(alloc: Global, fuse: &Rc<Fuse>) -> Result<Begun, AllocError> {
        let mut base = Version::new(alloc);
        for (number, bytes) in (1..).zip(BASE) {
            put(alloc, &mut base, bytes, Some(Fragile::new(number, fuse)?))?;
        }
        let mut theirs = base.clone()?;
        put(alloc, &mut theirs, b"c", Some(Fragile::new(5, fuse)?))?;
        put(alloc, &mut theirs, b"abc", None)?;
        let mut tracked = Tracked::begin(alloc, &base)?;
        if has_room(tracked.current()) {
            tracked.insert(key_of(alloc, b"d")?, Fragile::new(9, fuse)?)?;
        }
        if has_room(tracked.current()) {
            tracked.delete(key_of(alloc, b"c")?)?;
        }
        let ours = tracked.current().clone()?;
        Ok(Begun {
            base,
            theirs,
            ours,
            tracked,
        })
    }
}

// Sets a key, or takes it out, where there is room.
fn put(
    alloc: Global,
    version: &mut Version,
    bytes: &[u8],
    value: Option<Fragile>,
) -> Result<(), AllocError> {
    let key = key_of(alloc, bytes)?;
    if has_room(version) {
        match value {
            Some(value) => {
                version.insert(key, value)?;
            }
            None => {
                version.delete(key)?;
            }
        }
    }
    Ok(())
}

/// A key, which is made once more where that is refused.
pub fn key_of(alloc: Global, bytes: &[u8]) -> Result<VectorKey, AllocError> {
    match VectorKey::new_from_slice(alloc, bytes) {
        Ok(key) => Ok(key),
        Err(AllocError) => VectorKey::new_from_slice(alloc, bytes),
    }
}

/// Whether the number can be raised twice.
pub fn has_room(version: &Version) -> bool
    ensures { IsTrue result → HasRoom version.now 2 }
{
    version.version() <= u64::MAX - 2
}

pub fn number_of(value: Option<&Fragile>) -> Option<u64> {
    Some(value?.number())
}
