//! Lists of changes as bytes.
ghost use Rattle.rart_maps.specs.Versions.{HasRoom};

use crate::tests::broken::Broken;
use rart_changes::{KeyChange, TrackedTree};
use rart_saved::{
    ByteString, LoadError, SaveError, load_changes, load_changes_slice, load_slice, save_changes,
    save_changes_slice, save_slice,
};
use rart_versioned::{ArrayKey, KeyTrait, VectorKey, VersionedAdaptiveRadixTree};
use std::alloc::{AllocError, Global};
use std::io;
use std::process::Abort;
use std::test::Fail;

type Tree = VersionedAdaptiveRadixTree<VectorKey, u64>;

type Tracked = TrackedTree<VectorKey, u64>;

type Change = KeyChange<VectorKey, u64>;

/// No change. The sum was made by another program, as that of `THREE`.
const NONE: [u8; 42] = [
    0x63, 0x68, 0x61, 0x6e, 0x67, 0x65, 0x73, 1, 1, 0, 0xdd, 0x86, 0xb0, 0x15, 0xc0, 0xb8, 0x9f,
    0x24, 0xc3, 0x98, 0x4f, 0xa1, 0x2b, 0x18, 0x52, 0xb0, 0x50, 0x8c, 0x0d, 0x9f, 0x28, 0x47, 0xad,
    0xa0, 0x4d, 0x21, 0xa8, 0x97, 0x3d, 0x74, 0x5d, 0x97,
];

/// The empty key lost 7, `tea` has 2 in place of 300, and `teapot` is new with 2^64 - 1.
const THREE: [u8; 89] = [
    0x63, 0x68, 0x61, 0x6e, 0x67, 0x65, 0x73, 1, 1, 3, 0, 0, 2, 7, 0, 0, 0, 0, 0, 0, 0, 0, 3, 0x74,
    0x65, 0x61, 3, 0x2c, 1, 0, 0, 0, 0, 0, 0, 2, 0, 0, 0, 0, 0, 0, 0, 3, 3, 0x70, 0x6f, 0x74, 1,
    255, 255, 255, 255, 255, 255, 255, 255, 0x02, 0xd6, 0x26, 0x41, 0x57, 0x6f, 0xc1, 0x75, 0x22,
    0x97, 0x70, 0x0b, 0x18, 0xb2, 0x48, 0xba, 0x72, 0x4c, 0xc8, 0xed, 0x7a, 0xeb, 0x9f, 0xda, 0x35,
    0x79, 0x81, 0x65, 0x43, 0x6c, 0x32, 0xad,
];

fn change(
    alloc: Global,
    key: &[u8],
    before: Option<u64>,
    after: Option<u64>,
) -> Result<Change, AllocError> {
    let key = VectorKey::new_from_slice(alloc, key)?;
    Ok(KeyChange { key, before, after })
}

fn three(alloc: Global) -> Result<Vec<Change>, AllocError> {
    let mut list = Vec::new(alloc);
    list.push(change(alloc, b"", Some(7), None)?)?;
    list.push(change(alloc, b"tea", Some(300), Some(2))?)?;
    list.push(change(alloc, b"teapot", None, Some(u64::MAX))?)?;
    Ok(list)
}

#[test]
fn files_are_those_of_another_program(rt: HostRuntime) -> Result<(), Fail> {
    let alloc = rt.alloc();
    let none: Vec<Change> = Vec::new(alloc);
    let bytes = save_changes_slice(alloc, none.as_slice())?;
    assert!(rt; bytes.as_slice() == NONE.as_slice());
    let bytes = save_changes_slice(alloc, three(alloc)?.as_slice())?;
    assert!(rt; bytes.as_slice() == THREE.as_slice());
    Ok(())
}

/// Sets a key to what it has after its change.
fn make_one(replica: &mut Tree, change: Change) -> Result<bool, AllocError>
    requires { HasRoom replica.old 1 }
{
    match change.after {
        Some(value) => replica.insert(change.key, value),
        None => replica.delete(change.key),
    }
}

fn make(replica: &mut Tree, list: Vec<Change>) -> Result<(), AllocError> {
    for change in list {
        if replica.version() < u64::MAX {
            make_one(replica, change)?;
        }
    }
    Ok(())
}

/// A key of up to eight bytes.
fn key(alloc: Global, i: u64) -> Result<VectorKey, AllocError> {
    let bytes = i.wrapping_mul(0x9e37_79b9_7f4a_7c15).to_be_bytes();
    VectorKey::new_from_slice(alloc, &bytes[..(i % 9) as usize])
}

fn many(alloc: Global) -> Result<Tree, AllocError> {
    let mut tree = Tree::new(alloc);
    for i in 0..500_u64 {
        if tree.version() < u64::MAX {
            tree.insert(key(alloc, i)?, i)?;
        }
    }
    Ok(tree)
}

/// Takes one key in three out, and sets the others.
fn touch_one(tracked: &mut Tracked, key: VectorKey, i: u64) -> Result<bool, AllocError>
    requires { HasRoom tracked.old.current 1 }
{
    if i % 3 == 0 {
        tracked.delete(key)
    } else {
        tracked.insert(key, i / 2)
    }
}

fn touch(alloc: Global, tracked: &mut Tracked) -> Result<(), AllocError> {
    for i in 0..900_u64 {
        let key = key(alloc, i)?;
        if tracked.current().version() < u64::MAX {
            touch_one(tracked, key, i)?;
        }
    }
    Ok(())
}

#[test]
fn replica_makes_what_it_is_sent(rt: HostRuntime) -> Result<(), Fail> {
    let alloc = rt.alloc();
    let tree = many(alloc)?;
    let mut replica = tree.clone()?;
    let mut tracked = Tracked::begin(alloc, &tree)?;
    touch(alloc, &mut tracked)?;
    let bytes = save_changes_slice(alloc, tracked.changes()?.as_slice())?;
    let list = load_changes_slice::<VectorKey, u64>(alloc, bytes.as_slice())?;
    let again = save_changes_slice(alloc, list.as_slice())?;
    assert!(rt; again.as_slice() == bytes.as_slice());
    assert!(rt; !replica.equals(tracked.current())?);
    make(&mut replica, list)?;
    assert!(rt; replica.equals(tracked.current())?);
    Ok(())
}

/// A flipped bit is refused, of the sum by its own error.
fn assert_flip_is_refused(rt: &impl Abort, alloc: Global, at: usize, bit: u8) {
    let mut bytes = THREE;
    if let Some(byte) = bytes.get_mut(at) {
        *byte ^= bit;
    }
    let answer = load_changes_slice::<VectorKey, u64>(alloc, bytes.as_slice()).err();
    assert!(rt; answer.is_some());
    assert!(rt; at < 57 || answer == Some(LoadError::Checksum));
}

#[test]
fn each_flipped_bit_is_refused(rt: HostRuntime) -> Result<(), Fail> {
    for at in 0..THREE.len() {
        for bit in [1_u8, 2, 4, 8, 16, 32, 64, 128] {
            assert_flip_is_refused(&rt, rt.alloc(), at, bit);
        }
    }
    Ok(())
}

#[test]
fn each_prefix_is_truncated(rt: HostRuntime) -> Result<(), Fail> {
    let alloc = rt.alloc();
    for count in 0..THREE.len() {
        let answer = load_changes_slice::<VectorKey, u64>(alloc, &THREE[..count]);
        assert!(rt; matches!(answer, Err(LoadError::Truncated)));
    }
    Ok(())
}

#[test]
fn neither_is_read_as_the_other(rt: HostRuntime) -> Result<(), Fail> {
    let alloc = rt.alloc();
    let answer = load_slice::<VectorKey, u64>(alloc, THREE.as_slice());
    assert!(rt; matches!(answer, Err(LoadError::Malformed { at: 1 })));
    let version = save_slice(alloc, &Tree::new(alloc))?;
    let answer = load_changes_slice::<VectorKey, u64>(alloc, version.as_slice());
    assert!(rt; matches!(answer, Err(LoadError::Malformed { at: 1 })));
    Ok(())
}

#[test]
fn other_types_are_refused(rt: HostRuntime) -> Result<(), Fail> {
    let alloc = rt.alloc();
    let answer = load_changes_slice::<VectorKey, ByteString>(alloc, THREE.as_slice());
    assert!(rt; matches!(answer, Err(LoadError::Malformed { at: 8 })));
    // (a key of six bytes is too long for this one)
    let answer = load_changes_slice::<ArrayKey<5>, u64>(alloc, THREE.as_slice());
    assert!(rt; matches!(answer, Err(LoadError::Malformed { at: 43 })));
    Ok(())
}

/// What stands behind a key says whether it had a value and has one, and is 3 at most.
fn assert_unknown_kind_is_told(rt: &impl Abort, alloc: Global, at: usize) {
    let mut bytes = THREE;
    if let Some(kind) = bytes.get_mut(at) {
        *kind = 4;
    }
    let answer = load_changes_slice::<VectorKey, u64>(alloc, bytes.as_slice()).err();
    assert!(rt; answer == Some(LoadError::Malformed { at }));
}

#[test]
fn unknown_kind_of_change_is_told_where_it_stands(rt: HostRuntime) -> Result<(), Fail> {
    for at in [12, 26, 48] {
        assert_unknown_kind_is_told(&rt, rt.alloc(), at);
    }
    Ok(())
}

#[test]
fn keys_out_of_order_are_refused(rt: HostRuntime) -> Result<(), Fail> {
    let alloc = rt.alloc();
    // (`tea` does not stand behind `teapot`)
    let mut list = three(alloc)?;
    list.push(change(alloc, b"tea", None, None)?)?;
    let bytes = save_changes_slice(alloc, list.as_slice())?;
    let answer = load_changes_slice::<VectorKey, u64>(alloc, bytes.as_slice());
    assert!(rt; matches!(answer, Err(LoadError::Malformed { at: 57 })));
    Ok(())
}

#[test]
fn streams_carry_the_same_bytes(rt: HostRuntime) -> Result<(), Fail> {
    let alloc = rt.alloc();
    let list = three(alloc)?;
    let mut written = Vec::new(alloc);
    save_changes(alloc, list.as_slice(), &mut written)?;
    assert!(rt; written.as_slice() == THREE.as_slice());
    let mut reader = written.as_slice();
    let back = load_changes::<VectorKey, u64, &[u8]>(alloc, &mut reader)?;
    assert!(rt; save_changes_slice(alloc, back.as_slice())?.as_slice() == THREE.as_slice());
    Ok(())
}

#[test]
fn broken_streams_are_told(rt: HostRuntime) -> Result<(), Fail> {
    let alloc = rt.alloc();
    let list = three(alloc)?;
    let mut broken = Broken::new(io::ErrorKind::Other);
    let answer = save_changes(alloc, list.as_slice(), &mut broken);
    assert!(rt; matches!(answer, Err(SaveError::Io)));
    let answer = load_changes::<VectorKey, u64, Broken>(alloc, &mut broken);
    assert!(rt; matches!(answer, Err(LoadError::Io)));
    Ok(())
}
