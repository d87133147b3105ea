//! Families as bytes.
ghost use Rattle.rart_maps.specs.Versions.{HasRoom};

use crate::tests::broken::Broken;
use crate::tests::random::{Random, with_sum};
use rart_family::Family;
use rart_saved::{
    ByteString, LoadError, SaveError, load_family, load_family_slice, load_family_slice_within,
    load_slice, save_family, save_family_slice,
};
use rart_versioned::{ArrayKey, VectorKey, VersionedAdaptiveRadixTree};
use std::alloc::{AllocError, Global};
use std::io;
use std::process::Abort;
use std::test::Fail;

type Tree = VersionedAdaptiveRadixTree<VectorKey, u64>;

type Versions = Family<VectorKey, u64>;

/// No place. The sum was made by another program, as that of `THREE`.
const NONE: [u8; 42] = [
    0x6c, 0x69, 0x6e, 0x65, 0x61, 0x67, 0x65, 1, 1, 0, 0xaa, 4, 0x36, 0x1b, 0x20, 0xca, 0x46, 0x2c,
    0xd3, 0x55, 0x6c, 0x12, 0xce, 0x64, 0xfb, 0xd4, 0xe8, 0x61, 0xce, 0x32, 0xa0, 0x38, 0x1c, 0x4c,
    0x26, 0x1e, 0x7d, 0xf6, 0xe8, 0x51, 0x0e, 0x62,
];

/// The empty key with 2^64 - 1, `tea` with 300 and `teapot` with 2, at number 3; a place that was
/// discarded; the same without the empty key, `tea` with 7 and `tin` with 5, at number 6; and the
/// empty version.
const THREE: [u8; 138] = [
    0x6c, 0x69, 0x6e, 0x65, 0x61, 0x67, 0x65, 1, 1, 4, 1, 3, 3, 0, 0, 1, 255, 255, 255, 255, 255,
    255, 255, 255, 0, 3, 0x74, 0x65, 0x61, 1, 0x2c, 1, 0, 0, 0, 0, 0, 0, 3, 3, 0x70, 0x6f, 0x74, 1,
    2, 0, 0, 0, 0, 0, 0, 0, 0, 1, 6, 3, 0, 0, 0, 0, 3, 0x74, 0x65, 0x61, 1, 7, 0, 0, 0, 0, 0, 0, 0,
    1, 2, 0x69, 0x6e, 1, 5, 0, 0, 0, 0, 0, 0, 0, 1, 0, 3, 0, 3, 0x74, 0x65, 0x61, 0, 3, 3, 0x70,
    0x6f, 0x74, 0, 1, 2, 0x69, 0x6e, 0, 0x33, 0xa1, 0x3f, 0x4d, 0x5e, 0x2f, 0x28, 0x32, 0xd4, 0x22,
    0x45, 0x6d, 0x3a, 0x20, 0xe4, 0xa4, 0xac, 0x8e, 0xc0, 0x28, 0x56, 0x42, 0x87, 0x58, 0x2d, 0x1a,
    0x2c, 0xc0, 0xfa, 0x6a, 0xa7, 0xe3,
];

/// The first place of `THREE`.
fn first(alloc: Global) -> Result<Tree, AllocError> {
    let mut tree = Tree::new(alloc);
    tree.insert_bytes(b"teapot", 2)?;
    tree.insert_bytes(b"", u64::MAX)?;
    tree.insert_bytes(b"tea", 300)?;
    Ok(tree)
}

/// What its third place has of the first.
fn change(tree: &mut Tree) -> Result<(), AllocError>
    requires { HasRoom tree.old 3 }
{
    tree.remove_bytes(b"")?;
    tree.insert_bytes(b"tin", 5)?;
    tree.insert_bytes(b"tea", 7)?;
    Ok(())
}

fn three(rt: &impl Abort, alloc: Global) -> Result<Versions, AllocError> {
    let first = first(alloc)?;
    let mut later = first.clone()?;
    assert!(rt; later.version() == 3);
    change(&mut later)?;
    let mut versions = Vec::new(alloc);
    versions.push(Some(first))?;
    versions.push(None)?;
    versions.push(Some(later))?;
    versions.push(Some(Tree::new(alloc)))?;
    Ok(Family::from_versions(alloc, versions))
}

#[test]
fn files_are_those_of_another_program(rt: HostRuntime) -> Result<(), Fail> {
    let alloc = rt.alloc();
    let none = save_family_slice(alloc, &Versions::new(alloc))?;
    assert!(rt; none.as_slice() == NONE.as_slice());
    let bytes = save_family_slice(alloc, &three(&rt, alloc)?)?;
    assert!(rt; bytes.as_slice() == THREE.as_slice());
    Ok(())
}

/// Whether two places have the same.
fn are_same(one: Option<&Tree>, other: Option<&Tree>) -> Result<bool, AllocError> {
    match (one, other) {
        (None, None) => Ok(true),
        (Some(one), Some(other)) => Ok(one.version() == other.version() && one.equals(other)?),
        _ => Ok(false),
    }
}

/// Sets a key of up to eight bytes, or takes it out.
fn change_one(tree: &mut Tree, i: u64) -> Result<(), AllocError>
    requires { HasRoom tree.old 1 }
{
    let bytes = (i % 700).wrapping_mul(0x9e37_79b9_7f4a_7c15).to_be_bytes();
    let key = &bytes[..(i % 9) as usize];
    if i % 5 == 4 {
        tree.remove_bytes(key)?;
    } else {
        tree.insert_bytes(key, i / 2)?;
    }
    Ok(())
}

/// 60 places, of which one in two was discarded.
fn many(alloc: Global) -> Result<Versions, AllocError> {
    let mut tree = Tree::new_at(alloc, 1 << 40);
    let mut versions = Vec::new(alloc);
    for i in 0..1500_u64 {
        if tree.version() < u64::MAX {
            change_one(&mut tree, i)?;
        }
        if i % 50 == 0 {
            versions.push(Some(tree.clone()?))?;
            versions.push(None)?;
        }
    }
    Ok(Family::from_versions(alloc, versions))
}

#[test]
fn families_come_back(rt: HostRuntime) -> Result<(), Fail> {
    let alloc = rt.alloc();
    let family = many(alloc)?;
    let bytes = save_family_slice(alloc, &family)?;
    let back = load_family_slice::<VectorKey, u64>(alloc, bytes.as_slice())?;
    assert!(rt; back.len() == 60);
    for place in 0..60 {
        assert!(rt; are_same(back.version_at(place), family.version_at(place))?);
    }
    assert!(rt; save_family_slice(alloc, &back)?.as_slice() == bytes.as_slice());
    Ok(())
}

/// A flipped bit is refused, of the sum by its own error.
fn assert_flip_is_refused(rt: &impl Abort, alloc: Global, at: usize, bit: u8) {
    let mut bytes = THREE;
    if let Some(byte) = bytes.get_mut(at) {
        *byte ^= bit;
    }
    let answer = load_family_slice::<VectorKey, u64>(alloc, bytes.as_slice()).err();
    assert!(rt; answer.is_some());
    assert!(rt; at < 106 || answer == Some(LoadError::Checksum));
}

#[test]
fn each_flipped_bit_is_refused(rt: HostRuntime) -> Result<(), Fail> {
    for at in 0..THREE.len() {
        for bit in [1_u8, 2, 4, 8, 16, 32, 64, 128] {
            assert_flip_is_refused(&rt, rt.alloc(), at, bit);
        }
    }
    Ok(())
}

#[test]
fn each_prefix_is_truncated(rt: HostRuntime) -> Result<(), Fail> {
    let alloc = rt.alloc();
    for count in 0..THREE.len() {
        let answer = load_family_slice::<VectorKey, u64>(alloc, &THREE[..count]);
        assert!(rt; matches!(answer, Err(LoadError::Truncated)));
    }
    Ok(())
}

/// The head of a family of numbers, these bytes, and a right sum.
fn closed(alloc: Global, behind: &[u8]) -> Result<Vec<u8>, AllocError> {
    let mut bytes = THREE[..9].to_vec(alloc)?;
    bytes.extend_from_slice(behind)?;
    with_sum(alloc, bytes.as_slice())
}

/// Why bytes are not read as a family of numbers that have these behind the head, and a right sum.
fn refusal(alloc: Global, behind: &[u8]) -> Result<Option<LoadError>, AllocError> {
    let bytes = closed(alloc, behind)?;
    Ok(load_family_slice::<VectorKey, u64>(alloc, bytes.as_slice()).err())
}

/// The same where no key may be longer than this.
fn refusal_within(
    alloc: Global,
    behind: &[u8],
    longest: usize,
) -> Result<Option<LoadError>, AllocError> {
    let bytes = closed(alloc, behind)?;
    Ok(load_family_slice_within::<VectorKey, u64>(alloc, bytes.as_slice(), longest).err())
}

#[test]
fn each_refusal_tells_its_place(rt: HostRuntime) -> Result<(), Fail> {
    for (bytes, at) in REFUSED {
        let refused = refusal(rt.alloc(), bytes)?;
        assert!(rt;
            refused == Some(LoadError::Malformed { at: *at }),
            "at {at}"
        );
    }
    // (two places, each of which has `a` with 7: nothing changed in the second)
    let two = [2, 1, 1, 1, 0, 1, 97, 1, 7, 0, 0, 0, 0, 0, 0, 0, 1, 1, 0];
    assert!(rt; refusal(rt.alloc(), &two)?.is_none());
    Ok(())
}

/// What stands in no form behind the head of a family of numbers, and where.
const REFUSED: &[(&[u8], usize)] = &[
    // (two places, each of which has `a` with 7: in the second it is set to what it has)
    (
        &[
            2, 1, 1, 1, 0, 1, 97, 1, 7, 0, 0, 0, 0, 0, 0, 0, 1, 1, 1, 0, 1, 97, 1, 7, 0, 0, 0, 0,
            0, 0, 0,
        ],
        28,
    ),
    // (`a` taken out where it isn't there)
    (&[1, 1, 0, 1, 0, 1, 97, 0], 13),
    // (one key at number 0)
    (&[1, 1, 0, 1, 0, 1, 97, 1, 7, 0, 0, 0, 0, 0, 0, 0], 11),
    // (marks that say nothing)
    (&[1, 2], 10),
    (&[1, 1, 1, 1, 0, 1, 97, 2], 16),
];

#[test]
fn keys_may_have_a_limit(rt: HostRuntime) -> Result<(), Fail> {
    let alloc = rt.alloc();
    // (`teapot` behind 9 bytes of the head, 4 of counts and the like, 11 of no key, 14 of `tea`)
    let refused = load_family_slice_within::<VectorKey, u64>(alloc, THREE.as_slice(), 5);
    assert!(rt; matches!(refused, Err(LoadError::TooLong { at: 38 })));
    let family = load_family_slice_within::<VectorKey, u64>(alloc, THREE.as_slice(), 6)?;
    assert!(rt; save_family_slice(alloc, &family)?.as_slice() == THREE.as_slice());
    Ok(())
}

#[test]
fn each_key_is_held_to_the_limit(rt: HostRuntime) -> Result<(), Fail> {
    let alloc = rt.alloc();
    // (`a` with 7, and behind it `abc` with 7: its form begins behind 12 bytes of `a` and 3 more)
    let longer = [
        2, 1, 1, 1, 0, 1, 97, 1, 7, 0, 0, 0, 0, 0, 0, 0, 1, 2, 1, 0, 3, 97, 98, 99, 1, 7, 0, 0, 0,
        0, 0, 0, 0,
    ];
    assert!(rt; refusal_within(alloc, &longer, 2)? == Some(LoadError::TooLong { at: 28 }));
    assert!(rt; refusal_within(alloc, &longer, 3)?.is_none());
    // (`ab` taken out where it isn't there: where it is too long, that is told)
    let absent = [1, 1, 0, 1, 0, 2, 97, 98, 0];
    assert!(rt; refusal_within(alloc, &absent, 1)? == Some(LoadError::TooLong { at: 13 }));
    assert!(rt; refusal_within(alloc, &absent, 2)? == Some(LoadError::Malformed { at: 13 }));
    Ok(())
}

#[test]
fn neither_is_read_as_the_other(rt: HostRuntime) -> Result<(), Fail> {
    let alloc = rt.alloc();
    let answer = load_slice::<VectorKey, u64>(alloc, THREE.as_slice());
    assert!(rt; matches!(answer, Err(LoadError::Malformed { at: 0 })));
    let answer = load_family_slice::<VectorKey, ByteString>(alloc, THREE.as_slice());
    assert!(rt; matches!(answer, Err(LoadError::Malformed { at: 8 })));
    // (a key of six bytes is too long for this one)
    let answer = load_family_slice::<ArrayKey<5>, u64>(alloc, THREE.as_slice());
    assert!(rt; matches!(answer, Err(LoadError::Malformed { at: 38 })));
    Ok(())
}

/// A file of which two bytes were changed, with a right sum.
fn changed_file(alloc: Global, random: &mut Random) -> Result<Vec<u8>, AllocError> {
    let mut bytes = THREE[..106].to_vec(alloc)?;
    random.change(&mut bytes, 9);
    random.change(&mut bytes, 9);
    with_sum(alloc, bytes.as_slice())
}

#[test]
fn changed_files_with_a_right_sum_are_of_what_is_read(rt: HostRuntime) -> Result<(), Fail> {
    let alloc = rt.alloc();
    let mut random = Random::new(7);
    let mut accepted = 0_usize;
    for _ in 0..2_000_usize {
        let bytes = changed_file(alloc, &mut random)?;
        if let Ok(family) = load_family_slice::<VectorKey, u64>(alloc, bytes.as_slice()) {
            accepted = accepted.saturating_add(1);
            assert!(rt; save_family_slice(alloc, &family)?.as_slice() == bytes.as_slice());
        }
    }
    assert!(rt; accepted > 100 && accepted < 1_900);
    Ok(())
}

#[test]
fn streams_carry_the_same_bytes(rt: HostRuntime) -> Result<(), Fail> {
    let alloc = rt.alloc();
    let family = three(&rt, alloc)?;
    let mut written = Vec::new(alloc);
    save_family(alloc, &family, &mut written)?;
    assert!(rt; written.as_slice() == THREE.as_slice());
    let mut reader = written.as_slice();
    let back = load_family::<VectorKey, u64, &[u8]>(alloc, &mut reader)?;
    assert!(rt; save_family_slice(alloc, &back)?.as_slice() == THREE.as_slice());
    Ok(())
}

#[test]
fn broken_streams_are_told(rt: HostRuntime) -> Result<(), Fail> {
    let alloc = rt.alloc();
    let family = three(&rt, alloc)?;
    let mut broken = Broken::new(io::ErrorKind::Other);
    assert!(rt; matches!(save_family(alloc, &family, &mut broken), Err(SaveError::Io)));
    let answer = load_family::<VectorKey, u64, Broken>(alloc, &mut broken);
    assert!(rt; matches!(answer, Err(LoadError::Io)));
    Ok(())
}
