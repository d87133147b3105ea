//! Versions as bytes.
use crate::tests::broken::Broken;
use crate::tests::random::{Random, with_sum};
use rart_saved::{
    ByteString, LoadError, SaveError, SavedValue, load, load_slice, load_slice_within, save,
    save_into, save_slice, saved_len,
};
use rart_versioned::{ArrayKey, KeyTrait, VectorKey, VersionedAdaptiveRadixTree};
use std::alloc::{AllocError, Global};
use std::io;
use std::process::Abort;
use std::test::Fail;

type Tree = VersionedAdaptiveRadixTree<VectorKey, u64>;

/// No pair and number 0. The sum was made by another program, as that of `THREE`.
const EMPTY: [u8; 43] = [
    0x63, 0x6f, 0x6d, 0x66, 0x72, 0x65, 0x79, 1, 1, 0, 0, 0x63, 0xd9, 0xfc, 0xd5, 0x63, 0xfa, 0x59,
    0x68, 0x74, 0x70, 0x84, 0xcf, 0x77, 0xf0, 0x85, 0x0e, 0x7c, 0x82, 0x9c, 0x38, 0x09, 0xd1, 0xb3,
    0x2f, 0x5d, 0x75, 0xd7, 0xd6, 0xbd, 0xd8, 0x62, 0xe0,
];

/// The empty key with 2^64 - 1, `tea` with 300 and `teapot` with 2, at number 3.
const THREE: [u8; 79] = [
    0x63, 0x6f, 0x6d, 0x66, 0x72, 0x65, 0x79, 1, 1, 3, 3, 0, 0, 255, 255, 255, 255, 255, 255, 255,
    255, 0, 3, 0x74, 0x65, 0x61, 0x2c, 1, 0, 0, 0, 0, 0, 0, 3, 3, 0x70, 0x6f, 0x74, 2, 0, 0, 0, 0,
    0, 0, 0, 0xf2, 0x4c, 0x42, 0x9a, 0xda, 0xf7, 0x2d, 0x1d, 0xc4, 0xf5, 0x19, 0xa0, 0x81, 0xe7,
    0xd0, 0xd4, 0x19, 0x9e, 0x6d, 0x2f, 0xd7, 0xc4, 0x5d, 0x03, 0x27, 0xeb, 0xa6, 0x24, 0xd5, 0x1a,
    0x5f, 0x4c,
];

fn three(alloc: Global) -> Result<Tree, AllocError> {
    let mut tree = Tree::new(alloc);
    tree.insert_bytes(b"teapot", 2)?;
    tree.insert_bytes(b"", u64::MAX)?;
    tree.insert_bytes(b"tea", 300)?;
    Ok(tree)
}

/// Whether these bytes are refused, or what was read is saved as them.
fn is_refused_or_saved(alloc: Global, bytes: &[u8]) -> Result<bool, AllocError> {
    match load_slice::<VectorKey, u64>(alloc, bytes) {
        Err(_error) => Ok(true),
        Ok(tree) => Ok(save_slice(alloc, &tree)?.as_slice() == bytes),
    }
}

#[test]
fn files_are_those_of_another_program(rt: HostRuntime) -> Result<(), Fail> {
    let alloc = rt.alloc();
    let empty = save_slice(alloc, &Tree::new(alloc))?;
    assert!(rt; empty.as_slice() == EMPTY.as_slice());
    let bytes = save_slice(alloc, &three(alloc)?)?;
    assert!(rt; bytes.as_slice() == THREE.as_slice());
    Ok(())
}

/// Keys of up to eight bytes, each with the place at which it was put in.
fn many(alloc: Global) -> Result<Tree, AllocError> {
    let mut tree = Tree::new_at(alloc, 1 << 40);
    for i in 0..2000_u64 {
        let bytes = i.wrapping_mul(0x9e37_79b9_7f4a_7c15).to_be_bytes();
        if tree.version() < u64::MAX {
            tree.insert_bytes(&bytes[..(i % 9) as usize], i)?;
        }
    }
    Ok(tree)
}

#[test]
fn trees_come_back(rt: HostRuntime) -> Result<(), Fail> {
    let alloc = rt.alloc();
    let tree = many(alloc)?;
    let bytes = save_slice(alloc, &tree)?;
    let back = load_slice::<VectorKey, u64>(alloc, bytes.as_slice())?;
    assert!(rt; back.version() == tree.version());
    assert!(rt; back.equals(&tree)?);
    assert!(rt; save_slice(alloc, &back)?.as_slice() == bytes.as_slice());
    Ok(())
}

/// `a` with no byte and `abcd` with four, at number 10.
fn two_strings(alloc: Global) -> Result<Vec<u8>, AllocError> {
    let mut tree: VersionedAdaptiveRadixTree<ArrayKey<4>, ByteString> =
        VersionedAdaptiveRadixTree::new_at(alloc, 8);
    tree.insert_bytes(b"a", ByteString::new(alloc, b"")?)?;
    tree.insert_bytes(b"abcd", ByteString::new(alloc, b"two\0")?)?;
    save_slice(alloc, &tree)
}

#[test]
fn byte_strings_come_back(rt: HostRuntime) -> Result<(), Fail> {
    let alloc = rt.alloc();
    let bytes = two_strings(alloc)?;
    let back = load_slice::<ArrayKey<4>, ByteString>(alloc, bytes.as_slice())?;
    assert!(rt; back.version() == 10);
    assert!(rt; save_slice(alloc, &back)?.as_slice() == bytes.as_slice());
    let value = back.get_bytes(b"abcd");
    assert!(rt; value.is_some_and(|value| value.as_slice() == b"two\0".as_slice()));
    Ok(())
}

#[test]
fn other_types_are_refused(rt: HostRuntime) -> Result<(), Fail> {
    let alloc = rt.alloc();
    let bytes = two_strings(alloc)?;
    // (a key of four bytes is too long for this one)
    let narrow = load_slice::<ArrayKey<3>, ByteString>(alloc, bytes.as_slice());
    assert!(rt; matches!(narrow, Err(LoadError::Malformed { at: 15 })));
    let other = load_slice::<ArrayKey<4>, u64>(alloc, bytes.as_slice());
    assert!(rt; matches!(other, Err(LoadError::Malformed { at: 8 })));
    Ok(())
}

/// A flipped bit is refused; of the first bytes and of the sum it is known by which error.
fn assert_flip_is_refused(rt: &impl Abort, alloc: Global, at: usize, bit: u8) {
    let mut bytes = THREE;
    if let Some(byte) = bytes.get_mut(at) {
        *byte ^= bit;
    }
    let answer = load_slice::<VectorKey, u64>(alloc, bytes.as_slice()).err();
    assert!(rt; answer.is_some());
    if at < 7 {
        assert!(rt; answer == Some(LoadError::Malformed { at }));
    } else if at == 7 {
        let format = bytes[7];
        assert!(rt; answer == Some(LoadError::Unsupported { format }));
    } else if at >= 47 {
        assert!(rt; answer == Some(LoadError::Checksum));
    }
}

#[test]
fn each_flipped_bit_is_refused(rt: HostRuntime) -> Result<(), Fail> {
    for at in 0..THREE.len() {
        for bit in [1_u8, 2, 4, 8, 16, 32, 64, 128] {
            assert_flip_is_refused(&rt, rt.alloc(), at, bit);
        }
    }
    Ok(())
}

#[test]
fn each_prefix_is_truncated(rt: HostRuntime) -> Result<(), Fail> {
    let alloc = rt.alloc();
    for count in 0..THREE.len() {
        let answer = load_slice::<VectorKey, u64>(alloc, &THREE[..count]);
        assert!(rt; matches!(answer, Err(LoadError::Truncated)));
    }
    let mut longer = THREE.to_vec(alloc)?;
    longer.push(0)?;
    let answer = load_slice::<VectorKey, u64>(alloc, longer.as_slice());
    assert!(rt; matches!(answer, Err(LoadError::Malformed { at: 79 })));
    Ok(())
}

/// The beginning of a file, and what may be none of it.
fn random_file(alloc: Global, random: &mut Random, round: usize) -> Result<Vec<u8>, AllocError> {
    let mut bytes = THREE[..round % 48].to_vec(alloc)?;
    for _ in 0..round % 61 {
        let byte = random.byte();
        bytes.push(if round % 3 == 0 { byte } else { byte % 4 })?;
    }
    Ok(bytes)
}

#[test]
fn random_files_are_refused(rt: HostRuntime) -> Result<(), Fail> {
    let alloc = rt.alloc();
    let mut random = Random::new(1);
    for round in 0..20_000 {
        let bytes = random_file(alloc, &mut random, round)?;
        assert!(rt; is_refused_or_saved(alloc, bytes.as_slice())?);
    }
    Ok(())
}

/// A file of which two bytes were changed, with a right sum.
fn changed_file(alloc: Global, random: &mut Random) -> Result<Vec<u8>, AllocError> {
    let mut bytes = THREE[..47].to_vec(alloc)?;
    random.change(&mut bytes, 9);
    random.change(&mut bytes, 9);
    with_sum(alloc, bytes.as_slice())
}

#[test]
fn changed_files_with_a_right_sum_are_of_what_is_read(rt: HostRuntime) -> Result<(), Fail> {
    let alloc = rt.alloc();
    let mut random = Random::new(7);
    let mut accepted = 0_usize;
    for _ in 0..20_000_usize {
        let bytes = changed_file(alloc, &mut random)?;
        assert!(rt; is_refused_or_saved(alloc, bytes.as_slice())?);
        if load_slice::<VectorKey, u64>(alloc, bytes.as_slice()).is_ok() {
            accepted = accepted.saturating_add(1);
        }
    }
    assert!(rt; accepted > 1000 && accepted < 19_000);
    Ok(())
}

/// Why bytes are not read as a tree of numbers that have these behind the head.
fn refusal(alloc: Global, behind: &[u8]) -> Result<Option<LoadError>, AllocError> {
    let mut bytes = THREE[..9].to_vec(alloc)?;
    bytes.extend_from_slice(behind)?;
    Ok(load_slice::<VectorKey, u64>(alloc, bytes.as_slice()).err())
}

#[test]
fn each_refusal_tells_its_place(rt: HostRuntime) -> Result<(), Fail> {
    let alloc = rt.alloc();
    // (a number of two groups that fits one, two pairs at number 1, and `a` behind `b`)
    let longer = refusal(alloc, &[128, 0])?;
    assert!(rt; longer == Some(LoadError::Malformed { at: 9 }));
    // (ten groups, each of which says that one more follows)
    let eleven = refusal(alloc, &[255; 10])?;
    assert!(rt; eleven == Some(LoadError::Malformed { at: 18 }));
    let many = refusal(alloc, &[1, 2])?;
    assert!(rt; many == Some(LoadError::Malformed { at: 10 }));
    let back = refusal(alloc, &[2, 2, 0, 1, 98, 7, 0, 0, 0, 0, 0, 0, 0, 0, 1, 97])?;
    assert!(rt; back == Some(LoadError::Malformed { at: 22 }));
    // (of a byte string of five bytes there are two)
    let short = b"comfrey\x01\x02\x01\x01\x00\x01a\x05xy";
    let answer = load_slice::<VectorKey, ByteString>(alloc, short.as_slice());
    assert!(rt; matches!(answer, Err(LoadError::Truncated)));
    Ok(())
}

#[test]
fn versions_are_written_over_a_room(rt: HostRuntime) -> Result<(), Fail> {
    let alloc = rt.alloc();
    let (tree, count) = load_slice_within::<VectorKey, u64>(alloc, THREE.as_slice(), 6)?;
    assert_eq!(rt; saved_len(alloc, &tree, count)?, 79);
    let mut room = [7; 80];
    assert_eq!(rt; save_into(alloc, &tree, count, &mut room)?, 79);
    assert!(rt; room.starts_with(THREE.as_slice()));
    assert!(rt; room.last() == Some(&7));
    assert_eq!(rt; save_into(alloc, &tree, count, &mut [7; 78])?, 79);
    Ok(())
}

#[test]
fn keys_may_have_a_limit(rt: HostRuntime) -> Result<(), Fail> {
    let alloc = rt.alloc();
    let refused = load_slice_within::<VectorKey, u64>(alloc, THREE.as_slice(), 5);
    assert!(rt; matches!(refused, Err(LoadError::TooLong { at: 34 })));
    let (tree, count) = load_slice_within::<VectorKey, u64>(alloc, THREE.as_slice(), 6)?;
    assert_eq!(rt; (tree.version(), count), (3, 3));
    Ok(())
}

#[test]
fn load_errors_say_what_happened(rt: HostRuntime) -> Result<(), Fail> {
    let texts = [
        (LoadError::Io, "reading failed"),
        (LoadError::Memory, "out of memory"),
        (LoadError::Truncated, "the bytes end too early"),
        (
            LoadError::Malformed { at: 9 },
            "what begins at byte 9 stands in no form",
        ),
        (LoadError::Checksum, "the checksum is another one"),
        (
            LoadError::Unsupported { format: 2 },
            "format 2 is not supported",
        ),
        (
            LoadError::TooLong { at: 11 },
            "the key at byte 11 is too long",
        ),
    ];
    for (error, text) in texts {
        assert_eq!(rt; format!(in rt.alloc(); "{error}")?.as_str(), text);
    }
    Ok(())
}

#[test]
fn save_errors_say_what_happened(rt: HostRuntime) -> Result<(), Fail> {
    let (io, memory) = (SaveError::Io, SaveError::Memory);
    let saves = format!(in rt.alloc(); "{io}; {memory}")?;
    assert_eq!(rt; saves.as_str(), "writing failed; out of memory");
    Ok(())
}

#[test]
fn streams_carry_the_same_bytes(rt: HostRuntime) -> Result<(), Fail> {
    let alloc = rt.alloc();
    let tree = three(alloc)?;
    let mut written = Vec::new(alloc);
    save(alloc, &tree, &mut written)?;
    assert!(rt; written.as_slice() == THREE.as_slice());
    let mut reader = written.as_slice();
    let back = load::<VectorKey, u64, &[u8]>(alloc, &mut reader)?;
    assert!(rt; back.equals(&tree)?);
    Ok(())
}

#[test]
fn broken_streams_are_told(rt: HostRuntime) -> Result<(), Fail> {
    let alloc = rt.alloc();
    let tree = three(alloc)?;
    let mut broken = Broken::new(io::ErrorKind::Other);
    assert!(rt; matches!(save(alloc, &tree, &mut broken), Err(SaveError::Io)));
    let answer = load::<VectorKey, u64, Broken>(alloc, &mut broken);
    assert!(rt; matches!(answer, Err(LoadError::Io)));
    assert!(rt; broken.calls == 2);
    let mut full = Broken::new(io::ErrorKind::OutOfMemory);
    let answer = load::<VectorKey, u64, Broken>(alloc, &mut full);
    assert!(rt; matches!(answer, Err(LoadError::Memory)));
    Ok(())
}
