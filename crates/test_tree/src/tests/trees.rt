//! The trees that the tests go over, and numbers that tell which values came.
ghost use Rattle.std.specs.Prelude.{IsTrue};
ghost use Rattle.rart_maps.specs.Versions.{HasRoom};

use rart_versioned::{KeyTrait, VectorKey, VersionedAdaptiveRadixTree};
use std::alloc::{AllocError, Global};
use std::process::Abort;

/// The tree that is called, its keys on the heap.
pub type Tree = VersionedAdaptiveRadixTree<VectorKey, u64>;

/// Whether the number may rise by two.
pub fn has_room(tree: &Tree) -> bool
    ensures { IsTrue result → HasRoom tree.now 2 }
{
    tree.version() < u64::MAX - 1
}

/// The key with these bytes.
pub fn key(alloc: Global, bytes: &[u8]) -> Result<VectorKey, AllocError> {
    VectorKey::new_from_slice(alloc, bytes)
}

// Sets a key that is absent.
fn put(rt: &impl Abort, tree: &mut Tree, bytes: &[u8], value: u64) -> Result<(), AllocError> {
    assert!(rt; has_room(tree));
    assert!(rt; !tree.insert_bytes(bytes, value)?);
    Ok(())
}

/// These keys with these values.
pub fn tree_of(rt: &impl Abort, alloc: Global, pairs: &[(&[u8], u64)]) -> Result<Tree, AllocError> {
    let mut tree = Tree::new(alloc);
    for (bytes, value) in pairs {
        put(rt, &mut tree, bytes, *value)?;
    }
    Ok(tree)
}

/// "a", "abc", "abd" and "b", with 1 to 4.
pub fn four(rt: &impl Abort, alloc: Global) -> Result<Tree, AllocError> {
    tree_of(rt, alloc, &[(b"a", 1), (b"abc", 2), (b"abd", 3), (b"b", 4)])
}

/// 300 keys, each of which begins the next: strings of `a` from the empty one on, each with its
/// length.
pub fn chain(rt: &impl Abort, alloc: Global) -> Result<Tree, AllocError> {
    let mut tree = Tree::new(alloc);
    let mut bytes = Vec::new(alloc);
    for length in 0..300_u64 {
        put(rt, &mut tree, bytes.as_slice(), length)?;
        bytes.push(b'a')?;
    }
    Ok(tree)
}

/// 4096 keys of five bytes, 8 and then a number with its greatest byte first, each with its number:
/// so many fill nodes of every width.
pub fn dense(rt: &impl Abort, alloc: Global) -> Result<Tree, AllocError> {
    let mut tree = Tree::new(alloc);
    for number in 0..4096_u32 {
        let [a, b, c, d] = number.to_be_bytes();
        put(rt, &mut tree, &[8, a, b, c, d], u64::from(number))?;
    }
    Ok(tree)
}

/// What a form of a call gives is what is wanted.
pub fn assert_form(rt: &impl Abort, form: usize, given: u64, wanted: u64) {
    assert_eq!(rt; given, wanted, "form {form}");
}

/// A number that tells which values came and in which order, once this one has come.
pub fn mix(trace: u64, value: u64) -> u64 {
    trace.wrapping_mul(31).wrapping_add(value).wrapping_add(1)
}

/// What `mix` makes of all numbers below this one, in order.
pub fn mixed(end: u64) -> u64 {
    let mut trace = 0;
    for value in 0..end {
        trace = mix(trace, value);
    }
    trace
}
