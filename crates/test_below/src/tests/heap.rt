//! Keys and prefixes on the heap, and the plain tree.
use crate::tests::keys::{assert_keys, assert_prefixes};
use rart_below::{AdaptiveRadixTree, KeyTrait, Partial, VectorKey, VectorPartial};
use std::test::Fail;

#[test]
fn heap_keys_and_prefixes_are_made(rt: HostRuntime) -> Result<(), Fail> {
    assert_keys::<VectorKey>(&rt, rt.alloc())?;
    assert_prefixes::<VectorPartial>(&rt, rt.alloc())?;
    Ok(())
}

// At most 22 bytes are in place; 56, 120 and 248 fill a block, and more are in a vector.
#[test]
fn prefixes_are_in_place_and_on_the_heap(rt: HostRuntime) -> Result<(), Fail> {
    let alloc = rt.alloc();
    for count in [0, 16, 17, 22, 23, 56, 57, 120, 121, 248, 249, 300] {
        let bytes = vec![in alloc; 7u8; count]?;
        let prefix = VectorPartial::new_from_slice(alloc, bytes.as_slice())?;
        assert_eq!(rt; prefix.as_ref(), bytes.as_slice(), "of {count} bytes");
        assert_eq!(rt;
            prefix.copy(alloc)?.as_ref(),
            bytes.as_slice(),
            "a copy of {count} bytes"
        );
    }
    Ok(())
}

#[test]
fn prefixes_on_the_heap_are_joined_and_parted(rt: HostRuntime) -> Result<(), Fail> {
    let alloc = rt.alloc();
    let front = VectorPartial::new_from_slice(alloc, b"a room with a view of ")?;
    let back = VectorPartial::new_from_slice(alloc, b"the sea")?;
    let joined = front.partial_extended_with(alloc, &back)?;
    assert_eq!(rt;
        joined.as_ref(),
        b"a room with a view of the sea".as_slice()
    );
    assert_eq!(rt; joined.copy(alloc)?.len(), 29);
    let rest = joined.partial_after(alloc, 2)?;
    assert_eq!(rt; rest.as_ref(), b"room with a view of the sea".as_slice());
    let most = joined.partial_before(alloc, 18)?;
    assert_eq!(rt; most.as_ref(), b"a room with a view".as_slice());
    Ok(())
}

#[test]
fn plain_tree_is_filled(rt: HostRuntime) -> Result<(), Fail> {
    let mut plain: AdaptiveRadixTree<VectorKey, u64> = AdaptiveRadixTree::new(rt.alloc());
    let key = VectorKey::new_from_slice(rt.alloc(), b"b")?;
    assert!(rt; !plain.insert_k(&key, 2)?);
    assert!(rt; plain.insert_k(&key, 4)?);
    assert_eq!(rt; plain.get_k(&key).copied(), Some(4));
    Ok(())
}
