//! The bytes that each takes in place, for prefixes of at most 16 bytes held inline, or of any
//! length, and values of type `u64`. A node has its mapping on the heap, and a leaf has none.
use rart_below::{ArrPartial, DirectMapping, IndexedMapping, SortedKeyedMapping, VectorPartial};
use rart_node::{NodeRef, VersionedNode};
use std::mem::size_of;
use std::test::Fail;

type Pointer = NodeRef<ArrPartial<16>, u64>;

#[test]
fn nodes_and_their_parts_take_so_many_bytes(rt: HostRuntime) -> Result<(), Fail> {
    for (taken, wanted) in [
        (size_of::<ArrPartial<16>>(), 24),
        (size_of::<VersionedNode<ArrPartial<16>, u64>>(), 56),
        (size_of::<VectorPartial>(), 24),
        (size_of::<VersionedNode<VectorPartial, u64>>(), 56),
        (size_of::<Pointer>(), 8),
        (size_of::<SortedKeyedMapping<Pointer, 4>>(), 72),
        (size_of::<SortedKeyedMapping<Pointer, 16>>(), 280),
        (size_of::<IndexedMapping<Pointer>>(), 1064),
        (size_of::<DirectMapping<Pointer>>(), 4136),
    ] {
        assert_eq!(rt; taken, wanted);
    }
    Ok(())
}
