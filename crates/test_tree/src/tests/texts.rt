//! The texts of errors, and of a tree.
use crate::tests::trees::tree_of;
use rart_versioned::InsertError;
use std::test::Fail;

#[test]
fn refused_insertion_tells_why(rt: HostRuntime) -> Result<(), Fail> {
    let too_long: InsertError<u64> = InsertError::TooLong(7);
    let no_room: InsertError<u64> = InsertError::NoRoom(7);
    let no_memory: InsertError<u64> = InsertError::NoMemory;
    let text = format!(in rt.alloc(); "{too_long}; {no_room}; {no_memory}")?;
    assert_eq!(rt;
        text.as_str(),
        "the key is longer than the tree's keys may be; the number of the tree can't rise; \
        out of memory"
    );
    Ok(())
}

#[test]
fn tree_is_written_as_a_map(rt: HostRuntime) -> Result<(), Fail> {
    let tree = tree_of(&rt, rt.alloc(), &[(b"tea", 300), (b"\xff\"", 2)])?;
    let text = format!(in rt.alloc(); "{tree:?}")?;
    assert_eq!(rt; text.as_str(), "{\"tea\": 300, b\"\\xff\\\"\": 2}");
    Ok(())
}
