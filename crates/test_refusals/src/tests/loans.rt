// A value is lent also where as many keys are touched as the number says.
use super::begun::{Tracked, Version, has_room, key_of};
use super::fragile::{Fragile, Fuse};
use rart_versioned::Missing;
use std::alloc::{AllocError, Global};
use std::process::Abort;
use std::test::Fail;

// Puts a value in where there was none, and lends it.
fn lend_the_only_value(rt: &impl Abort, alloc: Global) -> Result<(), AllocError> {
    let fuse = Fuse::new(alloc)?;
    let key = key_of(alloc, b"ab")?;
    let value = Fragile::new(3, &fuse)?;
    let mut tracked = Tracked::begin(alloc, &Version::new(alloc))?;
    assert!(rt; has_room(tracked.current()));
    tracked.insert(&key, value)?;
    assert_eq!(rt; tracked.touched_count(), tracked.current().version());
    assert!(rt; has_room(tracked.current()));
    let number = match tracked.value_mut(&key) {
        Ok(lent) => Some(lent.number()),
        Err(Missing::Absent) => None,
        Err(Missing::Memory(refused)) => return Err(refused),
    };
    assert!(rt; number == Some(3));
    Ok(())
}

// All is done once more where a request is refused.
#[test]
fn the_only_value_is_lent(rt: HostRuntime) -> Result<(), Fail> {
    let alloc = rt.alloc();
    if lend_the_only_value(&rt, alloc).is_err() {
        lend_the_only_value(&rt, alloc)?;
    }
    Ok(())
}
