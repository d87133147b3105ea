// Calls that take no memory make no request at all, also none whose refusal they would forget.
// `checks/refusals` counts the requests of these two tests, which are to be as many.
use super::begun::{Begun, Version, has_room, key_of};
use super::fragile::{Fragile, Fuse};
use rart_family::{KeyTrait, Slot, SlotUpdate, VectorKey, Work};
use rart_versioned::Missing;
use std::alloc::{AllocError, Global};
use std::ops::Bound;
use std::process::Abort;
use std::test::Fail;

// One key that is there, and one that begins none and is begun by none.
fn make_calls(rt: &impl Abort, begun: &mut Begun, present: &VectorKey, absent: &VectorKey) {
    read(rt, &begun.base, &begun.theirs, present, absent);
    change_nothing(rt, &mut begun.ours, absent);
    let tracked = &mut begun.tracked;
    assert!(rt;
        tracked
            .get_counted(present.as_ref(), &mut Work::new())
            .is_some()
    );
    assert!(rt; !tracked.is_touched(present));
    assert!(rt; has_room(tracked.current()));
    assert!(rt;
        matches!(
            tracked.value_mut_counted(absent, &mut Work::new()),
            Err(Missing::Absent)
        )
    );
    assert!(rt; has_room(tracked.current()));
    assert!(rt;
        matches!(
            tracked.remove_counted(absent.as_ref(), &mut Work::new()),
            Ok(None)
        )
    );
    assert!(rt; has_room(tracked.current()));
    assert!(rt; tracked.delete_counted(absent.as_ref(), &mut Work::new()) == Ok(false));
    let keep = |_slot: &mut Slot<Fragile>| SlotUpdate::Keep;
    assert!(rt; has_room(tracked.current()));
    assert!(rt; tracked.update_counted(absent, keep, &mut Work::new()) == Ok(false));
}

fn read(
    rt: &impl Abort,
    base: &Version,
    theirs: &Version,
    present: &VectorKey,
    absent: &VectorKey,
) {
    let mut room = [0; 8];
    let mut shown = 0_u64;
    assert!(rt; base.get_k(present).is_some());
    assert!(rt; base.get_bytes(b"abd").is_none());
    assert!(rt; base.longest_prefix(b"abd").is_some());
    assert!(rt; base.has_within(Bound::Excluded(b"abc"), Bound::Unbounded));
    assert!(rt; base.first_from(Bound::Excluded(b"ab"), &mut room).is_some());
    assert!(rt; base.last_to(Bound::Unbounded, &mut room).is_some());
    assert!(rt; base.contains_prefix(present));
    assert!(rt; !base.contains_prefix(b"abd"));
    assert!(rt; matches!(base.longest_prefix_match_k(absent), Ok(None)));
    base.prefix_match_for_each_k(
        present,
        &mut |_key: &[u8], _value: &Fragile| {
            shown = shown.saturating_add(1);
        },
    );
    assert_eq!(rt; base.intersect_count(theirs), 7);
    base.intersect_values_with(
        theirs,
        &mut |_one: &Fragile, _other: &Fragile| {
            shown = shown.saturating_add(1);
        },
    );
    assert_eq!(rt; shown, 8);
    assert!(rt; has_room(theirs));
    assert!(rt; theirs.intersection(base).is_ok());
}

fn change_nothing(rt: &impl Abort, version: &mut Version, absent: &VectorKey) {
    let remove = |_slot: &mut Slot<Fragile>| SlotUpdate::Remove;
    assert!(rt; has_room(version));
    assert!(rt; matches!(version.get_mut_k(absent), Ok(None)));
    assert!(rt; has_room(version));
    assert!(rt; matches!(version.remove_k(absent), Ok(None)));
    assert!(rt; has_room(version));
    assert!(rt; version.delete_k(absent) == Ok(false));
    assert!(rt; has_room(version));
    assert!(rt; version.update_k(absent, remove) == Ok(false));
    assert!(rt; has_room(version));
    assert!(rt; version.remove_prefix(absent) == Ok(false));
    assert!(rt; has_room(version));
    assert!(rt; version.prefix_snapshot(absent).is_ok());
}

// Makes each call so often.
fn assert_made(rt: &impl Abort, alloc: Global, times: usize) -> Result<(), AllocError> {
    let fuse = Fuse::new(alloc)?;
    let mut begun = Begun::new(alloc, &fuse)?;
    let present = key_of(alloc, b"ab")?;
    let absent = key_of(alloc, b"x")?;
    for _ in 0..times {
        make_calls(rt, &mut begun, &present, &absent);
    }
    Ok(())
}

#[test]
fn memoryless_calls_are_made_once(rt: HostRuntime) -> Result<(), Fail> {
    assert_made(&rt, rt.alloc(), 1)?;
    Ok(())
}

#[test]
fn memoryless_calls_are_made_twice(rt: HostRuntime) -> Result<(), Fail> {
    assert_made(&rt, rt.alloc(), 2)?;
    Ok(())
}
