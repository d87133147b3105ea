//! A tracked version of which hundreds of keys are touched.
ghost use Rattle.std.specs.FinMap as finite;
ghost use Rattle.std.specs.Prelude.{IsTrue};
ghost use Rattle.rart_maps.specs.Versions.{HasRoom};

use crate::tests::trees::{Tree, chain};
use rart_changes::TrackedTree;
use rart_versioned::{KeyTrait, VectorKey};
use std::alloc::{AllocError, Global};
use std::process::Abort;
use std::test::Fail;

type Tracked = TrackedTree<VectorKey, u64>;

fn has_room(tracked: &Tracked) -> bool
    ensures { IsTrue result → HasRoom tracked.now.current 1 }
{
    tracked.current().version() < u64::MAX
}

fn has_room_for(onto: &Tree, tracked: &Tracked) -> bool
    ensures { IsTrue result → HasRoom onto.now (finite.len tracked.now.touched) }
{
    tracked.touched_count() < u64::MAX - onto.version()
}

// Writes 1000 over the value of a key, if it is there.
fn write_over(rt: &impl Abort, tracked: &mut Tracked, key: &VectorKey) -> bool {
    assert!(rt; has_room(tracked));
    match tracked.value_mut(key) {
        Ok(value) => {
            *value = 1000;
            true
        }
        Err(_) => false,
    }
}

// Of each three keys of the chain one is replaced, one taken out, and one written over.
fn touch_all(rt: &impl Abort, alloc: Global, tracked: &mut Tracked) -> Result<(), AllocError> {
    let mut bytes = Vec::new(alloc);
    for length in 0..300_u64 {
        let key = VectorKey::new_from_slice(alloc, bytes.as_slice())?;
        assert!(rt; has_room(tracked));
        let was_there = match length % 3 {
            0 => tracked.insert(&key, 1000)?,
            1 => tracked.delete(&key)?,
            _ => write_over(rt, tracked, &key),
        };
        assert!(rt; was_there, "key {length}");
        bytes.push(b'a')?;
    }
    Ok(())
}

fn assert_changes(rt: &impl Abort, tracked: &Tracked, many: usize) -> Result<(), AllocError> {
    assert_eq!(rt; tracked.changes()?.len(), many);
    Ok(())
}

// On a version without a key, each key that was taken out is as it was.
fn assert_rebased(rt: &impl Abort, alloc: Global, tracked: &mut Tracked) -> Result<(), AllocError> {
    let onto = Tree::new(alloc);
    assert!(rt; has_room_for(&onto, tracked));
    tracked.rebase(&onto)?;
    assert_changes(rt, tracked, 200)?;
    assert_eq!(rt; tracked.current().version(), 200);
    Ok(())
}

#[test]
fn all_of_many_keys_are_touched(rt: HostRuntime) -> Result<(), Fail> {
    let base = chain(&rt, rt.alloc())?;
    let mut tracked = Tracked::begin(rt.alloc(), &base)?;
    touch_all(&rt, rt.alloc(), &mut tracked)?;
    assert_eq!(rt; tracked.touched_count(), 300);
    assert_changes(&rt, &tracked, 300)?;
    assert_rebased(&rt, rt.alloc(), &mut tracked)?;
    Ok(())
}
