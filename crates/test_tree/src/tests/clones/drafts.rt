//! The same of a tracked version. What its base shows is copied once; what it alone has is not.
ghost use Rattle.std.specs.Prelude.{IsTrue};
ghost use Rattle.rart_maps.specs.Versions.{HasRoom};

use super::counted::Counted;
use super::{Change, Row, Tree};
use rart_changes::TrackedTree;
use rart_versioned::{KeyTrait, Slot, SlotUpdate, VectorKey};
use std::alloc::{AllocError, Global};
use std::cell::Cell;
use std::process::Abort;
use std::rc::Rc;
use std::test::Fail;

type Draft = TrackedTree<VectorKey, Counted>;

fn has_room(draft: &Draft) -> bool
    ensures { IsTrue result → HasRoom draft.now.current 1 }
{
    draft.current().version() < u64::MAX
}

// Makes a change, which succeeds.
fn make(
    rt: &impl Abort,
    draft: &mut Draft,
    change: Change,
    key: &VectorKey,
    value: Counted,
) -> Result<(), AllocError> {
    assert!(rt; has_room(draft));
    let is_there = match change {
        Change::Set | Change::SetByBytes => !draft.insert(key, value)?,
        Change::Replace => draft.insert_and_replace(key, value)?.is_some(),
        Change::Remove | Change::RemoveByBytes => draft.remove(key)?.is_some(),
        Change::Lend => draft.value_mut(key).is_ok(),
        Change::Update => draft.update(key, |_slot: &mut Slot<Counted>| SlotUpdate::Keep)?,
    };
    assert!(rt; is_there);
    Ok(())
}

// Of the base's keys: "a", "ab", "abc" and "abd" (the leaves of one node).
const KEYS: &[&[u8]] = &[b"a", b"ab", b"abc", b"abd"];

// The first copies "a" and "ab", a change of "abc" or "abd" that leaf too. An update clones the
// value that it lends.
const ROWS: &[Row] = &[
    (Change::Set, b"abe", 2),
    (Change::Set, b"abf", 0),
    (Change::Remove, b"abf", 0),
    (Change::Lend, b"abc", 1),
    (Change::Lend, b"abc", 0),
    (Change::Update, b"abc", 1),
    (Change::Update, b"abd", 2),
];

fn base_of(rt: &impl Abort, alloc: Global, clones: &Rc<Cell<u64>>) -> Result<Tree, AllocError> {
    let mut base = Tree::new(alloc);
    for bytes in KEYS {
        let key = VectorKey::new_from_slice(alloc, bytes)?;
        assert!(rt; base.version() < u64::MAX);
        base.insert(key, Counted::new(1, clones)?)?;
    }
    Ok(base)
}

#[test]
fn tracked_changes_clone_as_often_as_told(rt: HostRuntime) -> Result<(), Fail> {
    let alloc = rt.alloc();
    let clones = Rc::new(alloc, Cell::new(0))?;
    let base = base_of(&rt, alloc, &clones)?;
    let mut draft = Draft::begin(alloc, &base)?;
    for (change, bytes, wanted) in ROWS {
        let key = VectorKey::new_from_slice(alloc, bytes)?;
        make(&rt, &mut draft, *change, &key, Counted::new(2, &clones)?)?;
        assert_eq!(rt; clones.replace(0), *wanted, "at {bytes:?}");
    }
    Ok(())
}
