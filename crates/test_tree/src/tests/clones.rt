//! How often changes clone values, and that each is dropped: no node is copied for nothing.
//!
//! A change needs a clone of each value in a node on its path that another version shows. Beside
//! these a node that is cut in its prefix is copied, and a removal that merges needs two: the value
//! that goes stands until nothing can be refused, and the merged node has its child's. An update
//! clones the value that it lends.

mod counted;
mod drafts;
mod families;

use crate::tests::clones::counted::Counted;
use rart_versioned::{KeyTrait, Slot, SlotUpdate, VectorKey, VersionedAdaptiveRadixTree};
use std::alloc::{AllocError, Global};
use std::cell::Cell;
use std::process::Abort;
use std::rc::Rc;
use std::test::Fail;

type Tree = VersionedAdaptiveRadixTree<VectorKey, Counted>;

// A change of the key with these bytes.
#[derive(Clone, Copy)]
enum Change {
    Set,
    SetByBytes,
    Replace,
    Remove,
    RemoveByBytes,
    Lend,
    Update,
}

// Makes a change, which succeeds.
fn make(
    rt: &impl Abort,
    tree: &mut Tree,
    change: Change,
    key: VectorKey,
    value: Counted,
) -> Result<(), AllocError> {
    assert!(rt; tree.version() < u64::MAX);
    let is_there = match change {
        Change::Set => !tree.insert(key, value)?,
        Change::SetByBytes => !tree.insert_bytes(&key, value)?,
        Change::Replace => tree.insert_and_replace_bytes(&key, value)?.is_some(),
        Change::Remove => tree.remove(key)?.is_some(),
        Change::RemoveByBytes => tree.remove_bytes(&key)?.is_some(),
        Change::Lend => tree.get_mut(key)?.is_some(),
        Change::Update => tree.update(key, |_slot: &mut Slot<Counted>| SlotUpdate::Keep)?,
    };
    assert!(rt; is_there);
    Ok(())
}

// A change of a key, and how many clones it makes.
type Row<'a> = (Change, &'a [u8], u64);

// Makes changes one after another.
fn assert_clones(
    rt: &impl Abort,
    alloc: Global,
    tree: &mut Tree,
    clones: &Rc<Cell<u64>>,
    rows: &[Row],
) -> Result<(), AllocError> {
    for (change, bytes, wanted) in rows {
        let key = VectorKey::new_from_slice(alloc, bytes)?;
        make(rt, tree, *change, key, Counted::new(1, clones)?)?;
        assert_eq!(rt; clones.replace(0), *wanted, "at {bytes:?}");
    }
    Ok(())
}

// Of these keys each begins the next, but for the last two: leaves of one node.
const FOUR_KEYS: &[Row] = &[
    (Change::Set, b"a", 0),
    (Change::Set, b"ab", 0),
    (Change::Set, b"abc", 0),
    (Change::Set, b"abd", 0),
];

// Whether a clone of the version stays, what is done before it is made, and what behind it.
const CASES: &[(bool, &[Row], &[Row])] = &[
    // (the removal of "a" merges)
    (
        false,
        FOUR_KEYS,
        &[
            (Change::Set, b"abe", 0),
            (Change::Lend, b"abc", 0),
            (Change::Remove, b"abd", 0),
            (Change::Remove, b"a", 2),
            (Change::Remove, b"abc", 0),
        ],
    ),
    (false, FOUR_KEYS, &[(Change::Update, b"abc", 1)]),
    (
        false,
        FOUR_KEYS,
        &[
            (Change::SetByBytes, b"abe", 0),
            (Change::Replace, b"abc", 0),
            (Change::RemoveByBytes, b"abd", 0),
        ],
    ),
    // (the node of "abcd" is cut)
    (
        false,
        &[(Change::Set, b"abcd", 0)],
        &[(Change::Set, b"abxy", 1)],
    ),
    // (the values above: "a" and "ab")
    (
        true,
        FOUR_KEYS,
        &[(Change::Set, b"abe", 2), (Change::Set, b"abf", 0)],
    ),
    (
        true,
        FOUR_KEYS,
        &[
            (Change::SetByBytes, b"abe", 2),
            (Change::Replace, b"abe", 0),
        ],
    ),
    // (and its own)
    (
        true,
        FOUR_KEYS,
        &[(Change::Remove, b"abd", 3), (Change::Remove, b"abc", 1)],
    ),
    (
        true,
        FOUR_KEYS,
        &[(Change::Lend, b"abc", 3), (Change::Lend, b"abc", 0)],
    ),
    // (and once more, into the slot)
    (true, FOUR_KEYS, &[(Change::Update, b"abc", 4)]),
];

fn assert_case(
    rt: &impl Abort,
    alloc: Global,
    clones: &Rc<Cell<u64>>,
    is_shared: bool,
    before: &[Row],
    behind: &[Row],
) -> Result<(), AllocError> {
    let mut tree = Tree::new(alloc);
    assert_clones(rt, alloc, &mut tree, clones, before)?;
    let older = tree.clone()?;
    if !is_shared {
        drop(older);
        return assert_clones(rt, alloc, &mut tree, clones, behind);
    }
    assert_clones(rt, alloc, &mut tree, clones, behind)
}

#[test]
fn changes_clone_as_often_as_told(rt: HostRuntime) -> Result<(), Fail> {
    let clones = Rc::new(rt.alloc(), Cell::new(0))?;
    for (is_shared, before, behind) in CASES {
        assert_case(&rt, rt.alloc(), &clones, *is_shared, before, behind)?;
        assert_eq!(rt; Rc::strong_count(&clones), 1);
    }
    Ok(())
}
