//! Changes of one key, in each form. A snapshot shares the nodes.
ghost use Rattle.rart_maps.specs.Versions.{HasRoom};

use crate::tests::trees::{Tree, four, has_room, key};
use rart_versioned::{KeyTrait, Refusal, Slot, SlotUpdate, VectorKey, Work};
use std::alloc::{AllocError, Global};
use std::process::Abort;
use std::test::Fail;

// Sets a key to 9: whether a value was replaced.
fn inserted(tree: &mut Tree, form: usize, key: VectorKey) -> Result<bool, AllocError>
    requires { HasRoom tree.old 2 }
{
    match form {
        0 => tree.insert(key, 9),
        1 => tree.insert_k(&key, 9),
        2 => tree.insert_k_counted(&key, 9, &mut Work::new()),
        3 => tree.insert_bytes(key.as_ref(), 9),
        _ => tree.try_insert(&key, 9).or(Err(AllocError)),
    }
}

// Sets a key to 9: the value that was replaced.
fn replaced(tree: &mut Tree, form: usize, key: VectorKey) -> Result<Option<u64>, AllocError>
    requires { HasRoom tree.old 2 }
{
    let work = &mut Work::new();
    match form {
        0 => tree.insert_and_replace(key, 9),
        1 => tree.insert_and_replace_k(&key, 9),
        2 => tree.insert_and_replace_k_counted(&key, 9, work),
        3 => tree.insert_and_replace_bytes(key.as_ref(), 9),
        _ => tree.insert_and_replace_bytes_counted(key.as_ref(), 9, work),
    }
}

// Takes a key out: its value.
fn removed(tree: &mut Tree, form: usize, key: VectorKey) -> Result<Option<u64>, AllocError>
    requires { HasRoom tree.old 2 }
{
    let work = &mut Work::new();
    match form {
        0 => tree.remove(key),
        1 => tree.remove_k(&key),
        2 => tree.remove_k_counted(&key, work),
        3 => tree.remove_bytes(key.as_ref()),
        _ => tree.remove_bytes_counted(key.as_ref(), work),
    }
}

// Takes a key out: whether it was there.
fn deleted(tree: &mut Tree, form: usize, key: VectorKey) -> Result<bool, AllocError>
    requires { HasRoom tree.old 2 }
{
    match form {
        0 => tree.delete(key),
        1 => tree.delete_k(&key),
        _ => tree.delete_k_counted(&key, &mut Work::new()),
    }
}

// Writes 9 over the value that is lent: whether one was.
fn lent(tree: &mut Tree, form: usize, key: VectorKey) -> Result<bool, AllocError>
    requires { HasRoom tree.old 2 }
{
    let was_lent = match form {
        0 => write(tree.get_mut(key)?),
        1 => write(tree.get_mut_k(&key)?),
        _ => write(tree.get_mut_k_counted(&key, &mut Work::new())?),
    };
    Ok(was_lent)
}

fn write(lent: Option<&mut u64>) -> bool {
    match lent {
        Some(value) => {
            *value = 9;
            true
        }
        None => false,
    }
}

// What a callback answers: `Keep`, `Insert` of 9, and `Remove`.
fn told(answer: usize) -> SlotUpdate<u64> {
    match answer {
        0 => SlotUpdate::Keep,
        1 => SlotUpdate::Insert(9),
        _ => SlotUpdate::Remove,
    }
}

// Updates a key by a callback that answers so.
fn updated(tree: &mut Tree, form: usize, key: VectorKey, answer: usize) -> Result<bool, AllocError>
    requires { HasRoom tree.old 2 }
{
    let callback = move |_slot: &mut Slot<u64>| -> SlotUpdate<u64> { told(answer) };
    match form {
        0 => tree.update(key, callback),
        1 => tree.update_k(&key, callback),
        _ => tree.update_k_counted(&key, callback, &mut Work::new()),
    }
}

fn tried(tree: &mut Tree, form: usize, key: VectorKey, answer: usize) -> Result<bool, Refusal<u64>>
    requires { HasRoom tree.old 2 }
{
    let callback = move |_slot: &mut Slot<u64>| -> Result<SlotUpdate<u64>, u64> {
        Ok(told(answer))
    };
    match form {
        0 => tree.try_update(key, callback),
        1 => tree.try_update_k(&key, callback),
        _ => tree.try_update_k_counted(&key, callback, &mut Work::new()),
    }
}

// A kind of change, an update with what its callback answers.
#[derive(Clone, Copy)]
enum Change {
    Insert,
    Replace,
    Remove,
    Delete,
    Lend,
    Update(usize),
    TryUpdate(usize),
}

// Changes a key with the value 2: whether the answer is the right one.
fn is_answered(
    tree: &mut Tree,
    change: Change,
    form: usize,
    key: VectorKey,
) -> Result<bool, AllocError>
    requires { HasRoom tree.old 2 }
{
    match change {
        Change::Insert => inserted(tree, form, key),
        Change::Replace => Ok(replaced(tree, form, key)? == Some(2)),
        Change::Remove => Ok(removed(tree, form, key)? == Some(2)),
        Change::Delete => deleted(tree, form, key),
        Change::Lend => lent(tree, form, key),
        Change::Update(answer) => updated(tree, form, key, answer),
        Change::TryUpdate(answer) => tried(tree, form, key, answer).or(Err(AllocError)),
    }
}

// The answer is the right one, and this is left at "abc".
fn assert_left(rt: &impl Abort, form: usize, answered: bool, tree: &Tree, left: Option<u64>) {
    let is_left = tree.get_bytes(b"abc").copied() == left;
    assert!(rt; answered && is_left, "form {form}");
}

// Changes "abc" of a version whose nodes a snapshot shares.
fn assert_change(
    rt: &impl Abort,
    alloc: Global,
    change: Change,
    form: usize,
    left: Option<u64>,
) -> Result<(), AllocError> {
    let mut tree = four(rt, alloc)?;
    assert!(rt; has_room(&tree));
    let older = tree.snapshot()?;
    let answered = is_answered(&mut tree, change, form, key(alloc, b"abc")?)?;
    assert_left(rt, form, answered, &tree, left);
    assert_left(rt, form, answered, &older, Some(2));
    Ok(())
}

// Each kind, how many forms it has, and what it leaves.
const CHANGES: &[(Change, usize, Option<u64>)] = &[
    (Change::Insert, 5, Some(9)),
    (Change::Replace, 5, Some(9)),
    (Change::Remove, 5, None),
    (Change::Delete, 3, None),
    (Change::Lend, 3, Some(9)),
    (Change::Update(0), 3, Some(2)),
    (Change::Update(1), 3, Some(9)),
    (Change::Update(2), 3, None),
    (Change::TryUpdate(0), 3, Some(2)),
    (Change::TryUpdate(1), 3, Some(9)),
    (Change::TryUpdate(2), 3, None),
];

#[test]
fn each_form_of_each_change_succeeds(rt: HostRuntime) -> Result<(), Fail> {
    for (change, forms, left) in CHANGES {
        for form in 0..*forms {
            assert_change(&rt, rt.alloc(), *change, form, *left)?;
        }
    }
    Ok(())
}
