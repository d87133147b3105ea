// Ported from rart 0.11.0 (Apache-2.0), and rewritten.
//! Changes to slots, each of which holds a child or none.
ghost use Rattle.std.specs.Prelude.{◌≡◌, ◌+◌, ◌<◌, ◌≤◌, ◌∷◌, ◌++◌, Some, None, length, take, drop, insert, remove, slice_set, slice_index_or, option_copied};
ghost use Rattle.rart_below.specs.Layouts.{AreEmpty};

use std::mem;

/// Puts the child into the slot at `place`, before the later ones of the first `len` slots.
pub(crate) fn insert_slot<C: Drop>(slots: &mut [Option<C>], place: usize, len: usize, child: C)
    requires within { place ≤ len }
    requires room { len < length slots.old }
    ensures { slots.new ≡ insert (take len slots.old) place (Some child)
        ++ drop (len + 1) slots.old }
{
    slots[len] = Some(child);
    slots[place..len + 1].rotate_right(1);
}

/// Takes what stands at `place` out of the first `len` slots, of which the last becomes empty.
pub(crate) fn remove_slot<C: Drop>(slots: &mut [Option<C>], place: usize, len: usize) -> Option<C>
    requires within { place < len }
    requires room { len ≤ length slots.old }
    ensures value { result ≡ slice_index_or slots.old place None }
    ensures after { slots.new ≡ remove (take len slots.old) place ++ None ∷ drop len slots.old }
{
    let child = slots[place].take();
    slots[place..len].rotate_left(1);
    child
}

/// Puts the child into the slot, and returns what was there.
pub(crate) fn replace_slot<C>(slots: &mut [Option<C>], place: usize, child: C) -> Option<C>
    requires { place < length slots.old }
    ensures value { result ≡ slice_index_or slots.old place None }
    ensures after { slots.new ≡ slice_set slots.old place (Some child) }
{
    mem::replace(&mut slots[place], Some(child))
}

/// Empties the slot, and returns what was there.
pub(crate) fn take_slot<C>(slots: &mut [Option<C>], place: usize) -> Option<C>
    requires { place < length slots.old }
    ensures value { result ≡ slice_index_or slots.old place None }
    ensures after { slots.new ≡ slice_set slots.old place None }
{
    slots[place].take()
}

/// Empties the slots, where they stand.
pub(crate) fn clear_slots<C: Drop>(slots: &mut [Option<C>])
    ensures { AreEmpty slots.new }
{
    for slot in slots.iter_mut() {
        *slot = None;
    }
}

/// The child in the slot. There is none past the slots.
pub(crate) fn child_in<C>(slots: &[Option<C>], place: usize) -> Option<&C>
    ensures { option_copied result ≡ slice_index_or slots.now place None }
{
    if place < slots.len() {
        slots[place].as_ref()
    } else {
        None
    }
}
