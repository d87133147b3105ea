// Ported from rart 0.11.0 (Apache-2.0), and rewritten.
//! The mapping of width 256: a slot for each byte.
ghost use Rattle.std.specs.Prelude.{◌≡◌, ◌≤◌, ◌⊎◌, ℕ, true, [], None, IsTrue, length, slice_index_or};
ghost use Rattle.rart_below.specs.ByteSets.{has_byte};
ghost use Rattle.rart_below.specs.Children.{children_below, children_from};
ghost use Rattle.rart_below.specs.Layouts.{SameBytes};
ghost use Rattle.rart_below.specs.DirectMapping.{direct_children, direct_in_order};

use super::slot_array::SlotArray;
use super::slots::{clear_slots, replace_slot, take_slot};
use super::{Clear, NodeMapping};
use crate::byte_set::ByteSet;
use std::alloc::AllocError;
use std::array;

/// So many children are dropped by a walk over all slots, fewer by one over their bytes.
const HALF: usize = 128;

/// A mapping of up to 256 children: a slot for each byte, a count, and the bytes that have a child,
/// so that a walk need not go over the free slots.
#[derive(Drop)]
pub struct DirectMapping<C> {
    children: SlotArray<Option<C>, 256>,
    count: usize,
    bytes: ByteSet,
}

impl<C> DirectMapping<C> {
    /// No child.
    pub fn new() -> Self
        ensures order { IsTrue (direct_in_order result) }
        ensures empty { direct_children result ≡ [] }
    {
        DirectMapping {
            children: SlotArray {
                slots: array::from_fn(
                    |_| -> Option<C>
                        ensures { result ≡ None }
                    { None },
                ),
            },
            count: 0,
            bytes: ByteSet::new(),
        }
    }
}

impl<C: Drop> NodeMapping<C> for DirectMapping<C> {
    ghost use Rattle.rart_below.specs.Laws.{direct-ascending, direct-fits};

    ghost children = { direct_children };

    ghost in_order = { direct_in_order };

    ghost width = { 256 };

    ghost left = { children_from };

    ghost before = { children_below };

    fn seek_child(&self, byte: u8) -> Option<&C> {
        self.children.slots[byte as usize].as_ref()
    }

    fn seek_child_mut(&mut self, byte: u8) -> Option<&mut C> {
        self.children.slot_mut(byte as usize).as_mut()
    }

    fn num_children(&self) -> usize {
        self.count
    }

    fn add_child(&mut self, byte: u8, child: C) {
        replace_slot(&mut self.children.slots, byte as usize, child);
        self.count += 1;
        self.bytes.insert(byte);
    }

    fn replace_child(&mut self, byte: u8, child: C) -> C {
        match replace_slot(&mut self.children.slots, byte as usize, child) {
            Some(replaced) => replaced,
            None => unreachable!(),
        }
    }

    fn delete_child(&mut self, byte: u8) -> Option<C> {
        let child = take_slot(&mut self.children.slots, byte as usize)?;
        self.count -= 1;
        self.bytes.remove(byte);
        Some(child)
    }

    fn next_from(&self, from: usize) -> Option<(u8, &C)> {
        let byte = self.bytes.least_from(from)?;
        match &self.children.slots[byte as usize] {
            Some(child) => Some((byte, child)),
            None => unreachable!(),
        }
    }

    #[inline]
    fn cursor_from(&self, least: u8) -> usize {
        usize::from(least)
    }

    // Where nearly all bytes have a child, it is quicker to look at the slot first.
    #[inline(always)]
    fn next_child(&self, from: &mut usize) -> Option<&C> {
        if *from < 256 {
            if let Some(child) = &self.children.slots[*from] {
                *from += 1;
                return Some(child);
            }
        }
        let byte = self.bytes.least_from(*from)?;
        *from = byte as usize + 1;
        self.children.slots[byte as usize].as_ref()
    }

    fn next_entry(&self, from: &mut usize) -> Option<(u8, &C)> {
        let (byte, child) = self.next_from(*from)?;
        *from = usize::from(byte) + 1;
        Some((byte, child))
    }

    #[inline]
    fn cursor_below(&self, end: usize) -> usize {
        end
    }

    fn prev_child(&self, end: &mut usize) -> Option<&C> {
        let byte = self.bytes.greatest_below(*end)?;
        *end = byte as usize;
        self.children.slots[byte as usize].as_ref()
    }

    #[inline]
    fn bytes(&self) -> ByteSet {
        self.bytes.copy()
    }

    ghost ascending = { direct-ascending };

    ghost fits = { direct-fits };
}

impl<C> Clear<C> for DirectMapping<C> {
    ghost slots = { λ mapping. mapping.children.slots };

    ghost children = { direct_children };

    ghost in_order = { direct_in_order };

    fn clear(&mut self)
    where
        C: Drop,
    {
        empty_slots(&mut self.children.slots, self.count, &self.bytes);
        self.count = 0;
        self.bytes = ByteSet::new();
    }
}

/// Empties the slots of these bytes, where they stand; where those are many, all slots.
fn empty_slots<C: Drop>(slots: &mut [Option<C>], many: usize, bytes: &ByteSet)
    requires { 256 ≤ length slots.old }
    ensures { (place : ℕ)
        → (has_byte bytes.now place ≡ true) ⊎ (slice_index_or slots.old place None ≡ None)
        → slice_index_or slots.new place None ≡ None }
{
    if many >= HALF {
        clear_slots(slots);
        return;
    }
    let mut from = 0;
    while let Some(byte) = bytes.least_from(from) {
        slots[byte as usize] = None;
        from = usize::from(byte) + 1;
    }
}

impl<C: Clone + Drop> Clone for DirectMapping<C> {
    ghost is_clone = { λ it copy. SameBytes C.is_clone (direct_children it) (direct_children copy)
        × (direct_in_order copy ≡ direct_in_order it) };

    fn clone(&self) -> Result<Self, AllocError> {
        Ok(DirectMapping {
            children: SlotArray {
                slots: self.children.slots.clone()?,
            },
            count: self.count,
            bytes: self.bytes.copy(),
        })
    }
}
