// Ported from rart 0.11.0 (Apache-2.0), and rewritten.
//! The mapping of width 4 and 16: bytes in ascending order, with a child beside each.
ghost use Rattle.std.specs.Prelude.{◌≡◌, ◌≤◌, [], None, drop, take, length, IsTrue};
ghost use Rattle.rart_below.specs.ByteSets.{AreBytesOfBoth};
ghost use Rattle.rart_below.specs.Layouts.{SameBytes};
ghost use Rattle.rart_below.specs.SortedKeyedMapping.{sorted_children, sorted_in_order};

use super::ranked_keys::RankedKeys;
use super::slot_array::SlotArray;
use super::slots::{clear_slots, insert_slot, remove_slot, replace_slot, take_slot};
use super::{Clear, NodeMapping};
use crate::byte_set::ByteSet;
use std::alloc::AllocError;
use std::array;

/// A mapping of at most `WIDTH` children: their bytes in ascending order, and the children beside
/// them in the same order.
#[derive(Drop)]
pub struct SortedKeyedMapping<C, const WIDTH: usize> {
    keys: RankedKeys<WIDTH>,
    children: SlotArray<Option<C>, WIDTH>,
}

impl<C, const WIDTH: usize> SortedKeyedMapping<C, WIDTH> {
    /// No child.
    pub fn new() -> Self
        ensures order { IsTrue (sorted_in_order result) }
        ensures empty { sorted_children result ≡ [] }
    {
        SortedKeyedMapping {
            keys: RankedKeys::new(),
            children: SlotArray {
                slots: array::from_fn(|_| None),
            },
        }
    }
}

impl<C: Drop, const WIDTH: usize> SortedKeyedMapping<C, WIDTH> {
    /// The bytes that have a child here and in another mapping, which is asked for each of the few
    /// here.
    #[inline(always)]
    pub fn common_bytes<M: NodeMapping<C>>(&self, other: &M) -> ByteSet
        requires order { IsTrue (sorted_in_order self.now) }
        requires other_order { IsTrue (M.in_order other.now) }
        ensures { AreBytesOfBoth result (sorted_children self.now) (M.children other.now) }
    {
        let mut bytes = ByteSet::new();
        for key in self.keys.as_slice() {
            if other.seek_child(*key).is_some() {
                bytes.insert(*key);
            }
        }
        bytes
    }

    /// Moves the children into another mapping, which is empty and has room for them, in one walk
    /// over the slots. This one is left empty.
    pub fn move_into<M: NodeMapping<C>>(&mut self, to: &mut M)
        requires order { IsTrue (sorted_in_order self.old) }
        requires to_order { IsTrue (M.in_order to.old) }
        requires empty { M.children to.old ≡ [] }
        requires room { length (sorted_children self.old) ≤ M.width }
        ensures order { IsTrue (sorted_in_order self.new) }
        ensures emptied { sorted_children self.new ≡ [] }
        ensures to_order { IsTrue (M.in_order to.new) }
        ensures children { M.children to.new ≡ sorted_children self.old }
    {
        for place in 0..self.keys.len() {
            let Some(child) = take_slot(&mut self.children.slots, place) else {
                unreachable!()
            };
            to.add_child(self.keys.as_slice()[place], child);
        }
        self.keys.clear();
    }
}

impl<C: Drop, const WIDTH: usize> NodeMapping<C> for SortedKeyedMapping<C, WIDTH> {
    ghost use Rattle.rart_below.specs.Laws.{sorted-ascending, sorted-fits};

    ghost children = { sorted_children };

    ghost in_order = { sorted_in_order };

    ghost width = { WIDTH };

    ghost left = { drop };

    ghost before = { take };

    fn seek_child(&self, byte: u8) -> Option<&C> {
        let place = self.keys.place_of(byte)?;
        self.children.slots[place].as_ref()
    }

    fn seek_child_mut(&mut self, byte: u8) -> Option<&mut C> {
        let Some(place) = self.keys.place_of(byte) else {
            return None;
        };
        self.children.slot_mut(place).as_mut()
    }

    fn num_children(&self) -> usize {
        self.keys.len()
    }

    fn add_child(&mut self, byte: u8, child: C) {
        let place = self.keys.rank_of(byte);
        let len = self.keys.count();
        self.keys.insert(place, byte);
        insert_slot(&mut self.children.slots, place, len, child);
    }

    fn replace_child(&mut self, byte: u8, child: C) -> C {
        let Some(place) = self.keys.place_of(byte) else {
            unreachable!()
        };
        match replace_slot(&mut self.children.slots, place, child) {
            Some(replaced) => replaced,
            None => unreachable!(),
        }
    }

    fn delete_child(&mut self, byte: u8) -> Option<C> {
        let place = self.keys.place_of(byte)?;
        let len = self.keys.len();
        self.keys.remove(place);
        remove_slot(&mut self.children.slots, place, len)
    }

    fn next_from(&self, from: usize) -> Option<(u8, &C)> {
        let keys = self.keys.as_slice();
        let place = self.keys.rank_from(from);
        if place < keys.len() {
            match &self.children.slots[place] {
                Some(child) => Some((keys[place], child)),
                None => unreachable!(),
            }
        } else {
            None
        }
    }

    #[inline]
    fn cursor_from(&self, least: u8) -> usize {
        self.keys.rank_of(least)
    }

    // The way from child to child leads over the place alone, not over a search for a byte.
    #[inline(always)]
    fn next_child(&self, from: &mut usize) -> Option<&C> {
        let place = *from;
        if place < self.keys.len() {
            *from = place + 1;
            self.children.slots[place].as_ref()
        } else {
            None
        }
    }

    fn next_entry(&self, from: &mut usize) -> Option<(u8, &C)> {
        let place = *from;
        let keys = self.keys.as_slice();
        if place < keys.len() {
            *from = place + 1;
            match &self.children.slots[place] {
                Some(child) => Some((keys[place], child)),
                None => unreachable!(),
            }
        } else {
            None
        }
    }

    #[inline]
    fn cursor_below(&self, end: usize) -> usize {
        self.keys.rank_from(end)
    }

    #[inline(always)]
    fn prev_child(&self, end: &mut usize) -> Option<&C> {
        let places = self.keys.len().min(*end);
        if places == 0 {
            return None;
        }
        *end = places - 1;
        self.children.slots[places - 1].as_ref()
    }

    #[inline]
    fn bytes(&self) -> ByteSet {
        let mut bytes = ByteSet::new();
        for key in self.keys.as_slice() {
            bytes.insert(*key);
        }
        bytes
    }

    ghost ascending = { sorted-ascending };

    ghost fits = { sorted-fits };
}

impl<C, const WIDTH: usize> Clear<C> for SortedKeyedMapping<C, WIDTH> {
    ghost slots = { λ mapping. mapping.children.slots };

    ghost children = { sorted_children };

    ghost in_order = { sorted_in_order };

    fn clear(&mut self)
    where
        C: Drop,
    {
        clear_slots(&mut self.children.slots);
        self.keys.clear();
    }
}

impl<C: Clone + Drop, const WIDTH: usize> Clone for SortedKeyedMapping<C, WIDTH> {
    ghost is_clone = { λ it copy. SameBytes C.is_clone (sorted_children it) (sorted_children copy)
        × (sorted_in_order copy ≡ sorted_in_order it) };

    fn clone(&self) -> Result<Self, AllocError> {
        let slots = self.children.slots.clone()?;
        Ok(SortedKeyedMapping {
            keys: self.keys.copy(),
            children: SlotArray { slots },
        })
    }
}
