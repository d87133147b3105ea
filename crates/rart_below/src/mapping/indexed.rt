// Ported from rart 0.11.0 (Apache-2.0), and rewritten.
//! The mapping of width 48: an index from each byte to its slot.
ghost use Rattle.std.specs.Prelude.{◌≡◌, ◌≤◌, [], None, length, IsTrue};
ghost use Rattle.rart_below.specs.Children.{children_below, children_from};
ghost use Rattle.rart_below.specs.Layouts.{SameBytes};
ghost use Rattle.rart_below.specs.IndexedMapping.{indexed_children, indexed_in_order};

use super::slot_array::SlotArray;
use super::slots::{child_in, clear_slots, replace_slot, take_slot};
use super::{Clear, NodeMapping};
use crate::byte_set::ByteSet;
use std::alloc::AllocError;
use std::array;

/// An entry of the index that names no slot, as each does that is not below the number of slots.
const NO_SLOT: u8 = 48;

/// A mapping of up to 48 children: an index that gives each byte's slot, the slots, one bit for
/// each slot, which is set where the slot is in use, and the bytes that have a child, so that a
/// walk need not go over the index.
#[derive(Drop)]
pub struct IndexedMapping<C> {
    index: [u8; 256],
    children: SlotArray<Option<C>, 48>,
    used: u64,
    bytes: ByteSet,
}

impl<C> IndexedMapping<C> {
    /// No child.
    pub fn new() -> Self
        ensures order { IsTrue (indexed_in_order result) }
        ensures empty { indexed_children result ≡ [] }
    {
        IndexedMapping {
            index: [NO_SLOT; 256],
            children: SlotArray {
                slots: array::from_fn(
                    |_| -> Option<C>
                        ensures { result ≡ None }
                    { None },
                ),
            },
            used: 0,
            bytes: ByteSet::new(),
        }
    }
}

impl<C: Drop> IndexedMapping<C> {
    /// Moves the children into another mapping, which is empty and has room for them, in one walk
    /// over the index. This one is left empty.
    pub fn move_into<M: NodeMapping<C>>(&mut self, to: &mut M)
        requires order { IsTrue (indexed_in_order self.old) }
        requires to_order { IsTrue (M.in_order to.old) }
        requires empty { M.children to.old ≡ [] }
        requires room { length (indexed_children self.old) ≤ M.width }
        ensures order { IsTrue (indexed_in_order self.new) }
        ensures emptied { indexed_children self.new ≡ [] }
        ensures to_order { IsTrue (M.in_order to.new) }
        ensures children { M.children to.new ≡ indexed_children self.old }
    {
        let mut least = 0;
        while let Some((byte, _)) = self.next_from(least) {
            let Some(child) = self.delete_child(byte) else {
                unreachable!()
            };
            to.add_child(byte, child);
            least = byte as usize + 1;
        }
    }
}

impl<C: Drop> NodeMapping<C> for IndexedMapping<C> {
    ghost use Rattle.rart_below.specs.Laws.{indexed-ascending, indexed-fits};

    ghost children = { indexed_children };

    ghost in_order = { indexed_in_order };

    ghost width = { 48 };

    ghost left = { children_from };

    ghost before = { children_below };

    fn seek_child(&self, byte: u8) -> Option<&C> {
        child_in(&self.children.slots, self.index[byte as usize] as usize)
    }

    fn seek_child_mut(&mut self, byte: u8) -> Option<&mut C> {
        let place = self.index[byte as usize];
        if place >= NO_SLOT {
            return None;
        }
        self.children.slot_mut(place as usize).as_mut()
    }

    fn num_children(&self) -> usize {
        self.used.count_ones() as usize
    }

    fn add_child(&mut self, byte: u8, child: C) {
        let place = self.used.trailing_ones();
        replace_slot(&mut self.children.slots, place as usize, child);
        self.index[byte as usize] = place as u8;
        self.used |= 1 << place;
        self.bytes.insert(byte);
    }

    fn replace_child(&mut self, byte: u8, child: C) -> C {
        let place = self.index[byte as usize];
        match replace_slot(&mut self.children.slots, place as usize, child) {
            Some(replaced) => replaced,
            None => unreachable!(),
        }
    }

    fn delete_child(&mut self, byte: u8) -> Option<C> {
        let place = self.index[byte as usize];
        if place >= NO_SLOT {
            return None;
        }
        self.index[byte as usize] = NO_SLOT;
        self.used &= !(1 << place);
        self.bytes.remove(byte);
        take_slot(&mut self.children.slots, place as usize)
    }

    fn next_from(&self, from: usize) -> Option<(u8, &C)> {
        let byte = self.bytes.least_from(from)?;
        match self.seek_child(byte) {
            Some(child) => Some((byte, child)),
            None => unreachable!(),
        }
    }

    #[inline]
    fn cursor_from(&self, least: u8) -> usize {
        usize::from(least)
    }

    #[inline(always)]
    fn next_child(&self, from: &mut usize) -> Option<&C> {
        let byte = self.bytes.least_from(*from)?;
        *from = byte as usize + 1;
        self.seek_child(byte)
    }

    fn next_entry(&self, from: &mut usize) -> Option<(u8, &C)> {
        let (byte, child) = self.next_from(*from)?;
        *from = usize::from(byte) + 1;
        Some((byte, child))
    }

    #[inline]
    fn cursor_below(&self, end: usize) -> usize {
        end
    }

    fn prev_child(&self, end: &mut usize) -> Option<&C> {
        let byte = self.bytes.greatest_below(*end)?;
        *end = byte as usize;
        self.seek_child(byte)
    }

    #[inline]
    fn bytes(&self) -> ByteSet {
        self.bytes.copy()
    }

    ghost ascending = { indexed-ascending };

    ghost fits = { indexed-fits };
}

impl<C> Clear<C> for IndexedMapping<C> {
    ghost slots = { λ mapping. mapping.children.slots };

    ghost children = { indexed_children };

    ghost in_order = { indexed_in_order };

    fn clear(&mut self)
    where
        C: Drop,
    {
        clear_slots(&mut self.children.slots);
        self.index = [NO_SLOT; 256];
        self.used = 0;
        self.bytes = ByteSet::new();
    }
}

impl<C: Clone + Drop> Clone for IndexedMapping<C> {
    ghost is_clone = { λ it copy. SameBytes C.is_clone (indexed_children it) (indexed_children copy)
        × (indexed_in_order copy ≡ indexed_in_order it) };

    fn clone(&self) -> Result<Self, AllocError> {
        Ok(IndexedMapping {
            index: self.index,
            children: SlotArray {
                slots: self.children.slots.clone()?,
            },
            used: self.used,
            bytes: self.bytes.copy(),
        })
    }
}
