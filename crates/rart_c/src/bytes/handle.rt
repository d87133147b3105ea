//! A tree of byte strings as C holds it: one pointer, null for a tree as it is at first.
ghost use Rattle.std.specs.Prelude.{◌≡◌, ℕ, List, MatchOption};
ghost use Rattle.std.specs.Coded.{coded_list, coded_ℕ};
ghost use Rattle.rart_c.specs.Owned.{held};
ghost use Rattle.rart_c.specs.contracts.bytes.value.Bytes.{the_row};
ghost use Rattle.rart_c.specs.Trees.{Tree, tree_at, tree_code};

use crate::bytes::value::Bytes;
use crate::handling::Handle;
use crate::table::Table;
use crate::unboxed::Unboxed;
use std::alloc::Global;
use std::marker::Model;
use std::ptr::null_mut;

/// A tree as C holds it, its values byte strings. Contracts see the tree that it shows.
///
/// What C hands in is all zeros, or as a call left it; C copies it nowhere.
#[repr(C)]
pub struct RartBytes {
    at: *mut u8,
    alloc: Global,
    pub ghost shows: { Tree (List ℕ) } by { tree_code (coded_list coded_ℕ) },
}

impl Model for RartBytes {
    ghost also_owns = { λ tree. held the_row ⟦<Bytes as Clone>⟧ tree.alloc tree.at tree.shows };
}

impl Drop for RartBytes {
    fn drop(self) {
        drop(self.into_box());
    }
}

impl Handle for RartBytes {
    ghost use Rattle.std.specs.Prelude.{◌≡◌, refl};

    type Value = Bytes;

    ghost shows = { λ tree. tree.shows };

    ghost showing = { λ tree shown. record tree { shows = shown } };

    fn empty(alloc: Global) -> RartBytes {
        RartBytes::empty(alloc)
    }

    fn of(table: Box<Table<Bytes>>) -> RartBytes
        ensures { result.shows ≡ table.value }
    {
        RartBytes::of(table)
    }

    fn table_mut(&mut self) -> Option<&mut Table<Bytes>> {
        RartBytes::table_mut(self)
    }

    fn table(&mut self) -> Option<&Table<Bytes>> {
        RartBytes::table(self)
    }

    ghost shows_it = { λ _ _. refl };
}

impl RartBytes {
    ghost use Rattle.std.specs.Prelude.{◌≡◌, MatchOption};
    ghost use Rattle.std.specs.Borrow.{sem};
    ghost use Rattle.rart_c.specs.Lends.{lends_bytes, rests_bytes};
    ghost use Rattle.rart_c.specs.Shown.{shown};
    ghost use Rattle.rart_c.specs.Trees.{tree_at};

    pub(crate) fn empty(alloc: Global) -> RartBytes
        ensures { result.shows ≡ tree_at 0 }
    {
        RartBytes {
            at: null_mut(),
            alloc,
        }
    }

    pub(crate) fn of(table: Box<Table<Bytes>>) -> RartBytes
        ensures { result.shows ≡ table.value }
    {
        RartBytes::of_parts(Unboxed::open(table))
    }

    fn of_parts(table: Unboxed<Table<Bytes>, Global>) -> RartBytes
        ensures { result.shows ≡ table.value }
    {
        let Unboxed { at, alloc } = table;
        RartBytes {
            at: at.cast(),
            alloc,
        }
    }

    fn into_box(self) -> Option<Box<Table<Bytes>>>
        ensures { MatchOption result (self.shows ≡ tree_at 0)
            (λ table. table.value ≡ self.shows) }
    {
        match self.into_parts() {
            None => None,
            Some(table) => Some(table.close()),
        }
    }

    fn into_parts(self) -> Option<Unboxed<Table<Bytes>, Global>>
        ensures { MatchOption result (self.shows ≡ tree_at 0)
            (λ table. table.value ≡ self.shows) }
    {
        let RartBytes { at, alloc } = self;
        if at.is_null() {
            None
        } else {
            Some(Unboxed {
                at: at.cast(),
                alloc,
            })
        }
    }

    /// Lends the table, if there is one. What is then stored there the handle shows.
    pub(crate) fn table_mut(&mut self) -> Option<&mut Table<Bytes>>
        ensures* lends { sem 𝓛 (lends_bytes self.entry result) }
        ensures table { MatchOption result (self.old.shows ≡ tree_at 0)
            (λ table. table.now ≡ self.old.shows) }
    {
        let at = self.at;
        if at.is_null() {
            return None;
        }
        let at: *mut Table<Bytes> = at.cast();
        Some(unsafe { &mut *at })
    }

    /// Lends the table to a read, if there is one. The handle shows what it showed.
    pub(crate) fn table(&mut self) -> Option<&Table<Bytes>>
        ensures* same { sem 𝓛 (rests_bytes self.entry) }
        ensures table { shown result ≡ self.old.shows }
    {
        match self.table_mut() {
            None => None,
            Some(table) => Some(table),
        }
    }
}
