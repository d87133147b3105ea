//! A tree as C holds it: one pointer, null for a tree as it is at first.
ghost use Rattle.std.specs.Prelude.{◌≡◌, ℕ, MatchOption};
ghost use Rattle.std.specs.Borrow.{u64};
ghost use Rattle.std.specs.Coded.{coded_ℕ};
ghost use Rattle.rart_c.specs.Owned.{held};
ghost use Rattle.rart_c.specs.Trees.{Tree, tree_at, tree_code};

use crate::handling::Handle;
use crate::table::Table;
use crate::unboxed::Unboxed;
use std::alloc::Global;
use std::marker::Model;
use std::ptr::null_mut;

/// A tree as C holds it, its values numbers. Contracts see the tree that it shows.
///
/// What C hands in is all zeros, or as a call left it; C copies it nowhere.
#[repr(C)]
pub struct RartTree {
    at: *mut u8,
    alloc: Global,
    pub ghost shows: { Tree ℕ } by { tree_code coded_ℕ },
}

impl Model for RartTree {
    ghost also_owns = { λ tree. held u64 ⟦<u64 as Clone>⟧ tree.alloc tree.at tree.shows };
}

impl Drop for RartTree {
    fn drop(self) {
        drop(self.into_box());
    }
}

impl Handle for RartTree {
    ghost use Rattle.std.specs.Prelude.{◌≡◌, refl};

    type Value = u64;

    ghost shows = { λ tree. tree.shows };

    ghost showing = { λ tree shown. record tree { shows = shown } };

    fn empty(alloc: Global) -> RartTree {
        RartTree::empty(alloc)
    }

    fn of(table: Box<Table<u64>>) -> RartTree
        ensures { result.shows ≡ table.value }
    {
        RartTree::of(table)
    }

    fn table_mut(&mut self) -> Option<&mut Table<u64>> {
        RartTree::table_mut(self)
    }

    fn table(&mut self) -> Option<&Table<u64>> {
        RartTree::table(self)
    }

    ghost shows_it = { λ _ _. refl };
}

impl RartTree {
    ghost use Rattle.std.specs.Prelude.{◌≡◌, MatchOption};
    ghost use Rattle.std.specs.Borrow.{sem};
    ghost use Rattle.rart_c.specs.Lends.{lends, rests};
    ghost use Rattle.rart_c.specs.Shown.{shown};
    ghost use Rattle.rart_c.specs.Trees.{tree_at};

    pub(crate) fn empty(alloc: Global) -> RartTree
        ensures { result.shows ≡ tree_at 0 }
    {
        RartTree {
            at: null_mut(),
            alloc,
        }
    }

    pub(crate) fn of(table: Box<Table<u64>>) -> RartTree
        ensures { result.shows ≡ table.value }
    {
        RartTree::of_parts(Unboxed::open(table))
    }

    fn of_parts(table: Unboxed<Table<u64>, Global>) -> RartTree
        ensures { result.shows ≡ table.value }
    {
        let Unboxed { at, alloc } = table;
        RartTree {
            at: at.cast(),
            alloc,
        }
    }

    fn into_box(self) -> Option<Box<Table<u64>>>
        ensures { MatchOption result (self.shows ≡ tree_at 0)
            (λ table. table.value ≡ self.shows) }
    {
        match self.into_parts() {
            None => None,
            Some(table) => Some(table.close()),
        }
    }

    fn into_parts(self) -> Option<Unboxed<Table<u64>, Global>>
        ensures { MatchOption result (self.shows ≡ tree_at 0)
            (λ table. table.value ≡ self.shows) }
    {
        let RartTree { at, alloc } = self;
        if at.is_null() {
            None
        } else {
            Some(Unboxed {
                at: at.cast(),
                alloc,
            })
        }
    }

    /// Lends the table, if there is one. What is then stored there the handle shows.
    pub(crate) fn table_mut(&mut self) -> Option<&mut Table<u64>>
        ensures* lends { sem 𝓛 (lends self.entry result) }
        ensures table { MatchOption result (self.old.shows ≡ tree_at 0)
            (λ table. table.now ≡ self.old.shows) }
    {
        let at = self.at;
        if at.is_null() {
            return None;
        }
        let at: *mut Table<u64> = at.cast();
        Some(unsafe { &mut *at })
    }

    /// Lends the table to a read, if there is one. The handle shows what it showed.
    pub(crate) fn table(&mut self) -> Option<&Table<u64>>
        ensures* same { sem 𝓛 (rests self.entry) }
        ensures table { shown result ≡ self.old.shows }
    {
        match self.table_mut() {
            None => None,
            Some(table) => Some(table),
        }
    }
}
