//! A table as bytes, where there is none the one without a key; and a table that is made of bytes.
ghost use Rattle.std.specs.Prelude.{◌≡◌, Some, IfErr, IfOk, length};
ghost use Rattle.rart_below.specs.Clones.{ClonesEqual};
ghost use Rattle.rart_c.specs.Saves.{ExplainsLoad};
ghost use Rattle.rart_c.specs.Shown.{shown};
ghost use Rattle.rart_saved.specs.Fills.{Fills};
ghost use Rattle.rart_saved.specs.Forms.{IsVersionOf, saved};
ghost use Rattle.rart_saved.specs.Refusals.{PointsInto};

use crate::table::{Table, or_empty};
use rart_saved::{LoadError, SavedValue, load_slice_within, save_into, saved_len};
use std::alloc::{AllocError, Global};

/// How many bytes the version has.
pub(crate) fn len<V: SavedValue>(
    alloc: Global,
    table: Option<&Table<V>>,
) -> Result<usize, AllocError>
    ensures { IfOk result (λ len. len
        ≡ length (saved V.written V.KIND (shown table.entry).version)) }
{
    let none = Table::new_at(alloc, 0);
    or_empty(table, &none).saved_len(alloc)
}

/// Writes the version's bytes over the first of the room, where it has as many, and gives how many
/// they are.
pub(crate) fn save<V: SavedValue>(
    alloc: Global,
    table: Option<&Table<V>>,
    room: &mut [u8],
) -> Result<usize, AllocError>
    ensures saved { IfOk result (Fills room.old
        (saved V.written V.KIND (shown table.entry).version) room.new) }
    ensures loadable { IsVersionOf (Some (shown table.entry).longest) (shown table.entry).version }
{
    let none = Table::new_at(alloc, 0);
    or_empty(table, &none).save(alloc, room)
}

/// The table whose version has these bytes, keys as long as this. It takes memory as bytes come.
pub(crate) fn load<V: SavedValue>(
    alloc: Global,
    bytes: &[u8],
    longest: usize,
) -> Result<Box<Table<V>>, LoadError>
    requires clones { ClonesEqual V.is_clone }
    ensures read { IfOk result (λ table. bytes.now
        ≡ saved V.written V.KIND table.value.version) }
    ensures longest { IfOk result (λ table. table.value.longest ≡ longest) }
    ensures refused { IfErr result (ExplainsLoad V.written V.KIND longest bytes.now) }
    ensures points { IfErr result (PointsInto bytes.now) }
{
    let (tree, count) = load_slice_within(alloc, bytes, longest)?;
    let table = Table {
        tree,
        len: count as usize,
        longest,
    };
    match Box::new(alloc, table) {
        Ok(table) => Ok(table),
        Err(_) => Err(LoadError::Memory),
    }
}

impl<V: SavedValue> Table<V> {
    fn saved_len(&self, alloc: Global) -> Result<usize, AllocError>
        ensures { IfOk result (λ len. len
            ≡ length (saved V.written V.KIND self.now.version)) }
    {
        saved_len(alloc, &self.tree, self.len as u64)
    }

    fn save(&self, alloc: Global, room: &mut [u8]) -> Result<usize, AllocError>
        ensures saved { IfOk result (Fills room.old
            (saved V.written V.KIND self.now.version) room.new) }
        ensures loadable { IsVersionOf (Some self.now.longest) self.now.version }
    {
        self.know_limit_for_proof();
        self.tree.know_keys_for_proof();
        save_into(alloc, &self.tree, self.len as u64, room)
    }
}
