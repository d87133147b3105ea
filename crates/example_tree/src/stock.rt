//! A stock: how many pieces there are of each name.
ghost use Rattle.std.specs.Prelude.{◌≡◌, ◌≢◌, ◌+◌, ◌<◌, ◌^◌, ℕ, List, Some, OnOk, OnErr, unwrap_or};
ghost use Rattle.rart_maps.specs.Lookups.{value_in, value_left};
ghost use Rattle.rart_maps.specs.Versions.{HasRoom, value_at};

use rart_versioned::{KeyTrait, Slot, SlotUpdate, VectorKey, VersionedAdaptiveRadixTree};
use std::alloc::{AllocError, Global};

pub type Stock = VersionedAdaptiveRadixTree<VectorKey, u64>;

/// Adds `more` pieces to those of a name, of which there are none where it is absent.
pub fn add(alloc: Global, stock: &mut Stock, name: &str, more: u64) -> Result<(), AllocError>
    requires room { HasRoom stock.old 1 }
    requires fits { unwrap_or (value_at stock.old name.now) 0 + more < 2 ^ 64 }
    ensures added { OnOk result (value_at stock.new name.now
        ≡ Some (unwrap_or (value_at stock.old name.now) 0 + more)) }
    ensures others { OnOk result ((other : List ℕ) → other ≢ name.now
        → value_at stock.new other ≡ value_at stock.old other) }
    ensures refused { OnErr result (stock.new ≡ stock.old) }
{
    let key = VectorKey::new_from_slice(alloc, name.as_bytes())?;
    stock.update_k(&key, |slot: &mut Slot<u64>| add_to(slot, more))?;
    Ok(())
}

// What an update is to do with the slot that it is lent.
fn add_to(slot: &mut Slot<u64>, more: u64) -> SlotUpdate<u64>
    requires fits { unwrap_or (value_in slot.old) 0 + more < 2 ^ 64 }
    ensures added { value_left slot.old slot.new result
        ≡ Some (unwrap_or (value_in slot.old) 0 + more) }
{
    match slot {
        Slot::Vacant => SlotUpdate::Insert(more),
        Slot::Occupied(count) => {
            *count += more;
            SlotUpdate::Keep
        }
    }
}
