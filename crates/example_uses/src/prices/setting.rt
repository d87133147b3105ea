//! A price that is set, and what stays of the list before it.
ghost use Rattle.std.specs.Prelude.{◌≡◌, IfOk, OnErr, OnOk};
ghost use Rattle.rart_maps.specs.Versions.{HasRoom, with_key};

use crate::prices::filling::PriceList;
use std::alloc::AllocError;

/// Sets the price of a name, and answers the list as it was before.
pub fn set_price(list: &mut PriceList, name: &str, price: u64) -> Result<PriceList, AllocError>
    requires room { HasRoom list.old 1 }
    ensures before { IfOk result (λ before. before.content ≡ list.old.content) }
    ensures set { OnOk result (list.new ≡ with_key list.old name.now price 1) }
    ensures refused { OnErr result (list.new ≡ list.old) }
{
    let before = list.snapshot()?;
    list.insert_bytes(name, price)?;
    Ok(before)
}
