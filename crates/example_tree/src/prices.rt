//! A price list: a price for each name.
ghost use Rattle.std.specs.Prelude.{◌≡◌, ◌≢◌, ◌+◌, ◌≤◌, ℕ, List, Some, IfOk, OnOk, OnErr, IsErrOf, length};
ghost use Rattle.rart_maps.specs.Versions.{HasRoom, has_key, value_at};

use rart_versioned::{VectorKey, VersionedAdaptiveRadixTree, Work};
use std::alloc::AllocError;
use thiserror::Error;

pub type PriceList = VersionedAdaptiveRadixTree<VectorKey, u64>;

/// Sets the price of a name, and answers whether it had one.
pub fn set_price(list: &mut PriceList, name: &str, price: u64) -> Result<bool, AllocError>
    requires room { HasRoom list.old 1 }
    ensures had { IfOk result (λ had. had ≡ has_key list.old name.now) }
    ensures set { OnOk result (value_at list.new name.now ≡ Some price) }
    ensures others { OnOk result ((other : List ℕ) → other ≢ name.now
        → value_at list.new other ≡ value_at list.old other) }
    ensures refused { OnErr result (list.new ≡ list.old) }
{
    list.insert_bytes(name, price)
}

/// Sets the price of a name, and answers the price before and the price after, each as a version of
/// its own tells it.
pub fn before_and_after(
    list: &mut PriceList,
    name: &str,
    price: u64,
) -> Result<(Option<u64>, Option<u64>), AllocError>
    requires room { HasRoom list.old 1 }
    ensures before { IfOk result (λ told. told.0 ≡ value_at list.old name.now) }
    ensures after { IfOk result (λ told. told.1 ≡ Some price) }
    ensures refused { OnErr result (list.new ≡ list.old) }
{
    let before = list.snapshot()?;
    set_price(list, name, price)?;
    Ok((
        before.get_bytes(name).copied(),
        list.get_bytes(name).copied(),
    ))
}

/// Why a price was not set: the list is then as it was.
#[derive(Debug, Drop, Error)]
pub enum PriceError {
    #[error("the list was changed too often")]
    NoRoom,
    #[error(transparent)]
    Memory(AllocError),
}

/// As `set_price`, for a list of which the caller knows nothing.
pub fn try_set_price(list: &mut PriceList, name: &str, price: u64) -> Result<bool, PriceError>
    ensures set { OnOk result (value_at list.new name.now ≡ Some price) }
    ensures no_room { IsErrOf result PriceError.NoRoom → ¬ HasRoom list.old 1 }
    ensures refused { OnErr result (list.new ≡ list.old) }
{
    if list.version() == u64::MAX {
        return Err(PriceError::NoRoom);
    }
    set_price(list, name, price).map_err(PriceError::Memory)
}

/// As `set_price`, and counts the nodes that it makes and those that it enters.
pub fn set_price_counted(
    list: &mut PriceList,
    name: &str,
    price: u64,
    work: &mut Work,
) -> Result<(), AllocError>
    requires room { HasRoom list.old 1 }
    ensures made { work.new.made ≤ work.old.made + length name.now + 2 }
    ensures entered { work.new.entered ≤ work.old.entered + length name.now + 1 }
{
    list.insert_and_replace_bytes_counted(name.as_bytes(), price, work)?;
    Ok(())
}
