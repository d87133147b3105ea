//! Loops of insertions, with two ways to know that the number has room.
ghost use Rattle.std.specs.Prelude.{◌≤◌, IfOk, length};

use rart_versioned::{VectorKey, VersionedAdaptiveRadixTree};
use std::alloc::{AllocError, Global};

pub type PriceList = VersionedAdaptiveRadixTree<VectorKey, u64>;

/// Sets these prices in a list of which nothing is known, and answers whether there was room for
/// all: each turn tests it.
pub fn set_prices(list: &mut PriceList, prices: &[(&str, u64)]) -> Result<bool, AllocError> {
    for (name, price) in prices {
        if list.version() == u64::MAX {
            return Ok(false);
        }
        list.insert_bytes(*name, *price)?;
    }
    Ok(true)
}

/// A list of these prices. It is new, so its number is at most that of the turns. This is the
/// loop's invariant, in a file of its own, and no turn has to test for room.
pub fn list_of(alloc: Global, prices: &[(&str, u64)]) -> Result<PriceList, AllocError>
    ensures number { IfOk result (λ list. list.number ≤ length prices.now) }
{
    let mut list = PriceList::new(alloc);
    for (name, price) in prices {
        list.insert_bytes(*name, *price)?;
    }
    Ok(list)
}
