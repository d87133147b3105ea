//! A price list, visited.
ghost use Rattle.std.specs.Prelude.{◌≡◌, ◌++◌, ◌∷◌, [], map, IsOk, IfOk, OnOk};
ghost use Rattle.rart_maps.specs.Pairs.{under};

use crate::prices::PriceList;
use rart_versioned::{KeyTrait, VectorKey};
use std::alloc::{AllocError, Global};

/// The prices of the names that begin so, in the order of the names. No name is put together.
pub fn prices_under(
    alloc: Global,
    list: &PriceList,
    prefix: &VectorKey,
) -> Result<Vec<u64>, AllocError>
    ensures { IfOk result (λ prices. prices.items
        ≡ map (λ pair. pair.1) (under list.now.content prefix.now.bytes.items)) }
{
    let mut prices: Vec<u64> = Vec::new(alloc);
    let mut kept: Result<(), AllocError> = Ok(());
    let mut keep = |price: &u64|
        ensures { IsOk kept.exit → IsOk kept.entry
            × (prices.exit.items ≡ prices.entry.items ++ price.entry.now ∷ []) }
    {
        if kept.is_ok() {
            kept = put(&mut prices, *price);
        }
    };
    list.prefix_values_for_each_k(prefix, &mut keep)?;
    kept?;
    Ok(prices)
}

fn put(prices: &mut Vec<u64>, price: u64) -> Result<(), AllocError>
    ensures { OnOk result (prices.new.items ≡ prices.old.items ++ price ∷ []) }
{
    prices.push(price)?;
    Ok(())
}
