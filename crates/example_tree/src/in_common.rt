//! What two price lists have in common.
ghost use Rattle.std.specs.Prelude.{◌≡◌, ◌++◌, ◌∷◌, [], map, IsOk, IfOk, OnOk};
ghost use Rattle.rart_maps.specs.Pairs.{common};
ghost use Rattle.example_tree.specs.InCommon.{named};

use crate::prices::PriceList;
use rart_versioned::VectorKey;
use std::alloc::{AllocError, Global};

/// A name with its price in either of two lists.
pub type PricedTwice = (VectorKey, u64, u64);

/// Each name that both lists have, in order, with its price in the first and in the second.
pub fn prices_of_both(
    alloc: Global,
    first: &PriceList,
    second: &PriceList,
) -> Result<Vec<PricedTwice>, AllocError>
    ensures { IfOk result (λ entries. named entries.items
        ≡ common first.now.content second.now.content) }
{
    let mut entries: Vec<PricedTwice> = Vec::new(alloc);
    let mut kept: Result<(), AllocError> = Ok(());
    let mut keep = |name: VectorKey, price: &u64, other: &u64|
        ensures { IsOk kept.exit → IsOk kept.entry
            × (named entries.exit.items ≡ named entries.entry.items
            ++ (name.bytes.items, price.entry.now, other.entry.now) ∷ []) }
    {
        if kept.is_ok() {
            kept = put(&mut entries, (name, *price, *other));
        }
    };
    first.intersect_with(second, &mut keep)?;
    kept?;
    Ok(entries)
}

fn put(entries: &mut Vec<PricedTwice>, entry: PricedTwice) -> Result<(), AllocError>
    ensures { OnOk result (named entries.new.items
        ≡ named entries.old.items ++ named (entry ∷ [])) }
{
    entries.push(entry)?;
    Ok(())
}

/// The same with the lists in either order: the second answer has the names of the first, in its
/// order, with their prices swapped.
pub fn prices_both_ways(
    alloc: Global,
    first: &PriceList,
    second: &PriceList,
) -> Result<(Vec<PricedTwice>, Vec<PricedTwice>), AllocError>
    ensures { IfOk result (λ ways. named ways.1.items
        ≡ map (λ entry. (entry.0, entry.2, entry.1)) (named ways.0.items)) }
{
    let one_way = prices_of_both(alloc, first, second)?;
    let other_way = prices_of_both(alloc, second, first)?;
    Ok((one_way, other_way))
}
