//! A price list, read in order.
ghost use Rattle.std.specs.Prelude.{◌≡◌, [], IfOk, OnErr, OnOk, false, map};
ghost use Rattle.std.specs.declared.ops.Bound.TheVariants.{Included, Excluded};
ghost use Rattle.rart_maps.specs.Pairs.{prefix_matches, pairs, under, within};
ghost use Rattle.example_tree.specs.Listing.{IsPrefix, line_of};

use crate::prices::PriceList;
use rart_versioned::{KeyTrait, VectorKey, VectorPartial, VersionedIter};
use std::alloc::{AllocError, Global};
use std::ops::Bound;

/// The names in order, each with its price.
pub fn listing(alloc: Global, list: &PriceList) -> Result<Vec<(VectorKey, u64)>, AllocError>
    ensures { IfOk result (λ lines. map line_of lines.items ≡ pairs list.now.content) }
{
    let mut lines = Vec::new(alloc);
    list_into(list, &mut lines)?;
    Ok(lines)
}

/// Puts the names in order into an empty list, each with its price. Refused for memory, a
/// prefix of them is there.
pub fn list_into(list: &PriceList, lines: &mut Vec<(VectorKey, u64)>) -> Result<(), AllocError>
    requires empty { lines.old.items ≡ [] }
    ensures all { OnOk result (map line_of lines.new.items ≡ pairs list.now.content) }
    ensures prefix { OnErr result (IsPrefix (map line_of lines.new.items)
        (pairs list.now.content)) }
{
    for item in list.iter()? {
        let (name, price) = item?;
        lines.push((name, *price))?;
    }
    Ok(())
}

/// Whether anything comes behind a refusal, at either of the next two calls: nothing does.
pub fn follows_a_refusal(items: &mut VersionedIter<'_, VectorKey, VectorPartial, u64>) -> bool
    ensures { result ≡ false }
{
    match items.next() {
        Some(Err(_refused)) => items.next().is_some() || items.next().is_some(),
        _ => false,
    }
}

/// The prices, in the order of their names.
pub fn all_prices(alloc: Global, list: &PriceList) -> Result<Vec<u64>, AllocError>
    ensures { IfOk result (λ prices. prices.items
        ≡ map (λ pair. pair.1) (pairs list.now.content)) }
{
    let mut prices = Vec::new(alloc);
    for price in list.values_iter()? {
        prices.push(*price?)?;
    }
    Ok(prices)
}

/// The names that begin so, in order, each with its price.
pub fn listing_under(
    alloc: Global,
    list: &PriceList,
    prefix: &VectorKey,
) -> Result<Vec<(VectorKey, u64)>, AllocError>
    ensures { IfOk result (λ lines. map line_of lines.items
        ≡ under list.now.content prefix.now.bytes.items) }
{
    let mut lines = Vec::new(alloc);
    for item in list.prefix_iter_k(prefix)? {
        let (name, price) = item?;
        lines.push((name, *price))?;
    }
    Ok(lines)
}

/// The names from the first one on and before the end, in order, each with its price.
pub fn listing_between(
    alloc: Global,
    list: &PriceList,
    first: VectorKey,
    end: VectorKey,
) -> Result<Vec<(VectorKey, u64)>, AllocError>
    ensures { IfOk result (λ lines. map line_of lines.items
        ≡ within list.now.content (Included first.bytes.items) (Excluded end.bytes.items)) }
{
    let mut lines = Vec::new(alloc);
    for item in list.range((Bound::Included(first), Bound::Excluded(end)))? {
        let (name, price) = item?;
        lines.push((name, *price))?;
    }
    Ok(lines)
}

/// The names that a text begins with, the shortest first, each with its price.
pub fn listing_along(
    alloc: Global,
    list: &PriceList,
    text: &VectorKey,
) -> Result<Vec<(VectorKey, u64)>, AllocError>
    ensures { IfOk result (λ lines. map line_of lines.items
        ≡ prefix_matches list.now.content text.now.bytes.items) }
{
    let mut lines = Vec::new(alloc);
    for item in list.prefix_match_iter_k(text)? {
        let (name, price) = item?;
        lines.push((name, *price))?;
    }
    Ok(lines)
}
