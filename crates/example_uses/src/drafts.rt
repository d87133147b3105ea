//! Three drafts of a price list, merged one after another. The last one is in conflict with the
//! first, and gives way.
ghost use Rattle.std.specs.Prelude.{◌≡◌, IfErr, OnErr, OnOk};
ghost use Rattle.rart_changes.specs.Tracking.{after_insertion};
ghost use Rattle.rart_maps.specs.Versions.{HasRoom, value_at};
ghost use Rattle.rart_versioned.specs.Missing.{Explains};

use rart_changes::TrackedTree;
use rart_versioned::{KeyTrait, Missing, VectorKey, VersionedAdaptiveRadixTree};
use std::alloc::{AllocError, Global};
use std::convert::AsSlice;

type Prices = VersionedAdaptiveRadixTree<VectorKey, u64>;

type Draft = TrackedTree<VectorKey, u64>;

// A draft that sets prices, or takes out the names without a price.
fn draft(
    alloc: Global,
    list: &Prices,
    prices: &[(&str, Option<u64>)],
) -> Result<Draft, AllocError> {
    let mut draft = Draft::begin(alloc, list)?;
    for (name, price) in prices {
        set(&mut draft, *name, *price)?;
    }
    Ok(draft)
}

// Sets a price, or takes a name out, where there is room for a change.
fn set<Q: AsSlice<u8> + Drop>(
    draft: &mut Draft,
    name: Q,
    price: Option<u64>,
) -> Result<(), AllocError> {
    if draft.current().version() < u64::MAX {
        match price {
            Some(price) => {
                draft.insert(name, price)?;
            }
            None => {
                draft.delete(name)?;
            }
        }
    }
    Ok(())
}

/// Gives a name of the draft another price where it stands, so that the name counts as touched. Or
/// it tells why not: the draft has no such name, or memory was refused; then all is as before.
pub fn reprice(draft: &mut Draft, name: &VectorKey, price: u64) -> Result<(), Missing>
    requires room { HasRoom draft.old.current 1 }
    ensures set { OnOk result (draft.new ≡ after_insertion draft.old name.now.bytes.items price) }
    ensures refused { OnErr result (draft.new ≡ draft.old) }
    ensures missing { IfErr result
        (λ missing. Explains missing (value_at draft.old.current name.now.bytes.items)) }
{
    *draft.value_mut(name)? = price;
    Ok(())
}

// The first name, if there is one, to which the draft and the list both gave another price.
fn first_conflict(draft: &Draft, list: &Prices) -> Result<Option<VectorKey>, AllocError> {
    let mut first = None;
    let mut note = |name: VectorKey, _: Option<&u64>, _: Option<&u64>, _: Option<&u64>| {
        if first.is_none() {
            first = Some(name);
        }
    };
    draft.conflicts_with(list, &mut note)?;
    Ok(first)
}

// Makes a draft's changes on the list, where there is room for them.
fn merge(draft: &mut Draft, list: &mut Prices) -> Result<(), AllocError> {
    if list.version() <= u64::MAX - draft.touched_count() {
        draft.rebase(list)?;
        *list = draft.current().clone()?;
    }
    Ok(())
}

fn show_merge(
    rt: &HostRuntime,
    author: &str,
    draft: &mut Draft,
    list: &mut Prices,
) -> anyhow::Result<()> {
    if let Some(name) = first_conflict(draft, list)? {
        println!(rt; "{author} gives way at {}", str::from_utf8(name.as_ref())?)?;
        let theirs = list.get_k(&name).copied();
        set(draft, name, theirs)?;
    }
    merge(draft, list)?;
    println!(rt; "prices with the draft of {author}")?;
    for item in list.iter()? {
        let (name, price) = item?;
        println!(rt; "  {} {price}", str::from_utf8(name.as_ref())?)?;
    }
    Ok(())
}

pub fn show(rt: &HostRuntime) -> anyhow::Result<()> {
    let alloc = rt.alloc();
    let first = [("milk", Some(100)), ("salt", Some(90)), ("tea", Some(300))];
    let mut list = draft(alloc, &Prices::new(alloc), &first)?
        .current()
        .clone()?;
    let mut ann = draft(alloc, &list, &[("tea", Some(310))])?;
    let mut bob = draft(alloc, &list, &[("milk", Some(110)), ("salt", None)])?;
    let mut cy = draft(alloc, &list, &[("coffee", Some(400)), ("tea", Some(320))])?;
    show_merge(rt, "ann", &mut ann, &mut list)?;
    show_merge(rt, "bob", &mut bob, &mut list)?;
    show_merge(rt, "cy", &mut cy, &mut list)
}
