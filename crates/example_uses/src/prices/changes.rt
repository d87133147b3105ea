//! What has become of a price list between two versions.
use crate::prices::filling::PriceList;
use rart_versioned::{KeyTrait, VectorKey};

/// Prints the names that were added, removed or have another price, in order.
pub fn print_changes(rt: &HostRuntime, old: &PriceList, new: &PriceList) -> anyhow::Result<()> {
    let mut printed = Ok(());
    let mut print = |name: VectorKey, before: Option<&u64>, after: Option<&u64>| {
        if printed.is_ok() {
            printed = print_change(rt, &name, before, after);
        }
    };
    old.diff_with(new, &mut print)?;
    printed
}

fn print_change(
    rt: &HostRuntime,
    name: &VectorKey,
    before: Option<&u64>,
    after: Option<&u64>,
) -> anyhow::Result<()> {
    let text = str::from_utf8(name.as_ref())?;
    match (before, after) {
        (Some(before), Some(after)) => println!(rt; "changed: {text} from {before} to {after}")?,
        (Some(before), None) => println!(rt; "removed: {text} {before}")?,
        (None, Some(after)) => println!(rt; "added: {text} {after}")?,
        (None, None) => {}
    }
    Ok(())
}
