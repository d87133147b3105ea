//! A price list, printed in the order of its names.
use crate::prices::filling::PriceList;
use rart_versioned::KeyTrait;

/// Prints each name with its price.
pub fn print_list(rt: &HostRuntime, title: &str, list: &PriceList) -> anyhow::Result<()> {
    println!(rt; "{title}")?;
    for item in list.iter()? {
        let (name, price) = item?;
        println!(rt; "  {} {price}", str::from_utf8(name.as_ref())?)?;
    }
    Ok(())
}
