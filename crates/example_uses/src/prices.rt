//! Price lists: filled in loops, printed in order, and compared with an older version.
mod changes;
mod filling;
mod listing;
mod setting;
mod text;
mod titles;

use crate::prices::changes::print_changes;
use crate::prices::filling::{list_of, set_prices};
use crate::prices::listing::print_list;
use crate::prices::setting::set_price;
use crate::prices::titles::print_titles;

pub fn show(rt: &HostRuntime) -> anyhow::Result<()> {
    let alloc = rt.alloc();
    let mut list = list_of(alloc, &[("tea", 300), ("salt", 90), ("sugar", 150)])?;
    let yesterday = set_price(&mut list, "tea", 350)?;
    list.remove_bytes("salt")?;
    if !set_prices(&mut list, &[("teapot", 1200)])? {
        println!(rt; "the list was changed too often")?;
    }

    print_list(rt, "prices yesterday", &yesterday)?;
    print_list(rt, "prices today", &list)?;
    print_changes(rt, &yesterday, &list)?;
    print_titles(rt)
}
