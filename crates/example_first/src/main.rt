//! A routing table: a route is tried, and rolled back.
#![tactic(auto)]

use rart_versioned::{ArrayKey, VersionedAdaptiveRadixTree};

type Routes = VersionedAdaptiveRadixTree<ArrayKey<4>, u32>;

/// Says where the longest route leads that begins the address 10.1.2.3.
fn show(rt: &HostRuntime, routes: &Routes, title: &str) -> anyhow::Result<()> {
    if let Some((_length, hop)) = routes.longest_prefix([10, 1, 2, 3]) {
        println!(rt; "{title}: 10.1.2.3 goes to {hop}")?;
    }
    Ok(())
}

fn main(rt: HostRuntime) -> anyhow::Result<()> {
    let mut routes = Routes::new(rt.alloc());
    routes.insert_bytes([10], 1)?;
    routes.insert_bytes([10, 1], 2)?;
    let before = routes.snapshot()?;

    routes.insert_bytes([10, 1], 7)?;
    show(&rt, &routes, "on trial")?;
    show(&rt, &before, "as before")?;

    routes = before;
    show(&rt, &routes, "rolled back")
}
