//! A routing table: the longest route that begins an address decides. A policy is tried, and rolled
//! back.
use rart_versioned::{ArrayKey, VersionedAdaptiveRadixTree};

type Routes = VersionedAdaptiveRadixTree<ArrayKey<4>, u32>;

fn print(rt: &HostRuntime, title: &str, routes: &Routes) -> anyhow::Result<()> {
    println!(rt; "{title}")?;
    for address in [[10, 1, 2, 3], [10, 1, 9, 9], [10, 7, 7, 7], [192, 0, 2, 1]] {
        let [a, b, c, d] = address;
        match routes.longest_prefix(address) {
            Some((length, hop)) => {
                println!(rt; "  {a}.{b}.{c}.{d} goes to {hop}, by a route of {length} bytes")?;
            }
            None => println!(rt; "  {a}.{b}.{c}.{d} has no route")?,
        }
    }
    Ok(())
}

pub fn show(rt: &HostRuntime) -> anyhow::Result<()> {
    let mut routes = Routes::new(rt.alloc());
    routes.insert_bytes([10], 1)?;
    routes.insert_bytes([10, 1], 2)?;
    routes.insert_bytes([10, 1, 2], 3)?;
    let policy = routes.snapshot()?;

    routes.remove_bytes([10, 1, 2])?;
    routes.insert_bytes([], 9)?;
    print(rt, "routes, with the policy on trial", &routes)?;

    routes = policy;
    print(rt, "routes, with the policy before it", &routes)
}
