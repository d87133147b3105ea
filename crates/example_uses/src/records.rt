//! A record store: a working version is changed, and given up for the snapshot before it.
use rart_versioned::{KeyTrait, VectorKey, VersionedAdaptiveRadixTree};
use std::alloc::{AllocError, Global};

type Records = VersionedAdaptiveRadixTree<VectorKey, u64>;

fn key(alloc: Global, name: &str) -> Result<VectorKey, AllocError> {
    VectorKey::new_from_slice(alloc, name.as_bytes())
}

fn print(rt: &HostRuntime, title: &str, records: &Records) -> anyhow::Result<()> {
    println!(rt; "{title}, number {}", records.version())?;
    for item in records.iter()? {
        let (name, balance) = item?;
        println!(rt; "  {} {balance}", str::from_utf8(name.as_ref())?)?;
    }
    Ok(())
}

pub fn show(rt: &HostRuntime) -> anyhow::Result<()> {
    let alloc = rt.alloc();
    let mut records = Records::new(alloc);
    records.insert(key(alloc, "account/ann")?, 120)?;
    records.insert(key(alloc, "account/bob")?, 80)?;
    let agreed = records.snapshot()?;

    records.insert(key(alloc, "account/bob")?, 30)?;
    records.insert(key(alloc, "account/cy")?, 50)?;
    records.remove(key(alloc, "account/ann")?)?;
    print(rt, "records, as they are drafted", &records)?;

    // The draft is given up: what was agreed on is worked on again.
    records = agreed.snapshot()?;
    print(rt, "records, rolled back", &records)
}
