//! A replica of a price list, which is sent what changed from snapshot to snapshot, and shows what
//! the list showed at the last one.
ghost use Rattle.std.specs.Prelude.{◌≡◌, false, length, IfOk, IsTrue, OnErr};
ghost use Rattle.rart_maps.specs.ChangeLists.{changes};
ghost use Rattle.rart_maps.specs.Versions.{HasRoom};

use rart_changes::Merging;
use rart_maps::laws::changes::patches_set_what_changed;
use rart_versioned::{KeyTrait, VectorKey, VersionedAdaptiveRadixTree};
use std::alloc::AllocError;

type Prices = VersionedAdaptiveRadixTree<VectorKey, u64>;

// Sends a replica what changed between two snapshots, and answers whether its number had room for
// that. Where it showed what the snapshot before shows, it shows what the one after shows then.
fn send(replica: &mut Prices, before: &Prices, after: &Prices) -> Result<bool, AllocError>
    ensures sent { IfOk result (λ sent. IsTrue sent → replica.old.content ≡ before.now.content
        → replica.new.content ≡ after.now.content) }
    ensures not_sent { IfOk result (λ sent. sent ≡ false → replica.new ≡ replica.old) }
    ensures refused { OnErr result (replica.new ≡ replica.old) }
{
    // (its contract says that changes which are made on the old map give the new one)
    patches_set_what_changed::<u64>();
    if !has_room(replica, before, after)? {
        return Ok(false);
    }
    replica.patch(before, after)?;
    Ok(true)
}

// Whether a number has room for the changes from one version to another.
fn has_room<K: KeyTrait, V: Clone + Drop + Eq>(
    version: &VersionedAdaptiveRadixTree<K, V>,
    before: &VersionedAdaptiveRadixTree<K, V>,
    after: &VersionedAdaptiveRadixTree<K, V>,
) -> Result<bool, AllocError>
    ensures { IfOk result (λ has. IsTrue has
        → HasRoom version.now (length (changes V.eq before.now.content after.now.content))) }
{
    let left = u64::MAX - version.version();
    Ok(before.diff_count(after)? <= u128::from(left))
}

// Sets prices, or takes out the names without one, where there is room for it.
fn set_prices(list: &mut Prices, prices: &[(&str, Option<u64>)]) -> Result<(), AllocError> {
    for (name, price) in prices {
        if list.version() < u64::MAX {
            match price {
                Some(price) => {
                    list.insert_bytes(*name, *price)?;
                }
                None => {
                    list.remove_bytes(*name)?;
                }
            }
        }
    }
    Ok(())
}

fn print_prices(rt: &HostRuntime, title: &str, list: &Prices) -> anyhow::Result<()> {
    println!(rt; "{title}")?;
    for item in list.iter()? {
        let (name, price) = item?;
        println!(rt; "  {} {price}", str::from_utf8(name.as_ref())?)?;
    }
    Ok(())
}

// Sends what changed from the snapshot that was sent last to one that is taken now, which is sent
// last then.
fn sync(
    rt: &HostRuntime,
    list: &Prices,
    sent: &mut Prices,
    replica: &mut Prices,
) -> anyhow::Result<()> {
    let now = list.clone()?;
    let count = sent.diff_count(&now)?;
    if !send(replica, sent, &now)? {
        println!(rt; "the replica was changed too often")?;
        return Ok(());
    }
    *sent = now;
    print_prices(rt, "replica", replica)?;
    println!(rt;
        "it was sent {count} changes, and equals the list: {}",
        replica.equals(list)?
    )?;
    Ok(())
}

pub fn show(rt: &HostRuntime) -> anyhow::Result<()> {
    let alloc = rt.alloc();
    let mut list = Prices::new(alloc);
    let mut sent = Prices::new(alloc);
    let mut replica = Prices::new(alloc);
    set_prices(
        &mut list,
        &[("milk", Some(100)), ("salt", Some(90)), ("tea", Some(300))],
    )?;
    sync(rt, &list, &mut sent, &mut replica)?;
    set_prices(
        &mut list,
        &[
            ("coffee", Some(400)),
            ("milk", None),
            ("salt", Some(90)),
            ("tea", Some(310)),
        ],
    )?;
    sync(rt, &list, &mut sent, &mut replica)?;
    sync(rt, &list, &mut sent, &mut replica)
}
