//! Records by id and time, each under its id, a slash and the time: the newest of an id until a
//! time, and from there its history backwards, a step at a time. An id has no slash: the records of
//! `a/b` would be found as those of `a` too.
ghost use Rattle.std.specs.Prelude.{◌≡◌, ◌<◌, ◌^◌, ℕ, List, Some, IfOk, OnErr, OnOk};
ghost use Rattle.std.specs.Range.Bound.{bound_map};
ghost use Rattle.std.specs.declared.ops.Bound.TheVariants.{Excluded, Included};
ghost use Rattle.rart_maps.specs.Versions.{HasRoom, with_key};
ghost use Rattle.example_uses.specs.Timelines.{KeysAreInTimeOrder, IsLastPair, IsLastUnder, beginning, if_begun, record_key};

use rart_versioned::{VectorKey, VersionedAdaptiveRadixTree};
use std::alloc::{AllocError, Global};
use std::ops::Bound;

type Records = VersionedAdaptiveRadixTree<VectorKey, u64>;

/// A record that was found: its key, and its value.
#[derive(Drop)]
pub struct Record {
    pub key: Vec<u8>,
    pub value: u64,
}

impl Record {
    /// The time that stands at the end of its key; `None` where the key has fewer than 8 bytes.
    pub fn time(&self) -> Option<u64>
        ensures { (id : List ℕ) (time : ℕ) → time < 2 ^ 64
            → self.now.key.items ≡ record_key id time → result ≡ Some time }
    {
        let bytes = self.key.last_chunk::<8>()?;
        Some(u64::from_be_bytes(*bytes))
    }
}

/// The keys of an id are in the order of their times: the last of them is the newest record.
pub fn keys_are_in_time_order()
    ensures { KeysAreInTimeOrder }
{}

/// Puts in what an id's value is from a time on, and says whether there was a record of that time,
/// which it replaces. Refused for memory, all is as before.
pub fn put(
    alloc: Global,
    records: &mut Records,
    id: &[u8],
    time: u64,
    value: u64,
) -> Result<bool, AllocError>
    requires room { HasRoom records.old 1 }
    ensures put { OnOk result
        (records.new ≡ with_key records.old (record_key id.now time) value 1) }
    ensures refused { OnErr result (records.new ≡ records.old) }
{
    let key = key_of(alloc, id, time)?;
    records.insert_bytes(&key, value)
}

/// The newest record of an id that is not after a time: the last key that begins as the id's keys
/// do, up to that of the time. `None` where there is none; or out of memory.
pub fn newest_until(
    alloc: Global,
    records: &Records,
    id: &[u8],
    time: u64,
) -> Result<Option<Record>, AllocError>
    ensures { IfOk result (λ found. IsLastUnder records.now (beginning id.now)
        (Included (record_key id.now time)) found) }
{
    let key = key_of(alloc, id, time)?;
    let last = last_up_to(alloc, records, Bound::Included(key.as_slice()))?;
    Ok(if_begun(last, &key[..id.len() + 1]))
}

/// The record of an id before a time, as `newest_until` tells it, but that the time's own is left
/// out: from a record that was found this steps back to the one before it.
pub fn before(
    alloc: Global,
    records: &Records,
    id: &[u8],
    time: u64,
) -> Result<Option<Record>, AllocError>
    ensures { IfOk result (λ found. IsLastUnder records.now (beginning id.now)
        (Excluded (record_key id.now time)) found) }
{
    let key = key_of(alloc, id, time)?;
    let last = last_up_to(alloc, records, Bound::Excluded(key.as_slice()))?;
    Ok(if_begun(last, &key[..id.len() + 1]))
}

fn key_of(alloc: Global, id: &[u8], time: u64) -> Result<Vec<u8>, AllocError>
    ensures { IfOk result (λ key. key.items ≡ record_key id.now time) }
{
    let mut key = Vec::new(alloc);
    key.extend_from_slice(id)?;
    key.push(b'/')?;
    key.extend_from_slice(&time.to_be_bytes())?;
    Ok(key)
}

// The last record up to a bound, whose ever it is. The first look tells how long its key is.
fn last_up_to(
    alloc: Global,
    records: &Records,
    high: Bound<&[u8]>,
) -> Result<Option<Record>, AllocError>
    ensures { IfOk result (λ found. IsLastPair records.now.content
        (bound_map (λ high. high.now) high.entry) found) }
{
    let Some((len, value)) = records.last_to(high, &mut []) else {
        return Ok(None);
    };
    let value = *value;
    let mut key = vec![in alloc; 0; len]?;
    let _found = records.last_to(high, &mut key);
    Ok(Some(Record { key, value }))
}

// The record, if its key begins so.
fn if_begun(found: Option<Record>, beginning: &[u8]) -> Option<Record>
    ensures { result ≡ if_begun beginning.now found }
{
    let record = found?;
    if record.key.starts_with(beginning) {
        Some(record)
    } else {
        None
    }
}

// Prints an id's records until a time, the newest first, at most so many.
fn print(
    rt: &HostRuntime,
    records: &Records,
    id: &str,
    time: u64,
    most: usize,
) -> anyhow::Result<()> {
    println!(rt; "{id} until {time}")?;
    let mut found = newest_until(rt.alloc(), records, id.as_bytes(), time)?;
    for _step in 0..most {
        let Some(record) = found else {
            return Ok(());
        };
        let since = record.time().unwrap_or(0);
        println!(rt; "  {} since {since}", record.value)?;
        found = before(rt.alloc(), records, id.as_bytes(), since)?;
    }
    Ok(())
}

pub fn show(rt: &HostRuntime) -> anyhow::Result<()> {
    let mut records = Records::new(rt.alloc());
    for (id, time, value) in [
        ("ann", 10, 100),
        ("ann", 300, 95),
        ("ann", 20, 80),
        ("anna", 15, 7),
        ("bob", 20, 50),
    ] {
        if records.version() < u64::MAX {
            put(rt.alloc(), &mut records, id.as_bytes(), time, value)?;
        }
    }
    print(rt, &records, "ann", 299, 9)?;
    print(rt, &records, "ann", 300, 2)?;
    print(rt, &records, "bob", 19, 9)
}
