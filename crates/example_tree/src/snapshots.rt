//! A snapshot answers with the value that its version had when it was taken, whatever the version
//! is told afterwards.
ghost use Rattle.std.specs.Prelude.{◌≡◌, ◌≢◌, Some, IfOk, All, map, length, slice_get};
ghost use Rattle.rart_family.specs.Clones.{ClonesEqual};
ghost use Rattle.rart_family.specs.Replies.{Value, NoMemory, reply_value};

use rart_family::{Command, Family, KeyTrait, Reply, Work};
use std::alloc::{AllocError, Global};

/// Puts a value at a key of a new version, takes a snapshot, puts another value at the same key of
/// the version, and looks the key up in the snapshot: the replies to these five commands.
///
/// Unless memory was refused to one of them, the last one is the first value.
pub fn replies_beside_a_snapshot<K: KeyTrait, V: Clone + Drop>(
    alloc: Global,
    key: &K,
    first: V,
    second: V,
) -> Result<Vec<Reply<K, V>>, AllocError>
    requires clones { ClonesEqual V.is_clone }
    ensures one_each { IfOk result (λ replies. length replies.items ≡ 5) }
    ensures snapshot_keeps_value { IfOk result (λ replies.
        All (λ reply. reply ≢ NoMemory) (map (reply_value K.bytes) replies.items)
        → slice_get (map (reply_value K.bytes) replies.items) 4 ≡ Some (Value (Some first))) }
{
    let mut commands = Vec::new(alloc);
    commands.push(Command::New)?;
    commands.push(Command::Insert {
        place: 0,
        key: copy_of(alloc, key)?,
        value: first,
    })?;
    commands.push(Command::Snapshot { place: 0 })?;
    commands.push(Command::Insert {
        place: 0,
        key: copy_of(alloc, key)?,
        value: second,
    })?;
    commands.push(Command::Get {
        place: 1,
        key: copy_of(alloc, key)?,
    })?;
    let mut family = Family::new(alloc);
    family.run(&commands, &mut Work::new(), &mut Work::new())
}

// Another key with the same bytes.
fn copy_of<K: KeyTrait>(alloc: Global, key: &K) -> Result<K, AllocError>
    ensures { IfOk result (λ copy. K.bytes copy ≡ K.bytes key.now) }
{
    K::new_from_slice(alloc, key.as_ref())
}
