//! A version is written as bytes.
ghost use Rattle.std.specs.Prelude.{◌≡◌, ◌++◌, ℕ, List, [], length, IfOk, OnOk};
ghost use Rattle.std.specs.FinMap as finite;
ghost use Rattle.rart_maps.specs.Pairs.{pairs};
ghost use Rattle.rart_saved.specs.Fills.{Fills};
ghost use Rattle.rart_saved.specs.Forms.{entries, head, saved};
ghost use Rattle.rart_saved.specs.Numbers.{leb};

use crate::entries::put_entry;
use crate::head::head_of;
use crate::numbers::put_number;
use crate::sink::{Room, Sink};
use crate::value::SavedValue;
use rart_versioned::{KeyTrait, VersionedAdaptiveRadixTree};
use std::alloc::{AllocError, Global};
use std::ops::Bound;

/// A version as bytes. They are of its map and its number alone, so equal versions have equal
/// bytes, whatever their trees' keys are kept in.
///
/// ```
/// let bytes = save_slice(alloc, &prices)?;
/// ```
pub fn save_slice<K: KeyTrait, V: SavedValue>(
    alloc: Global,
    tree: &VersionedAdaptiveRadixTree<K, V>,
) -> Result<Vec<u8>, AllocError>
    ensures { IfOk result (λ bytes. bytes.items ≡ saved V.written V.KIND tree.now) }
{
    // (to count the keys first takes longer than to copy the pairs behind their count)
    let mut listed = Vec::new(alloc);
    let count = put_pairs(alloc, tree, &mut listed)?;
    let mut bytes = front_of(alloc, V::KIND, tree.version(), count)?;
    bytes.put(listed.as_slice())?;
    bytes.put_sum()?;
    Ok(bytes)
}

/// Writes a version's bytes, as `save_slice` gives them, over the first of `room`, and gives how
/// many they are. The tree has `count` keys.
///
/// ```
/// let mut room = [0; 1024];
/// let len = save_into(alloc, &prices, count, &mut room)?;
/// let is_there = len <= room.len();
/// ```
///
/// Where `room` has fewer it still gives how many; what `room` then has is unspecified, as where
/// memory is refused. It goes once through the pairs, and takes memory for that walk and for one
/// pair, none for all. More bytes than a `usize` tells are refused too.
pub fn save_into<K: KeyTrait, V: SavedValue>(
    alloc: Global,
    tree: &VersionedAdaptiveRadixTree<K, V>,
    count: u64,
    room: &mut [u8],
) -> Result<usize, AllocError>
    requires { count ≡ finite.len tree.now.content }
    ensures { IfOk result (Fills room.old (saved V.written V.KIND tree.now) room.new) }
{
    let mut sink = Room::new(room);
    put_version(alloc, tree, count, &mut sink)?;
    Ok(sink.end)
}

/// How many bytes `save_into` writes. The tree has `count` keys.
///
/// ```
/// let len = saved_len(alloc, &prices, count)?;
/// ```
///
/// It goes once through the pairs, and is refused as `save_into` is.
pub fn saved_len<K: KeyTrait, V: SavedValue>(
    alloc: Global,
    tree: &VersionedAdaptiveRadixTree<K, V>,
    count: u64,
) -> Result<usize, AllocError>
    requires { count ≡ finite.len tree.now.content }
    ensures { IfOk result (λ len. len ≡ length (saved V.written V.KIND tree.now)) }
{
    save_into(alloc, tree, count, &mut [])
}

/// Writes a version of `count` keys into an empty sink.
fn put_version<K: KeyTrait, V: SavedValue, S: Sink>(
    alloc: Global,
    tree: &VersionedAdaptiveRadixTree<K, V>,
    count: u64,
    sink: &mut S,
) -> Result<(), AllocError>
    requires { count ≡ finite.len tree.now.content }
    ensures { OnOk result ((start : S) → S.holds start [] sink.old
        → S.holds start (saved V.written V.KIND tree.now) sink.new) }
{
    let front = front_of(alloc, V::KIND, tree.version(), count)?;
    sink.put(front.as_slice())?;
    let _count = put_pairs(alloc, tree, sink)?;
    sink.put_sum()?;
    Ok(())
}

/// What stands before the pairs of a version.
fn front_of(alloc: Global, kind: u8, number: u64, count: u64) -> Result<Vec<u8>, AllocError>
    ensures { IfOk result (λ front. front.items ≡ head kind ++ leb number ++ leb count) }
{
    let mut front = Vec::new(alloc);
    front.extend_from_slice(&head_of(kind))?;
    put_number(&mut front, number)?;
    put_number(&mut front, count)?;
    Ok(front)
}

/// Writes the pairs, each behind the one before it, and gives how many they are.
fn put_pairs<K: KeyTrait, V: SavedValue, S: Sink>(
    alloc: Global,
    tree: &VersionedAdaptiveRadixTree<K, V>,
    sink: &mut S,
) -> Result<u64, AllocError>
    ensures listed { OnOk result ((start : S) (done : List ℕ) → S.holds start done sink.old
        → S.holds start (done ++ entries V.written [] (pairs tree.now.content)) sink.new) }
    ensures count { IfOk result (λ count. count ≡ length (pairs tree.now.content)) }
{
    tree.know_keys_for_proof();
    let mut count = 0;
    let mut cursor = tree.cursor_from(Bound::Unbounded)?;
    let mut before = Vec::new(alloc);
    let mut form = Vec::new(alloc);
    'listing: while let Some(value) = cursor.next_value()? {
        form.clear();
        put_entry(&mut form, &mut before, cursor.key(), value)?;
        sink.put(form.as_slice())?;
        count += 1;
    }
    Ok(count)
}
