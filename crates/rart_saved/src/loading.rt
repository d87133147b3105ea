//! Bytes are read as a version.
ghost use Rattle.std.specs.Prelude.{◌≡◌, ◌≢◌, ◌↔◌, ◌+◌, ◌≤◌, [], ◌∷◌, ◌++◌, Some, IfErr, IfOk, IsTrue, OnErr, OnOk, drop, length, take, true};
ghost use Rattle.std.specs.FinMap as finite;
ghost use Rattle.sha2.specs.Sha256.{sha256};
ghost use Rattle.rart_below.specs.Bytes.{IsAdmitted};
ghost use Rattle.rart_below.specs.Clones.{ClonesEqual};
ghost use Rattle.rart_maps.specs.Pairs.{pairs};
ghost use Rattle.rart_maps.specs.Versions.{HasRoom, has_no_key, with_key};
ghost use Rattle.rart_saved.specs.Forms.{entries, entry, saved};
ghost use Rattle.rart_saved.specs.Keys.{IsNext};
ghost use Rattle.rart_saved.specs.Loads.{GivesBack, GivesBackWithin, HasKeysWithin, LacksPair, LacksPairs, LacksVersion};
ghost use Rattle.rart_saved.specs.Parts.{HasPart};
ghost use Rattle.rart_saved.specs.Refusals.{OnErrWithin, PointsInto};

use crate::entries::take_entry;
use crate::error::LoadError;
use crate::head::{head_of, take_head};
use crate::numbers::number_at;
use crate::value::SavedValue;
use rart_versioned::{KeyTrait, VersionedAdaptiveRadixTree};
use sha2::{Digest, Sha256};
use std::alloc::{AllocError, Global};

/// The version whose form these bytes are. All others are refused.
///
/// ```
/// let prices: VersionedAdaptiveRadixTree<VectorKey, u64> = load_slice(alloc, bytes)?;
/// ```
///
/// `Memory` comes where memory was refused, and any other error where the bytes are no version's
/// whose keys this key type admits. A length in the bytes is never believed: what is asked of
/// memory grows as bytes come.
pub fn load_slice<K: KeyTrait, V: SavedValue>(
    alloc: Global,
    bytes: &[u8],
) -> Result<VersionedAdaptiveRadixTree<K, V>, LoadError>
    requires clones { ClonesEqual V.is_clone }
    ensures read { IfOk result (λ tree. bytes.now ≡ saved V.written V.KIND tree) }
    ensures gives_back { GivesBack V.written V.KIND K.MAXIMUM_SIZE result bytes.now }
    ensures points { IfErr result (PointsInto bytes.now) }
{
    match read_version(alloc, bytes, None) {
        Ok((tree, _count)) => Ok(tree),
        Err(error) => Err(error),
    }
}

/// As `load_slice`, where no key is longer than a limit, and gives how many keys there are too.
///
/// ```
/// let (prices, count) = load_slice_within::<VectorKey, u64>(alloc, bytes, 64)?;
/// ```
///
/// `TooLong` comes at the first key that is longer: of a version's bytes no other error does but
/// `Memory`. So what is read of a stranger's bytes takes stack by the limit alone.
pub fn load_slice_within<K: KeyTrait, V: SavedValue>(
    alloc: Global,
    bytes: &[u8],
    longest: usize,
) -> Result<(VersionedAdaptiveRadixTree<K, V>, u64), LoadError>
    requires clones { ClonesEqual V.is_clone }
    ensures read { IfOk result (λ found. bytes.now ≡ saved V.written V.KIND found.0) }
    ensures count { IfOk result (λ found. found.1 ≡ finite.len found.0.content) }
    ensures short { IfOk result (λ found. HasKeysWithin (Some longest) found.0) }
    ensures gives_back { GivesBackWithin V.written V.KIND (Some longest) K.MAXIMUM_SIZE result
        bytes.now }
    ensures points { IfErr result (PointsInto bytes.now) }
{
    read_version(alloc, bytes, Some(longest))
}

/// The same, where there is a limit. Refused for another reason than memory, the bytes are no such
/// version's.
fn read_version<K: KeyTrait, V: SavedValue>(
    alloc: Global,
    bytes: &[u8],
    longest: Option<usize>,
) -> Result<(VersionedAdaptiveRadixTree<K, V>, u64), LoadError>
    requires clones { ClonesEqual V.is_clone }
    ensures read { IfOk result (λ found. bytes.now ≡ saved V.written V.KIND found.0) }
    ensures count { IfOk result (λ found. found.1 ≡ finite.len found.0.content) }
    ensures short { IfOk result (λ found. HasKeysWithin longest found.0) }
    ensures refused { OnErrWithin longest K.MAXIMUM_SIZE result
        (λ most. LacksVersion V.written V.KIND most bytes.now) }
    ensures points { IfErr result (PointsInto bytes.now) }
{
    let at = take_head(bytes, &head_of(V::KIND))?;
    let (number, at) = number_at(bytes, at)?;
    let (count, from) = number_at(bytes, at)?;
    if count > number {
        return Err(LoadError::Malformed { at });
    }
    let mut tree = VersionedAdaptiveRadixTree::new_at(alloc, number - count);
    let end = take_pairs(alloc, bytes, from, count, longest, &mut tree)?;
    check_sum(bytes, end)?;
    Ok((tree, count))
}

/// Puts so many pairs, whose forms begin at an offset, into an empty tree, and gives the offset
/// behind them.
fn take_pairs<K: KeyTrait, V: SavedValue>(
    alloc: Global,
    bytes: &[u8],
    at: usize,
    count: u64,
    longest: Option<usize>,
    tree: &mut VersionedAdaptiveRadixTree<K, V>,
) -> Result<usize, LoadError>
    requires clones { ClonesEqual V.is_clone }
    requires inside { at ≤ length bytes.now }
    requires room { HasRoom tree.old count }
    requires empty { tree.old.content ≡ finite.empty }
    ensures read { IfOk result (λ end. HasPart bytes.now at
        (entries V.written [] (pairs tree.new.content)) end) }
    ensures count { OnOk result (finite.len tree.new.content ≡ count) }
    ensures number { OnOk result (tree.new.number ≡ tree.old.number + count) }
    ensures short { OnOk result (HasKeysWithin longest tree.new) }
    ensures refused { OnErrWithin longest K.MAXIMUM_SIZE result
        (λ most. LacksPairs V.written most count (drop at bytes.now)) }
    ensures points { IfErr result (PointsInto bytes.now) }
{
    let mut key = Vec::new(alloc);
    let mut end = at;
    'taking: for _done in 0..count {
        end = take_pair(alloc, bytes, end, longest, &mut key, tree)?;
    }
    Ok(end)
}

/// Puts the pair whose form begins at an offset into the tree, its key into the one before, and
/// gives the offset behind it.
fn take_pair<K: KeyTrait, V: SavedValue>(
    alloc: Global,
    bytes: &[u8],
    at: usize,
    longest: Option<usize>,
    key: &mut Vec<u8>,
    tree: &mut VersionedAdaptiveRadixTree<K, V>,
) -> Result<usize, LoadError>
    requires clones { ClonesEqual V.is_clone }
    requires inside { at ≤ length bytes.now }
    requires room { HasRoom tree.old 1 }
    requires first { has_no_key tree.old ≡ true → key.old.items ≡ [] }
    ensures read { IfOk result (λ end. (x : V)
        × HasPart bytes.now at (entry V.written key.old.items (key.new.items, x)) end
        × (tree.new ≡ with_key tree.old key.new.items x 1)) }
    ensures next { OnOk result (IsNext (has_no_key tree.old) key.old.items key.new.items) }
    ensures short { OnOk result (IsAdmitted longest (length key.new.items)) }
    ensures refused { OnErrWithin longest K.MAXIMUM_SIZE result
        (λ most. LacksPair V.written most (has_no_key tree.old) key.old.items
        (drop at bytes.now)) }
    ensures points { IfErr result (PointsInto bytes.now) }
{
    let (value, end) = take_entry::<K, V>(alloc, bytes, at, longest, tree.is_empty(), key)?;
    tree.insert_bytes(key.as_slice(), value)?;
    Ok(end)
}

/// Puts one more behind the others.
pub(crate) fn push_one<T: Drop>(list: &mut Vec<T>, one: T) -> Result<(), AllocError>
    ensures { OnOk result (list.new.items ≡ list.old.items ++ one ∷ []) }
{
    list.push(one)?;
    Ok(())
}

/// Whether the bytes end with the sum of those before an offset, from there on.
pub(crate) fn check_sum(bytes: &[u8], at: usize) -> Result<(), LoadError>
    requires { at ≤ length bytes.now }
    ensures read { OnOk result (drop at bytes.now ≡ sha256 (take at bytes.now)) }
    ensures refused { OnErr result (drop at bytes.now ≢ sha256 (take at bytes.now)) }
    ensures points { IfErr result (PointsInto bytes.now) }
{
    let rest = &bytes[at..];
    if is_sum(rest, &bytes[..at]) {
        return Ok(());
    }
    if rest.len() < 32 {
        return Err(LoadError::Truncated);
    }
    if rest.len() > 32 {
        return Err(LoadError::Malformed { at: at + 32 });
    }
    Err(LoadError::Checksum)
}

/// Whether these bytes are the sum of those.
fn is_sum(sum: &[u8], bytes: &[u8]) -> bool
    ensures { IsTrue result ↔ (sum.now ≡ sha256 bytes.now) }
{
    let wanted = Sha256::digest(bytes);
    sum == wanted.as_slice()
}
