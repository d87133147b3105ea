//! Ten functions of a caller that change a few keys. Each promises what these keys have afterwards
//! and that all others have what they had. Where there are several changes they are made in a copy,
//! so that a refusal leaves all as it was.
ghost use Rattle.std.specs.Prelude.{◌≡◌, ◌≢◌, ◌+◌, ◌-◌, ◌≤◌, ◌<◌, ◌^◌, ℕ, List, Some, None, IsTrue, IfOk, OnOk, OnErr, unwrap_or, false};
ghost use Rattle.rart_maps.specs.Versions.{HasRoom, has_key, value_at};

use rart_versioned::{VectorKey, VersionedAdaptiveRadixTree};
use std::alloc::AllocError;

/// A number for each key.
pub type Counts = VersionedAdaptiveRadixTree<VectorKey, u64>;

/// Sets a key twice: it has the second value.
pub fn set_twice(
    counts: &mut Counts,
    key: &VectorKey,
    first: u64,
    second: u64,
) -> Result<(), AllocError>
    requires room { HasRoom counts.old 2 }
    ensures set { OnOk result (value_at counts.new key.now.bytes.items ≡ Some second) }
    ensures others { OnOk result ((other : List ℕ) → other ≢ key.now.bytes.items
        → value_at counts.new other ≡ value_at counts.old other) }
    ensures refused { OnErr result (counts.new ≡ counts.old) }
{
    let mut changed = counts.clone()?;
    changed.insert_k(key, first)?;
    changed.insert_k(key, second)?;
    *counts = changed;
    Ok(())
}

/// Sets three keys, each to a value of its own.
pub fn set_three(
    counts: &mut Counts,
    one: &VectorKey,
    two: &VectorKey,
    three: &VectorKey,
    values: (u64, u64, u64),
) -> Result<(), AllocError>
    requires room { HasRoom counts.old 3 }
    requires one_is_not_two { one.now.bytes.items ≢ two.now.bytes.items }
    requires one_is_not_three { one.now.bytes.items ≢ three.now.bytes.items }
    requires two_is_not_three { two.now.bytes.items ≢ three.now.bytes.items }
    ensures one { OnOk result (value_at counts.new one.now.bytes.items ≡ Some values.0) }
    ensures two { OnOk result (value_at counts.new two.now.bytes.items ≡ Some values.1) }
    ensures three { OnOk result (value_at counts.new three.now.bytes.items ≡ Some values.2) }
    ensures others { OnOk result ((other : List ℕ) → other ≢ one.now.bytes.items
        → other ≢ two.now.bytes.items → other ≢ three.now.bytes.items
        → value_at counts.new other ≡ value_at counts.old other) }
    ensures refused { OnErr result (counts.new ≡ counts.old) }
{
    let mut changed = counts.clone()?;
    changed.insert_k(one, values.0)?;
    changed.insert_k(two, values.1)?;
    changed.insert_k(three, values.2)?;
    *counts = changed;
    Ok(())
}

/// Adds one to the number of a key, which is 0 where the key is absent.
pub fn count_up(counts: &mut Counts, key: &VectorKey) -> Result<(), AllocError>
    requires room { HasRoom counts.old 1 }
    requires fits { unwrap_or (value_at counts.old key.now.bytes.items) 0 + 1 < 2 ^ 64 }
    ensures counted { OnOk result (value_at counts.new key.now.bytes.items
        ≡ Some (unwrap_or (value_at counts.old key.now.bytes.items) 0 + 1)) }
    ensures others { OnOk result ((other : List ℕ) → other ≢ key.now.bytes.items
        → value_at counts.new other ≡ value_at counts.old other) }
    ensures refused { OnErr result (counts.new ≡ counts.old) }
{
    let count = counts.get_k(key).copied().unwrap_or(0);
    counts.insert_k(key, count + 1)?;
    Ok(())
}

/// The number of a key. Where it is absent it gets this one.
pub fn get_or_insert(counts: &mut Counts, key: &VectorKey, value: u64) -> Result<u64, AllocError>
    requires room { HasRoom counts.old 1 }
    ensures found { IfOk result (λ found.
        found ≡ unwrap_or (value_at counts.old key.now.bytes.items) value) }
    ensures there { IfOk result (λ found. value_at counts.new key.now.bytes.items ≡ Some found) }
    ensures others { OnOk result ((other : List ℕ) → other ≢ key.now.bytes.items
        → value_at counts.new other ≡ value_at counts.old other) }
    ensures refused { OnErr result (counts.new ≡ counts.old) }
{
    if let Some(there) = counts.get_k(key) {
        return Ok(*there);
    }
    counts.insert_k(key, value)?;
    Ok(value)
}

/// Sets a key where it has the number that is expected, and says whether it had.
pub fn compare_and_set(
    counts: &mut Counts,
    key: &VectorKey,
    expected: u64,
    value: u64,
) -> Result<bool, AllocError>
    requires room { HasRoom counts.old 1 }
    ensures set { IfOk result (λ had. IsTrue had
        → (value_at counts.old key.now.bytes.items ≡ Some expected)
        × (value_at counts.new key.now.bytes.items ≡ Some value)) }
    ensures kept { IfOk result (λ had. had ≡ false
        → (value_at counts.old key.now.bytes.items ≢ Some expected) × (counts.new ≡ counts.old)) }
    ensures others { OnOk result ((other : List ℕ) → other ≢ key.now.bytes.items
        → value_at counts.new other ≡ value_at counts.old other) }
    ensures refused { OnErr result (counts.new ≡ counts.old) }
{
    if counts.get_k(key).copied() != Some(expected) {
        return Ok(false);
    }
    counts.insert_k(key, value)?;
    Ok(true)
}

/// Takes a key out and puts its number back, if it has one.
pub fn take_and_put_back(counts: &mut Counts, key: &VectorKey) -> Result<(), AllocError>
    requires room { HasRoom counts.old 2 }
    ensures back { OnOk result (value_at counts.new key.now.bytes.items
        ≡ value_at counts.old key.now.bytes.items) }
    ensures others { OnOk result ((other : List ℕ) → other ≢ key.now.bytes.items
        → value_at counts.new other ≡ value_at counts.old other) }
    ensures refused { OnErr result (counts.new ≡ counts.old) }
{
    let mut changed = counts.clone()?;
    if let Some(value) = changed.remove_k(key)? {
        changed.insert_k(key, value)?;
    }
    *counts = changed;
    Ok(())
}

/// Moves the number of a key to another key, and says whether there was one.
pub fn move_value(counts: &mut Counts, from: &VectorKey, to: &VectorKey) -> Result<bool, AllocError>
    requires room { HasRoom counts.old 2 }
    requires apart { from.now.bytes.items ≢ to.now.bytes.items }
    ensures had { IfOk result (λ had. had ≡ has_key counts.old from.now.bytes.items) }
    ensures moved { IfOk result (λ had. IsTrue had
        → value_at counts.new to.now.bytes.items ≡ value_at counts.old from.now.bytes.items) }
    ensures gone { OnOk result (value_at counts.new from.now.bytes.items ≡ None) }
    ensures others { OnOk result ((other : List ℕ) → other ≢ from.now.bytes.items
        → other ≢ to.now.bytes.items → value_at counts.new other ≡ value_at counts.old other) }
    ensures refused { OnErr result (counts.new ≡ counts.old) }
{
    let mut changed = counts.clone()?;
    let Some(value) = changed.remove_k(from)? else {
        return Ok(false);
    };
    changed.insert_k(to, value)?;
    *counts = changed;
    Ok(true)
}

/// Swaps the numbers of two keys, if both have one, and says whether they have.
pub fn swap(counts: &mut Counts, one: &VectorKey, two: &VectorKey) -> Result<bool, AllocError>
    requires room { HasRoom counts.old 2 }
    requires apart { one.now.bytes.items ≢ two.now.bytes.items }
    ensures one { IfOk result (λ both. IsTrue both
        → value_at counts.new one.now.bytes.items ≡ value_at counts.old two.now.bytes.items) }
    ensures two { IfOk result (λ both. IsTrue both
        → value_at counts.new two.now.bytes.items ≡ value_at counts.old one.now.bytes.items) }
    ensures others { OnOk result ((other : List ℕ) → other ≢ one.now.bytes.items
        → other ≢ two.now.bytes.items → value_at counts.new other ≡ value_at counts.old other) }
    ensures refused { OnErr result (counts.new ≡ counts.old) }
{
    let (Some(first), Some(second)) = (counts.get_k(one).copied(), counts.get_k(two).copied())
    else {
        return Ok(false);
    };
    let mut changed = counts.clone()?;
    changed.insert_k(one, second)?;
    changed.insert_k(two, first)?;
    *counts = changed;
    Ok(true)
}

/// Gives `amount` of one key's number to another key.
pub fn transfer(
    counts: &mut Counts,
    from: &VectorKey,
    to: &VectorKey,
    amount: u64,
) -> Result<(), AllocError>
    requires room { HasRoom counts.old 2 }
    requires apart { from.now.bytes.items ≢ to.now.bytes.items }
    requires enough { amount ≤ unwrap_or (value_at counts.old from.now.bytes.items) 0 }
    requires fits { unwrap_or (value_at counts.old to.now.bytes.items) 0 + amount < 2 ^ 64 }
    ensures given { OnOk result (value_at counts.new from.now.bytes.items
        ≡ Some (unwrap_or (value_at counts.old from.now.bytes.items) 0 - amount)) }
    ensures taken { OnOk result (value_at counts.new to.now.bytes.items
        ≡ Some (unwrap_or (value_at counts.old to.now.bytes.items) 0 + amount)) }
    ensures others { OnOk result ((other : List ℕ) → other ≢ from.now.bytes.items
        → other ≢ to.now.bytes.items → value_at counts.new other ≡ value_at counts.old other) }
    ensures refused { OnErr result (counts.new ≡ counts.old) }
{
    let left = counts.get_k(from).copied().unwrap_or(0) - amount;
    let gained = counts.get_k(to).copied().unwrap_or(0) + amount;
    let mut changed = counts.clone()?;
    changed.insert_k(from, left)?;
    changed.insert_k(to, gained)?;
    *counts = changed;
    Ok(())
}

/// Sets a key, looks, and goes back to the snapshot that it took before: what the key had
/// meanwhile.
pub fn try_and_undo(
    counts: &mut Counts,
    key: &VectorKey,
    value: u64,
) -> Result<Option<u64>, AllocError>
    requires room { HasRoom counts.old 1 }
    ensures seen { IfOk result (λ seen. seen ≡ Some value) }
    ensures undone { OnOk result ((any : List ℕ)
        → value_at counts.new any ≡ value_at counts.old any) }
    ensures refused { OnErr result (counts.new ≡ counts.old) }
{
    let before = counts.snapshot()?;
    counts.insert_k(key, value)?;
    let seen = counts.get_k(key).copied();
    *counts = before;
    Ok(seen)
}
