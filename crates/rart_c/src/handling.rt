//! What the handles of both kinds of trees have in common, and the changes that are alike.
ghost use Rattle.std.specs.Prelude.{◌≡◌, ◌≤◌, length, IsSome, IsTrue, MatchResult, OnErr, OnOk};
ghost use Rattle.rart_below.specs.Clones.{ClonesEqual};
ghost use Rattle.rart_c.specs.Answers.{Explains, ExplainsRise};
ghost use Rattle.rart_c.specs.Shown.{shown};
ghost use Rattle.rart_c.specs.Trees.{of_version, with_longest};
ghost use Rattle.rart_maps.specs.Changes.{Changes, removal, replacement};
ghost use Rattle.rart_maps.specs.Pairs.{under};
ghost use Rattle.rart_maps.specs.Prefixes.{after_prefix_removal, after_prefix_restoring, has_under};
ghost use Rattle.rart_maps.specs.Versions.{HasRoom, has_key, has_no_key};

use crate::answer::Refusal;
use crate::table::{Table, or_empty};
use rart_saved::SavedValue;
use std::alloc::{AllocError, Global};

/// A tree as C holds it. Contracts see the tree that it shows.
pub(crate) trait Handle: Drop {
    ghost use Rattle.std.specs.Prelude.{◌≡◌, MatchOption};
    ghost use Rattle.std.specs.Borrow.{LendsIf, sem};
    ghost use Rattle.rart_c.specs.Rests.{Rests};
    ghost use Rattle.rart_c.specs.Shown.{shown};
    ghost use Rattle.rart_c.specs.Trees.{Tree, tree_at};
    ghost use Rattle.rart_c.specs.contracts.table.Table.{the_row};

    type Value: SavedValue + Eq;

    /// The tree that it shows.
    ghost shows: { Self → Tree Self.Value };

    /// The same handle where it shows this tree.
    ghost showing: { Self → Tree Self.Value → Self };

    /// One that shows a tree as it is at first.
    fn empty(alloc: Global) -> Self
        ensures { shows result ≡ tree_at 0 };

    /// One that leads to this table.
    fn of(table: Box<Table<Self::Value>>) -> Self
        ensures { shows result ≡ table.value };

    /// Lends the table, if there is one. What is then stored there the handle shows.
    fn table_mut(&mut self) -> Option<&mut Table<Self::Value>>
        ensures* lends { sem 𝓛 (LendsIf Self.row
            (the_row Self.Value.row ⟦<Self::Value as Clone>⟧) self.entry result
            (showing self.old) self.old) }
        ensures table { MatchOption result (shows self.old ≡ tree_at 0)
            (λ table. table.now ≡ shows self.old) };

    /// Lends the table to a read, if there is one. The handle shows what it showed.
    fn table(&mut self) -> Option<&Table<Self::Value>>
        ensures* same { sem 𝓛 (Rests Self.row self.entry) }
        ensures table { shown result ≡ shows self.old };

    ghost shows_it: { (handle : Self) (tree : Tree Self.Value)
        → shows (showing handle tree) ≡ tree };
}

/// Sets a key to a value, and gives the value that was replaced.
pub(crate) fn insert<H: Handle>(
    alloc: Global,
    tree: &mut H,
    key: &[u8],
    value: H::Value,
) -> Result<Option<H::Value>, Refusal>
    requires clones { ClonesEqual H.Value.is_clone }
    requires short { length key.now ≤ (H.shows tree.old).longest }
    ensures changes { Changes result (H.shows tree.old).version (H.shows tree.new).version
        (replacement (H.shows tree.old).version key.now value) }
    ensures room { MatchResult result (λ _. HasRoom (H.shows tree.old).version 1)
        (Explains (H.shows tree.old).version) }
    ensures longest { (H.shows tree.new).longest ≡ (H.shows tree.old).longest }
{
    if let Some(table) = tree.table_mut() {
        return table.insert(key, value);
    }
    let mut table = Box::new(alloc, Table::new_at(alloc, 0))?;
    let told = table.insert(key, value);
    *tree = H::of(table);
    told
}

/// Takes a key out, and gives its value. Without the key nothing changes, and it isn't refused.
pub(crate) fn remove<H: Handle>(tree: &mut H, key: &[u8]) -> Result<Option<H::Value>, Refusal>
    requires clones { ClonesEqual H.Value.is_clone }
    ensures changes { Changes result (H.shows tree.old).version (H.shows tree.new).version
        (removal (H.shows tree.old).version key.now) }
    ensures room { MatchResult result
        (λ found. IsSome found → HasRoom (H.shows tree.old).version 1)
        (Explains (H.shows tree.old).version) }
    ensures present { OnErr result (IsTrue (has_key (H.shows tree.old).version key.now)) }
    ensures longest { (H.shows tree.new).longest ≡ (H.shows tree.old).longest }
{
    match tree.table_mut() {
        None => Ok(None),
        Some(table) => table.remove(key),
    }
}

/// Takes out all pairs whose key the prefix begins, and says how many. Without any nothing changes,
/// and it isn't refused.
pub(crate) fn remove_prefix<H: Handle>(tree: &mut H, prefix: &[u8]) -> Result<usize, Refusal>
    requires clones { ClonesEqual H.Value.is_clone }
    ensures changes { Changes result (H.shows tree.old).version (H.shows tree.new).version (
      length (under (H.shows tree.old).version.content prefix.now),
      after_prefix_removal (H.shows tree.old).version prefix.now,
    ) }
    ensures room { MatchResult result
        (λ _. IsTrue (has_under (H.shows tree.old).version prefix.now)
        → HasRoom (H.shows tree.old).version 1) (Explains (H.shows tree.old).version) }
    ensures present { OnErr result (IsTrue (has_under (H.shows tree.old).version prefix.now)) }
    ensures longest { (H.shows tree.new).longest ≡ (H.shows tree.old).longest }
{
    match tree.table_mut() {
        None => Ok(0),
        Some(table) => table.remove_prefix(prefix),
    }
}

/// Puts in place of the pairs whose key the prefix begins those that another tree has there, the
/// number then the sum of both.
pub(crate) fn restore_prefix<H: Handle>(
    alloc: Global,
    tree: &mut H,
    prefix: &[u8],
    from: Option<&Table<H::Value>>,
) -> Result<(), Refusal>
    requires clones { ClonesEqual H.Value.is_clone }
    requires short { (shown from).longest ≤ (H.shows tree.old).longest }
    ensures restored { OnOk result (H.shows tree.new ≡ of_version (H.shows tree.old)
        (after_prefix_restoring (H.shows tree.old).version prefix.now
        (shown from.entry).version)) }
    ensures refused { OnErr result (H.shows tree.new ≡ H.shows tree.old) }
    ensures room { MatchResult result
        (λ _. HasRoom (H.shows tree.old).version (shown from.entry).version.number)
        (ExplainsRise (H.shows tree.old).version (shown from.entry).version.number) }
{
    let none = Table::new_at(alloc, 0);
    let from = or_empty(from, &none);
    if let Some(table) = tree.table_mut() {
        return table.restore_prefix(prefix, from);
    }
    let mut table = Table::new_at(alloc, 0);
    table.restore_prefix(prefix, from)?;
    *tree = H::of(Box::new(alloc, table)?);
    Ok(())
}

/// Sets how long a key may be.
pub(crate) fn set_longest<H: Handle>(
    alloc: Global,
    tree: &mut H,
    longest: usize,
) -> Result<(), AllocError>
    requires { IsTrue (has_no_key (H.shows tree.old).version) }
    ensures set { OnOk result (H.shows tree.new ≡ with_longest (H.shows tree.old) longest) }
    ensures refused { OnErr result (H.shows tree.new ≡ H.shows tree.old) }
{
    if let Some(table) = tree.table_mut() {
        table.set_longest(longest);
        return Ok(());
    }
    let mut table = Box::new(alloc, Table::new_at(alloc, 0))?;
    table.set_longest(longest);
    *tree = H::of(table);
    Ok(())
}
