//! The part of a table's pairs that another table lacks, and the part that it has too, each as a
//! table of its own: what differs is found by one walk through both, and built in order.
ghost use Rattle.std.specs.Prelude.{◌≡◌, ◌∷◌, ◌++◌, [], IfOk, OnOk};
ghost use Rattle.std.specs.List.{cons_option};
ghost use Rattle.std.specs.Option.{option_copied};
ghost use Rattle.rart_below.specs.Clones.{ClonesEqual};
ghost use Rattle.rart_c.specs.Differences.{ArePairsOf, by_key, difference, intersection, pair_at};
ghost use Rattle.rart_c.specs.Shown.{shown};
ghost use Rattle.rart_c.specs.Trees.{of_content};
ghost use Rattle.rart_maps.specs.Pairs as maps;
ghost use Rattle.rart_versioned.specs.VisitControl.TheVariants.{Continue};

use crate::table::{Table, or_empty};
use rart_versioned::{
    LendingKeyView, SortedError, VectorKey, VersionedAdaptiveRadixTree, VisitControl,
};
use std::alloc::{AllocError, Global};

/// The pairs alone whose key another table lacks, or has with another value; the number stays.
pub(crate) fn difference<V: Clone + Drop + Eq>(
    alloc: Global,
    table: Option<&Table<V>>,
    other: Option<&Table<V>>,
) -> Result<Box<Table<V>>, AllocError>
    requires clones { ClonesEqual V.is_clone }
    ensures { IfOk result (λ part. part.value ≡ of_content (shown table.entry)
        (difference V.eq (shown table.entry).version.content
        (shown other.entry).version.content)) }
{
    let none = Table::new_at(alloc, 0);
    let part = or_empty(table, &none).difference(alloc, or_empty(other, &none))?;
    Ok(Box::new(alloc, part)?)
}

/// The pairs alone whose key another table has too; the number stays.
pub(crate) fn intersection<V: Clone + Drop>(
    alloc: Global,
    table: Option<&Table<V>>,
    other: Option<&Table<V>>,
) -> Result<Box<Table<V>>, AllocError>
    requires clones { ClonesEqual V.is_clone }
    ensures { IfOk result (λ part. part.value ≡ of_content (shown table.entry)
        (intersection (shown table.entry).version.content
        (shown other.entry).version.content)) }
{
    let none = Table::new_at(alloc, 0);
    let part = or_empty(table, &none).intersection(alloc, or_empty(other, &none))?;
    Ok(Box::new(alloc, part)?)
}

impl<V: Clone + Drop> Table<V> {
    fn intersection(&self, alloc: Global, other: &Table<V>) -> Result<Table<V>, AllocError>
        requires clones { ClonesEqual V.is_clone }
        ensures { IfOk result (λ part. part ≡ of_content self.now
            (intersection self.now.version.content other.now.version.content)) }
    {
        let pairs = pairs_in_both(alloc, &self.tree, &other.tree)?;
        self.part(alloc, pairs)
    }

    /// The table of these of its pairs alone.
    fn part(&self, alloc: Global, pairs: Vec<(VectorKey, V)>) -> Result<Table<V>, AllocError>
        requires { ArePairsOf self.now.version.content (by_key pairs.items) }
        ensures pairs { IfOk result
            (λ part. maps.pairs part.version.content ≡ by_key pairs.items) }
        ensures others { IfOk result (λ part. part ≡ of_content self.now part.version.content) }
    {
        let len = pairs.len();
        match VersionedAdaptiveRadixTree::from_sorted_at(alloc, pairs, self.tree.version()) {
            Ok(tree) => Ok(Table {
                tree,
                len,
                longest: self.longest,
            }),
            Err(SortedError::Memory(refused)) => Err(refused),
            Err(SortedError::NotAscending { .. }) => unreachable!(),
        }
    }
}

impl<V: Clone + Drop + Eq> Table<V> {
    fn difference(&self, alloc: Global, other: &Table<V>) -> Result<Table<V>, AllocError>
        requires clones { ClonesEqual V.is_clone }
        ensures { IfOk result (λ part. part ≡ of_content self.now
            (difference V.eq self.now.version.content other.now.version.content)) }
    {
        let pairs = pairs_that_differ(alloc, &self.tree, &other.tree)?;
        self.part(alloc, pairs)
    }
}

/// The pairs of a tree whose key another tree lacks, or has with another value, in order.
fn pairs_that_differ<V: Clone + Drop + Eq>(
    alloc: Global,
    tree: &VersionedAdaptiveRadixTree<VectorKey, V>,
    other: &VersionedAdaptiveRadixTree<VectorKey, V>,
) -> Result<Vec<(VectorKey, V)>, AllocError>
    requires clones { ClonesEqual V.is_clone }
    ensures { IfOk result (λ found. by_key found.items
        ≡ maps.pairs (difference V.eq tree.now.content other.now.content)) }
{
    let mut pairs = Vec::new(alloc);
    tree.try_diff_lending_with::<AllocError, _>(
        other,
        &mut |key: LendingKeyView<'_, '_>, value: Option<&V>, _theirs: Option<&V>|
            requires { ClonesEqual V.is_clone }
            ensures goes_on { IfOk result (λ control. control ≡ Continue) }
            ensures keeps { OnOk result (by_key pairs.exit.items ≡ by_key pairs.entry.items
                ++ cons_option (pair_at key.entry (option_copied value.entry)) []) }
        {
            if let Some(value) = value {
                push(alloc, &mut pairs, &key, value)?;
            }
            Ok(VisitControl::Continue)
        },
    )
    .map_err(|_| AllocError)?;
    Ok(pairs)
}

/// The pairs of a tree whose key another tree has too, in order.
fn pairs_in_both<V: Clone + Drop>(
    alloc: Global,
    tree: &VersionedAdaptiveRadixTree<VectorKey, V>,
    other: &VersionedAdaptiveRadixTree<VectorKey, V>,
) -> Result<Vec<(VectorKey, V)>, AllocError>
    requires clones { ClonesEqual V.is_clone }
    ensures { IfOk result (λ found. by_key found.items
        ≡ maps.pairs (intersection tree.now.content other.now.content)) }
{
    let mut pairs = Vec::new(alloc);
    tree.try_intersect_lending_with(
        other,
        &mut |key: LendingKeyView<'_, '_>, value: &V, _theirs: &V|
            requires { ClonesEqual V.is_clone }
            ensures goes_on { IfOk result (λ control. control ≡ Continue) }
            ensures keeps { OnOk result (by_key pairs.exit.items
                ≡ by_key pairs.entry.items ++ (key.entry, value.entry.now) ∷ []) }
        {
            push(alloc, &mut pairs, &key, value)?;
            Ok(VisitControl::Continue)
        },
    )
    .map_err(|_| AllocError)?;
    Ok(pairs)
}

// (a closure that is called on the way down two trees takes little of the machine's stack so)
#[inline(never)]
fn push<V: Clone + Drop>(
    alloc: Global,
    pairs: &mut Vec<(VectorKey, V)>,
    key: &LendingKeyView<'_, '_>,
    value: &V,
) -> Result<(), AllocError>
    requires clones { ClonesEqual V.is_clone }
    ensures { OnOk result
        (by_key pairs.new.items ≡ by_key pairs.old.items ++ (key.now, value.now) ∷ []) }
{
    pairs.push((key.to_key(alloc)?, value.clone()?))?;
    Ok(())
}
