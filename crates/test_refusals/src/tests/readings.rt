//! The iterators over a version, and the calls that tell what changed from it to another.
ghost use Rattle.std.specs.Iterator.{IsFinite};

use super::begun::{Version, key_of};
use super::fragile::Fragile;
use rart_family::{LendingKeyView, VectorKey, VisitControl};
use std::alloc::{AllocError, Global};
use std::ops::Bound;

/// An iterator or a call.
#[derive(Clone, Copy)]
pub enum Reading {
    Iter,
    IterBack,
    Values,
    ValuesBack,
    Range,
    RangeBack,
    Prefix,
    PrefixBack,
    PrefixMatches,
    Diff,
    DiffByViews,
    DiffUntil,
    DiffCount,
    Equals,
}

impl Reading {
    /// Reads the base, or what changed in theirs, and answers whether all was told.
    pub fn read(self, alloc: Global, base: &Version, theirs: &Version) -> Result<bool, AllocError> {
        match self {
            Reading::Diff | Reading::DiffByViews | Reading::DiffUntil => {
                Ok(tell(self, base, theirs)? == 2)
            }
            Reading::DiffCount => Ok(base.diff_count(theirs)? == 2),
            Reading::Equals => Ok(!base.equals(theirs)?),
            Reading::PrefixMatches => Ok(give(self, alloc, base)? == 5),
            Reading::IterBack | Reading::ValuesBack | Reading::RangeBack | Reading::PrefixBack =>
                Ok(give_back(self, alloc, base)? == 8),
            _ => Ok(give(self, alloc, base)? == 8),
        }
    }
}

// How many items an iterator gives. It is made twice, in case that one is refused: what is refused
// then comes on its way.
fn give(reading: Reading, alloc: Global, base: &Version) -> Result<usize, AllocError> {
    let prefix = key_of(alloc, b"")?;
    let probe = key_of(alloc, b"eeeeee")?;
    match reading {
        Reading::Values => count(base.values_iter().or(base.values_iter())?),
        Reading::Range => {
            let range = base.range((Bound::Unbounded, Bound::Unbounded));
            count(range.or(base.range((Bound::Unbounded, Bound::Unbounded)))?)
        }
        Reading::Prefix => count(base.prefix_iter_k(&prefix).or(base.prefix_iter(prefix))?),
        Reading::PrefixMatches => count(
            base.prefix_match_iter_k(&probe)
                .or(base.prefix_match_iter(probe))?,
        ),
        _ => count(base.iter().or(base.iter())?),
    }
}

// The same, from the last item on.
fn give_back(reading: Reading, alloc: Global, base: &Version) -> Result<usize, AllocError> {
    let prefix = key_of(alloc, b"")?;
    match reading {
        Reading::ValuesBack => count(base.values_iter_rev().or(base.values_iter_rev())?),
        Reading::RangeBack => {
            let range = base.range_rev((Bound::Unbounded, Bound::Unbounded));
            count(range.or(base.range_rev((Bound::Unbounded, Bound::Unbounded)))?)
        }
        Reading::PrefixBack => count(
            base.prefix_iter_rev(&prefix)
                .or(base.prefix_iter_rev(prefix))?,
        ),
        _ => count(base.iter_rev().or(base.iter_rev())?),
    }
}

fn count<T: Drop, I: Iterator<Item = Result<T, AllocError>>>(items: I) -> Result<usize, AllocError>
    requires can { I.can_next items }
    requires ends { IsFinite (I.remaining items) }
{
    let mut count = 0_usize;
    for item in items {
        item?;
        count = count.saturating_add(1);
    }
    Ok(count)
}

// How many changes are told.
fn tell(reading: Reading, base: &Version, theirs: &Version) -> Result<usize, AllocError> {
    let mut told = 0_usize;
    match reading {
        Reading::DiffByViews => base.diff_lending_with(
            theirs,
            &mut |_key: LendingKeyView<'_, '_>, _old: Option<&Fragile>, _new: Option<&Fragile>| {
                told = told.saturating_add(1);
            },
        )?,
        Reading::DiffUntil => {
            let mut tell = |_key: LendingKeyView<'_, '_>, _old: Option<&Fragile>, _new: Option<
                &Fragile,
            >| -> Result<VisitControl, ()> {
                told = told.saturating_add(1);
                Ok(VisitControl::Continue)
            };
            if base.try_diff_lending_with(theirs, &mut tell).is_err() {
                return Err(AllocError);
            }
        }
        _ => base.diff_with(
            theirs,
            &mut |_key: VectorKey, _old: Option<&Fragile>, _new: Option<&Fragile>| {
                told = told.saturating_add(1);
            },
        )?,
    }
    Ok(told)
}
