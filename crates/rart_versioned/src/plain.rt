// Ported from rart 0.11.0 (Apache-2.0), and rewritten.
//! Whatever makes a `Work` of its own, or calls what does: the forms that count nothing, and the
//! iterators, whose `next` makes one.

mod algebra;
mod count;
mod debug;
mod diff;
mod extend;
mod first;
mod get_mut;
mod insert;
mod intersect;
mod iterators;
mod last;
mod longest;
mod lookup;
mod prefixes;
mod remove;
mod retain;
mod sorted;
mod try_insert;
mod unversioned;
mod update;
mod visitors;
mod visitors_back;
mod within;

pub use iterators::{
    VersionedCursor, VersionedCursorRev, VersionedIter, VersionedPrefixMatchIter, VersionedRange,
    VersionedRangeRev, VersionedRevIter, VersionedSliceRange, VersionedSliceRangeRev,
    VersionedValuesIter, VersionedValuesRevIter,
};
pub use try_insert::InsertError;
