// Ported from rart 0.11.0 (Apache-2.0), and rewritten.
//! The iterators over a tree: of each what it has left, how it is made, and what comes next.

mod cursor;
mod iter;
mod prefix_match;
mod range;
mod rev_iter;
mod slice_range;
mod values;
mod walkers;

pub use cursor::{CursorOver, VersionedCursor, VersionedCursorRev};
pub use iter::VersionedIter;
pub use prefix_match::VersionedPrefixMatchIter;
pub use range::{RangeOver, VersionedRange, VersionedRangeRev};
pub use rev_iter::VersionedRevIter;
pub use slice_range::{SliceRangeOver, VersionedSliceRange, VersionedSliceRangeRev};
pub use values::{ValuesOver, VersionedValuesIter, VersionedValuesRevIter};
pub use walkers::{KeyWalker, RangeWalker, Walker};
