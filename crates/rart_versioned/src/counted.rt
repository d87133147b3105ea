// Ported from rart 0.11.0 (Apache-2.0), and rewritten.
//! Whatever counts into a `Work` that it is handed, or counts nothing.

mod algebra;
mod change;
mod diff;
mod first;
mod get_mut;
mod insert;
mod intersect;
mod last;
mod longest;
mod lookup;
pub(crate) mod missing;
mod numbering;
mod prefixes;
mod remove;
mod restoring;
mod sorted;
mod tree;
mod try_update;
mod update;
pub(crate) mod visitors;
mod visitors_back;
pub(crate) mod walks;
pub(crate) mod walks_back;
mod within;

pub use missing::Missing;
pub use sorted::SortedError;
pub use tree::VersionedAdaptiveRadixTree;
