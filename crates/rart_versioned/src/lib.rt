// Ported from rart 0.11.0 (Apache-2.0), and rewritten.
//! The versioned adaptive radix tree: an ordered map from byte strings to values with a number, and
//! snapshots of it that change independently.
//!
//! To the crates above a tree is a finite map and a number; nothing of its nodes is told.
#![tactic(auto)]

mod counted;
pub mod laws;
mod plain;

pub use counted::{Missing, SortedError, VersionedAdaptiveRadixTree};
pub use plain::{
    InsertError, VersionedCursor, VersionedCursorRev, VersionedIter, VersionedPrefixMatchIter,
    VersionedRange, VersionedRangeRev, VersionedRevIter, VersionedSliceRange,
    VersionedSliceRangeRev, VersionedValuesIter, VersionedValuesRevIter,
};
pub use rart_below::{
    AdaptiveRadixTree, ArrPartial, ArrayKey, DirectMapping, IndexedMapping, KeyTrait,
    LendingKeyView, NodeMapping, Partial, PlainIter, Refusal, Slot, SlotUpdate, SortedKeyedMapping,
    VectorKey, VectorPartial, VisitControl, is_admitted,
};
pub use rart_node::{GrowError, NodeRef, VersionedNode, VersionedNodeIter, Work};
