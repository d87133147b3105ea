//! Families of versions of an ordered map: commands on them, and their replies.
//!
//! A run of commands answers as separate sorted maps would, each copied when its version was made:
//! `Family::run` says so, and what it costs. The names that a user of families needs of
//! `rart_versioned` are given again.
#![tactic(auto)]

mod family;
pub mod laws;

pub use family::{Command, Failure, Family, Reply};
pub use rart_versioned::{
    ArrPartial, ArrayKey, DirectMapping, GrowError, IndexedMapping, KeyTrait, LendingKeyView,
    NodeMapping, NodeRef, Partial, Refusal, Slot, SlotUpdate, SortedKeyedMapping, VectorKey,
    VectorPartial, VersionedAdaptiveRadixTree, VersionedIter, VersionedNode, VersionedNodeIter,
    VersionedPrefixMatchIter, VersionedRange, VersionedValuesIter, VisitControl, Work,
};
