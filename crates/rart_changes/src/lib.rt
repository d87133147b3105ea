//! What changed between versions, and what such changes make of others.
//!
//! `tracked` has versions that know which keys were touched since they began, so what changed is
//! found by entering few nodes for each of these, whatever the size of the map. `merging` has
//! patches and merges: the changes from one version to another, made on a third.
#![tactic(auto)]

pub mod laws;
mod merging;
mod tracked;

pub use merging::Merging;
pub use tracked::{KeyChange, TrackedTree};
