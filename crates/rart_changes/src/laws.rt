//! The laws of tracked versions and of merges, each the contract of a function that does nothing.

pub mod merging;
pub mod tracked;
