//! What two trees of nodes make together: what the one has and the other lacks, what both have, and
//! what either has, or one alone.
//!
//! One recursion goes down both trees, node beside node, as far as they are alike. It cuts the left
//! one, or adds to it what the right one has beside it. What stays whole of either is taken as a
//! shared pointer. It knows prefixes and pointers, and no key type.
#![tactic(auto)]

mod among;
mod common;
mod difference;
mod gain;
mod made;
mod part;
mod steps;
mod union;

pub use common::common_below;
pub use difference::difference_below;
pub use union::{symmetric_difference_below, union_below};
