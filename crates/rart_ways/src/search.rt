// Ported from rart 0.11.0 (Apache-2.0), and rewritten.
//! The way that a key takes down a tree, one node at a time: to its value, to how far down that
//! stands, and to the keys that begin it.

mod depth;
pub(crate) mod end;
mod longest;
mod lookup;
mod prefix_matches;
mod steps;

pub use depth::path_length;
pub use longest::longest_prefix_match;
pub use lookup::get_below;
pub use prefix_matches::visit_prefix_matches;
pub use steps::{Passed, step};
