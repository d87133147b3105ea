// Ported from rart 0.11.0 (Apache-2.0), and rewritten.
//! The ways along a key, from the root of a tree of nodes down to one place.
//!
//! `search` reads: a value, how far down it stands, the keys that begin a key. `insertion` and
//! `removal` put a value in and take one out, `lending` lends one for writing, and `seeking` finds
//! the first key from a bound on, and the last up to one. `prefixes` keeps what stands under a
//! prefix, takes it out, or puts it in its place. `sorted` makes a tree of pairs that ascend.
#![tactic(auto)]

mod insertion;
mod lending;
mod prefixes;
mod removal;
mod search;
mod seeking;
mod sorted;

pub use insertion::{cut, insert_below, leaf_of};
pub use lending::lend_below;
pub use prefixes::{Cleared, clear_below, has_under, keep_under, put_under};
pub use removal::{Removed, remove_below};
pub use search::{
    Passed, get_below, longest_prefix_match, path_length, step, visit_prefix_matches,
};
pub use seeking::{first_from, has_within, last_to};
pub use sorted::tree_of;
