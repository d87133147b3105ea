//! What a version is: a finite map from byte strings to values, and a number. What can be read off
//! maps, what changed between two of them, what a merge makes of three, how many nodes a call on a
//! tree may enter, and the laws that show what these words mean.
#![tactic(auto)]

mod differing;
pub mod laws;

pub use differing::{are_in_conflict, do_differ};
