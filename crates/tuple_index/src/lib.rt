//! Sets of tuples of four columns, with snapshots: queries by the first columns, and joins.
//!
//! An index stands on one versioned tree, whose keys are the tuples' columns. To its users it is a
//! finite set of tuples and a number; nothing of the tree is told.
#![tactic(auto)]

mod index;
pub mod laws;
mod tuple;

pub use index::TupleIndex;
pub use tuple::Tuple;
