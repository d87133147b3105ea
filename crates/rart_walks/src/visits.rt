// Ported from rart 0.11.0 (Apache-2.0), and rewritten.
//! Visits of the values of a tree of nodes: calls of a closure on each, in the order of their keys
//! or the other way round.
//!
//! A visitor calls its closure on what a walk has left. It knows prefixes and pointers alone, and
//! no key type.

mod values;
mod views;
mod views_back;

pub use values::{visit_values, visit_values_until};
pub use views::{visit_views, visit_views_until, visit_views_up_to};
pub use views_back::{visit_views_back, visit_views_back_until};
