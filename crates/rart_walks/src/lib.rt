// Ported from rart 0.11.0 (Apache-2.0), and rewritten.
//! The walks over trees of nodes, in the order of their keys.
//!
//! A walk (`walk`) goes from node to node with a stack on the heap, gives the values in order, and
//! keeps the way to where it stands on a key path. A walk back (`walk_back`) gives them from the
//! last to the first. Over these stand the visits of one tree (`visits`), over the first those
//! of what two trees differ in (`diff`). They know prefixes and pointers, and no key type but for
//! the keys that they make.
#![tactic(auto)]

mod diff;
mod trail;
mod visits;
mod walk;
mod walk_back;

pub use diff::{
    are_equal, count_changes, visit_changed_keys, visit_changed_views, visit_changed_views_until,
};
pub use rart_node::{BytesPath, KeyPath, NoPath, SegmentsPath};
pub use visits::{
    visit_values, visit_values_until, visit_views, visit_views_back, visit_views_back_until,
    visit_views_until, visit_views_up_to,
};
pub use walk::Walk;
pub use walk_back::WalkBack;
