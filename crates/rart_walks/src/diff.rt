//! What two trees of nodes differ in: a walk over both at once, from change to change.
//!
//! Two walks, one over each tree, are merged by their keys, so each node of either is entered at
//! most once. The visitors call a closure on each key at which the trees differ, in order. They
//! know prefixes and pointers, and no key type but for the keys that they make.

mod changes;
mod count;
mod keys;
mod order;
mod side;
mod views;

pub use count::{are_equal, count_changes};
pub use keys::visit_changed_keys;
pub use views::{visit_changed_views, visit_changed_views_until};
