// Ported from rart 0.11.0 (Apache-2.0), and rewritten.
//! Nodes of the tree, the counted pointers that lead to them, the counts of work, and what a tree
//! of nodes means.
//!
//! To the crates above a node is a prefix, an optional value, a width and a finite map from bytes
//! to pointers, and opening a pointer is one count. How a node keeps its children is this crate's
//! own.
//!
//! Contracts see what stands below a pointer by its shape. The shape of a tree has a value for each
//! byte string that ends in it (`found`), keeps an order (`IsTree`) and has a list of pairs
//! (`pairs_of`). The walks and the ways along a key stand on these words.
#![tactic(auto)]

mod content;
mod grow_error;
mod held;
mod key_path;
pub mod laws;
mod matching;
mod node;
mod node_iter;
mod node_ref;
mod node_rev_iter;
mod wide_box;
mod work;

pub use grow_error::GrowError;
pub use key_path::{BytesPath, KeyPath, NoPath, SegmentsPath};
pub use matching::{rest_of, strip_prefix};
pub use node::VersionedNode;
pub use node_iter::VersionedNodeIter;
pub use node_ref::NodeRef;
pub use node_rev_iter::VersionedNodeRevIter;
pub use work::Work;
