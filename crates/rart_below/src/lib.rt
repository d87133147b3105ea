// Ported from rart 0.11.0 (Apache-2.0), and rewritten.
//! What the tree stands on: keys and their prefixes, seen as the bytes they hold, the mappings from
//! a byte to a child, the slot that an update is lent, and the keys that visitors are lent.
#![tactic(auto)]

mod array;
mod beginnings;
mod bounds;
mod byte_set;
mod held;
mod key;
mod mapping;
mod partial;
mod plain;
mod slot;
mod vector;
mod view;
mod visit;

pub use array::{ArrPartial, ArrayKey};
pub use beginnings::{compare_bytes, does_begin, prefix_length};
pub use bounds::{is_from, is_up_to};
pub use byte_set::{ByteSet, BytesLeft};
pub use key::{KeyTrait, is_admitted};
pub use mapping::{Clear, DirectMapping, IndexedMapping, NodeMapping, SortedKeyedMapping};
pub use partial::Partial;
pub use plain::{AdaptiveRadixTree, PlainIter};
pub use slot::{Refusal, Slot, SlotUpdate};
pub use vector::{VectorKey, VectorPartial};
pub use view::LendingKeyView;
pub use visit::VisitControl;
