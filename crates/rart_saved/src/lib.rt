//! Versions, lists of changes and families of versions as bytes: each has one form, and is what is
//! read only where the bytes are its form.
#![tactic(auto)]

mod changes;
mod entries;
mod error;
mod families;
mod head;
mod keys;
pub mod laws;
mod loading;
mod numbers;
mod saving;
mod sink;
mod streams;
mod value;

pub use changes::loading::load_changes_slice;
pub use changes::saving::save_changes_slice;
pub use error::{LoadError, SaveError};
pub use families::loading::{load_family_slice, load_family_slice_within};
pub use families::saving::save_family_slice;
pub use loading::{load_slice, load_slice_within};
pub use saving::{save_into, save_slice, saved_len};
pub use streams::{load, load_changes, load_family, save, save_changes, save_family};
pub use value::{ByteString, SavedValue, put_sized, sized_at};
