//! Whatever makes a `Work` of its own, or calls what does: the forms that count nothing.

mod changing;
mod lending;
mod listing;
mod lookup;
mod rebasing;
mod showing;
mod trying;
mod updating;

pub use listing::KeyChange;
