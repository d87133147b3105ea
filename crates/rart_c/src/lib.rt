//! The versioned tree for C programs, and for Rust programs through C: byte strings to numbers, or
//! to byte strings.
//!
//! C holds a tree as a struct of one pointer. All zeros is the map without a key, its number 0, so
//! no call makes a tree and none can fail to.
#![tactic(auto)]

mod answer;
mod bytes;
mod calls;
mod changing;
mod choosing;
mod combining;
mod comparing;
mod forms;
mod handle;
mod handling;
mod laws;
mod lent;
mod limits;
mod paging;
mod prefixes;
mod reading;
mod saving;
mod table;
mod unboxed;
mod versions;
mod walking;
