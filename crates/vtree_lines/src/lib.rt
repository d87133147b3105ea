//! Lines of commands on a family of versions, and the lines that they are replied.
//!
//! `serve` reads lines and writes their replies, one family behind all of them; `serve_slice` does
//! so over bytes in memory. `parse` and `write_reply` are for a service that does more between a
//! line and its reply.
#![tactic(auto)]

pub mod laws;
mod line;
mod output;
mod reply;
mod served;
mod server;
mod session;
mod slice;
mod status;
mod words;

pub use line::{LineCommand, LineKey, parse};
pub use output::{Page, WriteFailed, write_bytes};
pub use reply::write_reply;
pub use served::{ServeError, Served};
pub use server::serve;
pub use slice::serve_slice;
pub use status::status_of;
