//! A family of versions as bytes, as `rart_family` keeps them.
mod changing;
mod latest;
mod listing;
pub(crate) mod loading;
mod optional;
pub(crate) mod saving;
