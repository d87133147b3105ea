//! A list of changes as bytes, as `rart_changes` lists them.
pub(crate) mod loading;
pub(crate) mod saving;
mod values;
