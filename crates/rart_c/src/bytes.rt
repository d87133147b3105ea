//! Trees whose values are byte strings.
pub(crate) mod changing;
pub(crate) mod choosing;
pub(crate) mod comparing;
pub(crate) mod handle;
pub(crate) mod limits;
pub(crate) mod paging;
pub(crate) mod prefixes;
pub(crate) mod reading;
pub(crate) mod saving;
pub(crate) mod value;
pub(crate) mod versions;
pub(crate) mod walking;
