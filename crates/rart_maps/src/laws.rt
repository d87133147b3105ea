//! What the words on maps, their pairs, iterations, visits, changes and merges mean: laws, each the
//! contract of a function that does nothing.

pub mod changes;
pub mod iterations;
pub mod lookups;
pub mod merges;
pub mod pairs;
pub mod parts;
pub mod points;
pub mod prefixes;
pub mod starts;
pub mod strings;
pub mod visits;
pub mod worked;
pub mod worked_changes;
pub mod worked_prefixes;
