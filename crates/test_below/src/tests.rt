//! Each call that may be refused for memory is made once with memory left.

mod copies;
mod drops;
mod heap;
mod inline;
mod keys;
mod nodes;
mod sizes;
mod texts;
mod views;
mod widths;
