//! Each call that may be refused for memory is made once with memory left, in each of its forms:
//! the calls that list, over hundreds of pairs and over thousands.

mod algebra;
mod backwards;
mod changes;
mod clones;
mod indexes;
mod lists;
mod many;
mod merging;
mod pairs;
mod prefixes;
mod texts;
mod tracked;
mod trees;
mod versions;
mod visits;
mod walks;
