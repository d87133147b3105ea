//! Tests of keys, prefixes, views and nodes, through their public calls alone: that calls succeed
//! where there is memory, texts, sizes, and what is dropped. No contract can say these.
#![tactic(auto)]

#[cfg(test)]
mod tests;
