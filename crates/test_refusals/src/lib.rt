//! Tests of tracked versions, merges, iterators, diffs, families and examples, through public calls
//! alone: that they succeed where there is memory, which no contract can say, and again after a
//! refusal.
#![tactic(auto)]

#[cfg(test)]
mod tests;
