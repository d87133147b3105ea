//! Tests of the versioned tree, of merges and of tuple indexes, through public calls alone: that
//! calls succeed where there is memory, how often values are cloned, and texts. No contract can say
//! these.
#![tactic(auto)]

#[cfg(test)]
mod tests;
