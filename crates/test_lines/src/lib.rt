//! Tests of lines and their replies, through public calls alone: that calls succeed where there is
//! memory, and what is written when. No contract can say these.
#![tactic(auto)]

#[cfg(test)]
mod tests;
