//! Tests of versions, lists of changes and families as bytes, through public calls alone: that
//! calls succeed where there is memory, which error comes, and that the bytes are those that
//! another program makes. No contract can say these.
#![tactic(auto)]

#[cfg(test)]
mod tests;
