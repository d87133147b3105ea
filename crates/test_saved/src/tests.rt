//! The wanted bytes were made by another program, or worked out by hand.

mod broken;
mod changes;
mod families;
mod random;
mod versions;
