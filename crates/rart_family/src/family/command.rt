//! The commands on a family of versions.
use rart_versioned::SlotUpdate;
use std::ops::Bound;

/// One call on a version of a family.
///
/// A place is the number of a version in its family, from 0, in the order of making. A command is
/// answered by a `Reply`: `NoVersion` where its place is past the last one or was discarded, then
/// `NoRoom` where its call asks for more room than the version's number has below `2^64`, then
/// `NoMemory` where memory was refused. Each of the three leaves the family as it was. Of a command
/// that succeeds the reply is named below.
#[derive(Drop)]
pub enum Command<K, V> {
    /// A version without a key, its number 0, at a new last place: `Place`.
    New,
    /// As `New`, but with this number: `Place`.
    NewAt {
        number: u64,
    },
    /// The version once more, its number one greater, at a new last place: `Place`. Asks room 1.
    Snapshot {
        place: usize,
    },
    /// The version once more, with the same number, at a new last place: `Place`.
    Duplicate {
        place: usize,
    },
    /// The version is dropped, and its place is never used again: `Discarded`.
    Discard {
        place: usize,
    },
    /// The version's number: `Number`.
    Version {
        place: usize,
    },
    /// Whether the version has no key: `Flag`.
    IsEmpty {
        place: usize,
    },
    /// The value of the key: `Value`.
    Get {
        place: usize,
        key: K,
    },
    /// Writes the value through a reference to the one of the key: `Flag`, whether the key was
    /// there. Asks room 1.
    GetMut {
        place: usize,
        key: K,
        value: V,
    },
    /// Sets the value of the key: `Flag`, whether there was one. Asks room 1.
    Insert {
        place: usize,
        key: K,
        value: V,
    },
    /// Sets the value of the key: `Value`, the one before. Asks room 1.
    Replace {
        place: usize,
        key: K,
        value: V,
    },
    /// Takes the key out: `Value`, the one before. Asks room 1.
    Remove {
        place: usize,
        key: K,
    },
    /// Takes the key out: `Flag`, whether it was there. Asks room 1.
    Delete {
        place: usize,
        key: K,
    },
    /// Calls a callback on the slot of the key, which writes `write` into the slot where there are
    /// both, and then answers `answer`: `Flag`, whether the key was there or is now. Asks room 1.
    Update {
        place: usize,
        key: K,
        write: Option<V>,
        answer: SlotUpdate<V>,
    },
    /// As `Update`, by a callback that answers its error where there is no `answer`: `Flag`, or
    /// `Failed` for that error. Asks room 2.
    TryUpdate {
        place: usize,
        key: K,
        write: Option<V>,
        answer: Option<SlotUpdate<V>>,
    },
    /// All keys with their values, by an iterator: `Entries`.
    Iter {
        place: usize,
    },
    /// The values of all keys, in the order of the keys, by an iterator: `Values`.
    Values {
        place: usize,
    },
    /// The keys within the bounds, with their values, by an iterator: `Entries`. Keys are compared
    /// by their bytes; bounds that no key meets give none.
    Range {
        place: usize,
        lo: Bound<K>,
        hi: Bound<K>,
    },
    /// The keys that the prefix begins, with their values, by an iterator: `Entries`.
    Prefix {
        place: usize,
        prefix: K,
    },
    /// The keys that begin this one, with their values, the shortest first, by an iterator:
    /// `Entries`.
    Matches {
        place: usize,
        key: K,
    },
    /// As `Matches`, by a visitor: `Entries`.
    MatchesEach {
        place: usize,
        key: K,
    },
    /// As `Iter`, by a visitor: `Entries`.
    Views {
        place: usize,
    },
    /// As `Prefix`, by a visitor: `Entries`.
    PrefixViews {
        place: usize,
        prefix: K,
    },
    /// As `Range`, by a visitor: `Entries`.
    RangeViews {
        place: usize,
        lo: Bound<K>,
        hi: Bound<K>,
    },
    /// The values of the keys that the prefix begins, in the order of the keys, by a visitor:
    /// `Values`.
    PrefixValues {
        place: usize,
        prefix: K,
    },
    /// Visits the values of the keys that the prefix begins, in the order of the keys, by a visitor
    /// whose callback ends the visit of number `visits`, counted from 1: it stops there, or answers
    /// its error where `fails` is true. `Stopped`, with the values that were visited: all of them
    /// where fewer come, or where `visits` is 0, which is never reached.
    Until {
        place: usize,
        prefix: K,
        visits: u64,
        fails: bool,
    },
    /// The keys that both versions have, each with the left one's value and the right one's:
    /// `Pairs`.
    Intersect {
        left: usize,
        right: usize,
    },
    /// As `Intersect`, by views of the keys: `Pairs`.
    IntersectViews {
        left: usize,
        right: usize,
    },
    /// The values of the keys that both versions have, in the order of the keys: `ValuePairs`.
    IntersectValues {
        left: usize,
        right: usize,
    },
    /// How many keys both versions have: `Count`.
    IntersectCount {
        left: usize,
        right: usize,
    },
    /// All keys with their values, by way of a plain tree that is made of a clone: `Entries`. The
    /// version stays.
    Flatten {
        place: usize,
    },
    /// The longest key that begins this one, with its value: `Entries`, of one or none.
    Longest {
        place: usize,
        key: K,
    },
}

/// The error of a callback of `Command::TryUpdate` or `Command::Until`.
#[derive(Drop)]
pub struct Failure;
