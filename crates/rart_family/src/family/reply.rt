//! The replies to commands.
/// What a command is answered.
#[derive(Drop)]
pub enum Reply<K, V> {
    /// The place of the new version.
    Place(usize),
    /// The place was discarded.
    Discarded,
    /// The version's number.
    Number(u64),
    /// As the command says.
    Flag(bool),
    /// The value of the key, where it is there or was.
    Value(Option<V>),
    /// Keys with their values, ascending.
    Entries(Vec<(K, V)>),
    /// Values, in the order of their keys.
    Values(Vec<V>),
    /// The values that were visited, the last one included, and whether the callback answered its
    /// error there.
    Stopped { values: Vec<V>, failed: bool },
    /// The keys of two versions, ascending, each with the left version's value and the right one's.
    Pairs(Vec<(K, V, V)>),
    /// The values of the keys of two versions, in the order of the keys, the left version's first.
    ValuePairs(Vec<(V, V)>),
    /// How many keys two versions both have.
    Count(usize),
    /// The callback answered its error.
    Failed,
    /// The place is past the last one, or was discarded.
    NoVersion,
    /// The number would pass `2^64 - 1`.
    NoRoom,
    /// Memory was refused.
    NoMemory,
}
