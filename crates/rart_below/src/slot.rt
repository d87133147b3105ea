// Ported from rart 0.11.0 (Apache-2.0), and rewritten.
//! What an update by a callback is lent, what it answers, and why it is refused.
use std::alloc::AllocError;
use std::fmt::Display;
use thiserror::Error;

/// What an update is lent of one key.
///
/// rart's `Slot<'a, V>` holds a `&'a mut V`. Here it holds a copy of the value, which is stored
/// once the callback has answered.
#[derive(Drop)]
pub enum Slot<V> {
    /// The key is absent.
    Vacant,
    /// The key is there, with this value.
    Occupied(V),
}

/// What an update's callback answers.
#[derive(Drop)]
pub enum SlotUpdate<V> {
    /// What was left in an occupied slot is stored. An absent key stays absent.
    Keep,
    /// This value is stored.
    Insert(V),
    /// The key is taken out.
    Remove,
}

/// Why a call with a callback was refused.
#[derive(Debug, Drop, Error)]
#[error_bound(E: Display)]
pub enum Refusal<E> {
    /// The callback answered this error.
    #[error("the callback failed: {0}")]
    Callback(E),
    /// Memory was refused.
    #[error(transparent)]
    Memory(AllocError),
}
