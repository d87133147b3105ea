//! The small numbers that exports answer, and what is told by them.
ghost use Rattle.std.specs.Prelude.{◌≡◌, ℕ, List, length};
ghost use Rattle.rart_c.specs.Answers.{Tells, TellsFound, TellsUnread, TellsWritten, number_of, told_equal, told_there};
ghost use Rattle.rart_c.specs.Firsts.{TellsFirst};
ghost use Rattle.rart_c.specs.Longest.{length_found};
ghost use Rattle.rart_c.specs.Under.{some_of};
ghost use Rattle.rart_ways.specs.Firsts.{Finds};

use rart_saved::LoadError;
use std::alloc::{AllocError, AllocFailed};

/// The call was done. Where it answers a value, there was one, and it is written.
pub const DONE: u8 = 0;

/// There was no such key, and no value is written. Of an insertion: the key was new, and is set. Of
/// a page: no pair is there.
pub const ABSENT: u8 = 1;

/// The number would be 2^64 or more. Nothing changed.
pub const LAST_NUMBER: u8 = 2;

/// Memory was refused. No tree changed.
pub const NO_MEMORY: u8 = 3;

/// The buffer is too small for what is read, whose length is written.
pub const TOO_SMALL: u8 = 4;

/// The page has no room for an entry, and a pair is there.
pub const NO_ENTRIES: u8 = 5;

/// The key, or one of bytes that are loaded, is longer than a key may be, or keys may be longer in
/// the tree that is put back. No tree changed.
pub const TOO_LONG: u8 = 6;

/// The tree has a key, and how long one may be is set without any. Nothing changed.
pub const NOT_EMPTY: u8 = 7;

/// The trees are not equal.
pub const DIFFERENT: u8 = 8;

/// The bytes end before the version's end.
pub const TRUNCATED: u8 = 9;

/// The bytes are of a format that this library doesn't read.
pub const UNSUPPORTED: u8 = 10;

/// What begins at a place of the bytes stands in no version's form.
pub const MALFORMED: u8 = 11;

/// The sum at the end is not that of the bytes before it.
pub const WRONG_SUM: u8 = 12;

/// Why a call isn't done.
#[derive(Drop)]
pub(crate) enum Refusal {
    LastNumber,
    NoMemory,
}

impl From<AllocError> for Refusal {
    ghost use Rattle.rart_c.specs.declared.answer.Refusal.TheVariants.{NoMemory};

    ghost from_gives = { λ _ refusal. refusal ≡ NoMemory };

    fn from(_refused: AllocError) -> Refusal {
        Refusal::NoMemory
    }
}

impl<T: Drop> From<AllocFailed<T>> for Refusal {
    ghost use Rattle.rart_c.specs.declared.answer.Refusal.TheVariants.{NoMemory};

    ghost from_gives = { λ _ refusal. refusal ≡ NoMemory };

    fn from(_refused: AllocFailed<T>) -> Refusal {
        Refusal::NoMemory
    }
}

impl Refusal {
    /// The number that says so to C.
    pub(crate) fn number(&self) -> u8
        ensures { result ≡ number_of self.now }
    {
        match self {
            Refusal::LastNumber => LAST_NUMBER,
            Refusal::NoMemory => NO_MEMORY,
        }
    }
}

/// Tells a value that was found, or that there is none.
pub(crate) fn tell(found: Option<u64>, value: &mut u64) -> u8
    ensures { Tells found result value.old value.new }
{
    match found {
        None => ABSENT,
        Some(found) => {
            *value = found;
            DONE
        }
    }
}

/// Tells how many were found, or that there is none.
pub(crate) fn tell_count(count: usize, told: &mut usize) -> u8
    ensures { Tells (some_of count) result told.old told.new }
{
    if count == 0 {
        return ABSENT;
    }
    *told = count;
    DONE
}

/// Tells how long the key is that was found, and its value, or that there is none.
pub(crate) fn tell_longest(found: Option<(usize, &u64)>, len: &mut usize, value: &mut u64) -> u8
    ensures { Tells (length_found found.entry) result (len.old, value.old) (len.new, value.new) }
{
    let Some((length, found)) = found else {
        return ABSENT;
    };
    *len = length;
    *value = *found;
    DONE
}

/// Tells the first of some pairs, as it was found with so much room, or that there is none.
pub(crate) fn tell_first(
    found: Option<(usize, &u64)>,
    room: usize,
    len: &mut usize,
    value: &mut u64,
) -> u8
    ensures { (pairs : List (List ℕ × ℕ)) (before after : List ℕ) → length before ≡ room
        → Finds pairs found.entry before after
        → TellsFirst pairs result (before, len.old) (after, len.new) value.old value.new }
{
    let Some((key_len, first)) = found else {
        return ABSENT;
    };
    *len = key_len;
    if room < key_len {
        return TOO_SMALL;
    }
    *value = *first;
    DONE
}

/// Tells whether two maps are the same, or that it wasn't found out.
pub(crate) fn tell_equal(told: Result<bool, AllocError>) -> u8
    ensures { result ≡ told_equal told }
{
    match told {
        Ok(true) => DONE,
        Ok(false) => DIFFERENT,
        Err(_) => NO_MEMORY,
    }
}

/// Tells whether there was a value.
pub(crate) fn tell_there(is_there: bool) -> u8
    ensures { result ≡ told_there is_there }
{
    if is_there { DONE } else { ABSENT }
}

/// Tells how long something is, or that it wasn't found out.
pub(crate) fn tell_length(found: Result<usize, AllocError>, len: &mut usize) -> u8
    ensures { TellsFound found result len.old len.new }
{
    match found {
        Ok(found) => {
            *len = found;
            DONE
        }
        Err(_) => NO_MEMORY,
    }
}

/// Tells how long what was to be written is, and whether the room has as many bytes; or that it
/// wasn't found out.
pub(crate) fn tell_written(written: Result<usize, AllocError>, room: usize, len: &mut usize) -> u8
    ensures { TellsWritten written room result len.old len.new }
{
    let Ok(written) = written else {
        return NO_MEMORY;
    };
    *len = written;
    if written > room { TOO_SMALL } else { DONE }
}

/// Tells why bytes were not read, and at which of them, where one is told.
pub(crate) fn tell_unread(error: LoadError, at: &mut usize) -> u8
    ensures { TellsUnread error result at.old at.new }
{
    match error {
        LoadError::Memory | LoadError::Io => NO_MEMORY,
        LoadError::Truncated => TRUNCATED,
        LoadError::Unsupported { .. } => UNSUPPORTED,
        LoadError::Checksum => WRONG_SUM,
        LoadError::Malformed { at: place } => {
            *at = place;
            MALFORMED
        }
        LoadError::TooLong { at: place } => {
            *at = place;
            TOO_LONG
        }
    }
}
