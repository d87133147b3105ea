//! What is said of changes, and of look-ups after one, is all of it.
ghost use Rattle.rart_maps.specs.LookupLaws.{EmptyLacksAll, SetsFixTheMap};
ghost use Rattle.rart_maps.specs.LookupLaws.{SlotsHaveTheirValue, UpdatesSetWhatIsLeft, ChangesTell, RoomIsBelowTheLast};

/// What a key has after a change, and that all others have what they had, fixes the map. Exactly
/// the empty map lacks all keys.
pub fn lookups_fix_the_map<V>()
    ensures sets { SetsFixTheMap V }
    ensures empty { EmptyLacksAll V }
{}

/// An update sets its key to what its callback left there, whatever it was lent and answered.
pub fn updates_set_what_is_left<V>()
    ensures slots { SlotsHaveTheirValue V }
    ensures left { UpdatesSetWhatIsLeft V }
{}

/// A change that answers `Ok` gives its answer and leaves its version; refused, it leaves the
/// version as it was. It can raise a number as far as 2^64 - 1.
pub fn changes_tell_by_their_answer<V, A, E>()
    ensures tell { ChangesTell V A E }
    ensures room { RoomIsBelowTheLast V }
{}
