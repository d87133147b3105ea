//! What the counts of the tree's calls come to, in values found by hand: laws, each the contract of
//! a function that does nothing.
ghost use Rattle.rart_versioned.specs.CountingLaws.{UpdatesEnter, UpdatesMake, EndedVisitsEnter, EndedDiffsEnter, MembersAreLeft};
ghost use Rattle.rart_versioned.specs.CountingLaws.{EndedVisitsTell, EndedDiffsTell, EqualMapsTell, UnequalMapsTell, HintsTell};
ghost use Rattle.rart_versioned.specs.CountingLaws.{EndsTell, FoundLengths};
ghost use Rattle.rart_versioned.specs.CountingLaws.{FailedUpdatesTell, KeptUpdatesTell, KeptTriesTell};

use rart_below::{Slot, SlotUpdate, VisitControl};

/// How many nodes an update of a key of two bytes enters and makes at most, by what its callback
/// left and answered.
pub fn updates_are_counted()
    ensures enters { UpdatesEnter }
    ensures makes { UpdatesMake }
{}

/// How many nodes a visit enters at most that its closure ends, under a prefix and of changes, and
/// how many members an iterator has left, and how long a key is that was found.
pub fn ends_are_counted()
    ensures ended { EndedVisitsEnter }
    ensures ended_diffs { EndedDiffsEnter }
    ensures left { MembersAreLeft }
    ensures found { FoundLengths }
{}

/// What the counts of such ends are, and what an iterator's hint tells.
pub fn ends_tell_their_counts()
    ensures visits { EndedVisitsTell }
    ensures diffs { EndedDiffsTell }
    ensures equal { EqualMapsTell }
    ensures unequal { UnequalMapsTell }
    ensures hints { HintsTell }
{}

/// What the counts of an update are whose callback fails.
pub fn failed_updates_tell_their_counts<V, E, F: FnOnce(&mut Slot<V>) -> Result<SlotUpdate<V>, E>>()
    ensures { FailedUpdatesTell F.FnOnce }
{}

/// What the counts of an update are that stores and takes out nothing.
pub fn kept_updates_tell_their_counts<V, F: FnOnce(&mut Slot<V>) -> SlotUpdate<V>>()
    ensures { KeptUpdatesTell F.FnOnce }
{}

/// The same where its callback may fail.
pub fn kept_tries_tell_their_counts<V, E, F: FnOnce(&mut Slot<V>) -> Result<SlotUpdate<V>, E>>()
    ensures { KeptTriesTell F.FnOnce }
{}

/// What a visit of values that its closure may end says of its end, and isn't said in vain.
pub fn ends_hold_what_they_say<V, E, F: FnMut(&V) -> Result<VisitControl, E>>()
    ensures { EndsTell F.FnMut }
{}
