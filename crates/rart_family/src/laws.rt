//! What the definitions of families mean: laws, each the contract of a function that does nothing.
ghost use Rattle.rart_family.specs.Laws.{StepsAreIsolated, PlacesStay, RepliesFixSteps, RepliesFixRuns, StepsReplyTheirOwn, RunsReplyToEach, NoReplyIsWant, NoWantWithoutMemory, NoWantBeforeLack, ReadsLeaveFamily, ReadersOnlyRead, ChangesAreOfAPlace, SomeTakeNoMemory, VisitorsReplyAsIterators, IntersectionsSwap};
ghost use Rattle.rart_family.specs.WorkedCosts.{CostsAreWorked};
ghost use Rattle.rart_family.specs.WorkedRuns.{RunsAreWorked};

use rart_versioned::KeyTrait;

#[tactic(auto, using(crate::proofs::LawLemmas::places_stay))]
/// A step leaves each version that is there but the one that its command may change, and takes no
/// place away.
pub fn steps_are_isolated<K: KeyTrait, V>()
    ensures isolated { StepsAreIsolated K V K.bytes }
    ensures places { PlacesStay K V K.bytes }
{}

#[tactic(auto, using(crate::proofs::LawLemmas::steps_fixed, crate::proofs::LawLemmas::runs_fixed))]
/// The replies fix the family after each step, and after a whole run.
pub fn replies_fix_families<K: KeyTrait, V>()
    ensures step { RepliesFixSteps K V K.bytes }
    ensures run { RepliesFixRuns K V K.bytes }
{}

#[tactic(auto, using(crate::proofs::LawLemmas::own_replies, crate::proofs::LawLemmas::one_each))]
/// Where it is not out of memory, a step's reply is the command's own, and so is what it leaves. A
/// run has one reply a command.
pub fn replies_are_the_commands_own<K: KeyTrait, V>()
    ensures step { StepsReplyTheirOwn K V K.bytes }
    ensures each { RunsReplyToEach K V K.bytes }
{}

#[tactic(auto, using(crate::proofs::LawLemmas::no_want))]
/// Out of memory is no command's own reply.
pub fn no_reply_is_want<K: KeyTrait, V>()
    ensures { NoReplyIsWant K V K.bytes }
{}

#[tactic(auto, using(crate::proofs::OutOfMemoryLemmas::no_want_without_memory, crate::proofs::OutOfMemoryLemmas::no_want_before_lack))]
/// No step replies out of memory to a command that takes none, as a lookup of an absent key or an
/// update that writes and inserts nothing there, nor where a version or room is lacking.
pub fn want_of_memory_is_bounded<K: KeyTrait, V>()
    ensures without_memory { NoWantWithoutMemory K V K.bytes }
    ensures before_lack { NoWantBeforeLack K V K.bytes }
{}

#[tactic(auto, using(crate::proofs::ReadLemmas::reads_leave_family, crate::proofs::ReadLemmas::visitors_reply_as_iterators))]
/// A command that only reads leaves the family, and a visitor is replied as the iterator over the
/// same list.
pub fn reads_leave_families<K: KeyTrait, V>()
    ensures family { ReadsLeaveFamily K V K.bytes }
    ensures visitors { VisitorsReplyAsIterators K V K.bytes }
{}

/// Commands of each kind: that they only read, which place they may change, that they take no
/// memory.
pub fn commands_are_of_kinds<K: KeyTrait, V>()
    ensures reads { ReadersOnlyRead K V K.bytes }
    ensures changes { ChangesAreOfAPlace K V K.bytes }
    ensures memory { SomeTakeNoMemory K V K.bytes }
{}

/// With its places swapped, an intersection is replied the same keys with their values swapped, and
/// the same count.
pub fn intersections_swap<K: KeyTrait, V>()
    ensures { IntersectionsSwap K V K.bytes }
{}

/// Worked runs of commands, their expected replies found by hand.
pub fn worked_runs()
    ensures { RunsAreWorked }
{}

/// What the worked runs cost, found by hand; and a run in which memory is refused.
pub fn worked_costs()
    ensures { CostsAreWorked }
{}
