//! What visits are, a call at a time and part by part.
ghost use Rattle.rart_maps.specs.Visits.{ByValue};
ghost use Rattle.rart_maps.specs.VisitLaws.{ArgumentsShowTheirChanges, ArgumentsShowTheirMembers, VisitsTell, VisitOfNothing, VisitOfOne, VisitableOfOne, VisitOfParts, FrontOfVisit, VisitableStepByStep, UntilNothing, UntilStepByStep, FrontOfUntil, UntilCallableStepByStep, UntilDone, UntilCallbackRefuses, UntilMemoryIsRefused};

use rart_below::{KeyTrait, VisitControl};

/// A visit of nothing leaves its closure as it was, a visit of one member is one call on it, and a
/// visit of two lists, one behind the other, is one of the first and then one of the second. A
/// refused visit leaves what the visit of a prefix leaves. What may be called on the members in
/// turn may be called on the first and then on the others. A visitor that takes memory tells by its
/// answer which of the two it has made.
pub fn visits_go_part_by_part<V, F: FnMut(&V)>()
    ensures nothing { VisitOfNothing F.FnMut ByValue }
    ensures one { VisitOfOne F.FnMut ByValue }
    ensures callable_on_one { VisitableOfOne F.FnMut ByValue }
    ensures told { VisitsTell F.FnMut ByValue }
    ensures parts { VisitOfParts F.FnMut ByValue }
    ensures front { FrontOfVisit F.FnMut ByValue }
    ensures callable { VisitableStepByStep F.FnMut ByValue }
{}

/// A visit that may end goes on behind a member where the answer is `Continue`, and else ends
/// there. A refused one leaves what a visit of a prefix leaves that goes on to its end. What may
/// be called on the members in turn may be called on the first and then on the others.
pub fn visits_end_at_the_first_other_answer<V, E, F: FnMut(&V) -> Result<VisitControl, E>>()
    ensures nothing { UntilNothing F.FnMut ByValue }
    ensures steps { UntilStepByStep F.FnMut ByValue }
    ensures front { FrontOfUntil F.FnMut ByValue }
    ensures callable { UntilCallableStepByStep F.FnMut ByValue }
{}

/// What a visitor that may end, and that takes memory, has done, by its answer. `Ok`: the closure
/// was called on all members and answered `Continue` on each, or on those up to one on which it
/// answered `Stop`. An error of the closure: on those up to one on which it gave that error.
/// Refused for memory: on a prefix of them, and it answered `Continue` on each.
pub fn visits_tell_where_they_end<V, E, F: FnMut(&V) -> Result<VisitControl, E>>()
    ensures done { UntilDone F.FnMut ByValue }
    ensures callback { UntilCallbackRefuses F.FnMut ByValue }
    ensures memory { UntilMemoryIsRefused F.FnMut ByValue }
{}

/// What closures are shown, and iterators give: the key of a member, by a view, a slice or a key of
/// its bytes, and references to its values, in their order; of a change those that there are.
pub fn arguments_show_their_members<K: KeyTrait, V>()
    ensures members { ArgumentsShowTheirMembers K V K.bytes }
    ensures changes { ArgumentsShowTheirChanges K V K.bytes }
{}
