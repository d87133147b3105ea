//! What the words on merges mean: laws, each the contract of a function that does nothing.
ghost use Rattle.rart_versioned.specs.Replies.{AnswerableStepByStep, AsksFirstMembers};
ghost use Rattle.rart_changes.specs.Merging.{AnswersAreKept, AnswersAreMerged, ArgumentsShowTheirConflicts, AsksInOrder, ByLentConflict};

use rart_below::KeyTrait;

/// Where the closure's answers are those of a function of the key and of what the three versions
/// have there, a merge leaves the merge by that function. The law `merges_are_by_key` of
/// `rart_maps` says what then stands at each key.
pub fn answers_are_merged<
    K: KeyTrait,
    V: Eq,
    F: FnMut(&K, Option<&V>, Option<&V>, Option<&V>) -> Option<V>,
>()
    ensures { AnswersAreMerged F.FnMut (ByLentConflict K.bytes) V.eq }
{}

/// The closure is asked about each conflict once, in order, and what the merge leaves has the
/// answers that it gave. Where the merge is refused, it is asked about the first ones. It must take
/// the first of them, and then, whatever it leaves, the others.
pub fn merges_ask_in_order<
    K: KeyTrait,
    V: Eq,
    F: FnMut(&K, Option<&V>, Option<&V>, Option<&V>) -> Option<V>,
>()
    ensures asked { AsksInOrder F.FnMut (ByLentConflict K.bytes) V.eq }
    ensures refused { AsksFirstMembers F.FnMut (ByLentConflict K.bytes) }
    ensures kept { AnswersAreKept F.FnMut (ByLentConflict K.bytes) V.eq }
    ensures answerable { AnswerableStepByStep F.FnMut (ByLentConflict K.bytes) }
{}

/// What closures are shown of a conflict: its key, by value or lent, and references to the three
/// values, where there are any.
pub fn arguments_show_their_conflicts<K: KeyTrait, V>()
    ensures { ArgumentsShowTheirConflicts K V K.bytes }
{}
