//! What a map cut at a prefix is: what is under the prefix alone, what is left without it, and
//! another map's pairs in its place.
ghost use Rattle.rart_maps.specs.PrefixLaws.{UnderAnswers, WithoutAnswers, WithAnswers};
ghost use Rattle.rart_maps.specs.PrefixLaws.{AnswersFixTheMap, HasUnderIsOfAKey};
ghost use Rattle.rart_maps.specs.PrefixLaws.{PartsAnswer, RemovalsAnswer, RemovalsRaise, RestoringsAnswer, NumbersAdd};
ghost use Rattle.rart_maps.specs.PrefixLaws.{PairsUnderAreUnder, PairsWithoutAreTheOthers};
ghost use Rattle.rart_maps.specs.PrefixLaws.{UnderIsTheOthers, RestoringUndoes};
ghost use Rattle.rart_maps.specs.PrefixLaws.{PuttingBackIsNothing, RemovingRestoresNothing};
ghost use Rattle.rart_maps.specs.PrefixLaws.{KeepingRestoresIntoNothing, EmptyPrefixIsAll};
ghost use Rattle.rart_maps.specs.PrefixLaws.{ApartPrefixesCommute, RestoringChangesUnder};

/// What each key has in a map that was cut at a prefix. As maps that answer alike are the same,
/// this is all that can be said of each.
pub fn cut_maps_answer<V>()
    ensures under { UnderAnswers V }
    ensures without { WithoutAnswers V }
    ensures with_others { WithAnswers V }
    ensures all { AnswersFixTheMap V }
    ensures some { HasUnderIsOfAKey V }
{}

/// What each key has in a part that was kept, after a removal, and in what is restored. A removal
/// raises the number where something goes; else nothing changes. What is restored has the sum of
/// both numbers.
pub fn prefix_calls_answer<V>()
    ensures parts { PartsAnswer V }
    ensures removals { RemovalsAnswer V }
    ensures numbers { RemovalsRaise V }
    ensures restorings { RestoringsAnswer V }
    ensures sums { NumbersAdd V }
{}

/// The pairs of such maps: those under the prefix, the others, and under the prefix those of the
/// other map.
pub fn cut_maps_have_these_pairs<V>()
    ensures under { PairsUnderAreUnder V }
    ensures without { PairsWithoutAreTheOthers V }
    ensures with_others { UnderIsTheOthers V }
{}

/// What was kept under a prefix brings a map back, if nothing else has changed since; so does what
/// was taken out.
pub fn restoring_undoes<V>()
    ensures kept { RestoringUndoes V }
    ensures taken { PuttingBackIsNothing V }
{}

/// To remove what is under a prefix is to restore from a map without a key, and to keep it alone is
/// to restore into one. The empty prefix is that of the whole map.
pub fn restoring_is_general<V>()
    ensures removing { RemovingRestoresNothing V }
    ensures keeping { KeepingRestoresIntoNothing V }
    ensures whole { EmptyPrefixIsAll V }
{}

/// Prefixes of which neither begins the other can be restored in any order.
pub fn apart_prefixes_commute<V>()
    ensures { ApartPrefixesCommute V }
{}

/// What changes as a prefix is restored is what differs from the other map under it.
pub fn restoring_changes_under<V: Eq>()
    ensures { RestoringChangesUnder V.eq }
{}
