//! What the numbers that C reads are, and what they tell.
ghost use Rattle.std.specs.Prelude.{◌≡◌, [], ◌∷◌};
ghost use Rattle.rart_c.specs.AnswerLaws.{AnswersTell, ReadsTell, FirstsTell, FirstStringsTell, RefusalsTell, PagesTell, PageAnswersTell, EqualityTells, LengthsTell, LoadsGiveBack, LoadsTell, SavesTell, UnreadTells};
ghost use Rattle.rart_c.specs.Differences.{DifferenceIsOfPairs, IntersectionIsOfKeys};
ghost use Rattle.rart_c.specs.WorkedWords.{WorkedAdditions, WorkedBounds, WorkedComparisons, WorkedStrings, CountIsTold, LongestIsTold};
ghost use Rattle.rart_c.specs.declared.answer.TheConstants.{DONE, ABSENT, LAST_NUMBER, NO_MEMORY, TOO_SMALL, NO_ENTRIES, TOO_LONG, NOT_EMPTY, DIFFERENT, TRUNCATED, UNSUPPORTED, MALFORMED, WRONG_SUM};
ghost use Rattle.rart_c.specs.declared.limits.TheConstants.{LONGEST_KEY};
ghost use Rattle.rart_c.specs.declared.paging.TheConstants.{INCLUDED, EXCLUDED, UNBOUNDED};

/// The answers of calls, from the first on, the kinds of bounds, and how many bytes a key may have
/// at first.
pub fn numbers_are_those_of_the_header()
    ensures answers { DONE ∷ ABSENT ∷ LAST_NUMBER ∷ NO_MEMORY ∷ TOO_SMALL ∷ NO_ENTRIES
        ∷ TOO_LONG ∷ NOT_EMPTY ∷ DIFFERENT ∷ TRUNCATED ∷ UNSUPPORTED ∷ MALFORMED ∷ WRONG_SUM ∷ []
        ≡ 0 ∷ 1 ∷ 2 ∷ 3 ∷ 4 ∷ 5 ∷ 6 ∷ 7 ∷ 8 ∷ 9 ∷ 10 ∷ 11 ∷ 12 ∷ [] }
    ensures kinds { INCLUDED ∷ EXCLUDED ∷ UNBOUNDED ∷ [] ≡ 0 ∷ 1 ∷ 2 ∷ [] }
    ensures longest { LONGEST_KEY ≡ 1024 }
{}

/// By an answer and what is written a caller knows what was found, whether trees are equal, what a
/// version's bytes are and how many, which version bytes are, and why bytes were not read.
pub fn answers_tell<X>()
    ensures values { AnswersTell X }
    ensures strings { ReadsTell }
    ensures firsts { FirstsTell }
    ensures first_strings { FirstStringsTell }
    ensures pages { PagesTell }
    ensures page_answers { PageAnswersTell }
    ensures refusals { RefusalsTell }
    ensures equality { EqualityTells X }
    ensures saved { SavesTell }
    ensures unread { UnreadTells }
    ensures loads { LoadsTell }
    ensures lengths { LengthsTell }
    ensures given_back { LoadsGiveBack X }
{}

/// The difference of two maps has the pairs that the one has and the other hasn't, where equal
/// values are the same; their intersection has those of the one whose key both have.
pub fn parts_are_of_both<V: Eq>()
    ensures difference { DifferenceIsOfPairs V.eq }
    ensures intersection { IntersectionIsOfKeys V }
{}

/// Worked values, found by hand: bounds by their kinds, what a page of byte strings has of a pair,
/// what a comparison answers, and what an addition leaves. And what is told of the longest match,
/// and of how many keys a prefix begins.
pub fn words_are_worked<V>()
    ensures bounds { WorkedBounds }
    ensures strings { WorkedStrings }
    ensures comparisons { WorkedComparisons }
    ensures additions { WorkedAdditions }
    ensures longest { LongestIsTold V }
    ensures counts { CountIsTold V }
{}
