//! Worked values of what is read off maps and of the bounds, found by hand.
ghost use Rattle.rart_maps.specs.Disorders.{DisordersAreWorked};
ghost use Rattle.rart_maps.specs.WorkedBounds.{LookupOfNoByte, LookupOfThreeBytes, ChangeOfNoByte, ChangeOfThreeBytes, TouchOfNoByte, TouchOfThreeBytes, MeetOfTwo, MeetBelowOne, MeetWithItself, MeetOfEmpty, ReachOfTwo, ReachOfAll, ReachOfNone, MeetOfDistinct, MeetInsideKeys, ReachOfFive, ReachOfOne, ReachPastKeys, WalkOfThree, WalkOfOneBelowOther, WalkOfNone, ReachByPairsOfTwo, ReachByPairsOfAll, ReachByPairsOfNone, ReachByPairsOfThree, RangeOfTwo, RangeOfAll, RangeReversed, RangeOfNone, RangeOfNoneBelow, DifferenceOfThree, IntersectionOfThree, CutOfThree, DifferenceOfLong, IntersectionOfLong};
ghost use Rattle.rart_maps.specs.WorkedBounds.{UnionOfThree, JoinedOfThree, ApartOfThree, UnionOfLong, JoinedWithItselfMakesNone};
ghost use Rattle.rart_maps.specs.WorkedPairs.{WithinIncluded, WithinExcluded, WithinOtherKeys, WithinLowAlone, WithinHighAlone, WithinReversed, WithinOneKey, WithinNoKey, UnderTwo, UnderOne, UnderItself, UnderEmpty, UnderNone, PrefixMatchesShortestFirst, PrefixMatchesOfKey, PrefixMatchesNone, LongestInside, LongestIsItself, LongestIsEmpty, LongestNone, CommonLeftFirst, CommonNone, CommonOfTwo, CommonOfOne, CommonOfEmpty, SharedOfTwo, SharedOfOne, SharedOfEmpty};

/// Worked values: the pairs within two bounds, that include or exclude their key, one bound alone,
/// the other way round, and of one key twice.
pub fn worked_within()
    ensures included { WithinIncluded }
    ensures excluded { WithinExcluded }
    ensures other_keys { WithinOtherKeys }
    ensures low_alone { WithinLowAlone }
    ensures high_alone { WithinHighAlone }
    ensures reversed { WithinReversed }
    ensures one_key { WithinOneKey }
    ensures no_key { WithinNoKey }
{}

/// Worked values: the pairs under a prefix, which may end inside a key, be a key, or begin none.
pub fn worked_under()
    ensures two { UnderTwo }
    ensures one { UnderOne }
    ensures itself { UnderItself }
    ensures empty { UnderEmpty }
    ensures none { UnderNone }
{}

/// Worked values: the pairs whose key begins a string, the shortest first.
pub fn worked_prefix_matches()
    ensures shortest_first { PrefixMatchesShortestFirst }
    ensures of_key { PrefixMatchesOfKey }
    ensures none { PrefixMatchesNone }
{}

/// Worked values: the last of the pairs whose key begins a string.
pub fn worked_longest()
    ensures inside { LongestInside }
    ensures itself { LongestIsItself }
    ensures empty { LongestIsEmpty }
    ensures none { LongestNone }
{}

/// Worked values: the keys in common, the left map's value first.
pub fn worked_common<V>()
    ensures left_first { CommonLeftFirst }
    ensures none { CommonNone }
    ensures two { CommonOfTwo }
    ensures one { CommonOfOne }
    ensures empty { CommonOfEmpty V }
{}

/// Worked values: the strings that begin keys of both maps, of which more may be than keys in
/// common.
pub fn worked_shared<V>()
    ensures two { SharedOfTwo }
    ensures one { SharedOfOne }
    ensures empty { SharedOfEmpty V }
{}

/// Worked values of the bounds: of a key of no byte and of three, of two maps, of a map without a
/// key and any other, and of a map under a prefix.
pub fn worked_bounds<V>()
    ensures lookup_of_no_byte { LookupOfNoByte }
    ensures lookup_of_three_bytes { LookupOfThreeBytes }
    ensures change_of_no_byte { ChangeOfNoByte }
    ensures change_of_three_bytes { ChangeOfThreeBytes }
    ensures touch_of_no_byte { TouchOfNoByte }
    ensures touch_of_three_bytes { TouchOfThreeBytes }
    ensures meet_of_two { MeetOfTwo }
    ensures meet_below_one { MeetBelowOne }
    ensures meet_with_itself { MeetWithItself }
    ensures meet_of_empty { MeetOfEmpty V }
    ensures reach_of_two { ReachOfTwo }
    ensures reach_of_all { ReachOfAll }
    ensures reach_of_none { ReachOfNone }
    ensures meet_of_distinct { MeetOfDistinct }
    ensures meet_inside_keys { MeetInsideKeys }
    ensures reach_of_five { ReachOfFive }
    ensures reach_of_one { ReachOfOne }
    ensures reach_past_keys { ReachPastKeys }
{}

/// Worked values: how many nodes a walk over all keys enters, and at most one under a prefix or a
/// visit within two bounds.
pub fn worked_walks()
    ensures three { WalkOfThree }
    ensures one_below_other { WalkOfOneBelowOther }
    ensures none { WalkOfNone }
    ensures two_under { ReachByPairsOfTwo }
    ensures all_under { ReachByPairsOfAll }
    ensures none_under { ReachByPairsOfNone }
    ensures three_under { ReachByPairsOfThree }
    ensures two_within { RangeOfTwo }
    ensures all_within { RangeOfAll }
    ensures reversed { RangeReversed }
    ensures none_within { RangeOfNone }
    ensures none_below { RangeOfNoneBelow }
{}

/// Worked values: which of two keys is out of order.
pub fn worked_disorders()
    ensures { DisordersAreWorked }
{}

/// Worked values: how many nodes a difference and an intersection enter and make at most.
pub fn worked_cuts()
    ensures without_three { DifferenceOfThree }
    ensures common_three { IntersectionOfThree }
    ensures made { CutOfThree }
    ensures without_long { DifferenceOfLong }
    ensures common_long { IntersectionOfLong }
{}

/// Worked values: how many nodes a union enters, and how many it and a symmetric difference make at
/// most.
pub fn worked_joins()
    ensures joined_three { UnionOfThree }
    ensures made { JoinedOfThree }
    ensures apart_made { ApartOfThree }
    ensures joined_long { UnionOfLong }
    ensures itself_made { JoinedWithItselfMakesNone }
{}
