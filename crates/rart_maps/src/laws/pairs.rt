//! What is read off maps: in what order, and which pairs.
ghost use Rattle.rart_maps.specs.FoundLaws.{PairsAscendByKey, WithinAscends, UnderAscends, PrefixMatchesAscend, PairsAreFound, WithinIsFound, UnderIsFound, PrefixMatchesAreFound, LongestIsFound, CommonIsFound, CommonAscends, AscendingListsAreFixed};
ghost use Rattle.rart_maps.specs.PairLaws.{PairsAscend, WithinIsSublist, UnderIsSublist, PrefixMatchesIsSublist, CommonSwaps};

/// The pairs ascend strictly by key. Those within bounds, those under a prefix and those whose key
/// begins a string are some of them, in their order.
#[tactic(auto, using(crate::proofs::PairLawLemmas::pairs_ascend, crate::proofs::PairLawLemmas::within_is_sublist, crate::proofs::PairLawLemmas::under_is_sublist, crate::proofs::PairLawLemmas::prefix_matches_is_sublist))]
pub fn pairs_are_in_order<V>()
    ensures ascending { PairsAscend V }
    ensures within { WithinIsSublist V }
    ensures under { UnderIsSublist V }
    ensures prefix_matches { PrefixMatchesIsSublist V }
{}

/// The keys ascend strictly, each before each later one, also of the pairs within bounds, under a
/// prefix and of those whose key begins a string.
#[tactic(auto, using(crate::proofs::FoundLemmas::pairs_ascend_by_key, crate::proofs::FoundLemmas::within_ascends, crate::proofs::FoundLemmas::under_ascends, crate::proofs::FoundLemmas::prefix_matches_ascend))]
pub fn keys_ascend<V>()
    ensures pairs { PairsAscendByKey V }
    ensures within { WithinAscends V }
    ensures under { UnderAscends V }
    ensures prefix_matches { PrefixMatchesAscend V }
{}

/// A pair stands among all exactly where the map has the value at the key. It stands within two
/// bounds, under a prefix, or among those whose key begins a string, exactly where also the key
/// meets both bounds, the prefix begins the key, or the key begins the string.
pub fn pairs_are_found<V>()
    ensures pairs { PairsAreFound V }
    ensures within { WithinIsFound V }
    ensures under { UnderIsFound V }
    ensures prefix_matches { PrefixMatchesAreFound V }
{}

/// The longest of the pairs whose key begins a string is exactly the one of them whose key no other
/// one's passes in length.
pub fn longest_is_found<V>()
    ensures { LongestIsFound V }
{}

/// A key stands in common with two values exactly where the left map has the one there and the
/// right map the other. The keys in common ascend strictly.
#[tactic(auto, using(crate::proofs::FoundLemmas::common_ascends))]
pub fn common_pairs_are_found<V>()
    ensures ascending { CommonAscends V }
    ensures found { CommonIsFound V }
{}

/// With the maps swapped, the same keys come in the same order with their values swapped.
#[tactic(auto, using(crate::proofs::PairLawLemmas::common_swaps))]
pub fn common_pairs_swap<V>()
    ensures { CommonSwaps V }
{}

/// Two lists whose keys ascend strictly and that have the same elements are equal. So their order
/// and which pairs stand in them say the lists of the laws above whole.
pub fn ascending_lists_are_fixed<A>()
    ensures { AscendingListsAreFixed A }
{}
