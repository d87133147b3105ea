//! Which strings begin the keys of maps, and how many a string begins.
ghost use Rattle.rart_maps.specs.PairLaws.{StartsShorten, SharedShorten, SharedIsEmpty};
ghost use Rattle.rart_maps.specs.StartLaws.{StartsBeginKeys, SharedAreInBoth, StringsUnderSplit, StringsUnderAreApart, StringsUnderAddUp, StartsAddUp, SharedAddUp};

/// A prefix of a string that begins a key begins that key too. No string begins a key of both
/// maps exactly where either has no key.
#[tactic(auto, using(crate::proofs::PairLawLemmas::starts_shorten, crate::proofs::PairLawLemmas::shared_shorten, crate::proofs::PairLawLemmas::shared_is_empty))]
pub fn prefix_matches_shorten<V>()
    ensures starts { StartsShorten V }
    ensures shared { SharedShorten V }
    ensures empty { SharedIsEmpty V }
{}

/// A string is one of the starts exactly where it begins a key, and is shared exactly where it is
/// one of the starts of both maps.
pub fn starts_begin_keys<V>()
    ensures starts { StartsBeginKeys V }
    ensures shared { SharedAreInBoth V }
{}

/// The strings of a set that a string begins are that string, where it is one, and for each byte
/// those that the string and the byte begin. No two of these parts have a string in common.
pub fn strings_under_split()
    ensures split { StringsUnderSplit }
    ensures apart { StringsUnderAreApart }
{}

/// So the numbers of these parts add up, over any bytes among which each with which a string of the
/// set goes on stands once. Such are all bytes, for the starts of a map whose keys have no other,
/// and for what two maps share where the keys of either have no other.
pub fn strings_under_add_up<V>()
    ensures any { StringsUnderAddUp }
    ensures starts { StartsAddUp V }
    ensures shared { SharedAddUp V }
{}
