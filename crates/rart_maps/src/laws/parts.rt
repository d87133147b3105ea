//! What the two parts of a map are that another map cuts it into: the pairs whose key the other one
//! has, and those whose key it lacks. And what two maps are together, with the keys of both or
//! without.
ghost use Rattle.rart_maps.specs.MapPartLaws.{CommonPartAnswers, OtherPartAnswers};
ghost use Rattle.rart_maps.specs.MapPartLaws.{CommonPartHasThesePairs, OtherPartHasThesePairs};
ghost use Rattle.rart_maps.specs.MapPartLaws.{PartsAreTheMap, NoKeyCutsNothing};
ghost use Rattle.rart_maps.specs.MapPartLaws.{CuttingTwiceIsCuttingOnce};
ghost use Rattle.rart_maps.specs.MapPartLaws.{CommonKeysAreOfBoth, CommonIsLeftWithoutTheRest};
ghost use Rattle.rart_maps.specs.MapPartLaws.{NothingIsLeftWithoutItself, KeysGoOneAfterTheOther};
ghost use Rattle.rart_maps.specs.MapPartLaws.{JoinedAnswers, JoinedKeysAreOfEither, JoinedWithItself};
ghost use Rattle.rart_maps.specs.MapPartLaws.{ApartAnswers, ApartEitherWay, ApartIsJoinedWithoutCommon};

/// What each key has in either part. As maps that answer alike are the same, this is all that can
/// be said of each.
pub fn parts_answer<V, W>()
    ensures common { CommonPartAnswers V W }
    ensures other { OtherPartAnswers V W }
{}

/// The pairs of either part, in order.
pub fn parts_have_these_pairs<V, W>()
    ensures common { CommonPartHasThesePairs V W }
    ensures other { OtherPartHasThesePairs V W }
{}

/// Put together, the two parts are the map. A map without a key cuts nothing off, and what was cut
/// off once is not there to be cut off again.
pub fn parts_are_the_map<V, W>()
    ensures together { PartsAreTheMap V W }
    ensures nothing { NoKeyCutsNothing V W }
    ensures twice { CuttingTwiceIsCuttingOnce V W }
{}

/// A key of the common part is a key of both, whichever of the two is cut. That part is what is
/// left of a map without what is left of it.
pub fn common_keys_are_of_both<V, W>()
    ensures keys { CommonKeysAreOfBoth V W }
    ensures rest { CommonIsLeftWithoutTheRest V W }
{}

/// Without its own keys nothing is left of a map. The keys of two maps go at once, or one after the
/// other.
pub fn keys_go<V>()
    ensures itself { NothingIsLeftWithoutItself V }
    ensures after { KeysGoOneAfterTheOther V }
{}

/// What each key has in two maps together, where the first one's value stays. Which of them is
/// first makes no difference to the keys; and with itself, or with an empty one, a map is itself.
pub fn maps_are_joined<V>()
    ensures answers { JoinedAnswers V }
    ensures keys { JoinedKeysAreOfEither V }
    ensures itself { JoinedWithItself V }
{}

/// What each key has in what two maps don't share: that is the same either way, and what both are
/// together without the common keys.
pub fn maps_are_apart<V>()
    ensures answers { ApartAnswers V }
    ensures either_way { ApartEitherWay V }
    ensures rest { ApartIsJoinedWithoutCommon V }
{}
