//! What the points of a map are, and the places of two, and how many there are.
ghost use Rattle.rart_maps.specs.PointLaws.{PointsAreKeysAndPartings, KeysArePoints, PointsAreFew, PointsUnderAreFew};
ghost use Rattle.rart_maps.specs.PointLaws.{PlacesAreSharedPoints, PlacesAreFew};

/// A string is a point of a map exactly where it is a key, or begins keys with each of two
/// different bytes behind it. So each key is one.
pub fn points_are_keys_and_partings<V>()
    ensures either { PointsAreKeysAndPartings V }
    ensures keys { KeysArePoints V }
{}

/// A map has at most twice as many points as keys. So it is with those that a string begins, and
/// the keys that it begins.
pub fn points_are_few<V>()
    ensures all { PointsAreFew V }
    ensures under { PointsUnderAreFew V }
{}

/// A string is a place of two maps exactly where it begins keys of both, and is a point of the two
/// put together. So there are no more places than either.
pub fn places_are_shared_points<V>()
    ensures both { PlacesAreSharedPoints V }
    ensures few { PlacesAreFew V }
{}
