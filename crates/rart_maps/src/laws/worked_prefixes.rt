//! Worked values of maps cut at a prefix, found by hand.
ghost use Rattle.rart_maps.specs.WorkedPrefixes.{UnderKeepsTheKeyItself, WithoutKeepsNeighbours};
ghost use Rattle.rart_maps.specs.WorkedPrefixes.{RestoredTakesTheOthers, UnderNothing};

/// Worked values: what is under a prefix that is a key, what is left without it, what another map
/// has there, and a prefix that begins no key.
pub fn worked_prefixes()
    ensures under { UnderKeepsTheKeyItself }
    ensures without { WithoutKeepsNeighbours }
    ensures restored { RestoredTakesTheOthers }
    ensures nothing { UnderNothing }
{}
