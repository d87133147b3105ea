//! What the words on cursors mean: a law, the contract of a function that does nothing.
ghost use Rattle.rart_versioned.specs.CursorLaws.{CursorGoesPairByPair, CursorStaysAtEnd};

/// A cursor gives the pairs that were left one by one, in their order. Once it gave none it gives
/// none again, however often it is asked.
pub fn cursors_end_for_good<V>()
    ensures pairs { CursorGoesPairByPair V }
    ensures stays { CursorStaysAtEnd V }
{}
