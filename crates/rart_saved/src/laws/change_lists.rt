//! Which lists of changes have forms that give them back: a law, the contract of a function that
//! does nothing.
ghost use Rattle.rart_saved.specs.ChangeListLaws.{ChangesAreLists};

/// What changed from one version to another, as `TrackedTree::changes` and `diff_with` give it, is
/// a list of changes that its form gives back, where both versions together have fewer than 2^64
/// keys.
pub fn changes_are_lists<V>()
    ensures { ChangesAreLists V }
{}
