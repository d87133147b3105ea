//! Whether what two maps have at a key differs, and whether three are in conflict there.
ghost use Rattle.std.specs.Prelude.{◌≡◌};
ghost use Rattle.std.specs.Option.{option_copied};
ghost use Rattle.rart_maps.specs.ChangeLists.{differ};
ghost use Rattle.rart_maps.specs.Merges.{in_conflict};

/// Whether there is a value on one side alone, or two that are not equal.
pub fn do_differ<V: Eq>(before: Option<&V>, after: Option<&V>) -> bool
    ensures { result ≡ differ V.eq (option_copied before.entry) (option_copied after.entry) }
{
    match (before, after) {
        (None, None) => false,
        (Some(before), Some(after)) => before != after,
        _ => true,
    }
}

/// Whether both sides differ from the base, and from each other.
pub fn are_in_conflict<V: Eq>(before: Option<&V>, our: Option<&V>, their: Option<&V>) -> bool
    ensures { result ≡ in_conflict V.eq (option_copied before.entry) (option_copied our.entry)
        (option_copied their.entry) }
{
    do_differ(before, our) && do_differ(before, their) && do_differ(our, their)
}
