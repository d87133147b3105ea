//! What the changes from one map to another are, and what they make of a map. Where a law needs
//! it, `==` of values is asked to be reflexive, symmetric, or equality.
ghost use Rattle.rart_maps.specs.ChangeLaws.{ChangesAscend, ChangesAreFound, NothingChanges};
ghost use Rattle.rart_maps.specs.ChangeLaws.{ChangesReverse, NoChangeIsTheSame};
ghost use Rattle.rart_maps.specs.ChangeLaws.{PatchesSetWhatChanged, PatchesGiveTheNew};
ghost use Rattle.rart_maps.specs.ChangeLaws.{PatchesLeaveNoChange, PatchesAreUndone, EffectsAreFew};

/// The changes ascend strictly by key, and a change stands among them exactly where it should. So
/// no other list is theirs.
pub fn changes_are_found<V: Eq>()
    ensures ascend { ChangesAscend V.eq }
    ensures found { ChangesAreFound V.eq }
{}

/// From a map to itself nothing changes, and where nothing changes the maps are the same. The
/// changes the other way are the same ones, each reversed.
pub fn changes_reverse<V: Eq>()
    ensures nothing { NothingChanges V.eq }
    ensures same { NoChangeIsTheSame V.eq }
    ensures reversed { ChangesReverse V.eq }
{}

/// Made on any map, the changes give each key that changed what is new there, and leave the others.
/// Made on the old map, they give the new one.
pub fn patches_set_what_changed<V: Eq>()
    ensures any { PatchesSetWhatChanged V.eq }
    ensures old { PatchesGiveTheNew V.eq }
{}

/// Made on the old map, they leave nothing that differs from the new one; reversed, they undo what
/// they made.
pub fn patches_are_undone<V: Eq>()
    ensures none_left { PatchesLeaveNoChange V.eq }
    ensures undone { PatchesAreUndone V.eq }
{}

/// At most as many changes take effect as there are.
pub fn effects_are_few<V>()
    ensures { EffectsAreFew V }
{}
