//! Worked values of changes and conflicts, found by hand.
ghost use Rattle.rart_maps.specs.WorkedChanges.{ChangesOfFour, PatchOfAnother};
ghost use Rattle.rart_maps.specs.WorkedChanges.{EffectsOnTwo, ConflictOfOne};
ghost use Rattle.rart_maps.specs.WorkedChanges.{ConflictOfTheOther, UndoneFromAfter};

/// Worked values: the changes from one map to another, what they make of a third, how many take
/// effect, where they are in conflict with its own, from either side; and their undoing.
pub fn worked_changes()
    ensures changes { ChangesOfFour }
    ensures patch { PatchOfAnother }
    ensures effects { EffectsOnTwo }
    ensures conflicts { ConflictOfOne }
    ensures other_side { ConflictOfTheOther }
    ensures undone { UndoneFromAfter }
{}
