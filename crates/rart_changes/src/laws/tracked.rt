//! What the words on tracked versions mean: laws, each the contract of a function that does
//! nothing.
ghost use Rattle.rart_changes.specs.Shown.{ListedChangesShow};
ghost use Rattle.rart_changes.specs.WorkedBounds.{ChangesOfTwo, ConflictsOfTwo, LeastOfTwo, OneWithinTwo, KeysAreTouched, HeldInEither};

use rart_below::KeyTrait;

/// Worked values, found by hand: how many nodes finding the changes and the conflicts at two keys
/// enters at most and at least, which of two sets is within the other, which keys calls touch, and
/// how many keys of changes two maps have.
pub fn worked_bounds()
    ensures changes { ChangesOfTwo }
    ensures conflicts { ConflictsOfTwo }
    ensures least { LeastOfTwo }
    ensures within { OneWithinTwo }
    ensures touched { KeysAreTouched }
    ensures held { HeldInEither }
{}

/// What a change in a list tells: its key, and the values before and after, where there are any.
pub fn listed_changes_show<K: KeyTrait, V>()
    ensures { ListedChangesShow K V K.bytes }
{}
