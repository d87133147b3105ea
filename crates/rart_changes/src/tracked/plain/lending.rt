//! A value lent for writing, with no count.
ghost use Rattle.std.specs.Prelude.{◌≡◌, Some, IfOk, IfErr};
ghost use Rattle.std.specs.Borrow.{sem};
ghost use Rattle.rart_below.specs.Clones.{ClonesEqual};
ghost use Rattle.rart_changes.specs.Lending.{LendsTouched};
ghost use Rattle.rart_maps.specs.Versions.{HasRoom, value_at};
ghost use Rattle.rart_versioned.specs.Missing.{Explains};

use crate::tracked::TrackedTree;
use rart_below::KeyTrait;
use rart_versioned::{Missing, Work};

impl<K: KeyTrait, V: Clone + Drop> TrackedTree<K, V> {
    /// Lends the value of a key of the current version for writing. The key is touched then, the
    /// number is one greater, and once the reference is over the key has the value that it was left
    /// with. `Absent` comes where nothing is at the key, and then it isn't refused; `Memory`
    /// where a copy on the way, or the key's mark, was refused. Either way all is as before.
    pub fn value_mut(&mut self, key: &K) -> Result<&mut V, Missing>
        requires clones { ClonesEqual V.is_clone }
        requires room { HasRoom self.old.current 1 }
        ensures* writes_back { sem 𝓛 (LendsTouched K.row V.row K.PartialType.row K.MAXIMUM_SIZE
            K.bytes K.eq K.cmp K.partial_cmp K.PartialType.Partial V.Clone self.entry
            (K.bytes key.now) result) }
        ensures value { IfOk result (λ value. value_at self.old.current (K.bytes key.now)
            ≡ Some value.now) }
        ensures missing { IfErr result
            (λ missing. Explains missing (value_at self.old.current (K.bytes key.now))) }
    {
        self.value_mut_counted(key, &mut Work::new())
    }
}
