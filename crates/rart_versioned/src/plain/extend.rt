// Ported from rart 0.11.0 (Apache-2.0), and rewritten.
//! Many insertions, of which all are made or none.
ghost use Rattle.std.specs.Prelude.{◌≡◌, IfOk, OnErr, OnOk};
ghost use Rattle.std.specs.Iterator.{IsFiniteIterable, size};
ghost use Rattle.rart_below.specs.Clones.{ClonesEqual};
ghost use Rattle.rart_maps.specs.Versions.{HasRoom};
ghost use Rattle.rart_versioned.specs.Extended.{PutsIn};

use crate::counted::VersionedAdaptiveRadixTree;
use rart_below::KeyTrait;
use std::alloc::AllocError;

impl<K: KeyTrait, V: Clone + Drop> VersionedAdaptiveRadixTree<K, V> {
    /// Sets the key of each pair to its value, one after the other: the number rises by one for
    /// each, and of equal keys the last stays.
    ///
    /// ```
    /// let mut pairs = Vec::new(alloc);
    /// pairs.push((friday, 500))?;
    /// pairs.push((monday, 300))?;
    /// list.extend(pairs)?;
    /// ```
    ///
    /// It asks for room for as many pairs as the iterator gives at most. All are put in or none:
    /// refused for memory, map and number are as before, and the pairs are dropped. So it changes
    /// a clone, which copies each node on the ways to the keys once. rart has no such call.
    pub fn extend<I: IntoIterator<Item = (K, V)> + Drop>(
        &mut self,
        pairs: I,
    ) -> Result<(), AllocError>
        requires clones { ClonesEqual V.is_clone }
        requires ends { IsFiniteIterable I.into_iter_gives I.IntoIter.can_next
            I.IntoIter.remaining pairs }
        requires room { (walk : I.IntoIter) → I.into_iter_gives pairs walk
            → HasRoom self.old (size (I.IntoIter.remaining walk)) }
        ensures set { OnOk result (PutsIn K.bytes I.into_iter_gives I.IntoIter.next_gives pairs
            self.old self.new) }
        ensures refused { OnErr result (self.new ≡ self.old) }
    {
        *self = self.extended(pairs)?;
        Ok(())
    }

    /// A clone with these pairs put in.
    fn extended<I: IntoIterator<Item = (K, V)> + Drop>(&self, pairs: I) -> Result<Self, AllocError>
        requires clones { ClonesEqual V.is_clone }
        requires ends { IsFiniteIterable I.into_iter_gives I.IntoIter.can_next
            I.IntoIter.remaining pairs }
        requires room { (walk : I.IntoIter) → I.into_iter_gives pairs walk
            → HasRoom self.now (size (I.IntoIter.remaining walk)) }
        ensures { IfOk result (PutsIn K.bytes I.into_iter_gives I.IntoIter.next_gives pairs
            self.now) }
    {
        let mut next = self.clone()?;
        'putting: for (key, value) in pairs {
            next.insert(key, value)?;
        }
        Ok(next)
    }
}
