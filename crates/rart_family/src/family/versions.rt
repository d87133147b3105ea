//! Commands that put a version at a new last place, or discard one.
ghost use Rattle.rart_family.specs.Attempts.{Tries};
ghost use Rattle.rart_family.specs.declared.family.command.Command.TheVariants.{NewAt, Snapshot, Duplicate, Discard};

use super::refused::Refused;
use super::{Family, Reply};
use rart_versioned::{KeyTrait, VersionedAdaptiveRadixTree};

impl<K: KeyTrait, V: Clone + Drop> Family<K, V> {
    pub(super) fn new_at(&mut self, number: u64) -> Result<Reply<K, V>, Refused>
        ensures { Tries K.bytes self.old (NewAt number) result self.new }
    {
        Ok(self.place(VersionedAdaptiveRadixTree::new_at(self.alloc, number))?)
    }

    pub(super) fn snapshot(&mut self, place: usize) -> Result<Reply<K, V>, Refused>
        ensures { Tries K.bytes self.old (Snapshot place) result self.new }
    {
        let version = self.version_to_change(place, 1)?;
        let copy = version.snapshot()?;
        Ok(self.place(copy)?)
    }

    pub(super) fn duplicate(&mut self, place: usize) -> Result<Reply<K, V>, Refused>
        ensures { Tries K.bytes self.old (Duplicate place) result self.new }
    {
        let version = self.at(place)?;
        let copy = version.clone()?;
        Ok(self.place(copy)?)
    }

    pub(super) fn discard(&mut self, place: usize) -> Result<Reply<K, V>, Refused>
        ensures { Tries K.bytes self.old (Discard place) result self.new }
    {
        self.at(place)?;
        self.versions[place] = None;
        Ok(Reply::Discarded)
    }
}
