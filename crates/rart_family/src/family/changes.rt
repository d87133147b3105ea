//! Commands that change the version at their place by one key.
ghost use Rattle.rart_versioned.specs.Clones.{ClonesEqual};
ghost use Rattle.rart_family.specs.Attempts.{Tries, replied};
ghost use Rattle.rart_family.specs.Costs.{CountsChanges};
ghost use Rattle.rart_family.specs.declared.family.command.Command.TheVariants.{GetMut, Insert, Replace, Remove, Delete};

use super::refused::Refused;
use super::writing::write_value;
use super::{Family, Reply};
use rart_versioned::{KeyTrait, Work};

impl<K: KeyTrait, V: Clone + Drop> Family<K, V> {
    pub(super) fn get_mut(
        &mut self,
        place: usize,
        key: &K,
        value: &V,
        changes: &mut Work,
    ) -> Result<Reply<K, V>, Refused>
        requires clones { ClonesEqual V.is_clone }
        ensures tries { Tries K.bytes self.old (GetMut place key.now value.now) result self.new }
        ensures changes { CountsChanges K.bytes self.old (GetMut place key.now value.now)
            (replied K.bytes result) changes.old changes.new }
    {
        let version = self.version_to_change(place, 1)?;
        let value = value.clone()?;
        let found = write_value(version, key, value, changes)?;
        Ok(Reply::Flag(found))
    }

    pub(super) fn insert(
        &mut self,
        place: usize,
        key: &K,
        value: &V,
        changes: &mut Work,
    ) -> Result<Reply<K, V>, Refused>
        requires clones { ClonesEqual V.is_clone }
        ensures tries { Tries K.bytes self.old (Insert place key.now value.now) result self.new }
        ensures changes { CountsChanges K.bytes self.old (Insert place key.now value.now)
            (replied K.bytes result) changes.old changes.new }
    {
        let version = self.version_to_change(place, 1)?;
        let value = value.clone()?;
        let replaced = version.insert_k_counted(key, value, changes)?;
        Ok(Reply::Flag(replaced))
    }

    pub(super) fn replace(
        &mut self,
        place: usize,
        key: &K,
        value: &V,
        changes: &mut Work,
    ) -> Result<Reply<K, V>, Refused>
        requires clones { ClonesEqual V.is_clone }
        ensures tries { Tries K.bytes self.old (Replace place key.now value.now) result self.new }
        ensures changes { CountsChanges K.bytes self.old (Replace place key.now value.now)
            (replied K.bytes result) changes.old changes.new }
    {
        let version = self.version_to_change(place, 1)?;
        let value = value.clone()?;
        let replaced = version.insert_and_replace_k_counted(key, value, changes)?;
        Ok(Reply::Value(replaced))
    }

    pub(super) fn remove(
        &mut self,
        place: usize,
        key: &K,
        changes: &mut Work,
    ) -> Result<Reply<K, V>, Refused>
        requires clones { ClonesEqual V.is_clone }
        ensures tries { Tries K.bytes self.old (Remove place key.now) result self.new }
        ensures changes { CountsChanges K.bytes self.old (Remove place key.now)
            (replied K.bytes result) changes.old changes.new }
    {
        let version = self.version_to_change(place, 1)?;
        let found = version.remove_k_counted(key, changes)?;
        Ok(Reply::Value(found))
    }

    pub(super) fn delete(
        &mut self,
        place: usize,
        key: &K,
        changes: &mut Work,
    ) -> Result<Reply<K, V>, Refused>
        requires clones { ClonesEqual V.is_clone }
        ensures tries { Tries K.bytes self.old (Delete place key.now) result self.new }
        ensures changes { CountsChanges K.bytes self.old (Delete place key.now)
            (replied K.bytes result) changes.old changes.new }
    {
        let version = self.version_to_change(place, 1)?;
        let found = version.delete_k_counted(key, changes)?;
        Ok(Reply::Flag(found))
    }
}
