//! Commands that leave the family.
ghost use Rattle.rart_family.specs.Attempts.{Tries, replied};
ghost use Rattle.rart_family.specs.Costs.{CountsReads};
ghost use Rattle.rart_versioned.specs.Clones.{ClonesEqual};
ghost use Rattle.rart_family.specs.declared.family.command.Command.TheVariants.{Version, IsEmpty, Get};

use super::refused::Refused;
use super::{Family, Reply};
use rart_versioned::{KeyTrait, Work};

impl<K: KeyTrait, V: Clone + Drop> Family<K, V> {
    pub(super) fn version(&self, place: usize) -> Result<Reply<K, V>, Refused>
        ensures { Tries K.bytes self.now (Version place) result self.now }
    {
        let version = self.at(place)?;
        Ok(Reply::Number(version.version()))
    }

    pub(super) fn is_empty(&self, place: usize) -> Result<Reply<K, V>, Refused>
        ensures { Tries K.bytes self.now (IsEmpty place) result self.now }
    {
        let version = self.at(place)?;
        Ok(Reply::Flag(version.is_empty()))
    }

    pub(super) fn get(
        &self,
        place: usize,
        key: &K,
        reads: &mut Work,
    ) -> Result<Reply<K, V>, Refused>
        requires clones { ClonesEqual V.is_clone }
        ensures tries { Tries K.bytes self.now (Get place key.now) result self.now }
        ensures reads { CountsReads K.bytes self.now (Get place key.now)
            (replied K.bytes result) reads.old reads.new }
    {
        let version = self.at(place)?;
        let Some(value) = version.get_k_counted(key, reads) else {
            return Ok(Reply::Value(None));
        };
        Ok(Reply::Value(Some(value.clone()?)))
    }
}
