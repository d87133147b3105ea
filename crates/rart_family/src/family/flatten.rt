//! The command that lists what a version has by way of a plain tree.
ghost use Rattle.std.specs.Prelude.{◌≡◌, IfOk};
ghost use Rattle.std.specs.FinMap as finite;
ghost use Rattle.rart_versioned.specs.Clones.{ClonesEqual};
ghost use Rattle.rart_family.specs.Attempts.{Tries};
ghost use Rattle.rart_family.specs.Collections.{pairs_of};
ghost use Rattle.rart_family.specs.declared.family.command.Command.TheVariants.{Flatten};

use super::refused::Refused;
use super::walks::key_copy;
use super::{Family, Reply};
use rart_versioned::{AdaptiveRadixTree, KeyTrait};
use std::alloc::{AllocError, Global};

impl<K: KeyTrait, V: Clone + Drop> Family<K, V> {
    pub(super) fn flatten(&self, place: usize) -> Result<Reply<K, V>, Refused>
        requires clones { ClonesEqual V.is_clone }
        ensures { Tries K.bytes self.now (Flatten place) result self.now }
    {
        let version = self.at(place)?;
        let Ok(plain) = version.clone()?.into_unversioned() else {
            return Err(Refused::NoMemory);
        };
        let entries = plain_entries(self.alloc, &plain)?;
        Ok(Reply::Entries(entries))
    }
}

/// Copies of all entries of a plain tree.
fn plain_entries<K: KeyTrait, V: Clone + Drop>(
    alloc: Global,
    plain: &AdaptiveRadixTree<K, V>,
) -> Result<Vec<(K, V)>, AllocError>
    requires clones { ClonesEqual V.is_clone }
    ensures { IfOk result (λ entries. pairs_of K.bytes entries.items
        ≡ finite.entries plain.now) }
{
    let mut entries = Vec::new(alloc);
    let mut pairs = plain.iter();
    'copying: while let Some((key, value)) = pairs.next() {
        entries.push((key_copy(alloc, key)?, value.clone()?))?;
    }
    Ok(entries)
}
