//! A tree beside what it is compared with: a map of the standard library, and the number that a
//! tree with its pairs is to have.
use crate::draw::{Key, below, key};
use rand_pcg::Pcg32;
use rart_versioned::{KeyTrait, VersionedAdaptiveRadixTree};
use std::alloc::{AllocError, Global};
use std::collections::BTreeMap;

pub type Tree = VersionedAdaptiveRadixTree<Key, u64>;

pub type Map = BTreeMap<Vec<u8>, u64>;

#[derive(Drop)]
pub struct Version {
    alloc: Global,
    pub tree: Tree,
    pub map: Map,
    number: u64,
}

impl Version {
    /// No key, and the number 0.
    pub fn new(alloc: Global) -> Version {
        Version {
            alloc,
            tree: Tree::new(alloc),
            map: Map::new(alloc),
            number: 0,
        }
    }

    /// The same once more. The trees share their nodes.
    pub fn copy(&self) -> Result<Version, AllocError> {
        Ok(Version {
            alloc: self.alloc,
            tree: self.tree.clone()?,
            map: self.map.clone()?,
            number: self.number,
        })
    }

    /// Makes up to `most` changes, one in three of which takes a key out. Values are few, so that
    /// keys are set to what they have, and sides agree.
    pub fn change(&mut self, words: &mut Pcg32, most: u32) -> Result<(), AllocError> {
        for _ in 0..below(words, most) {
            let key = key(words, self.alloc)?;
            let value = u64::from(below(words, 3));
            if self.tree.version() == u64::MAX {
                continue;
            }
            if below(words, 3) == 0 {
                self.tree.delete_k(&key)?;
                self.put(key.as_ref(), None)?;
            } else {
                self.tree.insert_k(&key, value)?;
                self.put(key.as_ref(), Some(value))?;
            }
        }
        Ok(())
    }

    /// Sets a key of the map to a value, or takes it out where there is none. The number is one
    /// greater where the key is set, or was there.
    pub fn put(&mut self, key: &[u8], value: Option<u64>) -> Result<(), AllocError> {
        let was = match value {
            Some(value) => self.map.insert(key.to_vec(self.alloc)?, value)?,
            None => self.map.remove(key),
        };
        if value.is_some() || was.is_some() {
            self.number = self.number.saturating_add(1);
        }
        Ok(())
    }

    /// The pairs of the map under a prefix, beside a tree that is to have them: its number one
    /// greater.
    pub fn under(&self, tree: Tree, prefix: &[u8]) -> Result<Version, AllocError> {
        let mut map = Map::new(self.alloc);
        for (key, value) in &self.map {
            if key.starts_with(prefix) {
                map.insert(key.to_vec(self.alloc)?, *value)?;
            }
        }
        Ok(Version {
            alloc: self.alloc,
            tree,
            map,
            number: self.number.saturating_add(1),
        })
    }

    /// Takes the pairs under a prefix out of the map. The number is one greater where there was
    /// one.
    pub fn take_out(&mut self, prefix: &[u8]) -> Result<(), AllocError> {
        let mut map = Map::new(self.alloc);
        for (key, value) in &self.map {
            if !key.starts_with(prefix) {
                map.insert(key.to_vec(self.alloc)?, *value)?;
            }
        }
        if map.len() < self.map.len() {
            self.number = self.number.saturating_add(1);
        }
        self.map = map;
        Ok(())
    }

    /// Puts the pairs of another map under a prefix in place of this one's. The number is then the
    /// sum of both.
    pub fn take_over(&mut self, other: &Version, prefix: &[u8]) -> Result<(), AllocError> {
        let mut map = Map::new(self.alloc);
        for (key, value) in &self.map {
            if !key.starts_with(prefix) {
                map.insert(key.to_vec(self.alloc)?, *value)?;
            }
        }
        for (key, value) in &other.map {
            if key.starts_with(prefix) {
                map.insert(key.to_vec(self.alloc)?, *value)?;
            }
        }
        self.map = map;
        self.number = self.number.saturating_add(other.number);
        Ok(())
    }

    /// Whether the tree has the number and the pairs of the map, and as many keys.
    pub fn agrees(&self) -> bool {
        for (key, value) in &self.map {
            if self.tree.get_bytes(key) != Some(value) {
                return false;
            }
        }
        self.tree.intersect_count(&self.tree) == self.map.len()
            && self.tree.version() == self.number
    }
}
