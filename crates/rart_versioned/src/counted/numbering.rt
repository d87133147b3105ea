// Ported from rart 0.11.0 (Apache-2.0), and rewritten.
//! A tree is given another number.
ghost use Rattle.std.specs.Prelude.{◌≡◌, ◌≤◌};
ghost use Rattle.std.specs.FinMap as finite;

use crate::counted::VersionedAdaptiveRadixTree;
use rart_below::KeyTrait;

impl<K: KeyTrait, V: Clone + Drop> VersionedAdaptiveRadixTree<K, V> {
    /// Gives the map another number, which is not below how many keys there are. The Rust has no
    /// such call.
    pub fn set_version(&mut self, number: u64)
        requires { finite.len self.old.content ≤ number }
        ensures { self.new ≡ record { content = self.old.content; number = number } }
    {
        self.version = number;
    }
}
