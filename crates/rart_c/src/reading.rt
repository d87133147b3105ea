//! What C calls to read a tree.
ghost use Rattle.std.specs.Prelude.{◌≡◌, length};
ghost use Rattle.std.specs.FinMap as finite;
ghost use Rattle.rart_c.specs.Answers.{Tells};
ghost use Rattle.rart_c.specs.Longest.{longest_length};
ghost use Rattle.rart_maps.specs.Pairs.{common};
ghost use Rattle.rart_maps.specs.Versions.{has_no_key, value_at};

use crate::answer::{tell, tell_longest};
use crate::handle::RartTree;
use crate::lent;

/// The version's number. A key that is set or taken out raises it by one, a prefix that is put back
/// by the other tree's.
#[unsafe(no_mangle)]
pub extern "C" fn rart_version(tree: &mut RartTree) -> u64
    ensures number { result ≡ tree.old.shows.version.number }
    ensures same { tree.new.shows ≡ tree.old.shows }
{
    lent::version(tree.table())
}

/// How many keys there are.
#[unsafe(no_mangle)]
pub extern "C" fn rart_len(tree: &mut RartTree) -> usize
    ensures count { result ≡ finite.len tree.old.shows.version.content }
    ensures same { tree.new.shows ≡ tree.old.shows }
{
    lent::len(tree.table())
}

/// Whether there is no key.
#[unsafe(no_mangle)]
pub extern "C" fn rart_is_empty(tree: &mut RartTree) -> bool
    ensures answer { result ≡ has_no_key tree.old.shows.version }
    ensures same { tree.new.shows ≡ tree.old.shows }
{
    rart_len(tree) == 0
}

/// Answers `DONE` and writes the value of a key, or answers `ABSENT`. It takes no memory.
#[unsafe(no_mangle)]
pub extern "C" fn rart_get(tree: &mut RartTree, key: &[u8], value: &mut u64) -> u8
    ensures found { Tells (value_at tree.old.shows.version key.now) result value.old value.new }
    ensures same { tree.new.shows ≡ tree.old.shows }
{
    tell(lent::get(tree.table(), key).copied(), value)
}

/// Answers `DONE` and writes how long the longest key is that begins the probe, and its value, or
/// answers `ABSENT`. It takes no memory.
#[unsafe(no_mangle)]
pub extern "C" fn rart_longest(
    tree: &mut RartTree,
    probe: &[u8],
    len: &mut usize,
    value: &mut u64,
) -> u8
    ensures found { Tells (longest_length tree.old.shows.version probe.now) result
        (len.old, value.old) (len.new, value.new) }
    ensures same { tree.new.shows ≡ tree.old.shows }
{
    tell_longest(lent::longest(tree.table(), probe), len, value)
}

/// How many keys are in both trees. It takes no memory.
#[unsafe(no_mangle)]
pub extern "C" fn rart_common(tree: &mut RartTree, other: &mut RartTree) -> usize
    ensures count { result ≡ length (common tree.old.shows.version.content
        other.old.shows.version.content) }
    ensures same { tree.new.shows ≡ tree.old.shows }
    ensures other_same { other.new.shows ≡ other.old.shows }
{
    lent::common(tree.table(), other.table())
}
