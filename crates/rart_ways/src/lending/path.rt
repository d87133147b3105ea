// Ported from rart 0.11.0 (Apache-2.0), and rewritten.
//! The way down a tree to the node that is to be lent.
ghost use Rattle.std.specs.Prelude.{◌≡◌, ℕ, ◌+◌, ◌*◌, ◌≤◌, Some, IfOk, IsSome, drop, length};
ghost use Rattle.std.specs.Borrow.{sem};
ghost use Rattle.std.specs.Option.{option_map};
ghost use Rattle.rart_below.specs.Children.{child_at};
ghost use Rattle.rart_below.specs.Clones.{ClonesEqual};
ghost use Rattle.rart_node.specs.Counts.{CountsUpTo};
ghost use Rattle.rart_node.specs.Shape.{children_of};
ghost use Rattle.rart_node.specs.Trees.{IsTree};
ghost use Rattle.rart_ways.specs.Grafts.{LendsPathEnd};
ghost use Rattle.rart_ways.specs.Paths.{first_byte, path_end, step};

use rart_below::Partial;
use rart_node::{NodeRef, VersionedNode, Work};
use std::alloc::AllocError;
use std::marker::PhantomData;

/// A way down a tree that lends the node at its end.
///
/// A recursion over the nodes can't lend what it comes to: what is written there would have to be
/// told through calls of the function within its own proof. So the way is cut in halves by types,
/// each of which calls the ones below it and none itself.
pub(crate) trait Path {
    ghost most: { ℕ };

    /// Lends the node that is `steps` nodes down on the way of a key. `passed` bytes of the key
    /// stand above the node of the pointer, and then above the last one.
    fn down<'a, P: Partial, V: Clone + Drop>(
        at: &'a mut NodeRef<P, V>,
        key: &[u8],
        passed: &mut usize,
        steps: usize,
        work: &mut Work,
    ) -> Result<&'a mut VersionedNode<P, V>, AllocError>
        requires clones { ClonesEqual V.is_clone }
        requires within { passed.old ≤ length key.now }
        requires tree { IsTree at.old.shape }
        requires few { steps ≤ most }
        requires there { IsSome (path_end steps (drop passed.old key.now) at.old.shape) }
        ensures* writes_back { sem 𝓛 (LendsPathEnd P.row V.row P.Partial at.entry steps
            (drop passed.entry.now key.now) result) }
        ensures reached { IfOk result (λ end. path_end steps (drop passed.old key.now) at.old.shape
            ≡ Some (end.now.shape, drop passed.new key.now)) }
        ensures within { passed.new ≤ length key.now }
        ensures counted { CountsUpTo (steps + 1) (steps + 1) work.old work.new };
}

/// The node of the pointer itself.
pub(crate) struct Here;

/// A way by the type below, one node down, and once more a way by the type below.
pub(crate) struct Twice<L> {
    below: PhantomData<L>,
}

impl Path for Here {
    ghost most = { 0 };

    fn down<'a, P: Partial, V: Clone + Drop>(
        at: &'a mut NodeRef<P, V>,
        _key: &[u8],
        _passed: &mut usize,
        _steps: usize,
        work: &mut Work,
    ) -> Result<&'a mut VersionedNode<P, V>, AllocError> {
        at.open_mut(work)
    }
}

impl<L: Path> Path for Twice<L> {
    ghost most = { 2 * L.most + 1 };

    fn down<'a, P: Partial, V: Clone + Drop>(
        at: &'a mut NodeRef<P, V>,
        key: &[u8],
        passed: &mut usize,
        steps: usize,
        work: &mut Work,
    ) -> Result<&'a mut VersionedNode<P, V>, AllocError> {
        if steps == 0 {
            return at.open_mut(work);
        }
        let half = (steps - 1) / 2;
        let middle = L::down(at, key, passed, half, work)?;
        let byte = next_byte(middle, key, passed);
        match middle.seek_child_mut(byte) {
            Some(child) => L::down(child, key, passed, steps - 1 - half, work),
            None => unreachable!(),
        }
    }
}

/// The byte under which a key goes on below a node. `passed` bytes of the key stand above the node,
/// and then above the child.
pub(crate) fn next_byte<P: Partial, V: Drop>(
    node: &VersionedNode<P, V>,
    key: &[u8],
    passed: &mut usize,
) -> u8
    requires within { passed.old ≤ length key.now }
    requires there { IsSome (step (drop passed.old key.now) node.now.shape) }
    ensures next { step (drop passed.old key.now) node.now.shape
        ≡ option_map (λ child. (child, drop passed.new key.now))
        (child_at result (children_of node.now.shape)) }
    ensures first { first_byte (drop passed.new key.now) ≡ result }
    ensures within { passed.new ≤ length key.now }
{
    *passed += node.prefix().len();
    key[*passed]
}

type Four<L> = Twice<Twice<Twice<Twice<L>>>>;

type Sixteen<L> = Four<Four<Four<Four<L>>>>;

/// 64 times twice: 2^64 - 1 nodes down, more than a key has bytes.
pub(crate) type Whole = Sixteen<Sixteen<Sixteen<Sixteen<Here>>>>;
