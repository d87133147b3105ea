// Ported from rart 0.11.0 (Apache-2.0), and rewritten.
//! The way along a prefix, to the node that has all that the prefix begins.
ghost use Rattle.std.specs.Prelude.{◌≡◌, ◌+◌, ◌<◌, ◌≤◌, ◌++◌, IfNone, IfOk, IfSome, drop, length, take};
ghost use Rattle.rart_below.specs.Clones.{ClonesEqual};
ghost use Rattle.rart_node.specs.Counts.{CountsUpTo};
ghost use Rattle.rart_node.specs.Shape.{prefix_of};
ghost use Rattle.rart_node.specs.Trees.{IsTree, path_bound};
ghost use Rattle.rart_ways.specs.Prefixes.{HasNoneUnder, IsPart, IsTurn, StandsUnder, part_of, tail_of};

use rart_below::Partial;
use rart_node::{NodeRef, VersionedNode, Work, rest_of};
use std::alloc::{AllocError, Global};

/// What the rest of a prefix finds at a node.
#[derive(Drop)]
pub(crate) enum Turn<'a, 'k, P: Partial, V> {
    /// The node's prefix begins with it: so does each key there.
    Under,
    /// It begins no key there.
    Apart,
    /// It goes on at this child, where this is left of it.
    Down(&'a NodeRef<P, V>, &'k [u8]),
}

/// The node that has all that a prefix begins.
#[derive(Drop)]
pub(crate) struct PrefixEnd<'a, P: Partial, V> {
    pub prefix: &'a [u8],
    pub at: &'a NodeRef<P, V>,
    pub node: &'a VersionedNode<P, V>,
    /// How many bytes of the prefix stand above the node.
    pub above: usize,
    /// How many nodes below the root it is.
    pub steps: usize,
}

impl<'a, P: Partial, V: Clone + Drop> PrefixEnd<'a, P, V> {
    /// All that the prefix begins, behind so many of its first bytes. What is below the node is
    /// shared; and the node too, where just these bytes stand above it. Refused for memory, there
    /// is none.
    pub(crate) fn behind(
        &self,
        alloc: Global,
        count: usize,
        version: u64,
        work: &mut Work,
    ) -> Result<NodeRef<P, V>, AllocError>
        requires clones { ClonesEqual V.is_clone }
        requires part { IsPart P.MAXIMUM_SIZE self.now }
        requires within { count ≤ length self.now.prefix.now }
        ensures shown { IfOk result (λ it. it.shape ≡ tail_of count (part_of self.now)) }
        ensures counted { CountsUpTo 0 1 work.old work.new }
    {
        if count == self.above {
            return self.at.copy();
        }
        let node = self.node_behind(alloc, count, version)?;
        NodeRef::new(alloc, node, work)
    }

    /// The same as a node, which is a copy.
    pub(crate) fn node_behind(
        &self,
        alloc: Global,
        count: usize,
        version: u64,
    ) -> Result<VersionedNode<P, V>, AllocError>
        requires clones { ClonesEqual V.is_clone }
        requires part { IsPart P.MAXIMUM_SIZE self.now }
        requires within { count ≤ length self.now.prefix.now }
        ensures { IfOk result (λ it. it.shape ≡ tail_of count (part_of self.now)) }
    {
        let prefix = self.bytes_behind(alloc, count)?;
        self.node.copy_under(alloc, version, prefix)
    }

    /// The bytes above the node and its own, behind so many of them.
    fn bytes_behind(&self, alloc: Global, count: usize) -> Result<P, AllocError>
        requires part { IsPart P.MAXIMUM_SIZE self.now }
        requires within { count ≤ length self.now.prefix.now }
        ensures { IfOk result (λ it. P.bytes it ≡ drop count
            (take self.now.above self.now.prefix.now ++ prefix_of self.now.node.now.shape)) }
    {
        let own = self.node.prefix();
        if count < self.above {
            let above: P = P::new_from_slice(alloc, &self.prefix[..self.above][count..])?;
            return above.partial_extended_with(alloc, own);
        }
        own.partial_after(alloc, count - self.above)
    }
}

/// The node below a root that has all that a prefix begins, or `None` where it begins no key.
///
/// Each node on the way is entered once. It takes no memory.
pub(crate) fn prefix_end<'a, P: Partial, V: Drop>(
    root: &'a NodeRef<P, V>,
    prefix: &'a [u8],
    work: &mut Work,
) -> Option<PrefixEnd<'a, P, V>>
    requires tree { IsTree root.now.shape }
    ensures prefix { IfSome result (λ end. end.prefix.now ≡ prefix.now) }
    ensures stands { IfSome result (λ end. StandsUnder prefix.now root.now.shape
        end.steps end.above end.at.now.shape) }
    ensures node { IfSome result (λ end. end.node.now.shape ≡ end.at.now.shape) }
    ensures few { IfSome result (λ end. end.steps + 1 ≤ path_bound root.now.shape prefix.now) }
    ensures none { IfNone result (HasNoneUnder prefix.now root.now.shape) }
    ensures counted { CountsUpTo (path_bound root.now.shape prefix.now) 0 work.old work.new }
    ensures entered { work.old.entered < work.new.entered }
{
    let mut at = root;
    let mut rest = prefix;
    let mut steps = 0;
    'down: loop {
        let node = at.open(work);
        match turn_at(node, rest) {
            Turn::Under => {
                return Some(PrefixEnd {
                    prefix,
                    at,
                    node,
                    above: prefix.len() - rest.len(),
                    steps,
                });
            }
            Turn::Apart => return None,
            Turn::Down(child, left) => {
                at = child;
                rest = left;
            }
        }
        // Below the root each node takes a byte of the prefix at least.
        let length = prefix.len();
        prove!(steps < length);
        steps += 1;
    }
}

/// What the rest of a prefix finds at a node.
fn turn_at<'a, 'k, P: Partial, V: Drop>(
    node: &'a VersionedNode<P, V>,
    rest: &'k [u8],
) -> Turn<'a, 'k, P, V>
    requires { IsTree node.now.shape }
    ensures { IsTurn result rest.now node.now.shape }
{
    let prefix = node.prefix();
    let common = prefix.prefix_length_slice(rest);
    if common == rest.len() {
        return Turn::Under;
    }
    if common < prefix.len() {
        return Turn::Apart;
    }
    match node.seek_child(rest[common]) {
        None => Turn::Apart,
        Some(child) => Turn::Down(child, rest_of(rest, common)),
    }
}
