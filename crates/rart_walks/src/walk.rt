// Ported from rart 0.11.0 (Apache-2.0), and rewritten.
//! The walk itself.
ghost use Rattle.std.specs.Prelude.{◌≡◌, ◌++◌, ◌∷◌, [], ℕ, List, None, IfNone, IfSome, OnOk, Some};
ghost use Rattle.std.specs.Option.{option_map};
ghost use Rattle.rart_node.specs.VersionedNodeIter.{children_left};
ghost use Rattle.rart_node.specs.Shape.{IsAscending, prefix_of};
ghost use Rattle.rart_node.specs.Trees.{IsTree, pairs_of};
ghost use Rattle.rart_walks.specs.Frames.{TakesAhead, segments_of};
ghost use Rattle.rart_walks.specs.Openings.{CanPass, EntersNext, OpensPart, EntersWhole, Passes, StandsAbove, TakesNext};
ghost use Rattle.rart_walks.specs.Walked.{GivesNext, HasNothing, StartsWhole, StepsOn};
ghost use Rattle.rart_walks.specs.WalkFields.{AreMarked, IsFramed, IsWalk, and_inner, cursor, nodes_open, open_nodes};
ghost use Rattle.rart_walks.specs.Walks.{AreShort};

mod path;

use crate::trail::Trail;
use rart_below::Partial;
use rart_node::{KeyPath, NodeRef, VersionedNode, VersionedNodeIter, Work};
use std::alloc::{AllocError, Global};
use std::mem;

/// A node that is open: how far the key path reaches down to it, and the children that are left.
#[derive(Drop)]
struct Frame<'a, P: Partial, V> {
    mark: usize,
    children: VersionedNodeIter<'a, P, V>,
    // the prefixes since the frame above, which contracts alone see
    way: Trail,
}

/// A walk over a tree, from node to node. A leaf that it comes to has no frame: nothing is left
/// below it. The innermost frame stands beside the others, so that a walk over a node and its
/// leaves takes no memory for them.
///
/// Contracts see a walk as the prefixes of the nodes down to the one that it stands at, the pairs
/// that it has left, and the paths of the nodes that it has left to enter.
#[derive(Drop)]
pub struct Walk<'a, P: Partial, V, T> {
    key_path: T,
    outer: Vec<Frame<'a, P, V>>,
    inner: Option<Frame<'a, P, V>>,
    // those since the innermost frame
    below: Trail,
    pending: Option<&'a V>,
}

impl<'a, P: Partial, V: Drop, T: KeyPath<'a>> Walk<'a, P, V, T> {
    /// A walk with nothing left. It takes no memory.
    pub fn new(alloc: Global) -> Walk<'a, P, V, T>
        ensures { HasNothing T.holds T.extent T.greatest result }
    {
        Walk {
            key_path: T::new(alloc),
            outer: Vec::new(alloc),
            inner: None,
            below: Trail::new(),
            pending: None,
        }
    }

    /// Adds the prefix of a node that gets no frame to the key path. Refused for memory, it is not
    /// added.
    #[inline(always)]
    fn pass(&mut self, segment: &'a [u8]) -> Result<(), AllocError>
        requires { CanPass T.holds T.greatest segment.now self.old }
        ensures { Passes T.holds self.old result segment.now self.new }
    {
        self.key_path.push(segment)?;
        self.below.push(segment);
        Ok(())
    }

    /// Enters a node with this prefix for these of its children; its value is passed. Refused for
    /// memory, the walk is of no use any more.
    #[inline]
    fn enter_part(
        &mut self,
        segment: &'a [u8],
        children: VersionedNodeIter<'a, P, V>,
    ) -> Result<(), AllocError>
        requires may { CanPass T.holds T.greatest segment.now self.old }
        requires framed { IsFramed T.extent self.old }
        ensures { OpensPart T.holds T.extent self.old result segment.now
            (children_left children.entry) self.new }
    {
        self.pass(segment)?;
        let frame = Frame {
            mark: self.key_path.mark(),
            children,
            way: mem::replace(&mut self.below, Trail::new()),
        };
        push_innermost(&mut self.outer, &mut self.inner, frame)
    }

    /// Enters a node below the innermost one, whose value and children are all left then. Refused
    /// for memory, the walk is of no use any more.
    fn enter_whole(&mut self, node: &'a VersionedNode<P, V>) -> Result<(), AllocError>
        requires { StandsAbove T.holds T.extent T.greatest node.now.shape self.old }
        ensures { EntersWhole T.holds T.extent T.greatest self.old result node.now.shape self.new }
    {
        self.enter_part(node.prefix().as_ref(), node.iter())?;
        self.pending = node.value();
        Ok(())
    }

    /// A walk over the whole tree: all its pairs are left. It enters the root.
    ///
    /// Refused for memory, there is none.
    pub fn whole(
        alloc: Global,
        root: &'a NodeRef<P, V>,
        work: &mut Work,
    ) -> Result<Walk<'a, P, V, T>, AllocError>
        requires tree { IsTree root.now.shape }
        requires short { AreShort T.greatest (pairs_of root.now.shape) }
        ensures { StartsWhole T.holds T.extent T.greatest result root.now.shape work.old work.new }
    {
        let mut walk = Walk::new(alloc);
        walk.enter_whole(root.open(work))?;
        Ok(walk)
    }

    /// The key path, which keeps the way to the node that the walk stands at.
    pub fn key_path(&self) -> &T
        requires walk { IsWalk T.holds T.extent T.greatest self.now }
        ensures { T.holds result.now (cursor self.now).segments }
    {
        &self.key_path
    }

    /// Ends the walk: nothing is left.
    pub fn end(&mut self)
        requires walk { IsWalk T.holds T.extent T.greatest self.old }
        ensures { HasNothing T.holds T.extent T.greatest self.new }
    {
        self.leave_all();
    }

    /// Leaves every node: nothing is left.
    #[cold]
    fn leave_all(&mut self)
        ensures { HasNothing T.holds T.extent T.greatest self.new }
    {
        self.key_path.clear();
        self.outer.clear();
        self.inner = None;
        self.below = Trail::new();
        self.pending = None;
    }

    /// Takes the next child that is left, and stands at its parent then. Where none is left, so is
    /// nothing of the walk.
    #[inline(always)]
    fn next_ahead(&mut self) -> Option<&'a NodeRef<P, V>>
        requires walk { IsWalk T.holds T.extent T.greatest self.old }
        ensures some { IfSome result (λ child. TakesNext T.holds T.extent self.old child.now.shape
            self.new) }
        ensures none { IfNone result (HasNothing T.holds T.extent T.greatest self.new) }
        ensures spent { IfNone result (TakesAhead (nodes_open self.old) None []) }
    {
        let Some((mark, child)) = take_ahead(&mut self.outer, &mut self.inner) else {
            self.leave_all();
            return None;
        };
        self.key_path.cut(mark);
        self.below = Trail::new();
        Some(child)
    }

    /// Enters a node below the innermost one: a leaf without a frame. Refused for memory, the walk
    /// is of no use any more.
    #[inline(always)]
    fn enter_next(&mut self, node: &'a VersionedNode<P, V>) -> Result<(), AllocError>
        requires order { IsAscending node.now.shape }
        requires below { self.old.below.segments ≡ [] }
        requires may { CanPass T.holds T.greatest (prefix_of node.now.shape) self.old }
        requires framed { IsFramed T.extent self.old }
        ensures { EntersNext T.holds T.extent self.old result node.now.shape self.new }
    {
        if node.is_leaf() {
            self.pass(node.prefix().as_ref())
        } else {
            self.enter_part(node.prefix().as_ref(), node.iter())
        }
    }

    /// Goes on to the next node, and gives its value: `Some(None)` where it has none. Where the
    /// walk stands at a node whose value is still to give, it gives that, and enters none. `None`
    /// where no node is left.
    ///
    /// Refused for memory, the walk has ended.
    #[inline(always)]
    pub(crate) fn next_node(&mut self, work: &mut Work) -> Result<Option<Option<&'a V>>, AllocError>
        requires walk { IsWalk T.holds T.extent T.greatest self.old }
        ensures { StepsOn T.holds T.extent T.greatest self.old result self.new work.old work.new }
    {
        if let Some(value) = self.pending {
            self.pending = None;
            return Ok(Some(Some(value)));
        }
        let Some(child) = self.next_ahead() else {
            return Ok(None);
        };
        let node = child.open(work);
        if let Err(refused) = self.enter_next(node) {
            self.leave_all();
            return Err(refused);
        }
        Ok(Some(node.value()))
    }

    /// Gives the next value, or `None` where there is none left.
    ///
    /// Refused for memory, the walk has ended.
    #[inline(always)]
    pub fn next_value(&mut self, work: &mut Work) -> Result<Option<&'a V>, AllocError>
        requires walk { IsWalk T.holds T.extent T.greatest self.old }
        ensures { GivesNext T.holds T.extent T.greatest self.old result self.new work.old work.new }
    {
        'node: while let Some(value) = self.next_node(work)? {
            if let Some(value) = value {
                return Ok(Some(value));
            }
        }
        Ok(None)
    }
}

/// Takes the next child of the innermost frame that has one left, and the mark of that frame; the
/// frames that have none are gone. `None` where no frame has one: then there is none.
#[inline(always)]
fn take_ahead<'a, P: Partial, V: Drop>(
    outer: &mut Vec<Frame<'a, P, V>>,
    inner: &mut Option<Frame<'a, P, V>>,
) -> Option<(usize, &'a NodeRef<P, V>)>
    requires innermost { inner.old ≡ None → outer.old.items ≡ [] }
    ensures innermost { inner.new ≡ None → outer.new.items ≡ [] }
    ensures takes { TakesAhead (open_nodes (and_inner outer.old.items inner.old))
        (option_map (λ found. found.1.now.shape) result)
        (open_nodes (and_inner outer.new.items inner.new)) }
    ensures marked { (extent : List (List ℕ) → ℕ)
        → AreMarked extent [] (and_inner outer.old.items inner.old)
        → AreMarked extent [] (and_inner outer.new.items inner.new) }
    ensures mark { (extent : List (List ℕ) → ℕ)
        → AreMarked extent [] (and_inner outer.old.items inner.old)
        → IfSome result (λ found. found.0
        ≡ extent (segments_of (open_nodes (and_inner outer.new.items inner.new)))) }
{
    'leaving: while let Some(frame) = inner {
        if let Some(child) = frame.children.next_child() {
            return Some((frame.mark, child));
        }
        *inner = outer.pop();
    }
    None
}

/// Puts a frame below the innermost one. Refused for memory, the innermost one is lost.
#[inline]
fn push_innermost<'a, P: Partial, V: Drop>(
    outer: &mut Vec<Frame<'a, P, V>>,
    inner: &mut Option<Frame<'a, P, V>>,
    frame: Frame<'a, P, V>,
) -> Result<(), AllocError>
    ensures frames { OnOk result (and_inner outer.new.items inner.new
        ≡ and_inner outer.old.items inner.old ++ frame.entry ∷ []) }
    ensures inner { inner.new ≡ Some frame.entry }
{
    if let Some(above) = inner.replace(frame) {
        outer.push(above)?;
    }
    Ok(())
}
