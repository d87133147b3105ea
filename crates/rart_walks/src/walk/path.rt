// Ported from rart 0.11.0 (Apache-2.0), and rewritten.
//! The ways down to where a walk starts.
ghost use Rattle.std.specs.Prelude.{◌≡◌, ◌+◌, ◌&&◌, [], length, if◌then◌else◌};
ghost use Rattle.std.specs.Ordering.{as_partial_cmp, is_lt};
ghost use Rattle.std.specs.Range.Bound.{is_from_start, bound_map};
ghost use Rattle.rart_below.specs.Bytes.{begins, byte_order};
ghost use Rattle.rart_below.specs.Children.{children_from};
ghost use Rattle.rart_node.specs.Shape.{IsAscending, children_of, prefix_of};
ghost use Rattle.rart_node.specs.VersionedNodeIter.{children_left};
ghost use Rattle.rart_node.specs.Trees.{IsTree, pairs_of, path_bound};
ghost use Rattle.rart_walks.specs.Frames.{pairs_inside};
ghost use Rattle.rart_walks.specs.Openings.{CanPass, EndsIn, EntersEnd, Finishes, OpensPart, StandsAbove};
ghost use Rattle.rart_maps.specs.Bounds.{bound_string};
ghost use Rattle.rart_walks.specs.Parts.{keeps, reaches, goes_on, is_strict};
ghost use Rattle.rart_walks.specs.Walked.{StartsWithin};
ghost use Rattle.rart_walks.specs.WalkFields.{IsFramed};
ghost use Rattle.rart_walks.specs.Walks.{AreShort};

use super::Walk;
use rart_below::Partial;
use rart_node::{KeyPath, NodeRef, VersionedNode, VersionedNodeIter, Work, rest_of};
use std::alloc::{AllocError, Global};
use std::ops::Bound;

/// The part of a tree that a string picks: the keys that it begins, those from it on, or those
/// behind it.
#[derive(Clone, Copy, PartialEq, Eq)]
enum Part {
    Under,
    From,
    Behind,
}

impl Part {
    /// Whether it goes on behind the keys that begin as the string does.
    fn goes_on(self) -> bool
        ensures { result ≡ goes_on self }
    {
        match self {
            Part::Under => false,
            Part::From => true,
            Part::Behind => true,
        }
    }

    /// Whether it lacks the string itself.
    fn is_strict(self) -> bool
        ensures { result ≡ is_strict self }
    {
        match self {
            Part::Under => false,
            Part::From => false,
            Part::Behind => true,
        }
    }
}

impl<'a, P: Partial, V: Drop, T: KeyPath<'a>> Walk<'a, P, V, T> {
    /// A walk over the keys that a prefix begins. It enters the nodes on the way down to them: at
    /// most one for each byte of the prefix, and one; and the root at least.
    ///
    /// Refused for memory, there is none.
    pub fn under(
        alloc: Global,
        root: &'a NodeRef<P, V>,
        prefix: &[u8],
        work: &mut Work,
    ) -> Result<Walk<'a, P, V, T>, AllocError>
        requires tree { IsTree root.now.shape }
        requires short { AreShort T.greatest (pairs_of root.now.shape) }
        ensures { StartsWithin T.holds T.extent T.greatest result (begins prefix.now)
            (begins prefix.now) (length prefix.now + 1) root.now.shape work.old work.new }
    {
        along_path(alloc, root, Part::Under, prefix, work)
    }

    /// A walk over the keys that meet a lower bound. It enters the nodes on the way down to the
    /// first of them: at most one for each byte of the bound, and one; and the root at least.
    ///
    /// Refused for memory, there is none.
    pub fn from(
        alloc: Global,
        root: &'a NodeRef<P, V>,
        low: Bound<&[u8]>,
        work: &mut Work,
    ) -> Result<Walk<'a, P, V, T>, AllocError>
        requires tree { IsTree root.now.shape }
        requires short { AreShort T.greatest (pairs_of root.now.shape) }
        ensures { StartsWithin T.holds T.extent T.greatest result
            (is_from_start (as_partial_cmp byte_order) (bound_map (λ low. low.now) low.entry))
            (λ path. is_lt (byte_order (bound_string (bound_map (λ low. low.now) low.entry)) path))
            (length (bound_string (bound_map (λ low. low.now) low.entry)) + 1)
            root.now.shape work.old work.new }
    {
        match low {
            Bound::Included(low) => along_path(alloc, root, Part::From, low, work),
            Bound::Excluded(low) => along_path(alloc, root, Part::Behind, low, work),
            Bound::Unbounded => along_path(alloc, root, Part::From, &[], work),
        }
    }
}

/// The way down to the part of a tree that a string picks.
fn along_path<'a, P: Partial, V: Drop, T: KeyPath<'a>>(
    alloc: Global,
    root: &'a NodeRef<P, V>,
    part: Part,
    probe: &[u8],
    work: &mut Work,
) -> Result<Walk<'a, P, V, T>, AllocError>
    requires tree { IsTree root.now.shape }
    requires short { AreShort T.greatest (pairs_of root.now.shape) }
    ensures { StartsWithin T.holds T.extent T.greatest result (keeps part probe.now)
        (reaches part probe.now) (path_bound root.now.shape probe.now)
        root.now.shape work.old work.new }
{
    let mut walk = Walk::new(alloc);
    let mut at = root;
    let mut rest = probe;
    'down: loop {
        let node = at.open(work);
        let common = node.prefix().prefix_length_slice(rest);
        if common == rest.len() || common < node.prefix().len() {
            finish(&mut walk, node, part, rest, common)?;
            return Ok(walk);
        }
        rest = rest_of(rest, common);
        let byte = rest[0];
        pass_node(&mut walk, node, part, byte)?;
        at = match node.seek_child(byte) {
            Some(child) => child,
            None => return Ok(walk),
        };
    }
}

/// Passes a node on the way, whose children behind a byte are left if the part goes on there.
fn pass_node<'a, P: Partial, V: Drop, T: KeyPath<'a>>(
    walk: &mut Walk<'a, P, V, T>,
    node: &'a VersionedNode<P, V>,
    part: Part,
    byte: u8,
) -> Result<(), AllocError>
    requires order { IsAscending node.now.shape }
    requires may { CanPass T.holds T.greatest (prefix_of node.now.shape) walk.old }
    requires framed { IsFramed T.extent walk.old }
    ensures { OpensPart T.holds T.extent walk.old result (prefix_of node.now.shape)
        (if goes_on part then children_from (byte + 1) (children_of node.now.shape) else [])
        walk.new }
{
    if part.goes_on() {
        walk.enter_part(node.prefix().as_ref(), later_children(node, byte))
    } else {
        walk.pass(node.prefix().as_ref())
    }
}

/// Ends a way at a node, of whose prefix the string has not the whole, or has no more: what is in
/// the part of its pairs is left then.
fn finish<'a, P: Partial, V: Drop, T: KeyPath<'a>>(
    walk: &mut Walk<'a, P, V, T>,
    node: &'a VersionedNode<P, V>,
    part: Part,
    rest: &[u8],
    common: usize,
) -> Result<(), AllocError>
    requires above { StandsAbove T.holds T.extent T.greatest node.now.shape walk.old }
    requires here { EndsIn common rest.now node.now.shape }
    ensures { Finishes T.holds T.extent T.greatest walk.old result part rest.now
        node.now.shape walk.new }
{
    if common == rest.len() {
        let is_passed = passes_own(part, common == node.prefix().len());
        return enter_end(walk, node, is_passed);
    }
    if !part.goes_on() {
        return Ok(());
    }
    if rest[common] < node.prefix().at(common) {
        return enter_end(walk, node, false);
    }
    Ok(())
}

/// Whether the value of a node is passed, whose prefix the string begins, or is.
fn passes_own(part: Part, is_whole: bool) -> bool
    ensures { result ≡ (is_strict part && is_whole) }
{
    part.is_strict() && is_whole
}

/// Enters the node at the end of a way. Its children are left then, and its value, unless that is
/// passed.
fn enter_end<'a, P: Partial, V: Drop, T: KeyPath<'a>>(
    walk: &mut Walk<'a, P, V, T>,
    node: &'a VersionedNode<P, V>,
    is_passed: bool,
) -> Result<(), AllocError>
    requires { StandsAbove T.holds T.extent T.greatest node.now.shape walk.old }
    ensures { EntersEnd T.holds T.extent T.greatest walk.old result node.now.shape
        (if is_passed then pairs_inside node.now.shape else pairs_of node.now.shape) walk.new }
{
    walk.enter_whole(node)?;
    if is_passed {
        walk.pending = None;
    }
    Ok(())
}

/// The children of a node behind a byte.
fn later_children<'a, P: Partial, V: Drop>(
    node: &'a VersionedNode<P, V>,
    byte: u8,
) -> VersionedNodeIter<'a, P, V>
    requires { IsAscending node.now.shape }
    ensures { children_left result ≡ children_from (byte + 1) (children_of node.now.shape) }
{
    let mut children = node.iter_from(byte);
    if let Some(_child) = node.seek_child(byte) {
        children.next();
    }
    children
}
