//! The ways down to where a walk back starts.
ghost use Rattle.std.specs.Prelude.{◌≡◌, ◌+◌, ◌++◌, [], None, OnOk, filter, length, if◌then◌else◌};
ghost use Rattle.std.specs.Option.{option_copied};
ghost use Rattle.std.specs.Ordering.{as_partial_cmp};
ghost use Rattle.std.specs.Range.Bound.{bound_map, is_up_to_end};
ghost use Rattle.rart_below.specs.Bytes.{begins, byte_order};
ghost use Rattle.rart_below.specs.Children.{children_below};
ghost use Rattle.rart_node.specs.Shape.{IsAscending, children_of, value_of};
ghost use Rattle.rart_node.specs.Trees.{IsTree, pairs_of, path_bound};
ghost use Rattle.rart_node.specs.VersionedNodeRevIter.{children_before};
ghost use Rattle.rart_walks.specs.Fronts.{EntersReached, StandsAbove, StartsWithin, at_end_of, has_lower, keeps, reached_pairs, reached_paths, reaches, reaches_to};
ghost use Rattle.rart_walks.specs.Openings.{EndsIn};
ghost use Rattle.rart_maps.specs.Bounds.{bound_string};
ghost use Rattle.rart_walks.specs.Walks.{AreShort, paths_of};

use super::WalkBack;
use rart_below::Partial;
use rart_node::{KeyPath, NodeRef, VersionedNode, VersionedNodeRevIter, Work, rest_of};
use std::alloc::{AllocError, Global};
use std::ops::Bound;

/// The part of a tree that a string picks: the keys that it begins, those up to it, or those before
/// it.
#[derive(Clone, Copy, PartialEq, Eq)]
enum Front {
    Under,
    UpTo,
    Before,
}

/// What of a node at which a way ends is in the part: all of it, its own value alone, or nothing.
enum Reached {
    All,
    Own,
    Nothing,
}

impl Front {
    /// Whether it has what stands before the keys that begin as the string does.
    fn has_lower(self) -> bool
        ensures { result ≡ has_lower self }
    {
        match self {
            Front::Under => false,
            Front::UpTo => true,
            Front::Before => true,
        }
    }
}

impl<'a, P: Partial, V: Drop, T: KeyPath<'a>> WalkBack<'a, P, V, T> {
    /// A walk back over the keys that a prefix begins. It enters the nodes on the way down to them:
    /// at most one for each byte of the prefix, and one; and the root at least.
    ///
    /// Refused for memory, there is none.
    pub fn under(
        alloc: Global,
        root: &'a NodeRef<P, V>,
        prefix: &[u8],
        work: &mut Work,
    ) -> Result<WalkBack<'a, P, V, T>, AllocError>
        requires tree { IsTree root.now.shape }
        requires short { AreShort T.greatest (pairs_of root.now.shape) }
        ensures { StartsWithin T.holds T.greatest result (begins prefix.now)
            (begins prefix.now) (length prefix.now + 1) root.now.shape work.old work.new }
    {
        along_path(alloc, root, Front::Under, prefix, work)
    }

    /// A walk back over the keys that meet an upper bound. It enters the nodes on the way down to
    /// the last of them: at most one for each byte of the bound, and one; and the root at least.
    ///
    /// Refused for memory, there is none.
    pub fn to(
        alloc: Global,
        root: &'a NodeRef<P, V>,
        high: Bound<&[u8]>,
        work: &mut Work,
    ) -> Result<WalkBack<'a, P, V, T>, AllocError>
        requires tree { IsTree root.now.shape }
        requires short { AreShort T.greatest (pairs_of root.now.shape) }
        ensures { StartsWithin T.holds T.greatest result
            (is_up_to_end (as_partial_cmp byte_order) (bound_map (λ high. high.now) high.entry))
            (reaches_to (bound_map (λ high. high.now) high.entry))
            (length (bound_string (bound_map (λ high. high.now) high.entry)) + 1)
            root.now.shape work.old work.new }
    {
        match high {
            Bound::Included(high) => along_path(alloc, root, Front::UpTo, high, work),
            Bound::Excluded(high) => along_path(alloc, root, Front::Before, high, work),
            Bound::Unbounded => WalkBack::whole(alloc, root, work),
        }
    }
}

/// The way down to the part of a tree that a string picks.
fn along_path<'a, P: Partial, V: Drop, T: KeyPath<'a>>(
    alloc: Global,
    root: &'a NodeRef<P, V>,
    part: Front,
    probe: &[u8],
    work: &mut Work,
) -> Result<WalkBack<'a, P, V, T>, AllocError>
    requires tree { IsTree root.now.shape }
    requires short { AreShort T.greatest (pairs_of root.now.shape) }
    ensures { StartsWithin T.holds T.greatest result (keeps part probe.now)
        (reaches part probe.now) (path_bound root.now.shape probe.now)
        root.now.shape work.old work.new }
{
    let mut walk = WalkBack::new(alloc);
    let mut at = root;
    let mut rest = probe;
    'down: loop {
        let node = at.open(work);
        let common = node.prefix().prefix_length_slice(rest);
        if common == rest.len() || common < node.prefix().len() {
            enter_reached(&mut walk, node, reached_of(node, part, rest, common))?;
            return Ok(walk);
        }
        rest = rest_of(rest, common);
        let byte = rest[0];
        let own = earlier_own(node, part.has_lower());
        let children = earlier_children(node, byte, part.has_lower());
        walk.enter_part(node.prefix().as_ref(), own, children)?;
        at = match node.seek_child(byte) {
            Some(child) => child,
            None => return Ok(walk),
        };
    }
}

/// What of a node is in the part, where the string ends in its prefix or parts from it.
fn reached_of<P: Partial, V: Drop>(
    node: &VersionedNode<P, V>,
    part: Front,
    rest: &[u8],
    common: usize,
) -> Reached
    requires tree { IsTree node.now.shape }
    requires here { EndsIn common rest.now node.now.shape }
    ensures pairs { filter (λ pair. keeps part rest.now pair.0) (pairs_of node.now.shape)
        ≡ reached_pairs result node.now.shape }
    ensures paths { filter (reaches part rest.now) (paths_of node.now.shape)
        ≡ reached_paths result node.now.shape }
{
    if common == rest.len() {
        return reached_at_end(part, common == node.prefix().len());
    }
    if !part.has_lower() {
        return Reached::Nothing;
    }
    if node.prefix().at(common) < rest[common] {
        return Reached::All;
    }
    Reached::Nothing
}

/// The same where the string ends inside the prefix, or with it.
fn reached_at_end(part: Front, is_whole: bool) -> Reached
    ensures { result ≡ at_end_of part is_whole }
{
    match part {
        Front::Under => Reached::All,
        Front::UpTo if is_whole => Reached::Own,
        Front::UpTo => Reached::Nothing,
        Front::Before => Reached::Nothing,
    }
}

/// Enters the node at the end of a way for what is in the part of it.
fn enter_reached<'a, P: Partial, V: Drop, T: KeyPath<'a>>(
    walk: &mut WalkBack<'a, P, V, T>,
    node: &'a VersionedNode<P, V>,
    reached: Reached,
) -> Result<(), AllocError>
    requires { StandsAbove T.holds T.greatest node.now.shape walk.old }
    ensures { EntersReached T.holds walk.old result reached node.now.shape walk.new }
{
    let segment = node.prefix().as_ref();
    match reached {
        Reached::All => walk.enter_part(segment, node.value(), node.iter_rev()),
        Reached::Own => walk.enter_part(segment, node.value(), node.iter_rev_below(0)),
        Reached::Nothing => Ok(()),
    }
}

/// The own value of a node, where what stands before the string is in the part.
fn earlier_own<'a, P: Partial, V: Drop>(
    node: &'a VersionedNode<P, V>,
    has_lower: bool,
) -> Option<&'a V>
    ensures { option_copied result ≡ (if has_lower then value_of node.now.shape else None) }
{
    if has_lower { node.value() } else { None }
}

/// The children of a node below a byte, or none.
fn earlier_children<'a, P: Partial, V: Drop>(
    node: &'a VersionedNode<P, V>,
    byte: u8,
    has_lower: bool,
) -> VersionedNodeRevIter<'a, P, V>
    requires { IsAscending node.now.shape }
    ensures { children_before result ≡ (if has_lower
        then children_below byte (children_of node.now.shape) else []) }
{
    if has_lower {
        node.iter_rev_below(byte)
    } else {
        node.iter_rev_below(0)
    }
}
