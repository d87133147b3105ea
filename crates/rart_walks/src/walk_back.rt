//! The walk back: from the last key to the first. rart has none.
ghost use Rattle.std.specs.Prelude.{◌≡◌, ◌++◌, ◌∷◌, ◌+◌, [], List, is_ok, None, length, if◌then◌else◌};
ghost use Rattle.std.specs.List.{concat};
ghost use Rattle.std.specs.Option.{option_copied, option_map};
ghost use Rattle.rart_below.specs.Bytes.{IsAdmitted};
ghost use Rattle.rart_node.specs.Shape.{IsAscending, prefix_of};
ghost use Rattle.rart_node.specs.Trees.{IsTree, pairs_of};
ghost use Rattle.rart_node.specs.VersionedNodeRevIter.{children_before};
ghost use Rattle.rart_walks.specs.BackFields.{EntersNext, EntersPart, IsWalkBack, LeavesLeaf, back_cursor, nodes_back, open_back, taken_shape};
ghost use Rattle.rart_walks.specs.BackFrames.{KeepsBack, OpenBack, TakesBack, TakesNextBack, back_segments};
ghost use Rattle.rart_walks.specs.WalkedBack.{GivesNext, HasNothing, StartsWhole, StepsOn};
ghost use Rattle.rart_walks.specs.Walks.{AreShort};

mod path;

use rart_below::Partial;
use rart_node::{KeyPath, NodeRef, VersionedNode, VersionedNodeRevIter, Work};
use std::alloc::{AllocError, Global};

/// A node that is open: its prefix, its own value, where that is still to give, and the children
/// that are left, which come before it.
#[derive(Drop)]
struct BackFrame<'a, P: Partial, V> {
    segment: &'a [u8],
    own: Option<&'a V>,
    children: VersionedNodeRevIter<'a, P, V>,
}

/// What a walk back takes of a node: its last child that is left, or, behind all of them, its own
/// value.
#[derive(Drop)]
enum Taken<N, T> {
    Child(N),
    Own(T),
}

/// A walk back over a tree, from node to node: a node's value comes behind those of its children,
/// and of its children the last comes first. A leaf that it comes to has no frame: nothing is left
/// below it.
///
/// Contracts see a walk back as they see a walk: as the prefixes of the nodes down to the one that
/// it stands at, the pairs that it has left, the last one first, and the paths of the nodes that it
/// has left to enter.
#[derive(Drop)]
pub struct WalkBack<'a, P: Partial, V, T> {
    key_path: T,
    frames: Vec<BackFrame<'a, P, V>>,
    leaf: Option<&'a [u8]>,
}

impl<'a, P: Partial, V: Drop, T: KeyPath<'a>> WalkBack<'a, P, V, T> {
    /// A walk with nothing left. It takes no memory.
    pub fn new(alloc: Global) -> WalkBack<'a, P, V, T>
        ensures { HasNothing T.holds T.greatest result }
    {
        WalkBack {
            key_path: T::new(alloc),
            frames: Vec::new(alloc),
            leaf: None,
        }
    }

    /// A walk back over the whole tree: all its pairs are left. It enters the root.
    ///
    /// Refused for memory, there is none.
    pub fn whole(
        alloc: Global,
        root: &'a NodeRef<P, V>,
        work: &mut Work,
    ) -> Result<WalkBack<'a, P, V, T>, AllocError>
        requires tree { IsTree root.now.shape }
        requires short { AreShort T.greatest (pairs_of root.now.shape) }
        ensures { StartsWhole T.holds T.greatest result root.now.shape work.old work.new }
    {
        let mut walk = WalkBack::new(alloc);
        let node = root.open(work);
        walk.enter_part(node.prefix().as_ref(), node.value(), node.iter_rev())?;
        Ok(walk)
    }

    /// Enters a node for this value and these of its children.
    fn enter_part(
        &mut self,
        segment: &'a [u8],
        own: Option<&'a V>,
        children: VersionedNodeRevIter<'a, P, V>,
    ) -> Result<(), AllocError>
        requires holds { T.holds self.old.key_path (back_segments
            (open_back self.old.frames.items)) }
        requires short { IsAdmitted T.greatest (length (concat (back_segments
            (open_back self.old.frames.items) ++ segment.now ∷ []))) }
        ensures { EntersPart T.holds self.old result
            (segment.now, option_copied own.entry, children_before children.entry) self.new }
    {
        enter(&mut self.frames, &mut self.key_path, segment, own, children)
    }

    /// The key path, which keeps the way to the node that the walk stands at.
    pub fn key_path(&self) -> &T
        requires walk { IsWalkBack T.holds T.greatest self.now }
        ensures { T.holds result.now (back_cursor self.now).segments }
    {
        &self.key_path
    }

    /// Leaves the leaf that the walk stands at, if it stands at one.
    #[inline(always)]
    fn leave_leaf(&mut self)
        requires holds { T.holds self.old.key_path (back_segments (nodes_back self.old)) }
        ensures { LeavesLeaf T.holds self.old self.new }
    {
        if let Some(segment) = self.leaf {
            self.leaf = None;
            self.key_path.pop(segment);
        }
    }

    /// Enters a node below the innermost one: a leaf without a frame, whose value is given. Refused
    /// for memory, none is entered.
    #[inline(always)]
    fn enter_next(&mut self, node: &'a VersionedNode<P, V>) -> Result<Option<&'a V>, AllocError>
        requires leaf { self.old.leaf ≡ None }
        requires order { IsAscending node.now.shape }
        requires holds { T.holds self.old.key_path (back_segments
            (open_back self.old.frames.items)) }
        requires short { IsAdmitted T.greatest (length (concat (back_segments
            (open_back self.old.frames.items) ++ prefix_of node.now.shape ∷ []))) }
        ensures { EntersNext T.holds self.old result node.now.shape self.new }
    {
        let segment = node.prefix().as_ref();
        if node.is_leaf() {
            self.key_path.push(segment)?;
            self.leaf = Some(segment);
            return Ok(node.value());
        }
        let own = node.value();
        enter(
            &mut self.frames,
            &mut self.key_path,
            segment,
            own,
            node.iter_rev(),
        )?;
        Ok(None)
    }

    /// Goes on: enters the last child that is left, or gives the value of a node whose children are
    /// all given. `Some(None)`: a node was entered whose value, if it has one, comes later. `None`
    /// where nothing is left.
    ///
    /// Refused for memory, the walk has ended.
    #[inline(always)]
    pub(crate) fn next_node(&mut self, work: &mut Work) -> Result<Option<Option<&'a V>>, AllocError>
        requires walk { IsWalkBack T.holds T.greatest self.old }
        ensures { StepsOn T.holds T.greatest self.old result self.new work.old work.new }
    {
        self.leave_leaf();
        let Some(taken) = take_next(&mut self.frames, &mut self.key_path) else {
            return Ok(None);
        };
        let child = match taken {
            Taken::Own(value) => return Ok(Some(Some(value))),
            Taken::Child(child) => child,
        };
        match self.enter_next(child.open(work)) {
            Ok(value) => Ok(Some(value)),
            Err(refused) => {
                leave_all(&mut self.frames, &mut self.key_path);
                Err(refused)
            }
        }
    }

    /// Gives the next value, or `None` where there is none left.
    ///
    /// Refused for memory, the walk has ended.
    #[inline(always)]
    pub fn next_value(&mut self, work: &mut Work) -> Result<Option<&'a V>, AllocError>
        requires walk { IsWalkBack T.holds T.greatest self.old }
        ensures { GivesNext T.holds T.greatest self.old result self.new work.old work.new }
    {
        'node: while let Some(value) = self.next_node(work)? {
            if let Some(value) = value {
                return Ok(Some(value));
            }
        }
        Ok(None)
    }
}

/// Takes what comes next of the innermost node that has something left; the nodes that have nothing
/// are left. `None` where no open node has: then none is open.
#[inline(always)]
fn take_next<'a, P: Partial, V: Drop, T: KeyPath<'a>>(
    frames: &mut Vec<BackFrame<'a, P, V>>,
    key_path: &mut T,
) -> Option<Taken<&'a NodeRef<P, V>, &'a V>>
    requires holds { T.holds key_path.old (back_segments (open_back frames.old.items)) }
    ensures holds { T.holds key_path.new (back_segments (open_back frames.new.items)) }
    ensures takes { TakesNextBack (open_back frames.old.items) (option_map taken_shape result)
        (open_back frames.new.items) }
{
    'leaving: while let Some(next) = take_last(frames) {
        match next {
            Some(taken) => return Some(taken),
            None => leave(frames, key_path),
        }
    }
    None
}

/// Takes the last child of the innermost node, or where none is left its own value: `Some(None)`
/// where neither is, `None` where no node is open.
#[inline(always)]
fn take_last<'a, P: Partial, V: Drop>(
    frames: &mut Vec<BackFrame<'a, P, V>>,
) -> Option<Option<Taken<&'a NodeRef<P, V>, &'a V>>>
    ensures segments { back_segments (open_back frames.new.items)
        ≡ back_segments (open_back frames.old.items) }
    ensures takes { TakesBack (open_back frames.old.items)
        (option_map (option_map taken_shape) result) (open_back frames.new.items) }
{
    let frame = frames.last_mut()?;
    if let Some(child) = frame.children.prev_child() {
        return Some(Some(Taken::Child(child)));
    }
    match frame.own {
        Some(value) => {
            frame.own = None;
            Some(Some(Taken::Own(value)))
        }
        None => Some(None),
    }
}

/// Opens a node with this prefix, this value to give, and these children left. Refused for memory,
/// none is opened.
#[inline]
fn enter<'a, P: Partial, V: Drop, T: KeyPath<'a>>(
    frames: &mut Vec<BackFrame<'a, P, V>>,
    key_path: &mut T,
    segment: &'a [u8],
    own: Option<&'a V>,
    children: VersionedNodeRevIter<'a, P, V>,
) -> Result<(), AllocError>
    requires holds { T.holds key_path.old (back_segments (open_back frames.old.items)) }
    requires short { IsAdmitted T.greatest (length (concat (back_segments
        (open_back frames.old.items) ++ segment.now ∷ []))) }
    ensures opened { open_back frames.new.items ≡ (if is_ok result
        then open_back frames.old.items
        ++ (segment.now, option_copied own.entry, children_before children.entry) ∷ []
        else open_back frames.old.items) }
    ensures holds { T.holds key_path.new (back_segments (open_back frames.new.items)) }
{
    key_path.push(segment)?;
    let frame = BackFrame {
        segment,
        own,
        children,
    };
    if let Err(refused) = frames.push(frame) {
        key_path.pop(segment);
        return Err(refused.into());
    }
    Ok(())
}

/// Leaves the innermost node, if there is one.
fn leave<'a, P: Partial, V: Drop, T: KeyPath<'a>>(
    frames: &mut Vec<BackFrame<'a, P, V>>,
    key_path: &mut T,
)
    requires holds { T.holds key_path.old (back_segments (open_back frames.old.items)) }
    ensures left { (front : List (OpenBack V)) (last : OpenBack V) →
        open_back frames.old.items ≡ front ++ last ∷ [] → open_back frames.new.items ≡ front }
    ensures holds { T.holds key_path.new (back_segments (open_back frames.new.items)) }
{
    if let Some(frame) = frames.pop() {
        key_path.pop(frame.segment);
    }
}

/// Leaves every node.
#[cold]
fn leave_all<'a, P: Partial, V: Drop, T: KeyPath<'a>>(
    frames: &mut Vec<BackFrame<'a, P, V>>,
    key_path: &mut T,
)
    requires holds { T.holds key_path.old (back_segments (open_back frames.old.items)) }
    ensures left { open_back frames.new.items ≡ [] }
    ensures holds { T.holds key_path.new [] }
{
    'leaving: while let Some(frame) = frames.pop() {
        key_path.pop(frame.segment);
    }
}
