// Ported from rart 0.11.0 (Apache-2.0), and rewritten.
//! The node: a prefix, an optional value, and children under bytes.
ghost use Rattle.std.specs.Prelude.{nat_le, ◌≡◌, ◌<◌, ◌==◌, ◌+◌, ◌↔◌, ℕ, IsErrOf, IsOk, IsSome, IsTrue, IfOk, OnOk, OnErr, Some, None, [], length, not};
ghost use Rattle.std.specs.Option.{option_map, option_copied};
ghost use Rattle.rart_below.specs.ByteSets.{AreBytesOf, AreBytesOfBoth};
ghost use Rattle.rart_below.specs.Children.{child_at, children_below, children_from, first_of, IsLastOf, TakesEntry, TakesFirst, TakesLast};
ghost use Rattle.rart_below.specs.Clones.{ClonesEqual};
ghost use Rattle.rart_node.specs.Contents.{before_at, left_at};
ghost use Rattle.rart_node.specs.Seen.{shape_of};
ghost use Rattle.rart_node.specs.Shape.{node_of, prefix_of, value_of, width_of, width_for, children_of, with_value, with_prefix, with_replaced, with_deleted, with_added, with_width, widenings, wider, FitsWidth, IsAscending, IsFull};

use crate::content::{Content, Layout};
use crate::grow_error::GrowError;
use crate::held::Held;
use crate::node_iter::VersionedNodeIter;
use crate::node_ref::NodeRef;
use crate::node_rev_iter::VersionedNodeRevIter;
use crate::work::Work;
use rart_below::{ByteSet, Partial, SortedKeyedMapping};
use std::alloc::{AllocError, Global};
use std::marker::Model;

/// A node: a prefix, an optional value, a width and a finite map from bytes to pointers.
///
/// The width, one of none, 4, 16, 48 and 256, is how many children there is room for. A node of
/// width none is a leaf. Contracts see a node by its shape, in which each pointer is the node that
/// it shows. Beside it stands a depth, by which a drop is shown to end and which no clause reads.
#[cycle(node)]
pub struct VersionedNode<P: Partial, V> {
    prefix: P,
    value: Held<V>,
    alloc: Global,
    content: Content<P, V>,
}

impl<P: Partial, V> Model for VersionedNode<P, V> {
    ghost use Rattle.rart_node.specs.Seen.{Seen, seen_code};

    ghost Value = { Seen V };

    ghost coded = { seen_code V.code };

    ghost use Rattle.rart_node.specs.Contents.{held_value};
    ghost use Rattle.rart_node.specs.NodeShapes.{seen_node};

    ghost view = { λ node. seen_node (P.bytes node.prefix) (held_value node.value) node.content };

    ghost size = { λ seen. seen.depth };

    ghost use Rattle.rart_node.specs.Depths.{deepest};

    ghost size_decreases = { λ node h. deepest P.Partial node };
}

// The halves of a number that a node is made with.
fn lower_half(version: u64) -> u32 {
    (version & u64::from(u32::MAX)) as u32
}

fn upper_half(version: u64) -> u32 {
    (version >> 32) as u32
}

/// Written out, so that a crate that drops a node proves nothing of what it is made of. Inlined, it
/// leaves no copy of the node in a frame of its own.
impl<P: Partial, V: Drop> Drop for VersionedNode<P, V> {
    #[cycle(drop_node)]
    #[inline(always)]
    fn drop(self) {
        let VersionedNode {
            prefix: _,
            value: _,
            alloc: _,
            content: _,
        } = self;
    }
}

impl<P: Partial, V: Drop> VersionedNode<P, V> {
    ghost use Rattle.rart_node.specs.NodeShapes.{entry_shape};
    ghost use Rattle.rart_node.specs.VersionedNodeIter.{children_left};
    ghost use Rattle.rart_node.specs.VersionedNodeRevIter.{children_before};
    ghost use Rattle.rart_node.specs.Lent.{LendsChild, LendsValue};
    ghost use Rattle.std.specs.Borrow.{sem};

    /// A leaf with this value. The allocator is kept for `Clone`, which takes none and by which
    /// `NodeRef::open_mut` copies a node; growth takes its own. `version` is stored and read by no
    /// call.
    pub fn new_leaf(alloc: Global, prefix: P, value: V, version: u64) -> VersionedNode<P, V>
        ensures { result.shape ≡ node_of (P.bytes prefix) (Some value) 0 [] }
    {
        VersionedNode {
            prefix,
            value: Held::Occupied(lower_half(version), value),
            alloc,
            content: Layout::Leaf(upper_half(version)),
        }
    }

    /// A node of width 4 with no value and no child. Refused for memory, no node is made and the
    /// prefix is given up.
    pub fn new_inner(
        alloc: Global,
        prefix: P,
        version: u64,
    ) -> Result<VersionedNode<P, V>, AllocError>
        ensures { IfOk result (λ it. it.shape ≡ node_of (P.bytes prefix) None 4 []) }
    {
        Ok(VersionedNode {
            prefix,
            value: Held::Vacant(lower_half(version)),
            alloc,
            content: Layout::Node4(
                upper_half(version),
                Box::new(alloc, SortedKeyedMapping::new())?,
            ),
        })
    }

    /// A node with this value or none and without a child, of the narrowest width that has room for
    /// so many: for more than 256, of the greatest. Refused for memory, no node is made, and prefix
    /// and value are given up. rart has no such call: there a node begins as narrow as it can.
    pub fn with_room(
        alloc: Global,
        prefix: P,
        value: Option<V>,
        count: usize,
        version: u64,
    ) -> Result<VersionedNode<P, V>, AllocError>
        ensures { IfOk result (λ it. it.shape
            ≡ node_of (P.bytes prefix) value (width_for count) []) }
    {
        let content = Content::with_room(alloc, count, upper_half(version))?;
        let lower = lower_half(version);
        let value = match value {
            None => Held::Vacant(lower),
            Some(value) => Held::Occupied(lower, value),
        };
        Ok(VersionedNode {
            prefix,
            value,
            alloc,
            content,
        })
    }

    // The number that the node was made with.
    fn version(&self) -> u64 {
        u64::from(self.content.upper()) << 32 | u64::from(self.value.lower())
    }

    /// Whether the width is none.
    pub fn is_leaf(&self) -> bool
        ensures leaf { result ≡ (width_of self.now.shape == 0) }
        ensures width { FitsWidth self.now.shape }
    {
        self.content.width() == 0
    }

    /// Whether the width is not none, also without children.
    pub fn is_inner(&self) -> bool
        ensures inner { result ≡ not (width_of self.now.shape == 0) }
        ensures width { FitsWidth self.now.shape }
    {
        self.content.width() != 0
    }

    /// The prefix. rart has no such call: there the field is read.
    pub fn prefix(&self) -> &P
        ensures { P.bytes result.now ≡ prefix_of self.now.shape }
    {
        &self.prefix
    }

    /// The value, where there is one.
    pub fn value(&self) -> Option<&V>
        ensures { option_copied result ≡ value_of self.now.shape }
    {
        self.value.as_ref()
    }

    /// The number of children.
    pub fn num_children(&self) -> usize
        requires { IsAscending self.now.shape }
        ensures count { result ≡ length (children_of self.now.shape) }
        ensures width { FitsWidth self.now.shape }
    {
        self.content.num_children()
    }

    /// Whether there are as many children as the width has room for: 4, 16 or 48 at these widths. A
    /// leaf is never full, nor is a node of width 256.
    pub fn is_full(&self) -> bool
        requires { IsAscending self.now.shape }
        ensures full { IsTrue result ↔ IsFull self.now.shape }
        ensures width { FitsWidth self.now.shape }
    {
        self.content.is_full()
    }

    /// Whether the width has room for so many children, so that none of them asks for the next.
    pub fn has_room_for(&self, count: usize) -> bool
        ensures { result ≡ nat_le count (width_of self.now.shape) }
    {
        count <= self.content.width()
    }

    /// The pointer under the byte.
    #[inline(always)]
    pub fn seek_child(&self, byte: u8) -> Option<&NodeRef<P, V>>
        requires { IsAscending self.now.shape }
        ensures { option_map (λ child. child.now.shape) result
            ≡ child_at byte (children_of self.now.shape) }
    {
        self.content.seek_child(byte)
    }

    /// The children, each with its byte, ascending.
    pub fn iter(&self) -> VersionedNodeIter<'_, P, V>
        requires { IsAscending self.now.shape }
        ensures order { IsAscending result.node.now.shape }
        ensures children { children_left result ≡ children_of self.now.shape }
    {
        VersionedNodeIter {
            node: self,
            from: 0,
        }
    }

    /// The children from a byte on, each with its byte, ascending. rart has no such call: there
    /// `iter` starts at the least byte.
    pub fn iter_from(&self, least: u8) -> VersionedNodeIter<'_, P, V>
        requires { IsAscending self.now.shape }
        ensures order { IsAscending result.node.now.shape }
        ensures children { children_left result ≡ children_from least (children_of self.now.shape) }
    {
        VersionedNodeIter {
            node: self,
            from: self.content.cursor_from(least),
        }
    }

    /// The children, descending. rart has no such call.
    pub fn iter_rev(&self) -> VersionedNodeRevIter<'_, P, V>
        requires { IsAscending self.now.shape }
        ensures order { IsAscending result.node.now.shape }
        ensures children { children_before result ≡ children_of self.now.shape }
    {
        VersionedNodeRevIter {
            node: self,
            end: self.content.cursor_below(256),
        }
    }

    /// The children below a byte, descending: below 0, none. rart has no such call.
    pub fn iter_rev_below(&self, byte: u8) -> VersionedNodeRevIter<'_, P, V>
        requires { IsAscending self.now.shape }
        ensures order { IsAscending result.node.now.shape }
        ensures children { children_before result
            ≡ children_below byte (children_of self.now.shape) }
    {
        VersionedNodeRevIter {
            node: self,
            end: self.content.cursor_below(usize::from(byte)),
        }
    }

    /// The pointer of the greatest byte that is below the number: below 256, of all. rart has no
    /// such call.
    pub fn last_child_below(&self, end: usize) -> Option<&NodeRef<P, V>>
        requires { IsAscending self.now.shape }
        ensures below { IsLastOf (children_below end (children_of self.now.shape))
            (option_map (λ child. child.now.shape) result) }
        ensures all { 255 < end → IsLastOf (children_of self.now.shape)
            (option_map (λ child. child.now.shape) result) }
    {
        let mut cursor = self.content.cursor_below(end);
        self.content.prev_child(&mut cursor)
    }

    /// The bytes that have a child. rart has no such call.
    pub fn bytes(&self) -> ByteSet
        requires { IsAscending self.now.shape }
        ensures { AreBytesOf result (children_of self.now.shape) }
    {
        self.content.bytes()
    }

    /// The bytes that have a child in both nodes. rart has no such call.
    pub fn common_bytes(&self, other: &VersionedNode<P, V>) -> ByteSet
        requires order { IsAscending self.now.shape }
        requires other_order { IsAscending other.now.shape }
        ensures { AreBytesOfBoth result (children_of self.now.shape)
            (children_of other.now.shape) }
    {
        self.content.common_bytes(&other.content)
    }

    /// The child of the least byte that is not below the number.
    pub(crate) fn next_from(&self, from: usize) -> Option<(u8, &NodeRef<P, V>)>
        requires { IsAscending self.now.shape }
        ensures { option_map entry_shape result
            ≡ first_of (children_from from (children_of self.now.shape)) }
    {
        self.content.next_from(from)
    }

    /// Takes the next child of a walk.
    #[inline(always)]
    pub(crate) fn next_child(&self, from: &mut usize) -> Option<&NodeRef<P, V>>
        requires { IsAscending self.now.shape }
        ensures { TakesFirst
            (left_at (width_of self.now.shape) from.old (children_of self.now.shape))
            (option_map (λ child. child.now.shape) result)
            (left_at (width_of self.now.shape) from.new (children_of self.now.shape)) }
    {
        self.content.next_child(from)
    }

    /// Takes the next child of a walk, with its byte.
    pub(crate) fn next_entry(&self, from: &mut usize) -> Option<(u8, &NodeRef<P, V>)>
        requires { IsAscending self.now.shape }
        ensures { TakesEntry
            (left_at (width_of self.now.shape) from.old (children_of self.now.shape))
            (option_map entry_shape result)
            (left_at (width_of self.now.shape) from.new (children_of self.now.shape)) }
    {
        self.content.next_entry(from)
    }

    /// Takes the last child of a walk back.
    #[inline(always)]
    pub(crate) fn prev_child(&self, end: &mut usize) -> Option<&NodeRef<P, V>>
        requires { IsAscending self.now.shape }
        ensures { TakesLast
            (before_at (width_of self.now.shape) end.old (children_of self.now.shape))
            (option_map (λ child. child.now.shape) result)
            (before_at (width_of self.now.shape) end.new (children_of self.now.shape)) }
    {
        self.content.prev_child(end)
    }

    /// The pointer under the byte, for writing. The node then has that child as it was left.
    pub fn seek_child_mut(&mut self, byte: u8) -> Option<&mut NodeRef<P, V>>
        requires { IsAscending self.old.shape }
        ensures* writes_back { sem 𝓛 (LendsChild P.row V.row P.Partial self.entry byte result) }
        ensures value { option_map (λ child. child.now.shape) result
            ≡ child_at byte (children_of self.old.shape) }
    {
        self.content.seek_child_mut(byte)
    }

    /// Adds a child under a byte that has none. A leaf becomes width 4 and a full node the next
    /// width, which is one node made. Refused for memory, the node is as before and the child is
    /// given up. Where the node is neither a leaf nor full, no memory is asked for and the call
    /// succeeds.
    pub fn add_child(
        &mut self,
        alloc: Global,
        byte: u8,
        child: NodeRef<P, V>,
        work: &mut Work,
    ) -> Result<(), AllocError>
        requires order { IsAscending self.old.shape }
        requires absent { child_at byte (children_of self.old.shape) ≡ None }
        ensures ok { OnOk result (self.new.shape ≡ with_added byte child.shape self.old.shape) }
        ensures refused { OnErr result (self.new.shape ≡ self.old.shape) }
        ensures succeeds { widenings self.old.shape ≡ 0 → IsOk result }
        ensures entered { work.new.entered ≡ work.old.entered }
        ensures made { work.new.made ≡ work.old.made + widenings self.old.shape }
    {
        let content = &mut self.content;
        content.make_room(alloc, work)?;
        content.add_child(byte, child);
        Ok(())
    }

    /// Puts a child in place of the one under the byte, and gives that one. rart has no such call:
    /// there the one is taken out by `delete_child`, and the other put in by `add_child`.
    pub fn replace_child(&mut self, byte: u8, child: NodeRef<P, V>) -> NodeRef<P, V>
        requires order { IsAscending self.old.shape }
        requires present { IsSome (child_at byte (children_of self.old.shape)) }
        ensures seen { self.new.shape ≡ with_replaced byte child.shape self.old.shape }
        ensures replaced { Some result.shape ≡ child_at byte (children_of self.old.shape) }
    {
        self.content.replace_child(byte, child)
    }

    /// Takes out the child under the byte. The width stays.
    pub fn delete_child(&mut self, byte: u8) -> Option<NodeRef<P, V>>
        requires { IsAscending self.old.shape }
        ensures seen { self.new.shape ≡ with_deleted byte self.old.shape }
        ensures deleted { option_map shape_of result ≡ child_at byte (children_of self.old.shape) }
    {
        self.content.delete_child(byte)
    }

    /// The value, for writing. The node then has it as it was left. rart has no such call: there
    /// the field is lent.
    pub fn value_mut(&mut self) -> Option<&mut V>
        ensures* writes_back { sem 𝓛 (LendsValue P.row V.row P.Partial self.entry result) }
        ensures value { option_map (λ value. value.now) result ≡ value_of self.old.shape }
    {
        self.value.as_mut()
    }

    /// Puts the value in, and gives the one that was there. rart has no such call: there the field
    /// is replaced.
    pub fn set_value(&mut self, value: V) -> Option<V>
        ensures old { result ≡ value_of self.old.shape }
        ensures new { self.new.shape ≡ with_value (Some value) self.old.shape }
    {
        self.value.replace(value)
    }

    /// Takes the value out, and gives it. rart has no such call: there the field is emptied.
    pub fn take_value(&mut self) -> Option<V>
        ensures old { result ≡ value_of self.old.shape }
        ensures new { self.new.shape ≡ with_value None self.old.shape }
    {
        self.value.take()
    }

    /// The same node with this prefix. rart has no such call: there the field is assigned.
    pub fn with_prefix(self, prefix: P) -> VersionedNode<P, V>
        ensures { result.shape ≡ with_prefix (P.bytes prefix) self.shape }
    {
        let VersionedNode {
            prefix: _,
            value,
            alloc,
            content,
        } = self;
        VersionedNode {
            prefix,
            value, // stays
            alloc,
            content,
        }
    }
}

impl<P: Partial, V: Clone + Drop> VersionedNode<P, V> {
    ghost use Rattle.rart_node.specs.NodeShapes.{node_of_content, shapes_of_content};
    ghost use Rattle.rart_node.specs.Shape.{Shape, HasOnly, merged};
    ghost use Rattle.rart_below.specs.Bytes.{IsAdmitted};
    ghost use Rattle.rart_node.specs.Contents.{content_shape};

    /// A node with the same prefix, value, width and children, where clones of values equal them.
    ///
    /// It is refused where memory is, where the value's clone is, and where the count of pointers
    /// to a child is at its greatest. Then no node is made.
    pub fn cow_clone_inner(
        &self,
        alloc: Global,
        new_version: u64,
    ) -> Result<VersionedNode<P, V>, AllocError>
        ensures { IfOk result (λ copy. ClonesEqual V.is_clone → copy.shape ≡ self.now.shape) }
    {
        self.copy_under(alloc, new_version, self.prefix.copy(alloc)?)
    }

    /// A node with the same prefix, value and children at the next width, where clones of values
    /// equal them. rart panics where this is refused.
    ///
    /// Of a leaf the answer is `GrowError::Leaf`, of a node of width 256 `GrowError::Widest`, and
    /// where memory is refused `GrowError::Memory`. They are tested in this order.
    pub fn grow(&self, alloc: Global, new_version: u64) -> Result<VersionedNode<P, V>, GrowError>
        requires { IsAscending self.now.shape }
        ensures grown { IfOk result (λ node. ClonesEqual V.is_clone
            → node.shape ≡ with_width (wider (width_of self.now.shape)) self.now.shape) }
        ensures leaf { IsErrOf result GrowError.Leaf ↔ (width_of self.now.shape ≡ 0) }
        ensures widest { IsErrOf result GrowError.Widest ↔ (width_of self.now.shape ≡ 256) }
    {
        match self.content.width() {
            0 => return Err(GrowError::Leaf),
            256 => return Err(GrowError::Widest),
            _ => {}
        }
        let mut content = self.content.copy(upper_half(new_version))?;
        content.widen(alloc)?;
        let prefix = self.prefix.copy(alloc)?;
        Ok(self.copy_with(alloc, new_version, prefix, content)?)
    }

    /// A node in place of this one and its only child: the bytes of both prefixes, and the value,
    /// width and children of the child, where clones of values equal them. rart has no such call:
    /// there removal merges nothing.
    ///
    /// The child is entered, and no node is made: that is `NodeRef::new`. It is refused as
    /// `cow_clone_inner` of the child is.
    pub fn merge_child(
        &self,
        alloc: Global,
        new_version: u64,
        work: &mut Work,
    ) -> Result<VersionedNode<P, V>, AllocError>
        requires value { value_of self.now.shape ≡ None }
        requires child { length (children_of self.now.shape) ≡ 1 }
        requires admitted { (byte : ℕ) (child : Shape V)
            → HasOnly byte child self.now.shape → IsAdmitted P.MAXIMUM_SIZE
            (length (prefix_of self.now.shape) + length (prefix_of child)) }
        ensures merged { IfOk result (λ it. ClonesEqual V.is_clone → (byte : ℕ) (child : Shape V)
            → HasOnly byte child self.now.shape
            → it.shape ≡ merged (prefix_of self.now.shape) child) }
        ensures work { work.new ≡ record work.old { entered = work.old.entered + 1 } }
    {
        let Some((_, child)) = self.next_from(0) else {
            unreachable!();
        };
        let child = child.open(work);
        let prefix = self.prefix().partial_extended_with(alloc, child.prefix())?;
        child.copy_under(alloc, new_version, prefix)
    }

    /// A node with this prefix and the same value, width and children, where clones of values equal
    /// them. It is refused as `cow_clone_inner` is.
    pub fn copy_under(
        &self,
        alloc: Global,
        new_version: u64,
        prefix: P,
    ) -> Result<VersionedNode<P, V>, AllocError>
        ensures { IfOk result (λ copy. ClonesEqual V.is_clone → copy.shape
            ≡ with_prefix (P.bytes prefix) self.now.shape) }
    {
        let content = self.content.copy(upper_half(new_version))?;
        self.copy_with(alloc, new_version, prefix, content)
    }

    /// The same value over this content, with this prefix.
    fn copy_with(
        &self,
        alloc: Global,
        new_version: u64,
        prefix: P,
        content: Content<P, V>,
    ) -> Result<VersionedNode<P, V>, AllocError>
        ensures { IfOk result (λ copy. ClonesEqual V.is_clone
            → copy.shape ≡ node_of_content (P.bytes prefix) (value_of self.now.shape)
            (shapes_of_content (content_shape content))) }
    {
        let value = self.value.copy(lower_half(new_version))?;
        Ok(VersionedNode {
            prefix,
            value,
            alloc,
            content,
        })
    }
}

impl<P: Partial, V: Clone + Drop> Clone for VersionedNode<P, V> {
    ghost use Rattle.rart_node.specs.NodeShapes.{SameShape};
    ghost use Rattle.rart_below.specs.Clones.{ClonesEqual};

    ghost is_clone = { λ node copy. ClonesEqual V.is_clone → SameShape copy node };

    fn clone(&self) -> Result<VersionedNode<P, V>, AllocError> {
        self.cow_clone_inner(self.alloc, self.version())
    }
}
