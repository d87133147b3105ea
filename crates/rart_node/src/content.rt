// Ported from rart 0.11.0 (Apache-2.0), and rewritten.
//! What a node keeps its children in: nothing, or a mapping of one of four widths.
ghost use Rattle.std.specs.Prelude.{◌≡◌, ◌<◌, ◌+◌, ◌↔◌, [], None, Some, false, length, if◌then◌else◌, IfOk, IsOk, IsSome, IsTrue, OnOk, OnErr, option_copied};
ghost use Rattle.std.specs.Borrow.{sem};
ghost use Rattle.std.specs.Option.{option_copied_mut};
ghost use Rattle.rart_below.specs.ByteSets.{AreBytesOf, AreBytesOfBoth};
ghost use Rattle.rart_below.specs.Children.{child_at, children_below, children_from, first_of, with_child, without_child, TakesEntry, TakesFirst, TakesLast};
ghost use Rattle.rart_below.specs.Layouts.{entry_copied};
ghost use Rattle.rart_below.specs.SortedKeyedMapping.{sorted_children, sorted_in_order};
ghost use Rattle.rart_node.specs.Contents.{before_at, content_shape, left_at, Holds};
ghost use Rattle.rart_node.specs.Shape.{IsFullAt, is_full_at, wider, widened, width_for};

use crate::node_ref::NodeRef;
use crate::wide_box::WideBox;
use crate::work::Work;
use rart_below::{
    ByteSet, DirectMapping, IndexedMapping, NodeMapping, Partial, SortedKeyedMapping,
};
use std::alloc::{AllocError, Global};

/// Where a node keeps its children: nowhere in a leaf, else in a mapping of one of four widths.
///
/// The mappings are parameters, so that the type does not lead back to itself and a proof sees a
/// `match` on it as on any other.
///
/// Beside it stands the upper half of the number that its node was made with, where an enum has
/// room of its own.
#[derive(Drop)]
pub(crate) enum Layout<M4, M16, M48, M256> {
    Leaf(u32),
    Node4(u32, M4),
    Node16(u32, M16),
    Node48(u32, M48),
    Node256(u32, M256),
}

/// What a node keeps its children in.
pub(crate) type Content<P, V> = Layout<
    Box<SortedKeyedMapping<NodeRef<P, V>, 4>>,
    WideBox<SortedKeyedMapping<NodeRef<P, V>, 16>, NodeRef<P, V>>,
    WideBox<IndexedMapping<NodeRef<P, V>>, NodeRef<P, V>>,
    WideBox<DirectMapping<NodeRef<P, V>>, NodeRef<P, V>>,
>;

/// Calls the mapping, whichever the width: what it gives, or what stands for it in a leaf.
macro_rules! call_mapping {
    ($content:expr, $in_leaf:expr, $method:ident($($argument:expr),*)) => {
        match $content {
            Layout::Leaf(_) => $in_leaf,
            Layout::Node4(_, mapping) => mapping.$method($($argument),*),
            Layout::Node16(_, mapping) => mapping.boxed.$method($($argument),*),
            Layout::Node48(_, mapping) => mapping.boxed.$method($($argument),*),
            Layout::Node256(_, mapping) => mapping.boxed.$method($($argument),*),
        }
    };
}

impl<P: Partial, V: Drop> Content<P, V> {
    ghost use Rattle.rart_node.specs.Lent.{LendsContentChild};

    /// No child, at the narrowest width that has room for so many.
    pub(crate) fn with_room(
        alloc: Global,
        count: usize,
        upper: u32,
    ) -> Result<Content<P, V>, AllocError>
        ensures { IfOk result (λ content. Holds content (width_for count) []) }
    {
        Ok(match count {
            0 => Layout::Leaf(upper),
            1..=4 => Layout::Node4(upper, Box::new(alloc, SortedKeyedMapping::new())?),
            5..=16 => Layout::Node16(
                upper,
                WideBox::new(Box::new(alloc, SortedKeyedMapping::new())?),
            ),
            17..=48 => Layout::Node48(upper, WideBox::new(Box::new(alloc, IndexedMapping::new())?)),
            _ => Layout::Node256(upper, WideBox::new(Box::new(alloc, DirectMapping::new())?)),
        })
    }

    pub(crate) fn upper(&self) -> u32 {
        match self {
            Layout::Leaf(upper) => *upper,
            Layout::Node4(upper, _) => *upper,
            Layout::Node16(upper, _) => *upper,
            Layout::Node48(upper, _) => *upper,
            Layout::Node256(upper, _) => *upper,
        }
    }

    pub(crate) fn width(&self) -> usize
        ensures { result ≡ (content_shape self.now).width }
    {
        match self {
            Layout::Leaf(_) => 0,
            Layout::Node4(_, _) => 4,
            Layout::Node16(_, _) => 16,
            Layout::Node48(_, _) => 48,
            Layout::Node256(_, _) => 256,
        }
    }

    pub(crate) fn num_children(&self) -> usize
        requires { IsTrue (content_shape self.now).in_order }
        ensures { result ≡ length (content_shape self.now).children }
    {
        call_mapping!(self, 0, num_children())
    }

    #[inline(always)]
    pub(crate) fn seek_child(&self, byte: u8) -> Option<&NodeRef<P, V>>
        requires { IsTrue (content_shape self.now).in_order }
        ensures { option_copied result ≡ child_at byte (content_shape self.now).children }
    {
        call_mapping!(self, None, seek_child(byte))
    }

    /// The child under the byte, for writing.
    pub(crate) fn seek_child_mut(&mut self, byte: u8) -> Option<&mut NodeRef<P, V>>
        requires { IsTrue (content_shape self.old).in_order }
        ensures* writes_back { sem 𝓛 (LendsContentChild P.row V.row P.Partial self.entry byte
            result) }
        ensures value { option_copied_mut result ≡ child_at byte (content_shape self.old).children }
    {
        call_mapping!(self, None, seek_child_mut(byte))
    }

    /// The child of the least byte that is not below the number, with that byte.
    pub(crate) fn next_from(&self, from: usize) -> Option<(u8, &NodeRef<P, V>)>
        requires { IsTrue (content_shape self.now).in_order }
        ensures { entry_copied result ≡ first_of
            (children_from from (content_shape self.now).children) }
    {
        call_mapping!(self, None, next_from(from))
    }

    /// Where a walk over the children from a byte on begins.
    pub(crate) fn cursor_from(&self, least: u8) -> usize
        requires { IsTrue (content_shape self.now).in_order }
        ensures { left_at (content_shape self.now).width result (content_shape self.now).children
            ≡ children_from least (content_shape self.now).children }
    {
        call_mapping!(self, 0, cursor_from(least))
    }

    /// Takes the next child of a walk.
    #[inline(always)]
    pub(crate) fn next_child(&self, from: &mut usize) -> Option<&NodeRef<P, V>>
        requires { IsTrue (content_shape self.now).in_order }
        ensures { TakesFirst
            (left_at (content_shape self.now).width from.old (content_shape self.now).children)
            (option_copied result)
            (left_at (content_shape self.now).width from.new (content_shape self.now).children) }
    {
        call_mapping!(self, None, next_child(from))
    }

    /// Takes the next child of a walk, with its byte.
    pub(crate) fn next_entry(&self, from: &mut usize) -> Option<(u8, &NodeRef<P, V>)>
        requires { IsTrue (content_shape self.now).in_order }
        ensures { TakesEntry
            (left_at (content_shape self.now).width from.old (content_shape self.now).children)
            (entry_copied result)
            (left_at (content_shape self.now).width from.new (content_shape self.now).children) }
    {
        call_mapping!(self, None, next_entry(from))
    }

    /// Where a walk back over the children below a number begins.
    pub(crate) fn cursor_below(&self, end: usize) -> usize
        requires { IsTrue (content_shape self.now).in_order }
        ensures below { before_at (content_shape self.now).width result
            (content_shape self.now).children
            ≡ children_below end (content_shape self.now).children }
        ensures all { 255 < end → before_at (content_shape self.now).width result
            (content_shape self.now).children ≡ (content_shape self.now).children }
    {
        call_mapping!(self, 0, cursor_below(end))
    }

    /// Takes the last child of a walk back.
    #[inline(always)]
    pub(crate) fn prev_child(&self, end: &mut usize) -> Option<&NodeRef<P, V>>
        requires { IsTrue (content_shape self.now).in_order }
        ensures { TakesLast
            (before_at (content_shape self.now).width end.old (content_shape self.now).children)
            (option_copied result)
            (before_at (content_shape self.now).width end.new (content_shape self.now).children) }
    {
        call_mapping!(self, None, prev_child(end))
    }

    /// The bytes that have a child.
    #[inline]
    pub(crate) fn bytes(&self) -> ByteSet
        requires { IsTrue (content_shape self.now).in_order }
        ensures { AreBytesOf result (content_shape self.now).children }
    {
        call_mapping!(self, ByteSet::new(), bytes())
    }

    /// The bytes that have a child in both. Those of a narrow mapping are looked up in the other.
    pub(crate) fn common_bytes(&self, other: &Content<P, V>) -> ByteSet
        requires order { IsTrue (content_shape self.now).in_order }
        requires other_order { IsTrue (content_shape other.now).in_order }
        ensures { AreBytesOfBoth result (content_shape self.now).children
            (content_shape other.now).children }
    {
        match self {
            Layout::Leaf(_) => ByteSet::new(),
            Layout::Node4(_, mapping) => other.bytes_among(&**mapping),
            Layout::Node16(_, mapping) => other.bytes_among(&*mapping.boxed),
            Layout::Node48(_, mapping) => mapping.boxed.bytes().common(&other.bytes()),
            Layout::Node256(_, mapping) => mapping.boxed.bytes().common(&other.bytes()),
        }
    }

    /// The bytes of a narrow mapping that have a child here too.
    #[inline(always)]
    fn bytes_among<const WIDTH: usize>(
        &self,
        narrow: &SortedKeyedMapping<NodeRef<P, V>, WIDTH>,
    ) -> ByteSet
        requires order { IsTrue (sorted_in_order narrow.now) }
        requires here_order { IsTrue (content_shape self.now).in_order }
        ensures { AreBytesOfBoth result (sorted_children narrow.now)
            (content_shape self.now).children }
    {
        match self {
            Layout::Leaf(_) => ByteSet::new(),
            Layout::Node4(_, mapping) => narrow.common_bytes(&**mapping),
            Layout::Node16(_, mapping) => narrow.common_bytes(&*mapping.boxed),
            Layout::Node48(_, mapping) => narrow.common_bytes(&*mapping.boxed),
            Layout::Node256(_, mapping) => narrow.common_bytes(&*mapping.boxed),
        }
    }

    /// Puts a child under a byte that has none.
    pub(crate) fn add_child(&mut self, byte: u8, child: NodeRef<P, V>)
        requires order { IsTrue (content_shape self.old).in_order }
        requires absent { child_at byte (content_shape self.old).children ≡ None }
        requires room { length (content_shape self.old).children < (content_shape self.old).width }
        ensures { Holds self.new (content_shape self.old).width
            (with_child byte child (content_shape self.old).children) }
    {
        call_mapping!(self, unreachable!(), add_child(byte, child))
    }

    /// Puts a child in place of the one under the byte, and gives that one.
    pub(crate) fn replace_child(&mut self, byte: u8, child: NodeRef<P, V>) -> NodeRef<P, V>
        requires order { IsTrue (content_shape self.old).in_order }
        requires present { IsSome (child_at byte (content_shape self.old).children) }
        ensures content { Holds self.new (content_shape self.old).width
            (with_child byte child (content_shape self.old).children) }
        ensures replaced { Some result ≡ child_at byte (content_shape self.old).children }
    {
        call_mapping!(self, unreachable!(), replace_child(byte, child))
    }

    /// Takes out the child under the byte. The width stays.
    pub(crate) fn delete_child(&mut self, byte: u8) -> Option<NodeRef<P, V>>
        requires { IsTrue (content_shape self.old).in_order }
        ensures content { Holds self.new (content_shape self.old).width
            (without_child byte (content_shape self.old).children) }
        ensures deleted { result ≡ child_at byte (content_shape self.old).children }
    {
        call_mapping!(self, None, delete_child(byte))
    }

    /// Whether there are as many children as the width has room for. No leaf is full, nor is the
    /// widest mapping.
    pub(crate) fn is_full(&self) -> bool
        requires { IsTrue (content_shape self.now).in_order }
        ensures { IsTrue result ↔ IsFullAt (content_shape self.now).width
            (length (content_shape self.now).children) }
    {
        let width = self.width();
        0 < width && width < 256 && self.num_children() == width
    }

    /// Whether one more child asks for the next width, as it does of a leaf and of a full mapping.
    fn must_widen(&self) -> bool
        requires { IsTrue (content_shape self.now).in_order }
        ensures { result ≡ is_full_at (content_shape self.now).width
            (length (content_shape self.now).children) }
    {
        let width = self.width();
        width < 256 && width <= self.num_children()
    }

    /// Sees that one more child fits: a change of width is one node made. Refused for memory,
    /// nothing has changed. Where the width stays, the call succeeds.
    pub(crate) fn make_room(&mut self, alloc: Global, work: &mut Work) -> Result<(), AllocError>
        requires { IsTrue (content_shape self.old).in_order }
        ensures ok { OnOk result (Holds self.new
            (widened (content_shape self.old).width (length (content_shape self.old).children))
            (content_shape self.old).children) }
        ensures refused { OnErr result (self.new ≡ self.old) }
        ensures succeeds { is_full_at (content_shape self.old).width
            (length (content_shape self.old).children) ≡ false
            → IsOk result }
        ensures work { work.new ≡ record work.old {
          made =
              work.old.made + (if is_full_at (content_shape self.old).width
              (length (content_shape self.old).children) then 1 else 0);
        } }
    {
        let must_widen = self.must_widen();
        work.make_if(must_widen);
        if must_widen {
            self.widen(alloc)?;
        }
        Ok(())
    }

    /// Moves the children to the next width. Refused for memory, nothing has changed.
    pub(crate) fn widen(&mut self, alloc: Global) -> Result<(), AllocError>
        requires order { IsTrue (content_shape self.old).in_order }
        requires narrow { (content_shape self.old).width < 256 }
        ensures ok { OnOk result (Holds self.new (wider (content_shape self.old).width)
            (content_shape self.old).children) }
        ensures refused { OnErr result (self.new ≡ self.old) }
    {
        match self {
            Layout::Leaf(upper) => {
                *self = Layout::Node4(*upper, Box::new(alloc, SortedKeyedMapping::new())?);
            }
            Layout::Node4(upper, mapping) => {
                let mut wider = Box::new(alloc, SortedKeyedMapping::new())?;
                mapping.move_into(&mut *wider);
                *self = Layout::Node16(*upper, WideBox::new(wider));
            }
            Layout::Node16(upper, mapping) => {
                let mut wider = Box::new(alloc, IndexedMapping::new())?;
                mapping.boxed.move_into(&mut *wider);
                *self = Layout::Node48(*upper, WideBox::new(wider));
            }
            Layout::Node48(upper, mapping) => {
                let mut wider = Box::new(alloc, DirectMapping::new())?;
                mapping.boxed.move_into(&mut *wider);
                *self = Layout::Node256(*upper, WideBox::new(wider));
            }
            Layout::Node256(_, _) => unreachable!(),
        }
        Ok(())
    }
}

impl<P: Partial, V: Drop> Content<P, V> {
    ghost use Rattle.rart_node.specs.NodeShapes.{shapes_of_content};

    /// The same children at the same width, a copy of each pointer, for a node of another number.
    pub(crate) fn copy(&self, upper: u32) -> Result<Content<P, V>, AllocError>
        ensures { IfOk result (λ copy. shapes_of_content (content_shape copy)
            ≡ shapes_of_content (content_shape self.now)) }
    {
        match self {
            Layout::Leaf(_) => Ok(Layout::Leaf(upper)),
            Layout::Node4(_, mapping) => Ok(Layout::Node4(upper, mapping.clone()?)),
            Layout::Node16(_, mapping) => {
                Ok(Layout::Node16(upper, WideBox::new(mapping.boxed.clone()?)))
            }
            Layout::Node48(_, mapping) => {
                Ok(Layout::Node48(upper, WideBox::new(mapping.boxed.clone()?)))
            }
            Layout::Node256(_, mapping) => {
                Ok(Layout::Node256(upper, WideBox::new(mapping.boxed.clone()?)))
            }
        }
    }
}
