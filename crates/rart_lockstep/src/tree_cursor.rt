// Ported from rart 0.11.0 (Apache-2.0), and rewritten.
//! A cursor in one of two trees.
ghost use Rattle.std.specs.Prelude.{◌≡◌, ◌⊎◌, ◌≤◌, length, take, drop, nat_lt};
ghost use Rattle.std.specs.Option.{option_copied};
ghost use Rattle.rart_node.specs.Shape.{prefix_of};

use rart_below::Partial;
use rart_node::{VersionedNode, rest_of};

/// A node of a tree, of whose prefix the first `from` bytes are passed.
///
/// Contracts see it as the node without these bytes, by `cursor_shape`.
#[derive(Drop)]
pub struct TreeCursor<'a, P: Partial, V> {
    pub node: &'a VersionedNode<P, V>,
    pub from: usize,
    ghost within: { from ≤ length (prefix_of node.now.shape) },
}

impl<'a, P: Partial, V: Drop> TreeCursor<'a, P, V> {
    ghost use Rattle.rart_below.specs.Bytes.{common_length};
    ghost use Rattle.rart_lockstep.specs.TreeCursorFields.{cursor_shape};
    ghost use Rattle.rart_lockstep.specs.TreeCursors.{behind_bytes, value_here};

    /// The node with its whole prefix.
    #[inline(always)]
    pub fn whole(node: &'a VersionedNode<P, V>) -> TreeCursor<'a, P, V>
        ensures shape { cursor_shape result ≡ node.now.shape }
        ensures from { result.from ≡ 0 }
    {
        TreeCursor { node, from: 0 }
    }

    /// What is left of the prefix.
    pub fn rest(&self) -> &'a [u8]
        ensures { result.now ≡ prefix_of (cursor_shape self.now) }
    {
        rest_of(self.node.prefix().as_ref(), self.from)
    }

    /// What is left of the prefix, as far as `count` bytes.
    pub fn first(&self, count: usize) -> &'a [u8]
        requires { count ≤ length (prefix_of (cursor_shape self.now)) }
        ensures { result.now ≡ take count (prefix_of (cursor_shape self.now)) }
    {
        &self.rest()[..count]
    }

    /// Whether more than `count` bytes are left of the prefix.
    pub fn is_longer(&self, count: usize) -> bool
        ensures { result ≡ nat_lt count (length (prefix_of (cursor_shape self.now))) }
    {
        count < self.rest().len()
    }

    /// The value of the key that ends here, if there is one.
    pub fn value_here(&self) -> Option<&'a V>
        ensures { option_copied result ≡ value_here (cursor_shape self.now) }
    {
        if self.is_longer(0) {
            None
        } else {
            self.node.value()
        }
    }

    /// The same node with `count` bytes passed beside those before.
    pub fn behind(&self, count: usize) -> TreeCursor<'a, P, V>
        requires { count ≤ length (prefix_of (cursor_shape self.now)) }
        ensures { cursor_shape result ≡ behind_bytes count (cursor_shape self.now) }
    {
        // (for the proof: a prefix has a length that fits, so the sum below does)
        let _len = self.node.prefix().len();
        TreeCursor {
            node: self.node,
            from: self.from + count,
        }
    }

    /// How many bytes two sides have in common at their start. The prefix of one is whole.
    #[inline(always)]
    pub fn common_with(&self, other: &TreeCursor<'_, P, V>) -> usize
        requires whole { (self.now.from ≡ 0) ⊎ (other.now.from ≡ 0) }
        ensures { result ≡ common_length (prefix_of (cursor_shape self.now))
            (prefix_of (cursor_shape other.now)) }
    {
        if self.from == 0 {
            self.node.prefix().prefix_length_slice(other.rest())
        } else {
            other.node.prefix().prefix_length_slice(self.rest())
        }
    }
}
