// Ported from rart 0.11.0 (Apache-2.0), and rewritten.
//! What a node asks of a mapping from a byte to a child.
ghost use Rattle.std.specs.Prelude.{◌≡◌, ℕ, ◌<◌, ◌≤◌, Bool, List, [], Option, Some, None, length, IsSome, IsTrue, option_copied};
ghost use Rattle.std.specs.Borrow.{sem};
ghost use Rattle.std.specs.Option.{option_copied_mut};
ghost use Rattle.rart_below.specs.ByteSets.{AreBytesOf};
ghost use Rattle.rart_below.specs.Children.{child_at, with_child, without_child, children_below, children_from, first_of, IsAscending, TakesEntry, TakesFirst, TakesLast};
ghost use Rattle.rart_below.specs.Layouts.{AreEmpty, entry_copied};
ghost use Rattle.rart_below.specs.Lent.{LendsChild};

mod direct;
mod indexed;
mod ranked_keys;
mod slot_array;
mod slots;
mod sorted;

use crate::byte_set::ByteSet;
pub use direct::DirectMapping;
pub use indexed::IndexedMapping;
pub use sorted::SortedKeyedMapping;

/// What drops its children where it stands. rart has no such call: there a mapping is dropped in
/// its box.
///
/// It asks nothing of the child's type, and only its call asks that a child may be dropped: so a
/// box can ask it of its mapping wherever a node's type is named.
pub trait Clear<C> {
    /// The slots, each with a child or none.
    ghost slots: { Self → List (Option C) };

    /// The bytes with their children, ascending.
    ghost children: { Self → List (ℕ × C) };

    /// Whether the lists inside are in step, and the bytes strictly ascend.
    ghost in_order: { Self → Bool };

    /// Drops the children of lists that are in step, which are in step then too.
    fn clear(&mut self)
    where
        C: Drop,
        ensures order { IsTrue (in_order self.old) → IsTrue (in_order self.new) }
        ensures dropped { IsTrue (in_order self.old) → AreEmpty (slots self.new) }
        ensures empty { IsTrue (in_order self.old) → children self.new ≡ [] };
}

/// A finite map from bytes to children, visited ascending.
///
/// Contracts see a mapping as its children, each under its byte, and as a test that the lists
/// inside are in step. Each call asks that test, and each change keeps it. No call takes memory.
pub trait NodeMapping<C: Drop> {
    /// The bytes with their children, ascending.
    ghost children: { Self → List (ℕ × C) };

    /// Whether the lists inside are in step, and the bytes strictly ascend.
    ghost in_order: { Self → Bool };

    /// How many children there is room for.
    ghost width: { ℕ };

    /// The children that a walk has left where its cursor stands.
    ghost left: { ℕ → List (ℕ × C) → List (ℕ × C) };

    /// The children that a walk back has left where its cursor stands.
    ghost before: { ℕ → List (ℕ × C) → List (ℕ × C) };

    /// The child under the byte.
    fn seek_child(&self, byte: u8) -> Option<&C>
        requires { IsTrue (in_order self.now) }
        ensures { option_copied result ≡ child_at byte (children self.now) };

    /// The child under the byte, for writing. The mapping then has that child as it was left.
    fn seek_child_mut(&mut self, byte: u8) -> Option<&mut C>
        requires { IsTrue (in_order self.old) }
        ensures* writes_back { sem 𝓛 (LendsChild Self.row C.row in_order children self.entry byte
            result) }
        ensures value { option_copied_mut result ≡ child_at byte (children self.old) };

    /// The number of children.
    fn num_children(&self) -> usize
        requires { IsTrue (in_order self.now) }
        ensures { result ≡ length (children self.now) };

    /// Puts a child under a byte that has none.
    fn add_child(&mut self, byte: u8, child: C)
        requires order { IsTrue (in_order self.old) }
        requires absent { child_at byte (children self.old) ≡ None }
        requires room { length (children self.old) < width }
        ensures order { IsTrue (in_order self.new) }
        ensures children { children self.new ≡ with_child byte child (children self.old) };

    /// Puts the child under the byte in place of the one that is there, which is returned. rart has
    /// no such call: there the one is taken out by `delete_child`, and the other put in by
    /// `add_child`.
    fn replace_child(&mut self, byte: u8, child: C) -> C
        requires order { IsTrue (in_order self.old) }
        requires present { IsSome (child_at byte (children self.old)) }
        ensures order { IsTrue (in_order self.new) }
        ensures value { Some result ≡ child_at byte (children self.old) }
        ensures children { children self.new ≡ with_child byte child (children self.old) };

    /// Takes out the child under the byte. Where there is none, nothing changes.
    fn delete_child(&mut self, byte: u8) -> Option<C>
        requires { IsTrue (in_order self.old) }
        ensures order { IsTrue (in_order self.new) }
        ensures value { result ≡ child_at byte (children self.old) }
        ensures children { children self.new ≡ without_child byte (children self.old) };

    /// The child of the least byte that is not below the number, with that byte. rart has no such
    /// call: there the children are visited by `iter`.
    fn next_from(&self, from: usize) -> Option<(u8, &C)>
        requires { IsTrue (in_order self.now) }
        ensures { entry_copied result ≡ first_of (children_from from (children self.now)) };

    /// Where a walk over the children from a byte on begins: a place among sorted bytes, else the
    /// byte. rart has no such call.
    fn cursor_from(&self, least: u8) -> usize
        requires { IsTrue (in_order self.now) }
        ensures { left result (children self.now) ≡ children_from least (children self.now) };

    /// Takes the next child of a walk. It gives no byte, so that a walk has the child in a
    /// register.
    fn next_child(&self, from: &mut usize) -> Option<&C>
        requires { IsTrue (in_order self.now) }
        ensures { TakesFirst (left from.old (children self.now)) (option_copied result)
            (left from.new (children self.now)) };

    /// Takes the next child of a walk, with its byte.
    fn next_entry(&self, from: &mut usize) -> Option<(u8, &C)>
        requires { IsTrue (in_order self.now) }
        ensures { TakesEntry (left from.old (children self.now)) (entry_copied result)
            (left from.new (children self.now)) };

    /// Where a walk back over the children below a number begins: a place among sorted bytes, else
    /// the number. Below 256 all children stand. rart has no such call.
    fn cursor_below(&self, end: usize) -> usize
        requires { IsTrue (in_order self.now) }
        ensures below { before result (children self.now) ≡ children_below end (children self.now) }
        ensures all { 255 < end → before result (children self.now) ≡ children self.now };

    /// Takes the last child of a walk back. rart has no such call.
    fn prev_child(&self, end: &mut usize) -> Option<&C>
        requires { IsTrue (in_order self.now) }
        ensures { TakesLast (before end.old (children self.now)) (option_copied result)
            (before end.new (children self.now)) };

    /// The bytes that have a child. rart has no such call.
    fn bytes(&self) -> ByteSet
        requires { IsTrue (in_order self.now) }
        ensures { AreBytesOf result (children self.now) };

    ghost ascending: { (mapping : Self) → IsTrue (in_order mapping)
        → IsAscending (children mapping) };

    ghost fits: { (mapping : Self) → IsTrue (in_order mapping)
        → length (children mapping) ≤ width };
}
