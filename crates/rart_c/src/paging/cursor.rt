//! A cursor over the pairs of a page, in the page's order.
ghost use Rattle.std.specs.Prelude.{◌≡◌, [], IfOk, OnErr};
ghost use Rattle.rart_c.specs.Pages.{cursor_in};
ghost use Rattle.rart_versioned.specs.Cursors.{GoesOn};

use rart_versioned::{VectorPartial, VersionedCursor, VersionedCursorRev};
use std::alloc::AllocError;

/// A cursor that goes on from the first pair, or back from the last one.
#[derive(Drop)]
pub(crate) enum PageCursor<'a, V: Drop> {
    Onward(VersionedCursor<'a, VectorPartial, V>),
    Back(VersionedCursorRev<'a, VectorPartial, V>),
}

impl<'a, V: Drop> PageCursor<'a, V> {
    /// Goes on to the next pair, and gives its value: `None` where none is left.
    ///
    /// Refused for memory, no pair is left.
    pub(crate) fn next_value(&mut self) -> Result<Option<&'a V>, AllocError>
        ensures gives { IfOk result (λ value. GoesOn (cursor_in self.old) value
            (cursor_in self.new)) }
        ensures refused { OnErr result ((cursor_in self.new).left ≡ []) }
    {
        match self {
            PageCursor::Onward(cursor) => cursor.next_value(),
            PageCursor::Back(cursor) => cursor.next_value(),
        }
    }

    /// The bytes of the key whose value was given last.
    pub(crate) fn key(&self) -> &[u8]
        ensures { result.now ≡ (cursor_in self.now).key }
    {
        match self {
            PageCursor::Onward(cursor) => cursor.key(),
            PageCursor::Back(cursor) => cursor.key(),
        }
    }
}
