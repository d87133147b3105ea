// Ported from rart 0.11.0 (Apache-2.0), and rewritten.
//! An array that lends one of its slots for writing.
ghost use Rattle.std.specs.Prelude.{◌≡◌, ◌<◌, slice_index_or};
ghost use Rattle.std.specs.Borrow.{sem};

/// An array in a struct of its own, so that a contract can say what a loan of one slot leaves.
#[derive(Drop)]
pub struct SlotArray<T, const LENGTH: usize> {
    pub(crate) slots: [T; LENGTH],
}

impl<T, const LENGTH: usize> SlotArray<T, LENGTH> {
    ghost use Rattle.rart_below.specs.SlotArray.{LendsSlot};

    /// The slot for writing.
    pub(crate) fn slot_mut(&mut self, place: usize) -> &mut T
        requires { place < LENGTH }
        ensures* writes_back { sem 𝓛 (LendsSlot T.row LENGTH.row self.entry place result) }
        ensures value { result.now ≡ slice_index_or self.old.slots place result.now }
    {
        &mut self.slots[place]
    }
}
