// Ported from rart 0.11.0 (Apache-2.0), and rewritten.
//! The box of a wide mapping.
ghost use Rattle.std.specs.Prelude.{◌≡◌};

use rart_below::Clear;
use std::marker::PhantomData;
use std::mem;

/// A box whose mapping drops its children where it stands.
///
/// What is dropped in place is moved out of its box first, into the frame of whoever drops it,
/// which would hold it while the children are dropped, at each level of a chain of nodes. So the
/// mapping is cleared, and what is left of it, which has nothing to drop, goes with its box.
pub(crate) struct WideBox<M: Clear<C>, C> {
    pub(crate) boxed: Box<M>,
    child: PhantomData<C>,
}

impl<M: Clear<C>, C> WideBox<M, C> {
    pub(crate) fn new(boxed: Box<M>) -> WideBox<M, C>
        ensures { result.boxed ≡ boxed }
    {
        WideBox {
            boxed,
            child: PhantomData,
        }
    }
}

impl<M: Clear<C> + Drop, C: Drop> Drop for WideBox<M, C> {
    // Out of line, so that what is left of the mapping has no room in the frame of a node's drop.
    #[inline(never)]
    fn drop(self) {
        let WideBox {
            mut boxed,
            child: _,
        } = self;
        boxed.clear();
        mem::forget(Box::into_inner(boxed));
    }
}
