// Ported from rart 0.11.0 (Apache-2.0), and rewritten.
//! A way through the pairs of a tree whose keys are lent, onward or back. rart has neither.
ghost use Rattle.std.specs.Prelude.{◌≡◌, [], IfOk, OnErr, reverse};
ghost use Rattle.std.specs.Range.Bound.{bound_map};
ghost use Rattle.std.specs.declared.ops.Bound.TheVariants.{Unbounded};
ghost use Rattle.rart_maps.specs.Pairs.{within};
ghost use Rattle.rart_versioned.specs.Cursors.{GoesOnLending};

use super::walkers::KeyWalker;
use crate::counted::VersionedAdaptiveRadixTree;
use rart_below::KeyTrait;
use rart_node::Work;
use rart_walks::{BytesPath, Walk, WalkBack};
use std::alloc::AllocError;
use std::marker::{Model, PhantomData};
use std::ops::Bound;

/// A way through the pairs of a tree, in the order of their keys, which lends the bytes of the key
/// that it stands at.
pub type VersionedCursor<'a, P, V> = CursorOver<V, Walk<'a, P, V, BytesPath>>;

/// A way through the pairs of a tree, from the last key to the first, which lends the bytes of the
/// key that it stands at.
pub type VersionedCursorRev<'a, P, V> = CursorOver<V, WalkBack<'a, P, V, BytesPath>>;

/// A way through the pairs of a tree, as a walk comes to them, which lends the bytes of the key
/// that it stands at: one buffer holds them, and no key is made.
///
/// Contracts see the bytes of that key, and the pairs that are left, the next one first.
#[derive(Drop)]
pub struct CursorOver<V, W: KeyWalker<V>> {
    walk: W,
    lent: PhantomData<(V, W::Lent)>,
}

impl<V, W: KeyWalker<V>> Model for CursorOver<V, W> {
    ghost use Rattle.rart_versioned.specs.Cursors.{Cursor};

    ghost Value = { Cursor V };

    ghost view = { λ way. record { key = W.key way.walk; left = W.left way.walk } };

    ghost invariant = { λ way. W.is_sound way.walk };
}

impl<K: KeyTrait, V: Clone + Drop> VersionedAdaptiveRadixTree<K, V> {
    /// A cursor before the first of the pairs whose keys meet a lower bound. rart has no such call.
    ///
    /// ```
    /// let mut cursor = list.cursor_from(Bound::Included(tea.as_ref()))?;
    /// while let Some(price) = cursor.next_value()? {
    ///     names += cursor.key().len();
    ///     prices.push(*price)?;
    /// }
    /// ```
    ///
    /// It goes down to the bound. Refused for memory, there is none.
    pub fn cursor_from(
        &self,
        low: Bound<&[u8]>,
    ) -> Result<VersionedCursor<'_, K::PartialType, V>, AllocError>
        ensures { IfOk result (λ cursor. cursor.left
            ≡ within self.now.content (bound_map (λ low. low.now) low.entry) Unbounded) }
    {
        let walk = self.walk_from(low, &mut Work::new())?;
        Ok(CursorOver {
            walk,
            lent: PhantomData,
        })
    }

    /// A cursor behind the last of the pairs whose keys meet an upper bound, which goes back. rart
    /// has no such call.
    ///
    /// ```
    /// let mut cursor = list.cursor_to(Bound::Excluded(tea.as_ref()))?;
    /// while let Some(price) = cursor.next_value()? {
    ///     names += cursor.key().len();
    ///     prices.push(*price)?;
    /// }
    /// ```
    ///
    /// It goes down to the bound. Refused for memory, there is none.
    pub fn cursor_to(
        &self,
        high: Bound<&[u8]>,
    ) -> Result<VersionedCursorRev<'_, K::PartialType, V>, AllocError>
        ensures { IfOk result (λ cursor. cursor.left ≡ reverse
            (within self.now.content Unbounded (bound_map (λ high. high.now) high.entry))) }
    {
        let walk = self.walk_back_to(high, &mut Work::new())?;
        Ok(CursorOver {
            walk,
            lent: PhantomData,
        })
    }
}

impl<V: Drop, W: KeyWalker<V>> CursorOver<V, W> {
    /// Goes on to the next pair, and gives its value: `None` behind the last one.
    ///
    /// Refused for memory, the cursor has ended: no pair is left.
    pub fn next_value(&mut self) -> Result<Option<W::Lent>, AllocError>
        ensures gives { IfOk result (λ lent. GoesOnLending W.value self.old lent self.new) }
        ensures refused { OnErr result (self.new.left ≡ []) }
    {
        self.walk.next_lent()
    }

    /// The bytes of the key whose value was given last. Before any was, and behind the end, they
    /// are unspecified.
    pub fn key(&self) -> &[u8]
        ensures { result.now ≡ self.now.key }
    {
        self.walk.key_bytes()
    }
}
