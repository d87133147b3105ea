//! One of the two trees whose keys are merged.
ghost use Rattle.std.specs.Prelude.{◌≡◌, ◌+◌, ◌≤◌, IsSome, OnOk, is_some};
ghost use Rattle.std.specs.Option.{option_copied};
ghost use Rattle.rart_node.specs.Counts.{CountsUpTo};
ghost use Rattle.rart_walks.specs.Diffs.{Leads};
ghost use Rattle.rart_walks.specs.TwoWalks.{Ascends};

use crate::walk::Walk;
use rart_below::Partial;
use rart_node::{BytesPath, Work};
use std::alloc::AllocError;

/// A walk over one of two trees, and the value of the key that it stands at until that is taken.
///
/// Contracts see the pairs that are left to give by `pairs_to_give`, and how many nodes are left to
/// enter by `nodes_left`.
#[derive(Drop)]
pub(crate) struct Side<'a, P: Partial, V> {
    walk: Walk<'a, P, V, BytesPath>,
    value: Option<&'a V>,
}

impl<'a, P: Partial, V: Drop> Side<'a, P, V> {
    ghost use Rattle.rart_walks.specs.Passes.{GoesTo};
    ghost use Rattle.rart_walks.specs.SideFields.{IsSide, IsAtFirst, HasLeft, key_at, pairs_to_give, paths_left, nodes_left, pairs_at_hand};

    /// The tree as far as the walk has it left. It enters no node.
    pub(crate) fn new(walk: Walk<'a, P, V, BytesPath>) -> Side<'a, P, V>
        requires { Ascends walk }
        ensures { HasLeft walk.entry result }
    {
        Side { walk, value: None }
    }

    /// Goes on to the next key, where the value of the last one was taken. It enters the nodes on
    /// the way to that, and so one at least, but for a key that was at hand. Refused, it has
    /// entered none that was not left.
    pub(crate) fn advance(&mut self, work: &mut Work) -> Result<(), AllocError>
        requires { IsSide self.old }
        ensures first { OnOk result (IsAtFirst self.new) }
        ensures pairs { OnOk result (pairs_to_give self.new ≡ pairs_to_give self.old) }
        ensures way { OnOk result (GoesTo (pairs_to_give self.old) (paths_left self.old)
            (paths_left self.new)) }
        ensures exact { OnOk result
            (work.new.entered + nodes_left self.new ≡ work.old.entered + nodes_left self.old) }
        ensures counted { CountsUpTo (nodes_left self.old) 0 work.old work.new }
        ensures each { OnOk result (work.old.entered + pairs_at_hand self.new
            ≤ work.new.entered + pairs_at_hand self.old) }
    {
        if self.value.is_none() {
            self.value = self.walk.next_value(work)?;
        }
        Ok(())
    }

    /// Whether it stands at a key whose value is not taken.
    pub(crate) fn has_key(&self) -> bool
        ensures { result ≡ is_some self.now.value }
    {
        self.value.is_some()
    }

    /// The key that it stands at.
    pub(crate) fn key(&self) -> &[u8]
        requires { IsSide self.now }
        ensures { result.now ≡ key_at self.now }
    {
        self.walk.key_path().as_slice()
    }

    /// Takes the value of the key that it stands at, which leads what is left then.
    pub(crate) fn take(&mut self) -> Option<&'a V>
        requires { IsSide self.old }
        ensures side { IsSide self.new }
        ensures value { option_copied result ≡ option_copied self.old.value }
        ensures key { key_at self.new ≡ key_at self.old }
        ensures leads { IsSome result → Leads (key_at self.old) (option_copied result)
            (pairs_to_give self.old) (pairs_to_give self.new) }
        ensures paths { paths_left self.new ≡ paths_left self.old }
        ensures hand { IsSome self.old.value → pairs_at_hand self.new + 1
            ≡ pairs_at_hand self.old }
    {
        self.value.take()
    }
}
