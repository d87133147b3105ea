//! The walk from change to change.
ghost use Rattle.std.specs.Prelude.{◌≡◌, ◌+◌, ◌≤◌, IfOk, OnOk, is_some, if◌then◌else◌};
ghost use Rattle.rart_node.specs.Counts.{CountsUpTo};
ghost use Rattle.rart_walks.specs.Passes.{GoesTo};
ghost use Rattle.rart_walks.specs.SideFields.{HasLeft, IsAtFirst};
ghost use Rattle.rart_walks.specs.TwoWalks.{GoTogether, changes_ahead, nodes_ahead};

use crate::diff::order::order_of;
use crate::diff::side::Side;
use crate::walk::Walk;
use rart_below::Partial;
use rart_maps::do_differ;
use rart_node::{BytesPath, Work};
use std::alloc::AllocError;
use std::cmp::Ordering;

/// Two walks that go on together, from key to key of either tree.
///
/// Contracts see the changes that are left by `changes_left`, and how many nodes are left to enter
/// by `nodes_to_enter`.
#[derive(Drop)]
pub(crate) struct ChangeWalk<'a, P: Partial, V> {
    before: Side<'a, P, V>,
    after: Side<'a, P, V>,
    /// Whether the tree before has the key that was given last, or else the one after alone.
    is_before: bool,
}

impl<'a, P: Partial, V: Drop + Eq> ChangeWalk<'a, P, V> {
    ghost use Rattle.rart_walks.specs.ChangeFields.{IsChangeWalk, GivesChange, ComesToChange, TakesKey, changes_left, nodes_to_enter, key_given, hands};
    ghost use Rattle.rart_walks.specs.SideFields.{pairs_to_give, paths_left};

    /// The changes from the pairs that the one walk has left to those of the other. It enters no
    /// node.
    pub(crate) fn new(
        old: Walk<'a, P, V, BytesPath>,
        new: Walk<'a, P, V, BytesPath>,
    ) -> ChangeWalk<'a, P, V>
        requires { GoTogether old new }
        ensures walk { IsChangeWalk result }
        ensures before { HasLeft old.entry result.before }
        ensures after { HasLeft new.entry result.after }
        ensures changes { changes_left V.eq result ≡ changes_ahead V.eq old.entry new.entry }
        ensures nodes { nodes_to_enter result ≡ nodes_ahead old.entry new.entry }
    {
        ChangeWalk {
            before: Side::new(old),
            after: Side::new(new),
            is_before: false,
        }
    }

    /// The key that was given last.
    pub(crate) fn key(&self) -> &[u8]
        requires { IsChangeWalk self.now }
        ensures { result.now ≡ key_given self.now }
    {
        if self.is_before {
            self.before.key()
        } else {
            self.after.key()
        }
    }

    /// Goes on to the next change, and gives the values before and after, where there are any, or
    /// `None` where no change is left. Of either tree it enters no node behind the first key from
    /// that of the change on.
    pub(crate) fn next(
        &mut self,
        work: &mut Work,
    ) -> Result<Option<(Option<&'a V>, Option<&'a V>)>, AllocError>
        requires { IsChangeWalk self.old }
        ensures walk { OnOk result (IsChangeWalk self.new) }
        ensures gives { IfOk result (GivesChange V.eq self.old self.new) }
        ensures come { IfOk result (ComesToChange self.old self.new) }
        ensures exact { OnOk result (work.new.entered + nodes_to_enter self.new
            ≡ work.old.entered + nodes_to_enter self.old) }
        ensures counted { CountsUpTo (nodes_to_enter self.old) 0 work.old work.new }
        ensures each { IfOk result (λ given. work.old.entered + (if is_some given then 1 else 0)
            + hands self.new ≤ work.new.entered + hands self.old) }
    {
        'merging: while let Some((before, after)) = self.next_key(work)? {
            if do_differ(before, after) {
                return Ok(Some((before, after)));
            }
        }
        Ok(None)
    }

    /// Goes on to the next key of either tree, and gives what both have there.
    fn next_key(
        &mut self,
        work: &mut Work,
    ) -> Result<Option<(Option<&'a V>, Option<&'a V>)>, AllocError>
        requires { IsChangeWalk self.old }
        ensures walk { OnOk result (IsChangeWalk self.new) }
        ensures takes { IfOk result (TakesKey self.old self.new) }
        ensures before { OnOk result (GoesTo (pairs_to_give self.old.before)
            (paths_left self.old.before) (paths_left self.new.before)) }
        ensures after { OnOk result (GoesTo (pairs_to_give self.old.after)
            (paths_left self.old.after) (paths_left self.new.after)) }
        ensures exact { OnOk result (work.new.entered + nodes_to_enter self.new
            ≡ work.old.entered + nodes_to_enter self.old) }
        ensures counted { CountsUpTo (nodes_to_enter self.old) 0 work.old work.new }
        ensures each { IfOk result (λ given. work.old.entered + (if is_some given then 1 else 0)
            + hands self.new ≤ work.new.entered + hands self.old) }
    {
        self.before.advance(work)?;
        self.after.advance(work)?;
        Ok(self.take_first())
    }

    /// Takes the values of the first of the keys that both stand at.
    fn take_first(&mut self) -> Option<(Option<&'a V>, Option<&'a V>)>
        requires before { IsAtFirst self.old.before }
        requires after { IsAtFirst self.old.after }
        ensures walk { IsChangeWalk self.new }
        ensures takes { TakesKey self.old self.new result }
        ensures before { paths_left self.new.before ≡ paths_left self.old.before }
        ensures after { paths_left self.new.after ≡ paths_left self.old.after }
        ensures each { (if is_some result then 1 else 0) + hands self.new ≤ hands self.old }
    {
        match order_of(&self.before, &self.after)? {
            Ordering::Less => {
                self.is_before = true;
                Some((self.before.take(), None))
            }
            Ordering::Equal => {
                self.is_before = true;
                Some((self.before.take(), self.after.take()))
            }
            Ordering::Greater => {
                self.is_before = false;
                Some((None, self.after.take()))
            }
        }
    }
}
