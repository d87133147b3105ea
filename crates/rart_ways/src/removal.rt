// Ported from rart 0.11.0 (Apache-2.0), and rewritten.
//! The way down a tree to a value that is taken out, and with it each node that it leaves with no
//! value and fewer than two children.
//!
//! A node left with no value and exactly one child is merged with that child. The merged node takes
//! memory, so it is made on the way down that finds the key (`plan`). Another way down (`edit`)
//! puts it in place, and opens the nodes above it alone.
ghost use Rattle.std.specs.Prelude.{◌≡◌, ◌*◌, ◌<◌, None, IsSome, IfOk, OnErr};
ghost use Rattle.rart_below.specs.Clones.{ClonesEqual};
ghost use Rattle.rart_node.specs.Counts.{CountsUpTo};
ghost use Rattle.rart_node.specs.Trees.{IsTree, found, path_bound};
ghost use Rattle.rart_ways.specs.Removals.{AreAdmitted, IsTakenOr};

mod edit;
pub(crate) mod plan;

use edit::{edit_below, take};
use plan::{Plan, plan_below};
use rart_below::Partial;
use rart_node::{NodeRef, Work};
use std::alloc::{AllocError, Global};

/// What was taken out below a root, and whether the root is left without value and child.
#[derive(Drop)]
pub struct Removed<V> {
    pub value: Option<V>,
    pub left_empty: bool,
}

/// Takes out the value of a key, if the key is there. Where no other key is there, the root is left
/// without value and child. Refused for memory, and where the key is absent, all is as before.
///
/// Each node of the way is entered at most twice, and the root at least; at most as many are made.
/// Where the key is absent, nothing is refused and none is made.
pub fn remove_below<P: Partial, V: Clone + Drop>(
    alloc: Global,
    root: &mut NodeRef<P, V>,
    key: &[u8],
    version: u64,
    work: &mut Work,
) -> Result<Removed<V>, AllocError>
    requires clones { ClonesEqual V.is_clone }
    requires tree { IsTree root.old.shape }
    requires lengths { AreAdmitted P.MAXIMUM_SIZE root.old.shape }
    ensures taken { IfOk result (λ removed. IsTakenOr removed.left_empty key.now
        root.old.shape root.new.shape) }
    ensures value { IfOk result (λ removed. removed.value ≡ found root.old.shape key.now) }
    ensures refused { OnErr result (root.new.shape ≡ root.old.shape) }
    ensures present { OnErr result (IsSome (found root.old.shape key.now)) }
    ensures absent { found root.old.shape key.now ≡ None → root.new.shape ≡ root.old.shape }
    ensures counted { CountsUpTo (2 * path_bound root.old.shape key.now)
        (path_bound root.old.shape key.now) work.old work.new }
    ensures entered { work.old.entered < work.new.entered }
    ensures absent_makes_none { found root.old.shape key.now ≡ None
        → work.new.made ≡ work.old.made }
{
    match plan_below(alloc, root, key, version, work)? {
        Plan::Absent => Ok(Removed {
            value: None,
            left_empty: false,
        }),
        Plan::Leaf => Ok(Removed {
            value: take(root, work)?,
            left_empty: true,
        }),
        Plan::At(depth, mut edit) => Ok(Removed {
            value: edit_below(root, key, depth, &mut edit, work)?,
            left_empty: false,
        }),
    }
}
