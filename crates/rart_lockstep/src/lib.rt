// Ported from rart 0.11.0 (Apache-2.0), and rewritten.
//! What two trees of nodes have in common: a walk over both at once.
//!
//! One recursion goes down both trees, node beside node, as far as keys of both can lie there, and
//! calls a closure on each key of both, in order. It knows prefixes and pointers, and no key type
//! but for the keys that it makes.
#![tactic(auto)]

ghost use Rattle.std.specs.Prelude.{◌+◌, ◌*◌, ◌≤◌, length, IsTrue, OnErr, OnOk};
ghost use Rattle.rart_node.specs.Trees.{IsTree};
ghost use Rattle.rart_lockstep.specs.CommonPairs.{common_pairs};
ghost use Rattle.rart_lockstep.specs.Intersections.{CanIntersect, HasIntersected};
ghost use Rattle.rart_lockstep.specs.Steps.{EntersBelow};

mod branches;
mod children;
mod count;
mod ended;
mod intersection_path;
mod keys;
mod leaves;
mod on_common_key;
mod pair_cursor;
mod tree_cursor;
mod tree_cursors;
mod values;
mod views;
mod visit;

use crate::leaves::intersect_leaves;
use crate::on_common_key::OnCommonKey;
pub use count::count_common;
pub use ended::{Ended, without_stop};
pub use intersection_path::IntersectionPath;
pub use keys::visit_common_keys;
use rart_node::Work;
pub use tree_cursor::TreeCursor;
pub use values::visit_common_values;
pub use views::ViewsPath;
pub use visit::visit_common;

/// Calls the closure on each key of two trees that lies below a cursor in both, in order, from a
/// key path, which keeps the way to the key. The prefix of one of the nodes there is whole.
///
/// Where memory is refused, or an answer of the closure ends it, it has called it on a prefix of
/// them. It takes no memory of its own.
pub(crate) fn intersect_below<V, T, F, J: OnCommonKey<V, T, F>>(
    at: J,
    key_path: &mut T,
    f: &mut F,
    work: &mut Work,
) -> Result<(), J::Broken>
    requires left { IsTree (J.left at) }
    requires right { IsTree (J.right at) }
    requires whole { J.HasWhole at }
    requires meets { CanIntersect J.calls J.Shows J.goes J.holds J.greatest key_path.old f.old
        (J.left at) (J.right at) }
    ensures met { HasIntersected J.calls J.Shows J.goes J.holds J.told key_path.old f.old result
        (J.left at) (J.right at) key_path.new f.new }
    ensures refused { OnErr result (IsTrue J.can_refuse) }
    ensures enters { EntersBelow (J.left at) (J.right at) work.old work.new }
    // (the two nodes there were entered before)
    ensures least { OnOk result (work.old.entered
        + 2 * length (common_pairs (J.left at) (J.right at)) ≤ work.new.entered + 2) }
{
    let Some(common) = at.common() else {
        return Ok(());
    };
    match at.push(common, key_path) {
        Ok(()) => {}
        Err(error) => return Err(J::refused(error)),
    }
    let next = at.behind(common);
    next.meet(key_path, f)?;
    let mut branches = next.branches();
    'branches: while let Some(below) = J::next(&mut branches, work) {
        if below.parts_early() {
            continue;
        }
        if below.are_leaves() {
            intersect_leaves(below, key_path, f)?;
            continue;
        }
        intersect_below(below, key_path, f, work)?;
    }
    at.pop(common, key_path);
    Ok(())
}
