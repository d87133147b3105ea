// Ported from rart 0.11.0 (Apache-2.0), and rewritten.
//! Two leaves of two trees, met without a step further down.
ghost use Rattle.std.specs.Prelude.{◌≡◌, [], IsTrue, OnErr};
ghost use Rattle.rart_node.specs.Shape.{children_of};
ghost use Rattle.rart_node.specs.Trees.{IsTree};
ghost use Rattle.rart_lockstep.specs.Intersections.{CanIntersect, HasIntersected};

use crate::on_common_key::OnCommonKey;

/// Calls the closure on the key of two leaves, if it is the same, from a key path, which keeps the
/// way to them. The prefix of one is whole. rart goes down to them as to any two nodes.
///
/// Refused for memory, it has not called it. It enters no node, and takes no memory of its own.
#[inline]
pub(crate) fn intersect_leaves<V, T, F, J: OnCommonKey<V, T, F>>(
    at: J,
    key_path: &mut T,
    f: &mut F,
) -> Result<(), J::Broken>
    requires left { IsTree (J.left at) }
    requires right { IsTree (J.right at) }
    requires left_leaf { children_of (J.left at) ≡ [] }
    requires right_leaf { children_of (J.right at) ≡ [] }
    requires whole { J.HasWhole at }
    requires meets { CanIntersect J.calls J.Shows J.goes J.holds J.greatest key_path.old f.old
        (J.left at) (J.right at) }
    ensures met { HasIntersected J.calls J.Shows J.goes J.holds J.told key_path.old f.old result
        (J.left at) (J.right at) key_path.new f.new }
    ensures refused { OnErr result (IsTrue J.can_refuse) }
{
    let Some(common) = at.same() else {
        return Ok(());
    };
    match at.push(common, key_path) {
        Ok(()) => {}
        Err(error) => return Err(J::refused(error)),
    }
    let next = at.behind(common);
    next.meet(key_path, f)?;
    at.pop(common, key_path);
    Ok(())
}
