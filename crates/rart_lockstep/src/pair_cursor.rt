// Ported from rart 0.11.0 (Apache-2.0), and rewritten.
//! A cursor in two trees at once.
ghost use Rattle.std.specs.Prelude.{◌≡◌, ◌⊎◌, ◌+◌, ◌≤◌, ℕ, [], ◌∷◌, ◌++◌, List, Bool, Option, Some, None, length, take, if◌then◌else◌, is_ok, is_some, IsTrue, OnErr, IfSome};
ghost use Rattle.std.specs.Option.{option_map};
ghost use Rattle.std.specs.List.{concat};
ghost use Rattle.rart_below.specs.Bytes.{common_length, IsAdmitted};
ghost use Rattle.rart_node.specs.Counts.{CountsUpTo};
ghost use Rattle.rart_node.specs.Shape.{Shape, IsAscending, children_of, prefix_of};
ghost use Rattle.rart_lockstep.specs.Children.{TakesPair, common_children};
ghost use Rattle.rart_lockstep.specs.PairCursors.{CommonBytes, SameBytes};
ghost use Rattle.rart_lockstep.specs.TreeCursors.{behind_bytes, next_children, children_next};

use rart_node::Work;
use std::alloc::AllocError;

/// A cursor in two trees at once, and the key path that keeps the way there.
///
/// It names no lifetime, so that what calls itself over cursors names none: the prover has no
/// theorem for such a function under a bound that names one. Contracts see the two nodes by `left`
/// and `right`, without the bytes that are passed, and by `HasWhole` that the prefix of one is
/// whole.
pub(crate) trait PairCursor<V, T>: Drop {
    type Branches: Drop;

    ghost left: { Self → Shape V };

    ghost right: { Self → Shape V };

    ghost HasWhole: { Self → Type 0 };

    ghost branches_left: { Self.Branches → List (ℕ × (Shape V × Shape V)) };

    ghost nodes_a_step: { Self.Branches → ℕ };

    ghost holds: { T → List (List ℕ) → Type 0 };

    ghost greatest: { Option ℕ };

    ghost can_refuse: { Bool };

    /// Whether both go on for two bytes at least, and with another second byte. Two next steps have
    /// the same first byte, so the second is where most that have nothing in common differ.
    fn parts_early(&self) -> bool
        ensures { IsTrue result → CommonBytes (left self.now) (right self.now) None };

    /// Whether both are leaves, which have no children.
    fn are_leaves(&self) -> bool
        ensures left { IsTrue result → children_of (left self.now) ≡ [] }
        ensures right { IsTrue result → children_of (right self.now) ≡ [] };

    /// How many bytes are left of either prefix, if the same are left of both.
    fn same(&self) -> Option<usize>
        requires whole { HasWhole self.now }
        ensures { SameBytes (left self.now) (right self.now) result };

    /// How many bytes both have in common, or `None` where neither ends behind them.
    fn common(&self) -> Option<usize>
        requires whole { HasWhole self.now }
        ensures { CommonBytes (left self.now) (right self.now) result };

    /// Puts these bytes of the left prefix on the key path. Refused for memory, it is as it was.
    fn push(&self, count: usize, key_path: &mut T) -> Result<(), AllocError>
        requires inside { count ≤ length (prefix_of (left self.now)) }
        requires short { (segments : List (List ℕ)) × holds key_path.old segments
            × IsAdmitted greatest
            (length (concat (segments ++ take count (prefix_of (left self.now)) ∷ []))) }
        ensures keeps { (segments : List (List ℕ)) → holds key_path.old segments
            → holds key_path.new (if is_ok result
            then segments ++ take count (prefix_of (left self.now)) ∷ [] else segments) }
        ensures refused { OnErr result (IsTrue can_refuse) };

    /// Takes them off the key path.
    fn pop(&self, count: usize, key_path: &mut T)
        requires inside { count ≤ length (prefix_of (left self.now)) }
        requires kept { (segments : List (List ℕ))
            × holds key_path.old (segments ++ take count (prefix_of (left self.now)) ∷ []) }
        ensures { (segments : List (List ℕ))
            → holds key_path.old (segments ++ take count (prefix_of (left self.now)) ∷ [])
            → holds key_path.new segments };

    /// The same two nodes with `count` bytes passed on either side.
    fn behind(&self, count: usize) -> Self
        requires left_inside { count ≤ length (prefix_of (left self.now)) }
        requires right_inside { count ≤ length (prefix_of (right self.now)) }
        ensures left { left result ≡ behind_bytes count (left self.now) }
        ensures right { right result ≡ behind_bytes count (right self.now) };

    /// The next steps, where the prefix of one has ended, or of both.
    fn branches(self) -> Self::Branches
        requires left { IsAscending (left self) }
        requires right { IsAscending (right self) }
        requires ended { (prefix_of (left self) ≡ []) ⊎ (prefix_of (right self) ≡ []) }
        ensures steps { branches_left result
            ≡ common_children (next_children (left self)) (next_children (right self)) }
        ensures nodes { nodes_a_step result
            ≡ children_next (prefix_of (left self)) (prefix_of (right self)) };

    /// Takes the next step. It enters the one child that is next, or the two, and none where there
    /// is no step.
    fn next(branches: &mut Self::Branches, work: &mut Work) -> Option<Self>
        ensures takes { TakesPair (branches_left branches.old)
            (option_map (λ at. (left at, right at)) result) (branches_left branches.new) }
        ensures whole { IfSome result HasWhole }
        ensures counted { CountsUpTo (if is_some result then 2 else 0) 0
            work.old work.new }
        ensures entered { work.new ≡ record work.old {
          entered = work.old.entered
              + (if is_some result then nodes_a_step branches.old else 0);
        } }
        ensures nodes { nodes_a_step branches.new ≡ nodes_a_step branches.old };
}
