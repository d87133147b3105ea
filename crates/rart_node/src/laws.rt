// Ported from rart 0.11.0 (Apache-2.0), and rewritten.
//! What follows from the width of a node: laws, each the contract of a function that does nothing.
ghost use Rattle.rart_node.specs.Laws.{InnerNodesHaveRoom, FewChildrenLeaveRoom};

/// One more child makes no node in an inner node that is not full, so in none of width 4 and wider
/// that has fewer than four children.
#[tactic(auto, using(crate::proofs::WidthLemmas::room_left))]
pub fn inner_nodes_have_room<V>()
    ensures not_full { InnerNodesHaveRoom V }
    ensures few_children { FewChildrenLeaveRoom V }
{}
