//! The order of byte strings, and which string begins which.
ghost use Rattle.rart_maps.specs.Order.{OrderIsOfFirstDifference, BeginsIsOfRest};

/// One string stands before another exactly where the other goes on where the one ends, or has the
/// greater byte where they first differ. Only equal strings tie, and of two others one stands
/// before the other.
#[tactic(auto, using(crate::proofs::OrderLemmas::order_is_of_first_difference))]
pub fn order_is_of_first_difference()
    ensures { OrderIsOfFirstDifference }
{}

/// One string begins another exactly where the other is the one and a rest.
#[tactic(auto, using(crate::proofs::OrderLemmas::begins_is_of_rest))]
pub fn begins_is_of_rest()
    ensures { BeginsIsOfRest }
{}
