//! What iterators give, call after call.
ghost use Rattle.rart_maps.specs.IterationLaws.{ItemsLeftOfTwo, ItemsLeftBehind, TakenAreFirst, ValuesAreGiven, NoValueIsGivenBehind, PairsAreGiven, NoPairIsGivenBehind};

use rart_below::KeyTrait;

/// Calls of an iterator in turn give its first members, each once and in order; or all of them and
/// then nothing, however often it is asked; or its first members, then one refusal, and then
/// nothing. Each of these may be, and nothing else.
pub fn iterators_give_their_members<K: KeyTrait, V>()
    ensures values { ValuesAreGiven V }
    ensures no_value_behind { NoValueIsGivenBehind V }
    ensures pairs { PairsAreGiven V K.bytes }
    ensures no_pair_behind { NoPairIsGivenBehind V K.bytes }
{}

/// How many items an iterator gives at most: its members and a refusal, and behind its end none.
/// What was taken of its members are the first ones.
pub fn items_left_are_counted<V>()
    ensures two { ItemsLeftOfTwo V }
    ensures behind { ItemsLeftBehind V }
    ensures taken { TakenAreFirst V }
{}
