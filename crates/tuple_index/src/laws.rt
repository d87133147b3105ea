//! What tuples and their keys have to do with one another: laws, each the contract of a function.
ghost use Rattle.std.specs.Prelude.{◌≡◌};
ghost use Rattle.rart_versioned.specs.Bytes.{byte_order};
ghost use Rattle.tuple_index.specs.CutLaws.{ColumnsAreFirst, KeptBringsBack, RestoredHas, SomeWithIsATuple};
ghost use Rattle.tuple_index.specs.CutLaws.{TuplesFixTheSet, WithHas, WithoutHas};
ghost use Rattle.tuple_index.specs.TogetherLaws.{CommonAreListed, CommonHas, EitherHas};
ghost use Rattle.tuple_index.specs.TogetherLaws.{OneAloneHas, WithoutOthersHas};
ghost use Rattle.tuple_index.specs.Tuples.{RoomIsBelowTheLast, key_of, tuple_order};

use crate::tuple::Tuple;
use std::cmp::Ordering;

/// An index has room up to the last number, 2^64 - 1.
pub fn room_is_below_the_last()
    ensures { RoomIsBelowTheLast }
{}

/// Different tuples have different keys.
pub fn tuples_have_keys_of_their_own(one: Tuple, other: Tuple)
    ensures { key_of one ≡ key_of other → one ≡ other }
{
    let _keys = (one.key(), other.key());
}

/// How the first tuple stands to the second, which is how their keys stand to one another.
pub fn tuples_are_ordered_as_their_keys(one: Tuple, other: Tuple) -> Ordering
    ensures columns { result ≡ tuple_order one other }
    ensures keys { result ≡ byte_order (key_of one) (key_of other) }
{
    let _keys = (one.key(), other.key());
    one.cmp(&other)
}

/// Which tuples are in a set that was cut at first columns, and when there is one. As sets with the
/// same tuples are the same, this is all that can be said of each. And what first columns are.
pub fn cut_sets_have_these_tuples()
    ensures columns { ColumnsAreFirst }
    ensures with_columns { WithHas }
    ensures without { WithoutHas }
    ensures restored { RestoredHas }
    ensures all { TuplesFixTheSet }
    ensures some { SomeWithIsATuple }
{}

/// What was kept of a set brings it back, if none of the other tuples has come or gone since.
pub fn restoring_undoes()
    ensures { KeptBringsBack }
{}

/// Which tuples are in what two sets make together. As sets with the same tuples are the same, this
/// is all that can be said of each. And that the common ones in order are those that a join lists.
pub fn sets_together_have_these_tuples()
    ensures either { EitherHas }
    ensures both { CommonHas }
    ensures without { WithoutOthersHas }
    ensures alone { OneAloneHas }
    ensures listed { CommonAreListed }
{}
