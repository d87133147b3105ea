//! Whether a byte string meets a bound, by lexicographic order: what `RangeBounds::contains` asks of
//! one side of a range. rart has no such functions.
ghost use Rattle.std.specs.Prelude.{◌≡◌};
ghost use Rattle.std.specs.Ordering.{as_partial_cmp};
ghost use Rattle.std.specs.Range.Bound.{bound_map, is_from_start, is_up_to_end};
ghost use Rattle.rart_below.specs.Bytes.{byte_order};

use crate::beginnings::compare_bytes;
use std::ops::Bound;

/// Whether a byte string is not past an upper bound.
pub fn is_up_to(bytes: &[u8], high: Bound<&[u8]>) -> bool
    ensures { result ≡ is_up_to_end (as_partial_cmp byte_order)
        (bound_map (λ high. high.now) high.entry) bytes.now }
{
    match high {
        Bound::Included(high) => compare_bytes(bytes, high).is_le(),
        Bound::Excluded(high) => compare_bytes(bytes, high).is_lt(),
        Bound::Unbounded => true,
    }
}

/// Whether a byte string is not before a lower bound.
pub fn is_from(bytes: &[u8], low: Bound<&[u8]>) -> bool
    ensures { result ≡ is_from_start (as_partial_cmp byte_order)
        (bound_map (λ low. low.now) low.entry) bytes.now }
{
    match low {
        Bound::Included(low) => compare_bytes(low, bytes).is_le(),
        Bound::Excluded(low) => compare_bytes(low, bytes).is_lt(),
        Bound::Unbounded => true,
    }
}
