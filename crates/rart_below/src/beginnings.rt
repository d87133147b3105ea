// Ported from rart 0.11.0 (Apache-2.0), and rewritten.
//! How many bytes two byte strings have in common at their start, whether one begins the other, and
//! their order.
ghost use Rattle.std.specs.Prelude.{◌≡◌, ◌↔◌, ◌+◌, ◌≤◌, IsTrue, length, take, drop};
ghost use Rattle.std.specs.Int.{from_be_bytes, from_le_bytes, w32, w64};
ghost use Rattle.rart_below.specs.Bytes.{begins, byte_order, common_length};

use std::cmp::Ordering;

/// The length of the longest common prefix of two byte strings.
///
/// Where both are long enough, blocks of eight or of four bytes are compared as numbers first, of
/// which the last may overlap the one before. Only where a block differs are bytes compared one by
/// one.
#[tactic(auto, using(crate::proofs::CommonLengthLemmas::common_step, crate::proofs::CommonLengthLemmas::common_stop, crate::proofs::CommonLengthLemmas::common_stop_left, crate::proofs::CommonLengthLemmas::common_stop_right))]
pub fn prefix_length(left: &[u8], right: &[u8]) -> usize
    ensures common { result ≡ common_length left.now right.now }
    ensures within_left { result ≤ length left.now }
    ensures within_right { result ≤ length right.now }
{
    let shorter = left.len().min(right.len());
    let mut matched = equal_blocks(left, right, shorter);
    while matched < shorter {
        if left[matched] != right[matched] {
            return matched;
        }
        matched += 1;
    }
    matched
}

/// How two byte strings stand to one another, in lexicographic order.
///
/// Where both have eight bytes, blocks of eight are compared as numbers, of which the last may
/// overlap the one before. The first two that differ decide.
#[inline]
pub fn compare_bytes(left: &[u8], right: &[u8]) -> Ordering
    ensures { result ≡ byte_order left.now right.now }
{
    if left.len() >= 8 && right.len() >= 8 {
        return compare_by_eight(left, right);
    }
    compare_few(left, right)
}

/// The same where both have at least eight bytes, by blocks of eight.
fn compare_by_eight(left: &[u8], right: &[u8]) -> Ordering
    requires long_left { 8 ≤ length left.now }
    requires long_right { 8 ≤ length right.now }
    ensures { result ≡ byte_order left.now right.now }
{
    let last = left.len().min(right.len()) - 8;
    let mut place = 0;
    while place < last {
        if eight_at(left, place) != eight_at(right, place) {
            return compare_blocks(left, right, place);
        }
        place += 8;
    }
    if eight_at(left, last) != eight_at(right, last) {
        return compare_blocks(left, right, last);
    }
    left.len().cmp(&right.len())
}

/// How the blocks of eight bytes from this place on stand to one another.
fn compare_blocks(left: &[u8], right: &[u8], place: usize) -> Ordering
    requires in_left { place + 8 ≤ length left.now }
    requires in_right { place + 8 ≤ length right.now }
    ensures { result ≡ byte_order (take 8 (drop place left.now)) (take 8 (drop place right.now)) }
{
    eight_in_order(left, place).cmp(&eight_in_order(right, place))
}

/// The same where one has fewer than eight bytes. Where the first bytes differ these decide; what
/// two have in common at their start is compared in blocks.
#[tactic(auto, using(crate::proofs::CommonLengthLemmas::byte_order_first, crate::proofs::CommonLengthLemmas::byte_order_difference, crate::proofs::CommonLengthLemmas::byte_order_beginning))]
fn compare_few(left: &[u8], right: &[u8]) -> Ordering
    ensures { result ≡ byte_order left.now right.now }
{
    if !left.is_empty() && !right.is_empty() && left[0] != right[0] {
        return left[0].cmp(&right[0]);
    }
    let common = prefix_length(left, right);
    if common < left.len() && common < right.len() {
        left[common].cmp(&right[common])
    } else {
        left.len().cmp(&right.len())
    }
}

/// Whether a byte string begins another. It may be empty, or equal that one. In Rust this is
/// `bytes.starts_with(beginning)`.
///
/// Blocks of eight or of four bytes are compared as numbers, of which the last may overlap the one
/// before. Where the two part is not asked, so it takes less time than `prefix_length`.
#[inline]
pub fn does_begin(beginning: &[u8], bytes: &[u8]) -> bool
    ensures { result ≡ begins beginning.now bytes.now }
{
    let count = beginning.len();
    if bytes.len() < count {
        return false;
    }
    if count >= 8 {
        return begins_by_eight(beginning, bytes);
    }
    if count >= 4 {
        return begins_by_four(beginning, bytes);
    }
    begins_by_bytes(beginning, bytes)
}

/// The same of at least eight bytes, by blocks of eight.
fn begins_by_eight(beginning: &[u8], bytes: &[u8]) -> bool
    requires long { 8 ≤ length beginning.now }
    requires within { length beginning.now ≤ length bytes.now }
    ensures { IsTrue result ↔ (length beginning.now ≤ common_length beginning.now bytes.now) }
{
    let last = beginning.len() - 8;
    let mut place = 0;
    while place < last {
        if eight_at(beginning, place) != eight_at(bytes, place) {
            return false;
        }
        place += 8;
    }
    eight_at(beginning, last) == eight_at(bytes, last)
}

/// The same of four to eight bytes, by two blocks of four.
fn begins_by_four(beginning: &[u8], bytes: &[u8]) -> bool
    requires long { 4 ≤ length beginning.now }
    requires short { length beginning.now ≤ 8 }
    requires within { length beginning.now ≤ length bytes.now }
    ensures { IsTrue result ↔ (length beginning.now ≤ common_length beginning.now bytes.now) }
{
    let last = beginning.len() - 4;
    four_at(beginning, 0) == four_at(bytes, 0) && four_at(beginning, last) == four_at(bytes, last)
}

/// The same byte by byte.
#[inline]
#[tactic(auto, using(crate::proofs::CommonLengthLemmas::common_step, crate::proofs::CommonLengthLemmas::common_stop))]
fn begins_by_bytes(beginning: &[u8], bytes: &[u8]) -> bool
    requires within { length beginning.now ≤ length bytes.now }
    ensures { IsTrue result ↔ (length beginning.now ≤ common_length beginning.now bytes.now) }
{
    let count = beginning.len();
    let mut matched = 0;
    while matched < count {
        if beginning[matched] != bytes[matched] {
            return false;
        }
        matched += 1;
    }
    true
}

/// The length of a prefix that is the same in both: of all blocks before the first that differs,
/// or of the shorter one where no block does. Fewer than four bytes make no block.
fn equal_blocks(left: &[u8], right: &[u8], shorter: usize) -> usize
    requires in_left { shorter ≤ length left.now }
    requires in_right { shorter ≤ length right.now }
    ensures at_most { result ≤ shorter }
    ensures equal { result ≤ common_length left.now right.now }
{
    if shorter >= 8 {
        return equal_by_eight(left, right, shorter);
    }
    if shorter >= 4 {
        return equal_by_four(left, right, shorter);
    }
    0
}

/// The same by blocks of eight bytes, of which the last ends where the shorter one does.
fn equal_by_eight(left: &[u8], right: &[u8], shorter: usize) -> usize
    requires long { 8 ≤ shorter }
    requires in_left { shorter ≤ length left.now }
    requires in_right { shorter ≤ length right.now }
    ensures at_most { result ≤ shorter }
    ensures equal { result ≤ common_length left.now right.now }
{
    let mut matched = 0;
    while shorter - matched >= 8 {
        if eight_at(left, matched) != eight_at(right, matched) {
            return matched;
        }
        matched += 8;
    }
    let last = shorter - 8;
    if eight_at(left, last) == eight_at(right, last) {
        return shorter;
    }
    matched
}

/// The same by two blocks of four bytes, where there are at most eight.
fn equal_by_four(left: &[u8], right: &[u8], shorter: usize) -> usize
    requires long { 4 ≤ shorter }
    requires short { shorter ≤ 8 }
    requires in_left { shorter ≤ length left.now }
    requires in_right { shorter ≤ length right.now }
    ensures at_most { result ≤ shorter }
    ensures equal { result ≤ common_length left.now right.now }
{
    if four_at(left, 0) != four_at(right, 0) {
        return 0;
    }
    let last = shorter - 4;
    if four_at(left, last) == four_at(right, last) {
        return shorter;
    }
    4
}

/// The eight bytes from this place on, as one number.
fn eight_at(bytes: &[u8], place: usize) -> u64
    requires { place + 8 ≤ length bytes.now }
    ensures { result ≡ from_le_bytes w64 (take 8 (drop place bytes.now)) }
{
    u64::from_le_bytes([
        bytes[place],
        bytes[place + 1],
        bytes[place + 2],
        bytes[place + 3],
        bytes[place + 4],
        bytes[place + 5],
        bytes[place + 6],
        bytes[place + 7],
    ])
}

/// The same eight bytes as a number to which the first adds most, so that numbers stand to one
/// another as the bytes do.
fn eight_in_order(bytes: &[u8], place: usize) -> u64
    requires { place + 8 ≤ length bytes.now }
    ensures { result ≡ from_be_bytes w64 (take 8 (drop place bytes.now)) }
{
    u64::from_be_bytes([
        bytes[place],
        bytes[place + 1],
        bytes[place + 2],
        bytes[place + 3],
        bytes[place + 4],
        bytes[place + 5],
        bytes[place + 6],
        bytes[place + 7],
    ])
}

/// The four bytes from this place on, as one number.
fn four_at(bytes: &[u8], place: usize) -> u32
    requires { place + 4 ≤ length bytes.now }
    ensures { result ≡ from_le_bytes w32 (take 4 (drop place bytes.now)) }
{
    u32::from_le_bytes([
        bytes[place],
        bytes[place + 1],
        bytes[place + 2],
        bytes[place + 3],
    ])
}
