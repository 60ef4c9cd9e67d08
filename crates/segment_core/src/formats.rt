//! Reading the parts of formats from the front of bytes: numbers, values, masks and packed words.
ghost use Rattle.std.specs.Prelude.{◌≡◌, ℕ, ◌-◌, ◌*◌, ◌/◌, ◌^◌, ◌<◌, ◌≤◌, take, length, FitsSigned, IfOk, IfErr, OnOk};
ghost use Rattle.std.specs.List.{All};
ghost use Rattle.transpose_order.specs.Place.{IsLaneWidth};
ghost use Rattle.bit_interleave.specs.Arithmetic.{integer_width};
ghost use Rattle.bit_interleave.specs.PackedWords.{HasWidth};
ghost use Rattle.table_model.specs.Reading.{Reads};
ghost use Rattle.segment_core.specs.Format.{Format, number, signed, all};
ghost use Rattle.segment_core.specs.VectorBytes.{words};

use bit_interleave::{Values, Words, wrap};
use byteorder::{ByteOrder, LittleEndian};
use std::alloc::Global;
use table_model::Refusal;

/// The place of the first byte of what is left of an input of `total` bytes.
pub fn place_of(total: usize, rest: &[u8]) -> u64
    ensures { result ≡ total - length rest.now }
{
    total.saturating_sub(rest.len()) as u64
}

/// The number of `size` bytes, 1 to 8, the lowest first, at the front of what is left of an input of `total` bytes, and what
/// comes after it. `Truncated` if there are fewer bytes.
pub fn read_number(total: usize, bytes: &[u8], size: usize) -> Result<(u64, &[u8]), Refusal>
    requires low { 1 ≤ size }
    requires high { size ≤ 8 }
    ensures read { Reads (λ x. (x.0, x.1.now)) result ((number size).read total bytes.now) }
    ensures fits { IfOk result (λ x. x.0 < 256 ^ size) }
    ensures fault { IfErr result (λ e. e ≡ Refusal.Truncated total) }
{
    if bytes.len() < size {
        return Err(Refusal::Truncated(total as u64));
    }
    let (front, rest) = bytes.split_at(size);
    Ok((LittleEndian::read_uint(front, size), rest))
}

/// The value of `lane_width` bits, 8, 16, 32 or 64, at the front of what is left of an input of `total` bytes, and what comes
/// after it. `Truncated` if there are fewer bytes.
pub(crate) fn read_value(
    total: usize,
    bytes: &[u8],
    lane_width: usize,
) -> Result<(i64, &[u8]), Refusal>
    requires { IsLaneWidth lane_width }
    ensures read { Reads (λ x. (x.0, x.1.now)) result ((signed lane_width).read total bytes.now) }
    ensures fits { IfOk result (λ x. FitsSigned (integer_width lane_width) x.0) }
    ensures fault { IfErr result (λ e. e ≡ Refusal.Truncated total) }
{
    let (number, rest) = read_number(total, bytes, lane_width / 8)?;
    Ok((wrap(lane_width, number), rest))
}

/// Words of `lane_width` bits, 8, 16, 32 or 64, that pack 1024 values of `width` bits, at most the lane width, at the front of
/// what is left of an input of `total` bytes, and what comes after them. `Truncated` if there are fewer bytes.
#[tactic(auto, unfolding(crate::specs::VectorBytes::words))]
pub(crate) fn read_words(
    alloc: Global,
    total: usize,
    bytes: &[u8],
    lane_width: usize,
    width: usize,
) -> Result<(Words, &[u8]), Refusal>
    requires lane_width { IsLaneWidth lane_width }
    requires width { width ≤ lane_width }
    ensures read { Reads (λ x. (x.0, x.1.now)) result ((words lane_width width).read total bytes.now) }
    ensures width { IfOk result (λ x. HasWidth x.0 width) }
    ensures lanes { IfOk result (λ x. x.0.lane_width ≡ lane_width) }
{
    let needed = 128 * width;
    if bytes.len() < needed {
        return Err(Refusal::Truncated(total as u64));
    }
    let (front, rest) = bytes.split_at(needed);
    Ok((Words::from_le_bytes(alloc, lane_width, front)?, rest))
}

/// How many values are read through a small room: most lists are no longer.
const FEW_VALUES: usize = 64;

/// A number of values of `lane_width` bits, 8, 16, 32 or 64, at most 1024, at the front of what is left of an input of `total` bytes,
/// and what comes after them. `Truncated` if there are fewer bytes.
pub(crate) fn read_values(
    alloc: Global,
    total: usize,
    bytes: &[u8],
    lane_width: usize,
    count: usize,
) -> Result<(Values, &[u8]), Refusal>
    requires lane_width { IsLaneWidth lane_width }
    requires many { count ≤ 1024 }
    ensures read { Reads (λ x. (x.0.values, x.1.now)) result ((all count (λ _. signed lane_width)).read total bytes.now) }
    ensures count { IfOk result (λ x. length x.0.values ≡ count) }
    ensures lanes { IfOk result (λ x. x.0.lane_width ≡ lane_width) }
{
    if count <= FEW_VALUES {
        read_in_room::<FEW_VALUES>(alloc, total, bytes, lane_width, count)
    } else {
        read_in_room::<1024>(alloc, total, bytes, lane_width, count)
    }
}

/// Reads a coded vector through a room for `N` values, 1024 at most: a small room is cheaper to clear.
fn read_in_room<const N: usize>(
    alloc: Global,
    total: usize,
    bytes: &[u8],
    lane_width: usize,
    count: usize,
) -> Result<(Values, &[u8]), Refusal>
    requires lane_width { IsLaneWidth lane_width }
    requires room { N ≤ 1024 }
    requires many { count ≤ N }
    ensures read { Reads (λ x. (x.0.values, x.1.now)) result ((all count (λ _. signed lane_width)).read total bytes.now) }
    ensures count { IfOk result (λ x. length x.0.values ≡ count) }
    ensures lanes { IfOk result (λ x. x.0.lane_width ≡ lane_width) }
{
    let mut room = [0; N];
    let mut rest = bytes;
    for i in 0..count {
        let (value, after) = read_value(total, rest, lane_width)?;
        room[i] = value;
        rest = after;
    }
    Ok((Values::from_slice(alloc, lane_width, &room[..count])?, rest))
}
