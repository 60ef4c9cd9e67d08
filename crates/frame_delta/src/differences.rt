//! The differences of neighbours within the lanes of a vector. A lane is as many rows one after another as it has bits.
ghost use Rattle.std.specs.Prelude.{◌≡◌, ℕ, ◌/◌, ◌<◌, ◌-ℤ◌, ◌↔◌, true, false, slice_index_or, IsTrue, IfOk};
ghost use Rattle.std.specs.Int.{int_wrap};
ghost use Rattle.transpose_order.specs.Place.{IsLaneWidth, row_at};
ghost use Rattle.bit_interleave.specs.Arithmetic.{integer_width};
ghost use Rattle.bit_interleave.specs.Places.{by_place};
ghost use Rattle.bit_interleave.specs.Range.{value_at};
ghost use Rattle.frame_delta.specs.Delta.{is_later, difference_at, differences_within, bases_of};

use crate::spans::{LaneSpread, at};
use bit_interleave::{Values, wrapping_difference};
use std::alloc::{AllocError, Global};
use transpose_order::row_at;

/// The difference of a row's value from the row before.
fn difference_at(lane_width: usize, values: &[i64; 1024], row: usize) -> i64
    requires lane_width { IsLaneWidth lane_width }
    requires positive { 0 < row }
    requires row { row < 1024 }
    ensures { result ≡ difference_at lane_width values.now row }
{
    wrapping_difference(lane_width, values[row], values[row - 1])
}

/// The difference of each row after the first from the row before, and 0 at the first.
fn all_differences(lane_width: usize, values: &[i64; 1024]) -> [i64; 1024]
    requires { IsLaneWidth lane_width }
    ensures { (n : ℕ) → 0 < n → n < 1024 → value_at result n ≡ difference_at lane_width values.now n }
{
    let mut differences = [0; 1024];
    for row in 1..1024 {
        differences[row] = difference_at(lane_width, values, row);
    }
    differences
}

/// Gives one value to each row at step 0 of its lane.
pub(crate) fn fill_first_steps<T: Copy>(lane_width: usize, value: T, rows: &mut [T; 1024])
    requires { IsLaneWidth lane_width }
    ensures first { (n : ℕ) (other : T) → n < 1024 → is_later lane_width n ≡ false → slice_index_or rows.new n other ≡ value }
    ensures later { (n : ℕ) (other : T) → is_later lane_width n ≡ true → slice_index_or rows.new n other ≡ slice_index_or rows.old n other }
{
    for lane in 0..1024 / lane_width {
        rows[lane_width * lane] = value;
    }
}

/// The difference at each row, and at step 0, which has none, that of row 1.
pub(crate) fn differences_within(lane_width: usize, values: &[i64; 1024]) -> [i64; 1024]
    requires { IsLaneWidth lane_width }
    ensures { result ≡ differences_within lane_width values.now }
{
    let mut differences = all_differences(lane_width, values);
    let any = differences[1];
    fill_first_steps(lane_width, any, &mut differences);
    differences
}

/// A lane's first value less the least delta.
fn base_at(lane_width: usize, least: i64, values: &[i64; 1024], lane: usize) -> i64
    requires lane_width { IsLaneWidth lane_width }
    requires lane { lane < 1024 / lane_width }
    ensures { result ≡ int_wrap (integer_width lane_width) (value_at values.now (row_at lane_width lane 0) -ℤ least) }
{
    wrapping_difference(lane_width, values[row_at(lane_width, lane, 0)], least)
}

/// Each lane's first value less the least delta, in lane order, at the lane width.
pub(crate) fn bases_of(
    alloc: Global,
    lane_width: usize,
    least: i64,
    values: &[i64; 1024],
) -> Result<Values, AllocError>
    requires { IsLaneWidth lane_width }
    ensures { IfOk result (λ bases. bases ≡ record { lane_width = lane_width; values = bases_of lane_width least values.now }) }
{
    let lanes = 1024 / lane_width;
    let mut bases = [0; 128];
    for lane in 0..lanes {
        bases[lane] = base_at(lane_width, least, values, lane);
    }
    Values::from_slice(alloc, lane_width, &bases[..lanes])
}

/// Whether each packed number at step 0 is 0, of numbers by places.
pub(crate) fn starts_at_zero(lane_width: usize, numbers: &[u64; 1024]) -> bool
    requires { IsLaneWidth lane_width }
    ensures { IsTrue result ↔ ((n : ℕ) → n < 1024 → is_later lane_width n ≡ false → by_place numbers.now n ≡ 0) }
{
    for place in 0..64 {
        if place & (lane_width - 1) == 0
            && LaneSpread::of(at(numbers, place)).spread().greatest != 0
        {
            return false;
        }
    }
    true
}
