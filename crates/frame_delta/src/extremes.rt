//! The least and the greatest of a vector's values, and distances above the least.
ghost use Rattle.std.specs.Prelude.{◌≡◌, ℕ, ◌-◌, ◌/◌, ◌^◌, ◌<◌, ◌≤◌, ◌≤ℤ◌, ◌↔◌, true, slice_index, IsTrue};
ghost use Rattle.bit_interleave.specs.Arithmetic.{least_width};
ghost use Rattle.bit_interleave.specs.Range.{AreInRange, value_at};
ghost use Rattle.frame_delta.specs.Extremes.{IsSpread, IsTightFrame};
ghost use Rattle.transpose_order.specs.Place.{IsLaneWidth};
ghost use Rattle.frame_delta.specs.Frame.{least_value, greatest_value, frame_width, gaps_above};

use bit_interleave::{gap, width_of, wrapping_sum_with};

/// The least and the greatest of 1024 values.
fn range_of(values: &[i64; 1024]) -> (i64, i64)
    ensures least { result.0 ≡ least_value values.now }
    ensures greatest { result.1 ≡ greatest_value values.now }
{
    let mut least = values[0];
    let mut greatest = values[0];
    for n in 0..1024 {
        least = least.min(values[n]);
        greatest = greatest.max(values[n]);
    }
    (least, greatest)
}

/// The least of 1024 values, and the least width that holds how far each is above it.
#[derive(Drop)]
pub(crate) struct Frame {
    pub(crate) least: i64,
    pub(crate) width: usize,
}

impl Frame {
    /// That of values in the range of `lane_width` bits.
    pub(crate) fn of(values: &[i64; 1024], lane_width: usize) -> Self
        requires lane_width { IsLaneWidth lane_width }
        requires fit { AreInRange lane_width values.now }
        ensures least { result.least ≡ least_value values.now }
        ensures width { result.width ≡ frame_width values.now }
        ensures bound { result.width ≤ lane_width }
    {
        let (least, greatest) = range_of(values);
        Frame {
            least,
            width: width_of(gap(least, greatest)),
        }
    }
}

/// How far each of 1024 values is above a reference that is above none of them.
pub(crate) fn gaps_above(reference: i64, values: &[i64; 1024]) -> [u64; 1024]
    requires { (n : ℕ) → n < 1024 → reference ≤ℤ value_at values.now n }
    ensures { result ≡ gaps_above reference values.now }
{
    let mut gaps = [0; 1024];
    for n in 0..1024 {
        gaps[n] = gap(reference, values[n]);
    }
    gaps
}

/// The least and the greatest of 1024 packed numbers.
#[derive(Drop)]
pub(crate) struct Spread {
    pub(crate) least: u64,
    pub(crate) greatest: u64,
}

/// The least and the greatest of 1024 packed numbers.
pub(crate) fn spread_of(numbers: &[u64; 1024]) -> Spread
    ensures { IsSpread (λ _. true) (slice_index numbers.now) result.least result.greatest }
{
    let mut least = numbers[0];
    let mut greatest = numbers[0];
    for n in 0..1024 {
        least = least.min(numbers[n]);
        greatest = greatest.max(numbers[n]);
    }
    Spread { least, greatest }
}

impl Spread {
    /// The least width that holds how far the greatest number is above the least, of numbers in the highest `lane_width` of 64 bits.
    pub(crate) fn width(&self, lane_width: usize) -> usize
        requires lane_width { IsLaneWidth lane_width }
        requires order { self.now.least ≤ self.now.greatest }
        ensures value { result ≡ least_width ((self.now.greatest - self.now.least) / 2 ^ (64 - lane_width)) }
        ensures bound { result ≤ 64 }
    {
        width_of((self.greatest - self.least) >> (64 - lane_width))
    }

    /// Whether packed numbers of this spread are the least form over a reference: some number is 0, the width is the
    /// least for the greatest number, and the reference plus that one doesn't wrap.
    pub(crate) fn is_tight(&self, lane_width: usize, width: usize, reference: i64) -> bool
        requires { IsLaneWidth lane_width }
        ensures { IsTrue result ↔ IsTightFrame lane_width width reference self.now.least self.now.greatest }
    {
        if self.least != 0 || width != width_of(self.greatest) {
            return false;
        }
        wrapping_sum_with(lane_width, reference, self.greatest) >= reference
    }
}
