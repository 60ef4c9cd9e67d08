//! The least and the greatest of numbers by places, sixteen rows at a time.
ghost use Rattle.std.specs.Prelude.{◌≡◌, ℕ, ◌+◌, ◌*◌, ◌%◌, ◌^◌, ◌<◌, ◌≤◌, List, min, max, pos, length, slice_index};
ghost use Rattle.std.specs.Int.{int_wrap};
ghost use Rattle.transpose_order.specs.Place.{IsLaneWidth};
ghost use Rattle.bit_interleave.specs.Arithmetic.{integer_width};
ghost use Rattle.bit_interleave.specs.Places.{by_place};
ghost use Rattle.frame_delta.specs.Extremes.{at_top, IsSpread};
ghost use Rattle.frame_delta.specs.Delta.{is_later, number_difference, AreOfPlace};

use crate::extremes::Spread;
use std::simd::prelude::*;

/// The sixteen numbers of a place.
#[inline(always)]
pub(crate) fn at(numbers: &[u64; 1024], place: usize) -> Simd<u64, 16>
    requires { place < 64 }
    ensures long { length result ≡ 16 }
    ensures lanes { (i : ℕ) → i < 16 → slice_index result i ≡ slice_index numbers.now (16 * place + i) }
{
    Simd::from_slice(&numbers[16 * place..])
}

/// Each of sixteen numbers modulo two to the power of `lane_width` and read as signed, as a number in the same order.
#[inline(always)]
pub(crate) fn ordered(lane_width: usize, lanes: Simd<u64, 16>) -> Simd<u64, 16>
    requires lane_width { IsLaneWidth lane_width }
    requires lanes { length lanes ≡ 16 }
    ensures long { length result ≡ 16 }
    ensures lanes { (i : ℕ) → i < 16 → slice_index result i ≡ at_top lane_width (int_wrap (integer_width lane_width) (pos (slice_index lanes i))) }
{
    let up = Simd::splat((64 - lane_width) as u64);
    (lanes << up) + Simd::splat(1 << 63)
}

/// The differences of the numbers of a place from those of the place before, as numbers in the same order.
#[inline(always)]
pub(crate) fn differences_at(
    lane_width: usize,
    numbers: &[u64; 1024],
    place: usize,
) -> Simd<u64, 16>
    requires lane_width { IsLaneWidth lane_width }
    requires later { 0 < place }
    requires place { place < 64 }
    ensures long { length result ≡ 16 }
    ensures lanes { (i : ℕ) → i < 16 → slice_index result i ≡ at_top lane_width (number_difference lane_width numbers.now (64 * i + place)) }
{
    ordered(lane_width, at(numbers, place) - at(numbers, place - 1))
}

/// The differences of the numbers of place 1 from those of place 0, as numbers in the same order.
#[inline(always)]
pub(crate) fn first_differences(
    lane_width: usize,
    first: [u64; 16],
    second: [u64; 16],
) -> Simd<u64, 16>
    requires { IsLaneWidth lane_width }
    ensures long { length result ≡ 16 }
    ensures lanes { (numbers : List ℕ) → AreOfPlace 0 first numbers → AreOfPlace 1 second numbers → (i : ℕ) → i < 16
        → slice_index result i ≡ at_top lane_width (number_difference lane_width numbers (64 * i + 1)) }
{
    ordered(
        lane_width,
        Simd::from_array(second) - Simd::from_array(first),
    )
}

/// The low `lane_width` bits of each of sixteen numbers.
#[inline(always)]
pub(crate) fn low_bits(lane_width: usize, lanes: Simd<u64, 16>) -> Simd<u64, 16>
    requires lane_width { IsLaneWidth lane_width }
    requires lanes { length lanes ≡ 16 }
    ensures long { length result ≡ 16 }
    ensures lanes { (i : ℕ) → i < 16 → slice_index result i ≡ slice_index lanes i % 2 ^ lane_width }
{
    lanes & Simd::splat(u64::MAX >> (64 - lane_width))
}

/// The least and the greatest of the numbers so far in each of sixteen lanes.
#[derive(Clone, Copy)]
pub(crate) struct LaneSpread {
    least: [u64; 16],
    greatest: [u64; 16],
    ghost least_count: { length least ≡ 16 },
    ghost greatest_count: { length greatest ≡ 16 },
}

impl LaneSpread {
    /// That of one number a lane.
    #[inline(always)]
    pub(crate) fn of(lanes: Simd<u64, 16>) -> Self
        requires { length lanes ≡ 16 }
        ensures least { (i : ℕ) → i < 16 → slice_index result.least i ≡ slice_index lanes i }
        ensures greatest { (i : ℕ) → i < 16 → slice_index result.greatest i ≡ slice_index lanes i }
    {
        LaneSpread {
            least: lanes.to_array(),
            greatest: lanes.to_array(),
        }
    }

    /// That with one more number a lane.
    #[inline(always)]
    pub(crate) fn with(self, lanes: Simd<u64, 16>) -> Self
        requires { length lanes ≡ 16 }
        ensures least { (i : ℕ) → i < 16 → slice_index result.least i ≡ min (slice_index self.least i) (slice_index lanes i) }
        ensures greatest { (i : ℕ) → i < 16 → slice_index result.greatest i ≡ max (slice_index self.greatest i) (slice_index lanes i) }
    {
        let least = Simd::from_array(self.least);
        let greatest = Simd::from_array(self.greatest);
        LaneSpread {
            least: least.simd_min(lanes).to_array(),
            greatest: greatest.simd_max(lanes).to_array(),
        }
    }

    /// The least and the greatest of all lanes.
    pub(crate) fn spread(self) -> Spread
        ensures low { (i : ℕ) → i < 16 → result.least ≤ slice_index self.least i }
        ensures high { (i : ℕ) → i < 16 → slice_index self.greatest i ≤ result.greatest }
        ensures low_reached { (i : ℕ) × (i < 16) × (result.least ≡ slice_index self.least i) }
        ensures high_reached { (i : ℕ) × (i < 16) × (result.greatest ≡ slice_index self.greatest i) }
    {
        let mut least = self.least[0];
        let mut greatest = self.greatest[0];
        for i in 0..16 {
            least = least.min(self.least[i]);
            greatest = greatest.max(self.greatest[i]);
        }
        Spread { least, greatest }
    }
}

/// The least and the greatest of the numbers at later steps of their lanes, of numbers by places.
pub(crate) fn later_spread(lane_width: usize, numbers: &[u64; 1024]) -> Spread
    requires { IsLaneWidth lane_width }
    ensures { IsSpread (is_later lane_width) (λ n. by_place numbers.now n) result.least result.greatest }
{
    let mut so_far = LaneSpread::of(at(numbers, 1));
    for place in 2..64 {
        if place & (lane_width - 1) != 0 {
            so_far = so_far.with(at(numbers, place));
        }
    }
    so_far.spread()
}
