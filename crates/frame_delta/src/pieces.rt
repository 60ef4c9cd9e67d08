//! Lanes of sums to the rows of a vector, four steps at a time.
ghost use Rattle.std.specs.Prelude.{◌≡◌, ◌≢◌, ℕ, ◌+◌, ◌*◌, ◌/◌, ◌%◌, ◌^◌, ◌<◌, pos, length, slice_index};
ghost use Rattle.std.specs.Int.{int_wrap};
ghost use Rattle.transpose_order.specs.Place.{IsLaneWidth};
ghost use Rattle.bit_interleave.specs.Arithmetic.{integer_width};
ghost use Rattle.bit_interleave.specs.Range.{value_at};

use bit_interleave::wrap;
use std::simd::prelude::*;

/// The first eight lanes of two pieces by turns.
#[inline(always)]
fn first_by_turns(a: Simd<u64, 16>, b: Simd<u64, 16>) -> Simd<u64, 16>
    requires left { length a ≡ 16 }
    requires right { length b ≡ 16 }
    ensures long { length result ≡ 16 }
    ensures even { (i : ℕ) → i < 8 → slice_index result (2 * i) ≡ slice_index a i }
    ensures odd { (i : ℕ) → i < 8 → slice_index result (2 * i + 1) ≡ slice_index b i }
{
    a.shuffle(b, [0, 16, 1, 17, 2, 18, 3, 19, 4, 20, 5, 21, 6, 22, 7, 23])
}

/// The last eight lanes of two pieces by turns.
#[inline(always)]
fn last_by_turns(a: Simd<u64, 16>, b: Simd<u64, 16>) -> Simd<u64, 16>
    requires left { length a ≡ 16 }
    requires right { length b ≡ 16 }
    ensures long { length result ≡ 16 }
    ensures even { (i : ℕ) → i < 8 → slice_index result (2 * i) ≡ slice_index a (i + 8) }
    ensures odd { (i : ℕ) → i < 8 → slice_index result (2 * i + 1) ≡ slice_index b (i + 8) }
{
    a.shuffle(
        b,
        [8, 24, 9, 25, 10, 26, 11, 27, 12, 28, 13, 29, 14, 30, 15, 31],
    )
}

/// Writes sixteen numbers, each modulo two to the power of `lane_width` and read as signed, by fours to four rows of 64: those of
/// part `part` of the vector, at the places of part `places` of the row.
#[inline(always)]
fn put_fours(
    lane_width: usize,
    lanes: Simd<u64, 16>,
    part: usize,
    places: usize,
    values: &mut [i64; 1024],
)
    requires lane_width { IsLaneWidth lane_width }
    requires lanes { length lanes ≡ 16 }
    requires part { part < 4 }
    requires places { places < 16 }
    ensures long { length values.new ≡ 1024 }
    ensures written { (k : ℕ) → k < 16 → value_at values.new (256 * part + 64 * (k / 4) + 4 * places + k % 4) ≡ int_wrap (integer_width lane_width) (pos (slice_index lanes k)) }
    ensures parts { (n : ℕ) → n / 256 ≢ part → value_at values.new n ≡ value_at values.old n }
    ensures others { (n : ℕ) → n % 64 / 4 ≢ places → value_at values.new n ≡ value_at values.old n }
{
    let numbers = lanes.to_array();
    for k in 0..16 {
        values[256 * part + 64 * (k / 4) + 4 * places + k % 4] = wrap(lane_width, numbers[k]);
    }
}

/// Writes the sixteen lanes of four pieces, each modulo two to the power of `lane_width` and read as signed, to their rows, which
/// are at four neighbouring places of each 64, those of part `places`.
#[inline(always)]
pub(crate) fn put_four(
    lane_width: usize,
    a: Simd<u64, 16>,
    b: Simd<u64, 16>,
    c: Simd<u64, 16>,
    d: Simd<u64, 16>,
    places: usize,
    values: &mut [i64; 1024],
)
    requires lane_width { IsLaneWidth lane_width }
    requires first { length a ≡ 16 }
    requires second { length b ≡ 16 }
    requires third { length c ≡ 16 }
    requires fourth { length d ≡ 16 }
    requires places { places < 16 }
    ensures long { length values.new ≡ 1024 }
    ensures first { (i : ℕ) → i < 16 → value_at values.new (64 * i + 4 * places) ≡ int_wrap (integer_width lane_width) (pos (slice_index a i)) }
    ensures second { (i : ℕ) → i < 16 → value_at values.new (64 * i + 4 * places + 1) ≡ int_wrap (integer_width lane_width) (pos (slice_index b i)) }
    ensures third { (i : ℕ) → i < 16 → value_at values.new (64 * i + 4 * places + 2) ≡ int_wrap (integer_width lane_width) (pos (slice_index c i)) }
    ensures fourth { (i : ℕ) → i < 16 → value_at values.new (64 * i + 4 * places + 3) ≡ int_wrap (integer_width lane_width) (pos (slice_index d i)) }
    ensures others { (n : ℕ) → n % 64 / 4 ≢ places → value_at values.new n ≡ value_at values.old n }
{
    let low_even = first_by_turns(a, c);
    let low_odd = first_by_turns(b, d);
    let high_even = last_by_turns(a, c);
    let high_odd = last_by_turns(b, d);
    let part0 = first_by_turns(low_even, low_odd);
    let part1 = last_by_turns(low_even, low_odd);
    let part2 = first_by_turns(high_even, high_odd);
    let part3 = last_by_turns(high_even, high_odd);
    put_fours(lane_width, part0, 0, places, values);
    put_fours(lane_width, part1, 1, places, values);
    put_fours(lane_width, part2, 2, places, values);
    put_fours(lane_width, part3, 3, places, values);
}

/// Each lane and a number, modulo two to the power of 64.
#[inline(always)]
pub(crate) fn raised(lanes: Simd<u64, 16>, by: u64) -> Simd<u64, 16>
    requires { length lanes ≡ 16 }
    ensures long { length result ≡ 16 }
    ensures lanes { (i : ℕ) → i < 16 → slice_index result i ≡ (slice_index lanes i + by) % 2 ^ 64 }
{
    lanes + Simd::splat(by)
}

/// The lanes of two pieces added, modulo two to the power of 64.
#[inline(always)]
pub(crate) fn added(a: Simd<u64, 16>, b: Simd<u64, 16>) -> Simd<u64, 16>
    requires left { length a ≡ 16 }
    requires right { length b ≡ 16 }
    ensures long { length result ≡ 16 }
    ensures lanes { (i : ℕ) → i < 16 → slice_index result i ≡ (slice_index a i + slice_index b i) % 2 ^ 64 }
{
    a + b
}
