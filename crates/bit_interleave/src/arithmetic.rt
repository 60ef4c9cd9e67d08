//! Arithmetic modulo a power of two, read as signed, and the least width of a number.
ghost use Rattle.std.specs.Prelude.{◌≡◌, ℕ, ◌+◌, ◌<◌, ◌≤◌, ◌^◌, pos, ◌+ℤ◌, ◌-ℤ◌, ◌≤ℤ◌, length, slice_index};
ghost use Rattle.std.specs.Int.{int_gap, int_wrap};
ghost use Rattle.transpose_order.specs.Place.{IsLaneWidth};
ghost use Rattle.bit_interleave.specs.Arithmetic.{integer_width, least_width};
ghost use Rattle.bit_interleave.specs.Packing.{sixteen_of};

use std::simd::prelude::*;

/// The number modulo two to the power of `lane_width`, which is 8, 16, 32 or 64, read as signed.
pub fn wrap(lane_width: usize, number: u64) -> i64
    requires { IsLaneWidth lane_width }
    ensures { result ≡ int_wrap (integer_width lane_width) (pos number) }
{
    let half = 1 << (lane_width - 1);
    let mask = u64::MAX >> (64 - lane_width);
    (number.wrapping_add(half) & mask)
        .wrapping_sub(half)
        .cast_signed()
}

/// Each of sixteen numbers modulo two to the power of `lane_width`, which is 8, 16, 32 or 64, read as signed.
#[inline(always)]
pub fn wrap_lanes(lane_width: usize, lanes: Simd<u64, 16>) -> Simd<i64, 16>
    requires lane_width { IsLaneWidth lane_width }
    requires lanes { length lanes ≡ 16 }
    ensures { result ≡ sixteen_of (λ i. int_wrap (integer_width lane_width) (pos (slice_index lanes i))) }
{
    let numbers = lanes.to_array();
    let mut wrapped = [0; 16];
    for i in 0..16 {
        wrapped[i] = wrap(lane_width, numbers[i]);
    }
    Simd::from_array(wrapped)
}

/// The sum with a packed number, which is unsigned, modulo two to the power of `lane_width`, which is 8, 16, 32 or 64,
/// read as signed.
pub fn wrapping_sum_with(lane_width: usize, a: i64, number: u64) -> i64
    requires { IsLaneWidth lane_width }
    ensures { result ≡ int_wrap (integer_width lane_width) (a +ℤ pos number) }
{
    wrap(lane_width, a.cast_unsigned().wrapping_add(number))
}

/// The difference modulo two to the power of `lane_width`, which is 8, 16, 32 or 64, read as signed.
pub fn wrapping_difference(lane_width: usize, a: i64, b: i64) -> i64
    requires { IsLaneWidth lane_width }
    ensures { result ≡ int_wrap (integer_width lane_width) (a -ℤ b) }
{
    wrap(lane_width, a.wrapping_sub(b).cast_unsigned())
}

/// How far a value is above one that is not greater.
pub fn gap(least: i64, value: i64) -> u64
    requires { least ≤ℤ value }
    ensures { result ≡ int_gap least value }
{
    value.wrapping_sub(least).cast_unsigned()
}

/// The least width in bits, 0 to 64, that holds every number up to `max`.
pub fn width_of(max: u64) -> usize
    ensures value { result ≡ least_width max }
    ensures holds { max < 2 ^ result }
    ensures least { (width : ℕ) → max < 2 ^ width → result ≤ width }
    ensures bounded { result ≤ 64 }
{
    64 - max.leading_zeros() as usize
}
