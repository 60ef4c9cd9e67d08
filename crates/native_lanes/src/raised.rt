//! Values from numbers that say how far they are above the least of a lane's bits.
ghost use Rattle.std.specs.Prelude.{◌≡◌, ℕ, ◌*◌, ◌^◌, ◌<◌, ◌≤◌, ◌&&◌, cond, nat_le, nat_lt, ℤ, pos, ◌+ℤ◌, ◌-ℤ◌, Some, None};
ghost use Rattle.std.specs.Int.{int_min, int_max};
ghost use Rattle.transpose_order.specs.Mask.{has, count_below};
ghost use Rattle.native_lanes.specs.Between.{between};

use transpose_order::Mask;

/// The value that is this far above the least of a lane's bits, which have `half` and as many numbers again; none if a mask has no
/// row.
pub(crate) fn value_above(rows: &Mask, number: u64, half: u64) -> Option<i64>
    requires half { half ≤ 2 ^ 63 }
    requires number { number < 2 * half }
    ensures { result ≡ cond (nat_lt 0 (count_below (has rows.now) 1024)) (Some (pos number -ℤ pos half)) None }
{
    if rows.count_below(1024) == 0 {
        return None;
    }
    Some((i128::from(number) - i128::from(half)) as i64)
}

/// How far a value is above the least of a lane's bits, which have `half` and as many numbers again.
fn above_least(half: u64, value: i64) -> i128
    requires { half ≤ 2 ^ 63 }
    ensures { result ≡ value +ℤ pos half }
{
    i128::from(value) + i128::from(half)
}

/// The number from 0 to `top` that is nearest to a number.
fn nearest(number: i128, top: u64) -> u64
    ensures { pos result ≡ int_min (int_max number (pos 0)) (pos top) }
{
    if number < 0 {
        return 0;
    }
    if i128::from(top) < number {
        return top;
    }
    number as u64
}

/// The first and the last of a lane's numbers, of which there are `half` and as many again, for the values that are neither below
/// `low` nor above `high`: how far these are above the least of the lane's bits. If there is no such number, the first is above the
/// last.
pub(crate) fn raised_range(half: u64, low: i64, high: i64) -> (u64, u64)
    requires some { 0 < half }
    requires half { half ≤ 2 ^ 63 }
    ensures first { result.0 < 2 * half }
    ensures last { result.1 < 2 * half }
    ensures range { (number : ℕ) (value : ℤ) → number < 2 * half → pos number ≡ value +ℤ pos half
        → (nat_le result.0 number && nat_le number result.1) ≡ between low high value }
{
    let top = half - 1 + half;
    let first = above_least(half, low);
    let last = above_least(half, high);
    if i128::from(top) < first || last < 0 {
        return (1, 0);
    }
    (nearest(first, top), nearest(last, top))
}
