//! Comparisons of each row's value with a range of numbers.
ghost use Rattle.std.specs.Prelude.{◌≡◌, ◌==◌, ℕ, ◌+◌, ◌*◌, ◌<◌, ◌&&◌, ◌||◌, not, slice_index, ◌-◌, ◌^◌, ℤ, pos, negsuc, ◌≤ℤ◌, int_le, FitsSigned};
ghost use Rattle.std.specs.Int.{bit_at, w64};
ghost use Rattle.transpose_order.specs.Mask.{rows_of};
ghost use Rattle.bit_interleave.specs.Range.{value_at};
ghost use Rattle.fused_kernels.specs.Seen.{LanesSeen, AreLanes, AreOnlyRead, looked_at, between};

use crate::lanes::{Lanes, next_values, rows_to_look_at};
use native_lanes::with_bit;
use transpose_order::{Mask, place_in_word};

/// Whether a number is neither below `low` nor above `high`.
#[inline(always)]
pub(crate) fn is_between(low: i64, high: i64, number: i64) -> bool
    ensures { result ≡ between low high number }
{
    low <= number && number <= high
}

/// Sets the bit at a place of each word whose lane is neither below `low` nor above `high`.
#[inline(always)]
fn mark(found: &mut [u64; 16], numbers: &[i64; 16], low: i64, high: i64, place: usize)
    requires { place < 64 }
    ensures { (j p : ℕ) → j < 16 → p < 64 → (bit_at (slice_index found.new j) p == 1)
        ≡ ((between low high (value_at numbers.now j) && (p == place)) || (bit_at (slice_index found.old j) p == 1)) }
{
    for i in 0..16 {
        found[i] = with_bit(found[i], place, is_between(low, high, numbers[i]));
    }
}

/// The rows whose value is neither below `low` nor above `high`, whether a kernel looks at them or not.
fn rows_between<L: Lanes>(lanes: &mut L, low: i64, high: i64) -> Mask
    requires { (L.seen lanes.old).given ≡ 0 }
    ensures rows { result ≡ rows_of (λ n. between low high (value_at (L.seen lanes.old).values n)) }
    ensures only_read { AreOnlyRead (L.seen lanes.old) (L.seen lanes.new) }
{
    let lane_width = lanes.lane_width();
    let mut found = [0; 16];
    for piece in 0..64 {
        let numbers = next_values(lanes);
        mark(
            &mut found,
            &numbers,
            low,
            high,
            place_in_word(lane_width, piece),
        );
    }
    Mask::from_words(found)
}

/// The least number of 64 bits that isn't below a number, which is at most the greatest of 64 bits.
pub(crate) fn first_from(low: i128) -> i64
    requires { low ≤ℤ pos (2 ^ 63 - 1) }
    ensures { (value : ℤ) → FitsSigned w64 value → int_le result value ≡ int_le low value }
{
    if low < i128::from(i64::MIN) {
        return i64::MIN;
    }
    low as i64
}

/// The greatest number of 64 bits that isn't above a number, which is at least the least of 64 bits.
pub(crate) fn last_up_to(high: i128) -> i64
    requires { negsuc (2 ^ 63 - 1) ≤ℤ high }
    ensures { (value : ℤ) → FitsSigned w64 value → int_le value result ≡ int_le value high }
{
    if i128::from(i64::MAX) < high {
        return i64::MAX;
    }
    high as i64
}

/// Of the rows looked at, those whose value is neither below `low` nor above `high`, and the others. The lanes have given no piece
/// yet. The rows looked at are those of the mask that are covered and not null. If no number of 64 bits is in the range, no value
/// is read.
pub fn compare_range<L: Lanes>(lanes: &mut L, low: i128, high: i128, mask: &Mask) -> (Mask, Mask)
    requires { (L.seen lanes.old).given ≡ 0 }
    ensures yes { result.0 ≡ rows_of (λ n. looked_at (L.seen lanes.old) mask.now n && between low high (value_at (L.seen lanes.old).values n)) }
    ensures no { result.1 ≡ rows_of (λ n. looked_at (L.seen lanes.old) mask.now n && not (between low high (value_at (L.seen lanes.old).values n))) }
    ensures form { AreLanes (L.seen lanes.old) }
    ensures only_read { AreOnlyRead (L.seen lanes.old) (L.seen lanes.new) }
{
    let rows = rows_to_look_at(lanes, mask);
    if i128::from(i64::MAX) < low || high < i128::from(i64::MIN) {
        return (Mask::none(), rows);
    }
    let found = rows_between(lanes, first_from(low), last_up_to(high));
    (rows.and(&found), rows.and_not(&found))
}
