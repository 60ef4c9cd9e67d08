//! The sum of the values that a mask has.
ghost use Rattle.std.specs.Prelude.{◌≡◌, ◌==◌, ℕ, ◌+◌, ◌-◌, ◌*◌, ◌/◌, ◌%◌, ◌^◌, ◌<◌, ◌≤◌, cond, slice_index, pos, ◌+ℤ◌};
ghost use Rattle.std.specs.Int.{bit_at};
ghost use Rattle.table_model.specs.Values.{total};
ghost use Rattle.bit_interleave.specs.Range.{value_at};
ghost use Rattle.native_lanes.specs.Folds.{fold_to};
ghost use Rattle.fused_kernels.specs.Seen.{LanesSeen, AreOnlyRead, values_looked_at};

use crate::lanes::{Lanes, next_values, rows_to_look_at};
use native_lanes::sum_of_lanes;
use transpose_order::{Mask, place_in_word, raised_if};

/// How far each number of a piece is above the least of 64 bits if its row's bit is set, otherwise 0.
#[inline(always)]
fn raised_at(numbers: &[i64; 16], words: &[u64; 16], place: usize) -> [u64; 16]
    requires { place < 64 }
    ensures { (i : ℕ) → i < 16 → pos (slice_index result i)
        ≡ cond (bit_at (slice_index words.now i) place == 1) (value_at numbers.now i +ℤ pos (2 ^ 63)) (pos 0) }
{
    let mut raised = [0; 16];
    for i in 0..16 {
        raised[i] = raised_if(words[i] >> place & 1 == 1, numbers[i]);
    }
    raised
}

/// Adds to each sum the 32 bits of a number from bit `shift` on.
#[inline(always)]
fn add_halves(sums: &mut [u64; 16], numbers: &[u64; 16], shift: usize)
    requires shift { shift < 64 }
    requires room { (i : ℕ) → i < 16 → slice_index sums.old i ≤ 2 ^ 63 }
    ensures { (i : ℕ) → i < 16 → slice_index sums.new i ≡ slice_index sums.old i + slice_index numbers.now i / 2 ^ shift % 2 ^ 32 }
{
    for i in 0..16 {
        sums[i] += numbers[i] >> shift & 0xFFFF_FFFF;
    }
}

/// The sum of the values of the rows looked at, 0 over none. The lanes have given no piece yet. The rows looked at are those of the
/// mask that are covered and not null. The halves of 32 bits of the values, raised by 2 to the power of 63, are added separately,
/// so that no sum wraps.
pub fn sum<L: Lanes>(lanes: &mut L, mask: &Mask) -> i128
    requires { (L.seen lanes.old).given ≡ 0 }
    ensures value { result ≡ total (values_looked_at (L.seen lanes.old) mask.now) }
    ensures only_read { AreOnlyRead (L.seen lanes.old) (L.seen lanes.new) }
{
    let lane_width = lanes.lane_width();
    let rows = rows_to_look_at(lanes, mask);
    let mut low = [0; 16];
    let mut high = [0; 16];
    for piece in 0..64 {
        let numbers = next_values(lanes);
        let raised = raised_at(&numbers, rows.words(), place_in_word(lane_width, piece));
        add_halves(&mut low, &raised, 0);
        add_halves(&mut high, &raised, 32);
    }
    let raised = i128::from(sum_of_lanes(&low)) + i128::from(sum_of_lanes(&high)) * (1 << 32);
    raised - (rows.count() as i128) * (1 << 63)
}
