//! Sums of packed numbers of 32 bits that are so short that those of all 32 steps are added in one word a lane.
ghost use Rattle.std.specs.Prelude.{IsTrue, ◌≡◌, ◌==◌, ℕ, ◌+◌, ◌*◌, ◌^◌, ◌<◌, ◌≤◌, cond, length, slice_index};
ghost use Rattle.std.specs.Int.{bit_at};
ghost use Rattle.transpose_order.specs.Mask.{has};
ghost use Rattle.transpose_order.specs.Place.{lane_of, step_of};
ghost use Rattle.bit_interleave.specs.Packing.{packed_value};
ghost use Rattle.native_lanes.specs.Folds.{fold_to};

use crate::native_32::numbers_32;
use crate::walk_32::{chosen, lanes_of_mask_32, sum_of_lanes};
use transpose_order::Mask;

/// Adds to each lane's sum its number.
#[inline(always)]
fn add_all(sums: &mut [u32; 32], numbers: &[u32; 32])
    requires { (lane : ℕ) → lane < 32 → slice_index sums.old lane + slice_index numbers.now lane < 2 ^ 32 }
    ensures { (lane : ℕ) → lane < 32 → slice_index sums.new lane ≡ slice_index sums.old lane + slice_index numbers.now lane }
{
    for i in 0..32 {
        sums[i] += numbers[i];
    }
}

/// Adds the number of each lane whose bit of a step is set to the lane's sum.
#[inline(always)]
fn add_taken(sums: &mut [u32; 32], numbers: &[u32; 32], rows: &[u32; 32], step: usize)
    requires step { step < 32 }
    requires sums { (lane : ℕ) → lane < 32 → slice_index sums.old lane + slice_index numbers.now lane < 2 ^ 32 }
    ensures { (lane : ℕ) → lane < 32 → slice_index sums.new lane
        ≡ slice_index sums.old lane + cond (bit_at (slice_index rows.now lane) step == 1) (slice_index numbers.now lane) 0 }
{
    for i in 0..32 {
        sums[i] += chosen(rows[i], step, numbers[i], 0);
    }
}

/// Adds the number of each lane whose bit of a step is set to the lane's sum; whether the bits of all lanes are set is known.
#[inline(always)]
fn add_step(are_all: bool, sums: &mut [u32; 32], numbers: &[u32; 32], rows: &[u32; 32], step: usize)
    requires all { IsTrue are_all → (lane : ℕ) → lane < 32 → bit_at (slice_index rows.now lane) step ≡ 1 }
    requires step { step < 32 }
    requires sums { (lane : ℕ) → lane < 32 → slice_index sums.old lane + slice_index numbers.now lane < 2 ^ 32 }
    ensures { (lane : ℕ) → lane < 32 → slice_index sums.new lane
        ≡ slice_index sums.old lane + cond (bit_at (slice_index rows.now lane) step == 1) (slice_index numbers.now lane) 0 }
{
    if are_all {
        add_all(sums, numbers);
    } else {
        add_taken(sums, numbers, rows, step);
    }
}

/// The sum of the packed numbers of a mask's rows, of 32 words for each bit of the width, which is at most 27, so that 32 numbers
/// of a lane fit one word. If the mask has all rows, no row's bit is looked at.
pub(crate) fn sum_of_numbers_32(width: usize, words: &[u32], rows: &Mask) -> u64
    requires width { width ≤ 27 }
    requires words { length words.now ≡ width * 32 }
    ensures sum { result ≡ fold_to ◌+◌ 0 1024 (λ n. cond (has rows.now n) (packed_value 32 width words.now (lane_of 32 n) (step_of 32 n)) 0) }
    ensures bound { result ≤ 2 ^ 37 }
{
    let lanes = lanes_of_mask_32(rows);
    let are_all = rows.is_all();
    let mut sums = [0; 32];
    for step in 0..32 {
        let numbers = numbers_32(width, words, step);
        add_step(are_all, &mut sums, &numbers, &lanes, step);
    }
    sum_of_lanes(&sums)
}
