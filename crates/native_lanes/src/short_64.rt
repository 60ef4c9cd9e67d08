//! Sums of packed numbers of 64 bits that are so short that those of all 64 steps are added in one word a lane.
ghost use Rattle.std.specs.Prelude.{IsTrue, ◌≡◌, ◌==◌, ℕ, ◌+◌, ◌*◌, ◌^◌, ◌<◌, ◌≤◌, cond, length, slice_index};
ghost use Rattle.std.specs.Int.{bit_at};
ghost use Rattle.transpose_order.specs.Mask.{has};
ghost use Rattle.transpose_order.specs.Place.{lane_of, step_of};
ghost use Rattle.bit_interleave.specs.Packing.{packed_value};
ghost use Rattle.native_lanes.specs.Folds.{fold_to};

use crate::native_64::numbers_64;
use crate::walk_64::{chosen, lanes_of_mask_64};
use transpose_order::Mask;

/// Adds to each lane's sum its number.
#[inline(always)]
fn add_all(sums: &mut [u64; 16], numbers: &[u64; 16])
    requires { (lane : ℕ) → lane < 16 → slice_index sums.old lane + slice_index numbers.now lane < 2 ^ 64 }
    ensures { (lane : ℕ) → lane < 16 → slice_index sums.new lane ≡ slice_index sums.old lane + slice_index numbers.now lane }
{
    for i in 0..16 {
        sums[i] += numbers[i];
    }
}

/// Adds the number of each lane whose bit of a step is set to the lane's sum.
#[inline(always)]
fn add_taken(sums: &mut [u64; 16], numbers: &[u64; 16], rows: &[u64; 16], step: usize)
    requires step { step < 64 }
    requires sums { (lane : ℕ) → lane < 16 → slice_index sums.old lane + slice_index numbers.now lane < 2 ^ 64 }
    ensures { (lane : ℕ) → lane < 16 → slice_index sums.new lane
        ≡ slice_index sums.old lane + cond (bit_at (slice_index rows.now lane) step == 1) (slice_index numbers.now lane) 0 }
{
    for i in 0..16 {
        sums[i] += chosen(rows[i], step, numbers[i], 0);
    }
}

/// Adds the number of each lane whose bit of a step is set to the lane's sum; whether the bits of all lanes are set is known.
#[inline(always)]
fn add_step(are_all: bool, sums: &mut [u64; 16], numbers: &[u64; 16], rows: &[u64; 16], step: usize)
    requires all { IsTrue are_all → (lane : ℕ) → lane < 16 → bit_at (slice_index rows.now lane) step ≡ 1 }
    requires step { step < 64 }
    requires sums { (lane : ℕ) → lane < 16 → slice_index sums.old lane + slice_index numbers.now lane < 2 ^ 64 }
    ensures { (lane : ℕ) → lane < 16 → slice_index sums.new lane
        ≡ slice_index sums.old lane + cond (bit_at (slice_index rows.now lane) step == 1) (slice_index numbers.now lane) 0 }
{
    if are_all {
        add_all(sums, numbers);
    } else {
        add_taken(sums, numbers, rows, step);
    }
}

/// The sum of the sums of 16 lanes.
fn sum_of_sums(sums: &[u64; 16]) -> u128
    ensures sum { result ≡ fold_to ◌+◌ 0 16 (slice_index sums.now) }
    ensures bound { result ≤ 2 ^ 68 }
{
    let mut sum = 0;
    for i in 0..16 {
        sum += u128::from(sums[i]);
    }
    sum
}

/// The sum of the packed numbers of a mask's rows, of 16 words for each bit of the width, which is at most 58, so that 64 numbers
/// of a lane fit one word. If the mask has all rows, no row's bit is looked at.
pub(crate) fn sum_of_numbers_64(width: usize, words: &[u64], rows: &Mask) -> u128
    requires width { width ≤ 58 }
    requires words { length words.now ≡ width * 16 }
    ensures sum { result ≡ fold_to ◌+◌ 0 1024 (λ n. cond (has rows.now n) (packed_value 64 width words.now (lane_of 64 n) (step_of 64 n)) 0) }
    ensures bound { result ≤ 2 ^ 68 }
{
    let lanes = lanes_of_mask_64(rows);
    let are_all = rows.is_all();
    let mut sums = [0; 16];
    for step in 0..64 {
        let numbers = numbers_64(width, words, step);
        add_step(are_all, &mut sums, &numbers, &lanes, step);
    }
    sum_of_sums(&sums)
}
