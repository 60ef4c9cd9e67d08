//! Sums of frames. If no value wraps and the numbers are short, the numbers are added, and the reference as many times as there are
//! rows.
ghost use Rattle.std.specs.Prelude.{IsTrue, ◌≡◌, ℕ, ◌^◌, ◌≤◌, cond, nat_lt, is_some, IfSome, pos, ◌+ℤ◌, ◌*ℤ◌};
ghost use Rattle.transpose_order.specs.Mask.{has, count_below};
ghost use Rattle.transpose_order.specs.Place.{lane_of, step_of};
ghost use Rattle.bit_interleave.specs.Packing.{packed_value};
ghost use Rattle.frame_delta.specs.Frame.{frame_value};
ghost use Rattle.native_lanes.specs.Folds.{fold_to};
ghost use Rattle.native_lanes.specs.Frames.{IsPlain};

use crate::frame_range::top_of;
use crate::short_32::sum_of_numbers_32;
use crate::short_64::sum_of_numbers_64;
use crate::walk_16::walk_of_frame_16;
use crate::walk_32::walk_of_frame_32;
use crate::walk_64::walk_of_frame_64;
use frame_delta::For;
use transpose_order::Mask;

/// A value as many times as some of 1024 rows.
pub fn times(value: i64, count: usize) -> i128
    requires { count ≤ 1024 }
    ensures { result ≡ value *ℤ pos count }
{
    i128::from(value) * count as i128
}

/// Whether no value of a frame wraps, and its packed numbers have `most` bits at most.
fn is_short(form: &For, most: usize) -> bool
    ensures width { IsTrue result → form.now.width ≤ most }
    ensures plain { IsTrue result → (n : ℕ) → frame_value form.now n
        ≡ form.now.reference +ℤ pos (packed_value form.now.lane_width form.now.width form.now.words.numbers (lane_of form.now.lane_width n) (step_of form.now.lane_width n)) }
    ensures answers { IsPlain form.now → form.now.width ≤ most → IsTrue result }
{
    form.width() <= most && top_of(form).is_some()
}

/// A sum of numbers of a mask's rows, and a reference as many times as there are rows.
fn sum_above(reference: i64, numbers: u128, rows: &Mask) -> i128
    requires { numbers ≤ 2 ^ 68 }
    ensures { result ≡ reference *ℤ pos (count_below (has rows.now) 1024) +ℤ pos numbers }
{
    times(reference, rows.count_below(1024)) + numbers as i128
}

/// The sum of the values of a mask's rows of a frame of 32 bits. If no value wraps, numbers of at most 27 bits are added by
/// themselves; 32 of them fit in one word.
fn sum_of_frame_32(form: &For, rows: &Mask) -> i128
    requires { form.now.lane_width ≡ 32 }
    ensures { result ≡ fold_to ◌+ℤ◌ (pos 0) 1024 (λ n. cond (has rows.now n) (frame_value form.now n) (pos 0)) }
{
    if is_short(form, 27) {
        let numbers = sum_of_numbers_32(form.width(), form.words().words_32(), rows);
        return sum_above(form.reference(), u128::from(numbers), rows);
    }
    walk_of_frame_32(form).sum_of_values(rows)
}

/// The sum of the values of a mask's rows of a frame of 64 bits. If no value wraps, numbers of at most 58 bits are added by
/// themselves; 64 of them fit in one word.
fn sum_of_frame_64(form: &For, rows: &Mask) -> i128
    requires { form.now.lane_width ≡ 64 }
    ensures { result ≡ fold_to ◌+ℤ◌ (pos 0) 1024 (λ n. cond (has rows.now n) (frame_value form.now n) (pos 0)) }
{
    if is_short(form, 58) {
        let numbers = sum_of_numbers_64(form.width(), form.words().words_64(), rows);
        return sum_above(form.reference(), numbers, rows);
    }
    walk_of_frame_64(form).sum_of_values(rows)
}

/// The sum of the values of a mask's rows, or none at a lane width of 8.
pub(crate) fn sum_of_frame(form: &For, rows: &Mask) -> Option<i128>
    ensures value { IfSome result (λ sum. sum ≡ fold_to ◌+ℤ◌ (pos 0) 1024 (λ n. cond (has rows.now n) (frame_value form.now n) (pos 0))) }
    ensures answers { is_some result ≡ nat_lt 8 form.now.lane_width }
{
    match form.lane_width() {
        16 => Some(walk_of_frame_16(form).sum_of_values(rows)),
        32 => Some(sum_of_frame_32(form, rows)),
        64 => Some(sum_of_frame_64(form, rows)),
        _ => None,
    }
}
