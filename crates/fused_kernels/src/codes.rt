//! Set functions and comparisons of dictionaries, by the codes.
ghost use Rattle.std.specs.Prelude.{IsTrue, ◌≡◌, ◌↔◌, ◌==◌, ℕ, ◌*◌, ◌^◌, ◌<◌, ◌≤◌, cond, length, slice_index, pos, ◌+ℤ◌, ◌-ℤ◌, ◌≤ℤ◌};
ghost use Rattle.std.specs.Int.{bit_at};
ghost use Rattle.transpose_order.specs.Mask.{has, rows_of};
ghost use Rattle.bit_interleave.specs.Range.{AreInRange, value_at};
ghost use Rattle.run_dictionary.specs.Dict.{code_at, dict_value};
ghost use Rattle.native_lanes.specs.Between.{between};
ghost use Rattle.native_lanes.specs.Folds.{fold_to};
ghost use Rattle.native_lanes.specs.Walks.{number_of_row, turned};
ghost use Rattle.table_model.specs.Extreme.{is_least};
ghost use Rattle.native_lanes.specs.Extremes.{extreme_at};

use native_lanes::{Walk16, lanes_of_mask_16, numbers_16, rows_between_16};
use run_dictionary::Dict;
use table_model::Extreme;
use transpose_order::{Mask, raised_if};

/// The walk whose numbers are the codes of a dictionary's rows.
fn walk_of_codes(form: &Dict) -> Walk16<'_>
    ensures { (n : ℕ) → n < 1024 → number_of_row result n ≡ code_at form.now n }
{
    Walk16::new(form.width(), form.codes().words_16(), false, [0; 64], 0)
}

/// A code, or, if the least is asked for, how far it is below the greatest of 16 bits.
#[inline(always)]
fn turned_code(side: Extreme, code: u16) -> u16
    ensures { result ≡ turned 16 (is_least side) code }
{
    if side.is_least() {
        u16::MAX - code
    } else {
        code
    }
}

/// The least or the greatest value of a mask's rows, none over none. It is that of the least or the greatest code, since a
/// dictionary's values ascend.
#[inline(always)]
pub(crate) fn extreme_of_codes(side: Extreme, form: &Dict, rows: &Mask) -> Option<i64>
    ensures { result ≡ extreme_at side rows.now (dict_value form.now) }
{
    let values = form.values();
    if rows.count_below(1024) == 0 {
        return None;
    }
    let found = walk_of_codes(form).greatest(side.is_least(), rows);
    Some(values.get(usize::from(turned_code(side, found))))
}

/// How far the values of a step's codes are above the least of 64 bits, added up if the lane's bit of the step is set.
#[inline(always)]
fn sum_of_step(values: &[i64], codes: &[u16; 64], rows: &[u16; 64], step: usize) -> u128
    requires step { step < 16 }
    requires codes { (lane : ℕ) → lane < 64 → slice_index codes.now lane < length values.now }
    ensures sum { pos result ≡ fold_to ◌+ℤ◌ (pos 0) 64 (λ lane.
        cond (bit_at (slice_index rows.now lane) step == 1) (value_at values.now (slice_index codes.now lane) +ℤ pos (2 ^ 63)) (pos 0)) }
    ensures bound { result ≤ 2 ^ 64 * 64 }
{
    let mut sum = 0;
    for i in 0..64 {
        let value = values[usize::from(codes[i])];
        sum += u128::from(raised_if(rows[i] >> step & 1 == 1, value));
    }
    sum
}

/// How far the values of a mask's rows are above the least of 64 bits, added up.
fn raised_sum_of_codes(form: &Dict, rows: &Mask) -> u128
    ensures sum { pos result ≡ fold_to ◌+ℤ◌ (pos 0) 1024 (λ n. cond (has rows.now n) (dict_value form.now n +ℤ pos (2 ^ 63)) (pos 0)) }
    ensures bound { result ≤ 2 ^ 64 * 1024 }
{
    let width = form.width();
    let words = form.codes().words_16();
    let mut room = [0; 1024];
    let values = form.values().in_room(&mut room);
    let lanes = lanes_of_mask_16(rows);
    let mut sum = 0;
    for step in 0..16 {
        let codes = numbers_16(width, words, step);
        sum += sum_of_step(values, &codes, &lanes, step);
    }
    sum
}

/// The least number of 32 bits, signed.
const LEAST_NARROW: i64 = -0x8000_0000;

/// The greatest number of 32 bits, signed.
const GREATEST_NARROW: i64 = 0x7FFF_FFFF;

/// Whether the values of a dictionary are in the range of 32 bits: its ends are, since its values ascend.
fn are_narrow(form: &Dict) -> bool
    ensures { IsTrue result ↔ AreInRange 32 form.now.values }
{
    let values = form.values();
    LEAST_NARROW <= values.get(0) && values.get(values.len() - 1) <= GREATEST_NARROW
}

/// A value if it is taken, otherwise 0.
#[inline(always)]
fn value_if(taken: bool, value: i64) -> i64
    ensures { result ≡ cond taken value (pos 0) }
{
    if taken { value } else { 0 }
}

/// The values of a step's codes, of a dictionary of values of 32 bits, added up if the lane's bit of the step is set.
#[inline(always)]
fn narrow_sum_of_step(values: &[i64], codes: &[u16; 64], rows: &[u16; 64], step: usize) -> i64
    requires step { step < 16 }
    requires codes { (lane : ℕ) → lane < 64 → slice_index codes.now lane < length values.now }
    requires narrow { AreInRange 32 values.now }
    ensures sum { result ≡ fold_to ◌+ℤ◌ (pos 0) 64 (λ lane.
        cond (bit_at (slice_index rows.now lane) step == 1) (value_at values.now (slice_index codes.now lane)) (pos 0)) }
    ensures least { (pos 0 -ℤ pos (2 ^ 31 * 64)) ≤ℤ result }
    ensures most { result ≤ℤ pos (2 ^ 31 * 64) }
{
    let mut sum: i64 = 0;
    for i in 0..64 {
        let value = values[usize::from(codes[i])];
        sum += value_if(rows[i] >> step & 1 == 1, value);
    }
    sum
}

/// The sum of the values of a mask's rows, of a dictionary of values of 32 bits.
fn narrow_sum_of_codes(form: &Dict, rows: &Mask) -> i64
    requires { AreInRange 32 form.now.values }
    ensures { result ≡ fold_to ◌+ℤ◌ (pos 0) 1024 (λ n. cond (has rows.now n) (dict_value form.now n) (pos 0)) }
{
    let width = form.width();
    let words = form.codes().words_16();
    let mut room = [0; 1024];
    let values = form.values().in_room(&mut room);
    let lanes = lanes_of_mask_16(rows);
    let mut sum: i64 = 0;
    for step in 0..16 {
        let codes = numbers_16(width, words, step);
        sum += narrow_sum_of_step(values, &codes, &lanes, step);
    }
    sum
}

/// The sum of the values of a mask's rows. Those of 32 bits are added as they are, and longer ones are raised, so that no sum
/// wraps.
pub(crate) fn sum_of_codes(form: &Dict, rows: &Mask) -> i128
    ensures { result ≡ fold_to ◌+ℤ◌ (pos 0) 1024 (λ n. cond (has rows.now n) (dict_value form.now n) (pos 0)) }
{
    if are_narrow(form) {
        return i128::from(narrow_sum_of_codes(form, rows));
    }
    raised_sum_of_codes(form, rows) as i128 - rows.count_below(1024) as i128 * (1 << 63)
}

/// The rows whose value is neither below `low` nor above `high`. If the dictionary decides, no word is read.
pub(crate) fn dict_between(form: &Dict, low: i64, high: i64) -> Mask
    ensures { result ≡ rows_of (λ n. between low high (dict_value form.now n)) }
{
    let (first, end) = form.places_between(low, high);
    if end <= first {
        return Mask::none();
    }
    if first == 0 && end == form.values().len() {
        return Mask::all();
    }
    rows_between_16(
        form.width(),
        form.codes().words_16(),
        first as u16,
        (end - 1) as u16,
    )
}
