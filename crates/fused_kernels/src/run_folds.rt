//! Set functions of runs of equal values, run by run.
ghost use Rattle.std.specs.Prelude.{◌≡◌, ◌-◌, ◌^◌, cond, pos, negsuc, ◌+ℤ◌, length};
ghost use Rattle.std.specs.Int.{int_max};
ghost use Rattle.transpose_order.specs.Mask.{has};
ghost use Rattle.bit_interleave.specs.Range.{value_at};
ghost use Rattle.run_dictionary.specs.Runs.{run_value};
ghost use Rattle.native_lanes.specs.Folds.{fold_to};
ghost use Rattle.table_model.specs.Extreme.{turned};
ghost use Rattle.native_lanes.specs.Extremes.{extreme_at};

use crate::row_counts::{rows_before_words, rows_below};
use bit_interleave::Values;
use native_lanes::times;
use run_dictionary::Runs;
use table_model::Extreme;
use transpose_order::{Mask, greater_if};

/// The sum of the values of a mask's rows.
pub(crate) fn sum_of_runs(form: &Runs, rows: &Mask) -> i128
    ensures { result ≡ fold_to ◌+ℤ◌ (pos 0) 1024 (λ n. cond (has rows.now n) (run_value form.now n) (pos 0)) }
{
    let words = rows.words();
    let before_words = rows_before_words(words);
    let mut sum = 0;
    let mut row = 0;
    let mut before = 0;
    let values = form.values();
    for run in 0..values.len() {
        let end = form.starts().next_true(row + 1);
        let upto = rows_below(words, &before_words, end);
        sum += times(values.get(run), upto - before);
        before = upto;
        row = end;
    }
    sum
}

/// The least or the greatest of some values; over none, the greatest or the least of 64 bits.
fn extreme_of_all(side: Extreme, values: &Values) -> i64
    ensures { result ≡ turned side (fold_to int_max (negsuc (2 ^ 63 - 1)) (length values.now.values) (λ i. turned side (value_at values.now.values i))) }
{
    let mut greatest = i64::MIN;
    for i in 0..values.len() {
        greatest = greatest.max(side.turned(values.get(i)));
    }
    side.turned(greatest)
}

/// The least or the greatest value of a mask's rows, none over none.
fn extreme_of_rows(side: Extreme, form: &Runs, rows: &Mask) -> Option<i64>
    ensures { result ≡ extreme_at side rows.now (run_value form.now) }
{
    let words = rows.words();
    let before_words = rows_before_words(words);
    let mut greatest = i64::MIN;
    let mut row = 0;
    let mut before = 0;
    let values = form.values();
    for run in 0..values.len() {
        let end = form.starts().next_true(row + 1);
        let upto = rows_below(words, &before_words, end);
        let value = side.turned(values.get(run));
        greatest = greater_if(before < upto, greatest, value);
        before = upto;
        row = end;
    }
    if before == 0 {
        return None;
    }
    Some(side.turned(greatest))
}

/// The least or the greatest value of a mask's rows, none over none. If the mask has all rows, none is searched for: each run has
/// at least one.
#[inline(always)]
pub(crate) fn extreme_of_runs(side: Extreme, form: &Runs, rows: &Mask) -> Option<i64>
    ensures { result ≡ extreme_at side rows.now (run_value form.now) }
{
    if rows.is_all() {
        return Some(extreme_of_all(side, form.values()));
    }
    extreme_of_rows(side, form, rows)
}
