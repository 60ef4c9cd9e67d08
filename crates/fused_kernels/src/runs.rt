//! Comparisons of runs of equal values with a range of numbers, run by run.
ghost use Rattle.std.specs.Prelude.{◌≡◌, ℕ, ◌+◌, ◌<◌, ◌≤◌, ◌&&◌, ◌||◌, nat_le, nat_lt};
ghost use Rattle.std.specs.List.{list_any};
ghost use Rattle.transpose_order.specs.Mask.{rows_of, truth_at};
ghost use Rattle.run_dictionary.specs.Runs.{run_value};
ghost use Rattle.fused_kernels.specs.Seen.{between};

use crate::ranges::is_between;
use bit_interleave::Values;
use run_dictionary::Runs;
use transpose_order::{Mask, ones_between};

/// Sets the rows from `first` up to `end`, which is not included, in the words of a mask.
#[inline(always)]
fn set_run(words: &mut [u64; 16], first: usize, end: usize)
    requires order { first < end }
    requires within { end ≤ 1024 }
    ensures { (n : ℕ) → n < 1024 → truth_at words.new n ≡ ((nat_le first n && nat_lt n end) || truth_at words.old n) }
{
    for j in first / 64..(end + 63) / 64 {
        let ones = ones_between(first.saturating_sub(64 * j), (end - 64 * j).min(64));
        words[j] |= ones;
    }
}

/// Sets the rows from `first` up to `end`, which is not included, in the words of a mask, if that is asked.
#[inline(always)]
fn set_run_if(words: &mut [u64; 16], first: usize, end: usize, set: bool)
    requires order { first < end }
    requires within { end ≤ 1024 }
    ensures { (n : ℕ) → n < 1024 → truth_at words.new n ≡ ((nat_le first n && nat_lt n end && set) || truth_at words.old n) }
{
    if set {
        set_run(words, first, end);
    }
}

/// Whether one of some values is neither below `low` nor above `high`.
pub(crate) fn is_one_between(values: &Values, low: i64, high: i64) -> bool
    ensures { result ≡ list_any (between low high) values.now.values }
{
    for i in 0..values.len() {
        if is_between(low, high, values.get(i)) {
            return true;
        }
    }
    false
}

/// The rows whose run's value is neither below `low` nor above `high`. If no run has such a value, no row is searched for.
pub(crate) fn runs_between(form: &Runs, low: i64, high: i64) -> Mask
    ensures { result ≡ rows_of (λ n. between low high (run_value form.now n)) }
{
    let values = form.values();
    if !is_one_between(values, low, high) {
        return Mask::none();
    }
    let mut found = [0; 16];
    let mut row = 0;
    for run in 0..values.len() {
        let end = form.starts().next_true(row + 1);
        set_run_if(&mut found, row, end, is_between(low, high, values.get(run)));
        row = end;
    }
    Mask::from_words(found)
}
