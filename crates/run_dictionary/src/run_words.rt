//! The rows at which the runs of 1024 values start, and what they have.
ghost use Rattle.std.specs.Prelude.{◌≡◌, ◌≢◌, ◌==◌, ◌↔◌, ℕ, suc, ◌+◌, ◌-◌, ◌*◌, ◌<◌, ◌≤◌, ◌≤ℤ◌, true, false, IsTrue, min, take, length, slice_index_or, ℤ, pos};
ghost use Rattle.std.specs.Int.{bit_at};
ghost use Rattle.transpose_order.specs.Mask.{rows_of, has, count_below};
ghost use Rattle.bit_interleave.specs.Range.{value_at};
ghost use Rattle.run_dictionary.specs.Dict.{distinct};
ghost use Rattle.run_dictionary.specs.Runs.{changes_at, changed_values, run_of};

use bit_interleave::Values;
use transpose_order::Mask;

/// With more runs than this, of less than eight rows each, a vector is written row by row.
const MANY_RUNS: usize = 128;

/// Whether a row's value differs from that of the row before.
fn differs(values: &[i64], row: usize) -> bool
    requires { row < length values.now }
    ensures { result ≡ changes_at (value_at values.now) row }
{
    values[row] != values[row.saturating_sub(1)]
}

/// How many of some values differ from the one before.
pub(crate) fn count_changes(values: &[i64]) -> usize
    requires { 0 < length values.now }
    ensures value { result ≡ count_below (λ i. changes_at (value_at values.now) (suc i)) (length values.now - 1) }
    ensures bound { result < length values.now }
{
    let mut count = 0;
    for row in 1..values.len() {
        if differs(values, row) {
            count += 1;
        }
    }
    count
}

/// The bits of the 64 rows of word `j` whose value differs from the one before.
fn changes_in_word(values: &[i64; 1024], j: usize) -> u64
    requires { j < 16 }
    ensures { (p : ℕ) → p < 64 → (bit_at result p == 1) ≡ changes_at (value_at values.now) (64 * j + p) }
{
    let mut word = 0u64;
    for p in 0..64 {
        word |= u64::from(differs(values, 64 * j + p)) << p;
    }
    word
}

/// The rows of 1024 values that differ from the one before.
pub(crate) fn changes(values: &[i64; 1024]) -> Mask
    ensures { result ≡ rows_of (changes_at (value_at values.now)) }
{
    let mut words = [0; 16];
    for j in 0..16 {
        words[j] = changes_in_word(values, j);
    }
    Mask::from_words(words)
}

/// Writes the value of each run in turn, and answers how many there are.
pub(crate) fn write_changed(values: &[i64], into: &mut [i64; 1024]) -> usize
    requires some { 0 < length values.now }
    requires many { length values.now ≤ 1024 }
    ensures bound { result ≤ 1024 }
    ensures written { take result into.new ≡ changed_values (value_at values.now) (length values.now) }
{
    into[0] = values[0];
    let mut count = 1;
    for row in 1..values.len() {
        into[count] = values[row];
        count += usize::from(differs(values, row));
    }
    count
}

/// Writes a value to the rows from `first` up to `end`, which is not included.
fn fill_rows(into: &mut [i64; 1024], first: usize, end: usize, value: i64)
    requires order { first ≤ end }
    requires within { end ≤ 1024 }
    ensures written { (n : ℕ) → first ≤ n → n < end → slice_index_or into.new n (pos 0) ≡ value }
    ensures others { (n : ℕ) → n < first → slice_index_or into.new n (pos 0) ≡ slice_index_or into.old n (pos 0) }
    ensures after { (n : ℕ) → end ≤ n → slice_index_or into.new n (pos 0) ≡ slice_index_or into.old n (pos 0) }
{
    for row in first..end {
        into[row] = value;
    }
}

/// Writes the value of each row's run, run by run.
fn write_each_run(starts: &Mask, runs: &[i64], into: &mut [i64; 1024])
    requires { length runs.now ≡ run_of starts.now 1023 + 1 }
    ensures { into.new ≡ rows_of (λ n. slice_index_or runs.now (run_of starts.now n) (pos 0)) }
{
    let mut row = 0;
    for value in runs {
        let end = starts.next_true(row + 1);
        fill_rows(into, row, end, *value);
        row = end;
    }
}

/// Writes the value of each row's run, row by row and with no jump.
fn write_each_row(starts: &Mask, runs: &[i64], into: &mut [i64; 1024])
    requires first { has starts.now 0 ≡ false }
    requires count { length runs.now ≡ run_of starts.now 1023 + 1 }
    ensures { into.new ≡ rows_of (λ n. slice_index_or runs.now (run_of starts.now n) (pos 0)) }
{
    let mut run = 0;
    for row in 0..1024 {
        run += usize::from(starts.get(row));
        into[row] = runs[run];
    }
}

/// Writes the value of each row's run. With many runs it goes by rows, which is the faster way then.
pub(crate) fn write_rows(starts: &Mask, runs: &[i64], into: &mut [i64; 1024])
    requires first { has starts.now 0 ≡ false }
    requires count { length runs.now ≡ run_of starts.now 1023 + 1 }
    ensures { into.new ≡ rows_of (λ n. slice_index_or runs.now (run_of starts.now n) (pos 0)) }
{
    if runs.len() > MANY_RUNS {
        write_each_row(starts, runs, into);
    } else {
        write_each_run(starts, runs, into);
    }
}

/// Whether each value differs from the one before.
pub(crate) fn all_differ(runs: &Values) -> bool
    ensures { IsTrue result
        ↔ ((k : ℕ) → k + 1 < length runs.now.values → value_at runs.now.values k ≢ value_at runs.now.values (k + 1)) }
{
    for k in 1..runs.len() {
        if runs.get(k) == runs.get(k - 1) {
            return false;
        }
    }
    true
}

/// The least and the greatest of some values.
pub(crate) fn extremes(values: &Values) -> (i64, i64)
    requires { 0 < length values.now.values }
    ensures bounds { (k : ℕ) → k < length values.now.values → (result.0 ≤ℤ value_at values.now.values k) × (value_at values.now.values k ≤ℤ result.1) }
    ensures least { (k : ℕ) × (k < length values.now.values) × (value_at values.now.values k ≡ result.0) }
    ensures greatest { (k : ℕ) × (k < length values.now.values) × (value_at values.now.values k ≡ result.1) }
{
    let mut least = values.get(0);
    let mut greatest = values.get(0);
    for k in 1..values.len() {
        let value = values.get(k);
        least = least.min(value);
        greatest = greatest.max(value);
    }
    (least, greatest)
}

/// The first place whose value is not the first one, or the number of values.
fn first_other(values: &Values) -> usize
    requires { 0 < length values.now.values }
    ensures within { result ≤ length values.now.values }
    ensures before { (i : ℕ) → i < result → value_at values.now.values i ≡ value_at values.now.values 0 }
    ensures here { result < length values.now.values → value_at values.now.values result ≢ value_at values.now.values 0 }
{
    for k in 1..values.len() {
        if values.get(k) != values.get(0) {
            return k;
        }
    }
    values.len()
}

/// Whether a value is neither of two.
fn is_another(value: i64, first: i64, second: i64) -> bool
    ensures { IsTrue result ↔ ((value ≢ first) × (value ≢ second)) }
{
    value != first && value != second
}

/// The first place whose value is neither of two, or the number of values.
fn first_another(values: &Values, first: i64, second: i64) -> usize
    ensures within { result ≤ length values.now.values }
    ensures before { (i : ℕ) → i < result → (value_at values.now.values i ≢ first) × (value_at values.now.values i ≢ second) → ⊥ }
    ensures here { result < length values.now.values → (value_at values.now.values result ≢ first) × (value_at values.now.values result ≢ second) }
{
    for k in 0..values.len() {
        if is_another(values.get(k), first, second) {
            return k;
        }
    }
    values.len()
}

/// How many distinct values there are, and 3 if there are more.
pub(crate) fn distinct_to_three(values: &Values) -> usize
    requires { 0 < length values.now.values }
    ensures { result ≡ min 3 (length (distinct values.now.values)) }
{
    let second = first_other(values);
    if second == values.len() {
        return 1;
    }
    if first_another(values, values.get(0), values.get(second)) == values.len() {
        return 2;
    }
    3
}
