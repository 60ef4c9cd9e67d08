//! Values for the rows of a vector that are null or absent.
ghost use Rattle.std.specs.Prelude.{◌≡◌, ◌↔◌, ℕ, ◌<◌, ◌≤◌, false, IsTrue, pos, length, if◌then◌else◌};
ghost use Rattle.transpose_order.specs.Mask.{has};
ghost use Rattle.table_model.specs.Values.{present};
ghost use Rattle.bit_interleave.specs.Range.{value_at};
ghost use Rattle.segment_core.specs.Fill.{first_or, last_or, filled_at, filled, cells_under};

use transpose_order::Mask;

/// Fills a vector of `rows` rows, 1024 at most: each row that is null, and each past the rows, takes the value of the nearest
/// row before it that has one, else that of the first row that has one, else 0.
pub(crate) fn fill(values: &mut [i64; 1024], rows: usize, nulls: &Mask)
    requires { rows ≤ 1024 }
    ensures { values.new ≡ filled (cells_under rows nulls.now values.old) }
{
    if is_full(rows, nulls) {
        return;
    }
    let first = first_present(values, rows, nulls);
    let latest = fill_rows(values, rows, nulls, first);
    fill_rest(values, rows, latest);
}

/// Fills the rows that are null with the latest value before each, or the first of all, and answers the last.
fn fill_rows(values: &mut [i64; 1024], rows: usize, nulls: &Mask, first: i64) -> i64
    requires rows { rows ≤ 1024 }
    requires first { first ≡ first_or (pos 0) (present (cells_under rows nulls.now values.old)) }
    ensures long { length values.new ≡ length values.old }
    ensures filled { (n : ℕ) → n < rows → value_at values.new n ≡ filled_at (cells_under rows nulls.now values.old) n }
    ensures last { result ≡ last_or (pos 0) (present (cells_under rows nulls.now values.old)) }
{
    let mut latest = first;
    for row in 0..rows {
        latest = chosen(!nulls.get(row), values[row], latest);
        values[row] = latest;
    }
    latest
}

/// Fills the rows past the vector's own with its last value.
fn fill_rest(values: &mut [i64; 1024], rows: usize, last: i64)
    requires { rows ≤ 1024 }
    ensures long { length values.new ≡ length values.old }
    ensures kept { (n : ℕ) → n < rows → value_at values.new n ≡ value_at values.old n }
    ensures rest { (n : ℕ) → rows ≤ n → n < 1024 → value_at values.new n ≡ last }
{
    for row in rows..1024 {
        values[row] = last;
    }
}

/// Whether each of 1024 rows has a value, so that there is nothing to fill.
pub(crate) fn is_full(rows: usize, nulls: &Mask) -> bool
    requires { rows ≤ 1024 }
    ensures { IsTrue result ↔ ((n : ℕ) → n < 1024 → (n < rows) × (has nulls.now n ≡ false)) }
{
    rows == 1024 && nulls.next_true(0) == 1024
}

/// The value of the first row that has one, or 0.
fn first_present(values: &[i64; 1024], rows: usize, nulls: &Mask) -> i64
    requires { rows ≤ 1024 }
    ensures { result ≡ first_or (pos 0) (present (cells_under rows nulls.now values.now)) }
{
    for row in 0..rows {
        if !nulls.get(row) {
            return values[row];
        }
    }
    0
}

/// A row's own value if it has one, else the latest.
fn chosen(has_value: bool, value: i64, latest: i64) -> i64
    ensures { result ≡ (if has_value then value else latest) }
{
    if has_value { value } else { latest }
}
