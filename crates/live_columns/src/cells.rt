//! The cells of a column in one vector, as numbers and the rows that are null.
ghost use Rattle.std.specs.Prelude.{◌≡◌, ◌<◌, ◌≤◌, ◌+◌, ℕ, cond, pos, length, take, ◌++◌, slice_index_or};
ghost use Rattle.table_model.specs.Answer.{whole};
ghost use Rattle.table_model.specs.Condition.{is_null};
ghost use Rattle.table_model.specs.Group.{state_row_limit};
ghost use Rattle.transpose_order.specs.Mask.{has, rows_of};
ghost use Rattle.query_eval.specs.Read.{IsSame};
ghost use Rattle.query_eval.specs.Vector.{IsThere, cell_at, vector_of};
ghost use Rattle.live_columns.specs.Chosen.{numbers_at};
ghost use Rattle.live_columns.specs.Columns.{number_at};

use query_eval::{Columns, VectorId};
use transpose_order::{Mask, VECTOR_ROWS};

/// Writes 0 at the rows of a mask.
fn clear_rows(numbers: &mut [i64; 1024], rows: &Mask)
    ensures { (n : ℕ) → n < 1024 → slice_index_or numbers.new n (pos 0) ≡ cond (has rows.now n) (pos 0) (slice_index_or numbers.old n (pos 0)) }
{
    if rows.next_true(0) == 1024 {
        return;
    }
    for row in 0..1024 {
        if rows.get(row) {
            numbers[row] = 0;
        }
    }
}

/// Decodes a column's vector, in one pass: the numbers of its cells in row order, 0 at a null and past the vector's end. It answers these
/// rows.
pub fn cells_into<C: Columns>(
    columns: &mut C,
    id: VectorId,
    column: usize,
    numbers: &mut [i64; 1024],
) -> Mask
    requires there { IsThere (C.seen columns.old).state id.batch id.vector }
    requires column { column < length (C.seen columns.old).table.columns }
    ensures numbers { (n : ℕ) → n < 1024 → slice_index_or numbers.new n (pos 0) ≡ number_at (cell_at (vector_of (C.seen columns.old).state id) column n) }
    ensures nulls { result ≡ rows_of (λ n. is_null (whole (cell_at (vector_of (C.seen columns.old).state id) column n))) }
    ensures same { IsSame (C.seen columns.old) (C.seen columns.new) }
    ensures passes { (C.seen columns.new).passes ≤ (C.seen columns.old).passes + 1 }
{
    let nulls = columns.nulls(id, column);
    columns.decode_into(id, column, numbers);
    clear_rows(numbers, &nulls);
    nulls
}

/// Writes all numbers, one after another from a place on.
fn put_all(numbers: &[i64; 1024], values: &mut [i64], at: usize)
    requires { at + 1024 ≤ length values.old }
    ensures { take (at + 1024) values.new ≡ take at values.old ++ numbers.now }
{
    values[at..at + 1024].copy_from_slice(numbers);
}

/// The number at a row.
fn number_of(numbers: &[i64; 1024], row: usize) -> i64
    requires { row < 1024 }
    ensures { result ≡ slice_index_or numbers.now row (pos 0) }
{
    numbers[row]
}

/// Writes the numbers at the rows of a mask, one after another from a place on.
pub(crate) fn put_rows(numbers: &[i64; 1024], rows: &Mask, values: &mut [i64], at: usize)
    requires room { at + length (numbers_at rows.now numbers.now) ≤ length values.old }
    requires size { length values.old ≤ state_row_limit }
    ensures { take (at + length (numbers_at rows.now numbers.now)) values.new ≡ take at values.old ++ numbers_at rows.now numbers.now }
{
    if rows.is_all() {
        put_all(numbers, values, at);
        return;
    }
    let mut end = at;
    for row in 0..VECTOR_ROWS {
        if rows.get(row) {
            let number = number_of(numbers, row);
            values[end] = number;
            end += 1;
        }
    }
}
