//! A column's cells at chosen rows, written into memory that a caller owns.
ghost use Rattle.std.specs.Prelude.{◌≡◌, ◌<◌, ◌≤◌, ◌+◌, ◌*◌, ◌^◌, ◌++◌, ℕ, Bool, List, map, length, take, drop, is_none};
ghost use Rattle.std.specs.List.{All};
ghost use Rattle.table_model.specs.Group.{state_row_limit};
ghost use Rattle.query_eval.specs.Read.{IsSame};
ghost use Rattle.query_eval.specs.Vector.{IsThere};
ghost use Rattle.live_columns.specs.Bits.{AreMarked};
ghost use Rattle.live_columns.specs.Chosen.{IsChosen, cells_in, columns_in, kept_in, rows_in};
ghost use Rattle.live_columns.specs.Columns.{null_count, number_at, numbers_of, stride_of, validities, validity};

use crate::bits::{clear_nulls, set_front};
use crate::cells::{cells_into, put_rows};
use crate::chosen::ChosenRows;
use query_eval::{Columns, KeptVector};

/// Writes the cells of a column at the rows of a vector that are kept, from a cell on: their numbers, and a cleared bit if a cell
/// is null. It answers how many are.
fn write_vector<C: Columns>(
    columns: &mut C,
    kept: &KeptVector,
    column: usize,
    numbers: &mut [i64; 1024],
    values: &mut [i64],
    valid: &mut [u8],
    first: usize,
) -> usize
    requires there { IsThere (C.seen columns.old).state kept.now.id.batch kept.now.id.vector }
    requires column { column < length (C.seen columns.old).table.columns }
    requires values { first + length (kept_in (C.seen columns.old).state kept.now) ≤ length values.old }
    requires valid { length values.old ≤ 8 * length valid.old }
    requires rows { length values.old ≤ state_row_limit }
    requires size { length valid.old ≤ 2 ^ 60 }
    ensures values { take (first + length (kept_in (C.seen columns.old).state kept.now)) values.new ≡ take first values.old ++ map number_at (cells_in column (kept_in (C.seen columns.old).state kept.now)) }
    ensures valid { (before : ℕ → ℕ) (cells : List Bool) → length cells ≡ first → AreMarked before cells valid.old → AreMarked before (cells ++ map is_none (cells_in column (kept_in (C.seen columns.old).state kept.now))) valid.new }
    ensures nulls { result ≡ null_count (cells_in column (kept_in (C.seen columns.old).state kept.now)) }
    ensures same { IsSame (C.seen columns.old) (C.seen columns.new) }
    ensures passes { (C.seen columns.new).passes ≤ (C.seen columns.old).passes + 1 }
{
    let nulls = cells_into(columns, kept.id, column, numbers);
    put_rows(numbers, &kept.rows, values, first);
    clear_nulls(&nulls, &kept.rows, valid, first)
}

/// How many bytes the validity bits of a number of cells take: 64 for each 512 cells, the last ones too.
pub fn stride_of(cells: usize) -> usize
    requires { cells ≤ state_row_limit }
    ensures { result ≡ stride_of cells }
{
    64 * cells.div_ceil(512)
}

/// Writes the cells of a column at chosen rows: their numbers, 0 at a null, and their validity bits, bit `i % 8` of byte `i / 8` being
/// 1 if cell `i` is a value, and 0 if it is null or past the last cell. It answers how many cells are null.
fn write_column<C: Columns>(
    columns: &mut C,
    chosen: &ChosenRows,
    column: usize,
    values: &mut [i64],
    valid: &mut [u8],
) -> usize
    requires chosen { IsChosen (C.seen columns.old).state (rows_in (C.seen columns.old).state chosen.now.vectors.items) chosen.now }
    requires column { column < length (C.seen columns.old).table.columns }
    requires values { length values.old ≡ chosen.now.count }
    requires valid { length valid.old ≡ stride_of chosen.now.count }
    ensures values { values.new ≡ map number_at (cells_in column (rows_in (C.seen columns.old).state chosen.now.vectors.items)) }
    ensures valid { valid.new ≡ validity (cells_in column (rows_in (C.seen columns.old).state chosen.now.vectors.items)) }
    ensures nulls { result ≡ null_count (cells_in column (rows_in (C.seen columns.old).state chosen.now.vectors.items)) }
    ensures same { IsSame (C.seen columns.old) (C.seen columns.new) }
    ensures passes { (C.seen columns.new).passes ≤ (C.seen columns.old).passes + length chosen.now.vectors.items }
{
    set_front(valid, chosen.count);
    let mut numbers = [0; 1024];
    let mut first = 0;
    let mut nulls = 0;
    for kept in &chosen.vectors {
        let missing = write_vector(columns, kept, column, &mut numbers, values, valid, first);
        let rows = kept.rows.count();
        nulls += missing;
        first += rows;
    }
    nulls
}

/// Writes the cells of columns at chosen rows, column by column: their numbers, 0 at a null; their validity bits, bit `i % 8` of byte
/// `i / 8` being 1 if cell `i` is a value, and 0 if it is null or past the last cell; and how many cells are null.
///
/// Each column takes one pass over each vector that has a chosen row.
///
/// Column `c` has its numbers from `c * chosen.count` on, its bits from byte `c * stride_of(chosen.count)` on, and its nulls at `c`.
pub fn write_columns<C: Columns>(
    columns: &mut C,
    chosen: &ChosenRows,
    places: &[usize],
    values: &mut [i64],
    valid: &mut [u8],
    nulls: &mut [u64],
)
    requires chosen { IsChosen (C.seen columns.old).state (rows_in (C.seen columns.old).state chosen.now.vectors.items) chosen.now }
    requires places { All (λ place. place < length (C.seen columns.old).table.columns) places.now }
    requires values { length places.now * chosen.now.count ≤ length values.old }
    requires valid { length places.now * stride_of chosen.now.count ≤ length valid.old }
    requires nulls { length places.now ≤ length nulls.old }
    ensures values { values.new ≡ numbers_of (columns_in places.now (rows_in (C.seen columns.old).state chosen.now.vectors.items)) ++ drop (length places.now * chosen.now.count) values.old }
    ensures valid { valid.new ≡ validities (columns_in places.now (rows_in (C.seen columns.old).state chosen.now.vectors.items)) ++ drop (length places.now * stride_of chosen.now.count) valid.old }
    ensures nulls { nulls.new ≡ map null_count (columns_in places.now (rows_in (C.seen columns.old).state chosen.now.vectors.items)) ++ drop (length places.now) nulls.old }
    ensures same { IsSame (C.seen columns.old) (C.seen columns.new) }
    ensures passes { (C.seen columns.new).passes ≤ (C.seen columns.old).passes + length places.now * length chosen.now.vectors.items }
{
    let rows = chosen.count;
    let stride = stride_of(rows);
    prove!(values.len() >= places.len() * rows);
    prove!(valid.len() >= places.len() * stride);
    for index in 0..places.len() {
        let first = index * rows;
        let byte = index * stride;
        let numbers = &mut values[first..first + rows];
        let bits = &mut valid[byte..byte + stride];
        let missing = write_column(columns, chosen, places[index], numbers, bits);
        nulls[index] = missing as u64;
    }
}
