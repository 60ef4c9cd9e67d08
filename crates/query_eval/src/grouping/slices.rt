//! Spans and slices of a vector's kept rows by its decoded grouping columns: rows with one key each.
//!
//! If rows with one key are next to each other in few runs, each run is a span; otherwise a slice has all rows with its key.
ghost use Rattle.std.specs.Prelude.{◌≡◌, ◌<◌, ◌≤◌, ◌+◌, ◌++◌, ◌&&◌, ℕ, false, IfOk, OnOk};
ghost use Rattle.table_model.specs.State.{same_cells};
ghost use Rattle.query_eval.specs.Keys.{IsSlicing, column_key};
ghost use Rattle.query_eval.specs.Places.{IsIndex, IsTakenIn};
ghost use Rattle.query_eval.specs.Slices.{slices_of_spans};
ghost use Rattle.transpose_order.specs.Mask.{has};

use crate::grouping::key::Key;
use crate::grouping::key_columns::KeyColumn;
use crate::grouping::places::Places;
use crate::grouping::split::{Slice, Span};
use std::alloc::{AllocError, Global};
use transpose_order::Mask;

/// How many runs are spans at most.
const MOST_RUNS: usize = 256;

/// How many slices a vector has at most.
const MOST_SLICES: usize = 16;

/// How many slices are tried, however few rows they have.
const TRIED_SLICES: usize = 4;

/// How many rows slices need to have on average for more of them to be worth it.
const WORTH_ROWS: usize = 64;

/// Reads a row's key.
pub fn read_key(key: &mut Key, columns: &[KeyColumn], row: usize) -> Result<(), AllocError>
    requires { row < 1024 }
    ensures { OnOk result (key.new ≡ column_key columns.now row) }
{
    key.clear();
    for column in columns {
        key.push(column.at(row))?;
    }
    Ok(())
}

/// The rows of a mask with the same cells as a row in each of some columns.
fn rows_like(columns: &[KeyColumn], row: usize, mask: &Mask) -> Mask
    requires { row < 1024 }
    ensures { (n : ℕ) → n < 1024 → has result n ≡ (has mask.now n && same_cells (column_key columns.now row) (column_key columns.now n)) }
{
    let mut rows = *mask;
    for column in columns {
        rows = rows.and(&column.rows_like(row));
    }
    rows
}

/// The place of a row's key, which is a new one if the key is new. `key` is room for the key.
fn place_of(
    alloc: Global,
    places: &mut Places,
    columns: &[KeyColumn],
    key: &mut Key,
    row: usize,
) -> Result<usize, AllocError>
    requires { row < 1024 }
    ensures index { OnOk result (IsIndex places.old → IsIndex places.new) }
    ensures taken { IfOk result (λ place. IsIndex places.old → IsTakenIn (column_key columns.now row) place places.old.index.entries places.new.index.entries) }
{
    if columns.len() == 1 {
        let column = &columns[0];
        let place = places.of_row(alloc, column.nulls.get(row), column.values[row])?;
        return Ok(place);
    }
    read_key(key, columns, row)?;
    let place = places.of_key(alloc, key)?;
    Ok(place)
}

/// The rows at which a key may differ from that of the row before.
fn changes_in(columns: &[KeyColumn]) -> Mask
    ensures { (n : ℕ) → n + 1 < 1024 → has result (n + 1) ≡ false → column_key columns.now (n + 1) ≡ column_key columns.now n }
{
    let mut changes = Mask::none();
    for column in columns {
        changes = changes.or(&column.changes());
    }
    changes
}

/// The slice of the rows of a mask with a row's key. A new key gets a new place. `key` is room for the key.
fn slice_at(
    alloc: Global,
    places: &mut Places,
    columns: &[KeyColumn],
    key: &mut Key,
    row: usize,
    mask: &Mask,
) -> Result<Slice, AllocError>
    requires { row < 1024 }
    ensures index { OnOk result (IsIndex places.old → IsIndex places.new) }
    ensures taken { IfOk result (λ slice. IsIndex places.old → IsTakenIn (column_key columns.now row) slice.place places.old.index.entries places.new.index.entries) }
    ensures rows { IfOk result (λ slice. (n : ℕ) → n < 1024 → has slice.rows n ≡ (has mask.now n && same_cells (column_key columns.now row) (column_key columns.now n))) }
{
    let place = place_of(alloc, places, columns, key, row)?;
    Ok(Slice {
        place,
        rows: rows_like(columns, row, mask),
        code: 0,
    })
}

/// Whether one more slice is worth it, after this many with this many rows in all.
fn is_worth(slices: usize, rows: usize) -> bool {
    slices < TRIED_SLICES || slices.saturating_mul(WORTH_ROWS) <= rows
}

/// Makes spans of the rows of a mask by runs, and gives the rows that are in none. A run ends when the key can change.
fn slice_runs(
    alloc: Global,
    places: &mut Places,
    columns: &[KeyColumn],
    changes: &Mask,
    mask: &Mask,
    spans: &mut Vec<Span>,
) -> Result<Mask, AllocError>
    requires { (n : ℕ) → n + 1 < 1024 → has changes.now (n + 1) ≡ false → column_key columns.now (n + 1) ≡ column_key columns.now n }
    ensures index { OnOk result (IsIndex places.old → IsIndex places.new) }
    ensures spanned { IfOk result (λ left. IsSlicing (column_key columns.now) mask.now left places.old places.new (slices_of_spans mask.now spans.new.items)) }
{
    mask.keeps_1024_rows();
    spans.clear();
    let mut start = 0;
    let mut key = Key::empty(alloc);
    for _ in 0..MOST_RUNS {
        let first = mask.next_true(start);
        if first == 1024 {
            return Ok(Mask::none());
        }
        let end = changes.next_true(first + 1);
        let place = place_of(alloc, places, columns, &mut key, first)?;
        spans.push(Span { place, first, end })?;
        start = end;
    }
    let mut left = *mask;
    left.set_range(0, start, false);
    Ok(left)
}

/// Slices the rows of a mask by their keys, and gives the rows that are in no slice: if there are many keys, slices aren't worth
/// it.
fn slice_keys(
    alloc: Global,
    places: &mut Places,
    columns: &[KeyColumn],
    mask: &Mask,
    slices: &mut Vec<Slice>,
) -> Result<Mask, AllocError>
    ensures index { OnOk result (IsIndex places.old → IsIndex places.new) }
    ensures sliced { IfOk result (λ left. IsSlicing (column_key columns.now) mask.now left places.old places.new slices.new.items) }
{
    slices.clear();
    let mut left = *mask;
    let mut sliced: usize = 0;
    let mut key = Key::empty(alloc);
    for _ in 0..MOST_SLICES {
        let row = left.next_true(0);
        if row == 1024 || !is_worth(slices.len(), sliced) {
            return Ok(left);
        }
        let slice = slice_at(alloc, places, columns, &mut key, row, &left)?;
        slices.push(slice)?;
        left = left.and_not(&slice.rows);
        sliced = sliced.saturating_add(slice.rows.count());
    }
    Ok(left)
}

/// Makes spans of the rows of a mask, by runs, if these are few, and otherwise slices, by keys; gives the rows that are in none.
pub fn slice_rows(
    alloc: Global,
    places: &mut Places,
    columns: &[KeyColumn],
    mask: &Mask,
    spans: &mut Vec<Span>,
    slices: &mut Vec<Slice>,
) -> Result<Mask, AllocError>
    ensures index { OnOk result (IsIndex places.old → IsIndex places.new) }
    ensures sliced { IfOk result (λ left. IsSlicing (column_key columns.now) mask.now left places.old places.new (slices_of_spans mask.now spans.new.items ++ slices.new.items)) }
{
    let changes = changes_in(columns);
    if changes.count() <= MOST_RUNS {
        slices.clear();
        let left = slice_runs(alloc, places, columns, &changes, mask, spans)?;
        return Ok(left);
    }
    spans.clear();
    let left = slice_keys(alloc, places, columns, mask, slices)?;
    Ok(left)
}
