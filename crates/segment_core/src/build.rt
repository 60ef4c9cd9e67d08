//! Canonical vectors of a batch's rows, and whether vectors have their cells.
ghost use Rattle.std.specs.Prelude.{◌≡◌, ℕ, ◌*◌, ◌<◌, ◌≤◌, ◌↔◌, ◌-◌, min, List, Some, [], length, slice_get, slice_index_or, IsTrue, IfOk};
ghost use Rattle.table_model.specs.Table.{IsBatch, IsTable, row_limit};
ghost use Rattle.transpose_order.specs.Place.{IsLaneWidth};
ghost use Rattle.segment_core.specs.CodedVector.{VectorForm, canonical_vector, cells_of};
ghost use Rattle.segment_core.specs.Segment.{column_cells, cells_in, canonical_column, canonical_forms, vector_count, widths_of, HasCellsOf, HasColumn};

use crate::coded_vector::CodedVector;
use crate::gather::canonical_vector;
use crate::vectors::Vectors;
use std::alloc::{AllocError, Global};
use table_model::{Rows, Schema};

/// The canonical vectors of each column of a table's rows. If memory is refused, an `AllocError`.
pub(crate) fn canonical_columns(
    alloc: Global,
    schema: &Schema,
    rows: &Rows,
) -> Result<Vec<Vectors>, AllocError>
    requires { IsBatch schema.now rows.now }
    ensures forms { IfOk result (λ columns. columns.items ≡ canonical_forms (widths_of schema.now) rows.now) }
    ensures table { IsTable schema.now }
{
    let columns = schema.column_list();
    let mut made = Vec::with_capacity(alloc, columns.len())?;
    for column in 0..columns.len() {
        let lane_width = columns[column].column_type().bits();
        made.push(canonical_column(alloc, lane_width, rows, column)?)?;
    }
    Ok(made)
}

/// The canonical vectors of a column of 1 to 65,536 rows, each with a value in the range of `lane_width` bits, signed, or null.
/// If memory is refused, an `AllocError`.
fn canonical_column(
    alloc: Global,
    lane_width: usize,
    rows: &Rows,
    column: usize,
) -> Result<Vectors, AllocError>
    requires lane_width { IsLaneWidth lane_width }
    requires limit { length rows.now ≤ row_limit }
    requires column { HasColumn lane_width rows.now column }
    ensures { IfOk result (λ vectors. vectors ≡ canonical_column lane_width (column_cells rows.now column)) }
{
    let count = (rows.len() + 1023) / 1024;
    let mut cells = [None; 1024];
    let mut vectors = Vec::with_capacity(alloc, count)?;
    for k in 0..count {
        let part = part_len(rows, k);
        vectors.push(canonical_part(alloc, lane_width, rows, column, k, &mut cells[..part])?)?;
    }
    Ok(Vectors::from_vec(vectors))
}

/// How many rows vector `k` covers.
fn part_len(rows: &Rows, k: usize) -> usize
    requires limit { length rows.now ≤ row_limit }
    requires within { 1024 * k < length rows.now }
    ensures limit { result ≤ 1024 }
    ensures value { result ≡ min 1024 (length rows.now - 1024 * k) }
{
    (rows.len() - 1024 * k).min(1024)
}

/// The canonical vector of the rows that vector `k` of a column covers, each with a value in the range of `lane_width` bits, signed,
/// or null; their cells are written into `cells`, which has as many places. If memory is refused, an `AllocError`.
fn canonical_part(
    alloc: Global,
    lane_width: usize,
    rows: &Rows,
    column: usize,
    k: usize,
    cells: &mut [Option<i128>],
) -> Result<CodedVector, AllocError>
    requires lane_width { IsLaneWidth lane_width }
    requires limit { length rows.now ≤ row_limit }
    requires within { 1024 * k < length rows.now }
    requires column { HasColumn lane_width rows.now column }
    requires room { length cells.old ≡ min 1024 (length rows.now - 1024 * k) }
    ensures { IfOk result (λ vector. vector ≡ canonical_vector lane_width (cells_in (column_cells rows.now column) k)) }
{
    rows.read_column(1024 * k, column, cells);
    canonical_vector(alloc, lane_width, cells)
}

/// Whether each row has a number of cells.
pub(crate) fn have_length(rows: &Rows, columns: usize) -> bool
    ensures { IsTrue result ↔ ((n : ℕ) → n < length rows.now → length (slice_index_or rows.now n []) ≡ columns) }
{
    for row in 0..rows.len() {
        if rows.row(row).len() != columns {
            return false;
        }
    }
    true
}

/// Whether columns of as many rows have the cells of some rows, each of which has a cell for each column.
pub(crate) fn have_cells(columns: &[Vectors], rows: &Rows) -> bool
    requires limit { length rows.now ≤ row_limit }
    requires long { (c : ℕ) (vectors : List VectorForm) → slice_get columns.now c ≡ Some vectors → length vectors ≡ vector_count (length rows.now) }
    requires there { (n : ℕ) → n < length rows.now → length (slice_index_or rows.now n []) ≡ length columns.now }
    ensures { IsTrue result ↔ ((c : ℕ) (vectors : List VectorForm) → slice_get columns.now c ≡ Some vectors → HasCellsOf vectors (column_cells rows.now c)) }
{
    for column in 0..columns.len() {
        if !has_cells(columns[column].as_slice(), rows, column) {
            return false;
        }
    }
    true
}

/// Whether the vectors have the cells of a column of some rows, vector by vector.
fn has_cells(vectors: &[CodedVector], rows: &Rows, column: usize) -> bool
    requires limit { length rows.now ≤ row_limit }
    requires count { length vectors.now ≡ vector_count (length rows.now) }
    requires there { (n : ℕ) → n < length rows.now → column < length (slice_index_or rows.now n []) }
    ensures { IsTrue result ↔ HasCellsOf vectors.now (column_cells rows.now column) }
{
    let mut cells = [None; 1024];
    for k in 0..vectors.len() {
        let part = part_len(rows, k);
        if !has_part(&vectors[k], rows, column, k, &mut cells[..part]) {
            return false;
        }
    }
    true
}

/// Whether the vector has the cells of the rows that vector `k` of a column covers; they are written into `cells`, which has as many
/// places.
fn has_part(
    vector: &CodedVector,
    rows: &Rows,
    column: usize,
    k: usize,
    cells: &mut [Option<i128>],
) -> bool
    requires limit { length rows.now ≤ row_limit }
    requires within { 1024 * k < length rows.now }
    requires there { (n : ℕ) → n < length rows.now → column < length (slice_index_or rows.now n []) }
    requires room { length cells.old ≡ min 1024 (length rows.now - 1024 * k) }
    ensures { IsTrue result ↔ (cells_of vector.now ≡ cells_in (column_cells rows.now column) k) }
{
    rows.read_column(1024 * k, column, cells);
    vector.has_these(cells)
}
