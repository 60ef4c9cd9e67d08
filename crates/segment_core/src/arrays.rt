//! Columns of cells as arrays, and the vectors and rows that are made of them.
ghost use Rattle.std.specs.Prelude.{◌≡◌, ◌<◌, ◌≤◌, ◌≤ℤ◌, ◌+◌, ◌*◌, ◌-◌, min, take, length, IsTrue, IfOk, Some, slice_get, ℕ, List};
ghost use Rattle.std.specs.List.{All};
ghost use Rattle.transpose_order.specs.Mask.{rows_of};
ghost use Rattle.transpose_order.specs.Place.{IsLaneWidth};
ghost use Rattle.table_model.specs.Table.{IsBatch, IsTable, row_limit, least_of, greatest_of};
ghost use Rattle.segment_core.specs.Arrays.{array_cell, array_cells, array_row, array_rows, has_bits, is_null_from, is_valid, AreBetween, HaveRows, NumbersFit};
ghost use Rattle.segment_core.specs.Fill.{cells_under, AreCellsInRange};
ghost use Rattle.segment_core.specs.CodedVector.{canonical_vector, null_rows};
ghost use Rattle.segment_core.specs.Segment.{canonical_column, canonical_forms, cells_in, widths_of};

use crate::coded_vector::CodedVector;
use crate::vector_bytes::MASK_BYTES;
use crate::vectors::Vectors;
use std::alloc::{AllocError, Global};
use std::marker::Model;
use table_model::{ColType, MAX_ROWS, Rows, Schema};
use transpose_order::Mask;

/// A column's cells as arrays: a number for each row, and a bit for each row, or no bits if each cell is a value. Bit `row % 8` of byte
/// `row / 8` is 1 if the cell is a value, and 0 if it is null. A null's number and the bits past the last row don't matter.
#[derive(Drop)]
pub struct CellArray<'a> {
    values: &'a [i64],
    valid: &'a [u8],
}

impl<'a> Model for CellArray<'a> {
    ghost use Rattle.std.specs.Prelude.{IsTrue};
    ghost use Rattle.segment_core.specs.Arrays.{ArrayForm, has_bits};

    ghost Value = { ArrayForm };

    ghost view = { λ a. record { values = a.values.now; valid = a.valid.now } };

    ghost invariant = { λ a. IsTrue (has_bits (record { values = a.values.now; valid = a.valid.now })) };
}

impl<'a> CellArray<'a> {
    /// The cells of these numbers and these bits, which are none, or one for each number.
    pub fn new(values: &'a [i64], valid: &'a [u8]) -> CellArray<'a>
        requires { IsTrue (has_bits (record { values = values.now; valid = valid.now })) }
        ensures { result ≡ record { values = values.now; valid = valid.now } }
    {
        CellArray { values, valid }
    }

    /// How many rows there are.
    fn len(&self) -> usize
        ensures { result ≡ length self.now.values }
    {
        self.values.len()
    }

    /// Whether the cell of a row is a value.
    fn is_valid(&self, row: usize) -> bool
        requires { row < length self.now.values }
        ensures { result ≡ is_valid self.now row }
    {
        if self.valid.is_empty() {
            return true;
        }
        self.valid[row / 8] >> (row % 8) & 1 == 1
    }

    /// The cell of a row.
    fn cell(&self, row: usize) -> Option<i128>
        requires { row < length self.now.values }
        ensures { result ≡ array_cell self.now row }
    {
        if self.is_valid(row) {
            Some(i128::from(self.values[row]))
        } else {
            None
        }
    }

    /// Whether each number, also that of a null, is a value of a type.
    fn fits(&self, column_type: ColType) -> bool
        ensures { IsTrue result → NumbersFit column_type self.now.values }
    {
        match column_type {
            ColType::TinyInt => are_between(self.values, i64::from(i8::MIN), i64::from(i8::MAX)),
            ColType::SmallInt => are_between(self.values, i64::from(i16::MIN), i64::from(i16::MAX)),
            ColType::Integer => are_between(self.values, i64::from(i32::MIN), i64::from(i32::MAX)),
            ColType::BigInt => are_between(self.values, i64::MIN, i64::MAX),
        }
    }

    /// The rows of vector `k` that are null, as a mask without a row past them.
    fn nulls_of(&self, k: usize, rows: usize) -> Mask
        requires few { rows ≤ 1024 }
        requires within { 1024 * k + rows ≤ length self.now.values }
        ensures { result ≡ rows_of (is_null_from self.now (1024 * k) rows) }
    {
        if self.valid.is_empty() {
            return Mask::none();
        }
        let mut bytes = [0; MASK_BYTES];
        let first = MASK_BYTES * k;
        put_bytes(&self.valid[first..first + rows.div_ceil(8)], &mut bytes);
        let mut nulls = Mask::from_le_bytes(&bytes).not();
        nulls.set_range(rows, 1024, false);
        nulls
    }

    /// The canonical vector of the rows that vector `k` covers. If memory is refused, an `AllocError`.
    fn canonical_part(
        &self,
        alloc: Global,
        lane_width: usize,
        k: usize,
    ) -> Result<CodedVector, AllocError>
        requires lane_width { IsLaneWidth lane_width }
        requires within { 1024 * k < length self.now.values }
        requires fit { AreCellsInRange lane_width (array_cells self.now) }
        ensures { IfOk result (λ vector. vector ≡ canonical_vector lane_width (cells_in (array_cells self.now) k)) }
    {
        let all = self.values.len();
        let first = 1024 * k;
        let rows = (all - first).min(1024);
        let nulls = self.nulls_of(k, rows);
        let mut values = [0; 1024];
        put_numbers(&self.values[first..first + rows], &mut values);
        CodedVector::canonical(alloc, lane_width, rows as u16, &nulls, &values)
    }

    /// The canonical vectors of the column. If memory is refused, an `AllocError`.
    fn canonical_column(&self, alloc: Global, lane_width: usize) -> Result<Vectors, AllocError>
        requires lane_width { IsLaneWidth lane_width }
        requires limit { length self.now.values ≤ row_limit }
        requires fit { AreCellsInRange lane_width (array_cells self.now) }
        ensures { IfOk result (λ vectors. vectors ≡ canonical_column lane_width (array_cells self.now)) }
    {
        let count = self.values.len().div_ceil(1024);
        let mut vectors = Vec::with_capacity(alloc, count)?;
        for k in 0..count {
            vectors.push(self.canonical_part(alloc, lane_width, k)?)?;
        }
        Ok(Vectors::from_vec(vectors))
    }
}

/// Puts numbers into the first places.
fn put_numbers(numbers: &[i64], values: &mut [i64; 1024])
    requires { length numbers.now ≤ 1024 }
    ensures { take (length numbers.now) values.new ≡ numbers.now }
{
    let count = numbers.len();
    values[..count].copy_from_slice(numbers);
}

/// Puts bytes into the first places.
fn put_bytes(bytes: &[u8], mask: &mut [u8; MASK_BYTES])
    requires { length bytes.now ≤ 128 }
    ensures { take (length bytes.now) mask.new ≡ bytes.now }
{
    let count = bytes.len();
    mask[..count].copy_from_slice(bytes);
}

/// Whether each number is from a least one to a greatest one.
fn are_between(numbers: &[i64], least: i64, greatest: i64) -> bool
    ensures { IsTrue result → AreBetween least greatest numbers.now }
{
    for number in numbers {
        if *number < least || *number > greatest {
            return false;
        }
    }
    true
}

/// The canonical vectors of columns that are given as arrays. If memory is refused, an `AllocError`.
pub(crate) fn canonical_arrays(
    alloc: Global,
    schema: &Schema,
    rows: usize,
    arrays: &[CellArray],
) -> Result<Vec<Vectors>, AllocError>
    requires batch { IsBatch schema.now (array_rows rows arrays.now) }
    requires long { HaveRows rows arrays.now }
    ensures forms { IfOk result (λ columns. columns.items ≡ canonical_forms (widths_of schema.now) (array_rows rows arrays.now)) }
    ensures table { IsTable schema.now }
{
    let columns = schema.column_list();
    let mut made = Vec::with_capacity(alloc, columns.len())?;
    for column in 0..columns.len() {
        let lane_width = columns[column].column_type().bits();
        made.push(arrays[column].canonical_column(alloc, lane_width)?)?;
    }
    Ok(made)
}

/// Whether columns as arrays are a batch of a table: one for each of the table's columns, of 1 to 65,536 rows, and each number in its
/// column's type, also that of a null.
pub fn are_batch(schema: &Schema, rows: usize, arrays: &[CellArray]) -> bool
    requires { HaveRows rows arrays.now }
    ensures { IsTrue result → IsBatch schema.now (array_rows rows arrays.now) }
{
    let columns = schema.column_list();
    if rows == 0 || rows > MAX_ROWS || arrays.len() != columns.len() {
        return false;
    }
    for column in 0..columns.len() {
        if !arrays[column].fits(columns[column].column_type()) {
            return false;
        }
    }
    true
}

/// Writes the cells of a row of columns.
fn write_row(arrays: &[CellArray], row: usize, cells: &mut [Option<i128>])
    requires columns { length cells.old ≡ length arrays.now }
    requires row { All (λ a. row < length a.values) arrays.now }
    ensures { cells.new ≡ array_row arrays.now row }
{
    for column in 0..cells.len() {
        cells[column] = arrays[column].cell(row);
    }
}

/// Makes `rows` rows of columns that are given as arrays: row n has cell n of each array. If memory is refused, an `AllocError`.
pub fn rows_of_arrays(alloc: Global, rows: usize, arrays: &[CellArray]) -> Result<Rows, AllocError>
    requires { HaveRows rows arrays.now }
    ensures { IfOk result (λ made. made ≡ array_rows rows arrays.now) }
{
    let mut made = Rows::new(alloc);
    let mut cells = vec![in alloc; None; arrays.len()]?;
    for row in 0..rows {
        write_row(arrays, row, cells.as_mut_slice());
        made.push_row(cells.as_slice())?;
    }
    Ok(made)
}
