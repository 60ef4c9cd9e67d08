//! The canonical vector of a column's cells.
ghost use Rattle.std.specs.Prelude.{◌≡◌, ◌≢◌, ℕ, ◌<◌, ◌≤◌, false, ℤ, FitsSigned, length, IfSome, IsSome, IfOk};
ghost use Rattle.std.specs.Int.{w64};
ghost use Rattle.transpose_order.specs.Place.{IsLaneWidth};
ghost use Rattle.transpose_order.specs.Mask.{has};
ghost use Rattle.bit_interleave.specs.Range.{value_at};
ghost use Rattle.segment_core.specs.Fill.{cells_under, AreSame, AreCellsInRange};
ghost use Rattle.segment_core.specs.CodedVector.{is_null_cell, null_rows, canonical_vector};

use crate::coded_vector::CodedVector;
use std::alloc::{AllocError, Global};
use transpose_order::Mask;

/// The canonical vector of 1 to 1024 cells, each null or in the range of `lane_width` bits, signed. If memory is refused, an
/// `AllocError`.
pub(crate) fn canonical_vector(
    alloc: Global,
    lane_width: usize,
    cells: &[Option<i128>],
) -> Result<CodedVector, AllocError>
    requires lane_width { IsLaneWidth lane_width }
    requires some { 1 ≤ length cells.now }
    requires limit { length cells.now ≤ 1024 }
    requires fit { AreCellsInRange lane_width cells.now }
    ensures { IfOk result (λ vector. vector ≡ canonical_vector lane_width cells.now) }
{
    if let Some(value) = only_value(cells) {
        return CodedVector::constant(alloc, lane_width, cells.len() as u16, value);
    }
    let mut values = [0; 1024];
    let nulls = gather(cells, &mut values);
    CodedVector::canonical(alloc, lane_width, cells.len() as u16, &nulls, &values)
}

/// The value that each of some cells has, if none is null and no two differ.
fn only_value(cells: &[Option<i128>]) -> Option<i64>
    requires some { 1 ≤ length cells.now }
    requires fit { AreCellsInRange 64 cells.now }
    ensures value { IfSome result (λ value. AreSame (length cells.now) value cells.now) }
    ensures told { (value : ℤ) → AreSame (length cells.now) value cells.now → IsSome result }
{
    let first = cells[0];
    for row in 0..cells.len() {
        if cells[row] != first {
            return None;
        }
    }
    match first {
        None => None,
        Some(value) => Some(value as i64),
    }
}

/// Writes the values of at most 1024 cells, and answers which of them are null.
fn gather(cells: &[Option<i128>], values: &mut [i64; 1024]) -> Mask
    requires limit { length cells.now ≤ 1024 }
    requires fit { AreCellsInRange 64 cells.now }
    ensures nulls { result ≡ null_rows cells.now }
    ensures cells { cells_under (length cells.now) result values.new ≡ cells.now }
{
    let mut nulls = Mask::none();
    for row in 0..cells.len() {
        put_cell(cells[row], row, &mut nulls, values);
    }
    nulls
}

/// Puts a cell into the mask of nulls, which does not have its row yet, or into the values.
fn put_cell(cell: Option<i128>, row: usize, nulls: &mut Mask, values: &mut [i64; 1024])
    requires row { row < 1024 }
    requires fits { IfSome cell (λ value. FitsSigned w64 value) }
    requires clear { has nulls.old row ≡ false }
    ensures null { has nulls.new row ≡ is_null_cell cell }
    ensures other_nulls { (n : ℕ) → n < 1024 → n ≢ row → has nulls.new n ≡ has nulls.old n }
    ensures long { length nulls.old ≡ 1024 → length nulls.new ≡ 1024 }
    ensures value { IfSome cell (λ value. value_at values.new row ≡ value) }
    ensures other_values { (n : ℕ) → n ≢ row → value_at values.new n ≡ value_at values.old n }
{
    match cell {
        None => nulls.set_range(row, row + 1, true),
        Some(value) => values[row] = value as i64,
    }
}
