//! Columns that a caller gives, as the rows of a load.
ghost use Rattle.std.specs.Prelude.{◌≡◌, ◌⊎◌, ◌<◌, ◌≤◌, ◌+◌, ◌*◌, ◌%◌, None, Some, Ok, IfErr, IfOk, OnOk, length};
ghost use Rattle.table_model.specs.Table.{column_limit, first_fault, row_limit};
ghost use Rattle.table_model.specs.declared.refusal.Refusal.TheVariants.{Memory};
ghost use Rattle.segment_core.specs.Arrays.{HaveRows, array_rows};
ghost use Rattle.replica_store.specs.Replica.{batch_limit};
ghost use Rattle.replica_changes.specs.Loads.{added_batch};
ghost use Rattle.lanes_c.specs.InputColumns.{IsNotAdded, RowIsBelow, all_rows, column_array, count_fault, input_arrays, input_batch, input_load, input_rows, later};

use live_columns::stride_of;
use replica_changes::Load;
use segment_core::CellArray;
use std::alloc::{AllocError, Global};
use std::marker::Model;
use table_model::{MAX_ROWS, MAX_STATE_ROWS, Refusal, Schema};

/// Columns that a caller gives: as many numbers as cells, one column after another, and a bit for each cell, or none if each is a
/// value.
#[derive(Drop)]
pub(crate) struct InputColumns<'a> {
    rows: usize,
    columns: usize,
    values: &'a [i64],
    valid: &'a [u8],
}

impl<'a> Model for InputColumns<'a> {
    ghost use Rattle.lanes_c.specs.InputColumns.{AreWhole, InputForm};

    ghost Value = { InputForm };

    ghost view = { λ c. record { rows = c.rows; columns = c.columns; values = c.values.now; valid = c.valid.now } };

    ghost invariant = { λ c. AreWhole (record { rows = c.rows; columns = c.columns; values = c.values.now; valid = c.valid.now }) };
}

impl<'a> InputColumns<'a> {
    /// Columns of these numbers and bits.
    ///
    /// Refused are `Full` if there are more rows than 1,048,576 batches may have, and `WrongArity` if the numbers or the bits aren't as
    /// many as the cells take.
    pub fn new(
        rows: usize,
        columns: usize,
        values: &'a [i64],
        valid: &'a [u8],
    ) -> Result<InputColumns<'a>, Refusal>
        requires { columns ≤ column_limit }
        ensures whole { IfOk result (λ input. (input ≡ record { rows = rows; columns = columns; values = values.now; valid = valid.now }) × (count_fault input ≡ None)) }
        ensures fault { IfErr result (λ e. count_fault (record { rows = rows; columns = columns; values = values.now; valid = valid.now }) ≡ Some e) }
    {
        if rows > MAX_STATE_ROWS {
            return Err(Refusal::Full);
        }
        let has_bits = valid.is_empty() || valid.len() == columns * stride_of(rows);
        if values.len() != columns * rows || !has_bits {
            return Err(Refusal::WrongArity(0));
        }
        Ok(InputColumns {
            rows,
            columns,
            values,
            valid,
        })
    }

    /// The cells of a column from a row on, of which 8 have a byte of bits.
    fn array(&self, column: usize, first: usize, count: usize) -> CellArray<'a>
        requires column { column < self.now.columns }
        requires within { first + count ≤ self.now.rows }
        requires whole { first % 8 ≡ 0 }
        ensures { result ≡ column_array self.now first count column }
    {
        let at = column * self.rows + first;
        let values = &self.values[at..at + count];
        if self.valid.is_empty() {
            return CellArray::new(values, self.valid);
        }
        let stride = stride_of(self.rows);
        let valid = &self.valid[column * stride + first / 8..(column + 1) * stride];
        CellArray::new(values, valid)
    }

    /// The cells of all columns from a row on, of which 8 have a byte of bits.
    fn arrays(
        &self,
        alloc: Global,
        first: usize,
        count: usize,
    ) -> Result<Vec<CellArray<'a>>, AllocError>
        requires within { first + count ≤ self.now.rows }
        requires whole { first % 8 ≡ 0 }
        ensures arrays { IfOk result (λ arrays. arrays.items ≡ input_arrays self.now first count) }
        ensures long { IfOk result (λ arrays. HaveRows count arrays.items) }
        ensures rows { IfOk result (λ arrays. array_rows count arrays.items ≡ input_rows self.now first count) }
    {
        let mut arrays = Vec::with_capacity(alloc, self.columns)?;
        for column in 0..self.columns {
            arrays.push(self.array(column, first, count))?;
        }
        Ok(arrays)
    }

    /// Adds the batch of an index, from 0, to a load.
    fn add_batch(&self, alloc: Global, load: &mut Load, index: usize) -> Result<(), Refusal>
        requires { index * row_limit < self.now.rows }
        ensures added { OnOk result (added_batch load.old (input_batch self.now index) ≡ Ok (tt, load.new)) }
        ensures refused { IfErr result (λ e. IsNotAdded self.now index load.old e) }
    {
        let all = self.rows;
        let first = index * MAX_ROWS;
        let count = MAX_ROWS.min(all - first);
        let arrays = self.arrays(alloc, first, count)?;
        match load.add_arrays(alloc, count, arrays.as_slice()) {
            Ok(()) => Ok(()),
            Err(refusal) => Err(later(refusal, first)),
        }
    }

    /// The load of all rows as batches of 65,536 rows, the last one shorter.
    ///
    /// Refused are `OutOfType` with the first row that has such a cell, and from the left the first such column; and `Memory`.
    pub fn load(&self, alloc: Global, schema: &Schema) -> Result<Load, Refusal>
        requires { self.now.columns ≡ length schema.now.columns }
        ensures loaded { IfOk result (λ load. (first_fault schema.now.columns 0 (all_rows self.now) ≡ None) × (load ≡ input_load schema.now self.now)) }
        ensures refused { IfErr result (λ e. (first_fault schema.now.columns 0 (all_rows self.now) ≡ Some e) ⊎ (e ≡ Memory)) }
    {
        let mut load = Load::new(alloc, schema)?;
        for index in 0..self.rows.div_ceil(MAX_ROWS) {
            self.add_batch(alloc, &mut load, index)?;
        }
        Ok(load)
    }
}

/// The refusal of a row that comes a number of rows later.
fn later(refusal: Refusal, rows: usize) -> Refusal
    requires row { RowIsBelow row_limit refusal }
    requires rows { rows ≤ batch_limit * row_limit }
    ensures { result ≡ later rows refusal }
{
    match refusal {
        Refusal::OutOfType { row, column } => Refusal::OutOfType {
            row: row + rows,
            column,
        },
        Refusal::WrongArity(row) => Refusal::WrongArity(row + rows),
        other => other,
    }
}
