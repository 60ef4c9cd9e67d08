//! Which rows a batch of a table can have.
ghost use Rattle.std.specs.Prelude.{◌≡◌, ◌↔◌, ◌==◌, IsOk, length};
ghost use Rattle.table_model.specs.Outcome.{unless};
ghost use Rattle.table_model.specs.Table.{first_fault, row_fault, rows_fault, IsBatch};

use crate::refusal::Refusal;
use crate::rows::Rows;
use crate::schema::{Column, Schema};

/// The greatest number of rows in a batch.
pub const MAX_ROWS: usize = 65_536;

/// The greatest number of rows that a query goes over, so that sums fit 128 bits. Batches of a replica have no more.
pub const MAX_STATE_ROWS: usize = 1 << 36;

/// Whether a batch of the table can have these rows, or their first fault.
///
/// The refusals are, in this order: no rows (`EmptyBatch`), more than 65,536 (`BatchTooLong`), and then row by row a row with the
/// wrong number of cells (`WrongArity`), and from the left a cell outside its column's type (`OutOfType`).
#[tactic(auto, unfolding(crate::specs::Table::rows_fault))]
pub fn check_rows(schema: &Schema, rows: &Rows) -> Result<(), Refusal>
    ensures fault { result ≡ unless (rows_fault schema.now rows.now) }
    ensures accepts { IsOk result ↔ IsBatch schema.now rows.now }
{
    if rows.is_empty() {
        return Err(Refusal::EmptyBatch);
    }
    if rows.len() > MAX_ROWS {
        return Err(Refusal::BatchTooLong);
    }
    match first_fault(schema.column_list(), rows) {
        None => Ok(()),
        Some(fault) => Err(fault),
    }
}

/// The first fault of the rows, row by row.
fn first_fault(columns: &[Column], rows: &Rows) -> Option<Refusal>
    ensures { result ≡ first_fault columns.now 0 rows.now }
{
    for row in 0..rows.len() {
        let fault = row_fault(columns, row, rows.row(row));
        if fault.is_some() {
            return fault;
        }
    }
    None
}

/// The first fault of the row of this ordinal: its arity before its cells, and these from the left.
fn row_fault(columns: &[Column], row: usize, cells: &[Option<i128>]) -> Option<Refusal>
    ensures { result ≡ row_fault columns.now row cells.now }
{
    if cells.len() != columns.len() {
        return Some(Refusal::WrongArity(row));
    }
    for column in 0..cells.len() {
        if !columns[column].fits(cells[column]) {
            return Some(Refusal::OutOfType { row, column });
        }
    }
    None
}
