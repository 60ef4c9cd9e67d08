//! Calls of schemas and rows, each with a growth refused. A test's own growths are counted from 1: with the Nth refused, a test
//! fails by an `AllocError` or `Memory` of its set-up, or, if it was a growth of the call that it is of, as `growth_refused`
//! says; with none refused it passes. The command `tests/refused-memory` refuses each in turn and counts those texts.
use std::alloc::{AllocError, Global};
use std::test::Fail;
use table_model::{ColType, Refusal, Row, Rows, Schema};
use test_support::growth_refused;

/// The columns of these tests.
const COLUMNS: [(&str, ColType); 2] = [("A", ColType::SmallInt), ("B", ColType::BigInt)];

/// Makes the schema of these tests.
fn make(alloc: Global) -> Result<(), Refusal> {
    let _ = Schema::new(alloc, "T", &COLUMNS)?;
    Ok(())
}

#[test]
fn a_refused_schema_can_be_made_again(rt: HostRuntime) -> Result<(), Fail> {
    match make(rt.alloc()) {
        Ok(()) => Ok(()),
        Err(fault) => {
            let again = make(rt.alloc());
            growth_refused(fault == Refusal::Memory && again.is_ok())
        }
    }
}

/// Makes a copy of a schema.
fn copy(alloc: Global, schema: &Schema) -> Result<(), AllocError> {
    let _ = schema.copy(alloc)?;
    Ok(())
}

/// Whether a schema is that of these tests.
fn is_table(schema: &Schema) -> bool {
    schema.table() == "T" && schema.columns() == COLUMNS.len()
}

/// Copies the schema of these tests.
fn see_copy(alloc: Global, schema: &Schema) -> Result<(), Fail> {
    match copy(alloc, schema) {
        Ok(()) => Ok(()),
        Err(AllocError) => {
            let again = copy(alloc, schema);
            growth_refused(is_table(schema) && again.is_ok())
        }
    }
}

#[test]
fn a_refused_copy_leaves_its_schema(rt: HostRuntime) -> Result<(), Fail> {
    let schema = Schema::new(rt.alloc(), "T", &COLUMNS)?;
    see_copy(rt.alloc(), &schema)
}

/// The cells of a row of these tests.
const CELLS: [Option<i128>; 2] = [Some(7), None];

/// Two rows of these tests.
fn two_rows(alloc: Global) -> Result<[Row; 2], AllocError> {
    Ok([
        Row::from_cells(Vec::from_slice(alloc, &CELLS)?),
        Row::from_cells(Vec::from_slice(alloc, &CELLS)?),
    ])
}

/// Whether the rows are so many of these tests.
fn are_rows(rows: &Rows, count: usize) -> bool {
    rows.len() == count
        && (0..rows.len()).all(|row| row >= rows.len() || rows.row(row) == CELLS.as_slice())
}

/// Copies a list of rows.
fn copy_rows(alloc: Global, rows: &[Row]) -> Result<(), Fail> {
    match Rows::copy_of(alloc, rows) {
        Ok(copied) => if are_rows(&copied, 2) {
            Ok(())
        } else {
            growth_refused(false)
        },
        Err(AllocError) => growth_refused(rows.len() == 2 && Rows::copy_of(alloc, rows).is_ok()),
    }
}

#[test]
fn a_refused_copy_leaves_its_list_of_rows(rt: HostRuntime) -> Result<(), Fail> {
    let rows = two_rows(rt.alloc())?;
    copy_rows(rt.alloc(), &rows)
}

/// Adds a row to one that is there.
fn push_row(alloc: Global) -> Result<(), Fail> {
    let mut rows = Rows::new(alloc);
    rows.push_row(&CELLS)?;
    match rows.push_row(&CELLS) {
        Ok(()) => if are_rows(&rows, 2) {
            Ok(())
        } else {
            growth_refused(false)
        },
        Err(AllocError) => {
            let is_same = are_rows(&rows, 1);
            growth_refused(is_same && rows.push_row(&CELLS).is_ok())
        }
    }
}

#[test]
fn a_refused_row_leaves_the_rows_before_it(rt: HostRuntime) -> Result<(), Fail> {
    push_row(rt.alloc())
}
