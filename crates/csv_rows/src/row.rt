//! The row of a line.
ghost use Rattle.std.specs.Prelude.{◌≡◌, ◌+◌, ◌<◌, ◌≤◌, length, option_map, MatchResult, Ok, Err, IfSome, IfOk};
ghost use Rattle.csv_rows.specs.Field.{fields_of, fields_left};
ghost use Rattle.csv_rows.specs.Line.{line_limit};
ghost use Rattle.csv_rows.specs.CsvText.{cell_at, with_field, filled, in_line, row_of, line_rows};
ghost use Rattle.csv_rows.specs.LinesForm.{last_read};
ghost use Rattle.csv_rows.specs.Outcome.{ReadsCsv, ReadsBehind};

use crate::bytes::{count_fields, first_field};
use crate::dialect::Dialect;
use crate::error::CsvError;
use crate::field::cell_in;
use crate::lines::Lines;
use table_model::{Column, Rows};

/// The cell that a field is below the column of this place, if it is one.
fn cell_at(
    dialect: &Dialect,
    columns: &[Column],
    place: usize,
    field: &[u8],
) -> Option<Option<i128>>
    ensures cell { result ≡ cell_at dialect.now columns.now place field.now }
    ensures place { IfSome result (λ _. place < length columns.now) }
{
    let column = columns.get(place)?;
    cell_in(dialect, column, field)
}

/// Puts the cell of a field at its column's place, unless the field is passed over; or answers the field's place in its line if it is
/// at fault.
#[inline]
fn put_field(
    dialect: &Dialect,
    columns: &[Column],
    at: u64,
    place: Option<usize>,
    field: &[u8],
    cells: &mut Vec<Option<i128>>,
) -> Result<(), u64>
    requires { length cells.old.items ≡ length columns.now }
    ensures put { MatchResult result (λ _. with_field dialect.now columns.now at place field.now cells.old.items ≡ Ok cells.new.items)
        (λ column. with_field dialect.now columns.now at place field.now cells.old.items ≡ Err column) }
    ensures long { length cells.new.items ≡ length columns.now }
{
    let Some(place) = place else {
        return Ok(());
    };
    let Some(cell) = cell_at(dialect, columns, place, field) else {
        return Err(at);
    };
    cells[place] = cell;
    Ok(())
}

/// How many fields the rest of a line has.
fn count_left(dialect: &Dialect, rest: Option<&[u8]>) -> usize
    ensures { result ≡ length (fields_left dialect.now.separator (option_map (λ text. text.now) rest.entry)) }
{
    match rest {
        None => 0,
        Some(text) => count_fields(text, dialect.separator()),
    }
}

/// Puts the cell of each field at its column's place, and answers how many fields the line has; or answers the first faulty
/// field, counted from 1.
fn fill(
    dialect: &Dialect,
    columns: &[Column],
    order: &[Option<usize>],
    line: &[u8],
    cells: &mut Vec<Option<i128>>,
) -> Result<usize, u64>
    requires long { length cells.old.items ≡ length columns.now }
    requires limit { length line.now ≤ line_limit }
    ensures row { MatchResult result (λ _. filled dialect.now columns.now 1 order.now (fields_of dialect.now.separator line.now) cells.old.items ≡ Ok cells.new.items)
        (λ column. filled dialect.now columns.now 1 order.now (fields_of dialect.now.separator line.now) cells.old.items ≡ Err column) }
    ensures fields { IfOk result (λ fields. fields ≡ length (fields_of dialect.now.separator line.now)) }
{
    let mut rest = Some(line);
    let mut fields: usize = 0;
    for place in order {
        let Some(text) = rest else {
            return Ok(fields);
        };
        let (field, after) = first_field(text, dialect.separator());
        fields += 1;
        if let Err(column) = put_field(dialect, columns, fields as u64, *place, field, cells) {
            return Err(column);
        }
        rest = after;
    }
    Ok(fields + count_left(dialect, rest))
}

/// Reads the row of a line with this number into `cells`, in place of what is there. The fields of a good line are cut once, and
/// counted on the way; a wrong number of fields is reported before a fault in one of them.
pub fn read_row(
    dialect: &Dialect,
    columns: &[Column],
    order: &[Option<usize>],
    number: u64,
    line: &[u8],
    cells: &mut Vec<Option<i128>>,
) -> Result<(), CsvError>
    requires { length line.now ≤ line_limit }
    ensures { ReadsCsv (λ done. cells.new.items) result (in_line number (row_of dialect.now columns.now order.now line.now)) }
{
    cells.clear();
    cells.resize(columns.len(), None)?;
    match fill(dialect, columns, order, line, cells) {
        Ok(fields) if fields == order.len() => Ok(()),
        Err(column) if count_fields(line, dialect.separator()) == order.len() => Err(
            CsvError::BadCsv {
                line: number,
                column,
            },
        ),
        _ => Err(CsvError::BadCsv {
            line: number,
            column: 0,
        }),
    }
}

/// Adds the row of the line that was read last after the rows, unless the line is skipped. The row is read into `cells`, in place of
/// what is there.
#[tactic(auto, unfolding(crate::specs::CsvText::line_rows))]
pub fn push_row(
    dialect: &Dialect,
    columns: &[Column],
    order: &[Option<usize>],
    lines: &Lines,
    cells: &mut Vec<Option<i128>>,
    rows: &mut Rows,
) -> Result<(), CsvError>
    requires { length lines.now.line ≤ line_limit }
    ensures rows { ReadsBehind rows.old result rows.new (line_rows dialect.now columns.now order.now lines.now.number (last_read lines.now)) }
    ensures len { length rows.new ≤ length rows.old + 1 }
{
    let line = lines.line();
    if line.is_empty() && order.len() != 1 {
        return Ok(());
    }
    if dialect.is_cut(lines.has_end()) {
        return Err(CsvError::BadCsv {
            line: lines.number(),
            column: 0,
        });
    }
    read_row(dialect, columns, order, lines.number(), line, cells)?;
    rows.push_row(cells.as_slice())?;
    Ok(())
}
