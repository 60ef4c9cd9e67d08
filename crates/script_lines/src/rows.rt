//! Rows of a line: values in parentheses, joined by commas.
ghost use Rattle.std.specs.Prelude.{◌≡◌, None, Err};
ghost use Rattle.script_lines.specs.Reading.{ReadsPart};
ghost use Rattle.script_lines.specs.Word.{cells_of, opened_cells, rows_of};
ghost use Rattle.table_model.specs.Pieces.{without};

use crate::words::{cell, cut, without};
use std::alloc::Global;
use table_model::{Refusal, Rows};

/// The rows that the text writes: at least one.
pub fn rows(alloc: Global, text: &str) -> Result<Rows, Refusal>
    ensures { ReadsPart (λ rows. rows) result (rows_of text.now) }
{
    let mut rows = Rows::new(alloc);
    let mut cells = Vec::new(alloc);
    let mut rest = text;
    while let Some((row, after)) = cut(rest, ')') {
        read_opened_cells(row, &mut cells)?;
        rows.push_row(cells.as_slice())?;
        if after.is_empty() {
            return Ok(rows);
        }
        let Some(next) = without(after, ',') else {
            return Err(Refusal::BadLine);
        };
        rest = next;
    }
    Err(Refusal::BadLine)
}

/// Reads the row of values after a parenthesis into `cells`, in place of what is there.
fn read_opened_cells(text: &str, cells: &mut Vec<Option<i128>>) -> Result<(), Refusal>
    ensures row { ReadsPart (λ done. cells.new.items) result (opened_cells text.now) }
    ensures unopened { without 40 text.now ≡ None → result ≡ Err Refusal.BadLine }
{
    match without(text, '(') {
        None => Err(Refusal::BadLine),
        Some(values) => read_cells(values, cells),
    }
}

/// Reads the row of values joined by commas into `cells`, in place of what is there.
fn read_cells(text: &str, cells: &mut Vec<Option<i128>>) -> Result<(), Refusal>
    ensures { ReadsPart (λ done. cells.new.items) result (cells_of text.now) }
{
    cells.clear();
    let mut rest = text;
    while let Some((value, after)) = cut(rest, ',') {
        let Some(value) = cell(value) else {
            return Err(Refusal::BadLine);
        };
        cells.push(value)?;
        rest = after;
    }
    let Some(last) = cell(rest) else {
        return Err(Refusal::BadLine);
    };
    cells.push(last)?;
    Ok(())
}
