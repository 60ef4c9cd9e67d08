//! Answers with their columns in line.
ghost use Rattle.std.specs.Prelude.{◌≡◌, ◌++◌, ◌-◌, OnOk, IfOk, map, [], length, get_or, replicate};
ghost use Rattle.std.specs.String.{string_bytes};
ghost use Rattle.table_model.specs.Answer.{field_text};
ghost use Rattle.answer_formats.specs.Formats.{separated, text_at, widest, widths_from, to_the_right, in_columns, spaced_line, rule, table_rows_text, table_lines, table_answer};

use crate::answer_text::write_field;
use crate::separated::separate;
use std::alloc::{AllocError, Global};
use table_model::{Answer, AnswerRow, Field};

/// What is between two columns.
const GAP: &[u8] = b"  ";

/// The text of an answer with each column as wide as its widest text, and a rule below each heading.
pub(crate) fn table_text(alloc: Global, answer: &Answer) -> Result<Vec<u8>, AllocError>
    ensures { IfOk result (λ written. written.items ≡ table_answer answer.now) }
{
    let mut room = Vec::new(alloc);
    let widths = widths(alloc, &mut room, answer.heading(), answer.rows())?;
    let mut out = Vec::new(alloc);
    write_heading(&mut out, widths.as_slice(), answer.heading())?;
    write_rules(&mut out, widths.as_slice())?;
    write_rows(&mut out, &mut room, widths.as_slice(), answer.rows())?;
    Ok(out)
}

/// The width of each column. The room is for the text of a field.
fn widths(
    alloc: Global,
    room: &mut Vec<u8>,
    headings: &[String],
    rows: &[AnswerRow],
) -> Result<Vec<usize>, AllocError>
    ensures { IfOk result (λ widths. widths.items ≡ widths_from 0 (map string_bytes headings.now) rows.now) }
{
    let mut widths = Vec::new(alloc);
    for column in 0..headings.len() {
        let width = headings[column].len();
        widths.push(column_width(room, rows, column, width)?)?;
    }
    Ok(widths)
}

/// The width of a column whose heading has this width.
fn column_width(
    room: &mut Vec<u8>,
    rows: &[AnswerRow],
    column: usize,
    heading: usize,
) -> Result<usize, AllocError>
    ensures { IfOk result (λ width. width ≡ widest column heading rows.now) }
{
    let mut width = heading;
    for row in rows {
        put_text_at(room, row.fields(), column)?;
        width = width.max(room.len());
    }
    Ok(width)
}

/// Puts the text of a row's field in a column into the room.
fn put_text_at(room: &mut Vec<u8>, fields: &[Field], column: usize) -> Result<(), AllocError>
    ensures { OnOk result (room.new.items ≡ text_at column fields.now) }
{
    room.clear();
    if column >= fields.len() {
        return Ok(());
    }
    write_field(room, fields[column])
}

/// Writes the same byte so often.
fn write_times(out: &mut Vec<u8>, byte: u8, count: usize) -> Result<(), AllocError>
    ensures { OnOk result (out.new.items ≡ out.old.items ++ replicate count byte) }
{
    for _ in 0..count {
        out.push(byte)?;
    }
    Ok(())
}

/// Writes a text at the right of a column.
fn write_right(out: &mut Vec<u8>, width: usize, text: &[u8]) -> Result<(), AllocError>
    ensures { OnOk result (out.new.items ≡ out.old.items ++ to_the_right width text.now) }
{
    write_times(out, b' ', width.saturating_sub(text.len()))?;
    out.extend_from_slice(text)
}

/// Writes the line of a heading.
fn write_heading(out: &mut Vec<u8>, widths: &[usize], headings: &[String]) -> Result<(), AllocError>
    ensures { OnOk result (out.new.items ≡ out.old.items ++ spaced_line (in_columns widths.now (map string_bytes headings.now))) }
{
    for column in 0..widths.len().min(headings.len()) {
        separate(out, GAP, column)?;
        write_right(out, widths[column], headings[column].as_bytes())?;
    }
    out.extend_from_slice(b"\n")?;
    Ok(())
}

/// Writes the line of the rules below a heading.
fn write_rules(out: &mut Vec<u8>, widths: &[usize]) -> Result<(), AllocError>
    ensures { OnOk result (out.new.items ≡ out.old.items ++ spaced_line (map rule widths.now)) }
{
    for column in 0..widths.len() {
        separate(out, GAP, column)?;
        write_times(out, b'-', widths[column])?;
    }
    out.extend_from_slice(b"\n")?;
    Ok(())
}

/// Writes a line for each row. The room is for the text of a field.
fn write_rows(
    out: &mut Vec<u8>,
    room: &mut Vec<u8>,
    widths: &[usize],
    rows: &[AnswerRow],
) -> Result<(), AllocError>
    ensures { OnOk result (out.new.items ≡ out.old.items ++ table_rows_text widths.now rows.now) }
{
    for row in rows {
        write_row(out, room, widths, row.fields())?;
    }
    Ok(())
}

/// Writes the line of a row.
fn write_row(
    out: &mut Vec<u8>,
    room: &mut Vec<u8>,
    widths: &[usize],
    fields: &[Field],
) -> Result<(), AllocError>
    ensures { OnOk result (out.new.items ≡ out.old.items ++ spaced_line (in_columns widths.now (map field_text fields.now))) }
{
    for column in 0..widths.len().min(fields.len()) {
        separate(out, GAP, column)?;
        put_text_at(room, fields, column)?;
        write_right(out, widths[column], room.as_slice())?;
    }
    out.extend_from_slice(b"\n")?;
    Ok(())
}
