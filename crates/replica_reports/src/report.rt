//! Telling what a file holds: its counts, and a line a column.
ghost use Rattle.std.specs.Prelude.{◌≡◌, ◌≢◌, ◌⊎◌, ◌<◌, Some, length, slice_get, IsTrue, IfOk, IfErr, OnOk};
ghost use Rattle.table_model.specs.Faults.{CountsWrites};
ghost use Rattle.table_model.specs.State.{named_rows};
ghost use Rattle.table_model.specs.Table.{ColumnShape};
ghost use Rattle.table_model.specs.declared.refusal.Refusal.TheVariants.{Memory, WriteFault};
ghost use Rattle.replica_reports.specs.Asking.{is_refusal_of_answering};
ghost use Rattle.replica_reports.specs.ColumnFigures.{bits_text, column_line, column_lines, figure_text, figure_texts};
ghost use Rattle.replica_reports.specs.Counts.{WritesCounts, counts_text, file_part, rows_part, table_part};
ghost use Rattle.replica_reports.specs.Reports.{Reports, WritesReport, columns_text};

use crate::column_parts::{ColumnParts, parts_of};
use crate::columns_json::push_objects;
use crate::columns_text::{Line, aligned};
use crate::live_figures::LiveFigures;
use crate::open_file::OpenFile;
use crate::store_counts::{StoreCounts, store_counts};
use answer_formats::ReportForm;
use replica_store::Store;
use std::alloc::{AllocError, Global};
use std::io::Write;
use table_model::{Column, Counted, Field, Refusal};

/// The headings of the lines of columns.
const HEADINGS: [&str; 11] = [
    "COLUMN", "TYPE", "NULLS", "VALUES", "LEAST", "GREATEST", "FOR", "DELTA", "RLE", "DICT", "BITS",
];

/// The keys of the objects of columns, and how many of them are of texts.
const KEYS: [&str; 11] = [
    "column", "type", "nulls", "values", "least", "greatest", "for", "delta", "rle", "dict", "bits",
];

const TEXTS: usize = 2;

/// A value as it is written, and `-` if there is no value.
fn figure_text(alloc: Global, field: Field) -> Result<String, AllocError>
    ensures { IfOk result (λ text. text.bytes.items ≡ figure_text field) }
{
    match field {
        Field::Whole(value) => format!(in alloc; "{value}"),
        Field::Null | Field::Millionths(_) => String::from_str(alloc, "-"),
    }
}

/// How many bits a stored value takes, with two decimals: the bytes of a column's vectors by the rows that are stored.
fn bits_text(alloc: Global, bytes: u64, rows: u64) -> Result<String, AllocError>
    ensures { IfOk result (λ text. text.bytes.items ≡ bits_text bytes rows) }
{
    if rows == 0 {
        return String::from_str(alloc, "-");
    }
    let hundredths = u128::from(bytes) * 800 / u128::from(rows);
    let whole = hundredths / 100;
    let part = hundredths % 100;
    let tenths = part / 10;
    let last = part % 10;
    format!(in alloc; "{whole}.{tenths}{last}")
}

/// The line of a column's figures.
fn figure_line(
    alloc: Global,
    column: &Column,
    live: LiveFigures,
    parts: ColumnParts,
    rows: u64,
) -> Result<Line, AllocError>
    ensures { IfOk result (λ line. line ≡ figure_texts column.now live parts rows) }
{
    let column_type = column.column_type();
    let LiveFigures {
        nulls,
        values,
        least,
        greatest,
    } = live;
    let ColumnParts {
        frames,
        deltas,
        runs,
        dictionaries,
        bytes,
    } = parts;
    let cells = vec![in alloc;
        String::from_str(alloc, column.name())?,
        format!(in alloc; "{column_type}")?,
        format!(in alloc; "{nulls}")?,
        format!(in alloc; "{values}")?,
        figure_text(alloc, least)?,
        figure_text(alloc, greatest)?,
        format!(in alloc; "{frames}")?,
        format!(in alloc; "{deltas}")?,
        format!(in alloc; "{runs}")?,
        format!(in alloc; "{dictionaries}")?,
        bits_text(alloc, bytes, rows)?,
    ]?;
    Ok(Line::from_cells(cells))
}

/// The line of a column of a store that has a number of rows.
fn column_line(alloc: Global, store: &Store, rows: u64, place: usize) -> Result<Line, AllocError>
    requires rows { rows ≡ length (named_rows store.now.replica.state) }
    requires place { place < length store.now.replica.schema.columns }
    ensures { IfOk result (λ line. (column : ColumnShape) → slice_get store.now.replica.schema.columns place ≡ Some column → line ≡ column_line store.now place column) }
{
    let live = LiveFigures::of(alloc, store, place)?;
    let parts = parts_of(store, place);
    let line = figure_line(alloc, store.schema().column(place), live, parts, rows)?;
    Ok(line)
}

/// The lines of all columns of a store that has a number of rows, in the schema's order.
fn column_lines(alloc: Global, store: &Store, rows: u64) -> Result<Vec<Line>, AllocError>
    requires { rows ≡ length (named_rows store.now.replica.state) }
    ensures { IfOk result (λ lines. lines.items ≡ column_lines store.now 0 store.now.replica.schema.columns) }
{
    let columns = store.schema().columns();
    let mut lines = Vec::with_capacity(alloc, columns)?;
    for place in 0..columns {
        lines.push(column_line(alloc, store, rows, place)?)?;
    }
    Ok(lines)
}

/// The lines of all columns in a form, and what ends the report.
fn columns_text(alloc: Global, lines: &[Line], form: ReportForm) -> Result<Vec<u8>, AllocError>
    ensures { IfOk result (λ text. text.items ≡ columns_text form lines.now) }
{
    match form {
        ReportForm::Text => aligned(alloc, &HEADINGS, lines),
        ReportForm::Json => {
            let mut out = Vec::new(alloc);
            push_objects(&mut out, &Line::of_texts(alloc, &KEYS)?, lines, TEXTS)?;
            out.extend_from_slice(b"}\n")?;
            Ok(out)
        }
    }
}

/// What a report begins with: the table's name.
fn table_part(alloc: Global, table: &str, form: ReportForm) -> Result<String, AllocError>
    ensures { IfOk result (λ text. text.bytes.items ≡ table_part form table.now) }
{
    match form {
        ReportForm::Text => format!(in alloc; "table {table}\n"),
        ReportForm::Json => format!(in alloc; "{{\"table\":\"{table}\","),
    }
}

/// How many batches, rows and live rows a store has.
fn rows_part(alloc: Global, counts: StoreCounts, form: ReportForm) -> Result<String, AllocError>
    ensures { IfOk result (λ text. text.bytes.items ≡ rows_part form counts) }
{
    let batches = counts.batches;
    let rows = counts.rows;
    let live = counts.live;
    match form {
        ReportForm::Text => format!(in alloc; "batches {batches}\nrows {rows}\nlive {live}\n"),
        ReportForm::Json => format!(in alloc;
            "\"batches\":{batches},\"rows\":{rows},\"live\":{live},"
        ),
    }
}

/// How many ranges of deleted rows and bytes a store has, and what comes before the columns.
fn file_part(alloc: Global, counts: StoreCounts, form: ReportForm) -> Result<String, AllocError>
    ensures { IfOk result (λ text. text.bytes.items ≡ file_part form counts) }
{
    let ranges = counts.ranges;
    let bytes = counts.bytes;
    match form {
        ReportForm::Text => format!(in alloc; "ranges {ranges}\nbytes {bytes}\n\n"),
        ReportForm::Json => format!(in alloc; "\"ranges\":{ranges},\"bytes\":{bytes},\"columns\":"),
    }
}

/// A report before its columns: the table's name and the store's counts.
fn counts_text(
    alloc: Global,
    table: &str,
    counts: StoreCounts,
    form: ReportForm,
) -> Result<Vec<u8>, AllocError>
    ensures { IfOk result (λ text. text.items ≡ counts_text form table.now counts) }
{
    let mut out = table_part(alloc, table, form)?.into_bytes();
    out.extend_from_slice(rows_part(alloc, counts, form)?.as_bytes())?;
    out.extend_from_slice(file_part(alloc, counts, form)?.as_bytes())?;
    Ok(out)
}

/// What is reported of a store.
fn report(alloc: Global, store: &Store, form: ReportForm) -> Result<Vec<u8>, Refusal>
    ensures text { IfOk result (λ text. Reports form store.now text.items) }
    ensures refused { IfErr result (λ e. e ≡ Memory) }
{
    let counts = store_counts(alloc, store)?;
    let mut out = counts_text(alloc, store.schema().table(), counts, form)?;
    let lines = column_lines(alloc, store, counts.rows)?;
    let columns = columns_text(alloc, lines.as_slice(), form)?;
    out.extend_from_slice(columns.as_slice())?;
    Ok(out)
}

/// Writes what a file holds: the table's name; how many batches, stored rows, live rows, ranges of deleted rows and bytes; and a line
/// a column with its name, its type, how many live rows are null there and how many aren't, the least and the greatest live value,
/// how many vectors have each coding, and how many bits a stored value takes, the bytes of headers and null masks with them. What
/// isn't there is `-`. As JSON it is an object in one line, whose `columns` are objects, and what isn't there is `null`.
///
/// Refused are `Memory`, before anything is written, and `WriteFault`, after a front.
pub fn inspect<W: Write>(
    alloc: Global,
    file: &OpenFile,
    form: ReportForm,
    writer: &mut Counted<W>,
) -> Result<(), Refusal>
    ensures text { OnOk result (WritesReport form file.now (W.contents writer.old.0) (W.contents writer.new.0)) }
    ensures counts { OnOk result (WritesCounts form file.now.replica.schema.name file.now.replica.state (W.contents writer.old.0) (W.contents writer.new.0)) }
    ensures refused { IfErr result (λ e. IsTrue (is_refusal_of_answering e)) }
    ensures only { IfErr result (λ e. (e ≡ Memory) ⊎ (e ≡ WriteFault)) }
    ensures unwritten { IfErr result (λ e. e ≢ WriteFault → W.contents writer.new.0 ≡ W.contents writer.old.0) }
    ensures kept { OnOk result (writer.new.1 ≡ writer.old.1) }
    ensures fault { IfErr result (λ e. CountsWrites e writer.old.1 writer.new.1) }
{
    let text = report(alloc, file.store(), form)?;
    writer.write_whole(text.as_slice())
}
