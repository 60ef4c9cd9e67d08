//! The text of rows as comma-separated values.
ghost use Rattle.std.specs.Prelude.{◌≡◌, ◌<◌, ◌∷◌, ◌++◌, [], OnOk, IfOk, length, map};
ghost use Rattle.std.specs.Fmt.{decimal, signed_decimal};
ghost use Rattle.std.specs.List.{All, flat_map};
ghost use Rattle.csv_rows.specs.Written.{WritesText, cell_text, header_line_at, name_at, row_line, named_header_line_at, named_row_line, row_name_text};

use itoa::Buffer;
use std::alloc::{AllocError, Global};
use std::io::Write;
use table_model::{Column, Counted, Refusal, RowName};

/// A writer of rows as comma-separated values. It keeps the text of a line.
#[derive(Drop)]
pub struct CsvWriter {
    line: Vec<u8>,
}

impl CsvWriter {
    /// A writer that has written nothing.
    pub fn new(alloc: Global) -> CsvWriter {
        CsvWriter {
            line: Vec::new(alloc),
        }
    }

    /// Writes the line of the names of columns by their places, from the left and from 0.
    pub fn header<W: Write>(
        &mut self,
        columns: &[Column],
        places: &[usize],
        writer: &mut Counted<W>,
    ) -> Result<(), Refusal>
        requires { All (λ place. place < length columns.now) places.now }
        ensures { WritesText result (W.contents writer.old.0) (W.contents writer.new.0) writer.old.1 writer.new.1 (header_line_at columns.now places.now) }
    {
        self.line.clear();
        push_header(&mut self.line, columns, places)?;
        writer.write_whole(self.line.as_slice())
    }

    /// Writes the line of a row, a null as an empty field.
    pub fn row<W: Write>(
        &mut self,
        cells: &[Option<i128>],
        writer: &mut Counted<W>,
    ) -> Result<(), Refusal>
        ensures { WritesText result (W.contents writer.old.0) (W.contents writer.new.0) writer.old.1 writer.new.1 (row_line cells.now) }
    {
        self.line.clear();
        push_row(&mut self.line, cells)?;
        writer.write_whole(self.line.as_slice())
    }

    /// Writes the line of columns' names, with `BATCH` and `ORDINAL` before them.
    pub fn named_header<W: Write>(
        &mut self,
        columns: &[Column],
        places: &[usize],
        writer: &mut Counted<W>,
    ) -> Result<(), Refusal>
        requires { All (λ place. place < length columns.now) places.now }
        ensures { WritesText result (W.contents writer.old.0) (W.contents writer.new.0) writer.old.1 writer.new.1 (named_header_line_at columns.now places.now) }
    {
        self.line.clear();
        self.line.extend_from_slice(b"BATCH,ORDINAL,")?;
        push_header(&mut self.line, columns, places)?;
        writer.write_whole(self.line.as_slice())
    }

    /// Writes the line of a row, with its batch's name and its ordinal before its cells.
    pub fn named_row<W: Write>(
        &mut self,
        name: RowName,
        cells: &[Option<i128>],
        writer: &mut Counted<W>,
    ) -> Result<(), Refusal>
        ensures { WritesText result (W.contents writer.old.0) (W.contents writer.new.0) writer.old.1 writer.new.1 (named_row_line name cells.now) }
    {
        self.line.clear();
        push_name(&mut self.line, name)?;
        push_row(&mut self.line, cells)?;
        writer.write_whole(self.line.as_slice())
    }
}

/// Adds a row's name, with its commas, to the end of a text: `1.7,3,`.
fn push_name(out: &mut Vec<u8>, name: RowName) -> Result<(), AllocError>
    ensures { OnOk result (out.new.items ≡ out.old.items ++ row_name_text name) }
{
    push_decimal(out, u64::from(name.batch.origin.0))?;
    out.extend_from_slice(b".")?;
    push_decimal(out, u64::from(name.batch.number.0))?;
    out.extend_from_slice(b",")?;
    push_decimal(out, u64::from(name.ordinal))?;
    out.extend_from_slice(b",")
}

/// Adds a number to the end of a text.
fn push_decimal(out: &mut Vec<u8>, value: u64) -> Result<(), AllocError>
    ensures { OnOk result (out.new.items ≡ out.old.items ++ decimal value) }
{
    let mut buffer = Buffer::new();
    out.extend_from_slice(buffer.format(value).as_bytes())
}

/// The name of the column at a place.
fn name_at(columns: &[Column], place: usize) -> &[u8]
    requires { place < length columns.now }
    ensures { result.now ≡ name_at columns.now place }
{
    columns[place].name().as_bytes()
}

/// Adds the line of the names of columns by their places to the end of a text.
fn push_header(out: &mut Vec<u8>, columns: &[Column], places: &[usize]) -> Result<(), AllocError>
    requires { All (λ place. place < length columns.now) places.now }
    ensures { OnOk result (out.new.items ≡ out.old.items ++ header_line_at columns.now places.now) }
{
    let Some((first, rest)) = places.split_first() else {
        return out.extend_from_slice(b"\n");
    };
    out.extend_from_slice(name_at(columns, *first))?;
    push_more_names(out, columns, rest)?;
    out.extend_from_slice(b"\n")?;
    Ok(())
}

/// Adds the name of each column by its place to the end of a text, with a comma before it.
fn push_more_names(
    out: &mut Vec<u8>,
    columns: &[Column],
    places: &[usize],
) -> Result<(), AllocError>
    requires { All (λ place. place < length columns.now) places.now }
    ensures { OnOk result (out.new.items ≡ out.old.items ++ flat_map (λ place. 44 ∷ name_at columns.now place) places.now) }
{
    for place in places {
        out.extend_from_slice(b",")?;
        out.extend_from_slice(name_at(columns, *place))?;
    }
    Ok(())
}

/// Adds the line of a row to the end of a text.
fn push_row(out: &mut Vec<u8>, cells: &[Option<i128>]) -> Result<(), AllocError>
    ensures { OnOk result (out.new.items ≡ out.old.items ++ row_line cells.now) }
{
    let Some((first, rest)) = cells.split_first() else {
        return out.extend_from_slice(b"\n");
    };
    push_cell(out, *first)?;
    push_more_cells(out, rest)?;
    out.extend_from_slice(b"\n")?;
    Ok(())
}

/// Adds each cell to the end of a text, with a comma before it.
fn push_more_cells(out: &mut Vec<u8>, cells: &[Option<i128>]) -> Result<(), AllocError>
    ensures { OnOk result (out.new.items ≡ out.old.items ++ flat_map (λ cell. 44 ∷ cell_text cell) cells.now) }
{
    for cell in cells {
        out.extend_from_slice(b",")?;
        push_cell(out, *cell)?;
    }
    Ok(())
}

/// Adds a cell to the end of a text; a null is nothing.
fn push_cell(out: &mut Vec<u8>, cell: Option<i128>) -> Result<(), AllocError>
    ensures { OnOk result (out.new.items ≡ out.old.items ++ cell_text cell) }
{
    match cell {
        None => Ok(()),
        Some(value) => push_whole(out, value),
    }
}

/// Adds a whole number to the end of a text.
fn push_whole(out: &mut Vec<u8>, value: i128) -> Result<(), AllocError>
    ensures { OnOk result (out.new.items ≡ out.old.items ++ signed_decimal value) }
{
    let mut buffer = Buffer::new();
    out.extend_from_slice(buffer.format(value).as_bytes())
}
