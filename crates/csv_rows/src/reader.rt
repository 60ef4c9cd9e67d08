//! Rows of a text of comma-separated values, batch by batch.
ghost use Rattle.std.specs.Prelude.{◌≡◌, ◌<◌, ◌≤◌, ◌+◌, ◌++◌, [], suc, length, Ok, Err, None, IfOk, IfErr, OnOk, OnErr, IsTrue, IsFalse, IsSome, Option, List, ℕ};
ghost use Rattle.std.specs.Io.KnownBytes.{IsAtEnd};
ghost use Rattle.table_model.specs.Faults.{read_limit};
ghost use Rattle.table_model.specs.Table.{AreRows, row_limit};
ghost use Rattle.csv_rows.specs.Reading.{at_start, at_start_in, to_come, AsKnown, Began, Begins, CountsOn, Filled, Gave, GoesOn, IsAtLine, NothingToCome, Refuses, RefusesOn, RowsOfLines, Came, Counts, ReadsOnward};
ghost use Rattle.csv_rows.specs.CsvText.{is_cut, header_rows, rows_from};
ghost use Rattle.csv_rows.specs.FieldColumn.{column_of};
ghost use Rattle.csv_rows.specs.Line.{lines_of, text_line};
ghost use Rattle.csv_rows.specs.RowReading.{IsBetweenLines, ReadsHeading, ReadsOn, RefusesLines, RefusesHeader, NoLines, TakesLines};

use crate::dialect::Dialect;
use crate::error::CsvError;
use crate::header::order_of_header;
use crate::lines::{Found, Lines};
use crate::order::Order;
use crate::row::push_row;
use std::alloc::{AllocError, Global};
use std::io::Read;
use std::marker::Model;
use table_model::{Column, Counted, MAX_ROWS, READ_LIMIT, Refusal, Rows, Schema};

/// How many lines are read at most: each but the last has a byte at least.
const TURNS: u64 = READ_LIMIT + 1;

/// A reader of the rows of a text of comma-separated values. It keeps a line of the text, and a chunk of 65,536 bytes.
#[derive(Drop)]
pub struct CsvReader {
    schema: Schema,
    dialect: Dialect,
    has_header: bool,
    order: Option<Order>,
    lines: Lines,
}

impl Model for CsvReader {
    ghost use Rattle.std.specs.Prelude.{◌≡◌, ◌<◌, length, IfNone};
    ghost use Rattle.csv_rows.specs.Reading.{Reading};

    ghost Value = { Reading };

    ghost view = { λ c. record { table = c.schema; dialect = c.dialect; has_header = c.has_header; order = c.order; line = c.lines.line; has_end = c.lines.has_end; number = c.lines.number; pending = c.lines.pending; given = c.lines.given } };

    ghost invariant = { λ c. IfNone c.order ((c.lines.at ≡ 0) × (length c.lines.pending < 3) × (c.lines.number ≡ 0)) };
}

impl CsvReader {
    /// A reader of rows of this schema, from the start of a text in the usual dialect. If the text has a header, its first line names
    /// all columns. It reads nothing yet.
    pub fn new(alloc: Global, schema: &Schema, has_header: bool) -> Result<CsvReader, AllocError>
        ensures { IfOk result (λ csv. csv ≡ at_start schema.now has_header) }
    {
        CsvReader::in_dialect(alloc, schema, has_header, Dialect::usual())
    }

    /// A reader of rows of this schema, from the start of a text in this dialect. If the text has a header, its first line gives the order
    /// of the columns, or is passed over if the dialect has an order. It reads nothing yet.
    pub fn in_dialect(
        alloc: Global,
        schema: &Schema,
        has_header: bool,
        dialect: Dialect,
    ) -> Result<CsvReader, AllocError>
        ensures { IfOk result (λ csv. csv ≡ at_start_in dialect schema.now has_header) }
    {
        let schema = schema.copy(alloc)?;
        let lines = Lines::new(alloc)?;
        Ok(CsvReader {
            schema,
            dialect,
            has_header,
            order: None,
            lines,
        })
    }

    /// Reads the next rows: 65,536 of them, or fewer, possibly none, if they are the last.
    ///
    /// `BadCsv` and `LineTooLong` are the first fault of the text; `ReadFault` is answered only if the reader below failed or
    /// gave more than 2^48 bytes. After an error only [`CsvReader::line`], [`CsvReader::is_cut`] and
    /// [`CsvReader::column_of`] are of use.
    pub fn next_batch<R: Read>(
        &mut self,
        alloc: Global,
        reader: &mut Counted<R>,
    ) -> Result<Rows, CsvError>
        ensures rows { IfOk result (λ rows. Gave self.old self.new rows (R.remaining reader.old.0) (R.remaining reader.new.0)) }
        ensures fits { IfOk result (λ rows. AreRows self.old.table.columns rows) }
        ensures limit { IfOk result (λ rows. length rows ≤ row_limit) }
        ensures end { IfOk result (λ rows. length rows < row_limit → NothingToCome self.new (R.remaining reader.old.0) (R.remaining reader.new.0)) }
        ensures further { IfOk result (λ rows. self.old.number + length rows ≤ self.new.number) }
        ensures bound { OnOk result (self.new.number ≤ read_limit) }
        ensures table { self.new.table ≡ self.old.table }
        ensures dialect { self.new.dialect ≡ self.old.dialect }
        ensures fault { IfErr result (λ e. Refuses self.old e (R.remaining reader.old.0)) }
        ensures came { Came self.old.given self.new.given (R.remaining reader.old.0) (R.remaining reader.new.0) }
        ensures within { OnOk result (self.new.given ≤ read_limit) }
        ensures kept { OnOk result (reader.new.1 ≡ reader.old.1) }
        ensures counts { IfErr result (λ e. Counts (read_limit < self.new.given) e reader.old.1 reader.new.1) }
    {
        let mut rows = Rows::new(alloc);
        self.fill_batch(alloc, reader, &mut rows)?;
        Ok(rows)
    }

    /// Reads rows behind those that are there, fewer than 65,536, until there are 65,536, or until the reader below has no more bytes. If these end
    /// with a line's end, the text may go on: the next call reads on from another reader.
    ///
    /// Refused is what [`CsvReader::next_batch`] refuses. Some rows may be behind those that were there then.
    pub fn fill_batch<R: Read>(
        &mut self,
        alloc: Global,
        reader: &mut Counted<R>,
        rows: &mut Rows,
    ) -> Result<(), CsvError>
        requires few { length rows.old < row_limit }
        ensures rows { OnOk result (Filled self.old self.new rows.old rows.new (R.remaining reader.old.0) (R.remaining reader.new.0)) }
        ensures fits { OnOk result (AreRows self.old.table.columns rows.old → AreRows self.old.table.columns rows.new) }
        ensures limit { OnOk result (length rows.new ≤ row_limit) }
        ensures end { OnOk result (length rows.new < row_limit → NothingToCome self.new (R.remaining reader.old.0) (R.remaining reader.new.0)) }
        ensures further { OnOk result (self.old.number + length rows.new ≤ self.new.number + length rows.old) }
        ensures bound { OnOk result (self.new.number ≤ read_limit) }
        ensures table { self.new.table ≡ self.old.table }
        ensures dialect { self.new.dialect ≡ self.old.dialect }
        ensures fault { IfErr result (λ e. Refuses self.old e (R.remaining reader.old.0)) }
        ensures came { Came self.old.given self.new.given (R.remaining reader.old.0) (R.remaining reader.new.0) }
        ensures within { OnOk result (self.new.given ≤ read_limit) }
        ensures kept { OnOk result (reader.new.1 ≡ reader.old.1) }
        ensures counts { IfErr result (λ e. Counts (read_limit < self.new.given) e reader.old.1 reader.new.1) }
        ensures order { IsSome self.old.order → self.new.order ≡ self.old.order }
        ensures began { OnOk result (Began self.old self.new (R.remaining reader.old.0)) }
        ensures counted { OnOk result (CountsOn self.old self.new (R.remaining reader.old.0) (R.remaining reader.new.0)) }
        ensures between { OnOk result (length rows.new < row_limit → IsAtLine self.new (R.remaining reader.old.0) (R.remaining reader.new.0)) }
        ensures onward { OnOk result (GoesOn self.old self.new rows.old rows.new (R.remaining reader.old.0) (R.remaining reader.new.0)) }
        ensures refused { IfErr result (λ e. RefusesOn self.old e (R.remaining reader.old.0)) }
    {
        if self.lines.given() > READ_LIMIT {
            return Err(CsvError::Refused(Refusal::ReadFault));
        }
        if self.order.is_none() {
            self.begin(alloc, reader)?;
        }
        self.more_rows(alloc, reader, rows)
    }

    /// The line that was read last, without its end: after `BadCsv` the line at fault, which is empty if there is no header.
    pub fn line(&self) -> &[u8]
        ensures { result.now ≡ self.now.line }
    {
        self.lines.line()
    }

    /// Whether the line that was read last is refused because it has no end, which the dialect needs: after `BadCsv` with column 0.
    pub fn is_cut(&self) -> bool
        ensures { result ≡ is_cut self.now.dialect (text_line self.now.line self.now.has_end) }
    {
        self.dialect.is_cut(self.lines.has_end())
    }

    /// The place in the schema, from 0, of the column to which a field belongs, by the field's column in the text, counted from 1:
    /// after `BadCsv` in a row, that of the faulty field's column. None for a field of the header and one that is passed over, and if a
    /// line does not have that field.
    pub fn column_of(&self, column: u64) -> Option<usize>
        ensures { result ≡ column_of self.now column }
    {
        if column == 0 || (self.has_header && self.lines.number() <= 1) {
            return None;
        }
        match &self.order {
            None => None,
            Some(order) => match order.fields().get(column as usize - 1) {
                None => None,
                Some(place) => *place,
            },
        }
    }

    /// Passes over a byte order mark, and reads the header if there is one.
    fn begin<R: Read>(&mut self, alloc: Global, reader: &mut Counted<R>) -> Result<(), CsvError>
        requires { self.old.order ≡ None }
        ensures begun { OnOk result (IsSome self.new.order) }
        ensures begins { OnOk result (Begins self.old self.new (R.remaining reader.old.0) (R.remaining reader.new.0)) }
        ensures rows { OnOk result (AsKnown (λ bytes rest. to_come self.old bytes ≡ to_come self.new rest) (R.remaining reader.old.0) (R.remaining reader.new.0)) }
        ensures further { self.old.number ≤ self.new.number }
        ensures table { self.new.table ≡ self.old.table }
        ensures dialect { self.new.dialect ≡ self.old.dialect }
        ensures fault { IfErr result (λ e. Refuses self.old e (R.remaining reader.old.0)) }
        ensures reads { ReadsOnward R.remaining Counts self.old.given self.new.given reader.old reader.new result }
    {
        let plain = self.dialect.plain_order(alloc, self.schema.column_list())?;
        self.lines.skip_mark(reader)?;
        self.order = Some(plain);
        if !self.has_header {
            return Ok(());
        }
        let order = read_order(
            alloc,
            &self.dialect,
            self.schema.column_list(),
            &mut self.lines,
            reader,
        )?;
        self.order = Some(order);
        Ok(())
    }

    /// Reads rows behind those that are there, once the order of the columns is known.
    fn more_rows<R: Read>(
        &mut self,
        alloc: Global,
        reader: &mut Counted<R>,
        rows: &mut Rows,
    ) -> Result<(), CsvError>
        requires begun { IsSome self.old.order }
        requires within { self.old.given ≤ read_limit }
        requires few { length rows.old < row_limit }
        ensures rows { OnOk result (Filled self.old self.new rows.old rows.new (R.remaining reader.old.0) (R.remaining reader.new.0)) }
        ensures fits { OnOk result (AreRows self.old.table.columns rows.old → AreRows self.old.table.columns rows.new) }
        ensures limit { OnOk result (length rows.new ≤ row_limit) }
        ensures end { OnOk result (length rows.new < row_limit → NothingToCome self.new (R.remaining reader.old.0) (R.remaining reader.new.0)) }
        ensures further { OnOk result (self.old.number + length rows.new ≤ self.new.number + length rows.old) }
        ensures bound { OnOk result (self.new.number ≤ read_limit) }
        ensures table { self.new.table ≡ self.old.table }
        ensures dialect { self.new.dialect ≡ self.old.dialect }
        ensures fault { IfErr result (λ e. Refuses self.old e (R.remaining reader.old.0)) }
        ensures reads { ReadsOnward R.remaining Counts self.old.given self.new.given reader.old reader.new result }
        ensures within { OnOk result (self.new.given ≤ read_limit) }
        ensures order { self.new.order ≡ self.old.order }
        ensures taken { OnOk result (RowsOfLines self.old self.new rows.old rows.new (R.remaining reader.old.0) (R.remaining reader.new.0)) }
        ensures between { OnOk result (length rows.new < row_limit → IsAtLine self.new (R.remaining reader.old.0) (R.remaining reader.new.0)) }
    {
        let Some(order) = &self.order else {
            return Ok(());
        };
        let columns = self.schema.column_list();
        fill_rows(
            alloc,
            &self.dialect,
            columns,
            order.fields(),
            &mut self.lines,
            reader,
            rows,
        )
    }
}

/// The order of the columns that the first line, a header, gives.
fn read_order<R: Read>(
    alloc: Global,
    dialect: &Dialect,
    columns: &[Column],
    lines: &mut Lines,
    reader: &mut Counted<R>,
) -> Result<Order, CsvError>
    ensures order { IfOk result (λ order. AsKnown (λ bytes rest. header_rows dialect.now columns.now (lines_of (lines.old.pending ++ bytes)) ≡ rows_from dialect.now columns.now order 2 (lines_of (lines.new.pending ++ rest))) (R.remaining reader.old.0) (R.remaining reader.new.0)) }
    ensures heading { IfOk result (λ order. ReadsHeading dialect.now columns.now lines.old lines.new order (R.remaining reader.old.0) (R.remaining reader.new.0)) }
    ensures number { IfOk result (λ _. lines.new.number ≡ suc lines.old.number) }
    ensures further { lines.old.number ≤ lines.new.number }
    ensures fault { IfErr result (λ e. RefusesHeader dialect.now columns.now lines.old e (R.remaining reader.old.0)) }
    ensures reads { ReadsOnward R.remaining Counts lines.old.given lines.new.given reader.old reader.new result }
{
    match lines.advance(reader)? {
        Found::Line => order_of_header(alloc, dialect, columns, lines),
        Found::TooLong => Err(CsvError::LineTooLong { line: 1 }),
        Found::End => Err(CsvError::BadCsv { line: 1, column: 0 }),
    }
}

/// Reads a line, and adds its row after the rows unless it is skipped; answers whether there was a line. The row is read into
/// `cells`, in place of what is there.
fn read_line<R: Read>(
    dialect: &Dialect,
    columns: &[Column],
    order: &[Option<usize>],
    lines: &mut Lines,
    reader: &mut Counted<R>,
    cells: &mut Vec<Option<i128>>,
    rows: &mut Rows,
) -> Result<bool, CsvError>
    requires { lines.old.given ≤ read_limit }
    ensures rows { OnOk result (ReadsOn dialect.now columns.now order.now lines.old lines.new rows.old rows.new (R.remaining reader.old.0) (R.remaining reader.new.0)) }
    ensures fits { OnOk result (AreRows columns.now rows.old → AreRows columns.now rows.new) }
    ensures len { OnOk result (length rows.new ≤ length rows.old + 1) }
    ensures further { IfOk result (λ found. IsTrue found → (lines.new.number ≡ suc lines.old.number)) }
    ensures end { IfOk result (λ found. IsFalse found → (rows.new ≡ rows.old) × (lines.new.number ≡ lines.old.number) × NoLines dialect.now columns.now order.now lines.new (R.remaining reader.old.0) (R.remaining reader.new.0)) }
    ensures fault { IfErr result (λ e. RefusesLines dialect.now columns.now order.now lines.old e (R.remaining reader.old.0)) }
    ensures bound { OnOk result (lines.new.number ≤ read_limit) }
    ensures reads { ReadsOnward R.remaining Counts lines.old.given lines.new.given reader.old reader.new result }
    ensures within { OnOk result (lines.new.given ≤ read_limit) }
    ensures taken { OnOk result (TakesLines dialect.now columns.now order.now lines.old lines.new rows.old rows.new (R.remaining reader.old.0) (R.remaining reader.new.0)) }
    ensures between { IfOk result (λ found. IsFalse found → IsBetweenLines lines.new (R.remaining reader.old.0) (R.remaining reader.new.0)) }
{
    match lines.advance(reader)? {
        Found::Line => {
            push_row(dialect, columns, order, lines, cells, rows)?;
            Ok(true)
        }
        Found::TooLong => Err(CsvError::LineTooLong {
            line: lines.number() + 1,
        }),
        Found::End => Ok(false),
    }
}

/// Reads rows behind those that are there until there are 65,536, or no more lines.
fn fill_rows<R: Read>(
    alloc: Global,
    dialect: &Dialect,
    columns: &[Column],
    order: &[Option<usize>],
    lines: &mut Lines,
    reader: &mut Counted<R>,
    rows: &mut Rows,
) -> Result<(), CsvError>
    requires given { lines.old.given ≤ read_limit }
    requires few { length rows.old < row_limit }
    ensures rows { OnOk result (ReadsOn dialect.now columns.now order.now lines.old lines.new rows.old rows.new (R.remaining reader.old.0) (R.remaining reader.new.0)) }
    ensures fits { OnOk result (AreRows columns.now rows.old → AreRows columns.now rows.new) }
    ensures limit { OnOk result (length rows.new ≤ row_limit) }
    ensures end { OnOk result (length rows.new < row_limit → NoLines dialect.now columns.now order.now lines.new (R.remaining reader.old.0) (R.remaining reader.new.0)) }
    ensures further { OnOk result (lines.old.number + length rows.new ≤ lines.new.number + length rows.old) }
    ensures bound { OnOk result (lines.new.number ≤ read_limit) }
    ensures fault { IfErr result (λ e. RefusesLines dialect.now columns.now order.now lines.old e (R.remaining reader.old.0)) }
    ensures reads { ReadsOnward R.remaining Counts lines.old.given lines.new.given reader.old reader.new result }
    ensures within { OnOk result (lines.new.given ≤ read_limit) }
    ensures taken { OnOk result (TakesLines dialect.now columns.now order.now lines.old lines.new rows.old rows.new (R.remaining reader.old.0) (R.remaining reader.new.0)) }
    ensures between { OnOk result (length rows.new < row_limit → IsBetweenLines lines.new (R.remaining reader.old.0) (R.remaining reader.new.0)) }
{
    let mut cells = Vec::new(alloc);
    for _turn in 0..TURNS {
        if !read_line(dialect, columns, order, lines, reader, &mut cells, rows)? {
            return Ok(());
        }
        if rows.len() >= MAX_ROWS {
            return Ok(());
        }
    }
    Err(CsvError::Refused(Refusal::ReadFault))
}
