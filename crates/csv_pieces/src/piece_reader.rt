//! A reader of a text that comes in pieces.
ghost use Rattle.std.specs.Prelude.{◌≡◌, ◌<◌, ◌≤◌, ◌+◌, ◌++◌, [], length, None, Some, Ok, Err, IfErr, IfOk, OnOk, IfSome};
ghost use Rattle.table_model.specs.Table.{AreRows, row_limit};
ghost use Rattle.csv_pieces.specs.PieceReading.{before_pieces, part_limit, IsOpen, Waits, Continues, RefusesBehind, TakesPiece, RefusesPiece, EndsPieces, RefusesEnd};

use crate::lines::{read_lines, whole_len};
use csv_rows::{CsvError, CsvReader, Dialect, LINE_LIMIT};
use std::alloc::{AllocError, Global};
use std::marker::Model;
use table_model::{MAX_ROWS, Rows, Schema};

/// How many bytes are kept of a line that has no end yet: those of a line, its carriage return and a byte order mark.
const PART_LIMIT: usize = LINE_LIMIT + 4;

/// A reader of the rows of a text that comes in pieces, cut anywhere: in a line, in a number, in a line's end or in a byte order mark.
/// It keeps a chunk of 65,536 bytes and the bytes of the last line, if that has no end yet.
#[derive(Drop)]
pub struct PieceReader {
    csv: CsvReader,
    part: Vec<u8>,
    fault: Option<CsvError>,
}

impl Model for PieceReader {
    ghost use Rattle.csv_pieces.specs.PieceReading.{PieceReading, IsReady};

    ghost Value = { PieceReading };

    ghost view = { λ p. record { csv = p.csv; part = p.part.items; fault = p.fault } };

    ghost invariant = { λ p. IsReady p.fault p.csv p.part.items };
}

impl PieceReader {
    /// A reader of rows of this schema, from the start of a text in this dialect. If the text has a header, its first line gives the order
    /// of the columns, or is passed over if the dialect has an order.
    pub fn new(
        alloc: Global,
        schema: &Schema,
        has_header: bool,
        dialect: Dialect,
    ) -> Result<PieceReader, AllocError>
        ensures { IfOk result (λ pieces. pieces ≡ before_pieces dialect schema.now has_header) }
    {
        let csv = CsvReader::in_dialect(alloc, schema, has_header, dialect)?;
        Ok(PieceReader {
            csv,
            part: Vec::new(alloc),
            fault: None,
        })
    }

    /// Takes bytes of the next piece, and reads the rows of the lines that end in them behind the rows that are there, fewer than 65,536.
    /// Answers how many bytes were taken: at least one, if there are any. What is left is the beginning of the next piece; if there are
    /// 65,536 rows, other ones have to be given with it.
    ///
    /// `BadCsv` and `LineTooLong` are the first fault of the text, whatever follows. After an error each call answers that error.
    pub fn read(&mut self, alloc: Global, piece: &[u8], rows: &mut Rows) -> Result<usize, CsvError>
        requires few { length rows.old < row_limit }
        ensures taken { IfOk result (λ count. TakesPiece self.old self.new rows.old rows.new piece.now count) }
        ensures fits { OnOk result (AreRows self.old.csv.table.columns rows.old → AreRows self.old.csv.table.columns rows.new) }
        ensures limit { OnOk result (length rows.new ≤ row_limit) }
        ensures held { OnOk result (length self.new.part ≤ part_limit) }
        ensures table { self.new.csv.table ≡ self.old.csv.table }
        ensures dialect { self.new.csv.dialect ≡ self.old.csv.dialect }
        ensures fault { IfErr result (λ e. RefusesPiece self.old e piece.now) }
        ensures kept { IfErr result (λ e. self.new.fault ≡ Some e) }
        ensures again { IfSome self.old.fault (λ e. (result ≡ Err e) × (self.new ≡ self.old) × (rows.new ≡ rows.old)) }
    {
        if let Some(fault) = self.fault {
            return Err(fault);
        }
        let room = MAX_ROWS - rows.len();
        let (front, _) = piece.split_at(room.min(piece.len()));
        match take(alloc, &mut self.csv, &mut self.part, front, rows) {
            Ok(count) => Ok(count),
            Err(fault) => {
                self.fault = Some(fault);
                Err(fault)
            }
        }
    }

    /// Ends the text, and reads the row of its last line, if that has no end, behind the rows that are there, fewer than 65,536.
    ///
    /// `BadCsv` and `LineTooLong` are the first fault of the text. After an error each call answers that error.
    pub fn end(&mut self, alloc: Global, rows: &mut Rows) -> Result<(), CsvError>
        requires few { length rows.old < row_limit }
        ensures ended { OnOk result (EndsPieces self.old rows.old rows.new) }
        ensures fits { OnOk result (AreRows self.old.csv.table.columns rows.old → AreRows self.old.csv.table.columns rows.new) }
        ensures limit { OnOk result (length rows.new ≤ row_limit) }
        ensures table { self.new.csv.table ≡ self.old.csv.table }
        ensures dialect { self.new.csv.dialect ≡ self.old.csv.dialect }
        ensures fault { IfErr result (λ e. RefusesEnd self.old e) }
        ensures kept { IfErr result (λ e. self.new.fault ≡ Some e) }
        ensures again { IfSome self.old.fault (λ e. (result ≡ Err e) × (self.new ≡ self.old) × (rows.new ≡ rows.old)) }
    {
        if let Some(fault) = self.fault {
            return Err(fault);
        }
        match read_lines(alloc, &mut self.csv, self.part.as_slice(), rows) {
            Ok(()) => {
                self.part.clear();
                Ok(())
            }
            Err(fault) => {
                self.fault = Some(fault);
                Err(fault)
            }
        }
    }

    /// The reader of its whole lines, which tells the line at fault after `BadCsv`.
    pub fn reader(&self) -> &CsvReader
        ensures { result.now ≡ self.now.csv }
    {
        &self.csv
    }
}

/// Takes bytes for which rows have room: whole lines, which are read with the part of a line before them, or else all bytes, which are kept
/// behind that part. Answers how many bytes were taken.
fn take(
    alloc: Global,
    csv: &mut CsvReader,
    part: &mut Vec<u8>,
    bytes: &[u8],
    rows: &mut Rows,
) -> Result<usize, CsvError>
    requires few { length rows.old < row_limit }
    requires room { length rows.old + length bytes.now ≤ row_limit }
    requires waits { Waits csv.old part.old.items }
    ensures taken { IfOk result (λ count. Continues csv.old csv.new part.old.items part.new.items rows.old rows.new bytes.now count) }
    ensures waits { OnOk result (Waits csv.new part.new.items) }
    ensures fits { OnOk result (AreRows csv.old.table.columns rows.old → AreRows csv.old.table.columns rows.new) }
    ensures limit { OnOk result (length rows.new ≤ row_limit) }
    ensures table { csv.new.table ≡ csv.old.table }
    ensures dialect { csv.new.dialect ≡ csv.old.dialect }
    ensures fault { IfErr result (λ e. RefusesBehind csv.old part.old.items e bytes.now) }
{
    let whole = whole_len(bytes);
    if whole == 0 {
        return keep(alloc, csv, part, bytes, rows);
    }
    let (lines, _) = bytes.split_at(whole);
    part.extend_from_slice(lines)?;
    read_lines(alloc, csv, part.as_slice(), rows)?;
    part.clear();
    Ok(whole)
}

/// Keeps bytes in which no line ends behind a part of a line. If the line is too long then, whatever follows, the reader of lines tells so.
fn keep(
    alloc: Global,
    csv: &mut CsvReader,
    part: &mut Vec<u8>,
    bytes: &[u8],
    rows: &mut Rows,
) -> Result<usize, CsvError>
    requires few { length rows.old < row_limit }
    requires waits { Waits csv.old part.old.items }
    requires no_end { IsOpen bytes.now }
    ensures taken { IfOk result (λ count. Continues csv.old csv.new part.old.items part.new.items rows.old rows.new bytes.now count) }
    ensures waits { OnOk result (Waits csv.new part.new.items) }
    ensures rows { OnOk result (rows.new ≡ rows.old) }
    ensures table { csv.new.table ≡ csv.old.table }
    ensures dialect { csv.new.dialect ≡ csv.old.dialect }
    ensures fault { IfErr result (λ e. RefusesBehind csv.old part.old.items e bytes.now) }
{
    part.extend_from_slice(bytes)?;
    if part.len() <= PART_LIMIT {
        return Ok(bytes.len());
    }
    read_lines(alloc, csv, part.as_slice(), rows)?;
    Ok(bytes.len())
}
