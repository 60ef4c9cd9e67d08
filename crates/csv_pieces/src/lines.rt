//! Whole lines of a text, and the part of a line behind them.
ghost use Rattle.std.specs.Prelude.{◌≡◌, ◌<◌, ◌≤◌, ◌+◌, [], length, take, drop, IfErr, OnOk, IsSome, IfSome, OnSome};
ghost use Rattle.table_model.specs.Faults.{read_limit};
ghost use Rattle.table_model.specs.Table.{AreRows, row_limit};
ghost use Rattle.csv_rows.specs.Line.{AreWhole};
ghost use Rattle.csv_rows.specs.Reading.{lines_left};
ghost use Rattle.csv_pieces.specs.PieceReading.{IsOpen, ReadsOnward, ReadsText, RefusesText};

use csv_rows::{CsvError, CsvReader};
use std::alloc::Global;
use table_model::{Counted, Rows};

/// How many bytes of a text are whole lines: those up to its last line feed.
pub fn whole_len(text: &[u8]) -> usize
    ensures bound { result ≤ length text.now }
    ensures whole { AreWhole (take result text.now) }
    ensures no_end { IsOpen (drop result text.now) }
{
    let mut len = text.len();
    while len > 0 && text[len - 1] != b'\n' {
        len -= 1;
    }
    len
}

/// Reads all lines of a text behind the rows that are there, which have room for as many rows as there are lines.
pub fn read_lines(
    alloc: Global,
    csv: &mut CsvReader,
    text: &[u8],
    rows: &mut Rows,
) -> Result<(), CsvError>
    requires few { length rows.old < row_limit }
    requires room { length rows.old + length (lines_left csv.old text.now) ≤ row_limit }
    requires none { csv.old.pending ≡ [] }
    ensures rows { OnOk result (ReadsText csv.old rows.old rows.new text.now) }
    ensures onward { OnOk result (ReadsOnward csv.old csv.new rows.old rows.new text.now) }
    ensures fits { OnOk result (AreRows csv.old.table.columns rows.old → AreRows csv.old.table.columns rows.new) }
    ensures limit { OnOk result (length rows.new ≤ row_limit) }
    ensures none { OnOk result (csv.new.pending ≡ []) }
    ensures began { OnOk result (IsSome csv.new.order) }
    ensures bound { OnOk result (csv.new.number ≤ read_limit) }
    ensures table { csv.new.table ≡ csv.old.table }
    ensures dialect { csv.new.dialect ≡ csv.old.dialect }
    ensures fault { IfErr result (λ e. RefusesText csv.old e text.now) }
{
    let mut reader = Counted::new(text);
    csv.fill_batch(alloc, &mut reader, rows)?;
    Ok(())
}
