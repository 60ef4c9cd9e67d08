//! Writing the live rows of a file as comma-separated values, all of them or some, in all columns or some.
ghost use Rattle.std.specs.Prelude.{◌≡◌, ◌<◌, ◌≤◌, ◌+◌, length, map};
ghost use Rattle.std.specs.List.{All, flat_map};
ghost use Rattle.query_eval.specs.Read.{IsSame};
ghost use Rattle.query_eval.specs.Vector.{IsWithin};
ghost use Rattle.live_columns.specs.Chosen.{AreThere, picked, rows_in};
ghost use Rattle.replica_reports.specs.DumpRooms.{room_cells};
ghost use Rattle.replica_reports.specs.Dumps.{WritesLines, dumped_rows, dumping, dumping_where, heading_at, in_columns, row_text};

use crate::dump_rooms::{ColumnRoom, fill_cells, read_rooms, rooms_for};
use crate::open_file::OpenFile;
use csv_rows::CsvWriter;
use live_columns::{Choice, choose, rows_where};
use query_eval::{Columns, KeptVector};
use std::alloc::Global;
use std::io::Write;
use store_view::StoreView;
use table_model::{BatchName, Counted, Refusal, RowName, Schema};
use transpose_order::{Mask, VECTOR_ROWS};

/// A writer of rows as comma-separated values, with their names or without. It keeps the cells of a row.
#[derive(Drop)]
struct RowWriter {
    csv: CsvWriter,
    has_names: bool,
    cells: Vec<Option<i128>>,
}

impl RowWriter {
    /// Writes the heading of a table's columns at places.
    fn heading<W: Write>(
        &mut self,
        schema: &Schema,
        places: &[usize],
        writer: &mut Counted<W>,
    ) -> Result<(), Refusal>
        requires { All (λ place. place < length schema.now.columns) places.now }
        ensures text { WritesLines result (W.contents writer.old.0) (W.contents writer.new.0) writer.old.1 writer.new.1 (heading_at self.old.has_names schema.now places.now) }
        ensures names { self.new.has_names ≡ self.old.has_names }
    {
        let columns = schema.column_list();
        if self.has_names {
            self.csv.named_header(columns, places, writer)
        } else {
            self.csv.header(columns, places, writer)
        }
    }

    /// Writes a row of a vector that was decoded.
    fn row<W: Write>(
        &mut self,
        rooms: &[ColumnRoom],
        row: usize,
        name: RowName,
        writer: &mut Counted<W>,
    ) -> Result<(), Refusal>
        requires { row < 1024 }
        ensures text { WritesLines result (W.contents writer.old.0) (W.contents writer.new.0) writer.old.1 writer.new.1 (row_text self.old.has_names (name, room_cells rooms.now row)) }
        ensures names { self.new.has_names ≡ self.old.has_names }
    {
        fill_cells(&mut self.cells, rooms, row)?;
        if self.has_names {
            self.csv.named_row(name, self.cells.as_slice(), writer)
        } else {
            self.csv.row(self.cells.as_slice(), writer)
        }
    }

    /// Writes the rows of a mask of a vector that was decoded. The vector's first row has the ordinal `first`.
    fn vector<W: Write>(
        &mut self,
        rooms: &[ColumnRoom],
        batch: BatchName,
        first: usize,
        rows: &Mask,
        writer: &mut Counted<W>,
    ) -> Result<(), Refusal>
        requires { first + 1024 ≤ 65536 }
        ensures text { WritesLines result (W.contents writer.old.0) (W.contents writer.new.0) writer.old.1 writer.new.1
            (flat_map (row_text self.old.has_names) (picked rows.now (λ n. (record { batch = batch; ordinal = first + n }, room_cells rooms.now n)))) }
        ensures names { self.new.has_names ≡ self.old.has_names }
    {
        for row in 0..VECTOR_ROWS {
            if rows.get(row) {
                let ordinal = (first + row) as u16;
                self.row(rooms, row, RowName { batch, ordinal }, writer)?;
            }
        }
        Ok(())
    }

    /// Writes the rows of vectors that are kept, in the columns at places. Each column of a vector is decoded once.
    fn vectors<C: Columns, W: Write>(
        &mut self,
        columns: &mut C,
        places: &[usize],
        vectors: &[KeptVector],
        rooms: &mut [ColumnRoom],
        writer: &mut Counted<W>,
    ) -> Result<(), Refusal>
        requires there { AreThere (C.seen columns.old).state vectors.now }
        requires places { All (λ place. place < length (C.seen columns.old).table.columns) places.now }
        requires rooms { length rooms.old ≡ length places.now }
        ensures text { WritesLines result (W.contents writer.old.0) (W.contents writer.new.0) writer.old.1 writer.new.1
            (flat_map (row_text self.old.has_names) (map (in_columns places.now) (rows_in (C.seen columns.old).state vectors.now))) }
        ensures names { self.new.has_names ≡ self.old.has_names }
    {
        state_is_within_limits(columns);
        for kept in vectors {
            read_rooms(columns, kept.id, places, rooms);
            let batch = columns.name(kept.id.batch);
            self.vector(
                rooms,
                batch,
                VECTOR_ROWS * kept.id.vector,
                &kept.rows,
                writer,
            )?;
        }
        Ok(())
    }

    /// Writes the rows that are chosen, in the columns that are.
    fn chosen<C: Columns, W: Write>(
        &mut self,
        alloc: Global,
        columns: &mut C,
        choice: &Choice,
        writer: &mut Counted<W>,
    ) -> Result<(), Refusal>
        requires { All (λ place. place < length (C.seen columns.old).table.columns) choice.now.places.items }
        ensures text { WritesLines result (W.contents writer.old.0) (W.contents writer.new.0) writer.old.1 writer.new.1
            (flat_map (row_text self.old.has_names) (dumped_rows (record { condition = choice.now.condition; places = choice.now.places.items }) (C.seen columns.old).table (C.seen columns.old).state)) }
        ensures names { self.new.has_names ≡ self.old.has_names }
    {
        let places = choice.places.as_slice();
        let rows = rows_where(alloc, columns, &choice.condition)?;
        let mut rooms = rooms_for(alloc, places)?;
        self.vectors(
            columns,
            places,
            rows.vectors.as_slice(),
            rooms.as_mut_slice(),
            writer,
        )
    }
}

/// The law that a state is within its limits.
fn state_is_within_limits<C: Columns>(columns: &C)
    ensures { IsWithin (C.seen columns.now).table (C.seen columns.now).state }
{
    columns.batches();
}

/// Writes the live rows of a file at which a condition is true, in the columns at places, as comma-separated values below a heading, in
/// order of row name. With `has_names` the columns `BATCH` and `ORDINAL` come first.
///
/// Refused are `Memory` and `WriteFault`, after a front.
pub fn dump_where<W: Write>(
    alloc: Global,
    file: &OpenFile,
    choice: &Choice,
    has_names: bool,
    writer: &mut Counted<W>,
) -> Result<(), Refusal>
    requires { All (λ place. place < length file.now.replica.schema.columns) choice.now.places.items }
    ensures text { WritesLines result (W.contents writer.old.0) (W.contents writer.new.0) writer.old.1 writer.new.1 (dumping_where has_names (record { condition = choice.now.condition; places = choice.now.places.items }) file.now.replica) }
{
    let store = file.store();
    let mut rows = RowWriter {
        csv: CsvWriter::new(alloc),
        has_names,
        cells: Vec::new(alloc),
    };
    rows.heading(store.schema(), choice.places.as_slice(), writer)?;
    rows.chosen(alloc, &mut StoreView::new(store), choice, writer)
}

/// Writes the live rows of a file as comma-separated values below a heading, in order of row name. With `has_names` the columns
/// `BATCH` and `ORDINAL` come first.
///
/// Refused are `Memory` and `WriteFault`, after a front.
pub fn dump<W: Write>(
    alloc: Global,
    file: &OpenFile,
    has_names: bool,
    writer: &mut Counted<W>,
) -> Result<(), Refusal>
    ensures text { WritesLines result (W.contents writer.old.0) (W.contents writer.new.0) writer.old.1 writer.new.1 (dumping has_names file.now.replica) }
{
    file.store().keeps_its_limits();
    // Without names and a condition nothing but memory can be missing.
    let Ok(choice) = choose(alloc, file.schema(), b"", b',', "") else {
        return Err(Refusal::Memory);
    };
    dump_where(alloc, file, &choice, has_names, writer)
}
