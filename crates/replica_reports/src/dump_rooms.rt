//! The cells of a vector in some columns, decoded once for all of its rows.
ghost use Rattle.std.specs.Prelude.{◌≡◌, ◌<◌, ℕ, IfOk, OnOk, length};
ghost use Rattle.std.specs.List.{All};
ghost use Rattle.query_eval.specs.Read.{IsSame};
ghost use Rattle.query_eval.specs.Vector.{IsThere, cell_at, row_at, vector_of};
ghost use Rattle.replica_reports.specs.DumpRooms.{room_cell, room_cells};
ghost use Rattle.replica_reports.specs.Dumps.{cells_at};

use live_columns::cells_into;
use query_eval::{Columns, VectorId};
use std::alloc::{AllocError, Global};
use transpose_order::Mask;

/// The cells of a column in one vector: their numbers, and at which rows they are null.
#[derive(Drop)]
pub(crate) struct ColumnRoom {
    numbers: [i64; 1024],
    nulls: Mask,
}

impl ColumnRoom {
    /// A room of no vector yet.
    fn new() -> ColumnRoom {
        ColumnRoom {
            numbers: [0; 1024],
            nulls: Mask::none(),
        }
    }

    /// Decodes a column's vector.
    fn read<C: Columns>(&mut self, columns: &mut C, id: VectorId, column: usize)
        requires there { IsThere (C.seen columns.old).state id.batch id.vector }
        requires column { column < length (C.seen columns.old).table.columns }
        ensures cells { (n : ℕ) → n < 1024 → room_cell self.new n ≡ cell_at (vector_of (C.seen columns.old).state id) column n }
        ensures same { IsSame (C.seen columns.old) (C.seen columns.new) }
    {
        self.nulls = cells_into(columns, id, column, &mut self.numbers);
    }

    /// The cell at a row.
    fn cell(&self, row: usize) -> Option<i128>
        requires { row < 1024 }
        ensures { result ≡ room_cell self.now row }
    {
        if self.nulls.get(row) {
            return None;
        }
        Some(i128::from(self.numbers[row]))
    }
}

/// A room for each of the columns at places.
pub(crate) fn rooms_for(alloc: Global, places: &[usize]) -> Result<Vec<ColumnRoom>, AllocError>
    ensures { IfOk result (λ rooms. length rooms.items ≡ length places.now) }
{
    let mut rooms = Vec::with_capacity(alloc, places.len())?;
    for _place in places {
        rooms.push(ColumnRoom::new())?;
    }
    Ok(rooms)
}

/// Decodes the columns at places in a vector, each into its room.
pub(crate) fn read_rooms<C: Columns>(
    columns: &mut C,
    id: VectorId,
    places: &[usize],
    rooms: &mut [ColumnRoom],
)
    requires there { IsThere (C.seen columns.old).state id.batch id.vector }
    requires places { All (λ place. place < length (C.seen columns.old).table.columns) places.now }
    requires rooms { length rooms.old ≡ length places.now }
    ensures cells { (n : ℕ) → n < 1024 → room_cells rooms.new n ≡ cells_at places.now (row_at (vector_of (C.seen columns.old).state id) n) }
    ensures same { IsSame (C.seen columns.old) (C.seen columns.new) }
{
    for index in 0..places.len() {
        rooms[index].read(columns, id, places[index]);
    }
}

/// Makes a row's cells of those that rooms have there.
pub(crate) fn fill_cells(
    cells: &mut Vec<Option<i128>>,
    rooms: &[ColumnRoom],
    row: usize,
) -> Result<(), AllocError>
    requires { row < 1024 }
    ensures { OnOk result (cells.new.items ≡ room_cells rooms.now row) }
{
    cells.clear();
    for room in rooms {
        cells.push(room.cell(row))?;
    }
    Ok(())
}
