//! The grouping columns of a vector, decoded.
ghost use Rattle.std.specs.Prelude.{◌≡◌, ◌<◌, ◌≤◌, ◌+◌, ℕ, false, length, OnOk};
ghost use Rattle.table_model.specs.Group.{key_of};
ghost use Rattle.table_model.specs.State.{same_cell};
ghost use Rattle.transpose_order.specs.Mask.{has};
ghost use Rattle.query_eval.specs.Keys.{column_key, key_cell};
ghost use Rattle.query_eval.specs.Read.{IsRead, IsSame};
ghost use Rattle.query_eval.specs.Vector.{IsThere, cell_at, row_at, vector_of};

use crate::columns::{Columns, VectorId, state_is_within_limits};
use crate::filter::{changed_rows, equal_rows, turning_rows};
use std::alloc::AllocError;
use transpose_order::Mask;

/// A column's cells at the rows of a vector: its nulls, and its values in row order, with anything at the nulls.
#[derive(Drop)]
pub struct KeyColumn {
    pub nulls: Mask,
    pub values: [i64; 1024],
}

impl KeyColumn {
    /// A column without a value.
    fn none() -> KeyColumn {
        KeyColumn {
            nulls: Mask::all(),
            values: [0; 1024],
        }
    }

    /// Reads a column by its place, in one pass. A place past the last column has no value, and takes no pass.
    fn read<C: Columns>(&mut self, columns: &mut C, id: VectorId, place: usize)
        requires { IsThere (C.seen columns.old).state id.batch id.vector }
        ensures value { (n : ℕ) → n < 1024 → key_cell self.new n ≡ cell_at (vector_of (C.seen columns.old).state id) place n }
        ensures read { IsRead (C.seen columns.old) (C.seen columns.new) 1 }
    {
        state_is_within_limits(columns);
        if place < columns.schema().column_list().len() {
            self.nulls = columns.nulls(id, place);
            columns.decode_into(id, place, &mut self.values);
        } else {
            self.nulls = Mask::all();
        }
    }

    /// The cell at a row.
    pub fn at(&self, row: usize) -> Option<i128>
        requires { row < 1024 }
        ensures { result ≡ key_cell self.now row }
    {
        if self.nulls.get(row) {
            None
        } else {
            Some(i128::from(self.values[row]))
        }
    }

    /// The rows with the same cell as a row: null is the same as null.
    pub fn rows_like(&self, row: usize) -> Mask
        requires { row < 1024 }
        ensures { (n : ℕ) → n < 1024 → has result n ≡ same_cell (key_cell self.now row) (key_cell self.now n) }
    {
        let null = self.nulls.get(row);
        if null {
            self.nulls
        } else {
            equal_rows(&self.values, self.values[row]).and_not(&self.nulls)
        }
    }

    /// The rows at which the cell may differ from that of the row before: when the value differs, or one of the two is null.
    pub fn changes(&self) -> Mask
        ensures { (n : ℕ) → n + 1 < 1024 → has result (n + 1) ≡ false → key_cell self.now (n + 1) ≡ key_cell self.now n }
    {
        changed_rows(&self.values).or(&turning_rows(&self.nulls))
    }
}

/// Makes this many columns; those that are there already keep their memory.
fn make_columns(columns: &mut Vec<KeyColumn>, count: usize) -> Result<(), AllocError>
    ensures { OnOk result (length columns.new.items ≡ count) }
{
    columns.truncate(count);
    for _ in columns.len()..count {
        columns.push(KeyColumn::none())?;
    }
    Ok(())
}

/// Reads the grouping columns, each in at most one pass. Once there are as many as that, no vector takes memory.
pub fn read_columns<C: Columns>(
    columns: &mut C,
    id: VectorId,
    places: &[usize],
    keys: &mut Vec<KeyColumn>,
) -> Result<(), AllocError>
    requires { IsThere (C.seen columns.old).state id.batch id.vector }
    ensures cells { OnOk result ((n : ℕ) → n < 1024 → column_key keys.new.items n ≡ key_of places.now (row_at (vector_of (C.seen columns.old).state id) n)) }
    ensures same { IsSame (C.seen columns.old) (C.seen columns.new) }
    ensures passes { OnOk result ((C.seen columns.new).passes ≤ (C.seen columns.old).passes + length places.now) }
{
    make_columns(keys, places.len())?;
    for index in 0..places.len() {
        keys[index].read(columns, id, places[index]);
    }
    Ok(())
}
