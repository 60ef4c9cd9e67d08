//! The rows of a batch: their cells follow each other in one list.
ghost use Rattle.std.specs.Prelude.{◌≡◌, ◌==◌, ℕ, ◌+◌, ◌<◌, ◌≤◌, ◌++◌, ◌∷◌, [], None, length, map, take, drop, slice_index_or, IfOk, OnOk, OnErr};
ghost use Rattle.table_model.specs.Ends.{rows_from, AreEnds};

use crate::row::Row;
use std::alloc::{AllocError, Global};
use std::marker::Model;

/// The rows of a batch, each of any number of cells, in memory that all of them share. Contracts see it as the list of the rows'
/// cells.
#[derive(Drop)]
pub struct Rows {
    cells: Vec<Option<i128>>,
    ends: Vec<usize>,
}

impl Model for Rows {
    ghost use Rattle.std.specs.Prelude.{List, Option, ℤ, length};
    ghost use Rattle.table_model.specs.Ends.{rows_from, AreEnds};

    ghost Value = { List (List (Option ℤ)) };

    ghost view = { λ b. rows_from 0 b.ends.items b.cells.items };

    ghost invariant = { λ b. AreEnds 0 b.ends.items (length b.cells.items) };
}

impl Rows {
    /// No rows. It takes no memory.
    pub fn new(alloc: Global) -> Rows
        ensures { result ≡ [] }
    {
        Rows {
            cells: Vec::new(alloc),
            ends: Vec::new(alloc),
        }
    }

    /// Copies rows into memory of their own. If memory is refused, an `AllocError`.
    pub fn copy_of(alloc: Global, rows: &[Row]) -> Result<Rows, AllocError>
        ensures { IfOk result (λ batch. batch ≡ rows.now) }
    {
        let mut batch = Rows::new(alloc);
        for row in rows {
            batch.push_row(row.cells())?;
        }
        Ok(batch)
    }

    /// Adds a row of these cells after the others. If memory is refused the rows stay as they were.
    pub fn push_row(&mut self, cells: &[Option<i128>]) -> Result<(), AllocError>
        ensures ok { OnOk result (self.new ≡ self.old ++ cells.now ∷ []) }
        ensures err { OnErr result (self.new ≡ self.old) }
    {
        self.ends.reserve(1)?;
        self.cells.extend_from_slice(cells)?;
        let end = self.cells.as_slice().len();
        self.ends.push(end)?;
        Ok(())
    }

    /// How many rows there are.
    pub fn len(&self) -> usize
        ensures { result ≡ length self.now }
    {
        self.ends.as_slice().len()
    }

    /// Whether there are no rows.
    pub fn is_empty(&self) -> bool
        ensures { result ≡ (length self.now == 0) }
    {
        self.len() == 0
    }

    /// The cells of the row of this ordinal, from the left.
    pub fn row(&self, ordinal: usize) -> &[Option<i128>]
        requires { ordinal < length self.now }
        ensures { result.now ≡ slice_index_or self.now ordinal [] }
    {
        row_at(self.cells.as_slice(), self.ends.as_slice(), ordinal)
    }

    /// The cell of the row of this ordinal in a column that the row has.
    pub fn cell(&self, ordinal: usize, column: usize) -> Option<i128>
        requires row { ordinal < length self.now }
        requires column { column < length (slice_index_or self.now ordinal []) }
        ensures { result ≡ slice_index_or (slice_index_or self.now ordinal []) column None }
    {
        self.row(ordinal)[column]
    }

    /// Copies column `column` of the rows `first`, `first + 1` and so on into `cells`, one a place. Each of the rows has to have that column.
    pub fn read_column(&self, first: usize, column: usize, cells: &mut [Option<i128>])
        requires rows { first + length cells.old ≤ length self.now }
        requires column { (n : ℕ) → n < length self.now → column < length (slice_index_or self.now n []) }
        ensures { cells.new ≡ take (length cells.old) (drop first (map (λ row. slice_index_or row column None) self.now)) }
    {
        prove!(cells.len() <= self.len() - first);
        for n in 0..cells.len() {
            cells[n] = self.cell(first + n, column);
        }
    }
}

/// The cells of the row of an ordinal, by the rows' ends.
fn row_at<'a>(cells: &'a [Option<i128>], ends: &[usize], ordinal: usize) -> &'a [Option<i128>]
    requires ends { AreEnds 0 ends.now (length cells.now) }
    requires row { ordinal < length ends.now }
    ensures { result.now ≡ slice_index_or (rows_from 0 ends.now cells.now) ordinal [] }
{
    let (start, end) = bounds_of(cells.len(), ends, ordinal);
    &cells[start..end]
}

/// The start and the end of the row with an ordinal among `count` cells, by the rows' ends.
fn bounds_of(count: usize, ends: &[usize], ordinal: usize) -> (usize, usize)
    requires ends { AreEnds 0 ends.now count }
    requires row { ordinal < length ends.now }
    ensures start { result.0 ≡ slice_index_or (0 ∷ ends.now) ordinal 0 }
    ensures end { result.1 ≡ slice_index_or ends.now ordinal 0 }
    ensures order { result.0 ≤ result.1 }
    ensures within { result.1 ≤ count }
{
    (start_of(ends, ordinal), ends[ordinal])
}

/// The start of the row with an ordinal among the cells, by the rows' ends.
fn start_of(ends: &[usize], ordinal: usize) -> usize
    requires { ordinal < length ends.now }
    ensures { result ≡ slice_index_or (0 ∷ ends.now) ordinal 0 }
{
    if ordinal == 0 { 0 } else { ends[ordinal - 1] }
}
