//! A row by itself: a list of optional whole numbers, one for each column.
ghost use Rattle.std.specs.Prelude.{◌≡◌};

use std::marker::Model;

/// A row: for each column, from the left, a whole number or null. Contracts see it as that list.
#[derive(Drop)]
pub struct Row {
    cells: Vec<Option<i128>>,
}

impl Model for Row {
    ghost use Rattle.std.specs.Prelude.{List, Option, ℤ};

    ghost Value = { List (Option ℤ) };

    ghost view = { λ row. row.cells.items };
}

impl Row {
    /// The row of these cells. It takes no memory.
    pub fn from_cells(cells: Vec<Option<i128>>) -> Row
        ensures { result ≡ cells.items }
    {
        Row { cells }
    }

    /// The cells, from the left.
    pub fn cells(&self) -> &[Option<i128>]
        ensures { result.now ≡ self.now }
    {
        self.cells.as_slice()
    }
}
