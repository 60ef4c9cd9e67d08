//! What a refusal names: a batch, a row, a cell or a byte.

use crate::names::BatchName;
use std::fmt;

/// What a refusal names, with its values. Places are byte offsets in the input; rows and columns count from 0.
#[derive(Clone, Copy, Debug, PartialEq, Eq)]
pub enum Place {
    /// Nothing.
    Nowhere,
    /// A batch.
    Batch(BatchName),
    /// A row of a batch.
    Row(usize),
    /// A cell of a batch.
    Cell { row: usize, column: usize },
    /// A byte of the input, or 0 in a call that reads none.
    Byte(u64),
}

/// The values of the place, each after one space: ` 1.7`, or ` 0 1`.
impl fmt::Display for Place {
    ghost use Rattle.std.specs.Prelude.{Some};
    ghost use Rattle.table_model.specs.RefusalText.{place_text};

    ghost output = { λ place. Some (place_text place) };

    fn fmt<W: fmt::Write>(&self, f: &mut fmt::Formatter<W>) -> fmt::Result {
        match self {
            Place::Nowhere => Ok(()),
            Place::Batch(name) => write!(f, " {name}"),
            Place::Row(row) => write!(f, " {row}"),
            Place::Cell { row, column } => write!(f, " {row} {column}"),
            Place::Byte(at) => write!(f, " {at}"),
        }
    }
}
