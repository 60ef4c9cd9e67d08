//! Decoded columns: their rows one by one, for the predicates that no kernel answers.
ghost use Rattle.std.specs.Prelude.{◌≡◌, ◌<◌, ℕ};
ghost use Rattle.query_eval.specs.Read.{IsRead};
ghost use Rattle.query_eval.specs.Decoded.{decoded_at};
ghost use Rattle.query_eval.specs.Side.{side_at, side_mentions, HasColumn};
ghost use Rattle.query_eval.specs.Vector.{IsThere, vector_of};

use crate::columns::{Columns, VectorId};
use crate::filter::side::Side;
use transpose_order::Mask;

/// The cells of a side at the rows of a vector: a column's nulls and values, or one cell that is the same at each row.
#[derive(Drop)]
pub enum Decoded {
    Column { nulls: Mask, values: [i64; 1024] },
    Fixed(Option<i128>),
}

impl Decoded {
    /// The cell at a row.
    pub fn at(&self, row: usize) -> Option<i128>
        requires { row < 1024 }
        ensures { result ≡ decoded_at self.now row }
    {
        match self {
            Decoded::Column { nulls, values } => {
                if nulls.get(row) {
                    None
                } else {
                    Some(i128::from(values[row]))
                }
            }
            Decoded::Fixed(cell) => *cell,
        }
    }
}

/// A side's cells. A column takes one pass.
pub fn decode<C: Columns>(columns: &mut C, id: VectorId, side: Side) -> Decoded
    requires there { IsThere (C.seen columns.old).state id.batch id.vector }
    requires column { HasColumn (C.seen columns.old).table side }
    ensures value { (n : ℕ) → n < 1024 → decoded_at result n ≡ side_at (vector_of (C.seen columns.old).state id) side n }
    ensures read { IsRead (C.seen columns.old) (C.seen columns.new) (side_mentions side) }
{
    match side {
        Side::Fixed(cell) => Decoded::Fixed(cell),
        Side::Column(column) => {
            let nulls = columns.nulls(id, column);
            let mut values = [0; 1024];
            columns.decode_into(id, column, &mut values);
            Decoded::Column { nulls, values }
        }
    }
}
