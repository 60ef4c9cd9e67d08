//! The cells of columns at the live rows at which a condition is true, as numbers and validity bits.
#![tactic(auto)]

mod bits;
mod cells;
mod choice;
mod chosen;
mod column;
mod names;
mod walk;

pub use cells::cells_into;
pub use choice::{Choice, Unchosen, choose};
pub use chosen::ChosenRows;
pub use column::{stride_of, write_columns};
pub use walk::{BatchRange, rows_between, rows_where};
