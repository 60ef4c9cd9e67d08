//! Groups by their keys: the places of groups, and which rows of a vector belong to which group.

mod cell;
mod code_slices;
mod coded_runs;
mod index;
mod key;
mod key_columns;
mod places;
mod room;
mod row_places;
mod slices;
mod split;
mod vector_keys;

pub use cell::Cell;
pub use key::Key;
pub(crate) use places::Places;
pub(crate) use room::Room;
pub(crate) use row_places::place_rows;
pub(crate) use split::{Slice, Span, Split};
