//! Rows of a vector as masks: conditions of WHERE, and the names of the rows at which one is true.

mod bits;
mod code_predicates;
mod code_rows;
mod column_places;
mod decoded;
mod kept_rows;
mod matches;
mod pair;
mod predicates;
mod rows;
mod side;
mod true_rows;
mod turning_rows;
mod value_rows;
mod where_masks;

pub(crate) use bits::{has_bit, is_set};
pub(crate) use code_rows::coded_rows;
pub(crate) use column_places::place_of;
pub use decoded::Decoded;
pub(crate) use kept_rows::has_rows;
pub use kept_rows::{KeptVector, kept_mask};
pub use matches::matching;
pub use pair::Pair;
pub(crate) use rows::{among_values, value_of};
pub(crate) use turning_rows::turning_rows;
pub(crate) use value_rows::{changed_rows, equal_rows};
