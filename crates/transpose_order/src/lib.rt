//! The transposed order of a vector of 1024 rows, and masks over its rows.
#![tactic(auto)]

mod bytes;
mod extremes;
mod masks;
mod places;
mod words;

pub use bytes::{number_at, put_number};
pub use extremes::{greater_if, raised_if};
pub use masks::{Mask, counts_agree, masks_and_bytes_come_back};
pub use places::{
    VECTOR_ROWS, every_place_is_a_row, one_order_serves_every_width, pieces_stand_in_words, place,
    place_in_word, places_are_distinct, position, row_at,
};
pub use words::ones_between;
