//! Frame of reference and delta coding of vectors of 1024 integers.
#![tactic(auto)]

mod delta_coding;
mod differences;
mod extremes;
mod frame_coding;
mod laws;
mod pieces;
mod spans;

pub use delta_coding::Delta;
pub use frame_coding::For;
pub use laws::{
    deltas_add_up, greatest_among_is_greatest, least_among_is_least, least_delta_gives_back,
    least_delta_is_a_form, least_delta_is_narrowest, least_frame_gives_back, least_frame_is_a_form,
    least_frame_is_narrowest, sums_give_their_rows,
};
