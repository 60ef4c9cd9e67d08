//! Comparisons and set functions of numbers that stay packed, all lanes of a step at once, at the lanes' own types of 16, 32 and
//! 64 bits.
#![tactic(auto)]

mod frame_range;
mod full;
mod native_16;
mod native_32;
mod native_64;
mod packed;
mod pair_test;
mod raised;
mod short_32;
mod short_64;
mod short_frames;
mod walk_16;
mod walk_32;
mod walk_64;
mod written_16;

pub use native_16::{numbers_16, rows_between_16};
pub use native_64::with_bit;
pub use packed::Packed;
pub use pair_test::PairTest;
pub use short_frames::times;
pub use walk_16::{Walk16, lanes_of_mask_16};
pub use walk_64::sum_of_lanes;
