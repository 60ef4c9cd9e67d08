//! Bit-packing of vectors of 1024 numbers in interleaved lanes, in the manner of FastLanes (VLDB 2023), of its section on
//! interleaved bit-packing; the order of rows and the packed words are our own.
//!
//! A lane of words of T bits, T being 8, 16, 32 or 64, holds the values of T rows one after another, at a width of 0 to
//! T bits each, lowest bit first. There are 1024 / T lanes, and word `w` of lane `l` is word `w * (1024 / T) + l` of
//! the vector, so that a vector takes `width * (1024 / T)` words.
#![tactic(auto)]

mod arithmetic;
mod lane_value;
mod lane_word;
mod laws;
mod packing;
mod unpacking;
mod values;
mod word_bytes;
mod words;

pub use arithmetic::{gap, width_of, wrap, wrap_lanes, wrapping_difference, wrapping_sum_with};
pub use lane_word::LaneWord;
pub use laws::{
    packed_vectors_are_blocks_of_bytes, packing_undoes_unpacking, unpacking_undoes_packing,
    words_and_bytes_come_back,
};
pub use packing::{pack, pack_at};
pub use unpacking::{put_place, step, step_at, unpack, unpack_at, unpack_by_places};
pub use values::Values;
pub use words::Words;
