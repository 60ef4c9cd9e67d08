//! Segments: the rows of a batch, column by column, in coded vectors of up to 1024 values.
#![tactic(auto)]

mod arrays;
mod boxed;
mod build;
mod choice;
mod coded;
mod coded_vector;
mod coding;
mod cover;
mod deltas;
mod dictionaries;
mod fill;
mod formats;
mod frames;
mod gather;
mod laws;
mod numbers;
mod repeats;
mod runs;
mod same_form;
mod segment;
mod segment_bytes;
mod segment_writing;
mod vector_bytes;
mod vector_writing;
mod vectors;
mod writing;

pub use arrays::{CellArray, are_batch, rows_of_arrays};
pub use boxed::Boxed;
pub use coded::Coded;
pub use coded_vector::CodedVector;
pub use coding::Coding;
pub use formats::{place_of, read_number};
pub use laws::{
    canonical_vector_takes_fewest_bytes, columns_and_bytes_come_back, forms_tell_rows,
    least_form_gives_back, segments_have_bytes,
};
pub use segment::Segment;
pub use vector_bytes::MASK_BYTES;
pub use writing::{write_number, write_whole};
