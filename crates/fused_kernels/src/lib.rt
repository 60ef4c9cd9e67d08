//! Comparisons and set functions over vectors that stay packed, sixteen lanes at a time.
#![tactic(auto)]

mod bounds;
mod code_values;
mod codes;
mod columns;
mod comparisons;
mod counts;
mod decoding;
mod extremes;
mod lanes;
mod meter;
mod one_value;
mod range_rows;
mod ranges;
mod row_codes;
mod row_counts;
mod row_runs;
mod run_folds;
mod runs;
mod sums;
mod value_pairs;
mod vector_comparisons;
mod vector_extremes;
mod vector_lanes;
mod vector_sums;
mod vector_values;

pub use columns::compare_columns;
pub use comparisons::compare;
pub use counts::count;
pub use decoding::decode_into;
pub use lanes::Lanes;
pub use meter::Meter;
pub use ranges::compare_range;
pub use row_codes::{vector_codes_into, vector_has_few_codes};
pub use row_runs::vector_runs_into;
pub use sums::sum;
pub use vector_comparisons::{compare_vector, compare_vector_range, compare_vectors};
pub use vector_extremes::vector_extreme;
pub use vector_lanes::VectorLanes;
pub use vector_sums::vector_sum;
pub use vector_values::decode_vector;
