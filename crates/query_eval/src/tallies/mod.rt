//! Set functions: what a query asks for, what is kept of the values so far, by groups or without, and the groups when they are
//! finished.

mod aggregate;
mod code_tallies;
mod distinct;
mod field_values;
mod finished_group;
mod forms;
mod grouped_table;
mod groups;
mod masked_folds;
mod packed;
mod plan;
mod row_counts;
mod row_tallies;
mod running_sums;
mod seen;
mod slice_tallies;
mod span_tallies;
mod split_tallies;
mod tally;
mod two_words;
mod whole_tallies;
mod word_tops;

pub use aggregate::Aggregate;
pub(crate) use aggregate::place_or_end;
pub use field_values::values_field;
pub use finished_group::FinishedGroup;
pub(crate) use grouped_table::grouped_table;
pub use groups::Groups;
pub(crate) use groups::group_vector;
pub use plan::Plan;
pub use seen::Seen;
pub use tally::{Sums, Tally};
pub(crate) use whole_tallies::{no_tallies, tally_vector, whole_group};
