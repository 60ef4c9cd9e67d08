//! Answers of queries over columns, in passes that are counted.
#![tactic(auto)]

mod answers;
mod columns;
mod filter;
mod grouping;
mod hash_key;
mod tallies;

pub use answer_formats::{text, write_answer};
pub use answers::{Taken, answer, answer_of_groups, take_rows};
pub use columns::{Columns, VectorId};
pub use filter::{KeptVector, kept_mask, matching};
pub use grouping::{Cell, Key};
pub use hash_key::HashKey;
pub use tallies::{Aggregate, FinishedGroup, Groups, Plan, Seen, Sums, Tally, values_field};
