//! Sets of names as sorted ranges: which batches are held, and which rows are deleted.
#![tactic(auto)]

mod held;
mod join;
mod laws;
mod ranges;
mod row_range;
mod run;
mod search;
mod span;
mod tombs;

pub use held::Held;
pub use laws::{names_have_one_order, rows_have_one_list_of_ranges};
pub use run::Run;
pub use tombs::Tombs;
