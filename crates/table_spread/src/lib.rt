//! A table spread over several: shares that are apart, and that are the table when they are joined.
#![tactic(auto)]

mod division;
mod laws;
mod name_runs;

pub use laws::spread_laws;
pub use name_runs::NameRuns;
