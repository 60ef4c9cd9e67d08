//! A wait for others, which ends after ten seconds.
#![tactic(auto)]

mod waiting;

pub use waiting::Patience;
