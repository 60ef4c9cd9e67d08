//! What the tests of the other crates share: how an expectation fails, columns of values by patterns, and devices that stop.
#![tactic(auto)]

mod columns;
mod expectations;
mod stop;

pub use columns::{Pattern, column};
pub use expectations::{agree, agree_at, growth_refused};
pub use stop::Stop;
