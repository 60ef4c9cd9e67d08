//! Lines of a script: the steps that they ask for, and the grammar by which they are read.
#![tactic(auto)]

mod columns;
mod command;
mod expectations;
mod laws;
mod line;
mod operand;
mod rows;
mod verb;
mod words;

pub use command::{Command, TableCommand};
pub use expectations::expected;
pub use laws::rows_are_read_as_spelled;
pub use line::parse_line;
