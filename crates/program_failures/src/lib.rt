//! Why a command of the program failed, and what a person reads of it.
#![tactic(auto)]

mod combined;
mod failure;
mod output_text;
mod unread_inputs;
mod unwritten;

pub use combined::Combined;
pub use failure::{Failure, TOO_MANY_FILES};
pub use output_text::{buffered, flushed, told, write_line};
pub use unread_inputs::{of_other_table, unread, unread_by};
pub use unwritten::{Unheld, not_written, unlocked};
