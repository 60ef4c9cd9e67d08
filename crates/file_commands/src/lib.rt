//! The commands that change a file, each a call over a folder: under its lock the file is read, and replaced whole by what the command
//! makes of it. A crash at any moment leaves the file before or the file after.
#![tactic(auto)]

mod changing;
mod creating;
mod forgetting;
mod held_rows;
mod laws;
mod merging;
mod outcome;
mod putting;
mod rewriting;
mod under_lock;

pub use changing::change;
pub use creating::create;
pub use forgetting::forget;
pub use held_rows::{HeldRows, delete_held_rows};
pub use laws::{files_keep, holding_then_commanding};
pub use merging::merged;
pub use outcome::{Left, Outcome};
pub use putting::put;
pub use under_lock::leave;
