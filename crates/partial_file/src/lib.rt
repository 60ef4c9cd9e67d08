//! Partial answers in bytes: one form for each partial answer, which is written and read back.
#![tactic(auto)]

mod group_reading;
mod group_writing;
mod head_writing;
mod kept_reading;
mod kept_writing;
mod laws;
mod number_reading;
mod number_writing;
mod partial_answer_reading;
mod partial_answer_writing;
mod run_reading;
mod run_writing;

pub use laws::{partial_answers_and_bytes_come_back, partial_answers_are_read_again};
pub use partial_answer_reading::read_partial_answer;
pub use partial_answer_writing::write_partial_answer;
