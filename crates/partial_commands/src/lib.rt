//! The commands on partial answers, as calls over stores, readers and writers: what a store gives to a query's answer, partial answers
//! combined, the answer that a partial answer finishes to, and what it covers.
#![tactic(auto)]

mod combining;
mod coverage;
mod expectation_error;
mod expecting;
mod finishing;
mod laws;
mod partial_answer_error;
mod partial_answer_writing;
mod run_lists;
mod shown_text;
mod store_partial_answer;
mod strays;

pub use combining::{combine_next, combine_with};
pub use coverage::{inspect_partial_answer, inspect_summary};
pub use expectation_error::ExpectationError;
pub use expecting::write_expected_answer;
pub use finishing::write_finished_answer;
pub use laws::{expectation_laws, partial_command_laws};
pub use partial_answer_error::PartialAnswerError;
pub use partial_answer_writing::write_partial_answer_of_store;
pub use store_partial_answer::partial_answer_of_store;
