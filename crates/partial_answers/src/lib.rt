//! Partial answers: what a file gives to the answer of a query over many files, how partial answers are combined, and how one is
//! finished.
#![tactic(auto)]

mod apart;
mod columns_partial_answer;
mod fault;
mod finishing;
mod groups;
mod kept;
mod laws;
mod means;
mod measures;
mod partial_answer;
mod shape;
mod told;
mod values;

pub use columns_partial_answer::partial_answer_groups;
pub use fault::PartialAnswerFault;
pub use kept::{Kept, Sums};
pub use laws::{counted_laws, evaluated_laws, partial_answer_laws};
pub use means::mean_laws;
pub use partial_answer::PartialAnswer;
pub use values::Values;
