//! Why commands are refused, and how a person reads of it: one sentence for each refusal, with the place that it names.
#![tactic(auto)]

mod command_refusal;
mod csv_fault;
mod cures;
mod file_kind;
mod meaning;
mod phrases;
mod place;
mod pointer;
mod possible;
mod quoted;
mod reason;
mod refused_line;
mod refused_text;
mod sentence;
mod table_fault;
mod tables;
mod text_fault;
mod tokens;

pub use command_refusal::CommandRefusal;
pub use csv_fault::Wanted;
pub use file_kind::KIND_BYTES;
pub use pointer::Pointer;
pub use quoted::{Printable, Quoted};
pub use refused_line::RefusedLine;
pub use refused_text::{sentence_of_text, words_of_text};
pub use sentence::{Knowledge, Sentence, Words};
pub use table_fault::{TableFault, fault_of_table};
pub use text_fault::{NOT_UTF8, Text, is_of_a_text};
