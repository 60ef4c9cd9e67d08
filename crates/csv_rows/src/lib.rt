//! Comma-separated values: the rows of a text with its first fault, and the text of rows.
#![tactic(auto)]

mod bytes;
mod dialect;
mod error;
mod field;
mod header;
mod laws;
mod lines;
mod order;
mod reader;
mod row;
mod writer;

pub use dialect::Dialect;
pub use error::CsvError;
pub use laws::{first_faults_stay, pieces_are_read, written_rows_are_read};
pub use lines::LINE_LIMIT;
pub use order::{Order, WordError};
pub use reader::CsvReader;
pub use writer::CsvWriter;
