//! The texts of answers: lines of fields, comma-separated values, objects of JSON, and columns in line.
#![tactic(auto)]

mod answer_text;
mod csv_text;
mod format;
mod json_text;
mod separated;
mod table_text;

pub use answer_text::{text, write_answer};
pub use format::{Format, ReportForm, format_answer};
