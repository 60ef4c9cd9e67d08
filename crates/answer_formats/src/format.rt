//! The formats of answers and of reports.
ghost use Rattle.std.specs.Prelude.{◌≡◌, IfOk};
ghost use Rattle.answer_formats.specs.Formats.{formatted};

use crate::answer_text::text;
use crate::csv_text::csv_text;
use crate::json_text::json_text;
use crate::table_text::table_text;
use std::alloc::{AllocError, Global};
use table_model::Answer;

/// How an answer is written.
#[derive(Clone, Copy, Debug, PartialEq, Eq)]
pub enum Format {
    /// The heading and each row in a line, joined by commas, `NULL` for a null.
    Text,
    /// The heading and each row in a line, joined by commas, an empty field for a null.
    Csv,
    /// Each row as an object in a line, its keys the headings in order.
    Json,
    /// Columns in line, to the right, with a rule below each heading.
    Table,
}

/// How a report is written.
#[derive(Clone, Copy, Debug, PartialEq, Eq)]
pub enum ReportForm {
    /// Lines for a person.
    Text,
    /// JSON in one line, or in one line for each of several things.
    Json,
}

/// The text of an answer in a format.
#[tactic(auto, unfolding(crate::specs::Formats::formatted))]
pub fn format_answer(alloc: Global, answer: &Answer, format: Format) -> Result<Vec<u8>, AllocError>
    ensures { IfOk result (λ written. written.items ≡ formatted format answer.now) }
{
    match format {
        Format::Text => text(alloc, answer),
        Format::Csv => csv_text(alloc, answer),
        Format::Json => json_text(alloc, answer),
        Format::Table => table_text(alloc, answer),
    }
}
