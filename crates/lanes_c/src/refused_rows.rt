//! What is said of comma-separated values that are refused: they are read once more, up to their first fault.

use crate::sentences::said;
use csv_rows::{CsvError, CsvReader, Dialect, Order};
use refusal_sentences::{CommandRefusal, Knowledge, RefusedLine, Wanted};
use std::alloc::{AllocError, Global};
use std::str;
use table_model::{Counted, MAX_ROWS, Schema};

/// Comma-separated values, and how they are written.
#[derive(Drop)]
pub(crate) struct RefusedRows<'a> {
    /// The text.
    pub(crate) text: &'a [u8],
    /// What separates the fields of a line.
    pub(crate) separator: u8,
    /// Whether the first line names the columns.
    pub(crate) has_heading: bool,
    /// Whether a last line without an end is refused.
    pub(crate) needs_ends: bool,
    /// The word that is a null in addition to the usual ones; or nothing.
    pub(crate) null_word: &'a [u8],
    /// What the fields are, with a comma between each two; or nothing.
    pub(crate) columns: &'a [u8],
}

impl<'a> RefusedRows<'a> {
    /// What the fields are; empty if that is not said.
    fn words(&self) -> &'a str {
        str::from_utf8(self.columns).unwrap_or_default()
    }

    /// The dialect; the usual order of fields if the words are not those of one.
    fn dialect(&self, alloc: Global, schema: &Schema) -> Result<Dialect, AllocError> {
        let null_word = match str::from_utf8(self.null_word) {
            Ok(word) if !word.is_empty() => Some(String::from_str(alloc, word)?),
            _ => None,
        };
        let mut dialect = Dialect::new(self.separator, null_word);
        if self.needs_ends {
            dialect = dialect.with_ends();
        }
        let words = self.words();
        if words.is_empty() {
            return Ok(dialect);
        }
        match Order::of_words(alloc, schema.column_list(), words.as_bytes()) {
            Ok(order) => Ok(dialect.with_order(order)),
            Err(_) => Ok(dialect),
        }
    }
}

/// Reads rows up to their first fault, which is answered if there is one.
fn first_fault(alloc: Global, csv: &mut CsvReader, text: &[u8]) -> Option<CsvError> {
    let mut reader = Counted::new(text);
    for _ in 0..text.len().saturating_add(1) {
        match csv.next_batch(alloc, &mut reader) {
            Ok(rows) if rows.len() < MAX_ROWS => return None,
            Ok(_) => {}
            Err(fault) => return Some(fault),
        }
    }
    None
}

/// What is known of the fault of a field, or of a line if it is 0, that a reader of rows has come to. The words say what the fields are,
/// if there are any.
fn known_of<'a>(
    csv: &'a CsvReader,
    separator: u8,
    words: &'a str,
    schema: &'a Schema,
    is_header: bool,
    column: u64,
) -> Knowledge<'a> {
    let wanted = if words.is_empty() {
        Wanted::Columns(schema)
    } else {
        Wanted::Words(words)
    };
    let found = RefusedLine {
        line: csv.line(),
        is_cut: csv.is_cut(),
        separator,
        wanted,
        is_header,
        column: csv.column_of(column),
    };
    found.known(column, schema)
}

/// The sentence of a fault of rows for a table: of this line, from 1, and of its field, from 1, or of how many there are if it is 0.
pub(crate) fn said_on_rows<'a>(
    alloc: Global,
    line: u64,
    column: u64,
    rows: &'a RefusedRows<'a>,
    schema: &'a Schema,
) -> Result<String, AllocError> {
    let dialect = rows.dialect(alloc, schema)?;
    let mut csv = CsvReader::in_dialect(alloc, schema, rows.has_heading, dialect)?;
    let refusal = CommandRefusal::BadCsv { line, column };
    if first_fault(alloc, &mut csv, rows.text) != Some(CsvError::BadCsv { line, column }) {
        return said(alloc, refusal, Knowledge::Nothing);
    }
    let is_header = rows.has_heading && line == 1;
    said(
        alloc,
        refusal,
        known_of(
            &csv,
            rows.separator,
            rows.words(),
            schema,
            is_header,
            column,
        ),
    )
}
