//! What is known of a line of comma-separated values that is refused.

use crate::csv_fault::{Fields, Wanted, is_heading};
use crate::sentence::Knowledge;
use table_model::Schema;

/// What is said of a last line without its end.
const NO_END: &str = "the last line has no line end: it may be cut off";

/// A line of comma-separated values that is refused, and how its text is written.
#[derive(Clone, Copy)]
pub struct RefusedLine<'a> {
    /// The line, without its end.
    pub line: &'a [u8],
    /// Whether it has no end, and should have one.
    pub is_cut: bool,
    /// What separates its fields.
    pub separator: u8,
    /// How many fields it should have.
    pub wanted: Wanted<'a>,
    /// Whether it should be the header.
    pub is_header: bool,
    /// The place in the schema, from 0, of the column of that field. A field of the header has none.
    pub column: Option<usize>,
}

impl<'a> RefusedLine<'a> {
    /// What is known of the fault: of this field, from 1, or of how many fields there are if it is 0. The rows are for this table.
    pub fn known(&self, field: u64, schema: &'a Schema) -> Knowledge<'a> {
        if field == 0 && self.is_cut {
            return Knowledge::Advice(NO_END);
        }
        if field == 0 {
            return Knowledge::Fields(Fields::new(
                self.line,
                self.separator,
                self.wanted,
                self.is_header,
            ));
        }
        match self.column {
            Some(index) if index < schema.columns() => {
                let found = schema.column(index);
                Knowledge::Field {
                    column: found.name(),
                    column_type: found.column_type(),
                    text: self.field(field),
                    is_heading: is_heading(self.line, self.separator, schema),
                }
            }
            _ => Knowledge::Heading {
                text: self.field(field),
                schema,
            },
        }
    }

    /// The field of this number, from 1; empty if the line does not have it.
    fn field(&self, number: u64) -> &'a [u8] {
        let separator = self.separator;
        let index = usize::try_from(number.saturating_sub(1)).unwrap_or(usize::MAX);
        let mut fields = self.line.split(|byte| *byte == separator);
        fields.nth(index).unwrap_or(b"")
    }
}
