//! What a field is: a null, or a whole number of its column's type.
ghost use Rattle.std.specs.Prelude.{◌≡◌};
ghost use Rattle.csv_rows.specs.Field.{is_null_word, value_of, cell_of, cell_in};
ghost use Rattle.table_model.specs.Numeral.{integer_of};

use crate::bytes::{unquoted, without};
use crate::dialect::Dialect;
use table_model::{Column, magnitude, same_text};

/// A whole number: an optional minus sign and 1 to 30 digits.
fn integer(text: &[u8]) -> Option<i128>
    ensures { result ≡ integer_of text.now }
{
    match without(text, b'-') {
        None => magnitude(text),
        Some(digits) => {
            let value = magnitude(digits)?;
            Some(-value)
        }
    }
}

/// Whether the text is a word for null.
#[tactic(auto, unfolding(crate::specs::Field::is_null_word))]
fn is_null_word(dialect: &Dialect, text: &[u8]) -> bool
    ensures { result ≡ is_null_word dialect.now text.now }
{
    same_text(text, b"NULL") || same_text(text, b"\\N") || dialect.is_own_word(text)
}

/// A value that isn't empty: a word for null, or a whole number.
fn value(dialect: &Dialect, text: &[u8]) -> Option<Option<i128>>
    ensures { result ≡ value_of dialect.now text.now }
{
    if is_null_word(dialect, text) {
        return Some(None);
    }
    let value = integer(text)?;
    Some(Some(value))
}

/// What a field is, if it is a null or a whole number.
fn cell(dialect: &Dialect, field: &[u8]) -> Option<Option<i128>>
    ensures { result ≡ cell_of dialect.now field.now }
{
    if field.is_empty() || dialect.is_own_word(field) {
        return Some(None);
    }
    value(dialect, unquoted(field))
}

/// The cell that a field is below a column, if it is one.
pub fn cell_in(dialect: &Dialect, column: &Column, field: &[u8]) -> Option<Option<i128>>
    ensures { result ≡ cell_in dialect.now column.now field.now }
{
    let cell = cell(dialect, field)?;
    if column.fits(cell) { Some(cell) } else { None }
}
