//! Words of a line: numbers, names of batches, values and rows.
ghost use Rattle.std.specs.Prelude.{◌≡◌, ◌<◌, ◌≤◌, ◌%◌, length, option_map, IfSome, Err};
ghost use Rattle.table_model.specs.Numeral.{value_digits, integer_of};
ghost use Rattle.script_lines.specs.Reading.{ReadsPart};
ghost use Rattle.script_lines.specs.Word.{cut, number_of, small_number, ordinal_of, name_of, cell_of, coding_of, some_text, file_of};
ghost use Rattle.table_model.specs.Pieces.{without};

use cluster_history::FileBytes;
use hex::FromHexError;
use segment_core::Coding;
use std::alloc::Global;
use table_model::{
    BatchName, NUMBER_DIGITS, Number, ORDINAL_DIGITS, Origin, Refusal, digits_value, is_numeral,
    magnitude,
};

/// What is before the first such character and what is after it, if there is one.
pub fn cut(text: &str, separator: char) -> Option<(&str, &str)>
    requires { separator < 128 }
    ensures parts { option_map (λ parts. (parts.0.now, parts.1.now)) result ≡ cut separator text.now }
    ensures shorter { IfSome result (λ parts. length parts.1.now < length text.now) }
{
    text.split_once(separator)
}

/// What follows such a character at the start of the text, if it starts with one.
pub fn without(text: &str, first: char) -> Option<&str>
    requires { first < 128 }
    ensures rest { option_map (λ rest. rest.now) result ≡ without first text.now }
    ensures shorter { IfSome result (λ rest. length rest.now < length text.now) }
{
    text.strip_prefix(first)
}

/// The number that 1 to this many digits write, if it is at most the limit.
#[tactic(auto, unfolding(crate::specs::Word::number_of, table_model::specs::Numeral::is_numeral))]
pub fn number(text: &str, digits: usize, limit: u128) -> Option<u128>
    requires { digits ≤ value_digits }
    ensures value { result ≡ number_of digits limit text.now }
    ensures bound { IfSome result (λ n. n ≤ limit) }
{
    let text = text.as_bytes();
    if !is_numeral(text, digits) {
        return None;
    }
    let value = digits_value(text);
    if value <= limit { Some(value) } else { None }
}

/// A replica, an origin or a batch's number: 1 to 10 digits, at most 4,294,967,295.
pub fn small_number(text: &str) -> Option<u32>
    ensures { result ≡ small_number text.now }
{
    let value = number(text, NUMBER_DIGITS, u128::from(u32::MAX))?;
    Some(value as u32)
}

/// An ordinal: 1 to 5 digits, at most 65,535.
pub fn ordinal(text: &str) -> Option<u16>
    ensures { result ≡ ordinal_of text.now }
{
    let value = number(text, ORDINAL_DIGITS, u128::from(u16::MAX))?;
    Some(value as u16)
}

/// The name of a batch: an origin, a point and a number.
pub fn batch_name(text: &str) -> Option<BatchName>
    ensures { result ≡ name_of text.now }
{
    let (origin, number) = cut(text, '.')?;
    let origin = small_number(origin)?;
    let number = small_number(number)?;
    Some(BatchName {
        origin: Origin(origin),
        number: Number(number),
    })
}

/// A whole number: an optional minus sign and 1 to 30 digits.
fn integer(text: &str) -> Option<i128>
    ensures { result ≡ integer_of text.now }
{
    match without(text, '-') {
        None => magnitude(text.as_bytes()),
        Some(digits) => {
            let value = magnitude(digits.as_bytes())?;
            Some(-value)
        }
    }
}

/// A value: NULL, or a whole number.
pub fn cell(text: &str) -> Option<Option<i128>>
    ensures { result ≡ cell_of text.now }
{
    if text == "NULL" {
        return Some(None);
    }
    let value = integer(text)?;
    Some(Some(value))
}

/// The coding that a word names.
pub fn coding(text: &str) -> Option<Coding>
    ensures { result ≡ coding_of text.now }
{
    if text == "FOR" {
        return Some(Coding::For);
    }
    if text == "DELTA" {
        return Some(Coding::Delta);
    }
    if text == "RLE" {
        return Some(Coding::Runs);
    }
    if text == "DICT" {
        return Some(Coding::Dict);
    }
    None
}

/// The text, if it isn't empty.
pub fn some_text(text: &str) -> Option<&str>
    ensures { option_map (λ t. t.now) result ≡ some_text text.now }
{
    if text.is_empty() { None } else { Some(text) }
}

/// The bytes that hexadecimal digits write, in either case: at least one.
pub fn file(alloc: Global, text: &str) -> Result<FileBytes, Refusal>
    ensures file { ReadsPart (λ file. file) result (file_of text.now) }
    ensures odd { length text.now % 2 ≡ 1 → result ≡ Err Refusal.BadLine }
{
    let Some(digits) = some_text(text) else {
        return Err(Refusal::BadLine);
    };
    match hex::decode(alloc, digits) {
        Ok(bytes) => Ok(FileBytes::from_vec(bytes)),
        Err(FromHexError::OutOfMemory) => Err(Refusal::Memory),
        Err(_) => Err(Refusal::BadLine),
    }
}
