//! The dialects of comma-separated values, as a caller says them.
ghost use Rattle.std.specs.Prelude.{◌≡◌, ◌-◌, IfErr, IfOk, None, option_map};
ghost use Rattle.std.specs.String.{string_bytes};
ghost use Rattle.lanes_c.specs.Dialects.{IsNoWord, SaysColumns, SaysDialect, SaysOrder, comma_or, commas_left, is_letter_or_digit, is_taken, is_within, may_separate, own_word, word_start};

use crate::fault::Fault;
use csv_rows::{Dialect, Order, WordError};
use std::alloc::Global;
use table_model::{Column, Refusal};

/// What separates the words of a list.
const COMMA: u8 = b',';

/// The field at fault if a byte can't separate fields.
const SEPARATOR: u64 = 1;

/// The field at fault if the word for a null is no text.
const NULL_WORD: u64 = 2;

/// The byte that separates fields: 0 stands for a comma.
fn comma_or(separator: u8) -> u8
    ensures { result ≡ comma_or separator }
{
    if separator == 0 { COMMA } else { separator }
}

/// Whether a byte is one of a range.
fn is_within(first: u8, last: u8, byte: u8) -> bool
    ensures { result ≡ is_within first last byte }
{
    first <= byte && byte <= last
}

/// Whether a byte is a digit or a letter of ASCII.
fn is_letter_or_digit(byte: u8) -> bool
    ensures { result ≡ is_letter_or_digit byte }
{
    is_within(b'0', b'9', byte) || (is_within(b'A', b'Z', byte) || is_within(b'a', b'z', byte))
}

/// Whether a byte is the end of a line, a quote, a hyphen, a backslash or an underscore.
fn is_taken(byte: u8) -> bool
    ensures { result ≡ is_taken byte }
{
    byte == b'\n'
        || (byte == b'\r' || (byte == b'"' || (byte == b'-' || (byte == b'\\' || byte == b'_'))))
}

/// Whether a byte may separate fields: a character of ASCII that no name, no number, no null and no line's end has.
fn may_separate(byte: u8) -> bool
    ensures { result ≡ may_separate byte }
{
    byte <= 127 && !(is_taken(byte) || is_letter_or_digit(byte))
}

/// The word that is a null besides the usual ones; none if it is empty.
fn own_word(alloc: Global, word: &[u8]) -> Result<Option<String>, Fault>
    ensures word { IfOk result (λ own. option_map string_bytes own ≡ own_word word.now) }
    ensures fault { IfErr result (λ fault. IsNoWord fault word.now) }
{
    if word.is_empty() {
        return Ok(None);
    }
    match std::str::from_utf8(word) {
        Ok(word) => Ok(Some(String::from_str(alloc, word)?)),
        Err(_) => Err(Fault::BadCsv {
            line: 0,
            column: NULL_WORD,
        }),
    }
}

/// How many commas are left before a word, behind a byte.
fn commas_left(byte: u8, before: u64) -> u64
    ensures { result ≡ commas_left byte before }
{
    if byte == COMMA {
        before.saturating_sub(1)
    } else {
        before
    }
}

/// The byte at which a word of a list begins, by its number, from 1, with a comma between each two.
fn word_start(words: &[u8], number: u64) -> u64
    ensures { result ≡ word_start words.now (number - 1) }
{
    let mut before = number.saturating_sub(1);
    let mut at: u64 = 0;
    for byte in words {
        if before == 0 {
            return at;
        }
        before = commas_left(*byte, before);
        at += 1;
    }
    at
}

/// What the fields are, by a list of words.
fn order_of(alloc: Global, columns: &[Column], words: &[u8]) -> Result<Order, Fault>
    ensures { SaysOrder result columns.now words.now }
{
    match Order::of_words(alloc, columns, words) {
        Ok(order) => Ok(order),
        Err(WordError::NoNewColumn(number)) => Err(Fault::InNames(Refusal::NoSuchColumn(word_start(
            words, number,
        )))),
        Err(WordError::Memory) => Err(Fault::Refused(Refusal::Memory)),
    }
}

/// The dialect of a separator and a null's word, in which the last line needs an end or not.
fn plain_dialect(separator: u8, null_word: Option<String>, needs_ends: bool) -> Dialect
    ensures { result ≡ record { separator = separator; null_word = option_map string_bytes null_word; order = None; needs_ends = needs_ends } }
{
    let dialect = Dialect::new(separator, null_word);
    if needs_ends {
        dialect.with_ends()
    } else {
        dialect
    }
}

/// A dialect in which the fields are what a list of words says, if there is one.
fn in_columns(
    alloc: Global,
    columns: &[Column],
    dialect: Dialect,
    words: &[u8],
) -> Result<Dialect, Fault>
    ensures { SaysColumns result columns.now dialect words.now }
{
    if words.is_empty() {
        return Ok(dialect);
    }
    let order = order_of(alloc, columns, words)?;
    Ok(dialect.with_order(order))
}

/// The dialect in which this byte separates, or a comma if it is 0; in which this word, if there is one, is a null besides the usual
/// ones; in which the fields are what a list of words says, if there is one; and in which the last line needs an end or not.
///
/// Refused are, in this order, `BadCsv` of line 0 and field 1 if the byte can't separate; of field 2 if the word is not UTF-8; and
/// `NoSuchColumn` at the byte of the first word of the list that is no new column.
pub(crate) fn dialect_of(
    alloc: Global,
    columns: &[Column],
    separator: u8,
    null_word: &[u8],
    words: &[u8],
    needs_ends: bool,
) -> Result<Dialect, Fault>
    ensures { SaysDialect result columns.now (record { separator = separator; null_word = null_word.now; columns = words.now; needs_ends = needs_ends }) }
{
    let comma = comma_or(separator);
    if !may_separate(comma) {
        return Err(Fault::BadCsv {
            line: 0,
            column: SEPARATOR,
        });
    }
    let own = own_word(alloc, null_word)?;
    in_columns(alloc, columns, plain_dialect(comma, own, needs_ends), words)
}
