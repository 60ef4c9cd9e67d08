//! Words of a command line that are more than texts: names of batches, ordinals, columns with their types, forms of answers.

use crate::requests::Source;
use answer_formats::{Format, ReportForm};
use refusal_sentences::Quoted;
use std::alloc::{AllocError, Global};
use std::fmt;
use table_model::{BatchName, ColType, NUMBER_DIGITS, Number, ORDINAL_DIGITS, Origin, magnitude};

/// The number that 1 digit and at most `most` write.
fn number(text: &str, most: usize) -> Option<u64> {
    let is_numeral = text.len() <= most && text.bytes().all(|byte| byte.is_ascii_digit());
    if is_numeral {
        text.parse::<u64>().ok()
    } else {
        None
    }
}

/// An origin or a batch's number: 1 to 10 digits, at most 4,294,967,295.
fn small_number(text: &str) -> Option<u32> {
    u32::try_from(number(text, NUMBER_DIGITS)?).ok()
}

/// An ordinal: 1 to 5 digits, at most 65,535.
pub fn ordinal(text: &str) -> Option<u16> {
    u16::try_from(number(text, ORDINAL_DIGITS)?).ok()
}

/// The name of a batch: an origin, a point and a number. Either may be 0.
pub fn batch_name(text: &str) -> Option<BatchName> {
    let (origin, number) = text.split_once('.')?;
    Some(BatchName {
        origin: Origin(small_number(origin)?),
        number: Number(small_number(number)?),
    })
}

/// The form of answers of this name.
pub fn format(name: &str) -> Option<Format> {
    match name {
        "text" => Some(Format::Text),
        "csv" => Some(Format::Csv),
        "json" => Some(Format::Json),
        "table" => Some(Format::Table),
        _ => None,
    }
}

/// The form of reports of this name.
pub fn report_form(name: &str) -> Option<ReportForm> {
    match name {
        "text" => Some(ReportForm::Text),
        "json" => Some(ReportForm::Json),
        _ => None,
    }
}

/// What is wrong with the words of a table's columns.
#[derive(Clone, Copy, Debug)]
pub enum ColumnFault<'a> {
    /// No type comes after this name.
    NoType(&'a str),
    /// This is the type of no column.
    OtherType(&'a str),
}

/// How types of other systems begin, and what to do instead.
const OTHER_TYPES: [(&str, &str); 18] = [
    ("INT2", "write SMALLINT"),
    ("INT8", "write BIGINT"),
    ("INT", "write INTEGER"),
    ("LONG", "write BIGINT"),
    ("CHAR", NO_TEXT),
    ("TEXT", NO_TEXT),
    ("STRING", NO_TEXT),
    ("VARCHAR", NO_TEXT),
    ("NUMBER", NO_FRACTION),
    ("FLOAT", NO_FRACTION),
    ("DOUBLE", NO_FRACTION),
    ("REAL", NO_FRACTION),
    ("DECIMAL", NO_FRACTION),
    ("NUMERIC", NO_FRACTION),
    ("TIMESTAMP", "store seconds since 1970 in a BIGINT"),
    (
        "DATE",
        "store a day as a number, as 20261130, in an INTEGER",
    ),
    ("TIME", "store seconds in an INTEGER"),
    ("BOOL", "store 1 and 0 in a TINYINT"),
];

/// What to do instead of a text.
const NO_TEXT: &str = "store a number for each text";

/// What to do instead of a fraction.
const NO_FRACTION: &str = "store a whole number of a smaller unit, as cents for an amount";

/// What to do instead of a type of another system, if it is known.
fn cure_of_type(written: &str) -> Option<&'static str> {
    if written.contains(',') {
        return Some("no comma comes between two columns");
    }
    for (known, cure) in OTHER_TYPES {
        let front = written.get(..known.len());
        if front.is_some_and(|front| front.eq_ignore_ascii_case(known)) {
            return Some(cure);
        }
    }
    None
}

/// The fault in words.
impl<'a> fmt::Display for ColumnFault<'a> {
    fn fmt<W: fmt::Write>(&self, f: &mut fmt::Formatter<W>) -> fmt::Result {
        match *self {
            ColumnFault::NoType(name) => {
                fmt::Display::fmt(&Quoted(name.as_bytes()), f)?;
                f.write_str(
                    " has no type: each column is a name and its type, TINYINT, SMALLINT, INTEGER or BIGINT",
                )
            }
            ColumnFault::OtherType(written) => {
                fmt::Display::fmt(&Quoted(written.as_bytes()), f)?;
                f.write_str(
                    " is no type: each column is a name and its type, TINYINT, SMALLINT, INTEGER or BIGINT",
                )?;
                match cure_of_type(written) {
                    Some(cure) => write!(f, "; {cure}"),
                    None => Ok(()),
                }
            }
        }
    }
}

/// The columns of these names and types, each name before its type, which is written in any case; or the first fault
/// among them.
pub fn columns<'a>(
    alloc: Global,
    words: &[&'a str],
) -> Result<Result<Vec<(&'a str, ColType)>, ColumnFault<'a>>, AllocError> {
    let mut columns = Vec::new(alloc);
    for pair in words.chunks(2) {
        let (name, written) = match *pair {
            [name, written] => (name, written),
            [name] => return Ok(Err(ColumnFault::NoType(name))),
            _ => continue,
        };
        let Some(column_type) = column_type(alloc, written)? else {
            return Ok(Err(ColumnFault::OtherType(written)));
        };
        columns.push((name, column_type))?;
    }
    Ok(Ok(columns))
}

/// The type of this name in any case.
fn column_type(alloc: Global, written: &str) -> Result<Option<ColType>, AllocError> {
    let name = written.to_ascii_uppercase(alloc)?;
    Ok(ColType::named(name.as_str()))
}

/// What inputs of these names are read from: `-` is standard input.
pub fn sources<'a>(alloc: Global, names: &[&'a str]) -> Result<Vec<Source<'a>>, AllocError> {
    let mut sources = Vec::new(alloc);
    for name in names {
        sources.push(Source::named(*name))?;
    }
    Ok(sources)
}

/// The separator of fields that is written so: one ASCII character, or `\t` for a tab. None for a letter, a digit, and each other
/// character that a name, a number, a null or a line's end has.
pub fn separator(text: &str) -> Option<u8> {
    let byte = match text.as_bytes() {
        b"\\t" => b'\t',
        [byte] => *byte,
        _ => return None,
    };
    let is_taken = byte.is_ascii_alphanumeric()
        || matches!(byte, b'"' | b'-' | b'_' | b'\\' | b'\r' | b'\n');
    if is_taken { None } else { Some(byte) }
}

/// What is wrong with a list of what fields are, with a comma between each two words: no word is a name, or one is there twice.
pub fn fault_of_columns(words: &str) -> Option<&'static str> {
    if words.split(',').all(|word| word == "-") {
        Some("NAMES has no name of a column")
    } else if has_name_twice(words) {
        Some("NAMES has a name twice")
    } else {
        None
    }
}

/// Whether a list has a name twice, in any case.
fn has_name_twice(words: &str) -> bool {
    for (index, word) in words.split(',').enumerate() {
        let mut before = words.split(',').take(index);
        if word != "-" && before.any(|other| other.eq_ignore_ascii_case(word)) {
            return true;
        }
    }
    false
}

/// Whether a text is a whole number as a field of comma-separated values is one: an optional minus sign and 1 to 30 digits.
pub fn is_number(text: &str) -> bool {
    let digits = text.strip_prefix('-').unwrap_or(text);
    magnitude(digits.as_bytes()).is_some()
}

/// How many of these sources are standard input.
pub fn inputs(sources: &[Source<'_>]) -> usize {
    sources
        .iter()
        .filter(|source| **source == Source::Input)
        .count()
}
