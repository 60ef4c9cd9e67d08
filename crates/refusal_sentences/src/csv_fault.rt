//! What is wrong with a line of comma-separated values, or with one of its fields.

use crate::quoted::{Printable, Quoted};
use crate::tables::Names;
use std::{fmt, str};
use table_model::{ColType, Schema, VALUE_DIGITS, is_numeral, same_word};

/// The usual separators, what each is called, and how the option that names it is written in a shell.
const SEPARATORS: [(u8, &str, &str); 4] = [
    (b',', "commas", "--separator ','"),
    (b';', "semicolons", "--separator ';'"),
    (b'\t', "tabs", "--separator '\\t'"),
    (b'|', "bars", "--separator '|'"),
];

/// What is said of a quote that is open at a line's end.
const NO_LINE_END: &str = "quotes don't protect a line's end, so write each row in one line";

/// How many fields of a header are named in a sentence at most.
const NAMED_FIELDS: usize = 64;

/// How many fields a line should have, and what says so.
#[derive(Clone, Copy)]
pub enum Wanted<'a> {
    /// One for each column of the table.
    Columns(&'a Schema),
    /// One for each word of a list, with a comma between each two.
    Words(&'a str),
}

impl<'a> Wanted<'a> {
    /// As many as a list has words, if there is one, and else as many as a table has columns.
    pub fn of(schema: &'a Schema, words: Option<&'a str>) -> Wanted<'a> {
        match words {
            None => Wanted::Columns(schema),
            Some(words) => Wanted::Words(words),
        }
    }

    /// How many they are.
    fn count(self) -> usize {
        match self {
            Wanted::Columns(schema) => schema.columns(),
            Wanted::Words(words) => words.split(',').count(),
        }
    }
}

/// How many fields a line should have, as the end of a sentence: `the table has 2 columns`.
impl<'a> fmt::Display for Wanted<'a> {
    fn fmt<W: fmt::Write>(&self, f: &mut fmt::Formatter<W>) -> fmt::Result {
        let count = self.count();
        match *self {
            Wanted::Columns(_) => {
                let columns = if count == 1 { "column" } else { "columns" };
                write!(f, "the table has {count} {columns}")
            }
            Wanted::Words(_) => {
                let words = if count == 1 { "word" } else { "words" };
                write!(f, "--columns has {count} {words}")
            }
        }
    }
}

/// A line that has the wrong number of fields, or is no header.
#[derive(Clone, Copy)]
pub struct Fields<'a> {
    line: &'a [u8],
    separator: u8,
    wanted: Wanted<'a>,
    is_header: bool,
}

impl<'a> Fields<'a> {
    /// A line, the separator of its fields, how many fields it should have, and whether it is the header.
    pub fn new(line: &'a [u8], separator: u8, wanted: Wanted<'a>, is_header: bool) -> Fields<'a> {
        Fields {
            line,
            separator,
            wanted,
            is_header,
        }
    }

    /// The line.
    pub fn line(&self) -> &'a [u8] {
        self.line
    }

    /// How many fields the line has if this byte separates them.
    fn count(&self, separator: u8) -> usize {
        let cuts = self.line.iter().filter(|byte| **byte == separator).count();
        cuts.saturating_add(1)
    }

    /// How many fields the line would have if quotes protected a separator.
    fn count_outside_quotes(&self) -> usize {
        let mut is_quoted = false;
        let mut count = 1usize;
        for byte in self.line {
            if *byte == b'"' {
                is_quoted = !is_quoted;
            } else if *byte == self.separator && !is_quoted {
                count = count.saturating_add(1);
            }
        }
        count
    }

    /// What seems to separate the fields, if it is another byte than it should be, and the option that says so.
    fn likely_separator(&self) -> Option<(&'static str, &'static str)> {
        for (separator, name, option) in SEPARATORS {
            if separator != self.separator && self.count(separator) == self.wanted.count() {
                return Some((name, option));
            }
        }
        None
    }

    /// Whether a quote is open at the line's end.
    fn is_quote_open(&self) -> bool {
        let quotes = self.line.iter().filter(|byte| **byte == b'"').count();
        quotes % 2 == 1
    }

    /// Whether the header has a field that names this column.
    fn has_column(&self, name: &[u8]) -> bool {
        self.line
            .split(|byte| *byte == self.separator)
            .any(|field| same_word(unquoted(field), name))
    }

    /// Whether the header has a field that names a column of the table.
    fn has_any_column(&self, schema: &Schema) -> bool {
        self.line
            .split(|byte| *byte == self.separator)
            .any(|field| has_name(schema, unquoted(field)))
    }

    /// Writes the columns of the table, which of them the header does not have, or which of its fields names none, and how to say what the
    /// fields are.
    fn write_names<W: fmt::Write>(
        &self,
        schema: &Schema,
        f: &mut fmt::Formatter<W>,
    ) -> fmt::Result {
        let names = Names(schema);
        write!(f, ", {names}")?;
        if !self.has_any_column(schema) {
            return Ok(());
        }
        self.write_missing(schema, f)?;
        self.write_extra(schema, f)?;
        f.write_str("; name the fields by --columns, as --columns ")?;
        self.write_list(schema, f)
    }

    /// Writes the first column of the table that the header does not have, if there is one.
    fn write_missing<W: fmt::Write>(
        &self,
        schema: &Schema,
        f: &mut fmt::Formatter<W>,
    ) -> fmt::Result {
        for column in schema.column_list() {
            let name = column.name();
            if !self.has_column(name.as_bytes()) {
                return write!(f, "; {name} is missing");
            }
        }
        Ok(())
    }

    /// Writes the first field of the header that names no column of the table, if there is one.
    fn write_extra<W: fmt::Write>(
        &self,
        schema: &Schema,
        f: &mut fmt::Formatter<W>,
    ) -> fmt::Result {
        for field in self.line.split(|byte| *byte == self.separator) {
            let name = unquoted(field);
            if !has_name(schema, name) {
                let name = Quoted(name);
                return write!(f, "; {name} is not one of them");
            }
        }
        Ok(())
    }

    /// Writes what the fields of the header are, as `--columns` takes it.
    fn write_list<W: fmt::Write>(&self, schema: &Schema, f: &mut fmt::Formatter<W>) -> fmt::Result {
        let fields = self.line.split(|byte| *byte == self.separator);
        for (index, field) in fields.take(NAMED_FIELDS).enumerate() {
            if index > 0 {
                f.write_str(",")?;
            }
            write_word(schema, unquoted(field), f)?;
        }
        Ok(())
    }

    /// Writes what to do, if it is known, about fields whose number is wrong.
    fn write_advice<W: fmt::Write>(&self, f: &mut fmt::Formatter<W>) -> fmt::Result {
        match (self.likely_separator(), self.wanted) {
            (Some((name, option)), _) if self.wanted.count() > 1 => {
                write!(f, "; {name} seem to separate its fields: say {option}")
            }
            _ if self.is_quote_open() => write!(f, "; {NO_LINE_END}"),
            _ if self.count_outside_quotes() == self.wanted.count() => f.write_str(
                "; quotes don't protect a separator: write numbers without it, or choose another one",
            ),
            _ if self.line.contains(&b'\r') => f.write_str(
                "; a carriage return alone does not end a line: end lines with line feeds",
            ),
            (_, Wanted::Columns(schema)) if self.is_header => self.write_names(schema, f),
            _ => Ok(()),
        }
    }
}

impl<'a> fmt::Display for Fields<'a> {
    fn fmt<W: fmt::Write>(&self, f: &mut fmt::Formatter<W>) -> fmt::Result {
        if self.is_header && self.line.is_empty() {
            return f.write_str(
                "this line is empty, and should be the header: did the command before it fail?",
            );
        }
        let found = self.count(self.separator);
        let wanted = self.wanted;
        if found == wanted.count() {
            return f.write_str("this is a row and no header: with --no-header it is read as a row");
        }
        let fields = if found == 1 { "field" } else { "fields" };
        write!(f, "the line has {found} {fields}, and {wanted}")?;
        self.write_advice(f)
    }
}

/// Writes a field of a header as a word of `--columns`: the column's name, or a hyphen if it is no column.
fn write_word<W: fmt::Write>(
    schema: &Schema,
    field: &[u8],
    f: &mut fmt::Formatter<W>,
) -> fmt::Result {
    for column in schema.column_list() {
        if same_word(column.name().as_bytes(), field) {
            return f.write_str(column.name());
        }
    }
    f.write_str("-")
}

/// Whether a table has a column of this name, in either case.
fn has_name(schema: &Schema, name: &[u8]) -> bool {
    schema
        .column_list()
        .iter()
        .any(|column| same_word(column.name().as_bytes(), name))
}

/// Words that other systems write for a null.
const NULLS: [&[u8]; 9] = [
    b"NA", b"N/A", b"NaN", b"None", b"nil", b"null", b"-", b"?", b"missing",
];

/// Whether a line has the names of columns, as a heading does: each of its fields names a column of the table.
pub fn is_heading(line: &[u8], separator: u8, schema: &Schema) -> bool {
    line.split(|byte| *byte == separator)
        .all(|field| has_name(schema, unquoted(field)))
}

/// What is wrong with a heading that is read as a row, in the line of this number.
pub fn fault_of_heading_in(line: u64) -> &'static str {
    if line == 1 {
        "this line has the names of columns: leave --no-header out"
    } else {
        "this line has the names of columns again: leave it out, or name each CSV by itself"
    }
}

/// Writes what is wrong with a field of a row, whose column has this type.
pub fn write_fault_of_field<W: fmt::Write>(
    column_type: ColType,
    text: &[u8],
    f: &mut fmt::Formatter<W>,
) -> fmt::Result {
    let inner = unquoted(text);
    let field = Quoted(inner);
    if is_whole_number(inner) {
        return write!(f, "{field} is outside the type {column_type}");
    }
    if is_long_number(inner) {
        return write!(f, "{field} has more than 30 digits");
    }
    write!(f, "{field} is not a whole number")?;
    if NULLS.iter().any(|null| same_word(inner, null)) {
        let word = Printable(str::from_utf8(inner).unwrap_or(""));
        return write!(f, "; if it is a null, say --null '{word}'");
    }
    match advice_on_field(inner) {
        Some(advice) => write!(f, ": {advice}"),
        None => Ok(()),
    }
}

/// What to do about a field that is not a number, if it is known.
fn advice_on_field(field: &[u8]) -> Option<&'static str> {
    let digits = digits_of(field);
    if field.is_empty() {
        Some("a null is an empty field without quotes, or NULL; if this is one too, say --null ''")
    } else if field.trim_ascii().len() < field.len() && is_whole_number(field.trim_ascii()) {
        Some("a field has no spaces")
    } else if field.first() == Some(&b'+') {
        Some("a number has no plus sign")
    } else if field.first() == Some(&b'"') {
        Some(NO_LINE_END)
    } else if is_fraction(digits) {
        Some("write it in a smaller unit, as cents for an amount")
    } else if is_date(digits) {
        Some("write a day as a number, as 20261130, and a time as seconds")
    } else if same_word(field, b"TRUE") || same_word(field, b"FALSE") {
        Some("write 1 for true and 0 for false")
    } else if field.first().is_some_and(u8::is_ascii_alphabetic) || !field.is_ascii() {
        Some("write a number for each text")
    } else {
        None
    }
}

/// Whether digits have one point among them.
fn is_fraction(digits: &[u8]) -> bool {
    let points = digits.iter().filter(|byte| **byte == b'.').count();
    points == 1
        && digits
            .iter()
            .all(|byte| byte.is_ascii_digit() || *byte == b'.')
}

/// Whether a field begins as a day or a time does: a digit, and a hyphen, a slash or a colon behind it.
fn is_date(field: &[u8]) -> bool {
    let is_begun = field.first().is_some_and(u8::is_ascii_digit);
    is_begun && field.iter().any(|byte| matches!(*byte, b'-' | b'/' | b':'))
}

/// Writes what is wrong with a field of the header.
pub fn write_fault_of_heading<W: fmt::Write>(
    text: &[u8],
    schema: &Schema,
    f: &mut fmt::Formatter<W>,
) -> fmt::Result {
    let name = unquoted(text);
    let field = Quoted(name);
    if has_name(schema, name) {
        return write!(f, "{field} is there for the second time");
    }
    let names = Names(schema);
    write!(f, "{field} is not a column of the table, which has {names}")?;
    if is_whole_number(name) {
        f.write_str(": if the first line is a row, say --no-header")
    } else {
        f.write_str(": name the fields by --columns")
    }
}

/// A field without the double quotes round it, if they are there.
fn unquoted(field: &[u8]) -> &[u8] {
    match field {
        [b'"', inner @ .., b'"'] => inner,
        _ => field,
    }
}

/// The digits of a field, without a minus sign in front.
fn digits_of(field: &[u8]) -> &[u8] {
    match field {
        [b'-', digits @ ..] => digits,
        _ => field,
    }
}

/// Whether a field without its quotes is a whole number as the grammar has it: an optional `-` and 1 to 30 digits.
fn is_whole_number(field: &[u8]) -> bool {
    let digits = digits_of(field);
    is_numeral(digits, VALUE_DIGITS)
}

/// Whether a field is a number of more digits than the grammar has.
fn is_long_number(field: &[u8]) -> bool {
    let digits = digits_of(field);
    digits.len() > VALUE_DIGITS && digits.iter().all(u8::is_ascii_digit)
}
