//! What is wrong with the text of a query or of a condition, and what to write instead.

use crate::place::Place;
use crate::quoted::Quoted;
use crate::tables::Names;
use crate::tokens::{first_token, is_one_of, without_token};
use query_parser::Expected;
use std::fmt;
use table_model::{Refusal, Schema, same_word};

/// What is said of a text that isn't UTF-8.
pub const NOT_UTF8: &str = "this is not UTF-8";

/// A text that is refused, and what else is known.
#[derive(Clone, Copy)]
pub struct Text<'a> {
    /// The text.
    pub text: &'a str,
    /// Whether it is a condition alone, and no query.
    pub is_condition: bool,
    /// The table that is asked.
    pub schema: Option<&'a Schema>,
}

/// Whether it is the text of a query or a condition that is refused, and not the file or the output.
pub fn is_of_a_text(refusal: Refusal) -> bool {
    matches!(
        refusal,
        Refusal::Syntax(_)
            | Refusal::NoSuchTable
            | Refusal::NoSuchColumn(_)
            | Refusal::NotGrouped(_)
            | Refusal::NumberTooLarge(_)
            | Refusal::TooDeep
    )
}

/// The word after FROM; empty if nothing comes after it.
fn table_of(text: &[u8]) -> &[u8] {
    let mut is_next = false;
    let mut rest = text.trim_ascii_start();
    for _ in 0..text.len() {
        let token = first_token(rest);
        if is_next || token.is_empty() {
            return token;
        }
        is_next = same_word(token, b"FROM");
        rest = without_token(rest, token);
    }
    b""
}

/// Whether a name is one that the select list of a query gives to one of its items: no comma, parenthesis or keyword comes before it.
fn is_alias(query: &[u8], name: &[u8]) -> bool {
    let mut is_next = false;
    let mut rest = query.trim_ascii_start();
    for _ in 0..query.len() {
        let token = first_token(rest);
        if token.is_empty() || same_word(token, b"FROM") {
            return false;
        }
        if is_next && same_word(token, name) {
            return true;
        }
        is_next = !is_one_of(token, &[b"SELECT", b",", b"(", b"DISTINCT", b"ALL"]);
        rest = without_token(rest, token);
    }
    false
}

impl<'a> Text<'a> {
    /// Writes why the text is refused, if more can be said of it than the refusal's name says. Answers whether it did.
    pub fn write_fault<W: fmt::Write>(
        &self,
        refusal: Refusal,
        expected: Option<&Expected>,
        f: &mut fmt::Formatter<W>,
    ) -> Result<bool, fmt::Error> {
        match refusal {
            Refusal::Syntax(at) => {
                Place::new(self.text, at, self.is_condition, expected).write(f)?;
            }
            Refusal::NoSuchTable => self.write_fault_of_table(f)?,
            Refusal::NoSuchColumn(at) => self.write_fault_of_column(at, f)?,
            Refusal::NotGrouped(at) => {
                let name = Quoted(self.word(at).as_bytes());
                write!(f, "{name} must be in GROUP BY or inside a set function")?;
            }
            _ => return Ok(false),
        }
        Ok(true)
    }

    /// The word at a byte of the text.
    fn word(&self, at: u64) -> &'a str {
        Place::new(self.text, at, self.is_condition, None).shown()
    }

    /// Writes which table is not there, and which one is.
    fn write_fault_of_table<W: fmt::Write>(&self, f: &mut fmt::Formatter<W>) -> fmt::Result {
        let name = Quoted(table_of(self.text.as_bytes()));
        write!(f, "there is no table {name}")?;
        match self.schema {
            Some(schema) => {
                let table = schema.table();
                write!(f, ": the table here is {table}")
            }
            None => Ok(()),
        }
    }

    /// Writes which column is not there, and which ones are, or that the name is an alias.
    fn write_fault_of_column<W: fmt::Write>(
        &self,
        at: u64,
        f: &mut fmt::Formatter<W>,
    ) -> fmt::Result {
        let word = self.word(at);
        let name = Quoted(word.as_bytes());
        if !self.is_condition && is_alias(self.text.as_bytes(), word.as_bytes()) {
            return write!(
                f,
                "{name} is an alias, which only the heading has: write what it names"
            );
        }
        write!(f, "there is no column {name}")?;
        match self.schema {
            Some(schema) => {
                let names = Names(schema);
                write!(f, ": the table has {names}")
            }
            None => Ok(()),
        }
    }
}
