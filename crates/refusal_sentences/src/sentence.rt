//! Sentences on refusals.

use crate::command_refusal::CommandRefusal;
use crate::csv_fault::{Fields, fault_of_heading_in, write_fault_of_field, write_fault_of_heading};
use crate::file_kind::{of_no_csv, of_no_file};
use crate::meaning::meaning_of;
use crate::quoted::{Printable, Quoted};
use crate::reason::{unread, unwritten};
use crate::table_fault::{TableFault, fault_of_table};
use crate::tables::{Names, Table};
use crate::text_fault::Text;
use query_parser::Expected;
use std::fmt;
use std::io::ErrorKind;
use table_model::{ColType, Refusal, Schema};

/// What is known of a refusal in addition to its name and values.
#[derive(Clone, Copy)]
pub enum Knowledge<'a> {
    /// Nothing more.
    Nothing,
    /// That an argument is refused as a whole, and its place says nothing.
    Argument,
    /// Why the system does not read or write.
    Reason(ErrorKind),
    /// What to do instead, in words.
    Advice(&'a str),
    /// The first bytes of the input.
    Beginning(&'a [u8]),
    /// The line of the input, from 1.
    Line(u64),
    /// A line that has the wrong number of fields.
    Fields(Fields<'a>),
    /// A field of a row: its column's name and type, its text, and whether its line names columns, as a heading does.
    Field {
        column: &'a str,
        column_type: ColType,
        text: &'a [u8],
        is_heading: bool,
    },
    /// A field that should name a column of a table.
    Heading {
        text: &'a [u8],
        schema: &'a Schema,
    },
    /// The text of a query or a condition, the table that it asks, and what the grammar takes at its fault, if that is known.
    Text {
        text: Text<'a>,
        expected: Option<&'a Expected>,
    },
    /// A name in a list of columns, and the table that has none of this name.
    Name {
        name: &'a str,
        schema: &'a Schema,
    },
    /// The table that rows are for.
    Rows(&'a Schema),
    /// What is wrong with a table that is to be made.
    NoTable(TableFault<'a>),
    /// The other input that has a batch of the same name.
    Other(&'a str),
    /// That the input had a batch of the same name before.
    Held,
    /// The table of the input, the one that it should have, and whose that is.
    Tables {
        found: &'a Schema,
        wanted: &'a Schema,
        of: &'a str,
    },
}

/// A refusal as a sentence with its place: `visits.csv, line 17, column HITS: "abc" is not a whole number`.
#[derive(Clone, Copy)]
pub struct Sentence<'a> {
    /// What is refused.
    pub refusal: CommandRefusal,
    /// What it is said of, a file's name or the like; empty if it is said of no input.
    pub subject: &'a str,
    /// What else is known.
    pub knowledge: Knowledge<'a>,
}

/// The place that a refusal names.
#[derive(Clone, Copy, Debug)]
enum Place<'a> {
    /// None.
    None,
    /// A byte, from 0.
    Byte(u64),
    /// A row, from 0.
    Row(usize),
    /// A row and a column, both from 0.
    Cell(usize, usize),
    /// A line, from 1.
    Line(u64),
    /// A line, from 1, and the name of a column.
    Column(u64, &'a str),
    /// A line and its field, both from 1.
    Field(u64, u64),
}

impl<'a> fmt::Display for Place<'a> {
    fn fmt<W: fmt::Write>(&self, f: &mut fmt::Formatter<W>) -> fmt::Result {
        match *self {
            Place::None => Ok(()),
            Place::Byte(at) => write!(f, "byte {at}"),
            Place::Row(row) => write!(f, "row {row}"),
            Place::Cell(row, column) => write!(f, "row {row}, column {column}"),
            Place::Line(line) => write!(f, "line {line}"),
            Place::Column(line, name) => write!(f, "line {line}, column {name}"),
            Place::Field(line, field) => write!(f, "line {line}, field {field}"),
        }
    }
}

/// The place that a refusal names, if nothing else is known. An empty input has none.
fn place_of<'a>(refusal: Refusal) -> Place<'a> {
    match refusal.place() {
        table_model::Place::Byte(_) if refusal == Refusal::Truncated(0) => Place::None,
        table_model::Place::Byte(at) => Place::Byte(at),
        table_model::Place::Row(row) => Place::Row(row),
        table_model::Place::Cell { row, column } => Place::Cell(row, column),
        table_model::Place::Batch(_) | table_model::Place::Nowhere => Place::None,
    }
}

impl<'a> Sentence<'a> {
    /// The sentence of a refusal if nothing more is known.
    pub fn new(refusal: CommandRefusal) -> Sentence<'a> {
        Sentence {
            refusal,
            subject: "",
            knowledge: Knowledge::Nothing,
        }
    }

    /// The place of what is refused.
    fn place(&self) -> Place<'a> {
        match (self.refusal, self.knowledge) {
            (CommandRefusal::BadCsv { line, column: 0 }, _) => Place::Line(line),
            (CommandRefusal::BadCsv { line, .. }, Knowledge::Field { column, .. }) => {
                Place::Column(line, column)
            }
            (CommandRefusal::BadCsv { line, column }, _) => Place::Field(line, column),
            (_, Knowledge::Line(line)) => Place::Line(line),
            (_, Knowledge::Argument) => Place::None,
            (CommandRefusal::Named(refusal), _) => place_of(refusal),
            (CommandRefusal::Exists, _)
            | (CommandRefusal::Busy, _)
            | (CommandRefusal::Damaged, _)
            | (CommandRefusal::NotApart(_), _)
            | (CommandRefusal::QueryDiffers, _)
            | (CommandRefusal::TooMany, _)
            | (CommandRefusal::Missing(_), _) => Place::None,
        }
    }

    /// Writes the subject and the place, and a colon, if there is one of them.
    fn write_place<W: fmt::Write>(&self, f: &mut fmt::Formatter<W>) -> fmt::Result {
        let place = self.place();
        let subject = Printable(self.subject);
        match (self.subject.is_empty(), place) {
            (true, Place::None) => Ok(()),
            (true, _) => write!(f, "{place}: "),
            (false, Place::None) => write!(f, "{subject}: "),
            (false, _) => write!(f, "{subject}, {place}: "),
        }
    }
}

impl<'a> fmt::Display for Sentence<'a> {
    fn fmt<W: fmt::Write>(&self, f: &mut fmt::Formatter<W>) -> fmt::Result {
        self.write_place(f)?;
        self.write_words(f)
    }
}

/// A sentence without its place and without what it is said of.
#[derive(Clone, Copy)]
pub struct Words<'a>(pub Sentence<'a>);

impl<'a> fmt::Display for Words<'a> {
    fn fmt<W: fmt::Write>(&self, f: &mut fmt::Formatter<W>) -> fmt::Result {
        self.0.write_words(f)
    }
}

impl<'a> Sentence<'a> {
    /// Writes what is wrong, without its place.
    fn write_words<W: fmt::Write>(&self, f: &mut fmt::Formatter<W>) -> fmt::Result {
        if self.write_knowledge(f)? {
            return Ok(());
        }
        match self.refusal {
            CommandRefusal::Named(Refusal::Conflict(name)) => {
                write!(f, "both have a batch {name}, with different rows")
            }
            CommandRefusal::Named(Refusal::Truncated(0)) => {
                f.write_str("this is empty: did the command before it fail?")
            }
            CommandRefusal::Named(refusal) => f.write_str(meaning_of(refusal)),
            CommandRefusal::BadCsv { column: 0, .. } => {
                f.write_str("the line has the wrong number of fields")
            }
            CommandRefusal::BadCsv { .. } => f.write_str("the field is not a whole number"),
            CommandRefusal::Exists => f.write_str("there is a file of this name already"),
            CommandRefusal::Busy => {
                f.write_str("another command has had the file for ten seconds")
            }
            CommandRefusal::Damaged => f.write_str(
                "its bytes are not those of its name: copy it again, or remove it",
            ),
            CommandRefusal::NotApart(name) => write!(
                f,
                "batch {name} is in both partial answers, or one file deletes rows of it that the other has: merge the two files, and make one partial answer from the result"
            ),
            CommandRefusal::QueryDiffers => f.write_str(
                "the partial answers are of different queries, or the groups of one are not those of its query: make all partial answers with the same text",
            ),
            CommandRefusal::TooMany => f.write_str(
                "a count has more than 64 bits, a sum or a mean more than 128, or DISTINCT more than 2^36 values: ask fewer files at once",
            ),
            CommandRefusal::Missing(name) => write!(
                f,
                "batch {name} is named here and was not counted: the partial answer of its file is missing, or the batch was forgotten since this summary was made"
            ),
        }
    }
}

impl<'a> Sentence<'a> {
    /// Writes what else is known, if that says all. Answers whether it did.
    fn write_knowledge<W: fmt::Write>(
        &self,
        f: &mut fmt::Formatter<W>,
    ) -> Result<bool, fmt::Error> {
        match (self.refusal, self.knowledge) {
            (_, Knowledge::Advice(words)) => f.write_str(words)?,
            (CommandRefusal::Named(Refusal::ReadFault), Knowledge::Reason(kind)) => {
                f.write_str(unread(kind))?;
            }
            (CommandRefusal::Named(Refusal::WriteFault), Knowledge::Reason(kind)) => {
                f.write_str(unwritten(kind))?;
            }
            (
                CommandRefusal::Named(Refusal::SchemaDiffers),
                Knowledge::Tables { found, wanted, of },
            ) => {
                let found = Table(found);
                let wanted = Table(wanted);
                let of = Printable(of);
                write!(f, "this holds the table {found}, but {of} holds {wanted}")?;
            }
            (CommandRefusal::Named(Refusal::Conflict(name)), Knowledge::Other(other)) => {
                let other = Printable(other);
                write!(
                    f,
                    "this and {other} have a batch {name}, with different rows"
                )?;
            }
            (CommandRefusal::Named(Refusal::Conflict(name)), Knowledge::Held) => {
                write!(f, "this has batch {name} already, with other rows")?;
            }
            (CommandRefusal::Named(Refusal::BadSchema), Knowledge::NoTable(fault)) => {
                write!(f, "{fault}")?;
            }
            (CommandRefusal::Named(Refusal::NoSuchColumn(_)), Knowledge::Name { name, schema }) => {
                let name = Quoted(name.as_bytes());
                let names = Names(schema);
                write!(f, "there is no column {name}: the table has {names}")?;
            }
            (CommandRefusal::Named(refusal), Knowledge::Rows(schema)) => {
                return write_fault_of_rows(refusal, schema, f);
            }
            (CommandRefusal::Named(refusal), Knowledge::Text { text, expected }) => {
                return text.write_fault(refusal, expected, f);
            }
            (CommandRefusal::Named(Refusal::BadMagic), Knowledge::Beginning(input)) => {
                match of_no_file(input) {
                    Some(said) => f.write_str(said)?,
                    None => return Ok(false),
                }
            }
            (CommandRefusal::BadCsv { line, column }, knowledge) => {
                return write_fault_of_csv(line, column, knowledge, f);
            }
            _ => return Ok(false),
        }
        Ok(true)
    }
}

/// Writes what is wrong with rows for a table. Answers whether that is known.
fn write_fault_of_rows<W: fmt::Write>(
    refusal: Refusal,
    schema: &Schema,
    f: &mut fmt::Formatter<W>,
) -> Result<bool, fmt::Error> {
    let columns = schema.column_list();
    match refusal {
        Refusal::WrongArity(_) => {
            let names = Names(schema);
            write!(
                f,
                "the row has the wrong number of cells: the columns are {names}"
            )?;
        }
        Refusal::OutOfType { column, .. } => {
            let Some(found) = columns.get(column) else {
                return Ok(false);
            };
            let name = found.name();
            let column_type = found.column_type();
            write!(f, "the number is outside the type {column_type} of {name}")?;
        }
        _ => return Ok(false),
    }
    Ok(true)
}

/// Writes what is wrong with a line of comma-separated values, or with one of its fields. Answers whether that is known.
fn write_fault_of_csv<W: fmt::Write>(
    line: u64,
    column: u64,
    knowledge: Knowledge<'_>,
    f: &mut fmt::Formatter<W>,
) -> Result<bool, fmt::Error> {
    let is_first = line == 1 && column <= 1;
    if let Some(said) = knowledge.beginning(is_first).and_then(of_no_csv) {
        f.write_str(said)?;
        return Ok(true);
    }
    match knowledge {
        Knowledge::Fields(fields) => write!(f, "{fields}")?,
        Knowledge::Field {
            is_heading: true,
            ..
        } => f.write_str(fault_of_heading_in(line))?,
        Knowledge::Field {
            column_type,
            text,
            ..
        } => write_fault_of_field(column_type, text, f)?,
        Knowledge::Heading { text, schema } => write_fault_of_heading(text, schema, f)?,
        _ => return Ok(false),
    }
    Ok(true)
}

impl<'a> Knowledge<'a> {
    /// What is known of a table that is to be made, of this name and these columns.
    pub fn of_table(table: &'a str, columns: &[(&'a str, ColType)]) -> Knowledge<'a> {
        match fault_of_table(table, columns) {
            Some(fault) => Knowledge::NoTable(fault),
            None => Knowledge::Nothing,
        }
    }

    /// What is known of the name that begins at a byte of a list of columns, which has this character between each two.
    pub fn of_name(list: &'a str, separator: char, at: u64, schema: &'a Schema) -> Knowledge<'a> {
        let rest = usize::try_from(at).ok().and_then(|at| list.get(at..));
        let name = rest.unwrap_or(list).split(separator).next().unwrap_or(list);
        Knowledge::Name { name, schema }
    }

    /// The first bytes of the input, if what is refused is there.
    fn beginning(&self, is_first: bool) -> Option<&'a [u8]> {
        match *self {
            Knowledge::Fields(fields) if is_first => Some(fields.line()),
            Knowledge::Field { text, .. } | Knowledge::Heading { text, .. } if is_first => Some(
                text,
            ),
            _ => None,
        }
    }
}
