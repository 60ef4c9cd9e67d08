//! Queries over a file: those of the command line, and those of lines of standard input.

use crate::opening::opened;
use crate::typed::{Typed, WELCOME};
use command_line::Format;
use program_failures::Failure;
use program_inputs::{Cause, Host, Progress, Watched};
use refusal_sentences::{CommandRefusal, Knowledge, NOT_UTF8, Printable, Text};
use replica_reports::{Listener, answer_all, answer_lines};
use std::alloc::{AllocError, Global};
use std::fmt;
use std::io::{self, Write};
use std::str::{self, Utf8Error};
use table_model::{Counted, Refusal, Schema};

/// What is said of the first word of a query that was given as several.
const NO_QUOTES: &str = "this is the word SELECT alone: put the query into quotes";

/// What a person at a terminal is asked with.
const PROMPT: &str = "lanes> ";

/// Writes the answers of queries over a file, one after another, up to the first that is refused.
pub fn answer_texts<R: Host>(
    rt: &R,
    progress: &Progress<'_, R>,
    file: &str,
    queries: &[&str],
    format: Format,
) -> Result<(), Failure> {
    let held = opened(rt, progress, file)?;
    let mut writer = Counted::new(Watched::new(io::writer(rt)));
    let outcome = answer_all(rt.alloc(), &held, queries, format, &mut writer);
    let Err(stopped) = outcome else {
        return Ok(());
    };
    let place = place_among(stopped.answered, queries.len());
    let query = match queries.get(stopped.answered) {
        Some(query) => *query,
        None => "",
    };
    match writer.into_inner().ended(Err(stopped.refusal)) {
        Ok(()) => Ok(()),
        Err(cause) if cause.refusal == Refusal::Memory => Err(Failure::from(cause.refusal)),
        Err(cause) => Err(refused_query(rt, file, query, place, held.schema(), cause)),
    }
}

/// The place of a query among those of a command.
#[derive(Clone, Copy, PartialEq, Eq)]
enum Place {
    /// It is the only one.
    Alone,
    /// Its number among the words, from 1.
    Query(usize),
    /// Its line of standard input, from 1.
    Line(u64),
}

/// The place of a query of the command line, by its index.
fn place_among(index: usize, count: usize) -> Place {
    if count > 1 {
        Place::Query(index.saturating_add(1))
    } else {
        Place::Alone
    }
}

/// The place as the beginning of a sentence; nothing for a query alone.
impl fmt::Display for Place {
    fn fmt<W: fmt::Write>(&self, f: &mut fmt::Formatter<W>) -> fmt::Result {
        match self {
            Place::Alone => Ok(()),
            Place::Query(number) => write!(f, "query {number}"),
            Place::Line(number) => write!(f, "line {number}"),
        }
    }
}

/// Answers the queries that are lines of standard input, each as soon as it is read, and says whether all were answered. One that is
/// refused is reported, and passed over; empty lines are passed over too.
pub fn answer_typed<R: Host, N: Write>(
    rt: &R,
    progress: &Progress<'_, R>,
    file: &str,
    format: Format,
    is_typed: bool,
    is_shown: bool,
    notes: &mut N,
) -> Result<bool, Failure> {
    let held = opened(rt, progress, file)?;
    if is_typed {
        let _ = notes.write_all(WELCOME.as_bytes());
    }
    let mut reader = Counted::new(Typed::new(rt, rt.reader(), is_typed));
    let mut writer = Counted::new(Watched::new(io::writer(rt)));
    let mut person = Person {
        rt,
        file,
        schema: held.schema(),
        is_typed,
        is_shown,
        notes,
    };
    let outcome = answer_lines(
        rt.alloc(),
        &held,
        &mut reader,
        format,
        &mut writer,
        &mut person,
    );
    match outcome {
        Ok(is_whole) => Ok(is_whole),
        Err(refusal) => match writer.into_inner().ended(Err(refusal)) {
            Ok(()) => Ok(false),
            Err(cause) => Err(ended(rt, cause)),
        },
    }
}

/// Who types queries, or has them in a file: what is said to them goes to the notes.
#[derive(Drop)]
struct Person<'a, R, N> {
    rt: &'a R,
    file: &'a str,
    schema: &'a Schema,
    is_typed: bool,
    is_shown: bool,
    notes: &'a mut N,
}

impl<'a, R: Print + Eprint + AllocGlobal, N: Write> Listener for Person<'a, R, N> {
    fn wait(&mut self) {
        if self.is_typed {
            let _ = self.notes.write_all(PROMPT.as_bytes());
        }
    }

    fn refused(&mut self, number: u64, line: &[u8], refusal: Refusal) {
        let failure = refused_line(self.rt, self.file, number, line, self.schema, refusal);
        let _ = failure.report(self.rt, self.is_shown, self.notes);
    }
}

/// The refusal of a line.
fn refused_line<R: AllocGlobal>(
    rt: &R,
    file: &str,
    number: u64,
    line: &[u8],
    schema: &Schema,
    refusal: Refusal,
) -> Failure {
    let place = Place::Line(number);
    if refusal == Refusal::LineTooLong {
        return match subject_of(rt.alloc(), file, place) {
            Ok(subject) => Failure::said_of(
                rt.alloc(),
                CommandRefusal::from(refusal),
                subject.as_str(),
                Knowledge::Nothing,
            ),
            Err(_) => Failure::from(refusal),
        };
    }
    match str::from_utf8(line) {
        Ok(query) => refused_query(rt, file, query, place, schema, Cause::from(refusal)),
        Err(error) => not_utf8(rt.alloc(), file, place, &error),
    }
}

/// A file and a place in queries over it, as the beginning of a sentence.
fn subject_of(alloc: Global, file: &str, place: Place) -> Result<String, AllocError> {
    let file = Printable(file);
    format!(in alloc; "{file}: {place}")
}

/// What ends the answering of lines: a failed write, a failed read of standard input, or out of memory.
fn ended<R: AllocGlobal>(rt: &R, cause: Cause) -> Failure {
    match cause.refusal {
        Refusal::WriteFault => Failure::of_output(rt.alloc(), cause),
        refusal => Failure::of_standard_input(rt.alloc(), CommandRefusal::from(refusal), &[]),
    }
}

/// The refusal of a line that isn't UTF-8.
fn not_utf8(alloc: Global, file: &str, place: Place, error: &Utf8Error) -> Failure {
    let refusal = Refusal::Syntax(error.valid_up_to() as u64);
    match subject_of(alloc, file, place) {
        Ok(subject) => Failure::advised(
            alloc,
            CommandRefusal::from(refusal),
            subject.as_str(),
            NOT_UTF8,
        ),
        Err(_) => Failure::from(refusal),
    }
}

/// A refusal of a query, which is pointed at.
fn refused_query<R: AllocGlobal>(
    rt: &R,
    file: &str,
    query: &str,
    place: Place,
    schema: &Schema,
    cause: Cause,
) -> Failure {
    if cause.refusal == Refusal::WriteFault {
        return Failure::of_output(rt.alloc(), cause);
    }
    let refusal = cause.refusal;
    let text = Text {
        text: query,
        is_condition: false,
        schema: Some(schema),
    };
    if is_alone_of_several(query, place) {
        return match subject_of(rt.alloc(), file, place) {
            Ok(subject) => Failure::advised(
                rt.alloc(),
                CommandRefusal::from(refusal),
                subject.as_str(),
                NO_QUOTES,
            ),
            Err(_) => Failure::from(refusal),
        };
    }
    match place.to_string(rt.alloc()) {
        Ok(subject) => Failure::of_text(rt.alloc(), refusal, file, subject.as_str(), text),
        Err(_) => Failure::from(refusal),
    }
}

/// Whether a query is the first word of one, and more words come in the command line.
fn is_alone_of_several(query: &str, place: Place) -> bool {
    matches!(place, Place::Query(_)) && query.eq_ignore_ascii_case("SELECT")
}
