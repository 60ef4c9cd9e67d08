//! Loads of comma-separated values, and the names that they draw.

use command_line::{CsvForm, Source};
use csv_rows::{CsvError, CsvReader, Dialect, Order, WordError};
use program_failures::{Failure, unread};
use program_inputs::{Host, Progress, source_of};
use refusal_sentences::{CommandRefusal, Knowledge, RefusedLine, Wanted};
use replica_changes::{Load, read_csv};
use std::alloc::Global;
use std::fs::Files;
use std::io::Read;
use std::random::RandomSource;
use table_model::{Counted, Refusal, Schema};

/// What is said if no name can be drawn.
const NO_RANDOM: &str =
    "the system gives no random bytes to draw a batch's name with: give it, by --batch O.N";

/// How many random words an import may draw a name with.
pub const DRAWS: usize = 16;

/// The rows of comma-separated values, of one text after another, coded in batches of a table. `file` is what has the table.
pub fn load_of<'r, R: Host>(
    rt: &'r R,
    progress: &'r Progress<'r, R>,
    file: &str,
    csvs: &[Source<'_>],
    schema: &Schema,
    form: CsvForm<'_>,
) -> Result<Load, Failure> {
    let mut load = Load::new(rt.alloc(), schema)?;
    for csv in csvs {
        let mut reader = source_of(rt, progress, *csv);
        let dialect = dialect_of(rt.alloc(), file, schema, form)?;
        add_rows(rt, *csv, &mut reader, dialect, schema, form, &mut load)?;
    }
    Ok(load)
}

/// Random words, to draw names with.
pub fn random_words<R: RandomSource + AllocGlobal>(rt: &R) -> Result<[u64; DRAWS], Failure> {
    let mut words = [0u64; DRAWS];
    for word in words.iter_mut() {
        let mut bytes = [0u8; 8];
        if rt.fill_bytes(&mut bytes).is_err() {
            let refusal = CommandRefusal::from(Refusal::ReadFault);
            return Err(Failure::advised(rt.alloc(), refusal, "", NO_RANDOM));
        }
        *word = u64::from_le_bytes(bytes);
    }
    Ok(words)
}

/// Adds the rows of comma-separated values to a load, coded in batches.
fn add_rows<R: Files + AllocGlobal, D: Read>(
    rt: &R,
    source: Source<'_>,
    reader: &mut Counted<D>,
    dialect: Dialect,
    schema: &Schema,
    form: CsvForm<'_>,
    load: &mut Load,
) -> Result<(), Failure> {
    let mut csv = CsvReader::in_dialect(rt.alloc(), schema, form.has_header, dialect)?;
    match read_csv(rt.alloc(), &mut csv, reader, load) {
        Ok(()) => Ok(()),
        Err(CsvError::Refused(refusal)) => {
            Err(unread(rt, CommandRefusal::from(refusal), source, &[]))
        }
        Err(CsvError::LineTooLong { line }) => Err(fault_of_csv(
            rt.alloc(),
            source,
            CommandRefusal::from(Refusal::LineTooLong),
            Knowledge::Line(line),
        )),
        Err(CsvError::BadCsv { line, column }) => Err(fault_of_csv(
            rt.alloc(),
            source,
            CommandRefusal::BadCsv { line, column },
            known_of_field(&csv, schema, form, line == 1, column),
        )),
    }
}

/// The dialect in which texts are written.
fn dialect_of(
    alloc: Global,
    file: &str,
    schema: &Schema,
    form: CsvForm<'_>,
) -> Result<Dialect, Failure> {
    let null_word = match form.null_word {
        None => None,
        Some(word) => Some(String::from_str(alloc, word)?),
    };
    let mut dialect = Dialect::new(form.separator, null_word);
    if form.is_whole {
        dialect = dialect.with_ends();
    }
    let Some(words) = form.columns else {
        return Ok(dialect);
    };
    match Order::of_words(alloc, schema.column_list(), words.as_bytes()) {
        Ok(order) => Ok(dialect.with_order(order)),
        Err(WordError::NoNewColumn(word)) => Err(no_column(alloc, file, schema, words, word)),
        Err(WordError::Memory) => Err(Failure::from(Refusal::Memory)),
    }
}

/// The refusal of a word that names no column, by its place in a list, from 1.
fn no_column(alloc: Global, file: &str, schema: &Schema, words: &str, place: u64) -> Failure {
    let before = words.split(',').take(place.saturating_sub(1) as usize);
    let at = before.fold(
        0u64,
        |at, word| at.saturating_add(word.len() as u64).saturating_add(1),
    );
    Failure::of_name(alloc, file, words, at, schema)
}

/// A fault of comma-separated values.
fn fault_of_csv(
    alloc: Global,
    source: Source<'_>,
    refusal: CommandRefusal,
    knowledge: Knowledge<'_>,
) -> Failure {
    Failure::said_of(alloc, refusal, source.name(), knowledge)
}

/// What is known of a field that is refused, or of a line with the wrong number of them. A field of the header has no column.
fn known_of_field<'a>(
    csv: &'a CsvReader,
    schema: &'a Schema,
    form: CsvForm<'a>,
    is_first: bool,
    column: u64,
) -> Knowledge<'a> {
    let line = RefusedLine {
        line: csv.line(),
        is_cut: csv.is_cut(),
        separator: form.separator,
        wanted: Wanted::of(schema, form.columns),
        is_header: form.has_header && is_first,
        column: csv.column_of(column),
    };
    line.known(column, schema)
}
