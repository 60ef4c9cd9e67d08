//! The calls that make a file, and that make a file's successor: an empty table, an import, a delete, a forget.
ghost use Rattle.std.specs.Prelude.{◌≡◌, ◌++◌, codes, IfOk, IfErr};
ghost use Rattle.replica_changes.specs.CommandForms.{Delete};
ghost use Rattle.lanes_c.specs.Calls.{Yields, Asks, change_of, create_of, empty_file_of, forget_of, line_of};
ghost use Rattle.lanes_c.specs.Importing.{Loads, LoadsIn, LoadsText, IsWhyNotLoaded, IsWhyNotRead, IsWhyNotReadIn, ImportsLoad, Imports, name_given};
ghost use Rattle.lanes_c.specs.Rooms.{Tells, given_by};

use crate::fault::{Fault, Place};
use crate::file_changes::changed;
use crate::room::hand_out;
use crate::taking::{left, taken, text_of};
use csv_rows::{CsvReader, Dialect};
use replica_changes::{Load, create, file_schema, forget, read_csv};
use script_lines::{Command, TableCommand, parse_line};
use std::alloc::{AllocError, Global};
use table_model::{BatchName, Counted, Number, Origin, Refusal, Schema};

/// The line of a script that makes a table of these words.
fn line_of(alloc: Global, words: &[u8]) -> Result<Vec<u8>, AllocError>
    ensures { IfOk result (λ line. line.items ≡ line_of words.now) }
{
    let mut line = Vec::new(alloc);
    line.extend_from_slice(b"table 1 ")?;
    line.extend_from_slice(words)?;
    Ok(line)
}

/// The canonical file of the empty table of a line of a script.
fn made(alloc: Global, table: &TableCommand<'_>) -> Result<Vec<u8>, Fault>
    ensures { Yields (given_by result) (empty_file_of table.now) }
{
    let mut writer = Counted::new(Vec::new(alloc));
    let done = create(alloc, table.table(), table.columns(), &mut writer);
    taken(done, writer)
}

/// The canonical file of the empty table of these words.
fn created(alloc: Global, words: &[u8]) -> Result<Vec<u8>, Fault>
    ensures { Yields (given_by result) (create_of words.now) }
{
    let line = line_of(alloc, words)?;
    match parse_line(alloc, line.as_slice()) {
        Ok(Command::Table(table)) => made(alloc, &table),
        Err(Refusal::Memory) => Err(Fault::Refused(Refusal::Memory)),
        _ => Err(Fault::Refused(Refusal::BadSchema)),
    }
}

/// The file without the rows at which a condition in bytes is true.
fn deleted_where(alloc: Global, file: &[u8], condition: &[u8]) -> Result<Vec<u8>, Fault>
    ensures { Asks (given_by result) condition.now (change_of (Delete condition.now) file.now) }
{
    let text = text_of(condition)?;
    let delete = replica_changes::Command::Delete { condition: text };
    changed(alloc, file, delete)
}

/// The file without the batches of which every row is deleted.
fn forgotten(alloc: Global, file: &[u8]) -> Result<Vec<u8>, Fault>
    ensures { Yields (given_by result) (forget_of file.now) }
{
    let mut writer = Counted::new(Vec::new(alloc));
    let done = forget(alloc, &mut Counted::new(file), &mut writer)?;
    left(alloc, file, done.batches != 0, writer)
}

/// The rows of a text in a dialect as batches of a table.
pub(crate) fn loaded_in(
    alloc: Global,
    schema: &Schema,
    dialect: Dialect,
    csv: &[u8],
    has_heading: bool,
) -> Result<Load, Fault>
    ensures load { IfOk result (λ load. LoadsIn dialect schema.now csv.now has_heading load) }
    ensures fault { IfErr result (λ fault. IsWhyNotReadIn dialect schema.now csv.now has_heading fault) }
{
    let mut load = Load::new(alloc, schema)?;
    let mut rows = CsvReader::in_dialect(alloc, schema, has_heading, dialect)?;
    read_csv(alloc, &mut rows, &mut Counted::new(csv), &mut load)?;
    Ok(load)
}

/// The rows of a text in the usual dialect as batches of a table.
pub(crate) fn loaded(
    alloc: Global,
    schema: &Schema,
    csv: &[u8],
    has_heading: bool,
) -> Result<Load, Fault>
    ensures load { IfOk result (λ load. LoadsText schema.now csv.now has_heading load) }
    ensures fault { IfErr result (λ fault. IsWhyNotRead schema.now csv.now has_heading fault) }
{
    loaded_in(alloc, schema, Dialect::usual(), csv, has_heading)
}

/// The rows of a text in the usual dialect as batches of the table that a file holds.
fn loaded_for(alloc: Global, file: &[u8], csv: &[u8], has_heading: bool) -> Result<Load, Fault>
    ensures load { IfOk result (λ load. Loads file.now csv.now has_heading load) }
    ensures fault { IfErr result (λ fault. IsWhyNotLoaded file.now csv.now has_heading fault) }
{
    let schema = file_schema(alloc, &mut Counted::new(file))?;
    loaded(alloc, &schema, csv, has_heading)
}

/// The name of these numbers; none if both are 0.
pub(crate) fn name_given(origin: u32, number: u32) -> Option<BatchName>
    ensures { result ≡ name_given origin number }
{
    if origin == 0 && number == 0 {
        return None;
    }
    Some(BatchName {
        origin: Origin(origin),
        number: Number(number),
    })
}

/// The file with a load's batches.
pub(crate) fn imported(
    alloc: Global,
    file: &[u8],
    load: Load,
    first: Option<BatchName>,
    words: &[u64],
) -> Result<Vec<u8>, Fault>
    ensures { ImportsLoad (given_by result) load first words.now file.now }
{
    let import = replica_changes::Command::Import {
        load,
        given: first,
        words,
    };
    changed(alloc, file, import)
}

/// Makes the file of an empty table: its name and, column by column, the column's name and its type, all with one space between.
///
/// Refused is `BadSchema`.
#[unsafe(no_mangle)]
pub extern "C" fn lanes_create(
    alloc: Global,
    words: &[u8],
    room: &mut [u8],
    length: &mut usize,
    place: &mut Place,
) -> u8
    ensures { Tells (λ given. Yields given (create_of words.now)) result room.old room.new length.new place.new }
{
    hand_out(created(alloc, words), room, length, place)
}

/// Deletes the rows of a file at which a condition is true. It gives the canonical file without them, which is the file itself if
/// there is no such row.
///
/// Refused are, in this order, `Syntax` at the first byte that is no UTF-8, the file's first fault, and the condition's.
#[unsafe(no_mangle)]
pub extern "C" fn lanes_delete(
    alloc: Global,
    file: &[u8],
    condition: &[u8],
    room: &mut [u8],
    length: &mut usize,
    place: &mut Place,
) -> u8
    ensures { Tells (λ given. Asks given condition.now (change_of (Delete condition.now) file.now)) result room.old room.new length.new place.new }
{
    hand_out(deleted_where(alloc, file, condition), room, length, place)
}

/// Drops the batches of a file of which every row is deleted. Their deletions stay, and no answer changes. It gives the canonical file
/// without them, which is the file itself if there is no such batch.
///
/// Refused is the file's first fault.
#[unsafe(no_mangle)]
pub extern "C" fn lanes_forget(
    alloc: Global,
    file: &[u8],
    room: &mut [u8],
    length: &mut usize,
    place: &mut Place,
) -> u8
    ensures { Tells (λ given. Yields given (forget_of file.now)) result room.old room.new length.new place.new }
{
    hand_out(forgotten(alloc, file), room, length, place)
}

/// The file with the rows of a text under a name that is given or drawn.
fn imported_text(
    alloc: Global,
    file: &[u8],
    csv: &[u8],
    has_heading: bool,
    first: Option<BatchName>,
    words: &[u64],
) -> Result<Vec<u8>, Fault>
    ensures { Imports (given_by result) csv.now has_heading first words.now file.now }
{
    let load = loaded_for(alloc, file, csv, has_heading)?;
    imported(alloc, file, load, first, words)
}

/// Imports rows of comma-separated values as batches of 65,536 rows, the last one shorter, under consecutive names: the first is
/// `origin.number`; if both are 0, it is drawn of the words, which should be random. It gives the canonical file with them, which is
/// the file itself if nothing is new.
///
/// Refused are, in this order, the file's first fault, the text's (`BadCsv`, `LineTooLong`, and `Full` if its rows are more than
/// 1,048,576 batches), `BadName`, `NumbersSpent`, `Conflict` with the least name that is held with other rows, and `Full`.
#[unsafe(no_mangle)]
pub extern "C" fn lanes_import(
    alloc: Global,
    file: &[u8],
    csv: &[u8],
    has_heading: bool,
    origin: u32,
    number: u32,
    words: &[u64],
    room: &mut [u8],
    length: &mut usize,
    place: &mut Place,
) -> u8
    ensures { Tells (λ given. Imports given csv.now has_heading (name_given origin number) words.now file.now) result room.old room.new length.new place.new }
{
    let first = name_given(origin, number);
    let given = imported_text(alloc, file, csv, has_heading, first, words);
    hand_out(given, room, length, place)
}
