//! The calls that import comma-separated values in a dialect.
ghost use Rattle.std.specs.Prelude.{◌≡◌, OnErr};
ghost use Rattle.lanes_c.specs.Dialects.{ImportsRows, ImportsRowsInto, ReadsRows};
ghost use Rattle.lanes_c.specs.Importing.{name_given};
ghost use Rattle.lanes_c.specs.Rooms.{Tells, given_by};
ghost use Rattle.lanes_c.specs.TableChanges.{ChangesOpen, changed_by};

use crate::changing::{imported, loaded_in, name_given};
use crate::dialects::dialect_of;
use crate::fault::{Fault, Place};
use crate::handle::Table;
use crate::room::hand_out;
use crate::shared::Shared;
use crate::table_changes::{put_change, tell};
use replica_changes::{Command, Load, file_schema};
use std::alloc::Global;
use std::mem::replace;
use table_model::{BatchName, Counted, Schema};

/// The rows of a text in a dialect as batches of a table.
fn rows_loaded(
    alloc: Global,
    schema: &Schema,
    csv: &[u8],
    has_heading: bool,
    separator: u8,
    null_word: &[u8],
    columns: &[u8],
    needs_ends: bool,
) -> Result<Load, Fault>
    ensures { ReadsRows result schema.now (record { separator = separator; null_word = null_word.now; columns = columns.now; needs_ends = needs_ends }) csv.now has_heading }
{
    let dialect = dialect_of(
        alloc,
        schema.column_list(),
        separator,
        null_word,
        columns,
        needs_ends,
    )?;
    loaded_in(alloc, schema, dialect, csv, has_heading)
}

/// The file with the rows of a text in a dialect, under a name that is given or drawn.
fn imported_rows(
    alloc: Global,
    file: &[u8],
    csv: &[u8],
    has_heading: bool,
    separator: u8,
    null_word: &[u8],
    columns: &[u8],
    needs_ends: bool,
    first: Option<BatchName>,
    words: &[u64],
) -> Result<Vec<u8>, Fault>
    ensures { ImportsRows (given_by result) (record { separator = separator; null_word = null_word.now; columns = columns.now; needs_ends = needs_ends }) csv.now has_heading first words.now file.now }
{
    let schema = file_schema(alloc, &mut Counted::new(file))?;
    let load = rows_loaded(
        alloc,
        &schema,
        csv,
        has_heading,
        separator,
        null_word,
        columns,
        needs_ends,
    )?;
    imported(alloc, file, load, first, words)
}

/// Imports the rows of a text in a dialect into a share's store.
fn import_rows(
    alloc: Global,
    shared: &mut Shared,
    csv: &[u8],
    has_heading: bool,
    separator: u8,
    null_word: &[u8],
    columns: &[u8],
    needs_ends: bool,
    first: Option<BatchName>,
    words: &[u64],
) -> Result<(), Fault>
    ensures made { ImportsRowsInto (changed_by result shared.new.store.value.replica) (record { separator = separator; null_word = null_word.now; columns = columns.now; needs_ends = needs_ends }) csv.now has_heading first words.now shared.old.store.value.replica }
    ensures kept { OnErr result (shared.new.store.value ≡ shared.old.store.value) }
{
    let load = rows_loaded(
        alloc,
        shared.store.schema(),
        csv,
        has_heading,
        separator,
        null_word,
        columns,
        needs_ends,
    )?;
    let import = Command::Import {
        load,
        given: first,
        words,
    };
    shared.change(alloc, import)
}

/// Imports rows of comma-separated values in a dialect, as `lanes_import` does in the usual one. The separator is the byte between two
/// fields, or 0 for a comma. The null's word, if it is not empty, is a null besides the usual ones. The columns, if they are not empty,
/// are words that say what the fields are, with a comma between each two: a column's name, or `-` for a field that is passed over. With
/// `needs_ends` a last line without an end is refused.
///
/// Refused are, in this order, the file's first fault, those of the dialect (`BadCsv` of line 0: of field 1 if the separator can't be
/// one, of field 2 if the null's word is not UTF-8; `NoSuchColumn` of the first word that names no new column), the text's, and what
/// `lanes_import` refuses after it.
#[unsafe(no_mangle)]
pub extern "C" fn lanes_import_in(
    alloc: Global,
    file: &[u8],
    csv: &[u8],
    has_heading: bool,
    separator: u8,
    null_word: &[u8],
    columns: &[u8],
    needs_ends: bool,
    origin: u32,
    number: u32,
    words: &[u64],
    room: &mut [u8],
    length: &mut usize,
    place: &mut Place,
) -> u8
    ensures { Tells (λ given. ImportsRows given (record { separator = separator; null_word = null_word.now; columns = columns.now; needs_ends = needs_ends }) csv.now has_heading (name_given origin number) words.now file.now) result room.old room.new length.new place.new }
{
    let first = name_given(origin, number);
    let given = imported_rows(
        alloc,
        file,
        csv,
        has_heading,
        separator,
        null_word,
        columns,
        needs_ends,
        first,
        words,
    );
    hand_out(given, room, length, place)
}

/// Imports rows of comma-separated values in a dialect into the table of a handle, as `lanes_import_in` does into a file's.
///
/// Refused are `NotOpen` if the handle is closed, and then what `lanes_import_in` refuses after the file. The handle then has what it
/// had.
#[unsafe(no_mangle)]
pub extern "C" fn lanes_table_import_in(
    alloc: Global,
    table: &mut Table,
    csv: &[u8],
    has_heading: bool,
    separator: u8,
    null_word: &[u8],
    columns: &[u8],
    needs_ends: bool,
    origin: u32,
    number: u32,
    words: &[u64],
    place: &mut Place,
) -> u8
    ensures { ChangesOpen (λ r given. ImportsRowsInto given (record { separator = separator; null_word = null_word.now; columns = columns.now; needs_ends = needs_ends }) csv.now has_heading (name_given origin number) words.now r) result table.old table.new place.new }
{
    let Some(mut shared) = replace(table, Table::closed()).into_box(alloc) else {
        return tell(Fault::NotOpen, place);
    };
    let first = name_given(origin, number);
    let changed = import_rows(
        alloc,
        &mut shared,
        csv,
        has_heading,
        separator,
        null_word,
        columns,
        needs_ends,
        first,
        words,
    );
    put_change(alloc, table, shared, changed, place)
}
