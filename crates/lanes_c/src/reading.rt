//! The calls that read a file: its check, an answer, and its rows.
ghost use Rattle.std.specs.Prelude.{◌≡◌, Ok};
ghost use Rattle.lanes_c.specs.Calls.{Yields, check_of, query_of, dump_of, Asks};
ghost use Rattle.lanes_c.specs.Rooms.{Tells, given_by};
ghost use Rattle.replica_reports.specs.Dumps.{dumping};

use crate::fault::{Fault, Place};
use crate::opening::opened_file;
use crate::room::hand_out;
use crate::taking::{taken, text_of};
use lanes_main::{check_file, query_file};
use replica_reports::{OpenFile, dump};
use std::alloc::Global;
use table_model::Counted;

/// The line of a file's check.
fn checked(alloc: Global, file: &[u8]) -> Result<Vec<u8>, Fault>
    ensures { Yields (given_by result) (check_of file.now) }
{
    let mut writer = Counted::new(Vec::new(alloc));
    let done = check_file(alloc, &mut Counted::new(file), &mut writer);
    taken(done, writer)
}

/// The text of a query's answer.
fn answered(alloc: Global, file: &[u8], sql: &str) -> Result<Vec<u8>, Fault>
    ensures { Yields (given_by result) (query_of sql.now file.now) }
{
    let mut writer = Counted::new(Vec::new(alloc));
    let done = query_file(alloc, &mut Counted::new(file), &[sql], &mut writer);
    taken(done, writer)
}

/// The text of the answer of a query in bytes.
fn asked(alloc: Global, file: &[u8], sql: &[u8]) -> Result<Vec<u8>, Fault>
    ensures { Asks (given_by result) sql.now (query_of sql.now file.now) }
{
    let text = text_of(sql)?;
    answered(alloc, file, text)
}

/// The live rows of what is open as comma-separated values.
fn rows_of(alloc: Global, file: &OpenFile, has_names: bool) -> Result<Vec<u8>, Fault>
    ensures { Yields (given_by result) (Ok (dumping has_names file.now.replica)) }
{
    let mut writer = Counted::new(Vec::new(alloc));
    let done = dump(alloc, file, has_names, &mut writer);
    taken(done, writer)
}

/// The live rows of a file as comma-separated values.
fn dumped(alloc: Global, file: &[u8], has_names: bool) -> Result<Vec<u8>, Fault>
    ensures { Yields (given_by result) (dump_of has_names file.now) }
{
    let open = opened_file(alloc, file)?;
    rows_of(alloc, &open, has_names)
}

/// Checks a file. It gives the line `ok batches=B ranges=R`: how many batches the file has, and how many maximal ranges of deleted
/// rows. Refused is the file's first fault.
#[unsafe(no_mangle)]
pub extern "C" fn lanes_check(
    alloc: Global,
    file: &[u8],
    room: &mut [u8],
    length: &mut usize,
    place: &mut Place,
) -> u8
    ensures { Tells (λ given. Yields given (check_of file.now)) result room.old room.new length.new place.new }
{
    hand_out(checked(alloc, file), room, length, place)
}

/// Answers a query over a file. It gives the answer's text: the headings, and then a line for each row.
///
/// Refused are, in this order, `Syntax` at the first byte that is no UTF-8, the file's first fault, and the query's.
#[unsafe(no_mangle)]
pub extern "C" fn lanes_query(
    alloc: Global,
    file: &[u8],
    sql: &[u8],
    room: &mut [u8],
    length: &mut usize,
    place: &mut Place,
) -> u8
    ensures { Tells (λ given. Asks given sql.now (query_of sql.now file.now)) result room.old room.new length.new place.new }
{
    hand_out(asked(alloc, file, sql), room, length, place)
}

/// Gives the live rows of a file as comma-separated values below a heading, in order of row name; with `has_names` the columns
/// `BATCH` and `ORDINAL` come first. Refused is the file's first fault.
#[unsafe(no_mangle)]
pub extern "C" fn lanes_dump(
    alloc: Global,
    file: &[u8],
    has_names: bool,
    room: &mut [u8],
    length: &mut usize,
    place: &mut Place,
) -> u8
    ensures { Tells (λ given. Yields given (dump_of has_names file.now)) result room.old room.new length.new place.new }
{
    hand_out(dumped(alloc, file, has_names), room, length, place)
}
