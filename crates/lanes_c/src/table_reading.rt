//! The calls that read the table of a handle: its file, its report, its digest, and its batches.
ghost use Rattle.std.specs.Prelude.{◌≡◌, IfOk, Ok};
ghost use Rattle.replica_reports.specs.BatchDigests.{digest_list};
ghost use Rattle.replica_reports.specs.Digests.{held_digest};
ghost use Rattle.replica_reports.specs.Held.{held_in};
ghost use Rattle.replica_changes.specs.Commands.{as_held, file_of};
ghost use Rattle.lanes_c.specs.Calls.{Yields};
ghost use Rattle.lanes_c.specs.Rooms.{given_by};
ghost use Rattle.lanes_c.specs.TableReading.{CountsOpen, Inspects, IsReport, ReadsOpen, report_form};

use crate::fault::{Fault, Place};
use crate::handle::Table;
use crate::opening::opened_file;
use crate::room::hand_out;
use crate::taking::taken;
use answer_formats::ReportForm;
use column_file::export_bytes;
use replica_reports::{OpenFile, batch_digests, held_digest, inspect};
use replica_store::Store;
use std::alloc::Global;
use std::mem::replace;
use table_model::Counted;

/// The canonical file of a store.
fn file_of(alloc: Global, store: &Store) -> Result<Vec<u8>, Fault>
    ensures file { Yields (given_by result) (Ok (file_of store.now.replica)) }
    ensures opens { IfOk result (λ file. held_in file.items ≡ Ok (as_held store.now.replica)) }
{
    Ok(export_bytes(alloc, store)?)
}

/// The digest of what a store holds, as text.
fn digest_of(alloc: Global, store: &Store) -> Result<Vec<u8>, Fault>
    ensures { Yields (given_by result) (Ok (held_digest store.now.replica)) }
{
    let digest = held_digest(alloc, store)?;
    Ok(digest.into_bytes())
}

/// The batches of a store with their digests.
fn digests_of(alloc: Global, store: &Store, form: ReportForm) -> Result<Vec<u8>, Fault>
    ensures { Yields (given_by result) (Ok (digest_list form store.now.replica)) }
{
    let list = batch_digests(alloc, store, form)?;
    Ok(list)
}

/// The form of a report by its number.
pub(crate) fn report_form(format: u8) -> ReportForm
    ensures { result ≡ report_form format }
{
    if format == 2 {
        ReportForm::Json
    } else {
        ReportForm::Text
    }
}

/// The report of what is open.
fn reported(alloc: Global, file: &OpenFile, form: ReportForm) -> Result<Vec<u8>, Fault>
    ensures { IsReport (given_by result) form file.now }
{
    let mut writer = Counted::new(Vec::new(alloc));
    let done = inspect(alloc, file, form, &mut writer);
    taken(done, writer)
}

/// The report of a store's file.
fn inspected(alloc: Global, store: &Store, form: ReportForm) -> Result<Vec<u8>, Fault>
    ensures { Inspects (given_by result) form store.now.replica }
{
    let bytes = file_of(alloc, store)?;
    let open = opened_file(alloc, bytes.as_slice())?;
    open.store();
    reported(alloc, &open, form)
}

/// Gives the canonical file of the table that a handle has. Refused is `NotOpen` if the handle is closed.
#[unsafe(no_mangle)]
pub extern "C" fn lanes_file(
    alloc: Global,
    table: &mut Table,
    room: &mut [u8],
    length: &mut usize,
    place: &mut Place,
) -> u8
    ensures { ReadsOpen (λ r given. Yields given (Ok (file_of r))) result table.old table.new room.old room.new length.new place.new }
{
    let Some(shared) = replace(table, Table::closed()).into_box(alloc) else {
        return hand_out(Err(Fault::NotOpen), room, length, place);
    };
    let given = file_of(alloc, &shared.store);
    drop(replace(table, Table::of_box(shared)).into_box(alloc));
    hand_out(given, room, length, place)
}

/// Gives the digest of what the table holds that a handle has: the first 32 hexadecimal digits of the SHA-512 of its canonical file.
/// Refused is `NotOpen` if the handle is closed.
#[unsafe(no_mangle)]
pub extern "C" fn lanes_digest(
    alloc: Global,
    table: &mut Table,
    room: &mut [u8],
    length: &mut usize,
    place: &mut Place,
) -> u8
    ensures { ReadsOpen (λ r given. Yields given (Ok (held_digest r))) result table.old table.new room.old room.new length.new place.new }
{
    let Some(shared) = replace(table, Table::closed()).into_box(alloc) else {
        return hand_out(Err(Fault::NotOpen), room, length, place);
    };
    let given = digest_of(alloc, &shared.store);
    drop(replace(table, Table::of_box(shared)).into_box(alloc));
    hand_out(given, room, length, place)
}

/// Gives the batches of the table that a handle has, each with its rows, its live rows and its digest, as `lanes inspect --batches --digest`
/// writes them: in the format of a number, 2 for JSON and each other for a text. Refused is `NotOpen` if the handle is closed.
#[unsafe(no_mangle)]
pub extern "C" fn lanes_batch_digests(
    alloc: Global,
    table: &mut Table,
    format: u8,
    room: &mut [u8],
    length: &mut usize,
    place: &mut Place,
) -> u8
    ensures { ReadsOpen (λ r given. Yields given (Ok (digest_list (report_form format) r))) result table.old table.new room.old room.new length.new place.new }
{
    let Some(shared) = replace(table, Table::closed()).into_box(alloc) else {
        return hand_out(Err(Fault::NotOpen), room, length, place);
    };
    let given = digests_of(alloc, &shared.store, report_form(format));
    drop(replace(table, Table::of_box(shared)).into_box(alloc));
    hand_out(given, room, length, place)
}

/// Gives the report of the file of the table that a handle has, as `lanes inspect` writes it: in the format of a number, 2 for JSON and
/// each other for a text. Refused is `NotOpen` if the handle is closed.
#[unsafe(no_mangle)]
pub extern "C" fn lanes_inspect(
    alloc: Global,
    table: &mut Table,
    format: u8,
    room: &mut [u8],
    length: &mut usize,
    place: &mut Place,
) -> u8
    ensures { ReadsOpen (λ r given. Inspects given (report_form format) r) result table.old table.new room.old room.new length.new place.new }
{
    let Some(shared) = replace(table, Table::closed()).into_box(alloc) else {
        return hand_out(Err(Fault::NotOpen), room, length, place);
    };
    let given = inspected(alloc, &shared.store, report_form(format));
    drop(replace(table, Table::of_box(shared)).into_box(alloc));
    hand_out(given, room, length, place)
}

/// Answers how many batches the table of a handle has: none if the handle is closed.
#[unsafe(no_mangle)]
pub extern "C" fn lanes_batches(alloc: Global, table: &mut Table) -> usize
    ensures { CountsOpen result table.old table.new }
{
    let Some(shared) = replace(table, Table::closed()).into_box(alloc) else {
        return 0;
    };
    let count = shared.store.batches();
    drop(replace(table, Table::of_box(shared)).into_box(alloc));
    count
}
