//! The call that makes the part of a delete: the deletions alone of the rows that it finds.
ghost use Rattle.std.specs.Prelude.{◌≡◌};
ghost use Rattle.lanes_c.specs.Calls.{Asks, Yields};
ghost use Rattle.lanes_c.specs.DeletePart.{DeletesOpen, part_by, part_of_delete, rows_deleted};

use crate::fault::{Fault, Place};
use crate::handle::Table;
use crate::room::hand_out;
use crate::taking::text_of;
use folder_parts::part_of;
use replica_changes::{Answer, Command};
use replica_store::Store;
use std::alloc::Global;
use std::mem::replace;
use table_model::Counted;

/// How many rows a delete finds, and the bytes of its part.
struct DeletePart {
    rows: u64,
    bytes: Vec<u8>,
}

/// How many rows an answer says that were deleted.
fn rows_deleted(answer: &Answer) -> u64
    ensures { result ≡ rows_deleted answer.now }
{
    match answer {
        Answer::Deleted(done) => done.rows,
        _ => 0,
    }
}

/// The part of a delete in what a store has.
fn part_deleting(alloc: Global, store: &Store, condition: &str) -> Result<DeletePart, Fault>
    ensures { Yields (part_by result) (part_of_delete condition.now store.now.replica) }
{
    let mut writer = Counted::new(Vec::new(alloc));
    let answer = part_of(alloc, store, Command::Delete { condition }, &mut writer)?;
    Ok(DeletePart {
        rows: rows_deleted(&answer),
        bytes: writer.into_inner(),
    })
}

/// The part of a delete in what a store has, by a condition in bytes.
fn part_deleting_where(alloc: Global, store: &Store, condition: &[u8]) -> Result<DeletePart, Fault>
    ensures { Asks (part_by result) condition.now (part_of_delete condition.now store.now.replica) }
{
    let text = text_of(condition)?;
    part_deleting(alloc, store, text)
}

/// Makes the part of a delete in the table of a handle, which is what the parts of a folder hold together: the file of the deletions of the
/// rows at which a condition is true, and of nothing else. It tells how many rows these are; if there are none, no bytes are given.
///
/// Refused are, in this order, `NotOpen` if the handle is closed, `Syntax` at the first byte that is no UTF-8, and the condition's first
/// fault. The handle stays as it was.
#[unsafe(no_mangle)]
pub extern "C" fn lanes_table_delete_part(
    alloc: Global,
    table: &mut Table,
    condition: &[u8],
    rows: &mut u64,
    room: &mut [u8],
    length: &mut usize,
    place: &mut Place,
) -> u8
    ensures deletes { DeletesOpen condition.now table.old.replica result rows.new room.old room.new length.new place.new }
    ensures table { table.new.replica ≡ table.old.replica }
{
    *rows = 0;
    let Some(shared) = replace(table, Table::closed()).into_box(alloc) else {
        return hand_out(Err(Fault::NotOpen), room, length, place);
    };
    let made = part_deleting_where(alloc, &shared.store, condition);
    drop(replace(table, Table::of_box(shared)).into_box(alloc));
    match made {
        Ok(DeletePart { rows: found, bytes }) => {
            *rows = found;
            hand_out(Ok(bytes), room, length, place)
        }
        Err(fault) => hand_out(Err(fault), room, length, place),
    }
}
