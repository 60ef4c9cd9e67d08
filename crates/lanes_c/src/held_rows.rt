//! The call that deletes rows of a batch of a handle's table only if the table has the batch.
ghost use Rattle.std.specs.Prelude.{◌≡◌, OnErr};
ghost use Rattle.lanes_c.specs.Calls.{Yields};
ghost use Rattle.lanes_c.specs.HeldRows.{CountsHeld, held_count, without_held_range, without_range_if};
ghost use Rattle.lanes_c.specs.TableChanges.{ChangesOpen, changed_by, row_name};

use crate::fault::{Fault, Place};
use crate::handle::Table;
use crate::shared::Shared;
use crate::table_changes::{put_change, row_name, tell};
use replica_changes::{Command, bring};
use std::alloc::Global;
use std::mem::replace;
use table_model::RowName;

/// Deletes a range of rows of a batch if the batch is held. What the range is refused as is refused in both cases.
fn delete_range_if(
    alloc: Global,
    shared: &mut Shared,
    first: RowName,
    last: u16,
    is_held: bool,
) -> Result<(), Fault>
    ensures made { Yields (changed_by result shared.new.store.value.replica) (without_range_if is_held first last shared.old.store.value.replica) }
    ensures kept { OnErr result (shared.new.store.value ≡ shared.old.store.value) }
{
    let command = Command::DeleteRows { first, last };
    if is_held {
        return shared.change(alloc, command);
    }
    drop(bring(alloc, &shared.store, command)?);
    Ok(())
}

/// Deletes a range of rows of a batch if the batch is held. It also answers how many batches of that name the store has.
fn delete_held_range(
    alloc: Global,
    shared: &mut Shared,
    first: RowName,
    last: u16,
) -> (Result<(), Fault>, usize)
    ensures made { Yields (changed_by result.0 shared.new.store.value.replica) (without_held_range first last shared.old.store.value.replica) }
    ensures kept { OnErr result.0 (shared.new.store.value ≡ shared.old.store.value) }
    ensures held { result.1 ≡ held_count shared.old.store.value.replica first.batch }
{
    let is_held = shared.store.holds(first.batch);
    let changed = delete_range_if(alloc, shared, first, last, is_held);
    (changed, usize::from(is_held))
}

/// Deletes the rows of a batch of the table of a handle from the ordinal `first` to `last`, both included, if the table has the batch; it
/// tells whether it has: 1 or 0.
///
/// Refused are, in this order, `NotOpen` if the handle is closed, `BadName` if the origin or the number is 0, and `BadRange` if `last` is
/// less than `first`. The handle then has what it had.
#[unsafe(no_mangle)]
pub extern "C" fn lanes_table_delete_held_rows(
    alloc: Global,
    table: &mut Table,
    origin: u32,
    number: u32,
    first: u16,
    last: u16,
    held: &mut usize,
    place: &mut Place,
) -> u8
    ensures changed { ChangesOpen (λ r given. Yields given (without_held_range (row_name origin number first) last r)) result table.old table.new place.new }
    ensures held { CountsHeld held.new table.old (row_name origin number first) }
{
    let Some(mut shared) = replace(table, Table::closed()).into_box(alloc) else {
        *held = 0;
        return tell(Fault::NotOpen, place);
    };
    let first = row_name(origin, number, first);
    let (changed, count) = delete_held_range(alloc, &mut shared, first, last);
    *held = count;
    put_change(alloc, table, shared, changed, place)
}
