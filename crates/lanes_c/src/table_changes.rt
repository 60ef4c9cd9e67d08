//! The calls that change the table of a handle: an import, deletes, an offer, a forget.
ghost use Rattle.std.specs.Prelude.{◌≡◌, Some, OnErr};
ghost use Rattle.replica_changes.specs.CommandForms.{Delete, DeleteRows};
ghost use Rattle.lanes_c.specs.Calls.{Yields, Asks};
ghost use Rattle.lanes_c.specs.Importing.{name_given};
ghost use Rattle.lanes_c.specs.Opened.{IsToldAs};
ghost use Rattle.lanes_c.specs.TableChanges.{ChangesOpen, ImportsText, changed_by, number_of_change, place_of_change, row_name, with_command, with_offer, without_dead};

use crate::changing::{loaded, name_given};
use crate::fault::{Fault, Place};
use crate::handle::Table;
use crate::shared::Shared;
use crate::taking::text_of;
use column_file::read_offer;
use replica_changes::Command;
use std::alloc::Global;
use std::boxed::Box;
use std::mem::replace;
use table_model::{BatchName, Counted, Number, Origin, RowName};

/// Deletes the rows of a share's store at which a condition in bytes is true.
fn delete_where(alloc: Global, shared: &mut Shared, condition: &[u8]) -> Result<(), Fault>
    ensures made { Asks (changed_by result shared.new.store.value.replica) condition.now (with_command (Delete condition.now) shared.old.store.value.replica) }
    ensures kept { OnErr result (shared.new.store.value ≡ shared.old.store.value) }
{
    let text = text_of(condition)?;
    shared.change(alloc, Command::Delete { condition: text })
}

/// Applies an offer in bytes to a share's store.
fn apply_offer(alloc: Global, shared: &mut Shared, offer: &[u8]) -> Result<(), Fault>
    ensures made { Yields (changed_by result shared.new.store.value.replica) (with_offer offer.now shared.old.store.value.replica) }
    ensures kept { OnErr result (shared.new.store.value ≡ shared.old.store.value) }
{
    let offer = read_offer(alloc, &mut Counted::new(offer))?;
    let offers = vec![in alloc; offer]?;
    shared.change(alloc, Command::Apply { offers })
}

/// Imports the rows of a text into a share's store.
fn import_text(
    alloc: Global,
    shared: &mut Shared,
    csv: &[u8],
    has_heading: bool,
    first: Option<BatchName>,
    words: &[u64],
) -> Result<(), Fault>
    ensures made { ImportsText (changed_by result shared.new.store.value.replica) csv.now has_heading first words.now shared.old.store.value.replica }
    ensures kept { OnErr result (shared.new.store.value ≡ shared.old.store.value) }
{
    let load = loaded(alloc, shared.store.schema(), csv, has_heading)?;
    let import = Command::Import {
        load,
        given: first,
        words,
    };
    shared.change(alloc, import)
}

/// Tells a caller of a fault.
pub(crate) fn tell(fault: Fault, place: &mut Place) -> u8
    ensures { IsToldAs fault result place.new }
{
    *place = fault.place();
    fault.number()
}

/// Gives a handle its share back, and tells a caller what came of a change.
pub(crate) fn put_change(
    alloc: Global,
    table: &mut Table,
    shared: Box<Shared>,
    changed: Result<(), Fault>,
    place: &mut Place,
) -> u8
    ensures number { result ≡ number_of_change (changed_by changed shared.value.store.value.replica) }
    ensures table { table.new.replica ≡ Some shared.value.store.value.replica }
    ensures place { place.new ≡ place_of_change (changed_by changed shared.value.store.value.replica) }
{
    drop(replace(table, Table::of_box(shared)).into_box(alloc));
    match changed {
        Ok(()) => {
            *place = Place::nowhere();
            0
        }
        Err(fault) => tell(fault, place),
    }
}

/// Imports rows of comma-separated values into the table of a handle, as `lanes_import` does into a file's.
///
/// Refused are `NotOpen` if the handle is closed; the text's first fault (`BadCsv`, `LineTooLong`, and `Full` if its rows are more than
/// 1,048,576 batches); `BadName`, `NumbersSpent`, `Conflict` with the least name that is held with other rows, and `Full`. The handle
/// then has what it had.
#[unsafe(no_mangle)]
pub extern "C" fn lanes_table_import(
    alloc: Global,
    table: &mut Table,
    csv: &[u8],
    has_heading: bool,
    origin: u32,
    number: u32,
    words: &[u64],
    place: &mut Place,
) -> u8
    ensures { ChangesOpen (λ r given. ImportsText given csv.now has_heading (name_given origin number) words.now r) result table.old table.new place.new }
{
    let Some(mut shared) = replace(table, Table::closed()).into_box(alloc) else {
        return tell(Fault::NotOpen, place);
    };
    let first = name_given(origin, number);
    let changed = import_text(alloc, &mut shared, csv, has_heading, first, words);
    put_change(alloc, table, shared, changed, place)
}

/// Deletes the rows of the table of a handle at which a condition is true.
///
/// Refused are, in this order, `NotOpen` if the handle is closed, `Syntax` at the first byte that is no UTF-8, and the condition's first
/// fault. The handle then has what it had.
#[unsafe(no_mangle)]
pub extern "C" fn lanes_table_delete(
    alloc: Global,
    table: &mut Table,
    condition: &[u8],
    place: &mut Place,
) -> u8
    ensures { ChangesOpen (λ r given. Asks given condition.now (with_command (Delete condition.now) r)) result table.old table.new place.new }
{
    let Some(mut shared) = replace(table, Table::closed()).into_box(alloc) else {
        return tell(Fault::NotOpen, place);
    };
    let changed = delete_where(alloc, &mut shared, condition);
    put_change(alloc, table, shared, changed, place)
}

/// The name of a row.
pub(crate) fn row_name(origin: u32, number: u32, ordinal: u16) -> RowName
    ensures { result ≡ row_name origin number ordinal }
{
    let batch = BatchName {
        origin: Origin(origin),
        number: Number(number),
    };
    RowName { batch, ordinal }
}

/// Deletes the rows of a batch of the table of a handle from the ordinal `first` to `last`, both included, held there or not.
///
/// Refused are, in this order, `NotOpen` if the handle is closed, `BadName` if the origin or the number is 0, and `BadRange` if `last` is
/// less than `first`. The handle then has what it had.
#[unsafe(no_mangle)]
pub extern "C" fn lanes_table_delete_rows(
    alloc: Global,
    table: &mut Table,
    origin: u32,
    number: u32,
    first: u16,
    last: u16,
    place: &mut Place,
) -> u8
    ensures { ChangesOpen (λ r given. Yields given (with_command (DeleteRows (row_name origin number first) last) r)) result table.old table.new place.new }
{
    let Some(mut shared) = replace(table, Table::closed()).into_box(alloc) else {
        return tell(Fault::NotOpen, place);
    };
    let first = row_name(origin, number, first);
    let changed = shared.change(alloc, Command::DeleteRows { first, last });
    put_change(alloc, table, shared, changed, place)
}

/// Applies an offer to the table of a handle.
///
/// Refused are, in this order, `NotOpen` if the handle is closed, the offer's first fault, `SchemaDiffers`, `Conflict` with the least
/// name that has two lists of rows, and `Full`. The handle then has what it had.
#[unsafe(no_mangle)]
pub extern "C" fn lanes_table_apply(
    alloc: Global,
    table: &mut Table,
    offer: &[u8],
    place: &mut Place,
) -> u8
    ensures { ChangesOpen (λ r given. Yields given (with_offer offer.now r)) result table.old table.new place.new }
{
    let Some(mut shared) = replace(table, Table::closed()).into_box(alloc) else {
        return tell(Fault::NotOpen, place);
    };
    let changed = apply_offer(alloc, &mut shared, offer);
    put_change(alloc, table, shared, changed, place)
}

/// Drops the batches of the table of a handle of which every row is deleted. Their deletions stay, and no answer changes.
///
/// Refused is `NotOpen` if the handle is closed.
#[unsafe(no_mangle)]
pub extern "C" fn lanes_table_forget(alloc: Global, table: &mut Table, place: &mut Place) -> u8
    ensures { ChangesOpen (λ r given. Yields given (without_dead r)) result table.old table.new place.new }
{
    let Some(mut shared) = replace(table, Table::closed()).into_box(alloc) else {
        return tell(Fault::NotOpen, place);
    };
    let changed = shared.forget(alloc);
    put_change(alloc, table, shared, changed, place)
}
