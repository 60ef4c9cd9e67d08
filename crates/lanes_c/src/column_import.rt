//! The call that imports columns into the table of a handle.
ghost use Rattle.std.specs.Prelude.{◌≡◌, OnErr};
ghost use Rattle.lanes_c.specs.Calls.{Yields};
ghost use Rattle.lanes_c.specs.Importing.{name_given};
ghost use Rattle.lanes_c.specs.InputColumns.{input_of, load_of_columns, with_columns};
ghost use Rattle.lanes_c.specs.TableChanges.{ChangesOpen, changed_by};

use crate::changing::name_given;
use crate::fault::{Fault, Place};
use crate::handle::Table;
use crate::input_columns::InputColumns;
use crate::shared::Shared;
use crate::table_changes::{put_change, tell};
use replica_changes::{Command, Load};
use std::alloc::Global;
use std::mem::replace;
use table_model::{BatchName, Schema};

/// The rows of columns as batches of a table.
fn columns_loaded(
    alloc: Global,
    schema: &Schema,
    rows: usize,
    values: &[i64],
    valid: &[u8],
) -> Result<Load, Fault>
    ensures { Yields result (load_of_columns schema.now (input_of schema.now rows values.now valid.now)) }
{
    let input = InputColumns::new(rows, schema.column_list().len(), values, valid)?;
    let load = input.load(alloc, schema)?;
    Ok(load)
}

/// Imports the rows of columns into a share's store.
fn import_columns(
    alloc: Global,
    shared: &mut Shared,
    rows: usize,
    values: &[i64],
    valid: &[u8],
    first: Option<BatchName>,
    words: &[u64],
) -> Result<(), Fault>
    ensures made { Yields (changed_by result shared.new.store.value.replica) (with_columns rows values.now valid.now first words.now shared.old.store.value.replica) }
    ensures kept { OnErr result (shared.new.store.value ≡ shared.old.store.value) }
{
    let load = columns_loaded(alloc, shared.store.schema(), rows, values, valid)?;
    let import = Command::Import {
        load,
        given: first,
        words,
    };
    shared.change(alloc, import)
}

/// Imports rows of columns into the table of a handle, as batches of 65,536 rows, the last one shorter, under names as of
/// `lanes_import`. It is the mirror of `lanes_columns`: column `c` of the table, from 0, has its numbers from `values[c * rows]` on, and
/// its bits from `valid[c * stride]` on, with a stride of 64 bytes for each 512 rows, the last ones too: bit `i % 8` of byte `i / 8` is 1
/// if cell `i` is a value, and 0 if it is null. A null's number and the bits past the last row don't matter. Without bits each cell
/// is a value.
///
/// Refused are, in this order, `NotOpen` if the handle is closed; `Full` if there are more rows than 1,048,576 batches may have;
/// `WrongArity` if there are not as many numbers, or bits, as the cells take; `OutOfType` with the first row that has such a cell, and
/// from the left the first such column; `BadName`, `NumbersSpent`, `Conflict` with the least name that is held with other rows, and
/// `Full`. The handle then has what it had.
#[unsafe(no_mangle)]
pub extern "C" fn lanes_table_import_columns(
    alloc: Global,
    table: &mut Table,
    rows: usize,
    values: &[i64],
    valid: &[u8],
    origin: u32,
    number: u32,
    words: &[u64],
    place: &mut Place,
) -> u8
    ensures { ChangesOpen (λ r given. Yields given (with_columns rows values.now valid.now (name_given origin number) words.now r)) result table.old table.new place.new }
{
    let Some(mut shared) = replace(table, Table::closed()).into_box(alloc) else {
        return tell(Fault::NotOpen, place);
    };
    let first = name_given(origin, number);
    let changed = import_columns(alloc, &mut shared, rows, values, valid, first, words);
    put_change(alloc, table, shared, changed, place)
}
