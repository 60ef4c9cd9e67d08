//! The calls on a file that stays open that give its columns and its schema.
ghost use Rattle.std.specs.Prelude.{◌≡◌, ◌<◌, ◌≤◌, ◌*◌, ◌++◌, ◌&&◌, nat_le, length, IfErr, IfOk, OnOk, Ok};
ghost use Rattle.std.specs.List.{All};
ghost use Rattle.table_model.specs.Group.{state_row_limit};
ghost use Rattle.table_model.specs.Table.{type_text};
ghost use Rattle.live_columns.specs.Between.{rows_between};
ghost use Rattle.live_columns.specs.Chosen.{rows_where};
ghost use Rattle.live_columns.specs.Columns.{stride_of};
ghost use Rattle.lanes_c.specs.Calls.{Yields};
ghost use Rattle.lanes_c.specs.ColumnCalls.{ColumnRooms, ColumnsBetweenOpen, ColumnsOpen, IsPut, PutsColumns, ReadsChoice, SchemaOpen, column_words, columns_of, number_of_rows, place_of_rows, rows_told, schema_words};
ghost use Rattle.lanes_c.specs.Rooms.{given_by};

use crate::fault::{Fault, Place};
use crate::handle::Table;
use crate::room::hand_out;
use crate::taking::text_of;
use live_columns::{BatchRange, Choice, choose, rows_between, stride_of, write_columns};
use query_eval::Columns;
use replica_store::Store;
use std::alloc::{AllocError, Global};
use std::mem::replace;
use store_view::StoreView;
use table_model::{ColType, Column, Refusal, Schema};

/// What columns are asked for: their names with one space between, and a condition.
pub(crate) fn asked_for(
    alloc: Global,
    schema: &Schema,
    names: &[u8],
    condition: &[u8],
) -> Result<Choice, Fault>
    ensures read { ReadsChoice result names.now condition.now schema.now }
    ensures within { IfOk result (λ choice. All (λ place. place < length schema.now.columns) choice.places.items) }
{
    let names = match text_of(names) {
        Ok(names) => names,
        Err(fault) => return Err(fault.in_names()),
    };
    let condition = text_of(condition)?;
    Ok(choose(alloc, schema, names.as_bytes(), b' ', condition)?)
}

/// Whether a product is within a room.
fn is_within(count: usize, size: usize, room: usize) -> bool
    ensures { result ≡ nat_le (count * size) room }
{
    match count.checked_mul(size) {
        Some(whole) => whole <= room,
        None => false,
    }
}

/// Whether columns of a number of rows have room: for their numbers, their bits and their counts of nulls.
fn have_room(columns: usize, rows: usize, values: usize, valid: usize, nulls: usize) -> bool
    requires { rows ≤ state_row_limit }
    ensures { result ≡ (nat_le (columns * rows) values && (nat_le (columns * stride_of rows) valid && nat_le columns nulls)) }
{
    is_within(columns, rows, values)
        && is_within(columns, stride_of(rows), valid)
        && columns <= nulls
}

/// Writes columns of some batches into rooms, if there is room for all of them, and answers how many rows they have.
fn put_columns<C: Columns>(
    alloc: Global,
    view: &mut C,
    choice: &Choice,
    batches: BatchRange,
    values: &mut [i64],
    valid: &mut [u8],
    nulls: &mut [u64],
) -> Result<usize, AllocError>
    requires { All (λ place. place < length (C.seen view.old).table.columns) choice.now.places.items }
    ensures rows { IfOk result (λ rows. rows ≡ (columns_of (λ c. rows_between (C.seen view.old).table c (C.seen view.old).state batches.first batches.count) (record { condition = choice.now.condition; places = choice.now.places.items })).rows) }
    ensures put { IfOk result (λ _. IsPut (columns_of (λ c. rows_between (C.seen view.old).table c (C.seen view.old).state batches.first batches.count) (record { condition = choice.now.condition; places = choice.now.places.items })) values.old valid.old nulls.old values.new valid.new nulls.new) }
    ensures kept { IfErr result (λ _. (values.new ≡ values.old) × (valid.new ≡ valid.old) × (nulls.new ≡ nulls.old)) }
{
    let chosen = rows_between(alloc, view, &choice.condition, batches)?;
    let places = choice.places.as_slice();
    let columns = places.len();
    let numbers = values.len();
    let bytes = valid.len();
    let counts = nulls.len();
    let fit = have_room(columns, chosen.count, numbers, bytes, counts);
    if !fit {
        return Ok(chosen.count);
    }
    write_columns(view, &chosen, places, values, valid, nulls);
    Ok(chosen.count)
}

/// Writes the columns that are asked for of some batches into rooms, if there is room for all of them, and answers how many rows they
/// have.
fn put_asked<C: Columns>(
    alloc: Global,
    view: &mut C,
    names: &[u8],
    condition: &[u8],
    batches: BatchRange,
    values: &mut [i64],
    valid: &mut [u8],
    nulls: &mut [u64],
) -> Result<usize, Fault>
    ensures { PutsColumns result names.now condition.now (C.seen view.old).table (λ c. rows_between (C.seen view.old).table c (C.seen view.old).state batches.first batches.count) (record { values = values.old; valid = valid.old; nulls = nulls.old }) (record { values = values.new; valid = valid.new; nulls = nulls.new }) }
{
    let choice = match asked_for(alloc, view.schema(), names, condition) {
        Ok(choice) => choice,
        Err(fault) => return Err(fault),
    };
    match put_columns(alloc, view, &choice, batches, values, valid, nulls) {
        Ok(rows) => Ok(rows),
        Err(_) => Err(Fault::Refused(Refusal::Memory)),
    }
}

/// Writes the columns that are asked for of some batches of a store into rooms, as [`put_asked`] does it.
fn columns_between(
    alloc: Global,
    store: &Store,
    names: &[u8],
    condition: &[u8],
    batches: BatchRange,
    values: &mut [i64],
    valid: &mut [u8],
    nulls: &mut [u64],
) -> Result<usize, Fault>
    ensures { PutsColumns result names.now condition.now store.now.replica.schema (λ c. rows_between store.now.replica.schema c store.now.replica.state batches.first batches.count) (record { values = values.old; valid = valid.old; nulls = nulls.old }) (record { values = values.new; valid = valid.new; nulls = nulls.new }) }
{
    let mut view = StoreView::new(store);
    put_asked(
        alloc, &mut view, names, condition, batches, values, valid, nulls,
    )
}

/// Writes the columns that are asked for of all batches of a store into rooms, as [`put_asked`] does it.
fn columns_of_all(
    alloc: Global,
    store: &Store,
    names: &[u8],
    condition: &[u8],
    values: &mut [i64],
    valid: &mut [u8],
    nulls: &mut [u64],
) -> Result<usize, Fault>
    ensures { PutsColumns result names.now condition.now store.now.replica.schema (λ c. rows_where store.now.replica.schema c store.now.replica.state) (record { values = values.old; valid = valid.old; nulls = nulls.old }) (record { values = values.new; valid = valid.new; nulls = nulls.new }) }
{
    let all = BatchRange {
        first: 0,
        count: store.batches(),
    };
    columns_between(alloc, store, names, condition, all, values, valid, nulls)
}

/// Tells a caller how many rows columns have, with 0; or a fault's number and place, with no rows.
fn tell_rows(given: Result<usize, Fault>, rows: &mut usize, place: &mut Place) -> u8
    ensures number { result ≡ number_of_rows given }
    ensures rows { rows.new ≡ rows_told given }
    ensures place { place.new ≡ place_of_rows given }
{
    match given {
        Ok(count) => {
            *rows = count;
            *place = Place::nowhere();
            0
        }
        Err(fault) => {
            *rows = 0;
            *place = fault.place();
            fault.number()
        }
    }
}

/// Gives the cells of columns at the live rows at which a condition is true, in order of row name: the rows of `lanes_dump`.
///
/// The names have one space between each two, in the order that is wanted; of length 0 they are all, in the table's order. The
/// condition is what follows WHERE; of length 0 it is every live row. `rows` is how many rows there are. Column `c` has its numbers
/// from `values[c * rows]` on, 0 at a null; its bits from `valid[c * stride]` on, with a stride of 64 bytes for each 512 rows, the last
/// ones too: bit `i % 8` of byte `i / 8` is 1 if cell `i` is a value, and 0 if it is null and past the last row; and how many
/// nulls it has at `nulls[c]`. If one of the three rooms is too small, nothing is written but `rows`.
///
/// Refused are, in this order, `NotOpen`; `Syntax` at the first byte of the names, and then of the condition, that is no UTF-8; the
/// condition's `Syntax`, `NumberTooLarge` and `TooDeep`; `NoSuchColumn` at a byte of the names; `NoSuchColumn` at a byte of the
/// condition. The second number of the place is 1 if the byte is one of the names, and else 0.
#[unsafe(no_mangle)]
pub extern "C" fn lanes_columns(
    alloc: Global,
    table: &mut Table,
    names: &[u8],
    condition: &[u8],
    values: &mut [i64],
    valid: &mut [u8],
    nulls: &mut [u64],
    rows: &mut usize,
    place: &mut Place,
) -> u8
    ensures { ColumnsOpen result names.now condition.now table.old table.new (record { values = values.old; valid = valid.old; nulls = nulls.old }) (record { values = values.new; valid = valid.new; nulls = nulls.new }) rows.new place.new }
{
    let Some(shared) = replace(table, Table::closed()).into_box(alloc) else {
        return tell_rows(Err(Fault::NotOpen), rows, place);
    };
    let given = columns_of_all(alloc, &shared.store, names, condition, values, valid, nulls);
    drop(replace(table, Table::of_box(shared)).into_box(alloc));
    tell_rows(given, rows, place)
}

/// Gives the cells of columns at the live rows of some batches at which a condition is true: as `lanes_columns` does, of the batches
/// from `first` on, which counts from 0 in ascending order of name, and at most `count` of them. So the rows of a large table are read
/// in pieces.
///
/// Refused is what `lanes_columns` refuses. Places past the last batch have no rows.
#[unsafe(no_mangle)]
pub extern "C" fn lanes_columns_between(
    alloc: Global,
    table: &mut Table,
    first: usize,
    count: usize,
    names: &[u8],
    condition: &[u8],
    values: &mut [i64],
    valid: &mut [u8],
    nulls: &mut [u64],
    rows: &mut usize,
    place: &mut Place,
) -> u8
    ensures { ColumnsBetweenOpen result first count names.now condition.now table.old table.new (record { values = values.old; valid = valid.old; nulls = nulls.old }) (record { values = values.new; valid = valid.new; nulls = nulls.new }) rows.new place.new }
{
    let Some(shared) = replace(table, Table::closed()).into_box(alloc) else {
        return tell_rows(Err(Fault::NotOpen), rows, place);
    };
    let batches = BatchRange { first, count };
    let given = columns_between(
        alloc,
        &shared.store,
        names,
        condition,
        batches,
        values,
        valid,
        nulls,
    );
    drop(replace(table, Table::of_box(shared)).into_box(alloc));
    tell_rows(given, rows, place)
}

/// The name of a type.
fn type_word(column_type: ColType) -> &'static str
    ensures { result.now ≡ type_text column_type }
{
    match column_type {
        ColType::TinyInt => "TINYINT",
        ColType::SmallInt => "SMALLINT",
        ColType::Integer => "INTEGER",
        ColType::BigInt => "BIGINT",
    }
}

/// Adds a column's name and its type.
fn push_column(words: &mut Vec<u8>, column: &Column) -> Result<(), AllocError>
    ensures { OnOk result (words.new.items ≡ words.old.items ++ column_words column.now) }
{
    words.push(b' ')?;
    words.extend_from_slice(column.name().as_bytes())?;
    words.push(b' ')?;
    words.extend_from_slice(type_word(column.column_type()).as_bytes())?;
    Ok(())
}

/// The words of which a table is made: its name and, column by column, the column's name and its type.
fn schema_words(alloc: Global, schema: &Schema) -> Result<Vec<u8>, AllocError>
    ensures { IfOk result (λ words. words.items ≡ schema_words schema.now) }
{
    let mut words = Vec::new(alloc);
    words.extend_from_slice(schema.table().as_bytes())?;
    for column in schema.column_list() {
        push_column(&mut words, column)?;
    }
    Ok(words)
}

/// The words of which a table is made, or out of memory.
fn schema_given(alloc: Global, schema: &Schema) -> Result<Vec<u8>, Fault>
    ensures { Yields (given_by result) (Ok (schema_words schema.now)) }
{
    match schema_words(alloc, schema) {
        Ok(words) => Ok(words),
        Err(_) => Err(Fault::Refused(Refusal::Memory)),
    }
}

/// Gives the words of which `lanes_create` makes the table: its name and, column by column, the column's name and its type, all with
/// one space between.
///
/// Refused is `NotOpen` if the handle is closed.
#[unsafe(no_mangle)]
pub extern "C" fn lanes_schema(
    alloc: Global,
    table: &mut Table,
    room: &mut [u8],
    length: &mut usize,
    place: &mut Place,
) -> u8
    ensures { SchemaOpen result table.old table.new room.old room.new length.new place.new }
{
    let Some(shared) = replace(table, Table::closed()).into_box(alloc) else {
        return hand_out(Err(Fault::NotOpen), room, length, place);
    };
    let given = schema_given(alloc, shared.store.schema());
    drop(replace(table, Table::of_box(shared)).into_box(alloc));
    hand_out(given, room, length, place)
}
