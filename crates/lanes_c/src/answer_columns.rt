//! The calls that answer a query by columns: an answer is kept, and its columns are given.
ghost use Rattle.std.specs.Prelude.{◌≡◌, None, map};
ghost use Rattle.store_view.specs.Asked.{query_answer};
ghost use Rattle.lanes_c.specs.AnswerCells.{wide_number};
ghost use Rattle.lanes_c.specs.AnswerColumns.{AsksKept, CountsColumns, CountsRows, FinishesPartial, FinishesTo, GivesHeading, GivesNumbers, GivesWide, Keeps, TellsKind, answer_by, heading_in};
ghost use Rattle.lanes_c.specs.Calls.{Asks, Yields};
ghost use Rattle.lanes_c.specs.Rooms.{IsFilled};

use crate::answer_cells::{Wide, kind_of, put_numbers, put_wides};
use crate::answer_handle::KeptAnswer;
use crate::fault::{Fault, Place};
use crate::handle::Table;
use crate::room::fill;
use crate::shared::Shared;
use crate::table_changes::tell;
use crate::taking::text_of;
use partial_answers::PartialAnswer;
use partial_file::read_partial_answer;
use query_eval::HashKey;
use replica_store::Store;
use std::alloc::Global;
use std::boxed::Box;
use std::mem::replace;
use store_view::ask;
use table_model::{Answer, Counted};

/// The answer of a query over a store.
fn answer_over(
    alloc: Global,
    store: &Store,
    hash_key: HashKey,
    sql: &str,
) -> Result<Box<Answer>, Fault>
    ensures { Yields (answer_by result) (query_answer sql.now store.now.replica.schema store.now.replica.state) }
{
    let answer = ask(alloc, store, hash_key, sql)?;
    Ok(Box::new(alloc, answer)?)
}

/// The answer of a query in bytes over a store.
fn answer_asked(
    alloc: Global,
    store: &Store,
    hash_key: HashKey,
    sql: &[u8],
) -> Result<Box<Answer>, Fault>
    ensures { Asks (answer_by result) sql.now (query_answer sql.now store.now.replica.schema store.now.replica.state) }
{
    let sql = text_of(sql)?;
    answer_over(alloc, store, hash_key, sql)
}

/// The answer of a query in bytes over what is open.
fn answer_of_open(alloc: Global, shared: &Shared, sql: &[u8]) -> Result<Box<Answer>, Fault>
    ensures { Asks (answer_by result) sql.now (query_answer sql.now shared.now.store.value.replica.schema shared.now.store.value.replica.state) }
{
    answer_asked(alloc, &shared.store, shared.hash_key, sql)
}

/// The answer to which a partial answer is finished.
fn answer_of_partial(alloc: Global, partial: PartialAnswer) -> Result<Box<Answer>, Fault>
    ensures { FinishesPartial (answer_by result) partial }
{
    let answer = partial.finish(alloc)?;
    Ok(Box::new(alloc, answer)?)
}

/// The answer to which a partial answer in bytes is finished.
fn finished_answer(alloc: Global, partial: &[u8]) -> Result<Box<Answer>, Fault>
    ensures { FinishesTo (answer_by result) partial.now }
{
    let partial = read_partial_answer(alloc, &mut Counted::new(partial))?;
    answer_of_partial(alloc, partial)
}

/// Puts an answer into a handle, or leaves what it had, if the call was refused. It tells a caller which.
fn keep(
    alloc: Global,
    answer: &mut KeptAnswer,
    given: Result<Box<Answer>, Fault>,
    place: &mut Place,
) -> u8
    ensures { Keeps (λ kept. kept ≡ answer_by given) result answer.old answer.new place.new }
{
    match given {
        Ok(kept) => {
            drop(replace(answer, KeptAnswer::of_box(kept)).into_box(alloc));
            *place = Place::nowhere();
            0
        }
        Err(fault) => tell(fault, place),
    }
}

/// Answers a query over the file that a handle is of, and keeps the answer: its columns are given by the calls below. What the answer's
/// handle had before is closed if 0 is answered, and else it is as it was.
///
/// Refused are `NotOpen` if the table's handle is closed, and what `lanes_ask` refuses of the query.
#[unsafe(no_mangle)]
pub extern "C" fn lanes_answer_ask(
    alloc: Global,
    table: &mut Table,
    sql: &[u8],
    answer: &mut KeptAnswer,
    place: &mut Place,
) -> u8
    ensures { AsksKept result sql.now table.old table.new answer.old answer.new place.new }
{
    let Some(shared) = replace(table, Table::closed()).into_box(alloc) else {
        return keep(alloc, answer, Err(Fault::NotOpen), place);
    };
    let given = answer_of_open(alloc, &shared, sql);
    drop(replace(table, Table::of_box(shared)).into_box(alloc));
    keep(alloc, answer, given, place)
}

/// Answers the query that a partial answer is of, as `lanes_finish` does, and keeps the answer.
///
/// Refused is what `lanes_finish` refuses.
#[unsafe(no_mangle)]
pub extern "C" fn lanes_answer_finish(
    alloc: Global,
    partial: &[u8],
    answer: &mut KeptAnswer,
    place: &mut Place,
) -> u8
    ensures { Keeps (λ given. FinishesTo given partial.now) result answer.old answer.new place.new }
{
    keep(alloc, answer, finished_answer(alloc, partial), place)
}

/// Answers how many columns the answer of a handle has: none if the handle is closed.
#[unsafe(no_mangle)]
pub extern "C" fn lanes_answer_columns(alloc: Global, answer: &mut KeptAnswer) -> usize
    ensures { CountsColumns result answer.old answer.new }
{
    let Some(kept) = replace(answer, KeptAnswer::closed()).into_box(alloc) else {
        return 0;
    };
    let count = kept.heading().len();
    drop(replace(answer, KeptAnswer::of_box(kept)).into_box(alloc));
    count
}

/// Answers how many rows the answer of a handle has: none if the handle is closed.
#[unsafe(no_mangle)]
pub extern "C" fn lanes_answer_rows(alloc: Global, answer: &mut KeptAnswer) -> usize
    ensures { CountsRows result answer.old answer.new }
{
    let Some(kept) = replace(answer, KeptAnswer::closed()).into_box(alloc) else {
        return 0;
    };
    let count = kept.rows().len();
    drop(replace(answer, KeptAnswer::of_box(kept)).into_box(alloc));
    count
}

/// Gives the heading of a column; a column that isn't there has none.
fn give_heading(answer: &Answer, column: usize, room: &mut [u8]) -> usize
    ensures { IsFilled (λ text. text ≡ heading_in column answer.now) result room.old room.new }
{
    match answer.heading().get(column) {
        Some(text) => {
            let bytes = text.as_bytes();
            fill(bytes, room);
            bytes.len()
        }
        None => {
            fill(b"", room);
            0
        }
    }
}

/// Gives the heading of a column of the answer of a handle, and answers how many bytes it has: none if the handle is closed, or if there
/// is no such column.
#[unsafe(no_mangle)]
pub extern "C" fn lanes_answer_heading(
    alloc: Global,
    answer: &mut KeptAnswer,
    column: usize,
    room: &mut [u8],
) -> usize
    ensures { GivesHeading result column answer.old answer.new room.old room.new }
{
    let Some(kept) = replace(answer, KeptAnswer::closed()).into_box(alloc) else {
        fill(b"", room);
        return 0;
    };
    let length = give_heading(&kept, column, room);
    drop(replace(answer, KeptAnswer::of_box(kept)).into_box(alloc));
    length
}

/// Answers the kind of a column of the answer of a handle: 1 if it has whole numbers, 2 if it has means, and 0 if it has no value, if there
/// is no such column, or if the handle is closed.
#[unsafe(no_mangle)]
pub extern "C" fn lanes_answer_kind(alloc: Global, answer: &mut KeptAnswer, column: usize) -> u8
    ensures { TellsKind result column answer.old answer.new }
{
    let Some(kept) = replace(answer, KeptAnswer::closed()).into_box(alloc) else {
        return 0;
    };
    let kind = kind_of(kept.rows(), column);
    drop(replace(answer, KeptAnswer::of_box(kept)).into_box(alloc));
    kind
}

/// Gives the numbers of a column of the answer of a handle, 0 at a null, and of a mean its millionths; and for each row a mark: 1 at a
/// value, and 0 at a null. They are written if both arrays have room and if no number has more than 64 bits. It answers whether they
/// are.
#[unsafe(no_mangle)]
pub extern "C" fn lanes_answer_numbers(
    alloc: Global,
    answer: &mut KeptAnswer,
    column: usize,
    numbers: &mut [i64],
    marks: &mut [u8],
) -> bool
    ensures { GivesNumbers result column answer.old answer.new numbers.old numbers.new marks.old marks.new }
{
    let Some(kept) = replace(answer, KeptAnswer::closed()).into_box(alloc) else {
        return false;
    };
    let written = put_numbers(kept.rows(), column, numbers, marks);
    drop(replace(answer, KeptAnswer::of_box(kept)).into_box(alloc));
    written
}

/// Gives the numbers of a column of the answer of a handle in two words each, in which each number has room, 0 at a null, and of a
/// mean its millionths; and for each row a mark: 1 at a value, and 0 at a null. They are written if both arrays have room. It answers
/// whether they are.
#[unsafe(no_mangle)]
pub extern "C" fn lanes_answer_wide(
    alloc: Global,
    answer: &mut KeptAnswer,
    column: usize,
    numbers: &mut [Wide],
    marks: &mut [u8],
) -> bool
    ensures { GivesWide result column answer.old answer.new (map wide_number numbers.old) (map wide_number numbers.new) marks.old marks.new }
{
    let Some(kept) = replace(answer, KeptAnswer::closed()).into_box(alloc) else {
        return false;
    };
    let written = put_wides(kept.rows(), column, numbers, marks);
    drop(replace(answer, KeptAnswer::of_box(kept)).into_box(alloc));
    written
}

/// Closes a handle of an answer. A closed one may be closed again.
#[unsafe(no_mangle)]
pub extern "C" fn lanes_answer_close(alloc: Global, answer: &mut KeptAnswer)
    ensures { answer.new.answer ≡ None }
{
    drop(replace(answer, KeptAnswer::closed()).into_box(alloc));
}
