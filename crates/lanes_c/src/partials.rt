//! The calls on partial answers: what a file gives to it, two partial answers combined, and the answer that a partial answer is
//! finished to.
ghost use Rattle.std.specs.Prelude.{◌≡◌, Some, None, IfErr, IfOk};
ghost use Rattle.partial_answers.specs.declared.partial_answer.PartialAnswer.{PartialAnswer as CodePartialAnswer};
ghost use Rattle.partial_commands.specs.PartialAnswerTurns.{CombinesNext};
ghost use Rattle.partial_commands.specs.StorePartialAnswer.{query_partial_answer};
ghost use Rattle.partial_file.specs.PartialAnswerBytes.{partial_answer_bytes};
ghost use Rattle.lanes_c.specs.PartialAnswers.{AsksPartialAnswer, Combines, Finishes, GivesPartialAnswer, IsSpelled, IsWhyNotCombined, PartialAnswersOpen, format_numbered};
ghost use Rattle.lanes_c.specs.Rooms.{Tells, given_by};

use crate::fault::{Fault, Place};
use crate::handle::Table;
use crate::room::hand_out;
use crate::shared::Shared;
use crate::taking::{taken, text_of};
use answer_formats::Format;
use partial_answers::PartialAnswer;
use partial_commands::{combine_next, partial_answer_of_store, write_finished_answer};
use partial_file::write_partial_answer;
use query_eval::HashKey;
use replica_store::Store;
use std::alloc::Global;
use std::mem::replace;
use table_model::Counted;

/// A partial answer in bytes.
fn bytes_of(alloc: Global, partial: &PartialAnswer) -> Result<Vec<u8>, Fault>
    ensures { IsSpelled (given_by result) (partial_answer_bytes partial.now) }
{
    let mut writer = Counted::new(Vec::new(alloc));
    let done = write_partial_answer(alloc, partial, &mut writer);
    taken(done, writer)
}

/// What a store gives to the answer of a query, in bytes.
fn partial_answer_over(
    alloc: Global,
    store: &Store,
    hash_key: HashKey,
    sql: &str,
) -> Result<Vec<u8>, Fault>
    ensures { GivesPartialAnswer (given_by result) (query_partial_answer sql.now store.now.replica.schema store.now.replica.state) }
{
    let partial = partial_answer_of_store(alloc, store, hash_key, sql)?;
    bytes_of(alloc, &partial)
}

/// What a store gives to the answer of a query in bytes, in bytes.
fn partial_answer_asked(
    alloc: Global,
    store: &Store,
    hash_key: HashKey,
    sql: &[u8],
) -> Result<Vec<u8>, Fault>
    ensures { AsksPartialAnswer (given_by result) sql.now store.now.replica }
{
    let sql = text_of(sql)?;
    partial_answer_over(alloc, store, hash_key, sql)
}

/// What a store that is open gives to the answer of a query in bytes, in bytes.
fn partial_answer_of_open(alloc: Global, shared: &Shared, sql: &[u8]) -> Result<Vec<u8>, Fault>
    ensures { AsksPartialAnswer (given_by result) sql.now shared.now.store.value.replica }
{
    partial_answer_asked(alloc, &shared.store, shared.hash_key, sql)
}

/// The partial answer that two partial answers in bytes make.
fn both_partial_answers(alloc: Global, one: &[u8], other: &[u8]) -> Result<PartialAnswer, Fault>
    ensures both { IfOk result (λ both. (first : CodePartialAnswer) × CombinesNext None (Some one.now) first × CombinesNext (Some first) (Some other.now) both) }
    ensures fault { IfErr result (λ fault. IsWhyNotCombined fault one.now other.now) }
{
    let first = combine_next(alloc, None, &mut Counted::new(one))?;
    Ok(combine_next(alloc, Some(first), &mut Counted::new(other))?)
}

/// The partial answer that two partial answers in bytes make, in bytes.
fn combined(alloc: Global, one: &[u8], other: &[u8]) -> Result<Vec<u8>, Fault>
    ensures { Combines (given_by result) one.now other.now }
{
    let both = both_partial_answers(alloc, one, other)?;
    bytes_of(alloc, &both)
}

/// The format of a number: text for 0 and each number past 3, and comma-separated values, JSON and a table for 1, 2 and 3.
pub(crate) fn format_numbered(number: u8) -> Format
    ensures { result ≡ format_numbered number }
{
    match number {
        1 => Format::Csv,
        2 => Format::Json,
        3 => Format::Table,
        _ => Format::Text,
    }
}

/// The answer that a partial answer in bytes is finished to, in a format.
fn finished(alloc: Global, partial: &[u8], format: Format) -> Result<Vec<u8>, Fault>
    ensures { Finishes (given_by result) format partial.now }
{
    let mut writer = Counted::new(Vec::new(alloc));
    write_finished_answer(alloc, &mut Counted::new(partial), format, &mut writer)?;
    Ok(writer.into_inner())
}

/// Gives what the file that a handle is of gives to the answer of a query over several files: a partial answer.
///
/// Refused are `NotOpen` if the handle is closed, `Syntax` at the first byte that is no UTF-8, and what `lanes_ask` refuses of the
/// query.
#[unsafe(no_mangle)]
pub extern "C" fn lanes_partial(
    alloc: Global,
    table: &mut Table,
    sql: &[u8],
    room: &mut [u8],
    length: &mut usize,
    place: &mut Place,
) -> u8
    ensures { PartialAnswersOpen result sql.now table.old table.new room.old room.new length.new place.new }
{
    let Some(shared) = replace(table, Table::closed()).into_box(alloc) else {
        return hand_out(Err(Fault::NotOpen), room, length, place);
    };
    let given = partial_answer_of_open(alloc, &shared, sql);
    drop(replace(table, Table::of_box(shared)).into_box(alloc));
    hand_out(given, room, length, place)
}

/// Combines two partial answers of one query. It gives the partial answer of the files of both, whichever comes first.
///
/// Refused are, in this order, the first fault of the one partial answer, that of the other, `SchemaDiffers`, `QueryDiffers`,
/// `NotApart` with the least batch that both have or of which one has rows that the other deletes, and `TooMany`.
#[unsafe(no_mangle)]
pub extern "C" fn lanes_combine(
    alloc: Global,
    one: &[u8],
    other: &[u8],
    room: &mut [u8],
    length: &mut usize,
    place: &mut Place,
) -> u8
    ensures { Tells (λ given. Combines given one.now other.now) result room.old room.new length.new place.new }
{
    hand_out(combined(alloc, one, other), room, length, place)
}

/// Gives the answer of the query that a partial answer is of, in the format of a number: 0 as a text, as `lanes_query` gives it, 1 as
/// comma-separated values, 2 as JSON, 3 as a table. Another number is taken for 0.
///
/// Refused are the partial answer's first fault; what a query's text is refused as, if that of the partial answer is no query of
/// its table; `QueryDiffers` if the partial answer's groups are not those of its query; and `TooMany`.
#[unsafe(no_mangle)]
pub extern "C" fn lanes_finish(
    alloc: Global,
    partial: &[u8],
    format: u8,
    room: &mut [u8],
    length: &mut usize,
    place: &mut Place,
) -> u8
    ensures { Tells (λ given. Finishes given (format_numbered format) partial.now) result room.old room.new length.new place.new }
{
    hand_out(
        finished(alloc, partial, format_numbered(format)),
        room,
        length,
        place,
    )
}
