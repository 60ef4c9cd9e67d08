//! The call that answers a partial answer only if it covers what summaries name.
ghost use Rattle.std.specs.Prelude.{◌≡◌, ◌⊎◌, take, drop, IfOk, IfErr};
ghost use Rattle.table_model.specs.declared.refusal.Refusal.TheVariants.{Memory};
ghost use Rattle.lanes_c.specs.Expecting.{AreSummaries, FinishesExpected, IsWhyNoSummaries, pieces};
ghost use Rattle.lanes_c.specs.PartialAnswers.{format_numbered};
ghost use Rattle.lanes_c.specs.Rooms.{Tells, given_by};
ghost use Rattle.lanes_c.specs.declared.fault.Fault.TheVariants.{Refused};

use crate::fault::{Fault, Place};
use crate::partials::format_numbered;
use crate::room::hand_out;
use answer_formats::Format;
use column_file::read_summary;
use partial_commands::write_expected_answer;
use partial_file::read_partial_answer;
use replica_store::Summary;
use std::alloc::Global;
use table_model::Counted;

/// The first bytes, at most this many, and those after them.
fn cut(bytes: &[u8], length: usize) -> (&[u8], &[u8])
    ensures first { result.0.now ≡ take length bytes.now }
    ensures after { result.1.now ≡ drop length bytes.now }
{
    if length <= bytes.len() {
        bytes.split_at(length)
    } else {
        (bytes, &[])
    }
}

/// The summaries in bytes that come one after another and have these lengths.
fn read_summaries(alloc: Global, summaries: &[u8], lengths: &[usize]) -> Result<Vec<Summary>, Fault>
    ensures read { IfOk result (λ read. AreSummaries (pieces lengths.now summaries.now) read.items) }
    ensures refused { IfErr result (λ fault. (fault ≡ Refused Memory) ⊎ IsWhyNoSummaries fault 1 (pieces lengths.now summaries.now)) }
{
    let mut read = Vec::new(alloc);
    let mut rest = summaries;
    for index in 0..lengths.len() {
        let (bytes, after) = cut(rest, lengths[index]);
        match read_summary(alloc, &mut Counted::new(bytes)) {
            Ok(summary) => read.push(summary)?,
            Err(refusal) => {
                return Err(Fault::OfSummary {
                    refusal,
                    summary: index as u64 + 1,
                });
            }
        }
        rest = after;
    }
    Ok(read)
}

/// The answer that a partial answer in bytes is finished to, if it covers what these summaries name.
fn finished_expected(
    alloc: Global,
    partial: &[u8],
    summaries: &[u8],
    lengths: &[usize],
    format: Format,
) -> Result<Vec<u8>, Fault>
    ensures { FinishesExpected (given_by result) format partial.now (pieces lengths.now summaries.now) }
{
    let partial = read_partial_answer(alloc, &mut Counted::new(partial))?;
    let expected = read_summaries(alloc, summaries, lengths)?;
    let mut writer = Counted::new(Vec::new(alloc));
    write_expected_answer(alloc, partial, expected.as_slice(), format, &mut writer)?;
    Ok(writer.into_inner())
}

/// Gives what `lanes_finish` gives, if each batch that one of some summaries names was counted. The summaries come one after another,
/// and `lengths` has how many bytes each of them has.
///
/// Refused are, in this order, the partial answer's first fault; that of each summary in turn, and then the place has the summary, from
/// 1, next to the byte; `SchemaDiffers` if a summary is of another table; `Missing` with the least batch that a summary names and that
/// was not counted; and what `lanes_finish` refuses of the query.
#[unsafe(no_mangle)]
pub extern "C" fn lanes_finish_expected(
    alloc: Global,
    partial: &[u8],
    summaries: &[u8],
    lengths: &[usize],
    format: u8,
    room: &mut [u8],
    length: &mut usize,
    place: &mut Place,
) -> u8
    ensures { Tells (λ given. FinishesExpected given (format_numbered format) partial.now (pieces lengths.now summaries.now)) result room.old room.new length.new place.new }
{
    let format = format_numbered(format);
    let given = finished_expected(alloc, partial, summaries, lengths, format);
    hand_out(given, room, length, place)
}
