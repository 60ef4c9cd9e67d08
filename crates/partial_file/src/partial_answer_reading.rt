//! Reading a partial answer: what a format begins with, the query's text, the batches that were counted, the strays, and the groups.
ghost use Rattle.std.specs.Prelude.{◌≡◌, codes, false, true, IfOk, MatchOption};
ghost use Rattle.std.specs.Str.{is_utf8};
ghost use Rattle.std.specs.String.{string_bytes};
ghost use Rattle.table_model.specs.Reading.{Reads};
ghost use Rattle.segment_core.specs.Format.{Format, read_whole};
ghost use Rattle.column_file.specs.Input.{Judges, ReadsWhole};
ghost use Rattle.partial_file.specs.PartialAnswerBytes.{body, body_of, partial, text};
ghost use Rattle.partial_file.specs.PartialAnswerReading.{form_of, is_refusal_of_partial_answer, partial_answer_read};

use crate::group_reading::read_groups;
use crate::number_reading::read_count;
use crate::partial_answer_writing::PARTIAL;
use crate::run_reading::read_names;
use column_file::{read_head, read_input};
use partial_answers::PartialAnswer;
use segment_core::place_of;
use std::alloc::Global;
use std::io::Read;
use table_model::{Counted, Refusal, Schema};

/// The text that bytes are, or `None` if they are not UTF-8.
fn text_in(bytes: &[u8]) -> Option<&str>
    ensures { MatchOption result (is_utf8 bytes.now ≡ false) (λ words. (words.now ≡ bytes.now) × (is_utf8 bytes.now ≡ true)) }
{
    match str::from_utf8(bytes) {
        Ok(words) => Some(words),
        Err(_) => None,
    }
}

/// The text at the front, after how many bytes it has, and what comes after it. It is borrowed.
#[tactic(auto, unfolding(crate::specs::PartialAnswerBytes::text))]
fn read_str(total: usize, bytes: &[u8]) -> Result<(&str, &[u8]), Refusal>
    ensures { Reads (λ x. (x.0.now, x.1.now)) result (text.read total bytes.now) }
{
    let (size, after) = read_count(total, bytes)?;
    if (after.len() as u64) < size {
        return Err(Refusal::Truncated(total as u64));
    }
    let (front, rest) = after.split_at(size as usize);
    match text_in(front) {
        Some(words) => Ok((words, rest)),
        None => Err(Refusal::Syntax(place_of(total, bytes))),
    }
}

/// The query's text at the front, and what comes after it.
fn read_text(alloc: Global, total: usize, bytes: &[u8]) -> Result<(String, &[u8]), Refusal>
    ensures { Reads (λ x. (string_bytes x.0, x.1.now)) result (text.read total bytes.now) }
{
    let (words, rest) = read_str(total, bytes)?;
    Ok((String::from_str(alloc, words)?, rest))
}

/// What comes after a partial answer's schema at the front, as the partial answer with this schema, and what comes after it.
#[tactic(auto, unfolding(crate::specs::PartialAnswerBytes::body))]
fn read_body(
    alloc: Global,
    total: usize,
    bytes: &[u8],
    schema: Schema,
) -> Result<(PartialAnswer, &[u8]), Refusal>
    ensures read { Reads (λ x. (body_of x.0, x.1.now)) result (body.read total bytes.now) }
    ensures schema { IfOk result (λ x. x.0.schema ≡ schema) }
{
    let (text, after_text) = read_text(alloc, total, bytes)?;
    let (held, after_held) = read_names(alloc, total, after_text)?;
    let (strays, after_strays) = read_names(alloc, total, after_held)?;
    let (groups, rest) = read_groups(alloc, total, after_strays)?;
    Ok((PartialAnswer::new(schema, text, held, strays, groups), rest))
}

/// The partial answer that bytes are, as its schema and what comes after it.
#[tactic(auto, unfolding(crate::specs::PartialAnswerBytes::partial))]
fn read_partial_answer_bytes(alloc: Global, bytes: &[u8]) -> Result<PartialAnswer, Refusal>
    ensures { Reads (λ x. (x.schema, body_of x)) result (read_whole partial bytes.now) }
{
    let total = bytes.len();
    let (schema, after_head) = read_head(alloc, total, bytes, &PARTIAL)?;
    let (partial, rest) = read_body(alloc, total, after_head, schema)?;
    if !rest.is_empty() {
        return Err(Refusal::TrailingBytes(place_of(total, rest)));
    }
    Ok(partial)
}

/// The partial answer that bytes are. The refusal is their first fault, or `Memory`, which can come in place of any of them.
fn partial_answer_in(alloc: Global, bytes: &[u8]) -> Result<PartialAnswer, Refusal>
    ensures { Reads form_of result (partial_answer_read bytes.now) }
{
    read_partial_answer_bytes(alloc, bytes)
}

/// The partial answer that a reader has, which is read to its end first.
///
/// The refusals are `ReadFault` if a read fails or more than 2^48 bytes come, and then the first fault of the bytes: `Truncated`,
/// `BadMagic`, `BadVersion`, `BadSchema`, `BadCount`, `Syntax` if the query's text is not UTF-8, `BadName`, `BadRange` if a run is
/// empty, `BadOrder`, `BadTag`, `BadWidth` or `TrailingBytes`. It grows as it reads, so `Memory` can come in place of any of them.
pub fn read_partial_answer<R: Read>(
    alloc: Global,
    reader: &mut Counted<R>,
) -> Result<PartialAnswer, Refusal>
    ensures read { Judges form_of result (R.remaining reader.old.0) partial_answer_read }
    ensures reads { ReadsWhole R.remaining is_refusal_of_partial_answer reader.old reader.new result }
{
    let input = read_input(alloc, reader)?;
    partial_answer_in(alloc, input.as_slice())
}
