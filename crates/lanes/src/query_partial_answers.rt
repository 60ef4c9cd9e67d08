//! The commands on partial answers: what a file gives to it, partial answers combined, and the answer that a partial answer is
//! finished to.

use crate::opening::opened_from;
use column_file::read_summary;
use command_line::{Combine, Finish, Format, Partial, Source};
use partial_answers::{PartialAnswer, PartialAnswerFault};
use partial_commands::{
    ExpectationError, PartialAnswerError, combine_with, write_expected_answer,
    write_finished_answer, write_partial_answer_of_store,
};
use partial_file::{read_partial_answer, write_partial_answer};
use program_failures::{
    Combined, Failure, buffered, flushed, of_other_table, told, unread, unread_by,
};
use program_inputs::{Host, Progress, Watched, source_of};
use refusal_sentences::{CommandRefusal, Knowledge, Text, is_of_a_text};
use replica_store::Summary;
use std::io;
use table_model::{BatchName, Counted, Refusal, Schema};

/// What is said of a partial answer whose text is not a query.
const NO_QUERY: &str = "this was not written by lanes partial: its text is not a query";

/// Writes what a file or a folder gives to the answer of a query, as a partial answer. The file is judged before the query is read.
pub fn partial<'r, R: Host>(
    rt: &'r R,
    progress: &'r Progress<'r, R>,
    asked: &Partial<'_>,
) -> Result<(), Failure> {
    let sql = asked.sql;
    let held = opened_from(rt, progress, asked.file)?;
    let mut writer = buffered(rt)?;
    let key = held.hash_key();
    match write_partial_answer_of_store(rt.alloc(), held.store(), key, sql, &mut writer) {
        Err(refusal) if is_of_a_text(refusal) => {
            let name = asked.file.name();
            Err(not_asked(rt, refusal, name, sql, held.schema()))
        }
        outcome => told(rt, flushed(writer, outcome)),
    }
}

/// Why a table is not asked a query.
fn not_asked<'a, R: AllocGlobal>(
    rt: &R,
    refusal: Refusal,
    name: &str,
    sql: &'a str,
    schema: &'a Schema,
) -> Failure {
    let text = Text {
        text: sql,
        is_condition: false,
        schema: Some(schema),
    };
    Failure::of_text(rt.alloc(), refusal, name, "", text)
}

/// Writes the partial answer of all files that some partial answers are of, of which there is at least one.
pub fn combine<'r, R: Host>(
    rt: &'r R,
    progress: &'r Progress<'r, R>,
    asked: &Combine<'_>,
) -> Result<(), Failure> {
    match combined(rt, progress, asked.partials.as_slice())? {
        Some(partial) => write_out(rt, &partial),
        None => Err(Failure::from(Refusal::ReadFault)),
    }
}

/// Some partial answers, read and combined in their order. None if there are none.
fn combined<'r, R: Host>(
    rt: &'r R,
    progress: &'r Progress<'r, R>,
    sources: &[Source<'_>],
) -> Result<Option<PartialAnswer>, Failure> {
    let mut combined = Combined::new(rt.alloc());
    let mut before = None;
    for source in sources {
        let mut reader = source_of(rt, progress, *source);
        let next = match read_partial_answer(rt.alloc(), &mut reader) {
            Ok(next) => next,
            Err(refusal) => {
                return Err(unread_by(rt, CommandRefusal::from(refusal), *source, reader));
            }
        };
        if sources.len() > 1 {
            combined.add(rt.alloc(), source.name(), &next)?;
        }
        match combine_with(rt.alloc(), before, next) {
            Ok(both) => before = Some(both),
            Err(fault) => match combined.refused(rt.alloc(), fault)? {
                Some(failure) => return Err(failure),
                None => return Err(refused(rt, *source, fault)),
            },
        }
    }
    Ok(before)
}

/// Writes the answer of the query that a partial answer is of, if it covers what these summaries expect.
pub fn finish<'r, R: Host>(
    rt: &'r R,
    progress: &'r Progress<'r, R>,
    asked: &Finish<'_>,
) -> Result<(), Failure> {
    let (source, format) = (asked.partial, asked.format);
    let expected = asked.expected.as_slice();
    if expected.is_empty() {
        finish_any(rt, progress, source, format)
    } else {
        finish_expected(rt, progress, source, expected, format)
    }
}

/// Writes the answer of the query that a partial answer is of, whatever it covers.
fn finish_any<'r, R: Host>(
    rt: &'r R,
    progress: &'r Progress<'r, R>,
    source: Source<'_>,
    format: Format,
) -> Result<(), Failure> {
    let mut reader = source_of(rt, progress, source);
    let mut writer = Counted::new(Watched::new(io::writer(rt)));
    match write_finished_answer(rt.alloc(), &mut reader, format, &mut writer) {
        Ok(()) => Ok(()),
        Err(PartialAnswerError::Refused(Refusal::WriteFault)) => {
            told(rt, writer.into_inner().ended(Err(Refusal::WriteFault)))
        }
        Err(PartialAnswerError::Refused(refusal)) => {
            Err(unread_by(rt, CommandRefusal::from(refusal), source, reader))
        }
        Err(PartialAnswerError::Fault(fault)) => Err(refused(rt, source, fault)),
    }
}

/// Writes the answer of the query that a partial answer is of, if each batch that one of these summaries names was counted.
fn finish_expected<'r, R: Host>(
    rt: &'r R,
    progress: &'r Progress<'r, R>,
    source: Source<'_>,
    expected: &[Source<'_>],
    format: Format,
) -> Result<(), Failure> {
    let mut reader = source_of(rt, progress, source);
    let partial = match read_partial_answer(rt.alloc(), &mut reader) {
        Ok(partial) => partial,
        Err(refusal) => return Err(unread_by(rt, CommandRefusal::from(refusal), source, reader)),
    };
    let schema = partial.schema().copy(rt.alloc())?;
    let summaries = read_summaries(rt, progress, expected)?;
    let summaries = summaries.as_slice();
    let mut writer = Counted::new(Watched::new(io::writer(rt)));
    match write_expected_answer(rt.alloc(), partial, summaries, format, &mut writer) {
        Ok(()) => Ok(()),
        Err(ExpectationError::Unanswered(PartialAnswerError::Refused(Refusal::WriteFault))) => {
            told(rt, writer.into_inner().ended(Err(Refusal::WriteFault)))
        }
        Err(ExpectationError::Unanswered(PartialAnswerError::Refused(refusal))) => {
            Err(unread(rt, CommandRefusal::from(refusal), source, &[]))
        }
        Err(ExpectationError::Unanswered(PartialAnswerError::Fault(fault))) => {
            Err(refused(rt, source, fault))
        }
        Err(ExpectationError::SchemaDiffers) => {
            let found = first_other(summaries, &schema);
            Err(of_other_table(rt, source.name(), &schema, found, expected))
        }
        Err(ExpectationError::Missing(name)) => Err(missing(rt, expected, summaries, name)),
    }
}

/// The summaries of these sources, one after another.
fn read_summaries<'r, R: Host>(
    rt: &'r R,
    progress: &'r Progress<'r, R>,
    sources: &[Source<'_>],
) -> Result<Vec<Summary>, Failure> {
    let mut summaries = Vec::new(rt.alloc());
    for source in sources {
        let mut reader = source_of(rt, progress, *source);
        match read_summary(rt.alloc(), &mut reader) {
            Ok(summary) => summaries.push(summary)?,
            Err(refusal) => {
                return Err(unread_by(rt, CommandRefusal::from(refusal), *source, reader));
            }
        }
    }
    Ok(summaries)
}

/// The first of these summaries that is of another table than this one, by its index and its table.
fn first_other<'a>(summaries: &'a [Summary], wanted: &Schema) -> Option<(usize, &'a Schema)> {
    for (index, summary) in summaries.iter().enumerate() {
        if !summary.schema().same(wanted) {
            return Some((index, summary.schema()));
        }
    }
    None
}

/// Why a partial answer is not finished: a batch is missing, which the first of these summaries that has it names.
fn missing<R: AllocGlobal>(
    rt: &R,
    sources: &[Source<'_>],
    summaries: &[Summary],
    name: BatchName,
) -> Failure {
    let refusal = CommandRefusal::Missing(name);
    for (source, summary) in sources.iter().zip(summaries) {
        if summary.names().holds(name) {
            let name = source.name();
            return Failure::said_of(rt.alloc(), refusal, name, Knowledge::Nothing);
        }
    }
    Failure::of(rt.alloc(), refusal)
}

/// Writes a partial answer to standard output.
fn write_out<R: Print + AllocGlobal>(rt: &R, partial: &PartialAnswer) -> Result<(), Failure> {
    let mut writer = buffered(rt)?;
    let outcome = write_partial_answer(rt.alloc(), partial, &mut writer);
    told(rt, flushed(writer, outcome))
}

/// What a fault of partial answers is refused as.
fn refusal_of(fault: PartialAnswerFault) -> CommandRefusal {
    match fault {
        PartialAnswerFault::Memory => CommandRefusal::from(Refusal::Memory),
        PartialAnswerFault::SchemaDiffers => CommandRefusal::from(Refusal::SchemaDiffers),
        PartialAnswerFault::QueryDiffers => CommandRefusal::QueryDiffers,
        PartialAnswerFault::NotApart(name) => CommandRefusal::NotApart(name),
        PartialAnswerFault::TooMany => CommandRefusal::TooMany,
        PartialAnswerFault::Query(refusal) => CommandRefusal::from(refusal),
    }
}

/// Why a partial answer is not combined or finished.
fn refused<R: AllocGlobal>(rt: &R, source: Source<'_>, fault: PartialAnswerFault) -> Failure {
    let refusal = refusal_of(fault);
    let name = source.name();
    match fault {
        PartialAnswerFault::Query(_) => Failure::advised(rt.alloc(), refusal, name, NO_QUERY),
        _ => Failure::said_of(rt.alloc(), refusal, name, Knowledge::Nothing),
    }
}
