//! The commands that read a file and write to standard output what is in it.

use crate::folder_reports;
use crate::opening::{opened, opened_source};
use command_line::{Check, Dump, Offer, Source};
use live_columns::{Unchosen, choose};
use program_failures::{Failure, buffered, flushed, told, unread_by};
use program_inputs::{Home, Host, Progress, Watched, source_of};
use refusal_sentences::{CommandRefusal, is_of_a_text};
use replica_reports::{OpenFile, check_with_digest, dump_where};
use std::io;
use table_model::{Counted, Refusal};

/// Says whether a file, or each part of a folder, is a canonical one, and how much is in it.
pub fn check<R: Host>(
    rt: &R,
    progress: &Progress<'_, R>,
    asked: &Check<'_>,
) -> Result<(), Failure> {
    match Home::of(rt, asked.file) {
        Home::File(file) => check_file(rt, progress, file, asked.has_digest),
        Home::Folder(folder) => folder_reports::check(rt, progress, folder, asked.has_digest),
    }
}

/// Says whether a file is a canonical one, and how much is in it.
fn check_file<R: Host>(
    rt: &R,
    progress: &Progress<'_, R>,
    file: &str,
    has_digest: bool,
) -> Result<(), Failure> {
    let held = opened_source(rt, progress, Source::File(file))?;
    let mut writer = Counted::new(Watched::new(io::writer(rt)));
    let outcome = if has_digest {
        check_with_digest(rt.alloc(), &held, &mut writer)
    } else {
        replica_reports::check(rt.alloc(), &held, &mut writer)
    };
    told(rt, writer.into_inner().ended(outcome))
}

/// Writes a file's live rows as comma-separated values, with their names or without: those for which a condition is true, in the
/// columns of a list of names. An empty condition is true for all rows, and an empty list is all columns.
pub fn dump<R: Host>(rt: &R, progress: &Progress<'_, R>, asked: &Dump<'_>) -> Result<(), Failure> {
    let (condition, columns) = (asked.condition, asked.columns);
    let held = opened(rt, progress, asked.file)?;
    let choice = match choose(
        rt.alloc(),
        held.schema(),
        columns.as_bytes(),
        b',',
        condition,
    ) {
        Ok(choice) => choice,
        Err(Unchosen::NoSuchName(at)) => {
            return Err(Failure::of_name(rt.alloc(), asked.file, columns, at, held.schema()));
        }
        Err(Unchosen::Refused(refusal)) => {
            return Err(unchosen(rt, refusal, asked.file, condition, &held));
        }
    };
    let mut writer = buffered(rt)?;
    let outcome = dump_where(rt.alloc(), &held, &choice, asked.has_names, &mut writer);
    told(rt, flushed(writer, outcome))
}

/// The refusal of the condition that is given with `--where`.
fn unchosen<R: AllocGlobal>(
    rt: &R,
    refusal: Refusal,
    file: &str,
    condition: &str,
    held: &OpenFile,
) -> Failure {
    if !is_of_a_text(refusal) {
        return Failure::from(refusal);
    }
    Failure::of_condition(
        rt.alloc(),
        refusal,
        file,
        "--where",
        condition,
        Some(held.schema()),
    )
}

/// Writes the names of a file's batches, as a message.
pub fn summary<R: Host>(rt: &R, progress: &Progress<'_, R>, file: &str) -> Result<(), Failure> {
    let held = opened(rt, progress, file)?;
    let mut writer = buffered(rt)?;
    let outcome = replica_reports::summary(rt.alloc(), &held, &mut writer);
    told(rt, flushed(writer, outcome))
}

/// Writes what a file has beyond a summary, as a message. The file is judged before the summary is read.
pub fn offer<R: Host>(
    rt: &R,
    progress: &Progress<'_, R>,
    asked: &Offer<'_>,
) -> Result<(), Failure> {
    let (file, source) = (asked.file, asked.summary);
    let held = opened(rt, progress, file)?;
    let mut reader = source_of(rt, progress, source);
    let summary = match column_file::read_summary(rt.alloc(), &mut reader) {
        Ok(summary) => summary,
        Err(refusal) => return Err(unread_by(rt, CommandRefusal::from(refusal), source, reader)),
    };
    let mut writer = buffered(rt)?;
    let outcome = replica_reports::offer(rt.alloc(), &held, &summary, &mut writer);
    if outcome == Err(Refusal::SchemaDiffers) {
        let name = source.name();
        return Err(Failure::of_tables(rt.alloc(), name, summary.schema(), file, held.schema()));
    }
    told(rt, flushed(writer, outcome))
}
