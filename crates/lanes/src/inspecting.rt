//! What `lanes inspect` writes: what a file or a folder holds, and what a partial answer or a summary covers.

use crate::folder_reports::{self, digest_of, report_with};
use column_file::read_summary;
use command_line::{Inspect, ReportForm, Source};
use partial_commands::{inspect_partial_answer, inspect_summary};
use partial_file::read_partial_answer;
use program_failures::{Failure, buffered, flushed, told};
use program_folders::{Opened, open_folder};
use program_inputs::{Home, Host, LazyFile, Peeked, Progress, Told};
use refusal_sentences::{CommandRefusal, Knowledge};
use replica_reports::{OpenFile, list_batches, list_batches_with_digests};
use std::fs::Files;
use std::io::Read;
use table_model::{Counted, Refusal};

/// What a partial answer begins with.
const PARTIAL: &[u8] = b"FLPT";

/// What a summary begins with.
const SUMMARY: &[u8] = b"FLSM";

/// What is said of a partial answer if its digest is asked for.
const PARTIAL_WITHOUT_DIGEST: &str =
    "this is a partial answer, which has no digest: lanes inspect alone says what it covers";

/// What is said of a summary if its digest is asked for.
const SUMMARY_WITHOUT_DIGEST: &str =
    "this is a summary, which has no digest: lanes inspect alone says which batches it names";

/// Writes what a file holds and how its columns are coded, or a list of its batches; or what a partial answer or a summary covers.
pub fn inspect<R: Host>(
    rt: &R,
    progress: &Progress<'_, R>,
    asked: &Inspect<'_>,
) -> Result<(), Failure> {
    match Home::of(rt, asked.file) {
        Home::File(file) => inspect_input(rt, progress, file, asked),
        Home::Folder(folder) => inspect_folder(rt, progress, folder, asked),
    }
}

/// Writes what a file holds, a list of its batches, or what a partial answer or a summary covers, by the file's first bytes.
fn inspect_input<R: Host>(
    rt: &R,
    progress: &Progress<'_, R>,
    file: &str,
    asked: &Inspect<'_>,
) -> Result<(), Failure> {
    let form = asked.form;
    let peeked = Peeked::new(Told::new(progress, Source::File(file), LazyFile::new(rt, file)));
    if asked.has_digest {
        refuse_digest(rt, file, peeked.front())?;
    }
    if asked.has_batches {
        list(rt, &open(rt, file, peeked)?, asked)
    } else if asked.has_digest {
        let held = open(rt, file, peeked)?;
        report_with(rt, &held, form, digest_of(rt, form, &held)?.as_str())
    } else if peeked.front().starts_with(PARTIAL) {
        inspect_partial(rt, file, peeked, form)
    } else if peeked.front().starts_with(SUMMARY) {
        inspect_names(rt, file, peeked, form)
    } else {
        inspect_file(rt, file, peeked, form)
    }
}

/// Refuses a digest of what begins with these bytes, if it is a partial answer or a summary.
fn refuse_digest<R: AllocGlobal>(rt: &R, file: &str, front: &[u8]) -> Result<(), Failure> {
    let words = if front.starts_with(PARTIAL) {
        PARTIAL_WITHOUT_DIGEST
    } else if front.starts_with(SUMMARY) {
        SUMMARY_WITHOUT_DIGEST
    } else {
        return Ok(());
    };
    let refusal = CommandRefusal::from(Refusal::BadMagic);
    Err(Failure::said_of(rt.alloc(), refusal, file, Knowledge::Advice(words)))
}

/// Writes what a folder holds, or a list of its batches.
fn inspect_folder<R: Host>(
    rt: &R,
    progress: &Progress<'_, R>,
    folder: &str,
    asked: &Inspect<'_>,
) -> Result<(), Failure> {
    if !asked.has_batches {
        return folder_reports::inspect(rt, progress, folder, asked.has_digest, asked.form);
    }
    let opened: Opened<OpenFile> = open_folder(rt, progress, folder)?;
    list(rt, &opened.held, asked)
}

/// What a file holds whose first bytes were looked at.
fn open<R: Files + AllocGlobal, D: Read + Drop>(
    rt: &R,
    file: &str,
    reader: Peeked<D>,
) -> Result<OpenFile, Failure> {
    let mut reader = Counted::new(reader);
    match OpenFile::read(rt.alloc(), &mut reader) {
        Ok(held) => Ok(held),
        Err(refusal) => {
            let input = reader.into_inner();
            Err(Failure::of_input(rt, CommandRefusal::from(refusal), file, input.front()))
        }
    }
}

/// Writes a list of the batches of a file or a folder, with their digests if that is asked for.
fn list<R: Print + AllocGlobal>(
    rt: &R,
    held: &OpenFile,
    asked: &Inspect<'_>,
) -> Result<(), Failure> {
    let mut writer = buffered(rt)?;
    let outcome = if asked.has_digest {
        list_batches_with_digests(rt.alloc(), held, asked.form, &mut writer)
    } else {
        list_batches(rt.alloc(), held, asked.form, &mut writer)
    };
    told(rt, flushed(writer, outcome))
}

/// Writes what a file holds and how its columns are coded.
fn inspect_file<R: Print + Files + AllocGlobal, D: Read + Drop>(
    rt: &R,
    file: &str,
    reader: Peeked<D>,
    form: ReportForm,
) -> Result<(), Failure> {
    let held = open(rt, file, reader)?;
    let mut writer = buffered(rt)?;
    let outcome = replica_reports::inspect(rt.alloc(), &held, form, &mut writer);
    told(rt, flushed(writer, outcome))
}

/// Writes what a partial answer covers.
fn inspect_partial<R: Print + Files + AllocGlobal, D: Read + Drop>(
    rt: &R,
    file: &str,
    reader: Peeked<D>,
    form: ReportForm,
) -> Result<(), Failure> {
    match read_partial_answer(rt.alloc(), &mut Counted::new(reader)) {
        Ok(partial) => {
            let mut writer = buffered(rt)?;
            let outcome = inspect_partial_answer(rt.alloc(), &partial, form, &mut writer);
            told(rt, flushed(writer, outcome))
        }
        Err(refusal) => Err(Failure::of_file(rt, CommandRefusal::from(refusal), file)),
    }
}

/// Writes which batches a summary names.
fn inspect_names<R: Print + Files + AllocGlobal, D: Read + Drop>(
    rt: &R,
    file: &str,
    reader: Peeked<D>,
    form: ReportForm,
) -> Result<(), Failure> {
    match read_summary(rt.alloc(), &mut Counted::new(reader)) {
        Ok(summary) => {
            let mut writer = buffered(rt)?;
            let outcome = inspect_summary(rt.alloc(), &summary, form, &mut writer);
            told(rt, flushed(writer, outcome))
        }
        Err(refusal) => Err(Failure::of_file(rt, CommandRefusal::from(refusal), file)),
    }
}
