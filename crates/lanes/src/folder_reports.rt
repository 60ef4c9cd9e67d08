//! What is said of a folder of parts in addition to what is said of a file, and the digest that a report tells.

use command_line::ReportForm;
use program_failures::{Failure, write_line};
use program_folders::{Opened, Parts, open_folder};
use program_inputs::{Host, Progress};
use replica_reports::{OpenFile, held_digest};
use std::alloc::AllocError;
use table_model::Counted;

/// Says how much is in a folder, how many parts it has, how many other names, and the digest of what it holds, if that is asked for.
pub fn check<R: Host>(
    rt: &R,
    progress: &Progress<'_, R>,
    folder: &str,
    has_digest: bool,
) -> Result<(), Failure> {
    let opened: Opened<OpenFile> = open_folder(rt, progress, folder)?;
    let Opened { held, parts } = opened;
    let batches = held.store().batches();
    let ranges = held.store().tombs().ranges().len();
    let count = parts.count();
    let others = parts.others();
    let mut line = format!(in rt.alloc();
        "ok batches={batches} ranges={ranges} parts={count} others={others}"
    )?;
    if has_digest {
        line.push_str(" digest=")?;
        line.push_str(held_digest(rt.alloc(), held.store())?.as_str())?;
    }
    line.push_str("\n")?;
    write_line(rt, line.as_bytes())
}

/// Writes what a folder holds and how its columns are coded, with how many parts it has, how many other names, and the digest of what it
/// holds, if that is asked for.
pub fn inspect<R: Host>(
    rt: &R,
    progress: &Progress<'_, R>,
    folder: &str,
    has_digest: bool,
    form: ReportForm,
) -> Result<(), Failure> {
    let opened: Opened<OpenFile> = open_folder(rt, progress, folder)?;
    let Opened { held, parts } = opened;
    let mut rows = counts_of(rt, form, &parts)?;
    if has_digest {
        rows.push_str(digest_of(rt, form, &held)?.as_str())?;
    }
    report_with(rt, &held, form, rows.as_str())
}

/// The counts of a folder's names, as a report has them.
fn counts_of<R: AllocGlobal>(
    rt: &R,
    form: ReportForm,
    parts: &Parts,
) -> Result<String, AllocError> {
    let count = parts.count();
    let others = parts.others();
    match form {
        ReportForm::Text => format!(in rt.alloc(); "parts {count}\nothers {others}\n"),
        ReportForm::Json => format!(in rt.alloc(); "\"parts\":{count},\"others\":{others},"),
    }
}

/// The digest of what is held, as a report has it.
pub fn digest_of<R: AllocGlobal>(
    rt: &R,
    form: ReportForm,
    held: &OpenFile,
) -> Result<String, Failure> {
    let digest = held_digest(rt.alloc(), held.store())?;
    Ok(match form {
        ReportForm::Text => format!(in rt.alloc(); "digest {digest}\n")?,
        ReportForm::Json => format!(in rt.alloc(); "\"digest\":\"{digest}\",")?,
    })
}

/// Writes the report of what is held, with more rows or fields behind the first one, which is the table's name.
pub fn report_with<R: Print + AllocGlobal>(
    rt: &R,
    held: &OpenFile,
    form: ReportForm,
    rows: &str,
) -> Result<(), Failure> {
    let mut report = Counted::new(Vec::new(rt.alloc()));
    if let Err(refusal) = replica_reports::inspect(rt.alloc(), held, form, &mut report) {
        return Err(Failure::from(refusal));
    }
    let report = with_rows(rt, report.into_inner().as_slice(), form, rows)?;
    write_line(rt, report.as_slice())
}

/// A report with more rows or fields behind its first one.
fn with_rows<R: AllocGlobal>(
    rt: &R,
    report: &[u8],
    form: ReportForm,
    rows: &str,
) -> Result<Vec<u8>, Failure> {
    let end = match form {
        ReportForm::Text => b'\n',
        ReportForm::Json => b',',
    };
    let at = match report.iter().position(|byte| *byte == end) {
        Some(at) => at.saturating_add(1).min(report.len()),
        None => report.len(),
    };
    let (before, after) = report.split_at(at);
    let mut text = Vec::with_capacity(rt.alloc(), report.len())?;
    text.extend_from_slice(before)?;
    text.extend_from_slice(rows.as_bytes())?;
    text.extend_from_slice(after)?;
    Ok(text)
}
