//! How the commands that read a file and tell of it are read by `clap`.

use crate::commands::{file, flag, format, word};
use clap::{Arg, Command};
use std::alloc::{AllocError, Global};

/// What is shown below the help of `lanes inspect`.
const INSPECT_HELP: &str =
    "FILE may also be a partial answer or a summary. Of a partial answer it writes the table, the query, the number of groups and of\nbatches, and a line for each run of batches that were counted. Of a summary it writes the table, the number of batches and these\nlines.";

/// How `lanes dump` is read.
pub(crate) fn dump_command<'a>(
    alloc: Global,
    command: Command<'a>,
) -> Result<Command<'a>, AllocError> {
    let names = flag(
        alloc,
        "names",
        "Put each row's batch and ordinal before its values",
    );
    let condition = Arg::new(alloc, "where")
        .long("where")
        .value_name("COND")
        .help("Only the rows for which this condition is true, as in WHERE")
        .allow_hyphen_values(true);
    let columns = Arg::new(alloc, "columns")
        .long("columns")
        .value_name("NAMES")
        .help("Only these columns, in this order, comma-separated")
        .allow_hyphen_values(true);
    command
        .about("Writes the rows as comma-separated values")
        .arg(names)?
        .arg(condition)?
        .arg(columns)?
        .arg(file(alloc))
}

/// The option that asks for the digest of what is held, or of each batch.
fn digest<'a>(alloc: Global, help: &'a str) -> Arg<'a> {
    flag(alloc, "digest", help)
}

/// How `lanes inspect` is read.
pub(crate) fn inspect_command<'a>(
    alloc: Global,
    command: Command<'a>,
) -> Result<Command<'a>, AllocError> {
    let batches = flag(
        alloc,
        "batches",
        "List the batches instead: the name of each, its rows and its live rows",
    );
    command
        .about("Writes what a file holds and how its columns are coded")
        .after_help(INSPECT_HELP)
        .arg(batches)?
        .arg(digest(
            alloc,
            "Also print the digest of what is held, or with --batches that of each batch",
        ))?
        .arg(format(
            alloc,
            "The form of the report: text or json (default: text)",
        ))?
        .arg(word(
            alloc,
            "FILE",
            "The file, or the folder of parts, or a partial answer or a summary",
        ))
}

/// How `lanes summary` is read.
pub(crate) fn summary_command<'a>(
    alloc: Global,
    command: Command<'a>,
) -> Result<Command<'a>, AllocError> {
    command
        .about("Writes the names of a file's batches, for lanes offer")
        .arg(file(alloc))
}

/// How `lanes offer` is read.
pub(crate) fn offer_command<'a>(
    alloc: Global,
    command: Command<'a>,
) -> Result<Command<'a>, AllocError> {
    command
        .about("Writes what a file has and a summary does not, for lanes apply")
        .arg(file(alloc))?
        .arg(word(
            alloc,
            "SUMMARY",
            "The summary's file, or - for standard input",
        ))
}

/// How `lanes check` is read.
pub(crate) fn check_command<'a>(
    alloc: Global,
    command: Command<'a>,
) -> Result<Command<'a>, AllocError> {
    command
        .about(
            "Says whether a file is in canonical form, and how many batches and ranges of deletions it has",
        )
        .arg(digest(
            alloc,
            "Also print the digest of what is held: replicas with one digest hold the same",
        ))?
        .arg(file(alloc))
}
