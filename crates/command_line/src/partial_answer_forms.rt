//! How the commands on partial answers are read by `clap`.

use crate::commands::{format, several_words, word};
use clap::{Arg, ArgAction, Command};
use std::alloc::{AllocError, Global};

/// What is shown below the help of `lanes partial`.
const PARTIAL_HELP: &str =
    "A partial answer is bytes, for a file or a pipe. lanes combine combines those of files that share no batch, and lanes finish writes\nthe answer: that of the query over all these files merged. docs/COMMANDS.md has an example.";

/// What is shown below the help of `lanes combine`.
const COMBINE_HELP: &str =
    "The partial answers are of one query, and of files that share no batch. Their order does not matter. What is written is a partial\nanswer too.";

/// What is shown below the help of `lanes finish`.
const FINISH_HELP: &str =
    "With --expect SUMMARY, which lanes summary writes of a file, the answer comes only if each batch that the SUMMARY names was\ncounted. So a partial answer that is missing is noticed: Missing, with a batch. The option may come several times.";

/// How `lanes partial` is read.
pub(crate) fn partial_command<'a>(
    alloc: Global,
    command: Command<'a>,
) -> Result<Command<'a>, AllocError> {
    command
        .about("Computes a file's partial answer to a query over many files")
        .after_help(PARTIAL_HELP)
        .arg(word(
            alloc,
            "FILE",
            "The file, or the folder of parts, or - for standard input",
        ))?
        .arg(word(alloc, "SQL", "The query"))
}

/// How `lanes combine` is read.
pub(crate) fn combine_command<'a>(
    alloc: Global,
    command: Command<'a>,
) -> Result<Command<'a>, AllocError> {
    let partials = several_words(
        alloc,
        "PARTIAL",
        "The partial answers that are combined, or - for standard input",
    );
    command
        .about("Combines the partial answers of several files, for lanes finish")
        .after_help(COMBINE_HELP)
        .arg(partials)
}

/// How `lanes finish` is read.
pub(crate) fn finish_command<'a>(
    alloc: Global,
    command: Command<'a>,
) -> Result<Command<'a>, AllocError> {
    let expect = Arg::new(alloc, "expect")
        .long("expect")
        .value_name("SUMMARY")
        .action(ArgAction::Append)
        .help(
            "Answer only if every batch in SUMMARY was counted (- is standard input; may be repeated)",
        )
        .allow_hyphen_values(true);
    command
        .about("Turns a partial answer into the answer")
        .after_help(FINISH_HELP)
        .arg(expect)?
        .arg(format(
            alloc,
            "The form of the answer: text, csv, json or table (default: text)",
        ))?
        .arg(word(
            alloc,
            "PARTIAL",
            "The partial answer, or - for standard input",
        ))
}
