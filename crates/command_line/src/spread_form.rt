//! How `lanes spread` is read by `clap`.

use crate::commands::{quiet, several_words, word};
use clap::Command;
use std::alloc::{AllocError, Global};

/// What is shown below the help of `lanes spread`.
const SPREAD_HELP: &str =
    "Each batch goes to one OUT, with the deletions of its rows, and the OUTs have about as many bytes each. Merged they are FILE.\nFILE may be a folder. A name OUT/ makes a new folder. If one of the OUTs is there already, nothing is made.";

/// How `lanes spread` is read.
pub(crate) fn spread_command<'a>(
    alloc: Global,
    command: Command<'a>,
) -> Result<Command<'a>, AllocError> {
    command
        .about("Spreads what a file holds over new files, which share no batch")
        .after_help(SPREAD_HELP)
        .arg(quiet(alloc))?
        .arg(word(alloc, "FILE", "The file, or the folder of parts"))?
        .arg(several_words(alloc, "OUT", "The files that are made"))
}
