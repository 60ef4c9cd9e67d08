//! How `lanes import` is read by `clap`.

use crate::commands::{file, flag, quiet, several_words};
use clap::{Arg, Command};
use std::alloc::{AllocError, Global};

/// What is shown below the help of `lanes import`.
const IMPORT_HELP: &str =
    "Rows are stored in batches of up to 65,536. Batches get random names, or O.N and the names after it: importing a load again under its\nname changes nothing. Several CSVs are imported all or none.";

/// How `lanes import` is read.
pub(crate) fn import_command<'a>(
    alloc: Global,
    command: Command<'a>,
) -> Result<Command<'a>, AllocError> {
    let batch = Arg::new(alloc, "batch")
        .long("batch")
        .value_name("O.N")
        .help("The name of the first batch, instead of one drawn at random")
        .allow_hyphen_values(true);
    let header = flag(
        alloc,
        "no-header",
        "The first line has values, not names of columns",
    );
    let separator = Arg::new(alloc, "separator")
        .long("separator")
        .value_name("C")
        .help("The character between two fields, instead of a comma; \\t is a tab")
        .allow_hyphen_values(true);
    let null_word = Arg::new(alloc, "null")
        .long("null")
        .value_name("WORD")
        .help("A further word for a null, besides an empty field, NULL and \\N")
        .allow_hyphen_values(true);
    let columns = Arg::new(alloc, "columns")
        .long("columns")
        .value_name("NAMES")
        .help("The column of each field, for example A,B,- (- skips a field)")
        .allow_hyphen_values(true);
    let whole = flag(
        alloc,
        "whole-lines",
        "Refuse a CSV that does not end with a line end: it may be cut off",
    );
    command
        .about("Inserts rows of comma-separated values")
        .after_help(IMPORT_HELP)
        .arg(batch)?
        .arg(header)?
        .arg(separator)?
        .arg(null_word)?
        .arg(columns)?
        .arg(whole)?
        .arg(quiet(alloc))?
        .arg(file(alloc))?
        .arg(several_words(alloc, "CSV", "The files of values, or - for standard input"))
}
