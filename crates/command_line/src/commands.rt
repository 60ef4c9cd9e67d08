//! The program's commands: how each is read by `clap`.

use crate::import_form::import_command;
use crate::partial_answer_forms::{combine_command, finish_command, partial_command};
use crate::report_forms::{
    check_command, dump_command, inspect_command, offer_command, summary_command,
};
use crate::spread_form::spread_command;
use crate::verb::{VERBS, Verb};
use clap::{Arg, ArgAction, Command};
use std::alloc::{AllocError, Global};

/// The program's version.
const VERSION: &str = "0.12.1";

/// What is shown below the help of `lanes run`.
const SCRIPT_HELP: &str =
    "A script has lines such as these, and each has a reply:\n  table 2 T A SMALLINT\n  append 1 (7),(NULL)\n  query 1 SELECT COUNT(*) FROM T\nAll lines and replies are in docs/FORMATS.md, and examples/ has scripts to run.";

/// What is shown below the help of `lanes create`.
const CREATE_HELP: &str =
    "A name that ends in / makes a folder: what a service on one machine uses. FILE is what is sent and kept.";

/// What is shown below the help of `lanes merge`.
const MERGE_HELP: &str =
    "OUT is replaced as a whole, and stays as it was if the merge is refused. An OUT that is there and is not an IN is replaced only if the\nresult has all its rows and deletions, or with --replace: lanes apply OUT IN.. adds files to it. If OUT is not a regular file it is\nwritten in place. A name OUT/ makes a new folder. An IN may be a folder: its parts are merged.";

/// What is shown below the help of `lanes pack`.
const PACK_HELP: &str =
    "Each change of a folder adds a part. Run this each hour, as by cron, so that there are few: small parts are joined into one, and are\nthen removed. What the folder holds stays the same, and other commands may run meanwhile.";

/// What comes below the help of `lanes forget`.
const FORGET_HELP: &str =
    "Pull from the other sites first. Deletions stay, and a batch's name stays used up for ever: docs/COMMANDS.md says when to forget.\nIn a folder all parts are joined into one, and other commands may run meanwhile.";

/// The program's commands.
pub(crate) fn commands<'a>(alloc: Global) -> Result<Command<'a>, AllocError> {
    let mut command = Command::new(alloc, "lanes")
        .bin_name("lanes")?
        .about("A replicated column store for one table of nullable integer columns")
        .version(VERSION)
        .subcommand_required(true);
    for verb in VERBS {
        command = command.subcommand(verb.command(alloc)?)?;
    }
    Ok(command)
}

impl Verb {
    /// How the command is read.
    pub(crate) fn command<'a>(self, alloc: Global) -> Result<Command<'a>, AllocError> {
        let name = self.name();
        let called = format!(in alloc; "lanes {name}")?;
        let command = Command::new(alloc, name).bin_name(called.as_str())?;
        match self {
            Verb::Run => run_command(alloc, command),
            Verb::Create => create_command(alloc, command),
            Verb::Import => import_command(alloc, command),
            Verb::Delete => delete_command(alloc, command),
            Verb::DeleteRows => delete_rows_command(alloc, command),
            Verb::Forget => forget_command(alloc, command),
            Verb::Query => query_command(alloc, command),
            Verb::Partial => partial_command(alloc, command),
            Verb::Combine => combine_command(alloc, command),
            Verb::Finish => finish_command(alloc, command),
            Verb::Dump => dump_command(alloc, command),
            Verb::Inspect => inspect_command(alloc, command),
            Verb::Summary => summary_command(alloc, command),
            Verb::Offer => offer_command(alloc, command),
            Verb::Apply => apply_command(alloc, command),
            Verb::Check => check_command(alloc, command),
            Verb::Merge => merge_command(alloc, command),
            Verb::Spread => spread_command(alloc, command),
            Verb::Pack => pack_command(alloc, command),
        }
    }
}

/// A word that is required.
pub(crate) fn word<'a>(alloc: Global, name: &'a str, help: &'a str) -> Arg<'a> {
    Arg::new(alloc, name).help(help).required(true)
}

/// Words of which one is required. Options may come between them.
pub(crate) fn several_words<'a>(alloc: Global, name: &'a str, help: &'a str) -> Arg<'a> {
    word(alloc, name, help)
        .num_args(1..)
        .action(ArgAction::Append)
}

/// The file that a command reads or changes.
pub(crate) fn file<'a>(alloc: Global) -> Arg<'a> {
    word(alloc, "FILE", "The file, or the folder of parts")
}

/// An option that is there or not.
pub(crate) fn flag<'a>(alloc: Global, name: &'a str, help: &'a str) -> Arg<'a> {
    Arg::new(alloc, name)
        .long(name)
        .action(ArgAction::SetTrue)
        .help(help)
}

/// The option of commands that write answers or reports, which chooses their form.
pub(crate) fn format<'a>(alloc: Global, help: &'a str) -> Arg<'a> {
    Arg::new(alloc, "format")
        .long("format")
        .value_name("FORMAT")
        .help(help)
        .allow_hyphen_values(true)
}

/// The option of commands that change a file, to say nothing when all is well.
pub(crate) fn quiet<'a>(alloc: Global) -> Arg<'a> {
    flag(alloc, "quiet", "Print nothing on success")
}

fn run_command<'a>(alloc: Global, command: Command<'a>) -> Result<Command<'a>, AllocError> {
    let script = Arg::new(alloc, "SCRIPT").help("The script (default: standard input)");
    let explain = flag(
        alloc,
        "explain",
        "Say on standard error for each refused line its number and why it is refused",
    );
    command
        .about("Runs a script and writes its replies to standard output")
        .after_help(SCRIPT_HELP)
        .arg(explain)?
        .arg(script)
}

fn create_command<'a>(alloc: Global, command: Command<'a>) -> Result<Command<'a>, AllocError> {
    let columns = several_words(
        alloc,
        "COLUMNS",
        "The columns' names and types: TINYINT, SMALLINT, INTEGER or BIGINT",
    );
    command
        .about("Creates an empty table: a file, or a folder if the name ends in /")
        .after_help(CREATE_HELP)
        .arg(quiet(alloc))?
        .arg(word(
            alloc,
            "FILE",
            "The file that is created, or the folder if the name ends in /",
        ))?
        .arg(word(alloc, "TABLE", "The table's name"))?
        .arg(columns.value_name("COL TYPE"))
}

fn delete_command<'a>(alloc: Global, command: Command<'a>) -> Result<Command<'a>, AllocError> {
    command
        .about("Deletes the rows for which a condition is true")
        .arg(quiet(alloc))?
        .arg(file(alloc))?
        .arg(word(alloc, "COND", "The condition, as in WHERE").allow_hyphen_values(true))
}

fn delete_rows_command<'a>(alloc: Global, command: Command<'a>) -> Result<Command<'a>, AllocError> {
    command
        .about("Deletes rows by their names, also rows that arrive later")
        .arg(flag(
            alloc,
            "held",
            "Delete only if FILE has the batch, and say whether it has: ok held=0 or ok held=1",
        ))?
        .arg(quiet(alloc))?
        .arg(file(alloc))?
        .arg(word(alloc, "O.N", "The name of the rows' batch"))?
        .arg(word(alloc, "FIRST", "The first row's ordinal, from 0"))?
        .arg(word(alloc, "LAST", "The last row's ordinal"))
}

fn forget_command<'a>(alloc: Global, command: Command<'a>) -> Result<Command<'a>, AllocError> {
    command
        .about("Drops the batches of which every row is deleted; no answer changes")
        .after_help(FORGET_HELP)
        .arg(quiet(alloc))?
        .arg(file(alloc))
}

fn query_command<'a>(alloc: Global, command: Command<'a>) -> Result<Command<'a>, AllocError> {
    command
        .about(
            "Writes the answers of queries, one after another; docs/SQL.md describes the language",
        )
        .arg(format(
            alloc,
            "The form of the answers: text, csv, json or table (default: text)",
        ))?
        .arg(file(alloc))?
        .arg(several_words(
            alloc,
            "SQL",
            "The queries, or - for lines of standard input",
        ))
}

fn apply_command<'a>(alloc: Global, command: Command<'a>) -> Result<Command<'a>, AllocError> {
    command
        .about("Applies offers, or other files of the same table, to a file")
        .arg(quiet(alloc))?
        .arg(file(alloc))?
        .arg(several_words(alloc, "OFFER", "The offers' files, or - for standard input"))
}

fn merge_command<'a>(alloc: Global, command: Command<'a>) -> Result<Command<'a>, AllocError> {
    command
        .about("Merges files and folders into one file")
        .after_help(MERGE_HELP)
        .arg(flag(alloc, "replace", "Replace OUT, whatever it holds"))?
        .arg(quiet(alloc))?
        .arg(word(alloc, "OUT", "The file that is written"))?
        .arg(several_words(alloc, "IN", "The files that are merged, in this order"))
}

fn pack_command<'a>(alloc: Global, command: Command<'a>) -> Result<Command<'a>, AllocError> {
    command
        .about("Joins small parts of a folder into one, so that there are few")
        .after_help(PACK_HELP)
        .arg(flag(alloc, "all", "Join all parts into one"))?
        .arg(quiet(alloc))?
        .arg(word(alloc, "FOLDER", "The folder of parts"))
}
