//! The help of the program, with its commands in groups.

use crate::verb::Verb;
use std::alloc::{AllocError, Global};

/// What comes before the commands.
const HEAD: &str =
    "A replicated column store for one table of nullable integer columns\n\nUsage: lanes <COMMAND>\n";

/// What comes after the commands.
const TAIL: &str =
    "\nOptions:\n  -h, --help     Print help\n  -V, --version  Print version\n\nlanes help COMMAND says how a command is used. The pages are in share/doc/lanes next to bin: README.md has a first example,\ndocs/COMMANDS.md all about each command, and docs/SQL.md the language of queries.";

/// The groups of commands.
const GROUPS: [(&str, &[Verb]); 4] = [
    (
        "One table, in a file or a folder",
        &[
            Verb::Create,
            Verb::Import,
            Verb::Query,
            Verb::Delete,
            Verb::DeleteRows,
            Verb::Forget,
            Verb::Dump,
            Verb::Inspect,
            Verb::Check,
            Verb::Pack,
        ],
    ),
    (
        "Between sites",
        &[Verb::Summary, Verb::Offer, Verb::Apply, Verb::Merge],
    ),
    (
        "Over many machines",
        &[Verb::Spread, Verb::Partial, Verb::Combine, Verb::Finish],
    ),
    ("Scripts", &[Verb::Run]),
];

/// How many bytes the longest command has.
const LONGEST: usize = 11;

/// Whether words ask for the help of the program.
pub fn is_asked(words: &[String]) -> bool {
    match words {
        [_, word] => matches!(word.as_str(), "--help" | "-h" | "help"),
        [_, word, next] if word.as_str() == "help" => matches!(next.as_str(), "--help" | "-h"),
        [_, word, ..] => matches!(word.as_str(), "--help" | "-h"),
        _ => false,
    }
}

/// The help of the program.
pub fn text(alloc: Global) -> Result<String, AllocError> {
    let mut text = String::from_str(alloc, HEAD)?;
    for (heading, verbs) in &GROUPS {
        write!(text, "\n{heading}:\n")?;
        push_commands(alloc, &mut text, verbs)?;
    }
    push_command(
        &mut text,
        "help",
        "Print this message, or the help of a command",
    )?;
    text.push_str(TAIL)?;
    Ok(text)
}

/// Adds a line for each of some commands.
fn push_commands(alloc: Global, text: &mut String, verbs: &[Verb]) -> Result<(), AllocError> {
    for verb in verbs {
        let command = verb.command(alloc)?;
        push_command(text, verb.name(), command.get_about().unwrap_or(""))?;
    }
    Ok(())
}

/// Adds the line of a command.
fn push_command(text: &mut String, name: &str, about: &str) -> Result<(), AllocError> {
    let room = LONGEST.saturating_sub(name.len());
    write!(text, "  {name}")?;
    for _ in 0..room {
        text.push_str(" ")?;
    }
    write!(text, "  {about}\n")
}
