//! The commands of the program by their words, and the words that each takes.

use clap::error::ErrorKind;

/// A command.
#[derive(Clone, Copy, Debug, PartialEq, Eq)]
pub(crate) enum Verb {
    Run,
    Create,
    Import,
    Delete,
    DeleteRows,
    Forget,
    Query,
    Partial,
    Combine,
    Finish,
    Dump,
    Inspect,
    Summary,
    Offer,
    Apply,
    Check,
    Merge,
    Spread,
    Pack,
}

/// All commands, in the order of the help.
pub(crate) const VERBS: [Verb; 19] = [
    Verb::Create,
    Verb::Import,
    Verb::Query,
    Verb::Partial,
    Verb::Combine,
    Verb::Finish,
    Verb::Delete,
    Verb::DeleteRows,
    Verb::Forget,
    Verb::Dump,
    Verb::Inspect,
    Verb::Summary,
    Verb::Offer,
    Verb::Apply,
    Verb::Check,
    Verb::Merge,
    Verb::Spread,
    Verb::Pack,
    Verb::Run,
];

impl Verb {
    /// The command's word.
    pub(crate) fn name<'a>(self) -> &'a str {
        match self {
            Verb::Run => "run",
            Verb::Create => "create",
            Verb::Import => "import",
            Verb::Delete => "delete",
            Verb::DeleteRows => "delete-rows",
            Verb::Forget => "forget",
            Verb::Query => "query",
            Verb::Partial => "partial",
            Verb::Combine => "combine",
            Verb::Finish => "finish",
            Verb::Dump => "dump",
            Verb::Inspect => "inspect",
            Verb::Summary => "summary",
            Verb::Offer => "offer",
            Verb::Apply => "apply",
            Verb::Check => "check",
            Verb::Merge => "merge",
            Verb::Spread => "spread",
            Verb::Pack => "pack",
        }
    }

    /// The command of this word.
    pub(crate) fn named(name: &str) -> Option<Verb> {
        for verb in VERBS {
            if verb.name() == name {
                return Some(verb);
            }
        }
        None
    }

    /// The place of a condition among the words that are no options, if the command takes one there.
    pub(crate) fn place_of_condition(self) -> Option<usize> {
        match self {
            Verb::Delete => Some(1),
            _ => None,
        }
    }

    /// The place of the first query among the words that are no options, if the command takes queries.
    pub(crate) fn place_of_query(self) -> Option<usize> {
        match self {
            Verb::Query | Verb::Partial => Some(1),
            _ => None,
        }
    }

    /// What to do about this many operands, if the command takes another number of them and it is known.
    pub(crate) fn cure_of_count(self, count: usize) -> Option<(ErrorKind, &'static str)> {
        let few = ErrorKind::MissingRequiredArgument;
        let many = ErrorKind::UnknownArgument;
        match (self, count) {
            (Verb::Import, 1) => Some((few, "CSV is missing: give files, or - for standard input")),
            (Verb::Query, 1) => Some((
                few,
                "SQL is missing: give queries, or - for lines of standard input",
            )),
            (Verb::Apply, 1) => Some((
                few,
                "OFFER is missing: give files, or - for standard input",
            )),
            (Verb::Offer, 1) => Some((
                few,
                "SUMMARY is missing: give a file, or - for standard input",
            )),
            (Verb::Combine, 0) => Some((
                few,
                "PARTIAL is missing: give files, or - for standard input",
            )),
            (Verb::Finish, 0) => Some((
                few,
                "PARTIAL is missing: give a file, or - for standard input",
            )),
            (Verb::Delete, 3..) => Some((
                many,
                "COND is one word of the command line: put the condition into quotes",
            )),
            (Verb::Partial, 3..) => Some((
                many,
                "SQL is one word of the command line: put the query into quotes",
            )),
            _ => None,
        }
    }
}
