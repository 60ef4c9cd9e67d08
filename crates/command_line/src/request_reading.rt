//! What a command line asks for, once `clap` has read it.
ghost use Rattle.std.specs.Prelude.{IfErr};
ghost use Rattle.command_line.specs.Outcome.{IsUnread};

use crate::command_faults::fault;
use crate::commands::commands;
use crate::fault::Fault;
use crate::misplaced::Operands;
use crate::requests::{
    Apply, Check, Combine, Create, CsvForm, Delete, DeleteRows, Dump, Finish, Forget, Import,
    Inspect, Merge, Offer, Pack, Partial, Queries, Query, Request, Run, Source, Spread, Summary,
};
use crate::verb::Verb;
use crate::{program_help, words};
use answer_formats::Format;
use clap::ArgMatches;
use clap::error::ErrorKind;
use std::alloc::{AllocError, Global};
use table_model::{BatchName, RowName};

/// What is wrong with a separator.
const SEPARATOR_FAULT: &str =
    "C is one ASCII character, or \\t for a tab; no letter, no digit, and none of \" - _ \\ and a line's end";

/// What the arguments ask for; otherwise there is no memory for it, or the command line has a fault or asks for help.
pub fn read_request<'a>(alloc: Global, words: &'a [String]) -> Result<Request<'a>, Fault>
    ensures { IfErr result IsUnread }
{
    check_words(alloc, words)?;
    if program_help::is_asked(words) {
        return Err(help_asked(alloc, words));
    }
    let matches = commands(alloc)?.try_get_matches_from(words)?;
    let Some((name, given)) = matches.subcommand() else {
        return Err(fault(
            commands(alloc)?,
            ErrorKind::MissingSubcommand,
            "a command is missing",
        ));
    };
    match Verb::named(name) {
        Some(verb) => verb.request(alloc, given),
        None => Err(fault(
            commands(alloc)?,
            ErrorKind::InvalidSubcommand,
            "there is no such command",
        )),
    }
}

/// Refuses a word behind a command's name that begins with a hyphen, if it is no option, and no condition is wanted there; and operands
/// that are too few or too many, if it is known what to do.
fn check_words(alloc: Global, words: &[String]) -> Result<(), Fault>
    ensures { IfErr result IsUnread }
{
    let [_, name, rest @ ..] = words else {
        return Ok(());
    };
    let Some(verb) = Verb::named(name.as_str()) else {
        return Ok(());
    };
    let command = verb.command(alloc)?;
    let operands = Operands::of(&command, rest, verb.place_of_condition());
    if let Some(misplaced) = operands.misplaced {
        return Err(verb.fault_of_word(alloc, &command, misplaced));
    }
    if operands.is_help_asked {
        return Ok(());
    }
    match verb.cure_of_count(operands.count) {
        Some((kind, message)) => Err(verb.fault_of_kind(alloc, kind, message)),
        None => Ok(()),
    }
}

/// The help of the program, as a command line that asks for it has it.
fn help_asked(alloc: Global, words: &[String]) -> Fault
    ensures { IsUnread result }
{
    match shown_help(alloc, words) {
        Err(fault) => fault,
        Ok(()) => match commands(alloc) {
            Ok(command) => fault(
                command,
                ErrorKind::MissingSubcommand,
                "a command is missing",
            ),
            Err(lacking) => Fault::from(lacking),
        },
    }
}

/// Has `clap` print the program's help for a command line without a command, which `clap` answers as an error.
fn shown_help(alloc: Global, words: &[String]) -> Result<(), Fault>
    ensures { IfErr result IsUnread }
{
    let text = program_help::text(alloc)?;
    let command = commands(alloc)?.override_help(text.as_str());
    let (asked, _) = words.split_at(words.len().min(2));
    let _ = command.try_get_matches_from(asked)?;
    Ok(())
}

impl Verb {
    /// What the command's arguments ask for; otherwise memory runs out, or one of them has a fault.
    fn request<'a>(self, alloc: Global, given: &ArgMatches<'a>) -> Result<Request<'a>, Fault>
        ensures { IfErr result IsUnread }
    {
        match self {
            Verb::Run => Ok(run_request(given)),
            Verb::Create => self.create_request(alloc, given),
            Verb::Import => self.import_request(alloc, given),
            Verb::Delete => Ok(Request::Delete(Delete {
                file: text_of(given, "FILE"),
                condition: text_of(given, "COND"),
                is_quiet: given.get_flag("quiet"),
            })),
            Verb::DeleteRows => self.delete_rows_request(alloc, given),
            Verb::Forget => Ok(Request::Forget(Forget {
                file: text_of(given, "FILE"),
                is_quiet: given.get_flag("quiet"),
            })),
            Verb::Query => self.query_request(alloc, given),
            Verb::Partial => Ok(Request::Partial(Partial {
                file: Source::named(text_of(given, "FILE")),
                sql: text_of(given, "SQL"),
            })),
            Verb::Combine => self.combine_request(alloc, given),
            Verb::Finish => self.finish_request(alloc, given),
            Verb::Dump => Ok(Request::Dump(Dump {
                file: text_of(given, "FILE"),
                has_names: given.get_flag("names"),
                condition: text_of(given, "where"),
                columns: text_of(given, "columns"),
            })),
            Verb::Inspect => self.inspect_request(alloc, given),
            Verb::Summary => Ok(Request::Summary(Summary {
                file: text_of(given, "FILE"),
            })),
            Verb::Offer => Ok(Request::Offer(Offer {
                file: text_of(given, "FILE"),
                summary: Source::named(text_of(given, "SUMMARY")),
            })),
            Verb::Apply => self.apply_request(alloc, given),
            Verb::Check => Ok(Request::Check(Check {
                file: text_of(given, "FILE"),
                has_digest: given.get_flag("digest"),
            })),
            Verb::Merge => Ok(Request::Merge(Merge {
                out: text_of(given, "OUT"),
                files: texts_of(alloc, given, "IN")?,
                is_replacing: given.get_flag("replace"),
                is_quiet: given.get_flag("quiet"),
            })),
            Verb::Spread => Ok(Request::Spread(Spread {
                file: text_of(given, "FILE"),
                outs: texts_of(alloc, given, "OUT")?,
                is_quiet: given.get_flag("quiet"),
            })),
            Verb::Pack => Ok(Request::Pack(Pack {
                folder: text_of(given, "FOLDER"),
                is_all: given.get_flag("all"),
                is_quiet: given.get_flag("quiet"),
            })),
        }
    }

    /// What `lanes create` asks for.
    fn create_request<'a>(self, alloc: Global, given: &ArgMatches<'a>) -> Result<Request<'a>, Fault>
        ensures { IfErr result IsUnread }
    {
        let columns = given.get_strs("COLUMNS").unwrap_or(&[]);
        match words::columns(alloc, columns)? {
            Ok(columns) => Ok(Request::Create(Create {
                file: text_of(given, "FILE"),
                table: text_of(given, "TABLE"),
                columns,
                is_quiet: given.get_flag("quiet"),
            })),
            Err(fault) => Err(self.fault_of_column(alloc, fault)),
        }
    }

    /// What `lanes import` asks for.
    fn import_request<'a>(self, alloc: Global, given: &ArgMatches<'a>) -> Result<Request<'a>, Fault>
        ensures { IfErr result IsUnread }
    {
        let first = match given.get_str("batch") {
            None => None,
            Some(text) => Some(self.batch_name(alloc, text)?),
        };
        let form = self.csv_form(alloc, given)?;
        let names = given.get_strs("CSV").unwrap_or(&[]);
        let csvs = words::sources(alloc, names)?;
        if words::inputs(csvs.as_slice()) > 1 {
            return Err(self.fault(alloc, "only one CSV can be -"));
        }
        Ok(Request::Import(Import {
            file: text_of(given, "FILE"),
            csvs,
            first,
            form,
            is_quiet: given.get_flag("quiet"),
        }))
    }

    /// How the texts of an import are written.
    fn csv_form<'a>(self, alloc: Global, given: &ArgMatches<'a>) -> Result<CsvForm<'a>, Fault>
        ensures { IfErr result IsUnread }
    {
        let separator = match given.get_str("separator") {
            None => Some(b','),
            Some(text) => words::separator(text),
        };
        let Some(separator) = separator else {
            return Err(self.fault(alloc, SEPARATOR_FAULT));
        };
        let null_word = given.get_str("null");
        if null_word.is_some_and(words::is_number) {
            return Err(self.fault(alloc, "WORD is a number, so it can't be a null too"));
        }
        let columns = given.get_str("columns").filter(|words| !words.is_empty());
        if let Some(message) = columns.and_then(words::fault_of_columns) {
            return Err(self.fault(alloc, message));
        }
        Ok(CsvForm {
            has_header: !given.get_flag("no-header"),
            separator,
            null_word,
            columns,
            is_whole: given.get_flag("whole-lines"),
        })
    }

    /// The name of a batch in an argument.
    fn batch_name(self, alloc: Global, text: &str) -> Result<BatchName, Fault>
        ensures { IfErr result IsUnread }
    {
        match words::batch_name(text) {
            Some(name) => Ok(name),
            None => Err(self.fault_of_number(
                alloc,
                text,
                "is no name of a batch: a batch is named O.N, two numbers of 1 to 10 digits, each at most 4294967295",
            )),
        }
    }

    /// The ordinal in an argument.
    fn ordinal(self, alloc: Global, text: &str) -> Result<u16, Fault>
        ensures { IfErr result IsUnread }
    {
        match words::ordinal(text) {
            Some(ordinal) => Ok(ordinal),
            None => Err(self.fault_of_number(
                alloc,
                text,
                "is no ordinal: FIRST and LAST are numbers of 1 to 5 digits, each at most 65535",
            )),
        }
    }

    /// What `lanes delete-rows` asks for.
    fn delete_rows_request<'a>(
        self,
        alloc: Global,
        given: &ArgMatches<'a>,
    ) -> Result<Request<'a>, Fault>
        ensures { IfErr result IsUnread }
    {
        let batch = self.batch_name(alloc, text_of(given, "O.N"))?;
        let ordinal = self.ordinal(alloc, text_of(given, "FIRST"))?;
        let last = self.ordinal(alloc, text_of(given, "LAST"))?;
        Ok(Request::DeleteRows(DeleteRows {
            file: text_of(given, "FILE"),
            first: RowName { batch, ordinal },
            last,
            is_held: given.get_flag("held"),
            is_quiet: given.get_flag("quiet"),
        }))
    }

    /// The form of answers in an argument.
    fn format(self, alloc: Global, given: &ArgMatches<'_>) -> Result<Format, Fault>
        ensures { IfErr result IsUnread }
    {
        match words::format(given.get_str("format").unwrap_or("text")) {
            Some(format) => Ok(format),
            None => Err(self.fault(alloc, "FORMAT is text, csv, json or table")),
        }
    }

    /// What `lanes query` asks for.
    fn query_request<'a>(self, alloc: Global, given: &ArgMatches<'a>) -> Result<Request<'a>, Fault>
        ensures { IfErr result IsUnread }
    {
        let format = self.format(alloc, given)?;
        let texts = texts_of(alloc, given, "SQL")?;
        let queries = match texts.as_slice() {
            ["-"] => Queries::Lines,
            given if given.contains(&"-") => {
                return Err(self.fault(alloc, "SQL that is - is the only SQL"));
            }
            _ => Queries::Texts(texts),
        };
        Ok(Request::Query(Query {
            file: text_of(given, "FILE"),
            queries,
            format,
        }))
    }

    /// What `lanes combine` asks for.
    fn combine_request<'a>(
        self,
        alloc: Global,
        given: &ArgMatches<'a>,
    ) -> Result<Request<'a>, Fault>
        ensures { IfErr result IsUnread }
    {
        let names = given.get_strs("PARTIAL").unwrap_or(&[]);
        let partials = words::sources(alloc, names)?;
        if words::inputs(partials.as_slice()) > 1 {
            return Err(self.fault(alloc, "only one PARTIAL can be -"));
        }
        Ok(Request::Combine(Combine { partials }))
    }

    /// What `lanes finish` asks for.
    fn finish_request<'a>(self, alloc: Global, given: &ArgMatches<'a>) -> Result<Request<'a>, Fault>
        ensures { IfErr result IsUnread }
    {
        let format = self.format(alloc, given)?;
        let partial = Source::named(text_of(given, "PARTIAL"));
        let expected = words::sources(alloc, given.get_strs("expect").unwrap_or(&[]))?;
        if words::inputs(expected.as_slice()).saturating_add(words::inputs(&[partial])) > 1 {
            return Err(self.fault(alloc, "only one of SUMMARY and PARTIAL can be -"));
        }
        Ok(Request::Finish(Finish {
            partial,
            expected,
            format,
        }))
    }

    /// What `lanes inspect` asks for.
    fn inspect_request<'a>(
        self,
        alloc: Global,
        given: &ArgMatches<'a>,
    ) -> Result<Request<'a>, Fault>
        ensures { IfErr result IsUnread }
    {
        match words::report_form(given.get_str("format").unwrap_or("text")) {
            Some(form) => Ok(Request::Inspect(Inspect {
                file: text_of(given, "FILE"),
                has_batches: given.get_flag("batches"),
                has_digest: given.get_flag("digest"),
                form,
            })),
            None => Err(self.fault(alloc, "FORMAT is text or json")),
        }
    }

    /// What `lanes apply` asks for.
    fn apply_request<'a>(self, alloc: Global, given: &ArgMatches<'a>) -> Result<Request<'a>, Fault>
        ensures { IfErr result IsUnread }
    {
        let names = given.get_strs("OFFER").unwrap_or(&[]);
        let offers = words::sources(alloc, names)?;
        if words::inputs(offers.as_slice()) > 1 {
            return Err(self.fault(alloc, "only one OFFER can be -"));
        }
        Ok(Request::Apply(Apply {
            file: text_of(given, "FILE"),
            offers,
            is_quiet: given.get_flag("quiet"),
        }))
    }
}

/// The word that was given for an argument; empty if none was.
fn text_of<'a>(given: &ArgMatches<'a>, argument: &str) -> &'a str {
    given.get_str(argument).unwrap_or("")
}

/// The words that were given for an argument.
fn texts_of<'a>(
    alloc: Global,
    given: &ArgMatches<'a>,
    argument: &str,
) -> Result<Vec<&'a str>, AllocError> {
    let mut texts = Vec::new(alloc);
    for text in given.get_strs(argument).unwrap_or(&[]) {
        texts.push(*text)?;
    }
    Ok(texts)
}

/// What `lanes run` asks for: a script from a file, or from standard input if none is named or its name is `-`.
fn run_request<'a>(given: &ArgMatches<'a>) -> Request<'a> {
    let source = match given.get_str("SCRIPT") {
        Some(name) => Source::named(name),
        None => Source::Input,
    };
    Request::Run(Run {
        source,
        is_explained: given.get_flag("explain"),
    })
}
