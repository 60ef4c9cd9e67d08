//! What a command line can ask for.

use crate::verb::Verb;
use answer_formats::{Format, ReportForm};
use table_model::{BatchName, ColType, RowName};

/// What an input is read from.
#[derive(Clone, Copy, Debug, PartialEq, Eq)]
pub enum Source<'a> {
    /// Standard input.
    Input,
    /// The file of this name.
    File(&'a str),
}

impl<'a> Source<'a> {
    /// The source of this name: `-` is standard input.
    pub fn named(name: &'a str) -> Source<'a> {
        if name == "-" {
            Source::Input
        } else {
            Source::File(name)
        }
    }

    /// The file's name, or "standard input", as sentences say it.
    pub fn name(self) -> &'a str {
        match self {
            Source::Input => "standard input",
            Source::File(name) => name,
        }
    }
}

/// What queries are read from.
#[derive(Debug, Drop)]
pub enum Queries<'a> {
    /// In the lines of standard input.
    Lines,
    /// In the command line; there is at least one.
    Texts(Vec<&'a str>),
}

/// How texts of comma-separated values are written.
#[derive(Clone, Copy, Debug, PartialEq, Eq)]
pub struct CsvForm<'a> {
    /// Whether each text's first line has the columns' names.
    pub has_header: bool,
    /// The byte between two fields.
    pub separator: u8,
    /// A word that is a null besides the usual ones.
    pub null_word: Option<&'a str>,
    /// What the fields of a line are, if the header does not say it: names of columns, or `-` for a field that is passed over, with
    /// a comma between each two.
    pub columns: Option<&'a str>,
    /// Whether the last line of each text has to have its end.
    pub is_whole: bool,
}

/// `lanes run [--explain] [SCRIPT]`: a script's replies, written to standard output.
#[derive(Debug, Drop)]
pub struct Run<'a> {
    /// What the script is read from.
    pub source: Source<'a>,
    /// Whether standard error says why each refused line is refused.
    pub is_explained: bool,
}

/// `lanes create [--quiet] FILE TABLE COL TYPE [COL TYPE]..`: the canonical file of an empty table, or a folder that has it as its
/// one part.
#[derive(Debug, Drop)]
pub struct Create<'a> {
    /// The name of the file that is made, or of the folder if it ends in `/`.
    pub file: &'a str,
    /// The table's name.
    pub table: &'a str,
    /// The names and types of its columns, at least one.
    pub columns: Vec<(&'a str, ColType)>,
    /// Whether nothing is printed if all is well.
    pub is_quiet: bool,
}

/// `lanes import [--batch O.N] [--no-header] [--separator C] [--null WORD] [--columns NAMES] [--whole-lines] [--quiet] FILE CSV..`:
/// the rows of texts, inserted as new batches.
#[derive(Debug, Drop)]
pub struct Import<'a> {
    /// The file's name.
    pub file: &'a str,
    /// What the texts are read from, at least one.
    pub csvs: Vec<Source<'a>>,
    /// The name of the first batch, if it isn't drawn.
    pub first: Option<BatchName>,
    /// How the texts are written.
    pub form: CsvForm<'a>,
    /// Whether nothing is printed if all is well.
    pub is_quiet: bool,
}

/// `lanes delete [--quiet] FILE COND`: the rows for which a condition is true, deleted.
#[derive(Debug, Drop)]
pub struct Delete<'a> {
    /// The file's name.
    pub file: &'a str,
    /// The condition.
    pub condition: &'a str,
    /// Whether nothing is printed if all is well.
    pub is_quiet: bool,
}

/// `lanes delete-rows [--held] [--quiet] FILE O.N FIRST LAST`: rows deleted by their names, held or not, or only if their batch is
/// held.
#[derive(Debug, Drop)]
pub struct DeleteRows<'a> {
    /// The file's name.
    pub file: &'a str,
    /// The first row.
    pub first: RowName,
    /// The last row's ordinal.
    pub last: u16,
    /// Whether they are deleted only if their batch is held.
    pub is_held: bool,
    /// Whether nothing is printed if all is well.
    pub is_quiet: bool,
}

/// `lanes forget [--quiet] FILE`: the batches of which every row is deleted, dropped.
#[derive(Debug, Drop)]
pub struct Forget<'a> {
    /// The file's name.
    pub file: &'a str,
    /// Whether nothing is printed if all is well.
    pub is_quiet: bool,
}

/// `lanes query [--format FORMAT] FILE SQL..`: the answers of queries over a file, one after another.
#[derive(Debug, Drop)]
pub struct Query<'a> {
    /// The file's name.
    pub file: &'a str,
    /// The queries.
    pub queries: Queries<'a>,
    /// The form of the answers.
    pub format: Format,
}

/// `lanes partial FILE SQL`: what a file gives to the answer of a query over several files, as bytes.
#[derive(Debug, Drop)]
pub struct Partial<'a> {
    /// What the file is read from. Its name may be that of a folder.
    pub file: Source<'a>,
    /// The query.
    pub sql: &'a str,
}

/// `lanes combine PARTIAL..`: the partial answer of all files that some partial answers are of.
#[derive(Debug, Drop)]
pub struct Combine<'a> {
    /// What the partial answers are read from, at least one.
    pub partials: Vec<Source<'a>>,
}

/// `lanes finish [--expect SUMMARY].. [--format FORMAT] PARTIAL`: the answer of the query that a partial answer is of.
#[derive(Debug, Drop)]
pub struct Finish<'a> {
    /// What the partial answer is read from.
    pub partial: Source<'a>,
    /// What the summaries are read from whose batches have to be counted.
    pub expected: Vec<Source<'a>>,
    /// The form of the answer.
    pub format: Format,
}

/// `lanes dump [--names] [--where COND] [--columns NAMES] FILE`: the live rows as comma-separated values, or some of them, in all
/// columns or some.
#[derive(Debug, Drop)]
pub struct Dump<'a> {
    /// The file's name.
    pub file: &'a str,
    /// Whether each row's name comes before its values.
    pub has_names: bool,
    /// The condition that is true at the rows; empty for all rows.
    pub condition: &'a str,
    /// The names of the columns, with a comma between each two; empty for all columns.
    pub columns: &'a str,
}

/// `lanes inspect [--batches] [--digest] [--format FORMAT] FILE`: what a file holds and how it is coded, or a list of its batches; or what
/// a partial answer or a summary covers.
#[derive(Debug, Drop)]
pub struct Inspect<'a> {
    /// The file's name.
    pub file: &'a str,
    /// Whether the batches are listed instead.
    pub has_batches: bool,
    /// Whether the digest of what the file holds is written too; of a list of batches, the digest of each.
    pub has_digest: bool,
    /// The form of the report.
    pub form: ReportForm,
}

/// `lanes summary FILE`: the names of the batches that a file holds, as a message.
#[derive(Debug, Drop)]
pub struct Summary<'a> {
    /// The file's name.
    pub file: &'a str,
}

/// `lanes offer FILE SUMMARY`: what a file has beyond a summary, as a message.
#[derive(Debug, Drop)]
pub struct Offer<'a> {
    /// The file's name.
    pub file: &'a str,
    /// What the summary is read from.
    pub summary: Source<'a>,
}

/// `lanes apply [--quiet] FILE OFFER..`: what offers bring, applied to a file.
#[derive(Debug, Drop)]
pub struct Apply<'a> {
    /// The file's name.
    pub file: &'a str,
    /// What the offers are read from, at least one.
    pub offers: Vec<Source<'a>>,
    /// Whether nothing is printed if all is well.
    pub is_quiet: bool,
}

/// `lanes check [--digest] FILE`: whether a file is a canonical one, and how much it holds.
#[derive(Debug, Drop)]
pub struct Check<'a> {
    /// The file's name.
    pub file: &'a str,
    /// Whether the digest of what it holds is printed too.
    pub has_digest: bool,
}

/// `lanes pack [--all] [--quiet] FOLDER`: some parts of a folder, or all, joined into one.
#[derive(Debug, Drop)]
pub struct Pack<'a> {
    /// The folder's name.
    pub folder: &'a str,
    /// Whether all parts are joined.
    pub is_all: bool,
    /// Whether nothing is printed if all is well.
    pub is_quiet: bool,
}

/// `lanes merge [--replace] [--quiet] OUT IN..`: the canonical file of what all of some files hold.
#[derive(Debug, Drop)]
pub struct Merge<'a> {
    /// The name of the file that is written, or of the folder that is made if it ends in `/`.
    pub out: &'a str,
    /// The names of the files that are merged, at least one.
    pub files: Vec<&'a str>,
    /// Whether a file that is there is replaced, whatever it holds.
    pub is_replacing: bool,
    /// Whether nothing is printed if all is well.
    pub is_quiet: bool,
}

/// `lanes spread [--quiet] FILE OUT..`: what a file holds, spread over new files that share no batch.
#[derive(Debug, Drop)]
pub struct Spread<'a> {
    /// The file's name. It may be that of a folder.
    pub file: &'a str,
    /// The names of the files that are made, at least one; of folders if they end in `/`.
    pub outs: Vec<&'a str>,
    /// Whether nothing is printed if all is well.
    pub is_quiet: bool,
}

/// What the command line asks for.
#[derive(Debug, Drop)]
pub enum Request<'a> {
    /// `lanes run`.
    Run(Run<'a>),
    /// `lanes create`.
    Create(Create<'a>),
    /// `lanes import`.
    Import(Import<'a>),
    /// `lanes delete`.
    Delete(Delete<'a>),
    /// `lanes delete-rows`.
    DeleteRows(DeleteRows<'a>),
    /// `lanes forget`.
    Forget(Forget<'a>),
    /// `lanes query`.
    Query(Query<'a>),
    /// `lanes partial`.
    Partial(Partial<'a>),
    /// `lanes combine`.
    Combine(Combine<'a>),
    /// `lanes finish`.
    Finish(Finish<'a>),
    /// `lanes dump`.
    Dump(Dump<'a>),
    /// `lanes inspect`.
    Inspect(Inspect<'a>),
    /// `lanes summary`.
    Summary(Summary<'a>),
    /// `lanes offer`.
    Offer(Offer<'a>),
    /// `lanes apply`.
    Apply(Apply<'a>),
    /// `lanes check`.
    Check(Check<'a>),
    /// `lanes pack`.
    Pack(Pack<'a>),
    /// `lanes merge`.
    Merge(Merge<'a>),
    /// `lanes spread`.
    Spread(Spread<'a>),
}

impl<'a> Request<'a> {
    /// What the request is about: the file, the folder or the input that it reads or changes; of several partial answers the first.
    pub fn subject(&self) -> &'a str {
        match self {
            Request::Run(asked) => asked.source.name(),
            Request::Create(asked) => asked.file,
            Request::Import(asked) => asked.file,
            Request::Delete(asked) => asked.file,
            Request::DeleteRows(asked) => asked.file,
            Request::Forget(asked) => asked.file,
            Request::Query(asked) => asked.file,
            Request::Partial(asked) => asked.file.name(),
            Request::Combine(asked) => match asked.partials.as_slice().first() {
                Some(first) => first.name(),
                None => "",
            },
            Request::Finish(asked) => asked.partial.name(),
            Request::Dump(asked) => asked.file,
            Request::Inspect(asked) => asked.file,
            Request::Summary(asked) => asked.file,
            Request::Offer(asked) => asked.file,
            Request::Apply(asked) => asked.file,
            Request::Check(asked) => asked.file,
            Request::Pack(asked) => asked.folder,
            Request::Merge(asked) => asked.out,
            Request::Spread(asked) => asked.file,
        }
    }

    /// The command's word.
    pub fn command(&self) -> &'static str {
        self.verb().name()
    }

    /// The command.
    pub(crate) fn verb(&self) -> Verb {
        match self {
            Request::Run(_) => Verb::Run,
            Request::Create(_) => Verb::Create,
            Request::Import(_) => Verb::Import,
            Request::Delete(_) => Verb::Delete,
            Request::DeleteRows(_) => Verb::DeleteRows,
            Request::Forget(_) => Verb::Forget,
            Request::Query(_) => Verb::Query,
            Request::Partial(_) => Verb::Partial,
            Request::Combine(_) => Verb::Combine,
            Request::Finish(_) => Verb::Finish,
            Request::Dump(_) => Verb::Dump,
            Request::Inspect(_) => Verb::Inspect,
            Request::Summary(_) => Verb::Summary,
            Request::Offer(_) => Verb::Offer,
            Request::Apply(_) => Verb::Apply,
            Request::Check(_) => Verb::Check,
            Request::Pack(_) => Verb::Pack,
            Request::Merge(_) => Verb::Merge,
            Request::Spread(_) => Verb::Spread,
        }
    }

    /// Whether nothing is printed if all is well.
    pub fn is_quiet(&self) -> bool {
        match self {
            Request::Create(asked) => asked.is_quiet,
            Request::Import(asked) => asked.is_quiet,
            Request::Delete(asked) => asked.is_quiet,
            Request::DeleteRows(asked) => asked.is_quiet,
            Request::Forget(asked) => asked.is_quiet,
            Request::Apply(asked) => asked.is_quiet,
            Request::Pack(asked) => asked.is_quiet,
            Request::Merge(asked) => asked.is_quiet,
            Request::Spread(asked) => asked.is_quiet,
            _ => false,
        }
    }
}
