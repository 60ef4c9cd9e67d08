//! Verbs: the words that commands begin with, and how each command is written.
ghost use Rattle.std.specs.Prelude.{◌≡◌, option_map};
ghost use Rattle.script_lines.specs.Verb.{verb_of, after_where, whole_verb, leading};

use crate::operand::Operand;
use crate::words::cut;

/// What a command begins with: a word, or the two words `delete where`.
#[derive(Clone, Copy, Debug, PartialEq, Eq)]
pub enum Verb {
    /// `table`
    Table,
    /// `append`
    Append,
    /// `insert`
    Insert,
    /// `delete`
    Delete,
    /// `delete where`
    DeleteWhere,
    /// `merge`
    Merge,
    /// `ask`
    Ask,
    /// `serve`
    Serve,
    /// `take`
    Take,
    /// `recode`
    Recode,
    /// `open`
    Open,
    /// `export`
    Export,
    /// `query`
    Query,
}

impl Verb {
    /// The verb that a word is; `delete where` is two words.
    pub fn named(word: &str) -> Option<Verb>
        ensures { result ≡ verb_of word.now }
    {
        match word {
            "table" => Some(Verb::Table),
            "append" => Some(Verb::Append),
            "insert" => Some(Verb::Insert),
            "delete" => Some(Verb::Delete),
            "merge" => Some(Verb::Merge),
            "ask" => Some(Verb::Ask),
            "serve" => Some(Verb::Serve),
            "take" => Some(Verb::Take),
            "recode" => Some(Verb::Recode),
            "open" => Some(Verb::Open),
            "export" => Some(Verb::Export),
            "query" => Some(Verb::Query),
            _ => None,
        }
    }

    /// The verb with the words that follow it, the first of which is a delete's `where`.
    #[tactic(auto, unfolding(crate::specs::Verb::whole_verb))]
    pub fn whole<'a>(self, text: &'a str) -> (Verb, &'a str)
        ensures { (result.0, result.1.now) ≡ whole_verb self text.now }
    {
        match self {
            Verb::Delete => match after_where(text) {
                None => (Verb::Delete, text),
                Some(rest) => (Verb::DeleteWhere, rest),
            },
            verb => (verb, text),
        }
    }

    /// How the command is written.
    pub fn form(self) -> Form {
        match self {
            Verb::Table => TABLE,
            Verb::Append => APPEND,
            Verb::Insert => INSERT,
            Verb::Delete => DELETE,
            Verb::DeleteWhere => DELETE_WHERE,
            Verb::Merge => MERGE,
            Verb::Ask => ASK,
            Verb::Serve => SERVE,
            Verb::Take => TAKE,
            Verb::Recode => RECODE,
            Verb::Open => OPEN,
            Verb::Export => EXPORT,
            Verb::Query => QUERY,
        }
    }
}

/// What follows the word `where` and its space at the start of a text.
#[tactic(auto, unfolding(crate::specs::Verb::after_where))]
fn after_where(text: &str) -> Option<&str>
    ensures { option_map (λ rest. rest.now) result ≡ after_where text.now }
{
    let (word, rest) = cut(text, ' ')?;
    if word == "where" { Some(rest) } else { None }
}

/// The verb that begins a line, and the words that follow it, each after a space.
#[tactic(auto, unfolding(crate::specs::Verb::leading))]
pub fn leading(line: &str) -> Option<(Verb, &str)>
    ensures { option_map (λ led. (led.0, led.1.now)) result ≡ leading line.now }
{
    let (word, rest) = cut(line, ' ')?;
    let verb = Verb::named(word)?;
    Some(verb.whole(rest))
}

/// How a command is written.
#[derive(Clone, Copy)]
pub struct Form {
    /// All of it, in words for people.
    pub usage: &'static str,
    /// What follows its verb, but for the last: a word each.
    pub operands: &'static [Operand],
    /// The last, which is the rest of the line.
    pub last: Operand,
}

const TABLE: Form = Form {
    usage: "a table is written table N NAME COL TYPE [COL TYPE]..",
    operands: &[Operand::Replicas, Operand::Name],
    last: Operand::Columns,
};

const APPEND: Form = Form {
    usage: "an append is written append R (V,..),(V,..)",
    operands: &[Operand::Replica],
    last: Operand::Rows,
};

const INSERT: Form = Form {
    usage: "an insert is written insert R O.N (V,..),(V,..)",
    operands: &[Operand::Replica, Operand::Batch],
    last: Operand::Rows,
};

const DELETE: Form = Form {
    usage: "a delete is written delete R O.N FIRST LAST or delete where R COND",
    operands: &[Operand::Replica, Operand::Batch, Operand::Ordinal],
    last: Operand::Ordinal,
};

const DELETE_WHERE: Form = Form {
    usage: "a delete by a condition is written delete where R COND",
    operands: &[Operand::Replica],
    last: Operand::Condition,
};

const MERGE: Form = Form {
    usage: "a merge is written merge R Q",
    operands: &[Operand::Replica],
    last: Operand::Replica,
};

const ASK: Form = Form {
    usage: "an ask is written ask R, R being a replica's number",
    operands: &[],
    last: Operand::Replica,
};

const SERVE: Form = Form {
    usage: "a serve is written serve R M",
    operands: &[Operand::Replica],
    last: Operand::Message,
};

const TAKE: Form = Form {
    usage: "a take is written take R M",
    operands: &[Operand::Replica],
    last: Operand::Message,
};

const RECODE: Form = Form {
    usage: "a recode is written recode R O.N COLUMN VECTOR CODING",
    operands: &[
        Operand::Replica,
        Operand::Batch,
        Operand::Place,
        Operand::Place,
    ],
    last: Operand::Coding,
};

const OPEN: Form = Form {
    usage: "an open is written open R HEX",
    operands: &[Operand::Replica],
    last: Operand::File,
};

const EXPORT: Form = Form {
    usage: "an export is written export R, R being a replica's number",
    operands: &[],
    last: Operand::Replica,
};

const QUERY: Form = Form {
    usage: "a query is written query R SQL",
    operands: &[Operand::Replica],
    last: Operand::Sql,
};
