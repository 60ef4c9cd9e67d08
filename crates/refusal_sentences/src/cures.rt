//! What a query does not have, by the word or the symbol that it is refused at, and what to do instead.

use table_model::same_word;

/// A word or a symbol, and what to do instead.
type Cure = (&'static [u8], &'static str);

const NO_JOIN: &str = "there are no joins: a query asks one table";

const NO_CASE: &str = "there is no CASE: ask a query for each case, with its condition in WHERE";

const NO_ORDER: &str =
    "there is no ORDER BY: rows ascend by the columns of GROUP BY; pipe the answer through tail -n +2 | sort -t, -k2,2nr (by column 2, largest first)";

const NO_LIMIT: &str =
    "there is no LIMIT: pipe the answer through head -n 4 (the heading and 3 rows)";

const NO_TABLE_CHANGE: &str =
    "a query changes nothing: lanes dump and lanes import move the rows to a table of other columns";

const INSPECT: &str = "a query begins with SELECT; lanes inspect shows the columns";

const NO_PARAMETER: &str = "there are no parameters: write the number itself";

const NO_COMMENT: &str = "there are no comments";

const NO_WINDOW: &str = "there are no windows: GROUP BY makes groups";

const NO_FILTER: &str = "there is no FILTER: ask another query, with the condition in WHERE";

const NO_SUBQUERY: &str = "there are no subqueries: ask them by themselves";

const NO_TOP: &str = "there is no TOP: pipe the answer through head -n 4 (the heading and 3 rows)";

const NO_INTO: &str = "there is no INTO: redirect the answer into a file";

/// What is said of a name in quotes.
pub const NO_QUOTES: &str = "names are not quoted: write the name alone, in either case";

/// What is said of a text in quotes that is a value.
pub const NO_TEXT: &str = "there are no texts: values are whole numbers";

/// What is said of a symbol of arithmetic after an operand.
pub const NO_ARITHMETIC: &str = "there is no arithmetic: compute with the answer";

/// What is said of a number that is not whole.
pub const NO_FRACTION: &str = "numbers are whole: a mean too is compared with a whole number";

/// Words at which a query is refused, since no query has them.
const WORDS: [Cure; 43] = [
    (b"ORDER", NO_ORDER),
    (b"SORT", NO_ORDER),
    (
        b"ASC",
        "rows always ascend by the columns of GROUP BY: leave ASC out",
    ),
    (
        b"DESC",
        "rows always ascend by the columns of GROUP BY: pipe the answer through tail -n +2 | sort -t, -k1,1nr (by column 1, largest first)",
    ),
    (b"LIMIT", NO_LIMIT),
    (b"FETCH", NO_LIMIT),
    (
        b"OFFSET",
        "there is no OFFSET: pipe the answer through tail -n +5 (without the heading and 3 rows)",
    ),
    (b"TOP", NO_TOP),
    (b"JOIN", NO_JOIN),
    (b"INNER", NO_JOIN),
    (b"LEFT", NO_JOIN),
    (b"RIGHT", NO_JOIN),
    (b"FULL", NO_JOIN),
    (b"CROSS", NO_JOIN),
    (b"NATURAL", NO_JOIN),
    (b"UNION", "there is no UNION: ask several queries"),
    (b"EXCEPT", "there is no EXCEPT: ask several queries"),
    (b"INTERSECT", "there is no INTERSECT: ask several queries"),
    (
        b"WITH",
        "there is no WITH: a query begins with SELECT and asks the table itself",
    ),
    (b"CASE", NO_CASE),
    (b"WHEN", NO_CASE),
    (b"ISNULL", "write IS NULL, in two words"),
    (b"NOTNULL", "write IS NOT NULL, in three words"),
    (
        b"LIKE",
        "there are no texts, so no LIKE: values are whole numbers",
    ),
    (b"XOR", "there is no XOR: write it with AND, OR and NOT"),
    (b"EXISTS", NO_SUBQUERY),
    (b"SELECT", NO_SUBQUERY),
    (b"OVER", NO_WINDOW),
    (b"FILTER", NO_FILTER),
    (b"INTO", NO_INTO),
    (
        b"INSERT",
        "a query changes nothing: lanes import inserts rows",
    ),
    (
        b"UPDATE",
        "a query changes nothing: delete rows by lanes delete, and import others",
    ),
    (
        b"REPLACE",
        "a query changes nothing: delete rows by lanes delete, and import others",
    ),
    (
        b"DELETE",
        "a query changes nothing: lanes delete deletes rows",
    ),
    (
        b"TRUNCATE",
        "a query changes nothing: lanes delete deletes rows",
    ),
    (
        b"CREATE",
        "a query changes nothing: lanes create makes a table",
    ),
    (b"ALTER", NO_TABLE_CHANGE),
    (b"RENAME", NO_TABLE_CHANGE),
    (
        b"DROP",
        "a query changes nothing: a table is a file, which is removed as such",
    ),
    (b"SHOW", INSPECT),
    (b"DESCRIBE", INSPECT),
    (b"PRAGMA", INSPECT),
    (
        b"EXPLAIN",
        "there is no EXPLAIN; lanes inspect shows how columns are coded",
    ),
];

/// Words that no query has, but that are taken for names, so that a query is refused after them.
const NAMES: [Cure; 7] = [
    (b"CASE", NO_CASE),
    (b"EXISTS", NO_SUBQUERY),
    (b"FILTER", NO_FILTER),
    (b"INTO", NO_INTO),
    (b"OVER", NO_WINDOW),
    (b"TOP", NO_TOP),
    (b"WHEN", NO_CASE),
];

/// Beginnings of what no query has, or has only in ASCII.
const SYMBOLS: [(&str, &str); 23] = [
    (";", "there is no semicolon: a query ends with its text"),
    ("!", "not equal is written <>"),
    ("\"", NO_QUOTES),
    ("`", NO_QUOTES),
    ("[", NO_QUOTES),
    ("?", NO_PARAMETER),
    (":", NO_PARAMETER),
    ("$", NO_PARAMETER),
    ("@", NO_PARAMETER),
    ("#", NO_COMMENT),
    ("--", NO_COMMENT),
    ("/*", NO_COMMENT),
    ("&&", "and is written AND"),
    ("||", "or is written OR"),
    ("\u{2260}", "not equal is written <>"),
    ("\u{2264}", "at most is written <="),
    ("\u{2265}", "at least is written >="),
    ("\u{2212}", "a minus sign is written -"),
    ("\u{2013}", "a minus sign is written -"),
    ("\u{a0}", "this is a no-break space: write a space"),
    ("\u{200b}", "this is an invisible space: leave it out"),
    ("\u{feff}", "this is a byte order mark: leave it out"),
    (
        "\u{ff1b}",
        "there is no semicolon: a query ends with its text",
    ),
];

/// What begins a value in quotes, or with a word processor's quotation marks also a name.
const QUOTES: [&str; 7] = [
    "'", "\u{201c}", "\u{201d}", "\u{201e}", "\u{ab}", "\u{2018}", "\u{2019}",
];

/// What one of some cures says of a word.
fn said_of(word: &[u8], cures: &[Cure]) -> Option<&'static str> {
    for &(wanted, advice) in cures {
        if same_word(word, wanted) {
            return Some(advice);
        }
    }
    None
}

/// What is said of a word that no query has.
pub fn of_word(word: &[u8]) -> Option<&'static str> {
    said_of(word, &WORDS)
}

/// What is said of a word that no query has and that was taken for a name.
pub fn of_name(word: &[u8]) -> Option<&'static str> {
    said_of(word, &NAMES)
}

/// Whether a text begins with a quotation mark that may be of a value.
pub fn is_quoted(text: &str) -> bool {
    QUOTES.iter().any(|quote| text.starts_with(*quote))
}

/// What is said of a text that no token begins.
pub fn of_beginning(text: &str) -> Option<&'static str> {
    for &(wanted, advice) in &SYMBOLS {
        if text.starts_with(wanted) {
            return Some(advice);
        }
    }
    None
}
