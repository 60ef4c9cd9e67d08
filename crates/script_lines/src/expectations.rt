//! What is expected in place of a line that is refused as BadLine, in words for people.

use crate::line::is_printable;
use crate::verb::{Form, Verb};
use crate::words::cut;

const BYTES: &str = "a line has printable ASCII characters alone";

const FIRST: &str = "the first line makes the table: table N NAME COL TYPE [COL TYPE]..";

const ONE_TABLE: &str = "there is one table, and it is made already";

const VERBS: &str =
    "a line begins with append, insert, delete, merge, ask, serve, take, recode, open, export or query, and words are separated by one space each";

/// What was expected in place of a line that is not a command, before or after there is a table.
pub fn expected(line: &[u8], has_table: bool) -> &'static str {
    if !is_printable(line) {
        return BYTES;
    }
    let Ok(text) = str::from_utf8(line) else {
        return BYTES;
    };
    let (word, rest) = first_word(text);
    match Verb::named(word) {
        Some(Verb::Table) if has_table => ONE_TABLE,
        Some(Verb::Table) => of_verb(Verb::Table, rest),
        Some(verb) if has_table => of_verb(verb, rest),
        None if has_table => VERBS,
        _ => FIRST,
    }
}

/// The first word, and what follows its space if it has one.
fn first_word(text: &str) -> (&str, Option<&str>) {
    match cut(text, ' ') {
        None => (text, None),
        Some((word, rest)) => (word, Some(rest)),
    }
}

/// What was expected after a verb.
fn of_verb(verb: Verb, text: Option<&str>) -> &'static str {
    match text {
        None => verb.form().usage,
        Some(text) => {
            let (verb, rest) = verb.whole(text);
            of_operands(verb.form(), rest)
        }
    }
}

/// What was expected of the operands of a command: the first that is missing or wrong.
fn of_operands(form: Form, text: &str) -> &'static str {
    let mut rest = text;
    for operand in form.operands {
        let Some((word, more)) = cut(rest, ' ') else {
            return form.usage;
        };
        if !operand.accepts(word) {
            return operand.wanted();
        }
        rest = more;
    }
    of_last(form, rest)
}

/// What was expected of the last operand, which may be right except for a word that follows it.
fn of_last(form: Form, text: &str) -> &'static str {
    match cut(text, ' ') {
        Some((word, _)) if form.last.accepts(word) => form.usage,
        _ => form.last.wanted(),
    }
}
