//! The place at which a text is refused, and what to do there instead.

use crate::cures::{
    NO_ARITHMETIC, NO_FRACTION, NO_QUOTES, NO_TEXT, is_quoted, of_beginning, of_name, of_word,
};
use crate::possible::Possible;
use crate::quoted::Quoted;
use crate::tokens::{
    first_token, is_comparison, is_function, is_numeral, is_one_of, is_symbol, last_token,
    open_parenthesis,
};
use query_parser::{Expected, Sign};
use std::fmt;
use table_model::{MAX_WORD, is_keyword, same_word};

/// A text at the byte at which it is refused.
#[derive(Clone, Copy)]
pub struct Place<'a> {
    /// What may come there, and what comes before it.
    possible: Possible<'a>,
    /// Whether the text is a condition alone.
    is_condition: bool,
    /// All that is before it.
    before: &'a [u8],
    /// The word or the symbol at it; empty at the end of the text, and if it is not ASCII.
    found: &'a [u8],
    /// All from the place on.
    rest: &'a str,
}

impl<'a> Place<'a> {
    /// The byte of this place in a text. A place that is past the text is its end.
    pub fn new(
        text: &'a str,
        at: u64,
        is_condition: bool,
        expected: Option<&'a Expected>,
    ) -> Place<'a> {
        let at = usize::try_from(at).unwrap_or(text.len());
        let rest = text.get(at..).unwrap_or("");
        let (before, _) = text
            .as_bytes()
            .split_at(text.len().saturating_sub(rest.len()));
        let found = match rest.as_bytes() {
            [first, ..] if !first.is_ascii() => b"",
            bytes => first_token(bytes),
        };
        Place {
            possible: Possible::new(expected, last_token(before)),
            is_condition,
            before,
            found,
            rest,
        }
    }

    /// The word, the symbol or the character at the place.
    pub fn shown(&self) -> &'a str {
        let length = match self.rest.chars().next() {
            Some(letter) if self.found.is_empty() => letter.len_utf8(),
            _ => self.found.len(),
        };
        self.rest.get(..length).unwrap_or("")
    }

    /// Whether this word is at the place.
    fn is(&self, word: &[u8]) -> bool {
        same_word(self.found, word)
    }

    /// Whether this symbol is at the place.
    fn is_at(&self, symbol: u8) -> bool {
        is_symbol(self.found, symbol)
    }

    /// Whether a name comes before the place.
    fn follows_name(&self) -> bool {
        let word = self.possible.previous();
        word.first().is_some_and(u8::is_ascii_alphabetic) && !is_keyword(word)
    }

    /// Whether the place is that of a name alone.
    fn is_name(&self) -> bool {
        self.possible.has_name() && !self.possible.has_digits()
    }
}

impl<'a> Place<'a> {
    /// What to do instead, if it is known.
    fn advice(&self) -> Option<&'static str> {
        self.advice_on_numbers()
            .or(self.advice_on_words())
            .or(self.advice_on_lists())
            .or(self.advice_on_functions())
            .or(self.advice_on_operands())
            .or(self.advice_on_predicates())
            .or(self.advice_on_clauses())
            .or(of_name(self.possible.previous()))
            .or(of_word(self.found))
            .or(self.advice_on_symbols())
    }

    /// What to do instead of a point, and of what is neither a number nor a name.
    fn advice_on_numbers(&self) -> Option<&'static str> {
        if self.is_at(b'.') {
            return self.advice_on_points();
        }
        if is_numeral(self.found) && self.found.iter().any(|byte| !byte.is_ascii_digit()) {
            Some(
                "this is neither a number nor a name: a number is digits alone, and a name begins with a letter",
            )
        } else if self.found.first() == Some(&b'_') {
            Some("a name begins with a letter")
        } else if self.found.len() > MAX_WORD && !is_numeral(self.found) {
            Some("a name has at most 64 bytes")
        } else if self.found.is_empty()
            && self.rest.chars().next().is_some_and(char::is_alphabetic)
        {
            Some("names have the letters A to Z, digits and _ only, in either case")
        } else {
            None
        }
    }

    /// What to do instead of a point.
    fn advice_on_points(&self) -> Option<&'static str> {
        if self.possible.has(Sign::Select) {
            None
        } else if self.possible.is_table() || self.possible.is_after_table() {
            Some("FROM takes the table's name alone: it is not the file's, and has no point")
        } else if self.follows_name() {
            Some("a column is named alone, without its table")
        } else {
            Some(NO_FRACTION)
        }
    }

    /// What to do instead of NULL and a truth value, if they are not possible, and of a second NOT.
    fn advice_on_words(&self) -> Option<&'static str> {
        let possible = &self.possible;
        let is_truth = is_one_of(self.found, &[b"TRUE", b"FALSE", b"UNKNOWN"]);
        match self.is(b"NULL") {
            true if possible.is_value() => Some(
                "the list of IN has whole numbers alone: for nulls add OR and IS NULL",
            ),
            true if possible.is_negated_predicate() => Some("write IS NOT NULL"),
            true if possible.has(Sign::True) => Some(
                "a condition is TRUE, FALSE or UNKNOWN: IS NULL comes after a column or a set function",
            ),
            true if possible.is_operand() => Some(
                "nothing is equal to NULL, nor less or greater: write IS NULL or IS NOT NULL",
            ),
            false if is_truth && possible.has(Sign::Null) => Some(
                "a column is NULL or NOT NULL: IS TRUE, IS FALSE and IS UNKNOWN come after a condition",
            ),
            false if is_truth && possible.is_operand() => Some(
                "TRUE, FALSE and UNKNOWN come only after IS: 1 = 1 is true of each row",
            ),
            false if self.is(b"NOT") && possible.is_condition() => Some(
                "NOT is there twice: leave both out, or write NOT (NOT ..)",
            ),
            _ => None,
        }
    }

    /// What to do instead of what is not possible in a list, of SELECT, of GROUP BY or of IN.
    fn advice_on_lists(&self) -> Option<&'static str> {
        if self.possible.is_item() {
            self.advice_on_items()
        } else if self.possible.is_grouping() {
            self.advice_on_groups()
        } else if self.possible.is_value() && self.is_at(b')') && self.possible.follows(b"(") {
            Some("the list of IN is empty: it has at least one whole number")
        } else if self.possible.is_after_table() && self.is_at(b',') {
            Some("there are no joins: a query asks one table")
        } else if self.possible.is_after_table() && self.is(b"AS") {
            Some("a table has no alias: write nothing after its name")
        } else {
            None
        }
    }

    /// What to do instead of what is not possible in the list of SELECT.
    fn advice_on_items(&self) -> Option<&'static str> {
        if self.is_at(b'*') {
            Some("a query lists grouping columns and set functions: lanes dump writes the rows")
        } else if self.is(b"DISTINCT") {
            Some("there is no SELECT DISTINCT: name the columns in GROUP BY too")
        } else if self.is(b"ALL") {
            Some("there is no SELECT ALL: leave ALL out")
        } else {
            None
        }
    }

    /// What to do instead of what is not possible in the list of GROUP BY.
    fn advice_on_groups(&self) -> Option<&'static str> {
        if is_numeral(self.found) {
            Some("GROUP BY names its columns: there are no numbers for them")
        } else if self.is_at(b'(') {
            Some("GROUP BY names its columns without parentheses")
        } else if is_function(self.found) {
            Some("GROUP BY names columns, and no set functions")
        } else {
            None
        }
    }

    /// What to do instead of a function that there is not, and of what a set function does not take.
    fn advice_on_functions(&self) -> Option<&'static str> {
        let possible = &self.possible;
        let is_of_column = possible.is_argument() || possible.is_counted();
        if self.is_at(b'(') && self.is_after_function() {
            Some("there is no such function: set functions are COUNT, SUM, AVG, MIN and MAX")
        } else if possible.is_argument() && self.is_at(b'*') {
            Some("only COUNT takes *: name a column")
        } else if possible.is_counted() && self.is_at(b'*') {
            Some("DISTINCT and ALL take a column: COUNT(*) counts rows")
        } else if possible.is_argument() && (is_numeral(self.found) || self.is_at(b')')) {
            Some("COUNT(*) counts rows, and a set function takes a column")
        } else if is_of_column && is_function(self.found) {
            Some("a set function takes a column, and no other set function")
        } else if possible.is_closing() && self.is_at(b',') {
            Some("a set function takes one column")
        } else {
            None
        }
    }

    /// Whether what comes before the place may be meant as the name of a function.
    fn is_after_function(&self) -> bool {
        let is_of_clause = self.possible.is_after_table()
            || (self.possible.is_after_item() && !self.possible.has(Sign::As));
        self.follows_name() && of_name(self.possible.previous()).is_none() && !is_of_clause
    }

    /// What to do instead of an operand that is not possible.
    fn advice_on_operands(&self) -> Option<&'static str> {
        let possible = &self.possible;
        if possible.is_between() && self.is_no_bound() {
            return Some("BETWEEN is written with AND: BETWEEN 1 AND 2");
        }
        if !possible.is_operand() {
            return None;
        }
        if is_function(self.found) {
            return Some(if self.is_condition {
                "a condition on rows has no set functions"
            } else {
                "WHERE has no set functions: write this condition in HAVING"
            });
        }
        match self.found {
            b"=" if possible.follows(b"=") => Some("equal is written ="),
            b">" if possible.follows(b"=") => Some("at least is written >="),
            b"<" if possible.follows(b"=") => Some("at most is written <="),
            b"(" if possible.is_bound() => Some(
                "the bounds of BETWEEN are written without parentheses",
            ),
            _ => None,
        }
    }

    /// Whether the bounds of BETWEEN seem to be joined by something else than AND.
    fn is_no_bound(&self) -> bool {
        self.is(b"OR") || self.is(b"TO") || self.is_at(b',') || is_numeral(self.found)
    }

    /// What to do instead of what comes after an operand or a predicate.
    fn advice_on_predicates(&self) -> Option<&'static str> {
        if self.possible.is_negated_predicate() && self.is_at(b'=') {
            Some("not equal is written <>")
        } else if self.possible.is_after_test() && is_comparison(self.found) {
            Some("a comparison has two sides: join two of them by AND")
        } else if self.possible.is_after_condition() && self.is_at(b',') {
            Some("conditions are joined by AND or OR")
        } else {
            None
        }
    }

    /// What to do instead of a clause that is not possible here.
    fn advice_on_clauses(&self) -> Option<&'static str> {
        if self.is_condition {
            return self
                .is_of_query()
                .then_some("write the condition alone, as it is after WHERE");
        }
        let is_where = self.possible.has(Sign::Group);
        let is_after = self.possible.is_after_condition() || self.possible.is_after_grouping();
        if !is_after || self.is_within_parentheses() {
            None
        } else if self.is(b"WHERE") && is_where {
            Some("there is one WHERE: join its conditions by AND")
        } else if self.is(b"WHERE") {
            Some("WHERE comes before GROUP BY and HAVING")
        } else if self.is(b"GROUP") && self.possible.is_after_condition() {
            Some("GROUP BY comes before HAVING")
        } else if self.is(b"HAVING") {
            Some("there is one HAVING: join its conditions by AND")
        } else {
            None
        }
    }

    /// Whether a condition alone begins or goes on with a word of a query.
    fn is_of_query(&self) -> bool {
        is_one_of(
            self.found,
            &[b"SELECT", b"FROM", b"WHERE", b"GROUP", b"HAVING"],
        ) && (self.possible.previous().is_empty() || !self.is_within_parentheses())
    }

    /// Whether a parenthesis before the place is open.
    fn is_within_parentheses(&self) -> bool {
        open_parenthesis(self.before).is_some()
    }

    /// What to do instead of a symbol that the language does not have, or has elsewhere.
    fn advice_on_symbols(&self) -> Option<&'static str> {
        if is_quoted(self.rest) {
            return Some(if self.is_name() { NO_QUOTES } else { NO_TEXT });
        }
        of_beginning(self.rest).or(match self.found {
            b"+" | b"-" | b"*" | b"/" | b"%" if self.is_after_value() => Some(NO_ARITHMETIC),
            _ => None,
        })
    }

    /// Whether the place is after a value, or of an item of the select list.
    fn is_after_value(&self) -> bool {
        let possible = &self.possible;
        possible.is_item()
            || possible.is_after_item()
            || possible.is_closing()
            || possible.is_predicate()
            || possible.is_between()
            || possible.is_after_test()
            || possible.is_after_value()
            || possible.is_after_grouping()
    }

    /// Whether the whole text is empty but for spaces.
    fn is_of_nothing(&self) -> bool {
        self.rest.is_empty() && self.before.trim_ascii().is_empty()
    }

    /// Writes what is wrong here.
    pub fn write<W: fmt::Write>(&self, f: &mut fmt::Formatter<W>) -> fmt::Result {
        if let Some(advice) = self.advice() {
            return f.write_str(advice);
        }
        if self.is_of_nothing() {
            return f.write_str(if self.is_condition {
                "the condition is empty"
            } else {
                "the query is empty"
            });
        }
        if self.rest.is_empty() {
            f.write_str("the text ends too early")?;
        } else {
            let found = Quoted(self.shown().as_bytes());
            write!(f, "{found} is not possible here")?;
        }
        let open = open_parenthesis(self.before);
        let is_ended = self.rest.is_empty()
            || is_one_of(self.found, &[b"FROM", b"WHERE", b"GROUP", b"HAVING"]);
        match open {
            Some(at) if is_ended => write!(f, ": the parenthesis at byte {at} is not closed")?,
            _ => {}
        }
        if self.possible.is_known() {
            let possible = self.possible;
            write!(f, "; expected {possible}")?;
        }
        Ok(())
    }
}
