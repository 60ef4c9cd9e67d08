//! What may come at a place, in words.

use crate::possible::Possible;
use query_parser::Sign;
use std::fmt;

/// A part of what may come.
#[derive(Clone, Copy)]
enum Phrase {
    /// A keyword or a symbol, in these words.
    Plain(Sign, &'static str),
    /// What a condition begins with.
    Condition,
    /// A parenthesis that begins no condition, and what has to come in it.
    Parenthesis,
    /// A name, if something else has to come without it.
    Name,
    /// A number, or its digits after a sign.
    Number,
    /// One of the five set functions.
    Function,
    /// One of the six comparisons.
    Comparison,
    /// AND.
    And,
    /// BETWEEN, after NOT.
    NotBetween,
    /// IN, after NOT.
    NotIn,
    /// NULL, after NOT.
    NotNull,
    /// A truth value.
    Truth,
    /// A name that may be left out.
    Alias,
    /// The end of the text.
    End,
}

/// All of them, in the order in which they are said.
const PHRASES: [Phrase; 30] = [
    Phrase::Plain(Sign::Select, "SELECT"),
    Phrase::Condition,
    Phrase::Parenthesis,
    Phrase::Plain(Sign::Asterisk, "*"),
    Phrase::Name,
    Phrase::Number,
    Phrase::Function,
    Phrase::Plain(Sign::Distinct, "DISTINCT"),
    Phrase::Plain(Sign::All, "ALL"),
    Phrase::Comparison,
    Phrase::Plain(Sign::Comma, "a comma"),
    Phrase::And,
    Phrase::Plain(Sign::Or, "OR"),
    Phrase::Plain(Sign::Is, "IS"),
    Phrase::Plain(Sign::Between, "BETWEEN"),
    Phrase::Plain(Sign::In, "IN"),
    Phrase::NotBetween,
    Phrase::NotIn,
    Phrase::Plain(Sign::Null, "NULL"),
    Phrase::NotNull,
    Phrase::Truth,
    Phrase::Plain(Sign::From, "FROM"),
    Phrase::Plain(Sign::As, "AS"),
    Phrase::Alias,
    Phrase::Plain(Sign::By, "BY"),
    Phrase::Plain(Sign::Where, "WHERE"),
    Phrase::Plain(Sign::Group, "GROUP BY"),
    Phrase::Plain(Sign::Having, "HAVING"),
    Phrase::Plain(Sign::CloseParen, ")"),
    Phrase::End,
];

/// Words, if what they mean is possible.
fn when(is_possible: bool, words: &'static str) -> Option<&'static str> {
    if is_possible { Some(words) } else { None }
}

impl Phrase {
    /// The words, if what they mean is possible.
    fn words(self, possible: &Possible<'_>) -> Option<&'static str> {
        match self {
            Phrase::Plain(sign, words) => when(possible.has(sign), words),
            Phrase::Condition if possible.has(Sign::Not) => when(
                possible.is_condition(),
                "a condition",
            ),
            Phrase::Condition => when(possible.is_condition(), "a condition without a second NOT"),
            Phrase::Parenthesis | Phrase::Name | Phrase::Number | Phrase::Function
                if possible.is_condition() => None,
            Phrase::Parenthesis => when(possible.has(Sign::OpenParen), in_parentheses(possible)),
            Phrase::Name => when(
                possible.has_name() && !possible.has(Sign::As),
                name(possible),
            ),
            Phrase::Number if possible.has(Sign::Minus) => when(
                possible.has_digits(),
                "a whole number",
            ),
            Phrase::Number => when(possible.has_digits(), "digits"),
            Phrase::Function => when(possible.has(Sign::Count), "a set function"),
            Phrase::Comparison => when(possible.has(Sign::Equal), "a comparison"),
            Phrase::And if possible.is_between() => Some("AND and the upper bound"),
            Phrase::And => when(possible.has(Sign::And), "AND"),
            Phrase::Truth if possible.has(Sign::Not) => when(
                possible.has(Sign::True),
                "TRUE, FALSE or UNKNOWN, optionally after NOT",
            ),
            Phrase::Truth => when(possible.has(Sign::True), "TRUE, FALSE or UNKNOWN"),
            Phrase::Alias => when(possible.has_name() && possible.has(Sign::As), "a name"),
            Phrase::End => when(possible.has_end(), "the end"),
            Phrase::NotBetween => negated(possible, Sign::Between, "NOT BETWEEN"),
            Phrase::NotIn => negated(possible, Sign::In, "NOT IN"),
            Phrase::NotNull => negated(possible, Sign::Null, "NOT NULL"),
        }
    }
}

/// The words of a keyword after NOT, if it may come with it and without it.
fn negated(possible: &Possible<'_>, sign: Sign, words: &'static str) -> Option<&'static str> {
    when(possible.has(Sign::Not) && possible.has(sign), words)
}

/// What comes in parentheses.
fn in_parentheses(possible: &Possible<'_>) -> &'static str {
    if possible.follows(b"IN") {
        "whole numbers in parentheses"
    } else if possible.follows(b"COUNT") {
        "(*) or a column in parentheses"
    } else {
        "a column in parentheses"
    }
}

/// What a name is of.
fn name(possible: &Possible<'_>) -> &'static str {
    if possible.is_table() {
        "the table's name"
    } else if possible.follows(b"AS") {
        "a name that is not a keyword"
    } else {
        "a column"
    }
}

/// How many phrases are possible.
fn count(possible: &Possible<'_>) -> usize {
    PHRASES
        .iter()
        .filter(|phrase| phrase.words(possible).is_some())
        .count()
}

/// What is written before a phrase, after so many of them.
fn separator(done: usize, count: usize) -> &'static str {
    if done == 0 {
        ""
    } else if done.saturating_add(1) == count {
        " or "
    } else {
        ", "
    }
}

/// All that is possible: `a comma, HAVING or the end`.
impl<'a> fmt::Display for Possible<'a> {
    fn fmt<W: fmt::Write>(&self, f: &mut fmt::Formatter<W>) -> fmt::Result {
        let count = count(self);
        let mut done = 0usize;
        for phrase in &PHRASES {
            if let Some(words) = phrase.words(self) {
                f.write_str(separator(done, count))?;
                f.write_str(words)?;
                done = done.saturating_add(1);
            }
        }
        Ok(())
    }
}
