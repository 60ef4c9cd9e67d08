//! Queries as texts: the tokens of a text, the query that the grammar gives for them or the text's first fault, and whether
//! a query's names are those of a table.
#![tactic(auto)]

mod condition;
mod cursor;
mod expecting;
mod laws;
mod lexer;
mod names;
mod number;
mod predicate;
mod query;
mod select;
mod token;
mod where_text;

pub use expecting::{Expected, Form, find_expected};
pub use laws::{
    conditions_are_read, conditions_are_unambiguous, keywords_are_reserved, queries_are_read,
    texts_are_unambiguous,
};
pub use names::{resolve, resolve_condition};
pub use query::parse;
pub use token::Sign;
pub use where_text::parse_condition;
