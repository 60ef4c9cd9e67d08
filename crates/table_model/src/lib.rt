//! The model of a table: names, rows, schemas, states, operations and refusals, which every crate above speaks of.
#![tactic(auto)]

mod answer;
mod check;
mod counted;
mod extreme;
mod identifier;
mod laws;
mod names;
mod numerals;
mod op;
mod place;
mod query;
mod refusal;
mod row;
mod rows;
mod schema;
mod truth;

pub use answer::{Answer, AnswerRow, Field};
pub use check::{MAX_ROWS, MAX_STATE_ROWS, check_rows};
pub use counted::{Counted, READ_CHUNK, READ_LIMIT};
pub use extreme::Extreme;
pub use identifier::{MAX_WORD, is_identifier, is_keyword, is_word_byte, same_text, same_word};
pub use laws::{
    answer_laws, group_laws, join_laws, operation_laws, predicate_laws, sameness_laws, sum_bounds,
    truth_laws, value_laws, worked_answers,
};
pub use names::{BatchName, NUMBER_DIGITS, Number, ORDINAL_DIGITS, Origin, RowName};
pub use numerals::{VALUE_DIGITS, digits_value, is_numeral, magnitude};
pub use op::{MILLION, Op};
pub use place::Place;
pub use query::{
    ColumnMention, Condition, Factor, Fold, IsTruth, Item, ItemValue, Literals, Name, Operand,
    Predicate, Primary, Query, SetFunction, Term, Test,
};
pub use refusal::Refusal;
pub use row::Row;
pub use rows::Rows;
pub use schema::{ColType, Column, MAX_COLUMNS, Schema, column_at};
pub use truth::Truth;
