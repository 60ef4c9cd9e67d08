//! Answers: the rows taken in, HAVING, and the heading and the rows of an answer.

mod answer_rows;
mod compared_rows;
mod field_places;
mod group_masks;
mod group_numbers;
mod having;
mod heading;
mod number_masks;
mod query_answer;
mod taken_rows;

pub use answer_rows::answer_of_groups;
pub use query_answer::answer;
pub use taken_rows::{Taken, take_rows};
