//! Answers of queries.
ghost use Rattle.std.specs.Prelude.{◌≡◌, map};

use std::marker::Model;

/// A field of an answer's row.
#[derive(Clone, Copy, Debug, PartialEq, Eq)]
pub enum Field {
    /// A null.
    Null,
    /// A whole number.
    Whole(i128),
    /// A number of millionths, as AVG has it.
    Millionths(i128),
}

/// A row of an answer: a field for each select item. Contracts see it as that list.
#[derive(Drop)]
pub struct AnswerRow {
    fields: Vec<Field>,
}

impl Model for AnswerRow {
    ghost use Rattle.std.specs.Prelude.{List};
    ghost use Rattle.table_model.specs.declared.answer.Field.{Field as OneField};

    ghost Value = { List OneField };

    ghost view = { λ r. r.fields.items };
}

impl AnswerRow {
    /// The row of these fields. It takes no memory.
    pub fn from_fields(fields: Vec<Field>) -> AnswerRow
        ensures { result ≡ fields.items }
    {
        AnswerRow { fields }
    }

    /// The fields, from the left.
    pub fn fields(&self) -> &[Field]
        ensures { result.now ≡ self.now }
    {
        self.fields.as_slice()
    }
}

/// The answer of a query: a heading, which has a text for each select item, and rows in ascending order of the grouping keys.
#[derive(Drop)]
pub struct Answer {
    heading: Vec<String>,
    rows: Vec<AnswerRow>,
}

impl Model for Answer {
    ghost use Rattle.std.specs.Prelude.{map};
    ghost use Rattle.std.specs.String.{string_bytes};
    ghost use Rattle.table_model.specs.Answer.{AnswerParts};

    ghost Value = { AnswerParts };

    ghost view = { λ a. record { heading = map string_bytes a.heading.items; rows = a.rows.items } };
}

impl Answer {
    ghost use Rattle.std.specs.Prelude.{◌≡◌, map};
    ghost use Rattle.std.specs.String.{string_bytes};

    /// The answer of this heading and these rows. It takes no memory.
    pub fn new(heading: Vec<String>, rows: Vec<AnswerRow>) -> Answer
        ensures heading { result.heading ≡ map string_bytes heading.items }
        ensures rows { result.rows ≡ rows.items }
    {
        Answer { heading, rows }
    }

    /// The heading's texts, from the left.
    pub fn heading(&self) -> &[String]
        ensures { map string_bytes result.now ≡ self.now.heading }
    {
        self.heading.as_slice()
    }

    /// The rows, in order.
    pub fn rows(&self) -> &[AnswerRow]
        ensures { result.now ≡ self.now.rows }
    {
        self.rows.as_slice()
    }
}
