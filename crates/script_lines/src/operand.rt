//! Operands: what follows a verb on a line.

use crate::line::replicas;
use crate::words::{batch_name, coding, ordinal, small_number};

/// What a part of a line after its verb represents.
#[derive(Clone, Copy, Debug, PartialEq, Eq)]
pub enum Operand {
    /// How many replicas a table has.
    Replicas,
    /// A table's name.
    Name,
    /// A table's columns, two words each.
    Columns,
    /// A replica's number.
    Replica,
    /// A message's number.
    Message,
    /// A batch's name.
    Batch,
    /// Rows of values.
    Rows,
    /// An ordinal of a batch's row.
    Ordinal,
    /// A column or a vector.
    Place,
    /// A coding's name.
    Coding,
    /// A file's bytes.
    File,
    /// The text of a query.
    Sql,
    /// The text of a condition.
    Condition,
}

impl Operand {
    /// How it is written, in words for people.
    pub fn wanted(self) -> &'static str {
        match self {
            Operand::Replicas => "a table has 1 to 64 replicas",
            Operand::Name => "the name of a table is not empty",
            Operand::Columns => "a column is a name and TINYINT, SMALLINT, INTEGER or BIGINT",
            Operand::Replica => "a replica is a number of 1 to 10 digits, at most 4294967295",
            Operand::Message => "a message is a number of 1 to 10 digits, at most 4294967295",
            Operand::Batch => {
                "a batch is named O.N, two numbers of 1 to 10 digits, each at most 4294967295"
            }
            Operand::Rows => "rows are written (V,..),(V,..)",
            Operand::Ordinal => "an ordinal is a number of 1 to 5 digits, at most 65535",
            Operand::Place => {
                "a column and a vector are numbers of 1 to 10 digits, at most 4294967295, counted from 0"
            }
            Operand::Coding => "a coding is FOR, DELTA, RLE or DICT",
            Operand::File =>
                "a file is its bytes as hexadecimal digits, two for each, and at least one byte",
            Operand::Sql => "the SQL of a query is not empty",
            Operand::Condition => "the condition of a delete is not empty",
        }
    }

    /// Whether a word is this operand; no word is one that may have spaces or takes memory to be read.
    pub fn accepts(self, word: &str) -> bool {
        match self {
            Operand::Replicas => replicas(word).is_some(),
            Operand::Name => !word.is_empty(),
            Operand::Replica | Operand::Message | Operand::Place => small_number(word).is_some(),
            Operand::Batch => batch_name(word).is_some(),
            Operand::Ordinal => ordinal(word).is_some(),
            Operand::Coding => coding(word).is_some(),
            Operand::Columns | Operand::Rows | Operand::File | Operand::Sql | Operand::Condition =>
                false,
        }
    }
}
