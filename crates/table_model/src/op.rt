//! The six comparisons.
ghost use Rattle.std.specs.Prelude.{◌≡◌, ℤ, Option};
ghost use Rattle.table_model.specs.Condition.{field_comparison, FitsMillionths};
ghost use Rattle.table_model.specs.Truth.{compared, comparison};

use crate::answer::Field;
use crate::truth::Truth;

/// How many millionths a whole is.
pub const MILLION: i128 = 1_000_000;

/// A comparison (ISO/IEC 9075:1992, clause 8.2).
#[derive(Clone, Copy, Debug, PartialEq, Eq)]
pub enum Op {
    /// `=`
    Equal,
    /// `<>`
    NotEqual,
    /// `<`
    Less,
    /// `<=`
    LessOrEqual,
    /// `>`
    Greater,
    /// `>=`
    GreaterOrEqual,
}

impl Op {
    /// Whether the comparison holds of two whole numbers.
    pub fn holds(self, left: i128, right: i128) -> bool
        ensures { result ≡ compared self left right }
    {
        match self {
            Op::Equal => left == right,
            Op::NotEqual => left != right,
            Op::Less => left < right,
            Op::LessOrEqual => left <= right,
            Op::Greater => left > right,
            Op::GreaterOrEqual => left >= right,
        }
    }

    /// The comparison of two cells: unknown if one of them is null.
    pub fn compare(self, left: Option<i128>, right: Option<i128>) -> Truth
        ensures { result ≡ comparison self left right }
    {
        match (left, right) {
            (Some(x), Some(y)) => Truth::from_bool(self.holds(x, y)),
            (None, _) | (_, None) => Truth::Unknown,
        }
    }

    /// The comparison that holds of two numbers if this one holds of them the other way round: `<` is turned into `>`.
    pub fn turned(self) -> Op
        ensures numbers { (left right : ℤ) → compared result right left ≡ compared self left right }
        ensures cells { (left right : Option ℤ) → comparison result right left ≡ comparison self left right }
    {
        match self {
            Op::Equal => Op::Equal,
            Op::NotEqual => Op::NotEqual,
            Op::Less => Op::Greater,
            Op::LessOrEqual => Op::GreaterOrEqual,
            Op::Greater => Op::Less,
            Op::GreaterOrEqual => Op::LessOrEqual,
        }
    }

    /// The comparison of two fields of an answer: in millionths if one of them is a number of millionths, and unknown
    /// if one is null.
    pub fn compare_fields(self, left: Field, right: Field) -> Truth
        requires left { FitsMillionths left }
        requires right { FitsMillionths right }
        ensures { result ≡ field_comparison self left right }
    {
        match (left, right) {
            (Field::Null, _) | (_, Field::Null) => Truth::Unknown,
            (Field::Whole(x), Field::Whole(y)) => Truth::from_bool(self.holds(x, y)),
            (Field::Whole(x), Field::Millionths(y)) => Truth::from_bool(self.holds(x * MILLION, y)),
            (Field::Millionths(x), Field::Whole(y)) => Truth::from_bool(self.holds(x, y * MILLION)),
            (Field::Millionths(x), Field::Millionths(y)) => Truth::from_bool(self.holds(x, y)),
        }
    }
}
