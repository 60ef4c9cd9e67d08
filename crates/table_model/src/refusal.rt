//! Refusals: why a call changed nothing.
ghost use Rattle.std.specs.Prelude.{◌≡◌};
ghost use Rattle.table_model.specs.declared.refusal.Refusal.TheVariants.{Memory};
ghost use Rattle.table_model.specs.RefusalText.{number_of, place_of, refusal_name};

use crate::names::BatchName;
use crate::place::Place;
use std::alloc::{AllocError, AllocFailed};
use std::error::Error;
use std::fmt;

/// Why a call was refused. A refused call leaves its object as it was.
///
/// Places are byte offsets in the input, and 0 in a call that reads none. Rows and columns count from 0.
#[derive(Clone, Copy, Debug, PartialEq, Eq)]
pub enum Refusal {
    /// Memory that was asked for was not to be had.
    Memory,
    /// A batch name that has two lists of rows; the least one.
    Conflict(BatchName),
    /// A limit on batches or messages is reached.
    Full,
    /// A batch without rows.
    EmptyBatch,
    /// A batch of more than 65,536 rows.
    BatchTooLong,
    /// A row that has not one cell for each column.
    WrongArity(usize),
    /// A cell outside its column's type.
    OutOfType { row: usize, column: usize },
    /// Two schemas that had to be equal.
    SchemaDiffers,
    /// The origin's greatest number is taken.
    NumbersSpent,
    /// There is no such vector.
    NoSuchVector,
    /// An origin or a number that is 0.
    BadName,
    /// A schema outside the rules.
    BadSchema,
    /// The input ends before a field does.
    Truncated(u64),
    /// The first four bytes are not the format's.
    BadMagic,
    /// A version that is not known.
    BadVersion,
    /// Something that does not come after what is before it.
    BadOrder(u64),
    /// A count outside its limits.
    BadCount(u64),
    /// A width outside its limits.
    BadWidth(u64),
    /// A coding that is not known.
    BadTag(u64),
    /// A mask outside the rules.
    BadMask(u64),
    /// A dictionary that does not ascend.
    BadDictionary(u64),
    /// A code past its dictionary.
    BadCode(u64),
    /// A range whose end is before its start.
    BadRange(u64),
    /// Bytes after the end.
    TrailingBytes(u64),
    /// Not the one file of what it represents.
    NotCanonical(u64),
    /// A query that the grammar has not.
    Syntax(u64),
    /// Another table than the schema's.
    NoSuchTable,
    /// A column that the table does not have.
    NoSuchColumn(u64),
    /// A column that GROUP BY does not name.
    NotGrouped(u64),
    /// A literal of more than 30 digits after its leading zeros.
    NumberTooLarge(u64),
    /// More than 64 parentheses open at once.
    TooDeep,
    /// A line of more than 1,048,576 bytes.
    LineTooLong,
    /// A read that failed.
    ReadFault,
    /// A write that failed.
    WriteFault,
    /// A line outside the script language.
    BadLine,
    /// There is no such replica.
    NoSuchReplica,
    /// There is no such message.
    NoSuchMessage,
}

impl From<AllocError> for Refusal {
    ghost from_gives = { λ _ e. e ≡ Memory };

    fn from(_e: AllocError) -> Refusal {
        Refusal::Memory
    }
}

impl<T: Drop> From<AllocFailed<T>> for Refusal {
    ghost from_gives = { λ _ e. e ≡ Memory };

    fn from(_e: AllocFailed<T>) -> Refusal {
        Refusal::Memory
    }
}

impl Refusal {
    /// The refusal's number, from 1 to 37.
    pub fn number(&self) -> u8
        ensures { result ≡ number_of self.now }
    {
        match self {
            Refusal::Memory => 1,
            Refusal::Conflict(_) => 2,
            Refusal::Full => 3,
            Refusal::EmptyBatch => 4,
            Refusal::BatchTooLong => 5,
            Refusal::WrongArity(_) => 6,
            Refusal::OutOfType { .. } => 7,
            Refusal::SchemaDiffers => 8,
            Refusal::NumbersSpent => 9,
            Refusal::NoSuchVector => 10,
            Refusal::BadName => 11,
            Refusal::BadSchema => 12,
            Refusal::Truncated(_) => 13,
            Refusal::BadMagic => 14,
            Refusal::BadVersion => 15,
            Refusal::BadOrder(_) => 16,
            Refusal::BadCount(_) => 17,
            Refusal::BadWidth(_) => 18,
            Refusal::BadTag(_) => 19,
            Refusal::BadMask(_) => 20,
            Refusal::BadDictionary(_) => 21,
            Refusal::BadCode(_) => 22,
            Refusal::BadRange(_) => 23,
            Refusal::TrailingBytes(_) => 24,
            Refusal::NotCanonical(_) => 25,
            Refusal::Syntax(_) => 26,
            Refusal::NoSuchTable => 27,
            Refusal::NoSuchColumn(_) => 28,
            Refusal::NotGrouped(_) => 29,
            Refusal::NumberTooLarge(_) => 30,
            Refusal::TooDeep => 31,
            Refusal::LineTooLong => 32,
            Refusal::ReadFault => 33,
            Refusal::WriteFault => 34,
            Refusal::BadLine => 35,
            Refusal::NoSuchReplica => 36,
            Refusal::NoSuchMessage => 37,
        }
    }

    /// The refusal's name, without its values: `Conflict`.
    pub fn name(&self) -> &'static str
        ensures { result.now ≡ refusal_name self.now }
    {
        match self {
            Refusal::Memory => "Memory",
            Refusal::Conflict(_) => "Conflict",
            Refusal::Full => "Full",
            Refusal::EmptyBatch => "EmptyBatch",
            Refusal::BatchTooLong => "BatchTooLong",
            Refusal::WrongArity(_) => "WrongArity",
            Refusal::OutOfType { .. } => "OutOfType",
            Refusal::SchemaDiffers => "SchemaDiffers",
            Refusal::NumbersSpent => "NumbersSpent",
            Refusal::NoSuchVector => "NoSuchVector",
            Refusal::BadName => "BadName",
            Refusal::BadSchema => "BadSchema",
            Refusal::Truncated(_) => "Truncated",
            Refusal::BadMagic => "BadMagic",
            Refusal::BadVersion => "BadVersion",
            Refusal::BadOrder(_) => "BadOrder",
            Refusal::BadCount(_) => "BadCount",
            Refusal::BadWidth(_) => "BadWidth",
            Refusal::BadTag(_) => "BadTag",
            Refusal::BadMask(_) => "BadMask",
            Refusal::BadDictionary(_) => "BadDictionary",
            Refusal::BadCode(_) => "BadCode",
            Refusal::BadRange(_) => "BadRange",
            Refusal::TrailingBytes(_) => "TrailingBytes",
            Refusal::NotCanonical(_) => "NotCanonical",
            Refusal::Syntax(_) => "Syntax",
            Refusal::NoSuchTable => "NoSuchTable",
            Refusal::NoSuchColumn(_) => "NoSuchColumn",
            Refusal::NotGrouped(_) => "NotGrouped",
            Refusal::NumberTooLarge(_) => "NumberTooLarge",
            Refusal::TooDeep => "TooDeep",
            Refusal::LineTooLong => "LineTooLong",
            Refusal::ReadFault => "ReadFault",
            Refusal::WriteFault => "WriteFault",
            Refusal::BadLine => "BadLine",
            Refusal::NoSuchReplica => "NoSuchReplica",
            Refusal::NoSuchMessage => "NoSuchMessage",
        }
    }

    /// What the refusal names, with its values.
    pub fn place(&self) -> Place
        ensures { result ≡ place_of self.now }
    {
        match *self {
            Refusal::Conflict(name) => Place::Batch(name),
            Refusal::WrongArity(row) => Place::Row(row),
            Refusal::OutOfType { row, column } => Place::Cell { row, column },
            Refusal::Truncated(at)
            | Refusal::BadOrder(at)
            | Refusal::BadCount(at)
            | Refusal::BadWidth(at)
            | Refusal::BadTag(at)
            | Refusal::BadMask(at)
            | Refusal::BadDictionary(at)
            | Refusal::BadCode(at)
            | Refusal::BadRange(at)
            | Refusal::TrailingBytes(at)
            | Refusal::NotCanonical(at)
            | Refusal::Syntax(at)
            | Refusal::NoSuchColumn(at)
            | Refusal::NotGrouped(at)
            | Refusal::NumberTooLarge(at) => Place::Byte(at),
            _ => Place::Nowhere,
        }
    }
}

/// The refusal's name, and then its values, each after one space: `Conflict 1.7`.
impl fmt::Display for Refusal {
    ghost use Rattle.std.specs.Prelude.{Some};
    ghost use Rattle.table_model.specs.RefusalText.{refusal_text};

    ghost output = { λ refusal. Some (refusal_text refusal) };

    fn fmt<W: fmt::Write>(&self, f: &mut fmt::Formatter<W>) -> fmt::Result {
        f.write_str(self.name())?;
        write!(f, "{}", self.place())
    }
}

impl Error for Refusal {}
