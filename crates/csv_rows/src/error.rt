//! Why a text of comma-separated values is refused.
ghost use Rattle.std.specs.Prelude.{◌≡◌};
ghost use Rattle.csv_rows.specs.declared.error.CsvError.TheVariants.{Refused};
ghost use Rattle.table_model.specs.declared.refusal.Refusal.TheVariants.{Memory};

use std::alloc::{AllocError, AllocFailed};
use std::error::Error;
use std::fmt;
use table_model::Refusal;

/// Why a text of comma-separated values is refused. Lines and columns of the text count from 1.
#[derive(Clone, Copy, Debug, PartialEq, Eq)]
pub enum CsvError {
    /// A field that is no value of its column, or no column's name, or names one for the second time; column 0 is a wrong
    /// number of fields, or a line without the end that the dialect needs.
    BadCsv { line: u64, column: u64 },
    /// A line of more than 1,048,576 bytes, without its end.
    LineTooLong { line: u64 },
    /// `Memory`, or `ReadFault` of the reader below.
    Refused(Refusal),
}

impl From<Refusal> for CsvError {
    ghost from_gives = { λ refusal e. e ≡ Refused refusal };

    fn from(refusal: Refusal) -> CsvError {
        CsvError::Refused(refusal)
    }
}

impl From<AllocError> for CsvError {
    ghost from_gives = { λ _ e. e ≡ Refused Memory };

    fn from(_e: AllocError) -> CsvError {
        CsvError::Refused(Refusal::Memory)
    }
}

impl<T: Drop> From<AllocFailed<T>> for CsvError {
    ghost from_gives = { λ _ e. e ≡ Refused Memory };

    fn from(_e: AllocFailed<T>) -> CsvError {
        CsvError::Refused(Refusal::Memory)
    }
}

/// The error's name and its place in the text, as `BadCsv 3 1`, or the refusal.
impl fmt::Display for CsvError {
    fn fmt<W: fmt::Write>(&self, f: &mut fmt::Formatter<W>) -> fmt::Result {
        match self {
            CsvError::BadCsv { line, column } => write!(f, "BadCsv {line} {column}"),
            CsvError::LineTooLong { line } => write!(f, "LineTooLong {line}"),
            CsvError::Refused(refusal) => write!(f, "{refusal}"),
        }
    }
}

impl Error for CsvError {}
