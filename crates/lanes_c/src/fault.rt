//! Why a call gave nothing, as C gets it: a number and a place.
ghost use Rattle.std.specs.Prelude.{◌≡◌};
ghost use Rattle.lanes_c.specs.Faults.{number_of_fault, place_of, place_of_fault, in_names, nowhere, of_query, pair, told, told_of_choice, told_of_csv, told_of_expectation, told_of_part, told_of_partial_answer, told_of_partial_answers, told_of_replay};
ghost use Rattle.lanes_c.specs.declared.fault.Fault.TheVariants.{Refused};
ghost use Rattle.table_model.specs.declared.refusal.Refusal.TheVariants.{Memory};

use csv_rows::CsvError;
use folder_parts::PartFault;
use folder_turns::Fault as ReplayFault;
use live_columns::Unchosen;
use partial_answers::PartialAnswerFault;
use partial_commands::{ExpectationError, PartialAnswerError};
use std::alloc::{AllocError, AllocFailed};
use table_model::{BatchName, Refusal};

/// The place at which a call was refused: one or two numbers, which the refusal's name explains, and 0 for each that it has not.
#[repr(C)]
#[derive(Clone, Copy, Debug, PartialEq, Eq)]
pub struct Place {
    /// A byte of the input from 0; a row from 0; the origin of a batch; a line from 1.
    pub first: u64,
    /// A column from 0; the number of a batch; a field of a line from 1, and 0 for a wrong number of fields; a query of several
    /// from 0; a summary of several from 1; 1 in the names of columns.
    pub second: u64,
}

/// Why a call gave nothing.
#[derive(Clone, Copy, Debug, PartialEq, Eq)]
pub enum Fault {
    /// What the table's own calls refuse.
    Refused(Refusal),
    /// Comma-separated values outside the grammar: the line, from 1, and its field, from 1, or 0 for a wrong number of fields.
    BadCsv { line: u64, column: u64 },
    /// A line of comma-separated values that is too long.
    LineTooLong { line: u64 },
    /// A query of several: what it is refused as, and which one it is, from 0.
    OfQuery { refusal: Refusal, query: u64 },
    /// What the names of columns are refused as.
    InNames(Refusal),
    /// What a summary of several is refused as, and which one it is, from 1.
    OfSummary { refusal: Refusal, summary: u64 },
    /// A handle that is closed.
    NotOpen,
    /// Two partial answers that would count a batch twice, or rows that one of their files deletes; the least batch.
    NotApart(BatchName),
    /// Partial answers of different queries.
    QueryDiffers,
    /// A number of an answer that is past its range.
    TooMany,
    /// A batch that a summary names was not counted; the least.
    Missing(BatchName),
    /// Others have had a folder for too long.
    Busy,
    /// A part of a folder has other bytes than its name says.
    Damaged,
    /// A call on a folder failed: the system's number for the reason, or 0 if it gave none.
    System { code: u64 },
}

/// A refusal as it is reported: a write into memory fails only if memory runs out.
impl From<Refusal> for Fault {
    ghost from_gives = { λ refusal fault. fault ≡ told refusal };

    fn from(refusal: Refusal) -> Fault {
        match refusal {
            Refusal::WriteFault => Fault::Refused(Refusal::Memory),
            _ => Fault::Refused(refusal),
        }
    }
}

impl From<CsvError> for Fault {
    ghost from_gives = { λ error fault. fault ≡ told_of_csv error };

    fn from(error: CsvError) -> Fault {
        match error {
            CsvError::BadCsv { line, column } => Fault::BadCsv { line, column },
            CsvError::LineTooLong { line } => Fault::LineTooLong { line },
            CsvError::Refused(refusal) => Fault::from(refusal),
        }
    }
}

impl From<AllocError> for Fault {
    ghost from_gives = { λ _ fault. fault ≡ Refused Memory };

    fn from(_lacking: AllocError) -> Fault {
        Fault::Refused(Refusal::Memory)
    }
}

impl<T: Drop> From<AllocFailed<T>> for Fault {
    ghost from_gives = { λ _ fault. fault ≡ Refused Memory };

    fn from(_lacking: AllocFailed<T>) -> Fault {
        Fault::Refused(Refusal::Memory)
    }
}

impl From<Unchosen> for Fault {
    ghost from_gives = { λ unchosen fault. fault ≡ told_of_choice unchosen };

    fn from(unchosen: Unchosen) -> Fault {
        match unchosen {
            Unchosen::Refused(refusal) => Fault::Refused(refusal),
            Unchosen::NoSuchName(at) => Fault::InNames(Refusal::NoSuchColumn(at)),
        }
    }
}

impl From<PartialAnswerFault> for Fault {
    ghost from_gives = { λ given fault. fault ≡ told_of_partial_answers given };

    fn from(given: PartialAnswerFault) -> Fault {
        match given {
            PartialAnswerFault::Memory => Fault::Refused(Refusal::Memory),
            PartialAnswerFault::SchemaDiffers => Fault::Refused(Refusal::SchemaDiffers),
            PartialAnswerFault::QueryDiffers => Fault::QueryDiffers,
            PartialAnswerFault::NotApart(name) => Fault::NotApart(name),
            PartialAnswerFault::TooMany => Fault::TooMany,
            PartialAnswerFault::Query(refusal) => Fault::Refused(refusal),
        }
    }
}

impl From<PartialAnswerError> for Fault {
    ghost from_gives = { λ given fault. fault ≡ told_of_partial_answer given };

    fn from(given: PartialAnswerError) -> Fault {
        match given {
            PartialAnswerError::Refused(refusal) => Fault::from(refusal),
            PartialAnswerError::Fault(fault) => Fault::from(fault),
        }
    }
}

impl From<ExpectationError> for Fault {
    ghost from_gives = { λ given fault. fault ≡ told_of_expectation given };

    fn from(given: ExpectationError) -> Fault {
        match given {
            ExpectationError::SchemaDiffers => Fault::Refused(Refusal::SchemaDiffers),
            ExpectationError::Missing(name) => Fault::Missing(name),
            ExpectationError::Unanswered(error) => Fault::from(error),
        }
    }
}

impl From<PartFault> for Fault {
    ghost from_gives = { λ given fault. fault ≡ told_of_part given };

    fn from(given: PartFault) -> Fault {
        match given {
            PartFault::Damaged => Fault::Damaged,
            PartFault::Refused(refusal) => Fault::from(refusal),
        }
    }
}

impl From<ReplayFault> for Fault {
    ghost from_gives = { λ given fault. fault ≡ told_of_replay given };

    fn from(given: ReplayFault) -> Fault {
        match given {
            ReplayFault::OutOfMemory => Fault::Refused(Refusal::Memory),
            ReplayFault::Strayed => Fault::System { code: 0 },
        }
    }
}

/// The number of `BadCsv`, which is no refusal of the table's own calls.
const BAD_CSV: u8 = 38;

/// The number of `NotOpen`, which is no refusal of the table's own calls.
pub const NOT_OPEN: u8 = 39;

/// The number of `NotApart`, which is no refusal of the table's own calls.
const NOT_APART: u8 = 40;

/// The number of `QueryDiffers`, which is no refusal of the table's own calls.
const QUERY_DIFFERS: u8 = 41;

/// The number of `TooMany`, which is no refusal of the table's own calls.
const TOO_MANY: u8 = 42;

/// The number of `Missing`, which is no refusal of the table's own calls.
const MISSING: u8 = 43;

/// The number of `Busy`, which is no refusal of the table's own calls.
pub const BUSY: u8 = 44;

/// The number of `Damaged`, which is no refusal of the table's own calls.
pub const DAMAGED: u8 = 45;

/// The number of `System`, which is no refusal of the table's own calls.
pub const SYSTEM: u8 = 46;

impl Place {
    /// No place.
    pub fn nowhere() -> Place
        ensures { result ≡ nowhere }
    {
        Place::at(0)
    }

    /// A place of one number.
    fn at(first: u64) -> Place
        ensures { result ≡ pair first 0 }
    {
        Place { first, second: 0 }
    }

    /// A batch: its origin and its number.
    fn of_batch(name: BatchName) -> Place
        ensures { result ≡ pair name.origin.0 name.number.0 }
    {
        Place {
            first: u64::from(name.origin.0),
            second: u64::from(name.number.0),
        }
    }

    /// The place that a refusal names.
    pub fn of(refusal: Refusal) -> Place
        ensures { result ≡ place_of refusal }
    {
        match refusal.place() {
            table_model::Place::Nowhere => Place::nowhere(),
            table_model::Place::Batch(name) => Place::of_batch(name),
            table_model::Place::Row(row) => Place::at(row as u64),
            table_model::Place::Cell { row, column } => Place {
                first: row as u64,
                second: column as u64,
            },
            table_model::Place::Byte(at) => Place::at(at),
        }
    }
}

impl Fault {
    /// The number that C is answered: a refusal's own, or one from 38 on.
    pub fn number(self) -> u8
        ensures { result ≡ number_of_fault self }
    {
        match self {
            Fault::Refused(refusal) => refusal.number(),
            Fault::BadCsv { .. } => BAD_CSV,
            Fault::LineTooLong { .. } => Refusal::LineTooLong.number(),
            Fault::OfQuery { refusal, .. }
            | Fault::InNames(refusal)
            | Fault::OfSummary { refusal, .. } => refusal.number(),
            Fault::NotOpen => NOT_OPEN,
            Fault::NotApart(_) => NOT_APART,
            Fault::QueryDiffers => QUERY_DIFFERS,
            Fault::TooMany => TOO_MANY,
            Fault::Missing(_) => MISSING,
            Fault::Busy => BUSY,
            Fault::Damaged => DAMAGED,
            Fault::System { .. } => SYSTEM,
        }
    }

    /// This fault as that of one query of several, which are counted from 0.
    pub fn of_query(self, query: u64) -> Fault
        ensures { result ≡ of_query self query }
    {
        match self {
            Fault::Refused(refusal) => Fault::OfQuery { refusal, query },
            other => other,
        }
    }

    /// This fault as that of the names of columns.
    pub fn in_names(self) -> Fault
        ensures { result ≡ in_names self }
    {
        match self {
            Fault::Refused(refusal) => Fault::InNames(refusal),
            other => other,
        }
    }

    /// The place that C gets.
    pub fn place(self) -> Place
        ensures { result ≡ place_of_fault self }
    {
        match self {
            Fault::Refused(refusal) => Place::of(refusal),
            Fault::BadCsv { line, column } => Place {
                first: line,
                second: column,
            },
            Fault::LineTooLong { line } => Place::at(line),
            Fault::OfQuery { refusal, query } => Place {
                first: Place::of(refusal).first,
                second: query,
            },
            Fault::InNames(refusal) => Place {
                first: Place::of(refusal).first,
                second: 1,
            },
            Fault::OfSummary { refusal, summary } => Place {
                first: Place::of(refusal).first,
                second: summary,
            },
            Fault::NotApart(name) | Fault::Missing(name) => Place::of_batch(name),
            Fault::System { code } => Place::at(code),
            Fault::NotOpen | Fault::QueryDiffers | Fault::TooMany | Fault::Busy | Fault::Damaged =>
                Place::nowhere(),
        }
    }
}
