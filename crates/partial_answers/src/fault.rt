//! Why partial answers can't be combined or finished.
ghost use Rattle.std.specs.Prelude.{◌≡◌};
ghost use Rattle.partial_answers.specs.declared.fault.PartialAnswerFault.TheVariants.{Memory};

use std::alloc::{AllocError, AllocFailed};
use std::error::Error;
use std::fmt;
use table_model::{BatchName, Refusal};

/// Why partial answers can't be combined, or a partial answer can't be finished. Nothing changes then.
#[derive(Clone, Copy, Debug, PartialEq, Eq)]
pub enum PartialAnswerFault {
    /// Out of memory.
    Memory,
    /// The partial answers are of tables with different schemas.
    SchemaDiffers,
    /// The partial answers are of different queries, or a partial answer does not have the groups that its query asks for.
    QueryDiffers,
    /// A batch that both partial answers counted, or that one counted and the other deletes rows of; the least one.
    NotApart(BatchName),
    /// A count leaves 64 bits, or a sum or a mean 128; or there are too many distinct values.
    TooMany,
    /// The partial answer's text is no query of its table.
    Query(Refusal),
}

impl From<AllocError> for PartialAnswerFault {
    ghost from_gives = { λ _ e. e ≡ Memory };

    fn from(_e: AllocError) -> PartialAnswerFault {
        PartialAnswerFault::Memory
    }
}

impl<T: Drop> From<AllocFailed<T>> for PartialAnswerFault {
    ghost from_gives = { λ _ e. e ≡ Memory };

    fn from(_e: AllocFailed<T>) -> PartialAnswerFault {
        PartialAnswerFault::Memory
    }
}

/// The fault's name and its batch, as `NotApart 3.7`, or the refusal of the partial answer's text.
impl fmt::Display for PartialAnswerFault {
    fn fmt<W: fmt::Write>(&self, f: &mut fmt::Formatter<W>) -> fmt::Result {
        match self {
            PartialAnswerFault::Memory => f.write_str("Memory"),
            PartialAnswerFault::SchemaDiffers => f.write_str("SchemaDiffers"),
            PartialAnswerFault::QueryDiffers => f.write_str("QueryDiffers"),
            PartialAnswerFault::NotApart(name) => write!(f, "NotApart {name}"),
            PartialAnswerFault::TooMany => f.write_str("TooMany"),
            PartialAnswerFault::Query(refusal) => write!(f, "{refusal}"),
        }
    }
}

impl Error for PartialAnswerFault {}
