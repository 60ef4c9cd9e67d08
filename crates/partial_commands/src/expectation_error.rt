//! Why a partial answer is not answered under an expectation.
ghost use Rattle.std.specs.Prelude.{◌≡◌};
ghost use Rattle.partial_commands.specs.declared.expectation_error.ExpectationError.TheVariants as error;
ghost use Rattle.partial_commands.specs.declared.partial_answer_error.PartialAnswerError.TheVariants as partial;
ghost use Rattle.table_model.specs.declared.refusal.Refusal.TheVariants as refusal;

use crate::partial_answer_error::PartialAnswerError;
use std::alloc::AllocError;
use std::error::Error;
use std::fmt;
use table_model::{BatchName, Refusal};

/// Why a partial answer is not answered under an expectation.
#[derive(Clone, Copy, Debug, PartialEq, Eq)]
pub enum ExpectationError {
    /// A summary is of another table.
    SchemaDiffers,
    /// A batch that a summary names was not counted; the least.
    Missing(BatchName),
    /// The partial answer is not finished, or its answer is not written.
    Unanswered(PartialAnswerError),
}

impl From<PartialAnswerError> for ExpectationError {
    ghost from_gives = { λ unanswered e. e ≡ error.Unanswered unanswered };

    fn from(unanswered: PartialAnswerError) -> ExpectationError {
        ExpectationError::Unanswered(unanswered)
    }
}

impl From<Refusal> for ExpectationError {
    ghost from_gives = { λ refused e. e ≡ error.Unanswered (partial.Refused refused) };

    fn from(refused: Refusal) -> ExpectationError {
        ExpectationError::Unanswered(PartialAnswerError::Refused(refused))
    }
}

impl From<AllocError> for ExpectationError {
    ghost from_gives = { λ _ e. e ≡ error.Unanswered (partial.Refused refusal.Memory) };

    fn from(_e: AllocError) -> ExpectationError {
        ExpectationError::Unanswered(PartialAnswerError::Refused(Refusal::Memory))
    }
}

/// The name of the refusal and its place or batch, as `Missing 3.7`.
impl fmt::Display for ExpectationError {
    fn fmt<W: fmt::Write>(&self, f: &mut fmt::Formatter<W>) -> fmt::Result {
        match self {
            ExpectationError::SchemaDiffers => f.write_str("SchemaDiffers"),
            ExpectationError::Missing(name) => write!(f, "Missing {name}"),
            ExpectationError::Unanswered(error) => write!(f, "{error}"),
        }
    }
}

impl Error for ExpectationError {}
