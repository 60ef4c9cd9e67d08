//! Why a partial answer is not combined or finished.
ghost use Rattle.std.specs.Prelude.{◌≡◌};
ghost use Rattle.partial_commands.specs.declared.partial_answer_error.PartialAnswerError.TheVariants as error;
ghost use Rattle.table_model.specs.declared.refusal.Refusal.TheVariants as refusal;

use partial_answers::PartialAnswerFault;
use std::alloc::{AllocError, AllocFailed};
use std::error::Error;
use std::fmt;
use table_model::Refusal;

/// Why a partial answer is not combined or finished.
#[derive(Clone, Copy, Debug, PartialEq, Eq)]
pub enum PartialAnswerError {
    /// Reading or writing it is refused.
    Refused(Refusal),
    /// Partial answers that don't go together, or a partial answer that can't be finished.
    Fault(PartialAnswerFault),
}

impl From<Refusal> for PartialAnswerError {
    ghost from_gives = { λ refused e. e ≡ error.Refused refused };

    fn from(refused: Refusal) -> PartialAnswerError {
        PartialAnswerError::Refused(refused)
    }
}

impl From<PartialAnswerFault> for PartialAnswerError {
    ghost from_gives = { λ fault e. e ≡ error.Fault fault };

    fn from(fault: PartialAnswerFault) -> PartialAnswerError {
        PartialAnswerError::Fault(fault)
    }
}

impl From<AllocError> for PartialAnswerError {
    ghost from_gives = { λ _ e. e ≡ error.Refused refusal.Memory };

    fn from(_e: AllocError) -> PartialAnswerError {
        PartialAnswerError::Refused(Refusal::Memory)
    }
}

impl<T: Drop> From<AllocFailed<T>> for PartialAnswerError {
    ghost from_gives = { λ _ e. e ≡ error.Refused refusal.Memory };

    fn from(_e: AllocFailed<T>) -> PartialAnswerError {
        PartialAnswerError::Refused(Refusal::Memory)
    }
}

/// The name of the refusal and its place or batch, as `Syntax 7` or `NotApart 3.7`.
impl fmt::Display for PartialAnswerError {
    fn fmt<W: fmt::Write>(&self, f: &mut fmt::Formatter<W>) -> fmt::Result {
        match self {
            PartialAnswerError::Refused(refusal) => write!(f, "{refusal}"),
            PartialAnswerError::Fault(fault) => write!(f, "{fault}"),
        }
    }
}

impl Error for PartialAnswerError {}
