//! Why a file is not written.

use crate::failure::Failure;
use file_protocol::{HoldError, Place};
use refusal_sentences::CommandRefusal;
use std::fs::Files;
use std::io::ErrorKind;
use table_model::Refusal;

/// What is said of a file if its lock may not be made.
const NO_NEW_FILE: &str =
    "permission denied: the folder that it is in may not be written, and a file is replaced whole";

/// Why a file is not held for a change.
#[derive(Clone, Copy, Debug, PartialEq, Eq, Drop)]
pub enum Unheld {
    /// Its lock is not had, and the system's reason if it is known.
    Lock(HoldError, Option<ErrorKind>),
    /// It may not be written, for this reason of the system.
    File(ErrorKind),
}

impl Unheld {
    /// Whether another command has had the lock for too long.
    pub fn is_busy(self) -> bool {
        matches!(self, Unheld::Lock(HoldError::Busy, _))
    }
}

/// A file that is not written, for this reason if the system gives one.
pub fn not_written<R: Files + AllocGlobal>(
    rt: &R,
    file: &str,
    reason: Option<ErrorKind>,
) -> Failure {
    match reason {
        Some(kind) => Failure::of_reason(rt.alloc(), Refusal::WriteFault, file, kind),
        None => Failure::of_file(rt, CommandRefusal::from(Refusal::WriteFault), file),
    }
}

/// The refusal of a file that could not be held: of its lock, if something else has its name.
pub fn unlocked<R: Files + AllocGlobal>(rt: &R, file: &str, place: &Place, why: Unheld) -> Failure {
    match why {
        Unheld::Lock(HoldError::Busy, _) => Failure::of_file(rt, CommandRefusal::Busy, file),
        Unheld::Lock(HoldError::Unmade, Some(ErrorKind::PermissionDenied)) => {
            let refusal = CommandRefusal::from(Refusal::WriteFault);
            Failure::advised(rt.alloc(), refusal, file, NO_NEW_FILE)
        }
        Unheld::Lock(HoldError::Unmade, reason) => not_written(rt, file, reason),
        Unheld::Lock(HoldError::InTheWay, _) => Failure::of_lock(rt.alloc(), place.lock()),
        Unheld::File(reason) => not_written(rt, file, Some(reason)),
    }
}
