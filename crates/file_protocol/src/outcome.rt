//! What came of replacing a file.

use std::error::Error;
use std::fmt;

/// How a file was replaced.
#[derive(Clone, Copy, Debug, PartialEq, Eq, Drop)]
pub enum Replaced {
    /// On the disk: no loss of power brings the old file back.
    Synced,
    /// Its folder could not be synced: every process reads the new file, but a loss of power may bring the old one back.
    Unsynced,
}

/// Why a file was not replaced.
#[derive(Clone, Copy, Debug, PartialEq, Eq, Drop)]
pub enum ReplaceError {
    /// It is as it was.
    Unchanged,
    /// It is as it was or replaced; a crash may leave either.
    Unsure,
}

impl fmt::Display for ReplaceError {
    fn fmt<W: fmt::Write>(&self, f: &mut fmt::Formatter<W>) -> fmt::Result {
        match self {
            ReplaceError::Unchanged => f.write_str("the file is unchanged"),
            ReplaceError::Unsure => f.write_str("the file is unchanged or replaced"),
        }
    }
}

impl Error for ReplaceError {}
