//! Why something was not done with a folder.

use crate::refusals::has_too_many_files;
use std::alloc::AllocError;
use std::error::Error;
use std::fmt;
use std::io::{self, ErrorKind};

/// Why something was not done with a folder, which is as it was unless its caller says otherwise.
#[derive(Clone, Copy, Debug, PartialEq, Eq)]
pub enum FolderFault {
    /// Others have had its lock for ten seconds.
    Busy,
    /// The file system has no locks of folders.
    NoLock,
    /// The system refuses its lock, for this reason.
    Unlocked(ErrorKind),
    /// As many files are open as may be.
    TooManyFiles,
    /// The system refuses, for this reason.
    System(ErrorKind),
}

impl From<io::Error> for FolderFault {
    fn from(error: io::Error) -> FolderFault {
        if has_too_many_files(&error) {
            FolderFault::TooManyFiles
        } else {
            FolderFault::System(error.kind())
        }
    }
}

impl From<AllocError> for FolderFault {
    fn from(_lacking: AllocError) -> FolderFault {
        FolderFault::System(ErrorKind::OutOfMemory)
    }
}

impl fmt::Display for FolderFault {
    fn fmt<W: fmt::Write>(&self, f: &mut fmt::Formatter<W>) -> fmt::Result {
        match self {
            FolderFault::Busy => f.write_str("others have had the folder's lock for ten seconds"),
            FolderFault::NoLock => f.write_str("the file system has no locks of folders"),
            FolderFault::Unlocked(kind) => write!(
                f,
                "the system refuses the folder's lock: {kind}"
            ),
            FolderFault::TooManyFiles => f.write_str("too many files are open"),
            FolderFault::System(kind) => write!(f, "the system refuses: {kind}"),
        }
    }
}

impl Error for FolderFault {}
