//! What an error of the system says: that the file system has no locks, or no hard links; or that too many files are open.

use std::io;

// The numbers of Linux.
const EPERM: i32 = 1;

const ENFILE: i32 = 23;

const EMFILE: i32 = 24;

const EMLINK: i32 = 31;

const ENOLCK: i32 = 37;

const ENOSYS: i32 = 38;

const EOPNOTSUPP: i32 = 95;

/// Whether this error of a lock says that the file system has none.
pub fn has_no_locks(error: &io::Error) -> bool {
    matches!(error.raw_os_error(), Some(ENOSYS | EOPNOTSUPP | ENOLCK))
}

/// Whether this error of a hard link says that the file system makes none.
pub fn has_no_links(error: &io::Error) -> bool {
    matches!(error.raw_os_error(), Some(EPERM | EOPNOTSUPP | EMLINK))
}

/// Whether this error says that as many files are open as may be, by this process or by all.
pub fn has_too_many_files(error: &io::Error) -> bool {
    matches!(error.raw_os_error(), Some(EMFILE | ENFILE))
}

/// The error that says so.
pub fn too_many_files() -> io::Error {
    io::Error::from_raw_os_error(EMFILE)
}
