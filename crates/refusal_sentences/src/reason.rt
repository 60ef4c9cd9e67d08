//! Why something can't be read or written, as the system says it.

use std::io::ErrorKind;

/// Why something can't be read.
pub fn unread(kind: ErrorKind) -> &'static str {
    match kind {
        ErrorKind::NotFound => "no such file or folder",
        ErrorKind::IsADirectory => "this is a folder",
        ErrorKind::PermissionDenied => "permission denied: this may not be read",
        ErrorKind::NotADirectory => "a part of the path is not a folder",
        ErrorKind::FilesystemLoop => "the symbolic links lead in a circle",
        ErrorKind::InvalidFilename => "the name is too long or not valid",
        ErrorKind::InvalidInput => "this name is not valid",
        ErrorKind::StaleNetworkFileHandle => "the file server has lost this file",
        ErrorKind::WouldBlock => "this has nothing to read now, and does not wait",
        _ => "this can't be read",
    }
}

/// Why something can't be written.
pub fn unwritten(kind: ErrorKind) -> &'static str {
    match kind {
        ErrorKind::NotFound => "there is no such folder",
        ErrorKind::IsADirectory => "this is a folder",
        ErrorKind::PermissionDenied => "permission denied: this may not be written",
        ErrorKind::ReadOnlyFilesystem => "the file system is read-only",
        ErrorKind::StorageFull => "no space is left on the device",
        ErrorKind::QuotaExceeded => "the quota of this user is used up",
        ErrorKind::FileTooLarge => "the file would be larger than is allowed",
        ErrorKind::BrokenPipe => "the reader has gone",
        ErrorKind::NotADirectory => "a part of the path is not a folder",
        ErrorKind::FilesystemLoop => "the symbolic links lead in a circle",
        ErrorKind::InvalidFilename => "the name is too long or not valid",
        ErrorKind::InvalidInput => "this name is not valid",
        ErrorKind::ResourceBusy => "the device is busy",
        ErrorKind::ExecutableFileBusy => "this is a program that runs",
        ErrorKind::WriteZero => "nothing more is taken",
        _ => "this can't be written",
    }
}
