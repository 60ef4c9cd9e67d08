//! Temporaries: who has one, and how its file comes to its name.

use crate::refusals::{has_no_links, has_no_locks};
use std::fs::{self, File, Files, TryLockError};
use std::io::{self, ErrorKind};
use std::os::unix::fs::MetadataExt;

/// Whether a file that was just made is this process's: a sweep has not come first. If the file system has no locks it is without.
pub fn is_ours<R: Files>(rt: &R, file: &File, path: &str) -> io::Result<bool> {
    match file.try_lock() {
        Ok(()) => Ok(is_named(rt, file, path)),
        Err(TryLockError::WouldBlock) => Ok(false),
        Err(TryLockError::Error(error)) if has_no_locks(&error) => Ok(is_named(rt, file, path)),
        Err(TryLockError::Error(error)) => Err(error),
    }
}

/// Whether an open file is the one that a path leads to, and no link to it.
pub fn is_named<R: Files>(rt: &R, file: &File, path: &str) -> bool {
    let (Ok(open), Ok(named)) = (file.metadata(), fs::symlink_metadata(rt, path)) else {
        return false;
    };
    open.ino() == named.ino() && open.dev() == named.dev()
}

/// Removes a path, if it is that of a plain file whose lock is to be had; and whether it did.
pub fn remove_unheld<R: Files<File = File>>(rt: &R, path: &str) -> io::Result<bool> {
    if !fs::symlink_metadata(rt, path)?.is_file() {
        return Ok(false);
    }
    let file = fs::open(rt, path)?;
    if file.try_lock().is_err() || !is_named(rt, &file, path) {
        return Ok(false);
    }
    fs::remove_file(rt, path)?;
    Ok(true)
}

/// Gives the file of one path another path by a hard link, unless something has that, and answers whether it did. If the file system
/// has no hard links the file is renamed.
pub fn link_or_rename<R: Files>(rt: &R, from: &str, to: &str) -> io::Result<bool> {
    match fs::hard_link(rt, from, to) {
        Ok(()) => Ok(true),
        Err(error) if error.kind() == ErrorKind::AlreadyExists => Ok(false),
        Err(error) if has_no_links(&error) => rename_to_new(rt, from, to),
        Err(error) => Err(error),
    }
}

/// Renames a file if nothing has the other path, and answers whether it did. Another process may put the same name in between.
fn rename_to_new<R: Files>(rt: &R, from: &str, to: &str) -> io::Result<bool> {
    match fs::symlink_metadata(rt, to) {
        Ok(_) => Ok(false),
        Err(error) if error.kind() == ErrorKind::NotFound => fs::rename(rt, from, to).map(|_| true),
        Err(error) => Err(error),
    }
}
