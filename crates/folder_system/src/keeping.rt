//! Files of a folder that are there already.

use crate::names::is_link;
use folder_protocol::{Found, Opened};
use std::fs::{self, File, Files};
use std::io::{self, ErrorKind};

/// Opens the file of a path. What is neither a file nor a folder, such as a pipe, is not opened: that could wait without an end.
fn open_plain<R: Files<File = File>>(rt: &R, path: &str) -> io::Result<File> {
    let found = fs::metadata(rt, path)?;
    if found.is_file() || found.is_dir() {
        fs::open(rt, path)
    } else {
        Err(io::Error::from(ErrorKind::InvalidInput))
    }
}

/// Whether an error says that nothing has a path. That a link leads nowhere is another error.
fn is_missing<R: Files>(rt: &R, path: &str, error: &io::Error) -> bool {
    error.kind() == ErrorKind::NotFound && !is_link(rt, path)
}

/// Opens the file of a path, if there is one.
pub fn open_if_there<R: Files<File = File>>(rt: &R, path: &str) -> io::Result<Option<File>> {
    match open_plain(rt, path) {
        Ok(file) => Ok(Some(file)),
        Err(error) if is_missing(rt, path, &error) => Ok(None),
        Err(error) => Err(error),
    }
}

/// Opens the file of a path to look into it, if there is one. A folder is an error.
pub fn open_to_look<R: Files<File = File>>(rt: &R, path: &str) -> io::Result<Option<Opened<File>>> {
    let Some(file) = open_if_there(rt, path)? else {
        return Ok(None);
    };
    let found = file.metadata()?;
    if found.is_dir() {
        return Err(io::Error::from(ErrorKind::IsADirectory));
    }
    let size = found.len();
    Ok(Some(Opened { file, size }))
}

/// What has a path.
pub fn find<R: Files>(rt: &R, path: &str) -> io::Result<Found> {
    match fs::metadata(rt, path) {
        Ok(found) if found.is_file() => Ok(Found::File { size: found.len() }),
        Ok(found) if found.is_dir() => Ok(Found::Folder),
        Ok(_) => Ok(Found::Other),
        Err(error) if is_missing(rt, path, &error) => Ok(Found::Nothing),
        Err(error) => Err(error),
    }
}
