//! What holds a table: a file, or a folder of parts.

use std::fs::{self, Files};

/// What a command's operand is.
#[derive(Clone, Copy, Debug)]
pub enum Home<'a> {
    /// A file of this name, which is there or not.
    File(&'a str),
    /// A folder of this name.
    Folder(&'a str),
}

impl<'a> Home<'a> {
    /// What has this name: a folder, or a link to one, or else a file.
    pub fn of<R: Files>(rt: &R, name: &'a str) -> Home<'a> {
        if is_folder(rt, name) {
            Home::Folder(name)
        } else {
            Home::File(name)
        }
    }

    /// What is made under this name: a folder if it ends in `/`, or else a file.
    pub fn to_make(name: &'a str) -> Home<'a> {
        if name.ends_with('/') {
            Home::Folder(name)
        } else {
            Home::File(name)
        }
    }

    /// Its name.
    pub fn name(self) -> &'a str {
        match self {
            Home::File(name) | Home::Folder(name) => name,
        }
    }
}

/// Whether a name is that of a folder, or of a link to one.
pub fn is_folder<R: Files>(rt: &R, name: &str) -> bool {
    match fs::metadata(rt, name) {
        Ok(found) => found.is_dir(),
        Err(_) => false,
    }
}

/// Whether there is a file, a folder or a link of this name.
pub fn is_there<R: Files>(rt: &R, name: &str) -> bool {
    fs::symlink_metadata(rt, name).is_ok()
}
