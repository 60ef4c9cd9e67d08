//! Folders that were not made to the end, and that nobody holds any more.

use crate::names::{is_unfinished, path_in};
use crate::temporary::is_named;
use folder_protocol::is_temporary;
use std::fs::{self, File, Files};
use std::io::{self, ErrorKind};

/// How the names of parts end.
const PART: &str = ".lanes";

/// How many digits come before that.
const PART_DIGITS: usize = 32;

/// Removes the folders next to the place of one of this name that were not made to the end, and that no process holds. No age is
/// looked at.
pub fn sweep_unfinished<R: Files<File = File> + AllocGlobal + Clone + Drop>(
    rt: &R,
    above: &str,
    last: &str,
) -> io::Result<()> {
    for entry in fs::read_dir(rt, above)? {
        let Ok(entry) = entry else {
            return Ok(());
        };
        if is_unfinished(entry.file_name(), last) {
            let path = path_in(rt.alloc(), above, entry.file_name())?;
            let _ = sweep_folder(rt, path.as_str());
        }
    }
    Ok(())
}

/// Removes a folder that was not made to the end, if its lock is to be had and it still has its name.
fn sweep_folder<R: Files<File = File> + AllocGlobal + Clone + Drop>(
    rt: &R,
    path: &str,
) -> io::Result<()> {
    if !fs::symlink_metadata(rt, path)?.is_dir() {
        return Ok(());
    }
    let folder = fs::open(rt, path)?;
    if folder.try_lock().is_err() || !is_named(rt, &folder, path) {
        return Ok(());
    }
    remove_unfinished(rt, path)
}

/// Removes a folder that is not made to the end, with the parts and temporaries in it. If it has anything else it stays as it is.
pub fn remove_unfinished<R: Files + AllocGlobal + Clone + Drop>(
    rt: &R,
    path: &str,
) -> io::Result<()> {
    let files = paths_in(rt, path)?;
    for file in files.as_slice() {
        fs::remove_file(rt, file.as_str())?;
    }
    fs::remove_dir(rt, path)
}

/// Whether a name is that of a part: 32 digits of `0` to `9` and `a` to `f`, and `.lanes`.
pub fn is_part_name(name: &str) -> bool {
    match name.strip_suffix(PART) {
        Some(digits) => {
            digits.len() == PART_DIGITS
                && digits
                    .bytes()
                    .all(|byte| matches!(byte, b'0'..=b'9' | b'a'..=b'f'))
        }
        None => false,
    }
}

/// The paths of the parts and temporaries in a folder. If it has anything else that is an error.
fn paths_in<R: Files + AllocGlobal + Clone + Drop>(rt: &R, path: &str) -> io::Result<Vec<String>> {
    let mut paths = Vec::new(rt.alloc());
    for entry in fs::read_dir(rt, path)? {
        let entry = entry?;
        let name = entry.file_name();
        if !is_part_name(name) && !is_temporary(name) {
            return Err(io::Error::from(ErrorKind::DirectoryNotEmpty));
        }
        paths.push(path_in(rt.alloc(), path, name)?)?;
    }
    Ok(paths)
}
