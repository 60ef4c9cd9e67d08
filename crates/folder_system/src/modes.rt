//! The mode of a folder's parts, which a new part takes.

use crate::names::path_in;
use crate::sweeping::is_part_name;
use std::fs::{self, Files, Permissions};

/// The permissions of the part with the least name that is a file, of names in ascending order; None if there is no such part, or its
/// permissions can't be had. A new part takes them, so that who reads the parts reads that one too, whatever the process's umask is.
pub fn permissions_of_least<R: Files + AllocGlobal>(
    rt: &R,
    folder: &str,
    names: &[String],
) -> Option<Permissions> {
    for name in names {
        if !is_part_name(name.as_str()) {
            continue;
        }
        let path = path_in(rt.alloc(), folder, name.as_str()).ok()?;
        match fs::metadata(rt, path.as_str()) {
            Ok(found) if found.is_file() => return Some(found.permissions()),
            _ => {}
        }
    }
    None
}
