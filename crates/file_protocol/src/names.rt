//! The names next to a file's.
ghost use Rattle.std.specs.Prelude.{◌<◌, IfOk, length};
ghost use Rattle.std.specs.String.{string_bytes};

use std::alloc::{AllocError, Global};

/// The name of a file's folder.
pub fn folder_of(name: &str) -> &str {
    match name.rsplit_once('/') {
        None => ".",
        Some((folder, _)) => { if folder.is_empty() { "/" } else { folder } }
    }
}

/// The name of a file's lock, which is longer: `.NAME.lanes-lock` next to it.
pub fn lock_of(alloc: Global, name: &str) -> Result<String, AllocError>
    ensures { IfOk result (λ lock. length name.now < length (string_bytes lock)) }
{
    let mut lock = String::new(alloc);
    let last = match name.rsplit_once('/') {
        None => name,
        Some((folder, last)) => {
            lock.push_str(folder)?;
            lock.push_str("/")?;
            last
        }
    };
    lock.push_str(".")?;
    lock.push_str(last)?;
    lock.push_str(".lanes-lock")?;
    Ok(lock)
}
