//! A folder that is made at once, with one file in it.

use crate::names::{path_in, temporary_name, unfinished_name};
use crate::sweeping::{remove_unfinished, sweep_unfinished};
use crate::system::SystemFolder;
use crate::temporary::is_ours;
use folder_protocol::{Outcome, put};
use std::alloc::AllocError;
use std::error::Error;
use std::fmt;
use std::fs::{self, File, Files};
use std::io::{self, ErrorKind};
use std::random::RandomSource;
use std::rt::Clock;

/// Why a folder was not made.
#[derive(Clone, Copy, Debug, PartialEq, Eq)]
pub enum MakeFault {
    /// Something has its name.
    Exists,
    /// The system refuses, for this reason.
    System(ErrorKind),
}

impl From<io::Error> for MakeFault {
    fn from(error: io::Error) -> MakeFault {
        MakeFault::System(error.kind())
    }
}

impl From<AllocError> for MakeFault {
    fn from(_lacking: AllocError) -> MakeFault {
        MakeFault::System(ErrorKind::OutOfMemory)
    }
}

impl fmt::Display for MakeFault {
    fn fmt<W: fmt::Write>(&self, f: &mut fmt::Formatter<W>) -> fmt::Result {
        match self {
            MakeFault::Exists => f.write_str("something has the folder's name"),
            MakeFault::System(kind) => write!(f, "the system refuses: {kind}"),
        }
    }
}

impl Error for MakeFault {}

/// How many names are tried for a folder that is made. Each is new, so another one is wanted only if a sweep came between.
const TRIES: u32 = 100;

/// Makes a folder that has one part, of this name and with these bytes: all at once, on the disk, or not at all. It is made next to its
/// place as `.NAME.lanes-new-` and 16 digits, and the part is put into that by the calls of the protocol. A crash may leave that, and the
/// next call of the same name removes it. Slashes at the end of the folder's name say nothing. Answers whether the folder that it is in
/// could be synced.
pub fn make<R: Files<File = File> + Clock + RandomSource + AllocGlobal + Clone + Drop>(
    rt: &R,
    folder: &str,
    file: &str,
    bytes: &[u8],
) -> Result<bool, MakeFault> {
    let name = folder.trim_end_matches('/');
    if name.is_empty() || fs::symlink_metadata(rt, name).is_ok() {
        return Err(MakeFault::Exists);
    }
    let (above, last) = match name.rsplit_once('/') {
        None => (".", name),
        Some(("", last)) => ("/", last),
        Some((above, last)) => (above, last),
    };
    let outer = fs::open(rt, above)?;
    let (_held, new) = made(rt, above, last)?;
    match filled(rt, new.as_str(), file, bytes).and_then(|_| fs::rename(rt, new.as_str(), name)) {
        Ok(()) => {
            let is_synced = outer.sync_all().is_ok();
            let _ = sweep_unfinished(rt, above, last);
            Ok(is_synced)
        }
        Err(error) => {
            let _ = remove_unfinished(rt, new.as_str());
            Err(fault_of(&error))
        }
    }
}

/// Makes an empty folder next to the place of another one, and takes its lock, so that no sweep removes it. If the file system has no
/// locks it is without, and no sweep removes it.
fn made<R: Files<File = File> + RandomSource + AllocGlobal>(
    rt: &R,
    above: &str,
    last: &str,
) -> io::Result<(File, String)> {
    for _ in 0..TRIES {
        let name = unfinished_name(rt, last)?;
        let path = path_in(rt.alloc(), above, name.as_str())?;
        match fs::create_dir(rt, path.as_str()) {
            Ok(()) => {
                if let Some(folder) = held(rt, path.as_str())? {
                    return Ok((folder, path));
                }
            }
            Err(error) if error.kind() == ErrorKind::AlreadyExists => {}
            Err(error) => return Err(error),
        }
    }
    Err(io::Error::from(ErrorKind::ResourceBusy))
}

/// The folder that was just made, open and with its lock. None if a sweep came first.
fn held<R: Files<File = File>>(rt: &R, path: &str) -> io::Result<Option<File>> {
    match fs::open(rt, path) {
        Ok(folder) => match is_ours(rt, &folder, path) {
            Ok(true) => Ok(Some(folder)),
            Ok(false) => Ok(None),
            Err(error) => undone(rt, path, error),
        },
        Err(error) if error.kind() == ErrorKind::NotFound => Ok(None),
        Err(error) => undone(rt, path, error),
    }
}

/// Removes a folder that was just made, and is not to be had for this reason.
fn undone<R: Files>(rt: &R, path: &str, error: io::Error) -> io::Result<Option<File>> {
    let _ = fs::remove_dir(rt, path);
    Err(error)
}

/// Puts a part into a folder that was just made, and has both on the disk.
fn filled<R: Files<File = File> + Clock + RandomSource + AllocGlobal + Clone + Drop>(
    rt: &R,
    folder: &str,
    name: &str,
    bytes: &[u8],
) -> io::Result<()> {
    let mut system = SystemFolder::open(rt, folder)?;
    let temporary = temporary_name(rt)?;
    match put(rt.alloc(), &mut system, temporary.as_str(), name, bytes)? {
        Outcome::OnDisk => Ok(()),
        Outcome::Unsynced => Err(io::Error::from(system.unsynced().unwrap_or(ErrorKind::Other))),
        Outcome::Gone | Outcome::Damaged => Err(io::Error::from(ErrorKind::AlreadyExists)),
    }
}

/// What an error of the rename means: a folder that is not empty, or a file, has the name meanwhile.
fn fault_of(error: &io::Error) -> MakeFault {
    match error.kind() {
        ErrorKind::AlreadyExists | ErrorKind::DirectoryNotEmpty | ErrorKind::NotADirectory => {
            MakeFault::Exists
        }
        kind => MakeFault::System(kind),
    }
}
