//! Why the parts of a folder are refused, with the names of those that are at fault.

use folder_parts::PartFault;
use folder_system::{FolderFault, SystemFolder, path_in};
use program_changes::Heads;
use program_failures::{Failure, TOO_MANY_FILES};
use refusal_sentences::CommandRefusal;
use std::alloc::{AllocError, AllocFailed, Global};
use std::fs::{File, Files};
use std::io::ErrorKind;
use table_model::Refusal;

/// What is said of what has a part's name and can't be read as a file, such as a pipe.
const NO_FILE: &str = "this is neither a file nor a folder";

/// Why a look at a folder's parts came to nothing.
#[derive(Drop)]
pub enum Unread {
    /// One of them is gone since the folder was listed.
    Gone,
    /// One of the names is that of a folder, which is no part.
    Folder,
    /// They are refused.
    Refused(Failure),
}

impl From<Failure> for Unread {
    fn from(failure: Failure) -> Unread {
        Unread::Refused(failure)
    }
}

impl From<AllocError> for Unread {
    fn from(lacking: AllocError) -> Unread {
        Unread::Refused(Failure::from(lacking))
    }
}

impl<T: Drop> From<AllocFailed<T>> for Unread {
    fn from(_lacking: AllocFailed<T>) -> Unread {
        Unread::Refused(Failure::from(Refusal::Memory))
    }
}

/// Why the part of this path is not read, if the system gives this reason.
pub fn unread_for(alloc: Global, path: &str, kind: ErrorKind) -> Unread {
    match kind {
        ErrorKind::IsADirectory => Unread::Folder,
        kind => Unread::Refused(unread_part(alloc, path, kind)),
    }
}

/// The refusal of the part of this path, which the system does not read for this reason.
pub fn unread_part(alloc: Global, path: &str, kind: ErrorKind) -> Failure {
    match kind {
        ErrorKind::InvalidInput => {
            let refusal = CommandRefusal::from(Refusal::ReadFault);
            Failure::advised(alloc, refusal, path, NO_FILE)
        }
        kind => Failure::of_reason(alloc, Refusal::ReadFault, path, kind),
    }
}

/// The refusal of the part of one of these paths, by its index, which was begun last. Those before it were taken.
pub fn refused<R: Files + AllocGlobal>(
    rt: &R,
    paths: &[String],
    at: usize,
    fault: PartFault,
    heads: &Heads,
) -> Failure {
    let alloc = rt.alloc();
    let path = at_place(paths, at);
    match fault {
        PartFault::Damaged => Failure::of_file(rt, CommandRefusal::Damaged, path),
        PartFault::Refused(Refusal::SchemaDiffers) => {
            of_other_table(rt, heads, path, at_place(paths, 0))
        }
        PartFault::Refused(Refusal::Conflict(name)) => {
            let refusal = CommandRefusal::from(Refusal::Conflict(name));
            match heads.first_with(name) {
                Some(other) => Failure::of_both(alloc, refusal, path, at_place(paths, other)),
                None => Failure::of_file(rt, refusal, path),
            }
        }
        PartFault::Refused(refusal) => {
            let beginning = heads.take_last();
            Failure::of_input(
                rt,
                CommandRefusal::from(refusal),
                path,
                beginning.as_slice(),
            )
        }
    }
}

/// The refusal of the input that was begun last, which has this name: its table is another one than that of the first, which is the
/// other name's.
pub fn of_other_table<R: Files + AllocGlobal>(
    rt: &R,
    heads: &Heads,
    last: &str,
    first: &str,
) -> Failure {
    match (heads.last_table(), heads.first_table()) {
        (Some(found), Some(wanted)) => {
            Failure::of_tables(rt.alloc(), last, &found, first, &wanted)
        }
        _ => Failure::of_file(rt, CommandRefusal::from(Refusal::SchemaDiffers), last),
    }
}

/// The name or the path at this place.
pub fn at_place(names: &[String], at: usize) -> &str {
    match names.get(at) {
        Some(name) => name.as_str(),
        None => "",
    }
}

/// What a folder is refused as that can't be listed or locked.
pub fn of_folder(alloc: Global, folder: &str, fault: FolderFault) -> Failure {
    match fault {
        FolderFault::Busy => busy(alloc, folder),
        FolderFault::NoLock => {
            let words = "this folder can't be locked here, so that no part is removed from it";
            Failure::advised(
                alloc,
                CommandRefusal::from(Refusal::WriteFault),
                folder,
                words,
            )
        }
        FolderFault::TooManyFiles => {
            let refusal = CommandRefusal::from(Refusal::ReadFault);
            Failure::advised(alloc, refusal, folder, TOO_MANY_FILES)
        }
        FolderFault::Unlocked(kind) | FolderFault::System(kind) => {
            Failure::of_reason(alloc, Refusal::ReadFault, folder, kind)
        }
    }
}

/// A folder whose lock others have had for ten seconds, or whose parts are gone at each look.
pub fn busy(alloc: Global, folder: &str) -> Failure {
    let words = "another command has had this folder for ten seconds";
    Failure::advised(alloc, CommandRefusal::Busy, folder, words)
}

/// The refusal of a command that could not put or keep a part, since the system refuses a call for this reason: its lock, its listing,
/// a read of a part, or a write.
pub fn unkept<R: Files<File = File> + AllocGlobal>(
    rt: &R,
    folder: &str,
    system: &SystemFolder<'_, R>,
    kind: ErrorKind,
) -> Failure {
    match system.fault() {
        Some(FolderFault::Unlocked(kind)) => return unwritten(rt, folder, kind),
        Some(fault) => return of_folder(rt.alloc(), folder, fault),
        None => {}
    }
    let Some(name) = system.unread() else {
        return unwritten(rt, folder, kind);
    };
    match path_in(rt.alloc(), folder, name) {
        Ok(path) => unread_part(rt.alloc(), path.as_str(), kind),
        Err(lacking) => Failure::from(lacking),
    }
}

/// Why a part is not made for a folder. A failed write to memory is `Memory`.
pub fn unmade<R: Files + AllocGlobal>(rt: &R, folder: &str, refusal: Refusal) -> Failure {
    let refusal = match refusal {
        Refusal::WriteFault => Refusal::Memory,
        other => other,
    };
    Failure::of_change(rt, CommandRefusal::from(refusal), folder)
}

/// A folder that is not written, for this reason.
pub fn unwritten<R: AllocGlobal>(rt: &R, folder: &str, kind: ErrorKind) -> Failure {
    Failure::of_reason(rt.alloc(), Refusal::WriteFault, folder, kind)
}
