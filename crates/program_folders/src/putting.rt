//! Putting a part into a folder, and making a folder of one.

use crate::part_failures::unwritten;
use crate::told_folder::ToldFolder;
use file_commands::Left;
use file_protocol::Replaced;
use folder_commands::keep_and_put;
use folder_parts::part_name;
use folder_protocol::{self, Folder, Outcome};
use folder_system::{MakeFault, SystemFolder, make, path_in, temporary_name};
use program_failures::Failure;
use program_inputs::Host;
use refusal_sentences::CommandRefusal;
use std::alloc::Global;
use std::fs::{File, Files, Permissions};
use std::io::ErrorKind;
use std::random::RandomSource;

/// How often a part is put, if the one that was there before is gone when it is compared.
const TRIES: u32 = 100;

/// Puts these bytes into a folder as a part, with these permissions if there are some, unless the folder has it already. Answers how the
/// folder was synced.
pub fn put_part<R: Host>(
    rt: &R,
    folder: &str,
    permissions: Option<Permissions>,
    bytes: &[u8],
) -> Result<Replaced, Failure> {
    let mut system = opened(rt, folder)?;
    system.take_permissions(permissions);
    put_relying(rt, folder, system, &[], bytes)
}

/// Puts these bytes into a folder as a part, unless the folder has it already, once the parts of the names `relied` are on the disk.
/// If one of those can't be synced, nothing is put, and the refusal is `WriteFault` with its name. Answers how the folder was synced.
pub fn put_relying<'r, R: Host>(
    rt: &'r R,
    folder: &str,
    system: SystemFolder<'r, R>,
    relied: &[String],
    bytes: &[u8],
) -> Result<Replaced, Failure> {
    let name = part_name(rt.alloc(), bytes)?;
    let name = name.as_str();
    let mut system = system;
    for _ in 0..TRIES {
        let temporary = new_temporary(rt, folder)?;
        let temporary = temporary.as_str();
        let mut told = ToldFolder::of(rt, folder, system);
        match keep_and_put(rt.alloc(), &mut told, relied, temporary, name, bytes) {
            Ok(outcome) => {
                if let Some(replaced) = kept(rt, folder, name, outcome)? {
                    return Ok(replaced);
                }
            }
            Err(error) if error.kind() == ErrorKind::AlreadyExists => {}
            Err(error) => return Err(told.unput(error.kind())),
        }
        system = told.into_inner();
    }
    Err(unwritten(rt, folder, ErrorKind::ResourceBusy))
}

/// A new name for a temporary of a folder.
pub fn new_temporary<R: RandomSource + AllocGlobal>(
    rt: &R,
    folder: &str,
) -> Result<String, Failure> {
    match temporary_name(rt) {
        Ok(temporary) => Ok(temporary),
        Err(error) => Err(unwritten(rt, folder, error.kind())),
    }
}

/// Opens a folder to which a part is added, or from which parts are removed.
pub fn opened<'r, R: Files<File = File> + AllocGlobal>(
    rt: &'r R,
    folder: &str,
) -> Result<SystemFolder<'r, R>, Failure> {
    match SystemFolder::open(rt, folder) {
        Ok(system) => Ok(system),
        Err(error) => Err(unwritten(rt, folder, error.kind())),
    }
}

/// What came of having a part on the disk. None if it is gone.
pub fn kept<R: Files + AllocGlobal>(
    rt: &R,
    folder: &str,
    name: &str,
    outcome: Outcome,
) -> Result<Option<Replaced>, Failure> {
    match outcome {
        Outcome::OnDisk => Ok(Some(Replaced::Synced)),
        Outcome::Unsynced => Ok(Some(Replaced::Unsynced)),
        Outcome::Gone => Ok(None),
        Outcome::Damaged => {
            let path = path_in(rt.alloc(), folder, name)?;
            Err(Failure::of_file(rt, CommandRefusal::Damaged, path.as_str()))
        }
    }
}

/// Syncs the parts of these names of a folder, and says how it is left.
pub fn keep_in<F: Folder>(alloc: Global, folder: &mut F, names: &[String]) -> Left {
    match folder_protocol::keep_all(alloc, folder, names) {
        Ok(()) => Left::Kept,
        Err(_) => Left::KeptUnsynced,
    }
}

/// Makes a folder that has these bytes as its one part. Answers how the folder that it is in was synced.
pub fn make_folder<R: Host>(rt: &R, folder: &str, bytes: &[u8]) -> Result<Replaced, Failure> {
    let name = part_name(rt.alloc(), bytes)?;
    match make(rt, folder, name.as_str(), bytes) {
        Ok(true) => Ok(Replaced::Synced),
        Ok(false) => Ok(Replaced::Unsynced),
        Err(MakeFault::Exists) => Err(Failure::of_file(rt, CommandRefusal::Exists, folder)),
        Err(MakeFault::System(kind)) => Err(unwritten(rt, folder, kind)),
    }
}
