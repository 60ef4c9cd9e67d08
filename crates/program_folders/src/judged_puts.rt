//! Parts with batches of given names, as of a named load or of offers, each of which is put once it goes with all that is there.

use crate::folders::{Basis, SystemRound};
use crate::judge::Judge;
use crate::part_failures::{busy, unkept};
use crate::putting::{kept, new_temporary, put_relying};
use crate::told_folder::ToldFolder;
use file_commands::Left;
use file_protocol::Replaced;
use folder_commands::keep_and_put_judged;
use folder_parts::part_name;
use folder_protocol::{Untaken, take_all};
use folder_system::{FolderFault, SystemFolder};
use patience::Patience;
use program_changes::Done;
use program_failures::Failure;
use program_inputs::Host;
use replica_changes::Answer;
use std::io::ErrorKind;

/// Puts the part of a command once it goes with all that is there, or has the parts that were read on the disk if there is nothing to
/// put.
pub fn finish_judged<'r, R: Host>(
    rt: &'r R,
    folder: &str,
    basis: Basis<'r, R>,
    answer: Answer,
    bytes: &[u8],
) -> Result<Done, Failure> {
    let left = if answer.is_changed() {
        Left::Changed(put_judged(rt, folder, basis, bytes)?)
    } else {
        basis.keep(rt.alloc())
    };
    Ok(Done::added(answer, left))
}

/// Adds a part that agrees with the given parts, once those on which it relies are on the disk. If others came meanwhile they are checked
/// first. The part is written first; then, under the folder's exclusive lock, the folder is listed, and if no part came it is given its
/// name. Otherwise the parts that came are checked, and it is put anew, until ten seconds are over. If the file system has no such lock
/// it goes without, and readers find two lists of rows of one name.
///
/// Refused as `Conflict` is a part that has other rows under a name that came since, and as `WriteFault` one that relies on a part that
/// can't be synced.
fn put_judged<'r, R: Host>(
    rt: &'r R,
    folder: &str,
    basis: Basis<'r, R>,
    bytes: &[u8],
) -> Result<Replaced, Failure> {
    let name = part_name(rt.alloc(), bytes)?;
    let name = name.as_str();
    let Basis {
        parts,
        relied,
        mut system,
    } = basis;
    let relied = relied.as_slice();
    let mut judge = Judge::new(rt, folder, bytes, parts.names())?;
    let mut patience = Patience::new(rt);
    for _ in 0..u64::MAX {
        let mut told = ToldFolder::of(rt, folder, system);
        if let Some(replaced) = put_once(rt, folder, &mut told, relied, name, bytes, &judge)? {
            return Ok(replaced);
        }
        system = told.into_inner();
        let has_no_lock = system.fault() == Some(FolderFault::NoLock);
        look(rt, folder, &mut system, &mut judge)?;
        if has_no_lock {
            return put_relying(rt, folder, system, relied, bytes);
        }
        if !patience.wait(rt) {
            break;
        }
    }
    Err(busy(rt.alloc(), folder))
}

/// Puts the part, if no other one came. None if one did, or the folder has no lock: it is to be looked at.
fn put_once<R: Host>(
    rt: &R,
    folder: &str,
    system: &mut SystemRound<'_, '_, R>,
    relied: &[String],
    name: &str,
    bytes: &[u8],
    judge: &Judge<'_, R>,
) -> Result<Option<Replaced>, Failure> {
    let temporary = new_temporary(rt, folder)?;
    let temporary = temporary.as_str();
    match keep_and_put_judged(rt.alloc(), system, relied, temporary, name, bytes, judge) {
        Ok(Some(outcome)) => kept(rt, folder, name, outcome),
        Ok(None) => Ok(None),
        // A sweep came between: it is tried anew.
        Err(error) if error.kind() == ErrorKind::AlreadyExists => Ok(None),
        Err(_) if system.fault() == Some(FolderFault::NoLock) => Ok(None),
        Err(error) => Err(system.unput(error.kind())),
    }
}

/// Looks at the parts that came.
fn look<R: Host>(
    rt: &R,
    folder: &str,
    system: &mut SystemFolder<'_, R>,
    judge: &mut Judge<'_, R>,
) -> Result<(), Failure> {
    match take_all(rt.alloc(), system, judge) {
        Ok(names) => {
            judge.saw(names);
            Ok(())
        }
        Err(Untaken::Gone) => Ok(()),
        Err(Untaken::Failed(error)) if error.kind() == ErrorKind::IsADirectory => {
            match system.unread() {
                Some(name) => judge.saw_folder(name),
                None => Ok(()),
            }
        }
        Err(Untaken::Failed(error)) => Err(unkept(rt, folder, system, error.kind())),
        Err(Untaken::Refused(failure)) => Err(failure),
    }
}
