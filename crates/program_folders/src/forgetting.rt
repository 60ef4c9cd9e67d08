//! Forgetting in a folder: all parts are joined, and what is left of them without dead batches is put in their place.

use crate::folders::{Parts, SystemRound, no_part, passed_in};
use crate::part_failures::{Unread, busy};
use crate::putting::{keep_in, new_temporary};
use crate::replacing::{Round, round_of};
use crate::rounds::Rounds;
use crate::told_folder::ToldFolder;
use file_commands::Left;
use file_protocol::Replaced;
use folder_commands::{Forgot, forget};
use program_changes::{Done, Reply};
use program_failures::Failure;
use program_inputs::{Host, Progress};
use replica_store::Forgotten;

/// Drops the batches of a folder of which every row is deleted. If a pack or another forget was there meanwhile, the parts are read
/// anew, until ten seconds are over.
pub fn forget_folder<R: Host>(
    rt: &R,
    progress: &Progress<'_, R>,
    folder: &str,
) -> Result<Done, Failure> {
    let mut rounds = Rounds::new(rt);
    for _ in 0..u64::MAX {
        let outcome = forget_once(&*rt, &*progress, folder, rounds.is_careful());
        progress.clear();
        match outcome {
            Ok((done, left)) => return Ok(Done::new(Reply::Forgotten(done), left)),
            Err(why) => {
                if !rounds.again(rt, why)? {
                    break;
                }
            }
        }
    }
    Err(busy(rt.alloc(), folder))
}

/// Drops the batches that are dead in what all parts hold, and says how the folder is left: it is listed, read and changed by the calls
/// of the protocol on one folder. If no batch is dead, nothing is put or removed.
fn forget_once<'r, R: Host>(
    rt: &'r R,
    progress: &'r Progress<'r, R>,
    folder: &str,
    is_careful: bool,
) -> Result<(Forgotten, Left), Unread> {
    let mut system = ToldFolder::open(rt, folder, Some(progress))?;
    let passed = passed_in(rt.alloc(), &mut system, is_careful)?;
    let passed = passed.as_slice();
    let temporary = new_temporary(rt, folder)?;
    let forgot = match forget(rt.alloc(), &mut system, temporary.as_str(), passed) {
        Ok(Some(forgot)) => forgot,
        Ok(None) => return Err(Unread::Refused(no_part(rt.alloc(), folder))),
        Err(fault) => return Err(system.why(fault)),
    };
    let Forgot {
        dropped,
        names,
        replaced,
    } = forgot;
    let Some(done) = replaced else {
        return Ok((dropped, kept(rt, system, names, passed)?));
    };
    match round_of(rt, folder, done)? {
        Round::Replaced(_) => Ok((dropped, Left::Changed(Replaced::Synced))),
        Round::Overtaken | Round::Idle => Err(Unread::Gone),
    }
}

/// How a folder is left in which nothing is dropped: its parts are those of these names that are not passed over.
fn kept<R: Host>(
    rt: &R,
    system: SystemRound<'_, '_, R>,
    names: Vec<String>,
    passed: &[String],
) -> Result<Left, Failure> {
    let unreadable = system.unreadable();
    let parts = Parts::among(rt.alloc(), names, unreadable, passed)?;
    let mut system = system.into_inner();
    Ok(keep_in(rt.alloc(), &mut system, parts.names()))
}
