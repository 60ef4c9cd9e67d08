//! Packing a folder: small parts are joined into one, which is put in their place.

use crate::folders::{Parts, SystemRound};
use crate::part_failures::{Unread, busy, unread_part};
use crate::putting::new_temporary;
use crate::replacing::{Round, round_of};
use crate::told_folder::ToldFolder;
use folder_parts::packed_prefix;
use folder_protocol::{Found, Looks};
use patience::Patience;
use program_changes::{CHANGED, UNCHANGED, say_line};
use program_failures::Failure;
use program_inputs::Host;
use refusal_sentences::CommandRefusal;
use std::fs::{self, Files};
use std::io::ErrorKind;
use table_model::Refusal;

/// Joins the small parts of a folder into one, until each part has more than a seventh of the bytes of those before it, or once all
/// parts; and says how many parts there are then, and how many were joined and removed.
pub fn pack<R: Host>(rt: &R, folder: &str, is_all: bool, is_quiet: bool) -> Result<(), Failure> {
    if is_file(rt, folder) {
        let refusal = CommandRefusal::from(Refusal::ReadFault);
        let words = "this is a file: lanes pack takes a folder";
        return Err(Failure::advised(rt.alloc(), refusal, folder, words));
    }
    sweep(rt, folder)?;
    let packed = pack_rounds(rt, folder, is_all)?;
    let parts = Parts::listed(rt, folder, true)?.count();
    let line = format!(in rt.alloc(); "ok parts={parts} packed={packed}\n")?;
    let left = if packed > 0 { CHANGED } else { UNCHANGED };
    say_line(rt, folder, left, line.as_str(), is_quiet)
}

/// Removes the temporaries of a folder that no process holds.
fn sweep<R: Host>(rt: &R, folder: &str) -> Result<(), Failure> {
    let mut system = ToldFolder::open(rt, folder, None)?;
    match folder_commands::sweep(rt.alloc(), &mut system) {
        Ok(()) => Ok(()),
        Err(error) => Err(system.unlisted(error)),
    }
}

/// Joins parts as long as there are some to be joined, or once all; how many were joined and removed. If another pack or a forget was
/// there, the parts are listed and chosen anew, until ten seconds are over.
fn pack_rounds<R: Host>(rt: &R, folder: &str, is_all: bool) -> Result<usize, Failure> {
    let mut packed = 0usize;
    let mut patience = Patience::new(rt);
    for _ in 0..u64::MAX {
        match pack_once(rt, folder, is_all)? {
            Round::Idle => return Ok(packed),
            Round::Replaced(count) => {
                packed = packed.saturating_add(count);
                if is_all {
                    return Ok(packed);
                }
                patience = Patience::new(rt);
            }
            Round::Overtaken => {
                if !patience.wait(rt) {
                    break;
                }
            }
        }
    }
    Err(busy(rt.alloc(), folder))
}

/// Whether a name is that of something else than a folder.
fn is_file<R: Files>(rt: &R, name: &str) -> bool {
    match fs::metadata(rt, name) {
        Ok(found) => !found.is_dir(),
        Err(_) => false,
    }
}

/// The names of the parts that are joined next, the smallest first.
fn chosen_parts<R: Host>(
    rt: &R,
    folder: &str,
    system: &mut SystemRound<'_, '_, R>,
    is_all: bool,
) -> Result<Vec<String>, Failure> {
    let sized = sized_parts(rt, folder, system)?;
    let mut sizes = Vec::with_capacity(rt.alloc(), sized.len())?;
    for (size, _) in sized.as_slice() {
        sizes.push(*size)?;
    }
    let count = if is_all {
        sized.len()
    } else {
        packed_prefix(sizes.as_slice())
    };
    let mut names = Vec::with_capacity(rt.alloc(), count)?;
    for (_, name) in sized.into_iter().take(count) {
        names.push(name)?;
    }
    Ok(names)
}

/// The parts of a folder with their sizes, in ascending order of size and then of name.
fn sized_parts<R: Host>(
    rt: &R,
    folder: &str,
    system: &mut SystemRound<'_, '_, R>,
) -> Result<Vec<(u64, String)>, Failure> {
    let parts = Parts::listed_in(rt, folder, system, false)?;
    let mut sized = Vec::with_capacity(rt.alloc(), parts.count())?;
    for name in parts.into_names() {
        match system.find(name.as_str()) {
            Ok(Found::File { size }) => sized.push((size, name))?,
            Ok(Found::Other) => return Err(unsized_part(
                rt,
                system,
                name.as_str(),
                ErrorKind::InvalidInput,
            )),
            Ok(_) => {}
            Err(error) => return Err(unsized_part(rt, system, name.as_str(), error.kind())),
        }
    }
    sized.sort()?;
    Ok(sized)
}

/// The refusal of a part that can't be joined, for this reason.
fn unsized_part<R: Host>(
    rt: &R,
    system: &SystemRound<'_, '_, R>,
    name: &str,
    kind: ErrorKind,
) -> Failure {
    match system.path_of(name) {
        Ok(path) => unread_part(rt.alloc(), path.as_str(), kind),
        Err(lacking) => Failure::from(lacking),
    }
}

/// Joins the parts that are to be joined next into one, and removes them: they are listed, read and replaced by the calls of the
/// protocol on one folder.
fn pack_once<R: Host>(rt: &R, folder: &str, is_all: bool) -> Result<Round, Failure> {
    let mut system = ToldFolder::open(rt, folder, None)?;
    let chosen = chosen_parts(rt, folder, &mut system, is_all)?;
    if chosen.len() < 2 {
        return Ok(Round::Idle);
    }
    let temporary = new_temporary(rt, folder)?;
    let temporary = temporary.as_str();
    match folder_commands::pack(rt.alloc(), &mut system, temporary, chosen.as_slice()) {
        Ok(Some(done)) => round_of(rt, folder, done),
        Ok(None) => Ok(Round::Idle),
        Err(fault) => match system.why(fault) {
            Unread::Gone | Unread::Folder => Ok(Round::Overtaken),
            Unread::Refused(failure) => Err(failure),
        },
    }
}
