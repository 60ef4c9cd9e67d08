//! Folders of parts, as commands read them: they are listed under a lock, and read part by part.
ghost use Rattle.column_file.specs.Files.{AreCanonicalOf};

use crate::part_failures::{Unread, busy};
use crate::putting::keep_in;
use crate::rounds::Rounds;
use crate::told_folder::ToldFolder;
use file_commands::Left;
use folder_commands::{Read, Reliance, read_folder};
use folder_parts::is_part_name;
use folder_protocol::{Found, Looks, list_names};
use folder_system::SystemFolder;
use program_failures::Failure;
use program_inputs::{Host, Progress};
use refusal_sentences::CommandRefusal;
use replica_reports::OpenFile;
use replica_store::Store;
use std::alloc::{AllocError, Global};
use table_model::Refusal;

/// The parts of a folder at one look, by their names in ascending order, and how many other names it has.
#[derive(Drop)]
pub struct Parts {
    names: Vec<String>,
    others: usize,
}

/// What a folder holds, and its parts.
#[derive(Drop)]
pub struct Opened<H> {
    pub held: H,
    pub parts: Parts,
}

/// What a command that may add a part has found in a folder.
#[derive(Drop)]
pub struct Basis<'r, R: Host> {
    /// The parts that it has read.
    pub parts: Parts,
    /// The names of those on which it relies.
    pub relied: Vec<String>,
    /// The folder as it was read.
    pub system: SystemFolder<'r, R>,
}

impl<'r, R: Host> Basis<'r, R> {
    /// Has all that was read on the disk, for a command that adds nothing since all that it brings is there, and says how it is left.
    pub fn keep(self, alloc: Global) -> Left {
        let Basis {
            parts,
            mut system,
            ..
        } = self;
        keep_in(alloc, &mut system, parts.names())
    }
}

/// What parts are opened as: a file that is asked, or a store that is changed.
pub trait Opens: Sized {
    /// What a store holds whose segments are canonical.
    fn from_store(store: Store) -> Self
        requires { AreCanonicalOf store.replica.schema store.replica.state.batches store.segments };
}

impl Opens for OpenFile {
    fn from_store(store: Store) -> OpenFile {
        OpenFile::from_store(store)
    }
}

impl Opens for Store {
    fn from_store(store: Store) -> Store {
        store
    }
}

impl Parts {
    /// The parts among the names in a folder, which has so many more that are not UTF-8. These names are those of folders, which are no
    /// parts.
    pub fn among(
        alloc: Global,
        names: Vec<String>,
        unreadable: usize,
        folders: &[String],
    ) -> Result<Parts, AllocError> {
        let mut parts = Parts {
            names: Vec::new(alloc),
            others: unreadable,
        };
        for name in names {
            if is_part_name(name.as_str()) && !folders.contains(&name) {
                parts.names.push(name)?;
            } else {
                parts.others = parts.others.saturating_add(1);
            }
        }
        Ok(parts)
    }

    /// The parts of a folder, listed under its shared lock. There is at least one. A folder is not a part, even if named like one; that
    /// is looked at only if it is asked for.
    pub fn listed<R: Host>(rt: &R, folder: &str, is_careful: bool) -> Result<Parts, Failure> {
        let mut system = ToldFolder::open(rt, folder, None)?;
        Parts::listed_in(rt, folder, &mut system, is_careful)
    }

    /// The parts of a folder that is open, listed under its shared lock, as [`Parts::listed`] finds them.
    pub fn listed_in<R: Host>(
        rt: &R,
        folder: &str,
        system: &mut SystemRound<'_, '_, R>,
        is_careful: bool,
    ) -> Result<Parts, Failure> {
        let names = names_in(rt.alloc(), system)?;
        let folders = if is_careful {
            folders_among(rt.alloc(), system, names.as_slice())?
        } else {
            Vec::new(rt.alloc())
        };
        let unreadable = system.unreadable();
        let parts = Parts::among(rt.alloc(), names, unreadable, folders.as_slice())?;
        if parts.names.as_slice().is_empty() {
            return Err(no_part(rt.alloc(), folder));
        }
        Ok(parts)
    }

    /// The names, in ascending order.
    pub fn names(&self) -> &[String] {
        self.names.as_slice()
    }

    /// The names, in ascending order.
    pub fn into_names(self) -> Vec<String> {
        self.names
    }

    /// How many parts there are.
    pub fn count(&self) -> usize {
        self.names.len()
    }

    /// How many other names the folder has.
    pub fn others(&self) -> usize {
        self.others
    }
}

/// A folder of the system, as a round of a command reads it.
pub type SystemRound<'r, 'n, R> = ToldFolder<'r, 'n, R, SystemFolder<'r, R>>;

/// The refusal of a folder that has no part.
pub fn no_part(alloc: Global, folder: &str) -> Failure {
    let refusal = CommandRefusal::from(Refusal::ReadFault);
    Failure::advised(alloc, refusal, folder, "this folder holds no part")
}

/// The names in a folder, listed under its shared lock.
fn names_in<R: Host>(
    alloc: Global,
    system: &mut SystemRound<'_, '_, R>,
) -> Result<Vec<String>, Failure> {
    match list_names(alloc, system) {
        Ok(names) => Ok(names),
        Err(error) => Err(system.unlisted(error)),
    }
}

/// Those of these names of a folder that parts have and that are those of folders.
fn folders_among<F: Looks>(
    alloc: Global,
    folder: &mut F,
    names: &[String],
) -> Result<Vec<String>, AllocError> {
    let mut folders = Vec::new(alloc);
    for name in names {
        let name = name.as_str();
        if is_part_name(name) && matches!(folder.find(name), Ok(Found::Folder)) {
            folders.push(String::from_str(alloc, name)?)?;
        }
    }
    Ok(folders)
}

/// The names that are to be passed over in a round, since they are those of folders: that is looked at only if it is asked for.
pub fn passed_in<R: Host>(
    alloc: Global,
    system: &mut SystemRound<'_, '_, R>,
    is_careful: bool,
) -> Result<Vec<String>, Failure> {
    if !is_careful {
        return Ok(Vec::new(alloc));
    }
    let names = names_in(alloc, system)?;
    let folders = folders_among(alloc, system, names.as_slice())?;
    system.pass_over(folders.len());
    Ok(folders)
}

/// What all parts of a folder hold. It says at a terminal how many of them were begun.
pub fn open_folder<H: Opens, R: Host>(
    rt: &R,
    progress: &Progress<'_, R>,
    folder: &str,
) -> Result<Opened<H>, Failure> {
    let (held, Basis { parts, .. }) = open_to_add(&*rt, &*progress, folder, &Reliance::Nothing)?;
    Ok(Opened { held, parts })
}

/// What all parts of a folder hold, for a command that may add a part, and the parts on which it relies. It says at a terminal how many
/// parts were begun.
pub fn open_to_add<'r, H: Opens, R: Host>(
    rt: &'r R,
    progress: &'r Progress<'r, R>,
    folder: &str,
    reliance: &Reliance,
) -> Result<(H, Basis<'r, R>), Failure> {
    let mut rounds = Rounds::new(rt);
    for _ in 0..u64::MAX {
        let outcome = open_once(rt, progress, folder, reliance, rounds.is_careful());
        progress.clear();
        match outcome {
            Ok(opened) => return Ok(opened),
            Err(why) => {
                if !rounds.again(rt, why)? {
                    break;
                }
            }
        }
    }
    Err(busy(rt.alloc(), folder))
}

/// Opens a folder for [`open_to_add`] by one listing. It fails if a part was packed or forgotten meanwhile.
fn open_once<'r, H: Opens, R: Host>(
    rt: &'r R,
    progress: &'r Progress<'r, R>,
    folder: &str,
    reliance: &Reliance,
    is_careful: bool,
) -> Result<(H, Basis<'r, R>), Unread> {
    let mut system = ToldFolder::open(rt, folder, Some(progress))?;
    let passed = passed_in(rt.alloc(), &mut system, is_careful)?;
    let passed = passed.as_slice();
    let Read {
        names,
        held,
        relied,
    } = match read_folder(rt.alloc(), &mut system, passed, reliance) {
        Ok(read) => read,
        Err(fault) => return Err(system.why(fault)),
    };
    let Some(store) = held else {
        return Err(Unread::Refused(no_part(rt.alloc(), folder)));
    };
    let parts = Parts::among(rt.alloc(), names, system.unreadable(), passed)?;
    let basis = Basis {
        parts,
        relied,
        system: system.into_inner(),
    };
    Ok((H::from_store(store), basis))
}
