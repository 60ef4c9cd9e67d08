//! What a call of a process does to the folder.

use crate::chance::Chance;
use crate::disk::Disk;
use crate::process::{Listing, Lock, Process};
use folder_turns::{Answer, Request};
use std::alloc::{AllocError, Global};

/// Whether a call is done, and whether the process is told so.
#[derive(Clone, Copy, Debug, PartialEq, Eq, Drop)]
pub enum Fate {
    Succeeds,
    /// It fails, and was done nevertheless, or a part of it.
    FailsDone,
    FailsUndone,
}

impl Fate {
    /// Whether it is done.
    pub fn is_done(self) -> bool {
        self != Fate::FailsUndone
    }

    /// The answer.
    pub fn answer(self) -> Answer {
        if self == Fate::Succeeds {
            Answer::Done
        } else {
            Answer::Failed
        }
    }
}

/// A file is made, if nothing has its name.
pub fn make(
    alloc: Global,
    disk: &mut Disk,
    process: &mut Process,
    name: &str,
    fate: Fate,
) -> Result<Answer, AllocError> {
    if disk.find(name).is_some() {
        return Ok(Answer::Failed);
    }
    if fate.is_done() {
        let file = disk.add(Vec::new(alloc), false)?;
        disk.lead(name, Some(file))?;
        if fate == Fate::Succeeds {
            process.open = Some(file);
            process.is_clean = true;
        }
    }
    Ok(fate.answer())
}

/// Some of these bytes are added to the open file.
pub fn write(
    disk: &mut Disk,
    process: &mut Process,
    bytes: &[u8],
    fate: Fate,
    chance: &mut Chance,
) -> Result<Answer, AllocError> {
    let count = if chance.once_in(3) {
        chance.below(bytes.len()).saturating_add(1).min(bytes.len())
    } else {
        bytes.len()
    };
    if fate.is_done() {
        let (taken, _) = bytes.split_at(count.min(bytes.len()));
        add(disk, process.open, taken)?;
    }
    if fate == Fate::Succeeds {
        Ok(Answer::Wrote { count })
    } else {
        process.is_clean = false;
        Ok(Answer::Failed)
    }
}

/// Bytes are added to a file.
fn add(disk: &mut Disk, open: Option<usize>, bytes: &[u8]) -> Result<(), AllocError> {
    if let Some(number) = open {
        if let Some(file) = disk.files.get_mut(number) {
            file.bytes.extend_from_slice(bytes)?;
            file.is_synced = false;
        }
    }
    Ok(())
}

/// The bytes of a file are on the disk now.
fn set_synced(disk: &mut Disk, open: Option<usize>) {
    if let Some(number) = open {
        if let Some(file) = disk.files.get_mut(number) {
            file.is_synced = true;
        }
    }
}

/// The open file is synced. After a write or a sync that failed that does nothing.
pub fn sync(disk: &mut Disk, process: &mut Process, fate: Fate) -> Answer {
    if fate != Fate::Succeeds {
        process.is_clean = false;
        return Answer::Failed;
    }
    if process.is_clean {
        set_synced(disk, process.open);
    }
    Answer::Done
}

/// A file is given a second name, unless another file has that.
pub fn link(disk: &mut Disk, from: &str, to: &str, fate: Fate) -> Result<Answer, AllocError> {
    if disk.find(to).is_some() {
        return Ok(if fate == Fate::Succeeds {
            Answer::Taken
        } else {
            Answer::Failed
        });
    }
    match disk.find(from) {
        Some(file) => {
            if fate.is_done() {
                disk.lead(to, Some(file))?;
            }
            Ok(fate.answer())
        }
        None => Ok(Answer::Failed),
    }
}

/// A listing begins, or goes on, or ends. None: it goes on.
pub fn list(
    disk: &Disk,
    process: &mut Process,
    fate: Fate,
    chance: &mut Chance,
) -> Result<Option<Answer>, AllocError> {
    match process.listing.take() {
        None => {
            process.listing = Some(Listing {
                names: disk.list()?,
                left: chance.below(4),
            });
            Ok(None)
        }
        Some(listing) => {
            let Listing { names, left } = listing;
            if left > 0 {
                process.listing = Some(Listing {
                    names,
                    left: left - 1,
                });
                return Ok(None);
            }
            if fate != Fate::Succeeds {
                return Ok(Some(Answer::Failed));
            }
            Ok(Some(Answer::Listed {
                names: given(disk, names, chance)?,
            }))
        }
    }
}

/// What a listing gives: each name that was there when it began and was not removed since, and maybe others.
fn given(
    disk: &Disk,
    mut names: Vec<String>,
    chance: &mut Chance,
) -> Result<Vec<String>, AllocError> {
    for name in disk.list()? {
        if !names.contains(&name) && chance.once_in(2) {
            names.push(name)?;
        }
    }
    names.sort()?;
    Ok(names)
}

/// A file is opened and read.
pub fn read(
    alloc: Global,
    disk: &Disk,
    process: &mut Process,
    name: &str,
    fate: Fate,
) -> Result<Answer, AllocError> {
    if fate != Fate::Succeeds {
        return Ok(Answer::Failed);
    }
    let found = match disk.find(name) {
        Some(number) => disk.files.get(number).map(|file| (number, file)),
        None => None,
    };
    match found {
        Some((number, file)) => {
            process.open = Some(number);
            process.is_clean = true;
            Ok(Answer::Found {
                bytes: Vec::from_slice(alloc, file.bytes.as_slice())?,
            })
        }
        None => Ok(Answer::Missing),
    }
}

/// Whether a lock can be got while another process has this one.
pub fn may_lock(wanted: Lock, other: Option<Lock>) -> bool {
    match other {
        None => true,
        Some(other) => wanted == Lock::Shared && other == Lock::Shared,
    }
}

/// The bytes that are left of those that are put.
pub fn rest(whole: &[u8], from: usize) -> &[u8] {
    match whole.get(from..) {
        Some(rest) => rest,
        None => &[],
    }
}

/// Whether a call is about a lock, and which.
pub fn lock_of(request: &Request) -> Option<Lock> {
    match request {
        Request::Lock => Some(Lock::Exclusive),
        Request::LockShared => Some(Lock::Shared),
        _ => None,
    }
}
