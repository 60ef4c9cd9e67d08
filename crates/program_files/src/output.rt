//! The file that a merge writes.

use crate::watched_folder::WatchedFolder;
use file_commands::{Left, leave, put};
use file_protocol::{Place, SystemFileFolder, Unwatched, keep};
use program_failures::{Failure, Unheld, not_written, unlocked};
use std::alloc::AllocError;
use std::fs::{self, File, Files};
use std::io::{self, Write};
use std::rt::Clock;

/// A file that a merge replaces, and whether this process has its lock.
#[derive(Drop)]
pub struct Output<'r, R: Files<File = File>> {
    folder: WatchedFolder<SystemFileFolder<'r, R, Unwatched>>,
    place: Place,
    held: Option<Result<(), Unheld>>,
}

impl<'r, R: Files<File = File> + Clock + AllocGlobal> Output<'r, R> {
    /// The file of this name, whose symbolic links are followed. Its lock was not tried yet.
    pub fn new(rt: &'r R, name: &str) -> Result<Output<'r, R>, AllocError> {
        Ok(Output {
            folder: WatchedFolder::new(SystemFileFolder::new(rt)),
            place: Place::followed(rt, name)?,
            held: None,
        })
    }

    /// The name of the file itself.
    pub fn name(&self) -> &str {
        self.place.name()
    }

    /// Tries to have the lock. What came of that is reported by [`Output::replace`].
    pub fn hold(&mut self, rt: &R) {
        self.held = Some(self.folder.hold(rt, &self.place));
    }

    /// Whether this process has the lock.
    pub fn is_held(&self) -> bool {
        self.held == Some(Ok(()))
    }

    /// Gives the lock back, if this process has it.
    pub fn leave(self) {
        let Output {
            mut folder,
            place,
            held,
        } = self;
        if held == Some(Ok(())) {
            leave(&mut folder, &place);
        }
    }

    /// Syncs the file as it is, and gives the lock back, which this process has.
    pub fn keep(self) -> Left {
        let Output {
            mut folder,
            place,
            held: _held,
        } = self;
        match keep(&mut folder, &place) {
            Ok(_) => Left::Kept,
            Err(_) => Left::KeptUnsynced,
        }
    }

    /// Puts these bytes in the file's place. `file` is what it is called in a sentence.
    pub fn replace(self, rt: &R, file: &str, bytes: &[u8]) -> Result<Left, Failure> {
        let Output {
            mut folder,
            place,
            held,
        } = self;
        let held = match held {
            Some(held) => held,
            None => folder.hold(rt, &place),
        };
        if let Err(why) = held {
            return Err(unlocked(rt, file, &place, why));
        }
        match put(&mut folder, &place, bytes) {
            Ok(replaced) => Ok(Left::Changed(replaced)),
            Err(_) => Err(not_written(rt, file, folder.reason())),
        }
    }
}

/// Writes in place: a device or a pipe.
pub fn write_in_place<R: Files + AllocGlobal>(
    rt: &R,
    name: &str,
    bytes: &[u8],
) -> Result<(), Failure> {
    match write_whole(rt, name, bytes) {
        Ok(()) => Ok(()),
        Err(error) => Err(not_written(rt, name, Some(error.kind()))),
    }
}

/// Writes these bytes to what has this name.
fn write_whole<R: Files>(rt: &R, name: &str, bytes: &[u8]) -> io::Result<()> {
    let mut file = fs::create(rt, name)?;
    file.write_all(bytes)?;
    file.flush()
}

/// Whether there is something of this name that is no regular file.
pub fn is_special<R: Files>(rt: &R, name: &str) -> bool {
    match fs::metadata(rt, name) {
        Ok(found) => !found.is_file(),
        Err(_) => false,
    }
}
