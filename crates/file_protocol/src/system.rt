//! A folder of the operating system. Each method makes its call, and then notes it with its answer.
ghost use Rattle.std.specs.Prelude.{◌≡◌, []};
ghost use Rattle.file_protocol.specs.Note.{events_of};

use crate::FileFolder;
use crate::names::folder_of;
use crate::record::FileRecord;
use crate::watch::{ReadWatch, Unwatched, WatchedFile};
use std::alloc::Global;
use std::fs::{self, File, Files, OpenOptions, TryLockError};
use std::io::{self, ErrorKind, Read, Write};
use std::os::unix::fs::MetadataExt;

/// The files of the operating system's folders, one that is open, and the folder that is synced; and what is told of the reading.
#[derive(Drop)]
pub struct SystemFileFolder<'r, R: Files<File = File>, W: ReadWatch + Drop> {
    rt: &'r R,
    watch: W,
    file: Option<File>,
    folder: Option<File>,
    calls: FileRecord,
}

impl<'r, R: Files<File = File>> SystemFileFolder<'r, R, Unwatched> {
    /// No file is open yet. Nothing is told of the reading.
    pub fn new(rt: &'r R) -> SystemFileFolder<'r, R, Unwatched>
        ensures { events_of result.calls.noted ≡ [] }
    {
        SystemFileFolder::watched(rt, Unwatched)
    }
}

impl<'r, R: Files<File = File>, W: ReadWatch + Drop> SystemFileFolder<'r, R, W> {
    /// No file is open yet. This is told of the bytes of a file as they are read.
    pub fn watched(rt: &'r R, watch: W) -> SystemFileFolder<'r, R, W>
        ensures { events_of result.calls.noted ≡ [] }
    {
        SystemFileFolder {
            rt,
            watch,
            file: None,
            folder: None,
            calls: FileRecord::new(),
        }
    }
}

/// The file that is open.
fn opened(file: &Option<File>) -> io::Result<&File> {
    match file {
        Some(file) => Ok(file),
        None => Err(io::Error::from(ErrorKind::NotFound)),
    }
}

/// Makes the file of a name, or opens the one that is there; and whether it was made.
fn made_or_opened<R: Files<File = File>>(rt: &R, name: &str) -> io::Result<(File, bool)> {
    match OpenOptions::new()
        .write(true)
        .create_new(true)
        .open(rt, name)
    {
        Ok(file) => Ok((file, true)),
        Err(error) if error.kind() == ErrorKind::AlreadyExists => Ok((left(rt, name)?, false)),
        Err(error) => Err(error),
    }
}

/// Opens a file that is there already. The error is `Interrupted` if it is gone meanwhile, and else `AlreadyExists`.
fn left<R: Files<File = File>>(rt: &R, name: &str) -> io::Result<File> {
    match fs::symlink_metadata(rt, name) {
        Ok(found) if found.is_file() => {}
        Ok(_) => return Err(io::Error::from(ErrorKind::AlreadyExists)),
        Err(error) => return Err(unopened(&error)),
    }
    if let Ok(file) = OpenOptions::new().write(true).open(rt, name) {
        return Ok(file);
    }
    match fs::open(rt, name) {
        Ok(file) => Ok(file),
        Err(error) => Err(unopened(&error)),
    }
}

/// Why a file that was there already was not opened.
fn unopened(error: &io::Error) -> io::Error {
    if error.kind() == ErrorKind::NotFound {
        io::Error::from(ErrorKind::Interrupted)
    } else {
        io::Error::from(ErrorKind::AlreadyExists)
    }
}

/// Whether an open file is the one of a name, and no link to it: another may have renamed or removed it meanwhile.
fn is_same<R: Files>(rt: &R, file: &Option<File>, name: &str) -> bool {
    let Some(file) = file else {
        return false;
    };
    let (Ok(open), Ok(named)) = (file.metadata(), fs::symlink_metadata(rt, name)) else {
        return false;
    };
    open.ino() == named.ino() && open.dev() == named.dev()
}

/// The bytes of a file, if there is one.
fn read_whole<R: Files<File = File>, W: ReadWatch>(
    rt: &R,
    watch: &W,
    alloc: Global,
    name: &str,
) -> io::Result<Option<Vec<u8>>> {
    match fs::open(rt, name) {
        Ok(file) => {
            let mut bytes = Vec::new(alloc);
            WatchedFile::new(file, name, watch).read_to_end(&mut bytes)?;
            Ok(Some(bytes))
        }
        Err(error) if error.kind() == ErrorKind::NotFound => Ok(None),
        Err(error) => Err(error),
    }
}

impl<'r, R: Files<File = File>, W: ReadWatch + Drop> FileFolder for SystemFileFolder<'r, R, W> {
    ghost history = { λ folder. events_of folder.calls.noted };

    fn open(&mut self, name: &str) -> io::Result<bool> {
        match made_or_opened(self.rt, name) {
            Ok((file, is_new)) => {
                self.file = Some(file);
                self.calls.opened(name, Some(is_new));
                Ok(is_new)
            }
            Err(error) => {
                self.calls.opened(name, None);
                Err(error)
            }
        }
    }

    fn try_lock(&mut self) -> io::Result<bool> {
        let answer = match &self.file {
            Some(file) => file.try_lock(),
            None => Err(TryLockError::WouldBlock),
        };
        match answer {
            Ok(()) => {
                self.calls.locked(true);
                Ok(true)
            }
            Err(TryLockError::WouldBlock) => {
                self.calls.locked(false);
                Ok(false)
            }
            Err(TryLockError::Error(error)) => {
                self.calls.locked(false);
                Err(error)
            }
        }
    }

    fn take_mode(&self, name: &str) -> io::Result<()> {
        let file = opened(&self.file)?;
        match fs::metadata(self.rt, name) {
            Ok(old) if old.is_file() => file.set_permissions(old.permissions()),
            Ok(_) => Err(io::Error::from(ErrorKind::InvalidInput)),
            Err(_) => Ok(()),
        }
    }

    fn is_named(&mut self, name: &str) -> bool {
        let same = is_same(self.rt, &self.file, name);
        self.calls.compared(name, same);
        same
    }

    fn empty(&mut self) -> io::Result<()> {
        let answer = opened(&self.file).and_then(|file| file.set_len(0));
        self.calls.emptied(answer.is_ok());
        answer
    }

    fn write(&mut self, bytes: &[u8]) -> io::Result<usize> {
        let answer = match &mut self.file {
            Some(file) => file.write(bytes),
            None => Err(io::Error::from(ErrorKind::NotFound)),
        };
        match answer {
            Ok(taken) => self.calls.wrote(bytes, Some(taken)),
            Err(_) => self.calls.wrote(bytes, None),
        }
        answer
    }

    fn sync(&mut self) -> io::Result<()> {
        let answer = opened(&self.file).and_then(|file| file.sync_all());
        self.calls.synced(answer.is_ok());
        answer
    }

    fn open_folder(&mut self, name: &str) -> io::Result<()> {
        match fs::open(self.rt, folder_of(name)) {
            Ok(folder) => {
                self.folder = Some(folder);
                Ok(())
            }
            Err(error) => {
                self.calls.settled(false);
                Err(error)
            }
        }
    }

    fn rename(&mut self, from: &str, to: &str) -> io::Result<()> {
        let answer = fs::rename(self.rt, from, to);
        self.calls.renamed(from, to, answer.is_ok());
        answer
    }

    fn remove(&mut self, name: &str) -> io::Result<()> {
        let answer = fs::remove_file(self.rt, name);
        self.calls.removed(name, answer.is_ok());
        answer
    }

    fn settle(&mut self) -> io::Result<()> {
        let answer = opened(&self.folder).and_then(|folder| folder.sync_all());
        self.calls.settled(answer.is_ok());
        answer
    }

    fn sync_file(&mut self, name: &str) -> io::Result<()> {
        let answer = fs::open(self.rt, name).and_then(|file| file.sync_all());
        self.calls.synced_file(name, answer.is_ok());
        answer
    }

    fn read(&mut self, alloc: Global, name: &str) -> io::Result<Option<Vec<u8>>> {
        let answer = read_whole(self.rt, &self.watch, alloc, name);
        match &answer {
            Ok(Some(bytes)) => self.calls.read(name, bytes),
            Ok(None) => self.calls.read_nothing(name),
            Err(_) => self.calls.unread(name),
        }
        answer
    }
}
