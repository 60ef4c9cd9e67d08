//! A folder of the operating system, as the protocol of parts asks for it. Each method makes its call, and then notes it with its
//! answer.
ghost use Rattle.std.specs.Prelude.{◌≡◌, ◌≤◌, [], true, IfOk, OnOk, length};
ghost use Rattle.folder_model.specs.Call.{can_settle};
ghost use Rattle.folder_protocol.specs.Note.{calls_of};

use crate::fault::FolderFault;
use crate::keeping::{find, open_if_there, open_to_look};
use crate::listing::list_locked;
use crate::lock::FolderLock;
use crate::modes::permissions_of_least;
use crate::names::path_in;
use crate::refusals::too_many_files;
use crate::temporary::{is_ours, link_or_rename, remove_unheld};
use folder_protocol::{Folder, Found, Looks, Opened, Record, Sweeps};
use std::alloc::Global;
use std::fs::{self, File, Files, OpenOptions, Permissions};
use std::io::{self, ErrorKind, Read, Write};
use std::rt::Clock;

/// A folder that is open, one file of it that is open, and its lock. Files are named by their names in the folder.
#[derive(Drop)]
pub struct SystemFolder<'r, R: Files<File = File>> {
    rt: &'r R,
    path: String,
    folder: File,
    file: Option<File>,
    lock: Option<FolderLock>,
    fault: Option<FolderFault>,
    unread: Option<String>,
    unsynced: Option<ErrorKind>,
    unreadable: usize,
    /// The permissions that a new file takes: those of the part with the least name that was listed.
    permissions: Option<Permissions>,
    /// Whether no sync of the folder has failed since it was opened.
    settles: bool,
    calls: Record,
    ghost so_far: { settles ≡ can_settle (calls_of calls.noted) },
}

impl<'r, R: Files<File = File> + AllocGlobal> SystemFolder<'r, R> {
    /// Opens the folder of a path. No file of it is open yet.
    pub fn open(rt: &'r R, path: &str) -> io::Result<SystemFolder<'r, R>>
        ensures { IfOk result (λ folder. calls_of folder.calls.noted ≡ []) }
    {
        let folder = fs::open(rt, path)?;
        Ok(SystemFolder {
            rt,
            path: String::from_str(rt.alloc(), path)?,
            folder,
            file: None,
            lock: None,
            fault: None,
            unread: None,
            unsynced: None,
            unreadable: 0,
            permissions: None,
            settles: true,
            calls: Record::new(),
        })
    }
}

impl<'r, R: Files<File = File>> SystemFolder<'r, R> {
    /// Nothing is known yet of why the call fails that is made now.
    fn begin(&mut self)
        ensures { self.new.calls.noted ≡ self.old.calls.noted }
    {
        self.fault = None;
        self.unread = None;
        self.unsynced = None;
    }

    /// Why its lock was not got or its names were not listed, if that was tried last and failed. That a name is removed then, or the
    /// lock let go, is no further try.
    pub fn fault(&self) -> Option<FolderFault> {
        self.fault
    }

    /// The name of the file that could not be read, if that was tried last and failed.
    pub fn unread(&self) -> Option<&str> {
        match &self.unread {
            Some(name) => Some(name.as_str()),
            None => None,
        }
    }

    /// Why its open file or the folder could not be synced, if that was tried last and failed.
    pub fn unsynced(&self) -> Option<ErrorKind> {
        self.unsynced
    }

    /// How many names the last listing left out, since they are not UTF-8.
    pub fn unreadable(&self) -> usize {
        self.unreadable
    }

    /// The permissions that a new file takes, if parts were listed: those of the one with the least name.
    pub fn permissions(&self) -> Option<Permissions> {
        match &self.permissions {
            Some(permissions) => permissions.clone().ok(),
            None => None,
        }
    }

    /// Gives a new file these permissions from now on, as of a listing by another handle of the folder.
    pub fn take_permissions(&mut self, permissions: Option<Permissions>)
        ensures { self.new.calls.noted ≡ self.old.calls.noted }
    {
        self.permissions = permissions;
    }
}

/// The file that is open.
fn opened(file: &Option<File>) -> io::Result<&File> {
    match file {
        Some(file) => Ok(file),
        None => Err(io::Error::from(ErrorKind::NotFound)),
    }
}

/// Makes the file of a new name in a folder, with these permissions if there are some, and takes its lock, so that no sweep removes it. The
/// error is `AlreadyExists` if something has the name, or a sweep came between.
fn made<R: Files<File = File> + AllocGlobal>(
    rt: &R,
    folder: &str,
    name: &str,
    permissions: &Option<Permissions>,
) -> io::Result<File> {
    let path = path_in(rt.alloc(), folder, name)?;
    let file = OpenOptions::new()
        .write(true)
        .create_new(true)
        .open(rt, path.as_str())?;
    if is_ours(rt, &file, path.as_str())? {
        if let Some(permissions) = permissions {
            let _ = file.set_permissions(permissions.clone()?);
        }
        Ok(file)
    } else {
        Err(io::Error::from(ErrorKind::AlreadyExists))
    }
}

/// Writes some of these bytes, however often the system asks to try again.
fn write_some(file: &mut File, bytes: &[u8]) -> io::Result<usize>
    ensures { IfOk result (λ taken. taken ≤ length bytes.now) }
{
    for _ in 0..u64::MAX {
        match file.write(bytes) {
            Err(error) if error.kind() == ErrorKind::Interrupted => {}
            answer => return answer,
        }
    }
    Err(io::Error::from(ErrorKind::Interrupted))
}

/// Gives the file of one name of a folder another one, unless something has that; and whether it did.
fn linked<R: Files + AllocGlobal>(rt: &R, folder: &str, from: &str, to: &str) -> io::Result<bool> {
    let first = path_in(rt.alloc(), folder, from)?;
    let second = path_in(rt.alloc(), folder, to)?;
    link_or_rename(rt, first.as_str(), second.as_str())
}

/// Removes a name from a folder. One that is gone is no error.
fn removed<R: Files + AllocGlobal>(rt: &R, folder: &str, name: &str) -> io::Result<()> {
    let path = path_in(rt.alloc(), folder, name)?;
    match fs::remove_file(rt, path.as_str()) {
        Err(error) if error.kind() == ErrorKind::NotFound => Ok(()),
        answer => answer,
    }
}

/// Opens the file of a name in a folder and reads it, if there is one.
fn read_in<R: Files<File = File> + AllocGlobal>(
    rt: &R,
    alloc: Global,
    folder: &str,
    name: &str,
) -> io::Result<Option<(File, Vec<u8>)>> {
    let path = path_in(rt.alloc(), folder, name)?;
    let Some(mut file) = open_if_there(rt, path.as_str())? else {
        return Ok(None);
    };
    let mut bytes = Vec::new(alloc);
    file.read_to_end(&mut bytes)?;
    Ok(Some((file, bytes)))
}

/// The bytes of the file of a name in the folder of a path, if there is one, for who only reads it. The folder is not opened, and no call
/// is noted.
pub fn read_part<R: Files<File = File> + AllocGlobal>(
    rt: &R,
    folder: &str,
    name: &str,
) -> io::Result<Option<Vec<u8>>> {
    match read_in(rt, rt.alloc(), folder, name)? {
        Some((_file, bytes)) => Ok(Some(bytes)),
        None => Ok(None),
    }
}

/// Syncs a folder, unless a sync of it has failed before: what that should have had on the disk the system may take for synced since.
fn settled(folder: &File, settles: bool) -> io::Result<()>
    ensures { OnOk result (settles ≡ true) }
{
    if settles {
        folder.sync_all()
    } else {
        Err(io::Error::from(ErrorKind::Other))
    }
}

/// Removes a name from a folder, unless a process holds its file, or it is no plain file; and whether it did.
fn swept<R: Files<File = File> + AllocGlobal>(
    rt: &R,
    folder: &str,
    name: &str,
) -> io::Result<bool> {
    let path = path_in(rt.alloc(), folder, name)?;
    match remove_unheld(rt, path.as_str()) {
        Err(error) if error.kind() == ErrorKind::NotFound => Ok(false),
        answer => answer,
    }
}

/// What has a name in a folder.
fn found_in<R: Files + AllocGlobal>(rt: &R, folder: &str, name: &str) -> io::Result<Found> {
    let path = path_in(rt.alloc(), folder, name)?;
    find(rt, path.as_str())
}

/// Opens the file of a name in a folder to look into it, if there is one.
fn opened_in<R: Files<File = File> + AllocGlobal>(
    rt: &R,
    folder: &str,
    name: &str,
) -> io::Result<Option<Opened<File>>> {
    let path = path_in(rt.alloc(), folder, name)?;
    open_to_look(rt, path.as_str())
}

/// Why a call failed, if it did.
fn kind_of(answer: &io::Result<()>) -> Option<ErrorKind> {
    match answer {
        Ok(()) => None,
        Err(error) => Some(error.kind()),
    }
}

/// The error of the system by which a fault is told.
fn error_of(fault: FolderFault) -> io::Error {
    match fault {
        FolderFault::Busy => io::Error::from(ErrorKind::ResourceBusy),
        FolderFault::NoLock => io::Error::from(ErrorKind::Unsupported),
        FolderFault::Unlocked(kind) | FolderFault::System(kind) => io::Error::from(kind),
        FolderFault::TooManyFiles => too_many_files(),
    }
}

impl<'r, R: Files<File = File> + Clock + AllocGlobal + Clone + Drop> Folder
    for SystemFolder<'r, R> {
    ghost history = { λ folder. calls_of folder.calls.noted };

    fn make(&mut self, name: &str) -> io::Result<()> {
        self.begin();
        match made(self.rt, self.path.as_str(), name, &self.permissions) {
            Ok(file) => {
                self.file = Some(file);
                self.calls.made(name, true);
                Ok(())
            }
            Err(error) => {
                self.calls.made(name, false);
                Err(error)
            }
        }
    }

    fn write(&mut self, bytes: &[u8]) -> io::Result<usize> {
        self.begin();
        let answer = match &mut self.file {
            Some(file) => write_some(file, bytes),
            None => Err(io::Error::from(ErrorKind::NotFound)),
        };
        match answer {
            Ok(taken) => self.calls.wrote(bytes, taken),
            Err(_) => self.calls.wrote_not(bytes),
        }
        answer
    }

    fn sync(&mut self) -> io::Result<()> {
        self.begin();
        let answer = opened(&self.file).and_then(|file| file.sync_all());
        self.unsynced = kind_of(&answer);
        self.calls.synced(answer.is_ok());
        answer
    }

    fn link(&mut self, from: &str, to: &str) -> io::Result<bool> {
        self.begin();
        let answer = linked(self.rt, self.path.as_str(), from, to);
        match answer {
            Ok(true) => self.calls.linked(from, to),
            Ok(false) => self.calls.taken(from, to),
            Err(_) => self.calls.linked_not(from, to),
        }
        answer
    }

    fn remove(&mut self, name: &str) -> io::Result<()> {
        let answer = removed(self.rt, self.path.as_str(), name);
        self.calls.removed(name, answer.is_ok());
        answer
    }

    fn settle(&mut self) -> io::Result<()> {
        self.begin();
        let answer = settled(&self.folder, self.settles);
        self.unsynced = kind_of(&answer);
        self.settles = answer.is_ok();
        self.calls.settled(answer.is_ok());
        answer
    }

    fn lock(&mut self) -> io::Result<()> {
        self.begin();
        match FolderLock::exclusive(self.rt, self.path.as_str()) {
            Ok(lock) => {
                self.lock = Some(lock);
                self.calls.locked(true);
                Ok(())
            }
            Err(fault) => {
                self.fault = Some(fault);
                self.calls.locked(false);
                Err(error_of(fault))
            }
        }
    }

    fn lock_shared(&mut self) -> io::Result<()> {
        self.begin();
        match FolderLock::shared(self.rt, self.path.as_str()) {
            Ok(lock) => {
                self.lock = lock;
                self.calls.locked_shared(true);
                Ok(())
            }
            Err(fault) => {
                self.fault = Some(fault);
                self.calls.locked_shared(false);
                Err(error_of(fault))
            }
        }
    }

    fn list(&mut self, _alloc: Global) -> io::Result<Vec<String>> {
        self.begin();
        match list_locked(self.rt, self.path.as_str()) {
            Ok(listing) => {
                self.unreadable = listing.unreadable();
                let names = listing.into_names();
                self.permissions = permissions_of_least(
                    self.rt,
                    self.path.as_str(),
                    names.as_slice(),
                );
                self.calls.listed(names.as_slice());
                Ok(names)
            }
            Err(fault) => {
                self.fault = Some(fault);
                self.calls.listed_not();
                Err(error_of(fault))
            }
        }
    }

    fn unlock(&mut self) {
        if let Some(lock) = self.lock.take() {
            lock.release();
        }
        self.calls.unlocked();
    }

    fn read(&mut self, alloc: Global, name: &str) -> io::Result<Option<Vec<u8>>> {
        self.begin();
        match read_in(self.rt, alloc, self.path.as_str(), name) {
            Ok(Some((file, bytes))) => {
                self.file = Some(file);
                self.calls.read(name, bytes.as_slice());
                Ok(Some(bytes))
            }
            Ok(None) => {
                self.calls.read_nothing(name);
                Ok(None)
            }
            Err(error) => {
                self.unread = String::from_str(alloc, name).ok();
                self.calls.unread(name);
                Err(error)
            }
        }
    }
}

impl<'r, R: Files<File = File> + Clock + AllocGlobal + Clone + Drop> Looks for SystemFolder<'r, R> {
    type File = File;

    fn find(&mut self, name: &str) -> io::Result<Found> {
        self.begin();
        let found = found_in(self.rt, self.path.as_str(), name);
        self.calls.looked(name, found.is_ok());
        found
    }

    fn open(&mut self, name: &str) -> io::Result<Option<Opened<File>>> {
        self.begin();
        let answer = opened_in(self.rt, self.path.as_str(), name);
        if answer.is_err() {
            self.unread = String::from_str(self.rt.alloc(), name).ok();
        }
        self.calls.looked(name, answer.is_ok());
        answer
    }
}

impl<'r, R: Files<File = File> + Clock + AllocGlobal + Clone + Drop> Sweeps
    for SystemFolder<'r, R> {
    fn sweep(&mut self, name: &str) -> io::Result<()> {
        match swept(self.rt, self.path.as_str(), name) {
            Ok(is_removed) => {
                self.calls.removed(name, is_removed);
                Ok(())
            }
            Err(error) => {
                self.calls.removed(name, false);
                Err(error)
            }
        }
    }
}
