//! A folder whose reads are told of as they are made. Of the parts whose reading has begun the paths and the heads are known, so that a
//! refusal names them, and how many they are is said at a terminal.
ghost use Rattle.std.specs.Prelude.{◌≡◌};

use crate::part_failures::{Unread, of_folder, refused, unkept, unread_for, unwritten};
use folder_parts::{PartFault, PartRefusal, is_part_name};
use folder_protocol::{Folder, Found, Looks, Opened, Sweeps, Untaken};
use folder_system::{FolderFault, SystemFolder, path_in};
use program_changes::Heads;
use program_failures::Failure;
use program_inputs::{Host, Progress};
use std::alloc::{AllocError, Global};
use std::fs::Permissions;
use std::io::{self, ErrorKind};
use table_model::Refusal;

/// The parts of a folder whose reading has begun.
#[derive(Drop)]
struct Begun {
    heads: Heads,
    paths: Vec<String>,
    /// Whether there was no memory for the path of one.
    is_short: bool,
}

impl Begun {
    /// No part was begun yet.
    fn new(alloc: Global) -> Begun {
        Begun {
            heads: Heads::new(alloc),
            paths: Vec::new(alloc),
            is_short: false,
        }
    }

    /// The part of a name in a folder is begun now.
    fn add(&mut self, alloc: Global, folder: &str, name: &str) {
        self.heads.begin();
        let is_added = match path_in(alloc, folder, name) {
            Ok(path) => self.paths.push(path).is_ok(),
            Err(_) => false,
        };
        if !is_added {
            self.is_short = true;
        }
    }
}

/// A folder, as a round of a command reads its parts and then maybe puts one.
#[derive(Drop)]
pub struct ToldFolder<'r, 'n, R: Host, F: Folder + Drop> {
    rt: &'r R,
    path: &'n str,
    progress: Option<&'r Progress<'r, R>>,
    inner: F,
    begun: Begun,
    /// How many parts the last listing gave, but for the folders among them.
    parts: usize,
    /// How many of the names that parts have are those of folders.
    folders: usize,
    /// Whether a part is put now: those that it is made of were read.
    is_putting: bool,
    /// Whether the file that is open is a part that was read.
    is_part_open: bool,
    /// Whether it could not be synced.
    is_unsynced: bool,
}

impl<'r, 'n, R: Host> ToldFolder<'r, 'n, R, SystemFolder<'r, R>> {
    /// Opens a folder of this path. If there is some progress, it says at a terminal how many parts were begun.
    pub fn open(
        rt: &'r R,
        path: &'n str,
        progress: Option<&'r Progress<'r, R>>,
    ) -> Result<ToldFolder<'r, 'n, R, SystemFolder<'r, R>>, Failure> {
        match SystemFolder::open(rt, path) {
            Ok(inner) => Ok(ToldFolder {
                progress,
                ..ToldFolder::of(rt, path, inner)
            }),
            Err(error) => Err(of_folder(rt.alloc(), path, FolderFault::from(error))),
        }
    }

    /// A folder of this path that is open.
    pub fn of(
        rt: &'r R,
        path: &'n str,
        inner: SystemFolder<'r, R>,
    ) -> ToldFolder<'r, 'n, R, SystemFolder<'r, R>> {
        ToldFolder {
            rt,
            path,
            progress: None,
            inner,
            begun: Begun::new(rt.alloc()),
            parts: 0,
            folders: 0,
            is_putting: false,
            is_part_open: false,
            is_unsynced: false,
        }
    }

    /// How many names the last listing left out, since they are not UTF-8.
    pub fn unreadable(&self) -> usize {
        self.inner.unreadable()
    }

    /// The permissions that a new part takes, if parts were listed.
    pub fn permissions(&self) -> Option<Permissions> {
        self.inner.permissions()
    }

    /// The folder itself.
    pub fn into_inner(self) -> SystemFolder<'r, R> {
        let ToldFolder { inner, .. } = self;
        inner
    }

    /// Why its lock was not got or its names were not listed, if that was tried last and failed.
    pub fn fault(&self) -> Option<FolderFault> {
        self.inner.fault()
    }

    /// Why no part was put, if the system gives this reason. If a part that it relies on could not be synced, that one is named.
    pub fn unput(&self, kind: ErrorKind) -> Failure {
        match self.begun.paths.as_slice().last() {
            Some(path) if self.is_unsynced => {
                Failure::of_reason(self.rt.alloc(), Refusal::WriteFault, path.as_str(), kind)
            }
            _ => unkept(self.rt, self.path, &self.inner, kind),
        }
    }

    /// Why the folder was not listed, if the system gives this error.
    pub fn unlisted(&self, error: io::Error) -> Failure {
        let fault = self.inner.fault().unwrap_or(FolderFault::from(error));
        of_folder(self.rt.alloc(), self.path, fault)
    }

    /// Why a round came to nothing. A part that is gone, or a temporary that a sweep removed, is a reason to begin anew.
    pub fn why(&self, fault: Untaken<PartRefusal>) -> Unread {
        match fault {
            Untaken::Gone => Unread::Gone,
            Untaken::Refused(refusal) => Unread::Refused(self.refused(refusal)),
            Untaken::Failed(error) if self.is_putting => match error.kind() {
                ErrorKind::AlreadyExists => Unread::Gone,
                kind => Unread::Refused(unkept(self.rt, self.path, &self.inner, kind)),
            },
            Untaken::Failed(error) => self.why_unread(error),
        }
    }

    /// The refusal of a part, by its index among those that were begun. That memory runs out after them is no part's fault.
    fn refused(&self, refusal: PartRefusal) -> Failure {
        let is_of_last = refusal.part.saturating_add(1) == self.begun.paths.len();
        let is_of_memory = refusal.fault == PartFault::Refused(Refusal::Memory);
        if self.begun.is_short || (is_of_memory && !is_of_last) {
            return Failure::from(Refusal::Memory);
        }
        let paths = self.begun.paths.as_slice();
        refused(
            self.rt,
            paths,
            refusal.part,
            refusal.fault,
            &self.begun.heads,
        )
    }

    /// Why the folder was not listed or one of its parts not read, if the system gives this error.
    fn why_unread(&self, error: io::Error) -> Unread {
        if self.inner.fault().is_some() {
            return Unread::Refused(self.unlisted(error));
        }
        let kind = error.kind();
        match self.inner.unread() {
            Some(name) => self.unread(name, kind),
            None => Unread::Refused(unwritten(self.rt, self.path, kind)),
        }
    }
}

impl<'r, 'n, R: Host, F: Folder + Drop> ToldFolder<'r, 'n, R, F> {
    /// The path of a name.
    pub fn path_of(&self, name: &str) -> Result<String, AllocError> {
        path_in(self.rt.alloc(), self.path, name)
    }

    /// Why the part of a name is not read, if the system gives this reason.
    pub fn unread(&self, name: &str, kind: ErrorKind) -> Unread {
        match self.path_of(name) {
            Ok(path) => unread_for(self.rt.alloc(), path.as_str(), kind),
            Err(lacking) => Unread::from(lacking),
        }
    }

    /// So many of the names that parts have are those of folders: they are passed over.
    pub fn pass_over(&mut self, folders: usize) {
        self.folders = folders;
    }

    /// Counts the parts among the names that were listed.
    fn count(&mut self, names: &[String])
        // No call is made.
        ensures { self.new.inner ≡ self.old.inner }
    {
        let parts = names.iter().filter(|name| is_part_name(name.as_str()));
        self.parts = parts.count().saturating_sub(self.folders);
    }

    /// The part of a name is read now.
    fn begin(&mut self, name: &str)
        // No call is made yet.
        ensures { self.new.inner ≡ self.old.inner }
    {
        self.begun.add(self.rt.alloc(), self.path, name);
        if let Some(progress) = self.progress {
            let number = self.begun.paths.len();
            progress.tell_part(self.path, number, self.parts);
        }
    }
}

impl<'r, 'n, R: Host, F: Folder + Drop> Folder for ToldFolder<'r, 'n, R, F> {
    ghost history = { λ folder. F.history folder.inner };

    fn make(&mut self, name: &str) -> io::Result<()> {
        self.is_putting = true;
        self.is_part_open = false;
        self.inner.make(name)
    }

    fn write(&mut self, bytes: &[u8]) -> io::Result<usize> {
        self.inner.write(bytes)
    }

    fn sync(&mut self) -> io::Result<()> {
        let answer = self.inner.sync();
        self.is_unsynced = self.is_part_open && answer.is_err();
        answer
    }

    fn link(&mut self, from: &str, to: &str) -> io::Result<bool> {
        self.inner.link(from, to)
    }

    fn remove(&mut self, name: &str) -> io::Result<()> {
        self.inner.remove(name)
    }

    fn settle(&mut self) -> io::Result<()> {
        self.inner.settle()
    }

    fn lock(&mut self) -> io::Result<()> {
        self.inner.lock()
    }

    fn lock_shared(&mut self) -> io::Result<()> {
        self.inner.lock_shared()
    }

    fn list(&mut self, alloc: Global) -> io::Result<Vec<String>> {
        let answer = self.inner.list(alloc);
        if let Ok(names) = &answer {
            self.count(names.as_slice());
        }
        answer
    }

    fn unlock(&mut self) {
        self.inner.unlock();
    }

    fn read(&mut self, alloc: Global, name: &str) -> io::Result<Option<Vec<u8>>> {
        if self.is_putting {
            return self.inner.read(alloc, name);
        }
        self.begin(name);
        let answer = self.inner.read(alloc, name);
        if let Ok(Some(bytes)) = &answer {
            self.is_part_open = true;
            self.begun.heads.take(bytes.as_slice());
        }
        answer
    }
}

impl<'r, 'n, R: Host, F: Looks + Drop> Looks for ToldFolder<'r, 'n, R, F> {
    type File = F::File;

    fn find(&mut self, name: &str) -> io::Result<Found> {
        self.inner.find(name)
    }

    fn open(&mut self, name: &str) -> io::Result<Option<Opened<F::File>>> {
        self.inner.open(name)
    }
}

impl<'r, 'n, R: Host, F: Sweeps + Drop> Sweeps for ToldFolder<'r, 'n, R, F> {
    fn sweep(&mut self, name: &str) -> io::Result<()> {
        self.inner.sweep(name)
    }
}
