//! A folder that remembers why the system did not do what was asked of it, and what the file began with that was read.

use file_protocol::{FileFolder, HoldError, Place, hold};
use program_changes::Head;
use program_failures::Unheld;
use std::alloc::Global;
use std::cell::Cell;
use std::fs::{self, Files, OpenOptions};
use std::io::{self, ErrorKind};
use std::rt::Clock;
use table_model::Schema;

/// A folder, with the kind of the last error of a call that was to write, and the head of the file that was read last.
#[derive(Drop)]
pub struct WatchedFolder<F: FileFolder + Drop> {
    inner: F,
    reason: Cell<Option<ErrorKind>>,
    head: Option<Head>,
}

impl<F: FileFolder + Drop> WatchedFolder<F> {
    /// A folder of which no call has failed yet.
    pub fn new(inner: F) -> WatchedFolder<F> {
        WatchedFolder {
            inner,
            reason: Cell::new(None),
            head: None,
        }
    }

    /// Why the last call that failed did.
    pub fn reason(&self) -> Option<ErrorKind> {
        self.reason.get()
    }

    /// The table of the file that was read last.
    pub fn table(&self, alloc: Global) -> Option<Schema> {
        match &self.head {
            Some(head) => head.schema(alloc),
            None => None,
        }
    }

    /// What the file begins with that was read last.
    pub fn beginning(&self) -> &[u8] {
        match &self.head {
            Some(head) => head.as_slice(),
            None => &[],
        }
    }

    /// Has the lock of a file, which may be written if it is there.
    pub fn hold<R: Clock + Files>(&mut self, rt: &R, place: &Place) -> Result<(), Unheld> {
        if let Err(error) = hold(rt, self, place) {
            return Err(Unheld::Lock(error, self.reason()));
        }
        match try_to_write(rt, place.name()) {
            Ok(()) => Ok(()),
            Err(error) => {
                let _ = self.remove(place.lock());
                Err(Unheld::File(error.kind()))
            }
        }
    }

    /// Remembers an error.
    fn note<T>(&self, answer: &io::Result<T>) {
        if let Err(error) = answer {
            self.reason.set(Some(error.kind()));
        }
    }
}

/// Opens a regular file to write it, if there is one, and leaves it as it is.
fn try_to_write<R: Files>(rt: &R, name: &str) -> io::Result<()> {
    match fs::metadata(rt, name) {
        Ok(found) if found.is_file() => {
            let _ = OpenOptions::new().write(true).open(rt, name)?;
            Ok(())
        }
        _ => Ok(()),
    }
}

impl<F: FileFolder + Drop> FileFolder for WatchedFolder<F> {
    ghost history = { λ folder. F.history folder.inner };

    fn open(&mut self, name: &str) -> io::Result<bool> {
        let answer = self.inner.open(name);
        self.note(&answer);
        answer
    }

    fn try_lock(&mut self) -> io::Result<bool> {
        let answer = self.inner.try_lock();
        self.note(&answer);
        answer
    }

    fn take_mode(&self, name: &str) -> io::Result<()> {
        let answer = self.inner.take_mode(name);
        self.note(&answer);
        answer
    }

    fn is_named(&mut self, name: &str) -> bool {
        self.inner.is_named(name)
    }

    fn empty(&mut self) -> io::Result<()> {
        let answer = self.inner.empty();
        self.note(&answer);
        answer
    }

    fn write(&mut self, bytes: &[u8]) -> io::Result<usize> {
        let answer = self.inner.write(bytes);
        self.note(&answer);
        answer
    }

    fn sync(&mut self) -> io::Result<()> {
        let answer = self.inner.sync();
        self.note(&answer);
        answer
    }

    fn open_folder(&mut self, name: &str) -> io::Result<()> {
        let answer = self.inner.open_folder(name);
        self.note(&answer);
        answer
    }

    fn rename(&mut self, from: &str, to: &str) -> io::Result<()> {
        let answer = self.inner.rename(from, to);
        self.note(&answer);
        answer
    }

    fn remove(&mut self, name: &str) -> io::Result<()> {
        self.inner.remove(name)
    }

    fn settle(&mut self) -> io::Result<()> {
        self.inner.settle()
    }

    fn sync_file(&mut self, name: &str) -> io::Result<()> {
        self.inner.sync_file(name)
    }

    fn read(&mut self, alloc: Global, name: &str) -> io::Result<Option<Vec<u8>>> {
        let answer = self.inner.read(alloc, name);
        if let Ok(Some(bytes)) = &answer {
            let mut head = Head::new(alloc);
            head.add(bytes.as_slice());
            self.head = Some(head);
        }
        answer
    }
}
