//! A list of calls that only clauses read.
ghost use Rattle.std.specs.Prelude.{◌≡◌, List, [], ◌∷◌, Some, None};
ghost use Rattle.std.specs.Borrow.{ftrue};
ghost use Rattle.file_protocol.specs.Event.{Opened, Locked, Compared, Emptied, Wrote, Synced, Renamed, Removed, Settled, SyncedFile, Read};
ghost use Rattle.file_protocol.specs.Note.{Noted, events_of};

use std::marker::{Model, PhantomData};

// The numbers of the calls, as `event_from` reads them.
const OPENED: u64 = 0;

const LOCKED: u64 = 1;

const COMPARED: u64 = 2;

const EMPTIED: u64 = 3;

const WROTE: u64 = 4;

const SYNCED: u64 = 5;

const RENAMED: u64 = 6;

const REMOVED: u64 = 7;

const SETTLED: u64 = 8;

const READ: u64 = 9;

const SYNCED_FILE: u64 = 10;

/// The calls of a folder so far, each with its answer. It takes no memory, and does nothing.
#[derive(Drop)]
pub struct FileRecord {
    marker: PhantomData<u8>,
    pub ghost noted: { List Noted },
}

impl Model for FileRecord {
    ghost also_owns = { λ _. ftrue };
}

impl FileRecord {
    /// No call was made yet.
    pub fn new() -> FileRecord
        ensures { result.noted ≡ [] }
    {
        FileRecord {
            marker: PhantomData,
        }
    }

    /// Notes a call, by its numbers and its texts.
    fn note(&mut self, _numbers: &[u64], _first: &[u8], _second: &[u8])
        ensures { self.new.noted ≡ (_numbers.now, _first.now, _second.now) ∷ self.old.noted }
    {}

    /// Notes an open of the file of a name: `Some(true)` if it made the file, `Some(false)` if the file was there, and `None` if it failed.
    pub fn opened(&mut self, name: &str, made: Option<bool>)
        ensures { events_of self.new.noted ≡ Opened name.now made ∷ events_of self.old.noted }
    {
        match made {
            Some(true) => self.note(&[OPENED, 1, 1], name.as_bytes(), &[]),
            Some(false) => self.note(&[OPENED, 1, 0], name.as_bytes(), &[]),
            None => self.note(&[OPENED, 0, 0], name.as_bytes(), &[]),
        }
    }

    /// The open file's lock was got, or was not.
    pub fn locked(&mut self, got: bool)
        ensures { events_of self.new.noted ≡ Locked got ∷ events_of self.old.noted }
    {
        if got {
            self.note(&[LOCKED, 1, 0], &[], &[]);
        } else {
            self.note(&[LOCKED, 0, 0], &[], &[]);
        }
    }

    /// The open file was found to be the one of a name, or was not.
    pub fn compared(&mut self, name: &str, same: bool)
        ensures { events_of self.new.noted ≡ Compared name.now same ∷ events_of self.old.noted }
    {
        if same {
            self.note(&[COMPARED, 1, 0], name.as_bytes(), &[]);
        } else {
            self.note(&[COMPARED, 0, 0], name.as_bytes(), &[]);
        }
    }

    /// The open file was cut to nothing, or was not.
    pub fn emptied(&mut self, ok: bool)
        ensures { events_of self.new.noted ≡ Emptied ok ∷ events_of self.old.noted }
    {
        if ok {
            self.note(&[EMPTIED, 1, 0], &[], &[]);
        } else {
            self.note(&[EMPTIED, 0, 0], &[], &[]);
        }
    }

    /// A number of the bytes were written to the open file, or the write failed.
    pub fn wrote(&mut self, bytes: &[u8], taken: Option<usize>)
        ensures { events_of self.new.noted ≡ Wrote bytes.now taken ∷ events_of self.old.noted }
    {
        match taken {
            Some(count) => self.note(&[WROTE, 1, count as u64], bytes, &[]),
            None => self.note(&[WROTE, 0, 0], bytes, &[]),
        }
    }

    /// The open file was synced, or was not.
    pub fn synced(&mut self, ok: bool)
        ensures { events_of self.new.noted ≡ Synced ok ∷ events_of self.old.noted }
    {
        if ok {
            self.note(&[SYNCED, 1, 0], &[], &[]);
        } else {
            self.note(&[SYNCED, 0, 0], &[], &[]);
        }
    }

    /// A file was renamed, or was not.
    pub fn renamed(&mut self, from: &str, to: &str, ok: bool)
        ensures { events_of self.new.noted ≡ Renamed from.now to.now ok ∷ events_of self.old.noted }
    {
        if ok {
            self.note(&[RENAMED, 1, 0], from.as_bytes(), to.as_bytes());
        } else {
            self.note(&[RENAMED, 0, 0], from.as_bytes(), to.as_bytes());
        }
    }

    /// A name was removed, or was not.
    pub fn removed(&mut self, name: &str, ok: bool)
        ensures { events_of self.new.noted ≡ Removed name.now ok ∷ events_of self.old.noted }
    {
        if ok {
            self.note(&[REMOVED, 1, 0], name.as_bytes(), &[]);
        } else {
            self.note(&[REMOVED, 0, 0], name.as_bytes(), &[]);
        }
    }

    /// The folder was synced, or was not.
    pub fn settled(&mut self, ok: bool)
        ensures { events_of self.new.noted ≡ Settled ok ∷ events_of self.old.noted }
    {
        if ok {
            self.note(&[SETTLED, 1, 0], &[], &[]);
        } else {
            self.note(&[SETTLED, 0, 0], &[], &[]);
        }
    }

    /// The file of a name was synced, or was not.
    pub fn synced_file(&mut self, name: &str, ok: bool)
        ensures { events_of self.new.noted ≡ SyncedFile name.now ok ∷ events_of self.old.noted }
    {
        if ok {
            self.note(&[SYNCED_FILE, 1, 0], name.as_bytes(), &[]);
        } else {
            self.note(&[SYNCED_FILE, 0, 0], name.as_bytes(), &[]);
        }
    }

    /// The file of a name was read, and had these bytes.
    pub fn read(&mut self, name: &str, bytes: &[u8])
        ensures { events_of self.new.noted ≡ Read name.now (Some (Some bytes.now)) ∷ events_of self.old.noted }
    {
        self.note(&[READ, 1, 2], name.as_bytes(), bytes);
    }

    /// There was no file of a name that was to be read.
    pub fn read_nothing(&mut self, name: &str)
        ensures { events_of self.new.noted ≡ Read name.now (Some None) ∷ events_of self.old.noted }
    {
        self.note(&[READ, 1, 1], name.as_bytes(), &[]);
    }

    /// The file of a name could not be read.
    pub fn unread(&mut self, name: &str)
        ensures { events_of self.new.noted ≡ Read name.now None ∷ events_of self.old.noted }
    {
        self.note(&[READ, 0, 0], name.as_bytes(), &[]);
    }
}
