//! A list of calls that only clauses read.
ghost use Rattle.std.specs.Prelude.{◌≡◌, List, [], ◌∷◌, Some, None, true, false, take, map};
ghost use Rattle.std.specs.String.{string_bytes};
ghost use Rattle.std.specs.Borrow.{ftrue};
ghost use Rattle.folder_model.specs.Call.{Made, Wrote, Synced, Linked, Removed, Settled, Locked, Unlocked, Began, Listed, Read, Looked, Exclusive, Shared, Done, Taken, Failed};
ghost use Rattle.folder_protocol.specs.Note.{Noted, calls_of};

use std::marker::{Model, PhantomData};

// The numbers of the calls, as `call_from` reads them.
const MADE: u64 = 0;

const WROTE: u64 = 1;

const SYNCED: u64 = 2;

const LINKED: u64 = 3;

const REMOVED: u64 = 4;

const SETTLED: u64 = 5;

const LOCKED: u64 = 6;

const UNLOCKED: u64 = 7;

const BEGAN: u64 = 8;

const LISTED: u64 = 9;

const READ: u64 = 10;

const LOOKED: u64 = 11;

// What came of a link.
const DONE: u64 = 0;

const TAKEN: u64 = 1;

const FAILED: u64 = 2;

// How the folder was locked.
const SHARED: u64 = 0;

const EXCLUSIVE: u64 = 1;

/// The calls on a folder so far, each with its answer. It takes no memory, and does nothing.
#[derive(Drop)]
pub struct Record {
    marker: PhantomData<u8>,
    pub ghost noted: { List Noted },
}

impl Model for Record {
    ghost also_owns = { λ _. ftrue };
}

impl Record {
    /// No call was made yet.
    pub fn new() -> Record
        ensures { result.noted ≡ [] }
    {
        Record {
            marker: PhantomData,
        }
    }

    /// Notes a call, by its numbers, its texts and its names.
    fn note_all(&mut self, _numbers: &[u64], _first: &[u8], _second: &[u8], _names: &[String])
        ensures { self.new.noted ≡ (_numbers.now, _first.now, _second.now, map string_bytes _names.now) ∷ self.old.noted }
    {}

    /// Notes a call that has no names.
    fn note(&mut self, numbers: &[u64], first: &[u8], second: &[u8])
        ensures { self.new.noted ≡ (numbers.now, first.now, second.now, []) ∷ self.old.noted }
    {
        self.note_all(numbers, first, second, &[]);
    }

    /// A file of a name was made, or was not.
    pub fn made(&mut self, name: &str, ok: bool)
        ensures { calls_of self.new.noted ≡ Made name.now ok ∷ calls_of self.old.noted }
    {
        if ok {
            self.note(&[MADE, 1, 0], name.as_bytes(), &[]);
        } else {
            self.note(&[MADE, 0, 0], name.as_bytes(), &[]);
        }
    }

    /// So many of the bytes were written to the open file.
    pub fn wrote(&mut self, bytes: &[u8], taken: usize)
        ensures { calls_of self.new.noted ≡ Wrote (take taken bytes.now) true ∷ calls_of self.old.noted }
    {
        self.note(&[WROTE, 1, taken as u64], bytes, &[]);
    }

    /// A write of these bytes failed.
    pub fn wrote_not(&mut self, bytes: &[u8])
        ensures { calls_of self.new.noted ≡ Wrote bytes.now false ∷ calls_of self.old.noted }
    {
        self.note(&[WROTE, 0, 0], bytes, &[]);
    }

    /// The open file was synced, or was not.
    pub fn synced(&mut self, ok: bool)
        ensures { calls_of self.new.noted ≡ Synced ok ∷ calls_of self.old.noted }
    {
        if ok {
            self.note(&[SYNCED, 1, 0], &[], &[]);
        } else {
            self.note(&[SYNCED, 0, 0], &[], &[]);
        }
    }

    /// The file of one name was given a second one.
    pub fn linked(&mut self, from: &str, to: &str)
        ensures { calls_of self.new.noted ≡ Linked from.now to.now Done ∷ calls_of self.old.noted }
    {
        self.note(&[LINKED, 1, DONE], from.as_bytes(), to.as_bytes());
    }

    /// Another file has the second name.
    pub fn taken(&mut self, from: &str, to: &str)
        ensures { calls_of self.new.noted ≡ Linked from.now to.now Taken ∷ calls_of self.old.noted }
    {
        self.note(&[LINKED, 1, TAKEN], from.as_bytes(), to.as_bytes());
    }

    /// The file of one name could not be given a second one.
    pub fn linked_not(&mut self, from: &str, to: &str)
        ensures { calls_of self.new.noted ≡ Linked from.now to.now Failed ∷ calls_of self.old.noted }
    {
        self.note(&[LINKED, 1, FAILED], from.as_bytes(), to.as_bytes());
    }

    /// A name was removed, or was not.
    pub fn removed(&mut self, name: &str, ok: bool)
        ensures { calls_of self.new.noted ≡ Removed name.now ok ∷ calls_of self.old.noted }
    {
        if ok {
            self.note(&[REMOVED, 1, 0], name.as_bytes(), &[]);
        } else {
            self.note(&[REMOVED, 0, 0], name.as_bytes(), &[]);
        }
    }

    /// The folder was synced, or was not.
    pub fn settled(&mut self, ok: bool)
        ensures { calls_of self.new.noted ≡ Settled ok ∷ calls_of self.old.noted }
    {
        if ok {
            self.note(&[SETTLED, 1, 0], &[], &[]);
        } else {
            self.note(&[SETTLED, 0, 0], &[], &[]);
        }
    }

    /// The exclusive lock was got, or was not.
    pub fn locked(&mut self, ok: bool)
        ensures { calls_of self.new.noted ≡ Locked Exclusive ok ∷ calls_of self.old.noted }
    {
        if ok {
            self.note(&[LOCKED, 1, EXCLUSIVE], &[], &[]);
        } else {
            self.note(&[LOCKED, 0, EXCLUSIVE], &[], &[]);
        }
    }

    /// The shared lock was got, or was not.
    pub fn locked_shared(&mut self, ok: bool)
        ensures { calls_of self.new.noted ≡ Locked Shared ok ∷ calls_of self.old.noted }
    {
        if ok {
            self.note(&[LOCKED, 1, SHARED], &[], &[]);
        } else {
            self.note(&[LOCKED, 0, SHARED], &[], &[]);
        }
    }

    /// The lock was let go.
    pub fn unlocked(&mut self)
        ensures { calls_of self.new.noted ≡ Unlocked ∷ calls_of self.old.noted }
    {
        self.note(&[UNLOCKED, 1, 0], &[], &[]);
    }

    /// A listing began, and gave these names.
    pub fn listed(&mut self, names: &[String])
        ensures { calls_of self.new.noted ≡ Listed (Some (map string_bytes names.now)) ∷ Began ∷ calls_of self.old.noted }
    {
        self.note(&[BEGAN, 1, 0], &[], &[]);
        self.note_all(&[LISTED, 1, 0], &[], &[], names);
    }

    /// A listing began, and failed.
    pub fn listed_not(&mut self)
        ensures { calls_of self.new.noted ≡ Listed None ∷ Began ∷ calls_of self.old.noted }
    {
        self.note(&[BEGAN, 1, 0], &[], &[]);
        self.note(&[LISTED, 0, 0], &[], &[]);
    }

    /// The file of a name was opened and read, and had these bytes.
    pub fn read(&mut self, name: &str, bytes: &[u8])
        ensures { calls_of self.new.noted ≡ Read name.now (Some (Some bytes.now)) ∷ calls_of self.old.noted }
    {
        self.note(&[READ, 1, 2], name.as_bytes(), bytes);
    }

    /// There was no file of a name that was to be read.
    pub fn read_nothing(&mut self, name: &str)
        ensures { calls_of self.new.noted ≡ Read name.now (Some None) ∷ calls_of self.old.noted }
    {
        self.note(&[READ, 1, 1], name.as_bytes(), &[]);
    }

    /// The file of a name could not be read.
    pub fn unread(&mut self, name: &str)
        ensures { calls_of self.new.noted ≡ Read name.now None ∷ calls_of self.old.noted }
    {
        self.note(&[READ, 0, 0], name.as_bytes(), &[]);
    }

    /// A name was looked at, or could not be.
    pub fn looked(&mut self, name: &str, ok: bool)
        ensures { calls_of self.new.noted ≡ Looked name.now ok ∷ calls_of self.old.noted }
    {
        if ok {
            self.note(&[LOOKED, 1, 0], name.as_bytes(), &[]);
        } else {
            self.note(&[LOOKED, 0, 0], name.as_bytes(), &[]);
        }
    }
}
