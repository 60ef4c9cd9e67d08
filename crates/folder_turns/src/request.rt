//! Calls on a folder as they are asked for, and what came of them.
ghost use Rattle.std.specs.Prelude.{◌≡◌, ℕ, List, drop};
ghost use Rattle.folder_model.specs.Call.{Call};
ghost use Rattle.folder_protocol.specs.Note.{calls_of};
ghost use Rattle.folder_turns.specs.Calls.{answered, call_asked, first_of, is_done, kind_of, last_read, second_of};

use folder_protocol::Record;
use std::fmt;

/// A call that is to be made on a folder. Files are named by their names in it.
#[derive(Debug, Drop)]
pub enum Request {
    /// Make a file of this name, which nothing has, and open it.
    Make { name: String },
    /// Add to the open file the bytes that are put, from this position of them on, or only the first of these.
    Write { from: usize },
    /// Sync the open file.
    Sync,
    /// Give the file of one name a second name, unless another file has that.
    Link { from: String, to: String },
    /// Remove a name. One that is gone is no error.
    Remove { name: String },
    /// Sync the folder.
    Settle,
    /// Take the exclusive lock of the folder.
    Lock,
    /// Take the shared lock of the folder.
    LockShared,
    /// List the names in the folder, in ascending order.
    ListNames,
    /// Let the lock of the folder go.
    Unlock,
    /// Open the file of this name, if there is one, and read its bytes.
    ReadFile { name: String },
}

/// The bytes from this position on.
fn end_of(whole: &[u8], from: usize) -> &[u8]
    ensures { result.now ≡ drop from whole.now }
{
    if from > whole.len() {
        return &[];
    }
    let (_, rest) = whole.split_at(from);
    rest
}

impl Request {
    /// Its number, which no other kind of call has.
    pub(crate) fn kind(&self) -> u8
        ensures { (whole : List ℕ) → result ≡ kind_of (call_asked whole self.now) }
    {
        match self {
            Request::Make { .. } => 1,
            Request::Write { .. } => 2,
            Request::Sync => 3,
            Request::Link { .. } => 4,
            Request::Remove { .. } => 5,
            Request::Settle => 6,
            Request::Lock => 7,
            Request::LockShared => 8,
            Request::ListNames => 9,
            Request::ReadFile { .. } => 10,
            Request::Unlock => 11,
        }
    }

    /// Its first name, or what is to be written of these bytes.
    pub(crate) fn first<'a>(&'a self, whole: &'a [u8]) -> &'a [u8]
        ensures { result.now ≡ first_of (call_asked whole.now self.now) }
    {
        match self {
            Request::Make { name } => name.as_bytes(),
            Request::Write { from } => end_of(whole, *from),
            Request::Link { from, .. } => from.as_bytes(),
            Request::Remove { name } => name.as_bytes(),
            Request::ReadFile { name } => name.as_bytes(),
            _ => &[],
        }
    }

    /// Its second name.
    pub(crate) fn second(&self) -> &[u8]
        ensures { (whole : List ℕ) → result.now ≡ second_of (call_asked whole self.now) }
    {
        match self {
            Request::Link { to, .. } => to.as_bytes(),
            _ => &[],
        }
    }
}

/// A read of a part, which is noted for clauses alone.
#[derive(Drop)]
pub struct Note {
    record: Record,
}

impl fmt::Debug for Note {
    fn fmt<W: fmt::Write>(&self, f: &mut fmt::Formatter<W>) -> fmt::Result {
        f.write_str("Note")
    }
}

impl Note {
    /// Of a part with these bytes.
    fn of(bytes: &[u8]) -> Note
        ensures { last_read (calls_of result.record.noted) ≡ bytes.now }
    {
        let mut record = Record::new();
        record.read("", bytes);
        Note { record }
    }
}

/// What came of a call.
#[derive(Debug, Drop)]
pub enum Answer {
    /// It failed. It may have been done nevertheless, or a part of it.
    Failed,
    /// It failed, and the system said why by this number.
    FailedBy { code: i32 },
    Done,
    /// Another file has the name that `Link` was to give.
    Taken,
    /// `Write` wrote so many bytes.
    Wrote { count: usize },
    /// `ListNames` gave these names.
    Listed { names: Vec<String> },
    /// `ReadFile` found no file.
    Missing,
    /// `ReadFile` found these bytes.
    Found { bytes: Vec<u8> },
    /// `ReadFile` found bytes that no run of the order wants: they are noted for clauses alone.
    Noted { note: Note },
}

impl Answer {
    /// Whether it is that the call was done.
    pub(crate) fn is_done(&self) -> bool
        ensures { result ≡ is_done self.now }
    {
        matches!(self, Answer::Done)
    }

    /// The same answer without the bytes that a read found.
    pub(crate) fn noted(self) -> Answer
        ensures { (call : Call) → answered call result ≡ answered call self }
    {
        match self {
            Answer::Found { bytes } => Answer::Noted {
                note: Note::of(bytes.as_slice()),
            },
            other => other,
        }
    }
}

/// A call that was made, and what came of it. An answer that does not fit the call counts as a failure.
#[derive(Debug, Drop)]
pub struct Told {
    pub request: Request,
    pub answer: Answer,
}
