//! How far the reading of a command is, for a person who waits at a terminal.

use command_line::Source;
use file_protocol::ReadWatch;
use refusal_sentences::Printable;
use std::cell::Cell;
use std::fmt;
use std::fs::{self, Files};
use std::io::{self, Read};
use std::rt::Clock;
use std::time::{Duration, Instant};

/// How many seconds a command reads before it says how far it is.
const PATIENCE: u64 = 2;

/// How many milliseconds what is said stays at least.
const PAUSE: u64 = 250;

/// How many bytes of a name fit into the line.
const NAME_BYTES: usize = 40;

/// What takes the line of a terminal away.
const CLEAR: &str = "\r\x1b[K";

/// What a command says on standard error of how far its reading is: a line that is written anew in its place, and taken away at the end.
#[derive(Drop)]
pub struct Progress<'r, R> {
    rt: &'r R,
    is_wanted: bool,
    is_typed: bool,
    is_shown: Cell<bool>,
    due: Cell<Option<Instant>>,
}

impl<'r, R: Clock + Eprint> Progress<'r, R> {
    /// Nothing was read yet. Nothing is ever said unless it is wanted, and nothing of what a person types.
    pub fn new(rt: &'r R, is_wanted: bool, is_typed: bool) -> Progress<'r, R> {
        Progress {
            rt,
            is_wanted,
            is_typed,
            is_shown: Cell::new(false),
            due: Cell::new(None),
        }
    }

    /// Whether anything is said of this source.
    fn is_told(&self, source: Source<'_>) -> bool {
        self.is_wanted && !(self.is_typed && source == Source::Input)
    }

    /// Begins to count the time, with the first read of all.
    fn begin(&self, source: Source<'_>) {
        if !self.is_told(source) || self.due.get().is_some() {
            return;
        }
        if let Ok(now) = Instant::now(self.rt) {
            self.due.set(now.checked_add(Duration::from_secs(PATIENCE)));
        }
    }

    /// Whether the line of a source is to be written now.
    fn is_due(&self, source: Source<'_>) -> bool {
        if !self.is_told(source) {
            return false;
        }
        match (Instant::now(self.rt), self.due.get()) {
            (Ok(now), Some(due)) if now >= due => {
                self.due.set(now.checked_add(Duration::from_millis(PAUSE)));
                true
            }
            _ => false,
        }
    }

    /// Writes the line.
    fn show(&self, name: &str, read: u64, size: Option<u64>) {
        let name = Printable(shown_name(name));
        let read = Amount(read);
        let _ = match size {
            Some(size) => {
                let size = Amount(size);
                eprint!(self.rt; "{CLEAR}reading {name}: {read} of {size}")
            }
            None => eprint!(self.rt; "{CLEAR}reading {name}: {read}"),
        };
        self.is_shown.set(true);
    }

    /// Says that the part of this number of a folder is opened, and how many parts there are, if that is due.
    pub fn tell_part(&self, folder: &str, number: usize, parts: usize) {
        let source = Source::File(folder);
        self.begin(source);
        if self.is_due(source) {
            let name = Printable(shown_name(folder));
            let _ = eprint!(self.rt; "{CLEAR}reading {name}: part {number} of {parts}");
            self.is_shown.set(true);
        }
    }

    /// Takes the line away, if it is there.
    pub fn clear(&self) {
        if self.is_shown.get() {
            let _ = eprint!(self.rt; "{CLEAR}");
            self.is_shown.set(false);
        }
    }
}

/// The last component of a path.
fn last_of(path: &str) -> &str {
    match path.rsplit_once('/') {
        Some((_, name)) => name,
        None => path,
    }
}

/// A name as it fits into the line: its last component if the whole is too long, and else a word for it.
fn shown_name(name: &str) -> &str {
    if name.len() <= NAME_BYTES {
        return name;
    }
    let last = last_of(name);
    if last.len() <= NAME_BYTES {
        last
    } else {
        "a file"
    }
}

/// Reports the progress of a file that is read under its lock.
#[derive(Drop)]
pub struct LockedReading<'p, R> {
    progress: &'p Progress<'p, R>,
    read: Cell<u64>,
    size: Cell<Option<u64>>,
}

impl<'p, R> LockedReading<'p, R> {
    /// Nothing was read yet.
    pub fn new(progress: &'p Progress<'p, R>) -> LockedReading<'p, R> {
        LockedReading {
            progress,
            read: Cell::new(0),
            size: Cell::new(None),
        }
    }
}

impl<'p, R: Files + Clock + Eprint> ReadWatch for LockedReading<'p, R> {
    fn came(&self, name: &str, count: usize) {
        let source = Source::File(name);
        let read = self.read.get();
        if count == 0 {
            self.progress.clear();
            return;
        }
        if read == 0 {
            self.progress.begin(source);
        }
        let read = read.saturating_add(count as u64);
        self.read.set(read);
        if self.progress.is_due(source) {
            if self.size.get().is_none() {
                self.size.set(size_of(self.progress.rt, source));
            }
            self.progress.show(name, read, self.size.get());
        }
    }
}

/// A number of bytes, in a unit that suits it.
#[derive(Clone, Copy)]
struct Amount(u64);

impl fmt::Display for Amount {
    fn fmt<W: fmt::Write>(&self, f: &mut fmt::Formatter<W>) -> fmt::Result {
        let count = self.0;
        let thousands = count / 1_000;
        let millions = count / 1_000_000;
        if count < 10_000 {
            write!(f, "{count} bytes")
        } else if count < 10_000_000 {
            write!(f, "{thousands} kB")
        } else {
            write!(f, "{millions} MB")
        }
    }
}

/// A reader of a file or of standard input that says how far it is.
#[derive(Drop)]
pub struct Told<'p, 'n, R, D> {
    progress: &'p Progress<'p, R>,
    source: Source<'n>,
    inner: D,
    read: u64,
    size: Option<u64>,
}

impl<'p, 'n, R: Files + Clock + Eprint, D> Told<'p, 'n, R, D> {
    /// A reader of this source, from which nothing was read yet.
    pub fn new(progress: &'p Progress<'p, R>, source: Source<'n>, inner: D) -> Told<'p, 'n, R, D> {
        Told {
            progress,
            source,
            inner,
            read: 0,
            size: None,
        }
    }

    /// The reader itself.
    pub fn into_inner(self) -> D {
        let Told { inner, .. } = self;
        inner
    }

    /// Says how far it is once so many bytes more were read, if that is due. Nothing more is the end.
    fn tell(&mut self, more: usize) {
        if more == 0 {
            self.progress.clear();
            return;
        }
        self.read = self.read.saturating_add(more as u64);
        if self.progress.is_due(self.source) {
            if self.size.is_none() {
                self.size = size_of(self.progress.rt, self.source);
            }
            self.progress.show(self.source.name(), self.read, self.size);
        }
    }
}

/// How many bytes a file has. None unless it is a regular file.
fn size_of<R: Files>(rt: &R, source: Source<'_>) -> Option<u64> {
    let Source::File(name) = source else {
        return None;
    };
    match fs::metadata(rt, name) {
        Ok(found) if found.is_file() => Some(found.len()),
        _ => None,
    }
}

impl<'p, 'n, R: Files + Clock + Eprint, D: Read> Read for Told<'p, 'n, R, D> {
    fn read(&mut self, buffer: &mut [u8]) -> io::Result<usize> {
        if self.read == 0 {
            self.progress.begin(self.source);
        }
        let outcome = self.inner.read(buffer);
        match &outcome {
            Ok(count) => self.tell(*count),
            Err(_) => self.progress.clear(),
        }
        outcome
    }
}
