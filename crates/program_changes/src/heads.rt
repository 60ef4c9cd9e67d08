//! What is known of inputs that are read one after another: the heads of two, which have their tables, and the names of the batches of
//! each. A sentence on a refusal may name them.

use crate::batch_names::BatchNames;
use catalogue_join::Held;
use column_file::read_schema;
use folder_parts::HEAD_BYTES;
use std::alloc::Global;
use std::cell::Cell;
use std::io::{self, Read};
use std::mem::replace;
use table_model::{BatchName, Schema};

/// The byte at which a file has its version: two bytes, the lower first.
const VERSION_AT: usize = 4;

/// The first bytes of an input, at most [`HEAD_BYTES`].
#[derive(Drop)]
pub struct Head {
    bytes: Vec<u8>,
}

impl Head {
    /// The head of an input of which nothing was read yet.
    pub fn new(alloc: Global) -> Head {
        Head {
            bytes: Vec::new(alloc),
        }
    }

    /// Adds the bytes that came next, as far as there is room. Without memory for them the head is as it was.
    pub fn add(&mut self, bytes: &[u8]) {
        let room = HEAD_BYTES.saturating_sub(self.bytes.len());
        let (more, _) = bytes.split_at(room.min(bytes.len()));
        if !more.is_empty() {
            let _ = self.bytes.extend_from_slice(more);
        }
    }

    /// The bytes.
    pub fn as_slice(&self) -> &[u8] {
        self.bytes.as_slice()
    }

    /// The table of the input, if its schema is in the head.
    pub fn schema(&self, alloc: Global) -> Option<Schema> {
        schema_in(alloc, self.bytes.as_slice())
    }
}

/// The schema in a file's first bytes, if it is there.
pub fn schema_in(alloc: Global, head: &[u8]) -> Option<Schema> {
    let (front, rest) = head.split_at_checked(VERSION_AT + 2)?;
    let version = u64::from(front[VERSION_AT]) + 256 * u64::from(front[VERSION_AT + 1]);
    match read_schema(alloc, version, head.len(), rest) {
        Ok((schema, _)) => Some(schema),
        Err(_) => None,
    }
}

/// The names of the batches of some inputs: of each that was read, and of the one that was begun last, as far as that came.
#[derive(Drop)]
struct Names {
    read: Vec<Held>,
    last: BatchNames,
}

impl Names {
    /// No input was begun yet.
    fn new(alloc: Global) -> Names {
        Names {
            read: Vec::new(alloc),
            last: BatchNames::new(alloc),
        }
    }

    /// Begins the next input behind one. Without memory for the list it ends there.
    fn begin(&mut self, alloc: Global) {
        let before = replace(&mut self.last, BatchNames::new(alloc));
        let _ = self.read.push(before.into_names());
    }

    /// The first input before the last that has a batch of this name.
    fn first_with(&self, name: BatchName) -> Option<usize> {
        self.read
            .as_slice()
            .iter()
            .position(|names| names.holds(name))
    }
}

/// The heads of the first of some inputs, and of the one that was begun last; and the names of the batches of each.
#[derive(Drop)]
pub struct Heads {
    alloc: Global,
    begun: Cell<usize>,
    first: Cell<Head>,
    last: Cell<Head>,
    names: Cell<Names>,
}

impl Heads {
    /// No input was begun yet.
    pub fn new(alloc: Global) -> Heads {
        Heads {
            alloc,
            begun: Cell::new(0),
            first: Cell::new(Head::new(alloc)),
            last: Cell::new(Head::new(alloc)),
            names: Cell::new(Names::new(alloc)),
        }
    }

    /// Begins the next input.
    pub fn begin(&self) {
        let before = self.last.replace(Head::new(self.alloc));
        let begun = self.begun.get();
        if begun == 1 {
            self.first.set(before);
        }
        if begun > 0 {
            let mut names = self.names.replace(Names::new(self.alloc));
            names.begin(self.alloc);
            self.names.set(names);
        }
        self.begun.set(begun.saturating_add(1));
    }

    /// Takes the bytes that came next of the input that was begun last.
    pub fn take(&self, bytes: &[u8]) {
        let mut head = self.last.replace(Head::new(self.alloc));
        head.add(bytes);
        self.last.set(head);
        let mut names = self.names.replace(Names::new(self.alloc));
        names.last.take(bytes);
        self.names.set(names);
    }

    /// How many inputs were begun.
    pub fn begun(&self) -> usize {
        self.begun.get()
    }

    /// The table of the first input, if another one was begun after it.
    pub fn first_table(&self) -> Option<Schema> {
        self.table_in(&self.first)
    }

    /// The table of the input that was begun last.
    pub fn last_table(&self) -> Option<Schema> {
        self.table_in(&self.last)
    }

    /// The table in a head, which stays there.
    fn table_in(&self, place: &Cell<Head>) -> Option<Schema> {
        let head = place.replace(Head::new(self.alloc));
        let schema = head.schema(self.alloc);
        place.set(head);
        schema
    }

    /// The head of the input that was begun last, which is not kept any longer.
    pub fn take_last(&self) -> Head {
        self.last.replace(Head::new(self.alloc))
    }

    /// The first of the inputs before the last that has a batch of this name, if one has.
    pub fn first_with(&self, name: BatchName) -> Option<usize> {
        let names = self.names.replace(Names::new(self.alloc));
        let first = names.first_with(name);
        self.names.set(names);
        first
    }
}

/// A reader of one of several inputs whose heads are kept.
#[derive(Drop)]
pub struct Headed<'h, D> {
    heads: &'h Heads,
    inner: D,
    is_begun: bool,
}

impl<'h, D> Headed<'h, D> {
    /// A reader, from which nothing was read yet.
    pub fn new(heads: &'h Heads, inner: D) -> Headed<'h, D> {
        Headed {
            heads,
            inner,
            is_begun: false,
        }
    }

    /// The reader itself.
    pub fn into_inner(self) -> D {
        let Headed { inner, .. } = self;
        inner
    }
}

impl<'h, D: Read> Read for Headed<'h, D> {
    fn read(&mut self, buffer: &mut [u8]) -> io::Result<usize> {
        if !self.is_begun {
            self.is_begun = true;
            self.heads.begin();
        }
        let count = self.inner.read(buffer)?;
        self.heads.take(buffer.get(..count).unwrap_or(&[]));
        Ok(count)
    }
}
