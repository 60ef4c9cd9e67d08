//! Which batches a table's file has, by their names, as its bytes pass: a sentence on a refusal may name the input that has one.

use catalogue_join::Held;
use column_file::{CONTAINER, read_head, read_name_count};
use folder_parts::HEAD_BYTES;
use segment_core::MASK_BYTES;
use std::alloc::Global;
use std::mem::replace;
use table_model::{BatchName, Number, Origin};
use transpose_order::VECTOR_ROWS;

/// How many bytes the greatest field has that is looked at.
const FIELD_BYTES: usize = 10;

/// What comes next in a file.
#[derive(Clone, Copy, Debug, PartialEq, Eq)]
enum Next {
    /// The table and the number of batches.
    Head,
    /// A batch's name, and its number of rows.
    Batch,
    /// Whether a vector has a mask of nulls.
    Mask,
    /// The coding of a vector, its width, and how many values are listed.
    Form,
    /// Nothing that has to do with batches.
    Nothing,
}

impl Next {
    /// How many bytes this has.
    fn size(self) -> usize {
        match self {
            Next::Batch => FIELD_BYTES,
            Next::Form => 4,
            Next::Mask | Next::Head | Next::Nothing => 1,
        }
    }
}

/// The names of the batches that passed so far of a file. Values are passed over. Of bytes that are no file it is anything.
#[derive(Drop)]
pub struct BatchNames {
    alloc: Global,
    next: Next,
    head: Vec<u8>,
    /// How many bytes a value of each column has.
    sizes: Vec<usize>,
    /// How many batches are still to come.
    batches: usize,
    /// How many vectors each column of the batch has.
    vectors: usize,
    /// The column of the vector that comes next, and how many vectors of it came.
    column: usize,
    vector: usize,
    /// How many bytes are passed over before the next field.
    over: usize,
    field: [u8; FIELD_BYTES],
    filled: usize,
    names: Held,
}

impl BatchNames {
    /// Those of a file of which nothing has passed.
    pub fn new(alloc: Global) -> BatchNames {
        BatchNames {
            alloc,
            next: Next::Head,
            head: Vec::new(alloc),
            sizes: Vec::new(alloc),
            batches: 0,
            vectors: 0,
            column: 0,
            vector: 0,
            over: 0,
            field: [0; FIELD_BYTES],
            filled: 0,
            names: Held::new(alloc),
        }
    }

    /// The names.
    pub fn into_names(self) -> Held {
        let BatchNames { names, .. } = self;
        names
    }

    /// Takes the bytes that came next. Without memory no more names are known.
    pub fn take(&mut self, bytes: &[u8]) {
        if self.next != Next::Head {
            return self.walk(bytes);
        }
        let room = HEAD_BYTES.saturating_sub(self.head.len());
        let (more, rest) = bytes.split_at(room.min(bytes.len()));
        let mut head = replace(&mut self.head, Vec::new(self.alloc));
        if head.extend_from_slice(more).is_err() {
            self.next = Next::Nothing;
            return;
        }
        match self.begin(head.as_slice()) {
            Some(size) => {
                self.walk(head.as_slice().get(size..).unwrap_or(&[]));
                self.walk(rest);
            }
            None if head.len() < HEAD_BYTES => self.head = head,
            None => self.next = Next::Nothing,
        }
    }

    /// Reads what is before the first batch, and answers how many bytes that has; nothing unless all of it is there.
    fn begin(&mut self, head: &[u8]) -> Option<usize> {
        let (schema, after) = read_head(self.alloc, head.len(), head, &CONTAINER).ok()?;
        let (batches, rest) = read_name_count(head.len(), after).ok()?;
        let mut sizes = Vec::new(self.alloc);
        for column in schema.column_list() {
            sizes.push(column.column_type().bits() / 8).ok()?;
        }
        self.sizes = sizes;
        self.batches = batches;
        self.next = self.next_batch();
        Some(head.len().saturating_sub(rest.len()))
    }

    /// Takes bytes behind the head.
    fn walk(&mut self, bytes: &[u8]) {
        let mut rest = bytes;
        for _ in 0..bytes.len() {
            if rest.is_empty() || self.next == Next::Nothing {
                return;
            }
            rest = self.pass(rest);
        }
    }

    /// Takes some of these bytes, and answers those after them.
    fn pass<'b>(&mut self, bytes: &'b [u8]) -> &'b [u8] {
        if self.over > 0 {
            let count = self.over.min(bytes.len());
            self.over = self.over.saturating_sub(count);
            return bytes.get(count..).unwrap_or(&[]);
        }
        let Some((byte, rest)) = bytes.split_first() else {
            return bytes;
        };
        if let Some(place) = self.field.get_mut(self.filled) {
            *place = *byte;
        }
        self.filled = self.filled.saturating_add(1);
        if self.filled >= self.next.size() {
            self.filled = 0;
            self.take_field();
        }
        rest
    }

    /// Takes the field that is there whole.
    fn take_field(&mut self) {
        let [a, b, c, d, e, f, g, h, i, j] = self.field;
        match self.next {
            Next::Batch => {
                let name = BatchName {
                    origin: Origin(u32::from_le_bytes([a, b, c, d])),
                    number: Number(u32::from_le_bytes([e, f, g, h])),
                };
                let last = usize::from(u16::from_le_bytes([i, j]));
                self.enter(name, last / VECTOR_ROWS + 1);
            }
            Next::Mask => {
                self.over = if a == 0 { 0 } else { MASK_BYTES };
                self.next = Next::Form;
            }
            Next::Form => {
                self.over = self.payload(
                    a,
                    usize::from(b),
                    usize::from(u16::from_le_bytes([c, d])),
                );
                self.leave_vector();
            }
            Next::Head | Next::Nothing => {}
        }
    }

    /// Takes a batch's name; each of its columns has so many vectors.
    fn enter(&mut self, name: BatchName, vectors: usize) {
        if !name.is_proper() || self.names.insert(name).is_err() {
            self.next = Next::Nothing;
            return;
        }
        self.vectors = vectors;
        self.vector = 0;
        self.column = 0;
        self.next = Next::Mask;
    }

    /// How many bytes come behind the form of a vector: of the codings FOR, DELTA, RLE and DICT, by their tags.
    fn payload(&self, tag: u8, width: usize, count: usize) -> usize {
        let size = self.sizes.as_slice().get(self.column).copied().unwrap_or(0);
        let words = MASK_BYTES.saturating_mul(width);
        let listed = size.saturating_mul(count);
        match tag {
            0 => size.saturating_add(words),
            1 => size.saturating_add(MASK_BYTES).saturating_add(words),
            2 => listed.saturating_add(MASK_BYTES),
            _ => listed.saturating_add(words),
        }
    }

    /// Goes on behind a vector.
    fn leave_vector(&mut self) {
        self.next = Next::Mask;
        self.vector = self.vector.saturating_add(1);
        if self.vector < self.vectors {
            return;
        }
        self.vector = 0;
        self.column = self.column.saturating_add(1);
        if self.column < self.sizes.len() {
            return;
        }
        self.batches = self.batches.saturating_sub(1);
        self.next = self.next_batch();
    }

    /// What comes behind a batch.
    fn next_batch(&self) -> Next {
        if self.batches == 0 {
            Next::Nothing
        } else {
            Next::Batch
        }
    }
}
