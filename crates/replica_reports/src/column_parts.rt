//! How a store's columns lie in vectors: how many have each coding, and how many bytes they take.
ghost use Rattle.std.specs.Prelude.{◌≡◌, ◌<◌, length, [], ◌∷◌, slice_index_or};
ghost use Rattle.std.specs.FinMap as map;
ghost use Rattle.replica_reports.specs.ColumnFigures.{AreFew, IsAtMost, column_vectors, in_coding, joined, mask_bytes, parts_in};

use replica_store::Store;
use segment_core::{CodedVector, Coding, MASK_BYTES, Segment};
use transpose_order::VECTOR_ROWS;

/// How many vectors of a column have each coding, and how many bytes they take in a file, headers and null masks with them.
#[derive(Clone, Copy, Debug, PartialEq, Eq)]
pub(crate) struct ColumnParts {
    /// How many have a frame of reference.
    pub frames: u64,
    /// How many have deltas.
    pub deltas: u64,
    /// How many have runs.
    pub runs: u64,
    /// How many have a dictionary.
    pub dictionaries: u64,
    /// How many bytes all of them take.
    pub bytes: u64,
}

/// How many bytes of a vector come before its payload, without a null mask: the flag, the coding, the width and the count.
const HEADER_BYTES: u64 = 5;

/// How many bytes a vector's null mask takes.
fn mask_bytes(vector: &CodedVector) -> u64
    ensures { result ≡ mask_bytes vector.now.nulls }
{
    match vector.nulls() {
        Some(_) => MASK_BYTES as u64,
        None => 0,
    }
}

impl ColumnParts {
    /// Those of no vector.
    fn none() -> ColumnParts
        ensures parts { result ≡ parts_in [] }
        ensures few { IsAtMost 0 result }
    {
        ColumnParts {
            frames: 0,
            deltas: 0,
            runs: 0,
            dictionaries: 0,
            bytes: 0,
        }
    }

    /// Those of one vector, which has a coding and takes a number of bytes.
    fn in_coding(coding: Coding, bytes: u64) -> ColumnParts
        ensures { result ≡ in_coding coding bytes }
    {
        let mut parts = ColumnParts::none();
        parts.bytes = bytes;
        match coding {
            Coding::For => parts.frames = 1,
            Coding::Delta => parts.deltas = 1,
            Coding::Runs => parts.runs = 1,
            Coding::Dict => parts.dictionaries = 1,
        }
        parts
    }

    /// Those of one vector.
    fn of(vector: &CodedVector) -> ColumnParts
        ensures parts { result ≡ parts_in (vector.now ∷ []) }
        ensures few { IsAtMost 1 result }
    {
        let payload = u64::from(vector.coded().bytes_len());
        let bytes = HEADER_BYTES + mask_bytes(vector) + payload;
        ColumnParts::in_coding(vector.coding(), bytes)
    }

    /// Those of some vectors and of others.
    fn joined(self, other: ColumnParts) -> ColumnParts
        requires few { AreFew self }
        requires others { AreFew other }
        ensures { result ≡ joined self other }
    {
        ColumnParts {
            frames: self.frames + other.frames,
            deltas: self.deltas + other.deltas,
            runs: self.runs + other.runs,
            dictionaries: self.dictionaries + other.dictionaries,
            bytes: self.bytes + other.bytes,
        }
    }
}

/// What a segment's column is made of.
fn parts_in(segment: &Segment, column: usize) -> ColumnParts
    requires { column < length segment.now.forms }
    ensures parts { result ≡ parts_in (slice_index_or segment.now.forms column []) }
    ensures few { IsAtMost 64 result }
{
    let mut parts = ColumnParts::none();
    for vector in 0..segment.rows().div_ceil(VECTOR_ROWS) {
        parts = parts.joined(ColumnParts::of(segment.vector(column, vector)));
    }
    parts
}

/// What a store's column is made of.
pub(crate) fn parts_of(store: &Store, column: usize) -> ColumnParts
    requires { column < length store.now.replica.schema.columns }
    ensures { result ≡ parts_in (column_vectors column (map.entries store.now.segments)) }
{
    store.shows_its_segments();
    let mut parts = ColumnParts::none();
    for index in 0..store.batches() {
        let (_, segment) = store.batch(index);
        parts = parts.joined(parts_in(segment, column));
    }
    parts
}
