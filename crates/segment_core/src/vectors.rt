//! The vectors of a column, from the first rows on.
ghost use Rattle.std.specs.Prelude.{◌≡◌, ◌<◌, ◌↔◌, length, slice_set, IsTrue, IfOk};
ghost use Rattle.segment_core.specs.Segment.{canonical_vectors, AreCanonical, HaveSameCells};

use crate::coded_vector::CodedVector;
use std::alloc::{AllocError, Global};
use std::marker::Model;

/// The vectors of a column, from the first rows on. Contracts see them as that list.
#[derive(Drop)]
pub(crate) struct Vectors {
    vectors: Vec<CodedVector>,
}

impl Model for Vectors {
    ghost use Rattle.std.specs.Prelude.{List};
    ghost use Rattle.segment_core.specs.CodedVector.{VectorForm};

    ghost Value = { List VectorForm };

    ghost view = { λ column. column.vectors.items };
}

impl Vectors {
    /// The list of these vectors. It takes no memory.
    pub fn from_vec(vectors: Vec<CodedVector>) -> Vectors
        ensures { result ≡ vectors.items }
    {
        Vectors { vectors }
    }

    /// The vectors, from the first rows on.
    pub fn as_slice(&self) -> &[CodedVector]
        ensures { result.now ≡ self.now }
    {
        self.vectors.as_slice()
    }

    /// Puts a vector at a place that has one.
    pub fn put(&mut self, place: usize, vector: CodedVector)
        requires { place < length self.old }
        ensures { self.new ≡ slice_set self.old place vector }
    {
        self.vectors[place] = vector;
    }

    /// Whether each vector is the canonical one of its cells. It takes no memory: `room` is for numbers of the rows, and serves one
    /// column after another.
    pub fn are_canonical(&self, room: &mut [u64; 1024]) -> bool
        ensures { IsTrue result ↔ AreCanonical self.now }
    {
        are_canonical(self.vectors.as_slice(), room)
    }

    /// Whether two columns have the same cells, vector by vector. It takes no memory.
    pub fn same_cells(&self, other: &Vectors) -> bool
        requires { length self.now ≡ length other.now }
        ensures { IsTrue result ↔ HaveSameCells self.now other.now }
    {
        same_cells(self.vectors.as_slice(), other.as_slice())
    }

    /// A copy of the vectors in memory of its own. If memory is refused, an `AllocError`.
    pub fn copy(&self, alloc: Global) -> Result<Vectors, AllocError>
        ensures { IfOk result (λ column. column ≡ self.now) }
    {
        let vectors = copied_vectors(alloc, self.vectors.as_slice())?;
        Ok(Vectors { vectors })
    }

    /// The canonical vectors of the same cells. If memory is refused, an `AllocError`.
    pub fn canonical_copy(&self, alloc: Global) -> Result<Vectors, AllocError>
        ensures { IfOk result (λ column. column ≡ canonical_vectors self.now) }
    {
        let vectors = canonical_copies(alloc, self.vectors.as_slice())?;
        Ok(Vectors { vectors })
    }
}

/// A copy of vectors in memory of its own. If memory is refused, an `AllocError`.
fn copied_vectors(alloc: Global, vectors: &[CodedVector]) -> Result<Vec<CodedVector>, AllocError>
    ensures { IfOk result (λ copied. copied.items ≡ vectors.now) }
{
    let mut copied = Vec::with_capacity(alloc, vectors.len())?;
    for vector in vectors {
        copied.push(vector.copy(alloc)?)?;
    }
    Ok(copied)
}

/// The canonical vectors of the same cells. If memory is refused, an `AllocError`.
fn canonical_copies(alloc: Global, vectors: &[CodedVector]) -> Result<Vec<CodedVector>, AllocError>
    ensures { IfOk result (λ made. made.items ≡ canonical_vectors vectors.now) }
{
    let mut made = Vec::with_capacity(alloc, vectors.len())?;
    for vector in vectors {
        made.push(vector.canonical_copy(alloc)?)?;
    }
    Ok(made)
}

/// Whether each vector is the canonical one of its cells. `room` is for numbers of the rows.
fn are_canonical(vectors: &[CodedVector], room: &mut [u64; 1024]) -> bool
    ensures { IsTrue result ↔ AreCanonical vectors.now }
{
    for vector in vectors {
        if !vector.is_canonical_in(room) {
            return false;
        }
    }
    true
}

/// Whether two columns have the same cells, vector by vector.
fn same_cells(vectors: &[CodedVector], others: &[CodedVector]) -> bool
    requires { length vectors.now ≡ length others.now }
    ensures { IsTrue result ↔ HaveSameCells vectors.now others.now }
{
    for k in 0..vectors.len() {
        if !vectors[k].same_cells(&others[k]) {
            return false;
        }
    }
    true
}
