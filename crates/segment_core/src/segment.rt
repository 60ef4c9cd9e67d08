//! Segments: the rows of a batch as coded vectors, column by column.
ghost use Rattle.std.specs.Prelude.{◌≡◌, ◌<◌, ◌≤◌, Some, length, IsSome, IfSome, IsTrue, IfOk, ◌↔◌, ℕ, List, [], map, slice_get, slice_index_or};
ghost use Rattle.std.specs.Option.{option_map, option_copied};
ghost use Rattle.table_model.specs.Outcome.{Acts, Gives};
ghost use Rattle.table_model.specs.State.{same_rows};
ghost use Rattle.table_model.specs.Table.{Table, IsBatch, IsTable, row_limit};
ghost use Rattle.segment_core.specs.Segment.{batch_of, vector_at, vector_count, canonical_forms, canonical_segment, canonical_again, canonical_vectors, widths_of, widths_in, cell_at, column_cells, AreCanonical, HaveSameCells, HasCellsOf, recoded, recoded_found, with_vector, IsSegment};
ghost use Rattle.segment_core.specs.Arrays.{array_rows, HaveRows};
ghost use Rattle.segment_core.specs.SegmentBytes.{HasBytesIn};
ghost use Rattle.segment_core.specs.Coded.{coding_of};
ghost use Rattle.segment_core.specs.CodedVector.{VectorForm, StandsFor};

use crate::arrays::{CellArray, canonical_arrays};
use crate::build::{canonical_columns, have_cells, have_length};
use crate::coded_vector::CodedVector;
use crate::coding::Coding;
use crate::vectors::Vectors;
use std::alloc::{AllocError, Global};
use std::marker::Model;
use table_model::{Refusal, Rows, Schema};

/// The rows of a batch, column by column, in coded vectors of up to 1024 rows. Contracts see the rows, and with them the
/// vectors. Whether it is known that each vector is the canonical one of its rows no contract sees.
#[derive(Drop)]
pub struct Segment {
    rows: u32,
    known_canonical: bool,
    columns: Vec<Vectors>,
}

impl Model for Segment {
    ghost use Rattle.segment_core.specs.Segment.{SegmentForm, batch_of, IsMarked};

    ghost Value = { SegmentForm };

    ghost view = { λ s. record { rows = batch_of s.rows s.columns.items; forms = s.columns.items } };

    ghost invariant = { λ s. IsMarked s.rows s.columns.items s.known_canonical };
}

impl Segment {
    /// The segment of a number of rows, 1 to 65,536, with these columns, 1 to 32. A column's vectors have one lane width and are
    /// full but perhaps the last; each may have any form.
    pub(crate) fn from_columns(rows: usize, columns: Vec<Vectors>) -> Segment
        requires { IsSegment rows columns.items }
        ensures forms { result.forms ≡ columns.items }
        ensures rows { result.rows ≡ batch_of rows columns.items }
        ensures valid { (table : Table) → widths_in result.forms ≡ widths_of table → HasBytesIn table result }
    {
        Segment {
            rows: rows as u32,
            known_canonical: false,
            columns,
        }
    }

    /// The segment of a table's rows: each vector is the canonical one of its cells. If memory is refused, an `AllocError`.
    pub fn build(alloc: Global, schema: &Schema, rows: &Rows) -> Result<Segment, AllocError>
        requires { IsBatch schema.now rows.now }
        ensures value { IfOk result (λ s. s ≡ canonical_segment schema.now rows.now) }
        ensures widths { IfOk result (λ s. widths_in s.forms ≡ widths_of schema.now) }
        ensures valid { IfOk result (λ s. HasBytesIn schema.now s) }
    {
        let columns = canonical_columns(alloc, schema, rows)?;
        Ok(Segment {
            rows: rows.len() as u32,
            known_canonical: true,
            columns,
        })
    }

    /// The segment of a table's rows that are given as arrays, one for each column: each vector is the canonical one of its cells. No rows are made. If memory is refused, an `AllocError`.
    pub fn build_of_arrays(
        alloc: Global,
        schema: &Schema,
        rows: usize,
        arrays: &[CellArray],
    ) -> Result<Segment, AllocError>
        requires batch { IsBatch schema.now (array_rows rows arrays.now) }
        requires long { HaveRows rows arrays.now }
        ensures value { IfOk result (λ s. s ≡ canonical_segment schema.now (array_rows rows arrays.now)) }
        ensures widths { IfOk result (λ s. widths_in s.forms ≡ widths_of schema.now) }
        ensures valid { IfOk result (λ s. HasBytesIn schema.now s) }
    {
        let columns = canonical_arrays(alloc, schema, rows, arrays)?;
        Ok(Segment {
            rows: rows as u32,
            known_canonical: true,
            columns,
        })
    }

    /// Puts a vector into another coding, in the least form that the coding has of the filled vector; no row changes. Refused
    /// are a vector that is not there (`NoSuchVector`), and then out of memory; a refused call changes nothing.
    pub fn recode(
        &mut self,
        alloc: Global,
        column: u32,
        vector: u32,
        coding: Coding,
    ) -> Result<(), Refusal>
        ensures act { Acts (λ done. done) self.old result self.new (recoded self.old column vector coding) }
        ensures rows { self.new.rows ≡ self.old.rows }
        ensures widths { widths_in self.new.forms ≡ widths_in self.old.forms }
        ensures valid { (table : Table) → widths_in self.old.forms ≡ widths_of table → HasBytesIn table self.new }
    {
        self.keeps_its_vectors();
        let made = self.recoded(alloc, column as usize, vector as usize, coding)?;
        self.put(column as usize, vector as usize, made);
        Ok(())
    }

    /// The vector of a column at a place, both counted from 0, if there is one.
    fn find(&self, column: usize, vector: usize) -> Option<&CodedVector>
        ensures { option_copied result ≡ vector_at self.now.forms column vector }
    {
        self.columns.get(column)?.as_slice().get(vector)
    }

    /// A vector in another coding, or the refusal if there is no such vector.
    fn recoded(
        &self,
        alloc: Global,
        column: usize,
        vector: usize,
        coding: Coding,
    ) -> Result<CodedVector, Refusal>
        ensures value { Gives (λ made. made) result (recoded_found coding (vector_at self.now.forms column vector)) }
        ensures stands { IfOk result (λ made. IfSome (vector_at self.now.forms column vector) (λ v. StandsFor made v)) }
    {
        match self.find(column, vector) {
            None => Err(Refusal::NoSuchVector),
            Some(found) => Ok(found.recoded(alloc, coding)?),
        }
    }

    /// Puts a vector in the place of one that it can represent.
    fn put(&mut self, column: usize, vector: usize, made: CodedVector)
        requires there { IsSome (vector_at self.old.forms column vector) }
        requires stands { IfSome (vector_at self.old.forms column vector) (λ v. StandsFor made v) }
        ensures forms { self.new.forms ≡ with_vector self.old.forms column vector made }
        ensures rows { self.new.rows ≡ self.old.rows }
        ensures widths { widths_in self.new.forms ≡ widths_in self.old.forms }
        ensures valid { (table : Table) → widths_in self.new.forms ≡ widths_of table → HasBytesIn table self.new }
    {
        self.known_canonical = false;
        let vectors = &mut self.columns[column];
        vectors.put(vector, made);
    }

    /// The columns' vectors.
    pub(crate) fn column_list(&self) -> &[Vectors]
        ensures { result.now ≡ self.now.forms }
    {
        self.columns.as_slice()
    }

    /// How many rows there are, from 1 to 65,536.
    pub fn rows(&self) -> usize
        ensures count { result ≡ length self.now.rows }
        ensures rows { self.now.rows ≡ batch_of result self.now.forms }
        ensures form { IsSegment result self.now.forms }
        ensures valid { (table : Table) → widths_in self.now.forms ≡ widths_of table → HasBytesIn table self.now }
    {
        self.rows as usize
    }

    /// The law that the rows are those of the vectors, and that the vectors have bytes at their own lane widths.
    pub fn keeps_its_vectors(&self)
        ensures rows { self.now.rows ≡ batch_of (length self.now.rows) self.now.forms }
        ensures form { IsSegment (length self.now.rows) self.now.forms }
        ensures valid { (table : Table) → widths_in self.now.forms ≡ widths_of table → HasBytesIn table self.now }
    {
        self.rows();
    }

    /// How many columns there are, from 1 to 32.
    pub fn columns(&self) -> usize
        ensures { result ≡ length self.now.forms }
    {
        self.columns.len()
    }

    /// The coding of a column's vector, both counted from 0.
    pub fn coding(&self, column: usize, vector: usize) -> Coding
        requires column { column < length self.now.forms }
        requires vector { vector < vector_count (length self.now.rows) }
        ensures { option_map (λ v. coding_of v.coded) (vector_at self.now.forms column vector) ≡ Some result }
    {
        self.vector(column, vector).coding()
    }

    /// The value of a row in a column; None if it is null. Ordinals and columns count from 0.
    pub fn value(&self, ordinal: usize, column: usize) -> Option<i64>
        requires ordinal { ordinal < length self.now.rows }
        requires column { column < length self.now.forms }
        ensures { result ≡ cell_at self.now.rows ordinal column }
    {
        let vectors = self.columns[column].as_slice();
        vectors[ordinal / 1024].value(ordinal % 1024)
    }

    /// Whether each vector is the canonical one of its rows, as `build` makes it. It takes no memory, and if `build`,
    /// `canonical_copy` or `judge` made it known, no vector is read.
    pub fn canonical(&self) -> bool
        ensures { IsTrue result ↔ (self.now.forms ≡ canonical_forms (widths_in self.now.forms) self.now.rows) }
    {
        if self.known_canonical {
            return true;
        }
        are_canonical(self.columns.as_slice())
    }

    /// Whether each vector is the canonical one of its rows, which is known from then on: `canonical`, and copies, no longer read
    /// the vectors. Nothing that contracts see changes.
    pub fn judge(&mut self) -> bool
        ensures value { IsTrue result ↔ (self.old.forms ≡ canonical_forms (widths_in self.old.forms) self.old.rows) }
        ensures kept { self.new ≡ self.old }
    {
        self.known_canonical = self.canonical();
        self.known_canonical
    }

    /// Whether two segments have the same rows, whatever their codings. It takes no memory.
    pub fn same_rows(&self, other: &Segment) -> bool
        ensures { result ≡ same_rows self.now.rows other.now.rows }
    {
        if self.rows != other.rows {
            return false;
        }
        if self.columns.len() != other.columns.len() {
            return false;
        }
        have_same_cells(self.columns.as_slice(), other.columns.as_slice())
    }

    /// Whether the rows are these, which need not fit the columns. It takes no memory.
    pub fn has_rows(&self, rows: &Rows) -> bool
        ensures { result ≡ same_rows self.now.rows rows.now }
    {
        if self.rows as usize != rows.len() {
            return false;
        }
        if !have_length(rows, self.columns.len()) {
            return false;
        }
        have_cells(self.columns.as_slice(), rows)
    }

    /// A copy of the segment with its codings, in memory of its own. If memory is refused, an `AllocError`.
    pub fn copy(&self, alloc: Global) -> Result<Segment, AllocError>
        ensures { IfOk result (λ s. s ≡ self.now) }
    {
        let columns = copied_columns(alloc, self.columns.as_slice())?;
        Ok(Segment {
            rows: self.rows,
            known_canonical: self.known_canonical,
            columns,
        })
    }

    /// The canonical segment of the same rows, as `build` makes it, in memory of its own. No rows are made. If memory is
    /// refused, an `AllocError`.
    pub fn canonical_copy(&self, alloc: Global) -> Result<Segment, AllocError>
        ensures value { IfOk result (λ s. s ≡ canonical_again self.now) }
        ensures widths { IfOk result (λ s. widths_in s.forms ≡ widths_in self.now.forms) }
        ensures valid { IfOk result (λ s. (table : Table) → widths_in self.now.forms ≡ widths_of table → HasBytesIn table s) }
    {
        let columns = canonical_copies(alloc, self.columns.as_slice())?;
        Ok(Segment {
            rows: self.rows,
            known_canonical: true,
            columns,
        })
    }

    /// The vector of a column at a place, both counted from 0.
    pub fn vector(&self, column: usize, vector: usize) -> &CodedVector
        requires column { column < length self.now.forms }
        requires vector { vector < vector_count (length self.now.rows) }
        ensures { vector_at self.now.forms column vector ≡ Some result.now }
    {
        &self.columns[column].as_slice()[vector]
    }
}

/// A copy of columns in memory of its own. If memory is refused, an `AllocError`.
fn copied_columns(alloc: Global, columns: &[Vectors]) -> Result<Vec<Vectors>, AllocError>
    ensures { IfOk result (λ copied. copied.items ≡ columns.now) }
{
    let mut copied = Vec::with_capacity(alloc, columns.len())?;
    for column in columns {
        copied.push(column.copy(alloc)?)?;
    }
    Ok(copied)
}

/// The canonical vectors of each column's own cells. If memory is refused, an `AllocError`.
fn canonical_copies(alloc: Global, columns: &[Vectors]) -> Result<Vec<Vectors>, AllocError>
    ensures { IfOk result (λ made. made.items ≡ map canonical_vectors columns.now) }
{
    let mut made = Vec::with_capacity(alloc, columns.len())?;
    for column in columns {
        made.push(column.canonical_copy(alloc)?)?;
    }
    Ok(made)
}

/// Whether each vector of each column is the canonical one of its cells.
fn are_canonical(columns: &[Vectors]) -> bool
    ensures { IsTrue result ↔ ((c : ℕ) (vectors : List VectorForm) → slice_get columns.now c ≡ Some vectors → AreCanonical vectors) }
{
    let mut room = [0; 1024];
    for column in 0..columns.len() {
        if !columns[column].are_canonical(&mut room) {
            return false;
        }
    }
    true
}

/// Whether two segments' columns, as many on both sides and as long, have the same cells.
fn have_same_cells(columns: &[Vectors], others: &[Vectors]) -> bool
    requires count { length columns.now ≡ length others.now }
    requires long { (c : ℕ) (vectors ws : List VectorForm) → slice_get columns.now c ≡ Some vectors → slice_get others.now c ≡ Some ws → length vectors ≡ length ws }
    ensures { IsTrue result ↔ ((c : ℕ) (vectors ws : List VectorForm) → slice_get columns.now c ≡ Some vectors → slice_get others.now c ≡ Some ws → HaveSameCells vectors ws) }
{
    for column in 0..columns.len() {
        if !columns[column].same_cells(&others[column]) {
            return false;
        }
    }
    true
}
