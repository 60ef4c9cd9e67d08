//! Coded vectors: up to 1024 rows of a column, with the rows that are null.
ghost use Rattle.std.specs.Prelude.{◌≡◌, ◌<◌, ◌≤◌, ◌↔◌, ℕ, ℤ, FitsSigned, List, Option, [], length, slice_index_or, IsTrue, IfOk};
ghost use Rattle.std.specs.Option.{option_copied};
ghost use Rattle.transpose_order.specs.Mask.{rows_of};
ghost use Rattle.transpose_order.specs.Place.{IsLaneWidth};
ghost use Rattle.segment_core.specs.Coded.{lane_width_of, values_of, coding_of};
ghost use Rattle.segment_core.specs.CodedVector.{is_null, vector_cell, cells_of, null_rows, some_rows, canonical_vector, canonical_of, recoded_vector, IsVector, AreNulls, StandsFor};
ghost use Rattle.segment_core.specs.Fill.{cell_or_null, filled, cells_under, AreCellsInRange, AreSame};
ghost use Rattle.bit_interleave.specs.Arithmetic.{integer_width};
ghost use Rattle.bit_interleave.specs.Range.{AreInRange};

use crate::boxed::Boxed;
use crate::choice::choose;
use crate::coded::Coded;
use crate::coding::Coding;
use crate::cover::Cover;
use crate::fill::fill;
use crate::repeats::RepeatingRows;
use crate::same_form::same_form;
use frame_delta::{Delta, For};
use run_dictionary::{Dict, Runs};
use std::alloc::{AllocError, Global};
use std::marker::Model;
use transpose_order::Mask;

/// Up to 1024 rows of a column: how many they are, which of them are null, and their values, coded. At a row that is null,
/// and past the rows, any value may be.
#[derive(Drop)]
pub struct CodedVector {
    cover: Cover,
    coded: Coded,
}

/// A vector takes 96 bytes at most in addition to its words, its bases, its values and its masks: 80 by frame of reference, 64 by runs,
/// 96 by a dictionary, and 96 by deltas in addition to the 8 of their least delta.
const _: () = prove!(size_of::<CodedVector>() == 32);

const _: () = prove!(size_of::<CodedVector>() + size_of::<For>() == 80);

const _: () = prove!(size_of::<CodedVector>() + size_of::<Delta>() == 96 + size_of::<i64>());

const _: () = prove!(size_of::<CodedVector>() + size_of::<Runs>() == 64 + size_of::<Mask>());

const _: () = prove!(size_of::<CodedVector>() + size_of::<Dict>() == 96);

impl Model for CodedVector {
    ghost use Rattle.segment_core.specs.CodedVector.{VectorForm, IsVector};

    ghost Value = { VectorForm };

    ghost view = { λ v. record { rows = v.cover.rows; nulls = v.cover.nulls; coded = v.coded } };

    ghost invariant = { λ v. IsVector (record { rows = v.cover.rows; nulls = v.cover.nulls; coded = v.coded }) };
}

impl CodedVector {
    /// The vector with these parts: 1 to 1024 rows, a null mask exactly if a row is null, which has no row past them, and
    /// any values.
    pub fn from_parts(rows: u16, nulls: Option<Boxed<Mask>>, coded: Coded) -> CodedVector
        requires some { 1 ≤ rows }
        requires limit { rows ≤ 1024 }
        requires nulls { AreNulls rows nulls }
        ensures value { result ≡ record { rows = rows; nulls = nulls; coded = coded } }
        ensures form { IsVector result }
    {
        coded.keeps_its_rule();
        let cover = Cover::new(rows, nulls);
        CodedVector { cover, coded }
    }

    /// How many rows it covers, from 1 to 1024.
    pub fn rows(&self) -> usize
        ensures value { result ≡ self.now.rows }
        ensures form { IsVector self.now }
    {
        self.cover.rows() as usize
    }

    /// The law that the vector keeps its rule.
    pub fn keeps_its_rule(&self)
        ensures { IsVector self.now }
    {
        self.rows();
    }

    /// The rows that are null, if there is one.
    pub fn nulls(&self) -> Option<&Mask>
        ensures { option_copied result ≡ self.now.nulls }
    {
        self.cover.nulls()
    }

    /// The values, coded.
    pub fn coded(&self) -> &Coded
        ensures { result.now ≡ self.now.coded }
    {
        &self.coded
    }

    /// Which of the four codings it has.
    pub fn coding(&self) -> Coding
        ensures { result ≡ coding_of self.now.coded }
    {
        self.coded.coding()
    }

    /// The lane width of the values in bits: 8, 16, 32 or 64.
    pub fn lane_width(&self) -> usize
        ensures value { result ≡ lane_width_of self.now.coded }
        ensures lanes { IsLaneWidth result }
    {
        self.coded.lane_width()
    }

    /// The rows that are null, as a mask.
    pub fn null_rows(&self) -> Mask
        ensures { result ≡ rows_of (is_null self.now.nulls) }
    {
        match self.cover.nulls() {
            None => Mask::none(),
            Some(mask) => *mask,
        }
    }

    /// The value of a row that it covers; None if the row is null.
    pub fn value(&self, row: usize) -> Option<i64>
        requires { row < self.now.rows }
        ensures { result ≡ vector_cell self.now row }
    {
        if self.cover.is_null(row) {
            None
        } else {
            Some(self.coded.value(row))
        }
    }

    /// Makes the decoded values the filled vector, each value in the range of the lane width.
    fn fill_decoded(&self, values: &mut [i64; 1024])
        requires { values.old ≡ values_of self.now.coded }
        ensures values { values.new ≡ filled (cells_of self.now) }
        ensures fit { AreInRange (lane_width_of self.now.coded) values.new }
    {
        fill(values, self.rows(), &self.null_rows());
    }

    /// Writes the filled vector, each value in the range of the lane width.
    fn write_filled(&self, values: &mut [i64; 1024])
        ensures values { values.new ≡ filled (cells_of self.now) }
        ensures fit { AreInRange (lane_width_of self.now.coded) values.new }
    {
        self.coded.decode(values);
        self.fill_decoded(values);
    }

    /// The canonical vector of 1 to 1024 rows, of which a mask has those that are null, and values are at the others, in the
    /// range of `lane_width` bits, signed, which are 8, 16, 32 or 64. If memory is refused, an `AllocError`.
    pub(crate) fn canonical(
        alloc: Global,
        lane_width: usize,
        rows: u16,
        nulls: &Mask,
        values: &[i64; 1024],
    ) -> Result<CodedVector, AllocError>
        requires lane_width { IsLaneWidth lane_width }
        requires some { 1 ≤ rows }
        requires limit { rows ≤ 1024 }
        requires nulls { nulls.now ≡ null_rows (cells_under rows nulls.now values.now) }
        requires fit { AreCellsInRange lane_width (cells_under rows nulls.now values.now) }
        ensures { IfOk result (λ vector. vector ≡ canonical_vector lane_width (cells_under rows nulls.now values.now)) }
    {
        let mut full = *values;
        fill(&mut full, rows as usize, nulls);
        let coded = Coded::encode(alloc, &full, lane_width, choose(&full, lane_width))?;
        let nulls = some_rows(alloc, nulls)?;
        let cover = Cover::new(rows, nulls);
        Ok(CodedVector { cover, coded })
    }

    /// The canonical vector of 1 to 1024 rows of which each has the same value, in the range of `lane_width` bits, signed, which are
    /// 8, 16, 32 or 64: a frame without packed values. If memory is refused, an `AllocError`.
    pub(crate) fn constant(
        alloc: Global,
        lane_width: usize,
        rows: u16,
        value: i64,
    ) -> Result<CodedVector, AllocError>
        requires lane_width { IsLaneWidth lane_width }
        requires some { 1 ≤ rows }
        requires limit { rows ≤ 1024 }
        requires fits { FitsSigned (integer_width lane_width) value }
        ensures { IfOk result (λ vector. (cells : List (Option ℤ)) → AreSame rows value cells → vector ≡ canonical_vector lane_width cells) }
    {
        let form = For::constant(alloc, lane_width, value)?;
        let coded = Coded::For(Boxed::new(alloc, form)?);
        let cover = Cover::new(rows, None);
        Ok(CodedVector { cover, coded })
    }

    /// Whether this is the canonical vector of its cells. It takes no memory.
    pub fn is_canonical(&self) -> bool
        ensures { IsTrue result ↔ (self.now ≡ canonical_vector (lane_width_of self.now.coded) (cells_of self.now)) }
    {
        let mut room = [0; 1024];
        self.is_canonical_in(&mut room)
    }

    /// Whether this is the canonical vector of its cells. `room` holds numbers of the rows meanwhile, and serves one vector after another.
    pub(crate) fn is_canonical_in(&self, room: &mut [u64; 1024]) -> bool
        ensures { IsTrue result ↔ (self.now ≡ canonical_vector (lane_width_of self.now.coded) (cells_of self.now)) }
    {
        let repeating = RepeatingRows::of(self.rows(), &self.null_rows());
        self.coded.is_canonical(&repeating, room)
    }

    /// Whether two vectors have the same cells, whatever their codings. It takes no memory.
    pub fn same_cells(&self, other: &CodedVector) -> bool
        ensures { IsTrue result ↔ (cells_of self.now ≡ cells_of other.now) }
    {
        let rows = self.rows();
        if rows != other.rows() {
            return false;
        }
        if self.cover.same_nulls(&other.cover) && same_form(&self.coded, &other.coded) {
            return true;
        }
        let mut values = [0; 1024];
        self.coded.decode(&mut values);
        let mut others = [0; 1024];
        other.coded.decode(&mut others);
        let (nulls, other_nulls) = (self.null_rows(), other.null_rows());
        are_same_cells(rows, &nulls, &values, &other_nulls, &others)
    }

    /// Whether the vector's cells are these. It takes no memory.
    pub(crate) fn has_these(&self, cells: &[Option<i128>]) -> bool
        ensures { IsTrue result ↔ (cells_of self.now ≡ cells.now) }
    {
        if self.rows() != cells.len() {
            return false;
        }
        let mut values = [0; 1024];
        self.coded.decode(&mut values);
        are_cells_of(&self.null_rows(), &values, cells)
    }

    /// The vector of the same rows in another coding: the least form that the coding has of the filled vector. If memory is refused, an
    /// `AllocError`.
    pub fn recoded(&self, alloc: Global, coding: Coding) -> Result<CodedVector, AllocError>
        ensures value { IfOk result (λ vector. vector ≡ recoded_vector coding self.now) }
        ensures stands { IfOk result (λ vector. StandsFor vector self.now) }
    {
        let mut full = [0; 1024];
        self.write_filled(&mut full);
        let coded = Coded::encode(alloc, &full, self.coded.lane_width(), coding)?;
        let cover = self.cover.copy(alloc)?;
        Ok(CodedVector { cover, coded })
    }

    /// The canonical vector of the same cells. If memory is refused, an `AllocError`.
    pub fn canonical_copy(&self, alloc: Global) -> Result<CodedVector, AllocError>
        ensures { IfOk result (λ vector. vector ≡ canonical_of self.now) }
    {
        let mut full = [0; 1024];
        self.write_filled(&mut full);
        let lane_width = self.coded.lane_width();
        let coded = Coded::encode(alloc, &full, lane_width, choose(&full, lane_width))?;
        let cover = self.cover.copy(alloc)?;
        Ok(CodedVector { cover, coded })
    }

    /// A copy of the vector in memory of its own. If memory is refused, an `AllocError`.
    pub fn copy(&self, alloc: Global) -> Result<CodedVector, AllocError>
        ensures { IfOk result (λ vector. vector ≡ self.now) }
    {
        let cover = self.cover.copy(alloc)?;
        let coded = self.coded.copy(alloc)?;
        Ok(CodedVector { cover, coded })
    }
}

/// The mask if it has a row, else None. If memory is refused, an `AllocError`.
fn some_rows(alloc: Global, mask: &Mask) -> Result<Option<Boxed<Mask>>, AllocError>
    requires { length mask.now ≡ 1024 }
    ensures { IfOk result (λ made. made ≡ some_rows mask.now) }
{
    if mask.next_true(0) == 1024 {
        return Ok(None);
    }
    Ok(Some(Boxed::new(alloc, *mask)?))
}

/// Whether the cells of a number of rows, 1024 at most, are the same under two masks of nulls and among two vectors of values.
fn are_same_cells(
    rows: usize,
    nulls: &Mask,
    values: &[i64; 1024],
    other_nulls: &Mask,
    others: &[i64; 1024],
) -> bool
    requires { rows ≤ 1024 }
    ensures { IsTrue result ↔ (cells_under rows nulls.now values.now ≡ cells_under rows other_nulls.now others.now) }
{
    for row in 0..rows {
        let null = nulls.get(row);
        if !same_cell(null, values[row], other_nulls.get(row), others[row]) {
            return false;
        }
    }
    true
}

/// Whether two cells are the same, each null or a value.
fn same_cell(null: bool, value: i64, other_null: bool, other: i64) -> bool
    ensures { IsTrue result ↔ (cell_or_null null value ≡ cell_or_null other_null other) }
{
    if null || other_null {
        null && other_null
    } else {
        value == other
    }
}

/// Whether the cells under a mask of nulls and among values are these, of which there are 1024 at most.
fn are_cells_of(nulls: &Mask, values: &[i64; 1024], cells: &[Option<i128>]) -> bool
    requires { length cells.now ≤ 1024 }
    ensures { IsTrue result ↔ (cells_under (length cells.now) nulls.now values.now ≡ cells.now) }
{
    for row in 0..cells.len() {
        if !is_cell(nulls.get(row), values[row], cells[row]) {
            return false;
        }
    }
    true
}

/// Whether a cell, null or a value, is another.
fn is_cell(null: bool, value: i64, cell: Option<i128>) -> bool
    ensures { IsTrue result ↔ (cell_or_null null value ≡ cell) }
{
    match cell {
        None => null,
        Some(wanted) => !null && value as i128 == wanted,
    }
}
