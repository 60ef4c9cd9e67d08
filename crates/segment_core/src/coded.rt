//! The values of a vector in one of the four codings.
ghost use Rattle.std.specs.Prelude.{◌≡◌, ◌<◌, ◌↔◌, IsTrue, IfOk, FitsSigned};
ghost use Rattle.transpose_order.specs.Place.{IsLaneWidth};
ghost use Rattle.bit_interleave.specs.Arithmetic.{integer_width};
ghost use Rattle.bit_interleave.specs.Range.{AreInRange};
ghost use Rattle.segment_core.specs.Coded.{value_in, values_of, lane_width_of, coding_of, payload_bytes, least_form, IsCodedForm};
ghost use Rattle.segment_core.specs.CanonicalForm.{IsCanonicalForm};

use crate::boxed::Boxed;
use crate::coding::Coding;
use crate::deltas::are_canonical_deltas;
use crate::dictionaries::is_canonical_dictionary;
use crate::frames::is_canonical_frame;
use crate::repeats::RepeatingRows;
use crate::runs::are_canonical_runs;
use frame_delta::{Delta, For};
use run_dictionary::{Dict, Runs};
use std::alloc::{AllocError, Global};

/// 1024 values in one of the four codings, which lie apart.
#[derive(Drop)]
pub enum Coded {
    /// Frame of reference.
    For(Boxed<For>),
    /// Deltas.
    Delta(Boxed<Delta>),
    /// Runs of equal values.
    Runs(Boxed<Runs>),
    /// A dictionary and codes.
    Dict(Boxed<Dict>),
}

impl Coded {
    /// The least form that a coding has of 1024 values. The values, in row order, are in the range of `lane_width` bits, signed,
    /// which are 8, 16, 32 or 64. If memory is refused, an `AllocError`.
    pub fn encode(
        alloc: Global,
        values: &[i64; 1024],
        lane_width: usize,
        coding: Coding,
    ) -> Result<Coded, AllocError>
        requires lane_width { IsLaneWidth lane_width }
        requires fit { AreInRange lane_width values.now }
        ensures { IfOk result (λ coded. coded ≡ least_form coding lane_width values.now) }
    {
        match coding {
            Coding::For => {
                let form = For::encode(alloc, values, lane_width)?;
                Ok(Coded::For(Boxed::new(alloc, form)?))
            }
            Coding::Delta => {
                let form = Delta::encode(alloc, values, lane_width)?;
                Ok(Coded::Delta(Boxed::new(alloc, form)?))
            }
            Coding::Runs => {
                let form = Runs::encode(alloc, values, lane_width)?;
                Ok(Coded::Runs(Boxed::new(alloc, form)?))
            }
            Coding::Dict => {
                let form = Dict::encode(alloc, values, lane_width)?;
                Ok(Coded::Dict(Boxed::new(alloc, form)?))
            }
        }
    }

    /// Which of the four codings it is.
    pub fn coding(&self) -> Coding
        ensures { result ≡ coding_of self.now }
    {
        match self {
            Coded::For(_) => Coding::For,
            Coded::Delta(_) => Coding::Delta,
            Coded::Runs(_) => Coding::Runs,
            Coded::Dict(_) => Coding::Dict,
        }
    }

    /// The lane width of the values in bits: 8, 16, 32 or 64.
    pub fn lane_width(&self) -> usize
        ensures value { result ≡ lane_width_of self.now }
        ensures lanes { IsLaneWidth result }
        ensures form { IsCodedForm self.now }
    {
        match self {
            Coded::For(form) => form.get().lane_width(),
            Coded::Delta(form) => form.get().lane_width(),
            Coded::Runs(form) => form.get().lane_width(),
            Coded::Dict(form) => form.get().lane_width(),
        }
    }

    /// The law that the form keeps its rule.
    pub fn keeps_its_rule(&self)
        ensures { IsCodedForm self.now }
    {
        self.lane_width();
    }

    /// Writes the 1024 values in row order, each in the range of the lane width.
    pub fn decode(&self, values: &mut [i64; 1024])
        ensures values { values.new ≡ values_of self.now }
        ensures fit { AreInRange (lane_width_of self.now) values.new }
    {
        match self {
            Coded::For(form) => form.get().decode(values),
            Coded::Delta(form) => form.get().decode(values),
            Coded::Runs(form) => form.get().decode(values),
            Coded::Dict(form) => form.get().decode(values),
        }
    }

    /// The value of a row, 0 to 1023, in the range of the lane width.
    pub fn value(&self, row: usize) -> i64
        requires { row < 1024 }
        ensures value { result ≡ value_in self.now row }
        ensures fits { FitsSigned (integer_width (lane_width_of self.now)) result }
    {
        match self {
            Coded::For(form) => form.get().value(row),
            Coded::Delta(form) => form.get().value(row),
            Coded::Runs(form) => form.get().value(row),
            Coded::Dict(form) => form.get().value(row),
        }
    }

    /// Whether this is the least form that its coding has of the values that it decodes to, part for part.
    pub fn is_least(&self) -> bool
        ensures { IsTrue result ↔ (self.now ≡ least_form (coding_of self.now) (lane_width_of self.now) (values_of self.now)) }
    {
        match self {
            Coded::For(form) => form.get().is_least(),
            Coded::Delta(form) => form.get().is_least(),
            Coded::Runs(form) => form.get().is_least(),
            Coded::Dict(form) => form.get().is_least(),
        }
    }

    /// Whether these are the canonical form of a vector that is filled by their values: the values repeat as the fill asks, the
    /// form is their least, and its coding is the one that is chosen for them. `room` is for numbers of the rows.
    pub(crate) fn is_canonical(&self, repeating: &RepeatingRows, room: &mut [u64; 1024]) -> bool
        ensures { IsTrue result ↔ IsCanonicalForm repeating.now.rows repeating.now.valueless self.now }
    {
        match self {
            Coded::For(form) => is_canonical_frame(form.get(), repeating, room),
            Coded::Delta(form) => are_canonical_deltas(form.get(), repeating, room),
            Coded::Runs(form) => are_canonical_runs(form.get(), repeating, room),
            Coded::Dict(form) => is_canonical_dictionary(form.get(), repeating, room),
        }
    }

    /// The payload's bytes.
    pub fn bytes_len(&self) -> u16
        ensures { result ≡ payload_bytes self.now }
    {
        match self {
            Coded::For(form) => form.get().bytes_len(),
            Coded::Delta(form) => form.get().bytes_len(),
            Coded::Runs(form) => form.get().bytes_len(),
            Coded::Dict(form) => form.get().bytes_len(),
        }
    }

    /// A copy of the values in their coding, in memory of its own. If memory is refused, an `AllocError`.
    pub fn copy(&self, alloc: Global) -> Result<Coded, AllocError>
        ensures { IfOk result (λ coded. coded ≡ self.now) }
    {
        match self {
            Coded::For(form) => Ok(Coded::For(Boxed::new(alloc, form.get().copy(alloc)?)?)),
            Coded::Delta(form) => Ok(Coded::Delta(Boxed::new(alloc, form.get().copy(alloc)?)?)),
            Coded::Runs(form) => Ok(Coded::Runs(Boxed::new(alloc, form.get().copy(alloc)?)?)),
            Coded::Dict(form) => Ok(Coded::Dict(Boxed::new(alloc, form.get().copy(alloc)?)?)),
        }
    }
}
