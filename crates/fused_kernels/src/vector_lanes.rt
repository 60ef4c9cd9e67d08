//! Coded vectors as lanes.
ghost use Rattle.std.specs.Prelude.{◌≡◌, ◌≢◌, ℕ, ◌+◌, ◌-◌, ◌*◌, ◌%◌, ◌<◌, true, length};
ghost use Rattle.transpose_order.specs.Place.{place_of};
ghost use Rattle.bit_interleave.specs.Packing.{sixteen_of};
ghost use Rattle.bit_interleave.specs.Range.{value_at};
ghost use Rattle.frame_delta.specs.Delta.{delta_value, AreSums};
ghost use Rattle.run_dictionary.specs.Runs.{run_of, run_value};
ghost use Rattle.segment_core.specs.Coded.{value_in, IsCodedForm};
ghost use Rattle.table_model.specs.Passes.{raised};
ghost use Rattle.fused_kernels.specs.VectorSeen.{piece_width, vector_seen, AreRuns, AreCarried};

use crate::lanes::Lanes;
use crate::meter::Meter;
use bit_interleave::wrap_lanes;
use frame_delta::Delta;
use run_dictionary::Runs;
use segment_core::{Coded, CodedVector};
use std::marker::Model;
use std::simd::prelude::*;
use transpose_order::{Mask, place_in_word};

/// The lanes of a coded vector. To make them counts one pass.
#[derive(Drop)]
pub struct VectorLanes<'a> {
    vector: &'a CodedVector,
    given: usize,
    sums: [u64; 16],
}

impl<'a> Model for VectorLanes<'a> {
    ghost use Rattle.fused_kernels.specs.Seen.{LanesSeen};
    ghost use Rattle.fused_kernels.specs.VectorSeen.{vector_seen, AreUnderWay};

    ghost Value = { LanesSeen };

    ghost view = { λ l. vector_seen l.vector.now l.given };

    ghost invariant = { λ l. AreUnderWay l.vector.now l.given l.sums };
}

impl<'a> VectorLanes<'a> {
    /// The lanes of a vector, which have given no piece yet. The meter counts one pass more.
    pub fn new(vector: &'a CodedVector, meter: &mut Meter) -> Self
        ensures lanes { result ≡ vector_seen vector.now 0 }
        ensures pass { meter.new ≡ raised 1 meter.old }
    {
        vector.keeps_its_rule();
        meter.add_pass();
        VectorLanes {
            vector,
            given: 0,
            sums: [0; 16],
        }
    }
}

/// A piece of deltas. The sums are those of the piece before, if it is of the same lanes, and become those of this piece.
fn delta_piece(form: &Delta, piece: usize, sums: &mut [u64; 16]) -> Simd<i64, 16>
    requires piece { piece < 64 }
    requires before { piece % form.now.lane_width ≢ 0 → AreSums form.now (piece - 1) sums.old }
    ensures values { result ≡ sixteen_of (λ i. delta_value form.now (64 * i + place_of form.now.lane_width piece)) }
    ensures sums { AreSums form.now piece sums.new }
{
    let next = form.sums(piece, Simd::from_array(*sums));
    *sums = next.to_array();
    wrap_lanes(form.lane_width(), next)
}

/// The number of the run of a row, from that of the row before if it is known.
#[inline(always)]
fn run_after(form: &Runs, row: usize, known: bool, before: u64) -> usize
    requires row { row < 1024 }
    requires before { known ≡ true → (0 < row) × (before ≡ run_of form.now.starts (row - 1)) }
    ensures run { result ≡ run_of form.now.starts row }
    ensures within { result < length form.now.values }
{
    if known {
        before as usize + usize::from(form.starts().get(row))
    } else {
        form.run_at(row)
    }
}

/// The value of a run.
#[inline(always)]
fn value_of_run(form: &Runs, run: usize) -> i64
    requires { run < length form.now.values }
    ensures { result ≡ value_at form.now.values run }
{
    form.values().get(run)
}

/// A piece of runs. The numbers are those of the runs of the piece before, if it is of the same lanes, and become those of this
/// piece.
fn run_piece(form: &Runs, piece: usize, runs: &mut [u64; 16]) -> Simd<i64, 16>
    requires piece { piece < 64 }
    requires before { piece % form.now.lane_width ≢ 0 → AreRuns form.now (piece - 1) runs.old }
    ensures values { result ≡ sixteen_of (λ i. run_value form.now (64 * i + place_of form.now.lane_width piece)) }
    ensures runs { AreRuns form.now piece runs.new }
{
    let lane_width = form.lane_width();
    let place = place_in_word(lane_width, piece);
    let known = piece % lane_width != 0;
    let mut values = [0; 16];
    for i in 0..16 {
        let run = run_after(form, 64 * i + place, known, runs[i]);
        runs[i] = run as u64;
        values[i] = value_of_run(form, run);
    }
    Simd::from_array(values)
}

/// A piece of coded values, and what is carried to the next.
fn coded_piece(coded: &Coded, piece: usize, sums: &mut [u64; 16]) -> Simd<i64, 16>
    requires form { IsCodedForm coded.now }
    requires piece { piece < 64 }
    requires before { AreCarried coded.now piece sums.old }
    ensures values { result ≡ sixteen_of (λ i. value_in coded.now (64 * i + place_of (piece_width coded.now) piece)) }
    ensures carried { AreCarried coded.now (piece + 1) sums.new }
{
    match coded {
        Coded::For(form) => form.get().piece(piece),
        Coded::Delta(form) => delta_piece(form.get(), piece, sums),
        Coded::Runs(form) => run_piece(form.get(), piece, sums),
        Coded::Dict(form) => form.get().piece(piece),
    }
}

impl<'a> Lanes for VectorLanes<'a> {
    ghost seen = { λ l. l };

    fn lane_width(&self) -> usize {
        match self.vector.coded() {
            Coded::For(form) => form.get().lane_width(),
            Coded::Delta(form) => form.get().lane_width(),
            Coded::Runs(form) => form.get().lane_width(),
            Coded::Dict(_) => 16,
        }
    }

    fn rows(&self) -> usize {
        self.vector.rows()
    }

    fn nulls(&self) -> Mask {
        self.vector.null_rows()
    }

    fn next_piece(&mut self) -> Simd<i64, 16> {
        let piece = self.given;
        self.given += 1;
        coded_piece(self.vector.coded(), piece, &mut self.sums)
    }
}
