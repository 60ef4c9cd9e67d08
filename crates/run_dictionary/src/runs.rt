//! Run-length coding: the rows at which runs of equal values start, and the value of each.
ghost use Rattle.std.specs.Prelude.{◌≡◌, ℕ, ◌+◌, ◌<◌, ◌≤◌, ◌≤ℤ◌, ◌↔◌, IsTrue, IfOk, false, ℤ, List, length, FitsSigned};
ghost use Rattle.transpose_order.specs.Mask.{has};
ghost use Rattle.transpose_order.specs.Place.{IsLaneWidth};
ghost use Rattle.bit_interleave.specs.Arithmetic.{integer_width};
ghost use Rattle.bit_interleave.specs.Places.{by_place};
ghost use Rattle.bit_interleave.specs.Range.{AreInRange, value_at};
ghost use Rattle.run_dictionary.specs.Dict.{least_dict, dict_bytes};
ghost use Rattle.run_dictionary.specs.Runs.{IsRunForm, run_of, run_value, run_values, least_runs, run_bytes, LeastRunsAreAForm, LeastRunsGiveBack, LeastRunsAreFewest};

use crate::counting::most_values;
use crate::places::changes_reach;
use crate::run_words::{all_differ, changes, count_changes, extremes, write_changed, write_rows};
use crate::seen::more_values;
use bit_interleave::Values;
use std::alloc::{AllocError, Global};
use std::marker::Model;
use transpose_order::Mask;

/// A vector of 1024 signed integers of 8, 16, 32 or 64 bits as runs of equal values: a mask of the rows after row 0 at which a run
/// starts, and the value of each run. It is in the manner of FastLanes (VLDB 2023), of its section on light-weight encodings;
/// the payload, with a mask in row order, is our own.
#[derive(Drop)]
pub struct Runs {
    starts: Mask,
    values: Values,
}

impl Model for Runs {
    ghost use Rattle.run_dictionary.specs.Runs.{RunForm, IsRunForm};

    ghost Value = { RunForm };

    ghost view = { λ r. record { lane_width = r.values.lane_width; starts = r.starts; values = r.values.values } };

    ghost invariant = { λ r. IsRunForm (record { lane_width = r.values.lane_width; starts = r.starts; values = r.values.values }) };
}

impl Runs {
    /// The bytes that `encode` would take for the payload: 128 of the mask, and `lane_width / 8` for each run. The 1024 values,
    /// in row order, are in the range of `lane_width` bits, signed, which are 8, 16, 32 or 64.
    pub fn size(values: &[i64; 1024], lane_width: usize) -> u16
        requires lane_width { IsLaneWidth lane_width }
        requires fit { AreInRange lane_width values.now }
        ensures { result ≡ run_bytes (least_runs lane_width values.now) }
    {
        128 + ((count_changes(values) + 1) * lane_width / 8) as u16
    }

    /// Whether the least runs of 1024 values take fewer bytes than a bound. Of the values it is given numbers that are equal
    /// exactly when the values are, such as the packed numbers of a frame or the codes of a dictionary: number `16 * p + i` is
    /// that of row `64 * i + p`. The lane width is 8, 16, 32 or 64. It stops at the first change that is too many.
    pub fn is_below(lane_width: usize, numbers: &[u64; 1024], bound: u16) -> bool
        requires { IsLaneWidth lane_width }
        ensures { (values : List ℤ) → length values ≡ 1024
            → ((m n : ℕ) → m < 1024 → n < 1024 → (by_place numbers.now m ≡ by_place numbers.now n) ↔ (value_at values m ≡ value_at values n))
            → IsTrue result ↔ (run_bytes (least_runs lane_width values) < bound) }
    {
        let most = (bound as usize).saturating_sub(129) / (lane_width / 8);
        !changes_reach(numbers, most)
    }

    /// The least form of 1024 values: a run starts exactly when a value differs from the one before. The values, in row order,
    /// are in the range of `lane_width` bits, signed, which are 8, 16, 32 or 64. If memory is refused, an `AllocError`.
    pub fn encode(
        alloc: Global,
        values: &[i64; 1024],
        lane_width: usize,
    ) -> Result<Self, AllocError>
        requires lane_width { IsLaneWidth lane_width }
        requires fit { AreInRange lane_width values.now }
        ensures { IfOk result (λ coded. coded ≡ least_runs lane_width values.now) }
    {
        let mut runs = [0; 1024];
        let count = write_changed(values, &mut runs);
        Ok(Runs {
            starts: changes(values),
            values: Values::from_slice(alloc, lane_width, &runs[..count])?,
        })
    }

    /// How many runs a mask of starts makes, from 1 to 1024: one at row 0, which the mask may have or not, and one at each
    /// later row of the mask.
    pub fn count_for(starts: &Mask) -> usize
        ensures runs { result ≡ run_of starts.now 1023 + 1 }
        ensures many { result ≤ 1024 }
    {
        starts.count_below(1024) - starts.count_below(1) + 1
    }

    /// The vector with these parts: a mask of 1024 rows without row 0, and in the order of their rows a value for row 0 and one
    /// for each row of the mask. Neighbouring runs may have one value, so it need not be the least form.
    pub fn from_parts(starts: Mask, values: Values) -> Self
        requires first { has starts 0 ≡ false }
        requires count { length values.values ≡ run_of starts 1023 + 1 }
        ensures { result ≡ record { lane_width = values.lane_width; starts = starts; values = values.values } }
    {
        starts.keeps_1024_rows();
        values.keep_their_range();
        Runs { starts, values }
    }

    /// Writes the 1024 values in row order, each in the range of the lane width.
    pub fn decode(&self, values: &mut [i64; 1024])
        ensures values { values.new ≡ run_values self.now }
        ensures fit { AreInRange self.now.lane_width values.new }
    {
        let mut room = [0; 1024];
        write_rows(&self.starts, self.values.in_room(&mut room), values);
    }

    /// The place among the run values of the run of a row, 0 to 1023.
    pub fn run_at(&self, row: usize) -> usize
        requires { row < 1024 }
        ensures run { result ≡ run_of self.now.starts row }
        ensures within { result < length self.now.values }
    {
        self.starts.count_below(row + 1)
    }

    /// The value of a row, 0 to 1023, in the range of the lane width.
    pub fn value(&self, row: usize) -> i64
        requires { row < 1024 }
        ensures value { result ≡ run_value self.now row }
        ensures fits { FitsSigned (integer_width self.now.lane_width) result }
    {
        self.values.get(self.run_at(row))
    }

    /// The payload's bytes: 128 of the mask, and `lane_width / 8` for each run.
    pub fn bytes_len(&self) -> u16
        ensures { result ≡ run_bytes self.now }
    {
        128 + (self.values.len() * self.values.lane_width() / 8) as u16
    }

    /// Whether this is the least form of the values that it decodes to, part for part.
    pub fn is_least(&self) -> bool
        ensures { IsTrue result ↔ (self.now ≡ least_runs self.now.lane_width (run_values self.now)) }
    {
        all_differ(&self.values)
    }

    /// The least and the greatest of the 1024 values, which are those of the runs.
    pub fn extremes(&self) -> (i64, i64)
        ensures bounds { (n : ℕ) → n < 1024 → (result.0 ≤ℤ run_value self.now n) × (run_value self.now n ≤ℤ result.1) }
        ensures least { (n : ℕ) × (n < 1024) × (run_value self.now n ≡ result.0) }
        ensures greatest { (n : ℕ) × (n < 1024) × (run_value self.now n ≡ result.1) }
    {
        extremes(&self.values)
    }

    /// Whether the least dictionary of the 1024 values takes fewer bytes than a bound. The distinct values are those of the runs,
    /// and it stops at the first that is too many.
    pub fn dictionary_is_below(&self, bound: u16) -> bool
        ensures { IsTrue result ↔ (dict_bytes (least_dict self.now.lane_width (run_values self.now)) < bound) }
    {
        let most = most_values(self.values.lane_width(), bound);
        !more_values(&self.values, most)
    }

    /// A copy of the vector in memory of its own. If memory is refused, an `AllocError`.
    pub fn copy(&self, alloc: Global) -> Result<Self, AllocError>
        ensures { IfOk result (λ coded. coded ≡ self.now) }
    {
        Ok(Runs {
            starts: self.starts,
            values: self.values.copy(alloc)?,
        })
    }

    /// The lane width in bits: 8, 16, 32 or 64.
    pub fn lane_width(&self) -> usize
        ensures value { result ≡ self.now.lane_width }
        ensures lanes { IsLaneWidth result }
        ensures form { IsRunForm self.now }
    {
        self.values.lane_width()
    }

    /// The rows after row 0 at which a run starts.
    pub fn starts(&self) -> &Mask
        ensures value { result.now ≡ self.now.starts }
        ensures form { IsRunForm self.now }
    {
        &self.starts
    }

    /// The values of the runs in order, from 1 to 1024 of them, each kept at the lane width.
    pub fn values(&self) -> &Values
        ensures value { result.now ≡ record { lane_width = self.now.lane_width; values = self.now.values } }
        ensures some { 0 < length self.now.values }
        ensures many { length self.now.values ≤ 1024 }
        ensures fit { AreInRange self.now.lane_width self.now.values }
        ensures form { IsRunForm self.now }
    {
        &self.values
    }
}

/// The law that the least form of 1024 values is a form.
pub fn least_runs_are_a_form()
    ensures { LeastRunsAreAForm }
{}

/// The law that the least form of 1024 values represents them.
pub fn least_runs_give_back()
    ensures { LeastRunsGiveBack }
{}

/// The law that of all forms of the same values the least has the fewest runs.
pub fn least_runs_are_fewest()
    ensures { LeastRunsAreFewest }
{}
