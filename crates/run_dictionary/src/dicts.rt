//! Dictionary coding: the distinct values of a vector, and a packed code for each row.
ghost use Rattle.std.specs.Prelude.{◌≡◌, ℕ, ◌+◌, ◌*◌, ◌<◌, ◌≤◌, ◌≤ℤ◌, ◌↔◌, IsTrue, IsSome, IfSome, IfOk, ℤ, List, length, FitsSigned};
ghost use Rattle.transpose_order.specs.Place.{IsLaneWidth, place_of};
ghost use Rattle.bit_interleave.specs.PackedWords.{HasWidth};
ghost use Rattle.bit_interleave.specs.Arithmetic.{integer_width};
ghost use Rattle.bit_interleave.specs.Packing.{sixteen_of};
ghost use Rattle.bit_interleave.specs.Places.{by_place};
ghost use Rattle.bit_interleave.specs.Range.{AreInRange, value_at};
ghost use Rattle.run_dictionary.specs.Dict.{IsDictForm, IsAscending, AreCodesBelow, code_at, dict_value, dict_values, least_dict, dict_bytes, CodesStandInLanes, LeastDictIsAForm, LeastDictGivesBack, LeastDictIsFewest};

use crate::codes::{
    all_used, are_below, first_from, values_at, write_codes, write_distinct, write_values,
};
use crate::counting::{count_distinct_to, most_values, payload_bytes};
use crate::seen::more_distinct;
use bit_interleave::{Values, Words, width_of};
use std::alloc::{AllocError, Global};
use std::marker::Model;
use std::simd::prelude::*;
use transpose_order::place;

/// A vector of 1024 signed integers of 8, 16, 32 or 64 bits as a dictionary of ascending values, and the place of each row's
/// value in it, packed in lanes of 16 bits whatever the lane width is. It is in the manner of FastLanes (VLDB 2023), of its
/// section on light-weight encodings; the order of rows and the payload are our own. The width of a code is known from how many
/// words there are.
#[derive(Drop)]
pub struct Dict {
    values: Values,
    codes: Words,
}

impl Model for Dict {
    ghost use Rattle.bit_interleave.specs.PackedWords.{packed_width};
    ghost use Rattle.run_dictionary.specs.Dict.{DictForm, IsDictForm};

    ghost Value = { DictForm };

    ghost view = { λ d. record { lane_width = d.values.lane_width; width = packed_width d.codes; values = d.values.values; codes = d.codes } };

    ghost invariant = { λ d. IsDictForm (record { lane_width = d.values.lane_width; width = packed_width d.codes; values = d.values.values; codes = d.codes }) };
}

impl Dict {
    /// The bytes that `encode` would take for the payload: `lane_width / 8` for each distinct value, and 128 for each bit of a
    /// code. The 1024 values, in row order, are in the range of `lane_width` bits, signed, which are 8, 16, 32 or 64.
    pub fn size(values: &[i64; 1024], lane_width: usize) -> u16
        requires lane_width { IsLaneWidth lane_width }
        requires fit { AreInRange lane_width values.now }
        ensures { result ≡ dict_bytes (least_dict lane_width values.now) }
    {
        Self::size_below(values, lane_width, u16::MAX).unwrap()
    }

    /// What `size` answers, if it is below a bound, and else `None`. If there are more distinct values than a payload below
    /// the bound has, it stops at the first that is too many; the values are sorted only if they span 65,536 numbers or more.
    pub fn size_below(values: &[i64; 1024], lane_width: usize, bound: u16) -> Option<u16>
        requires lane_width { IsLaneWidth lane_width }
        requires fit { AreInRange lane_width values.now }
        ensures size { IfSome result (λ size. size ≡ dict_bytes (least_dict lane_width values.now)) }
        ensures below { IsSome result ↔ (dict_bytes (least_dict lane_width values.now) < bound) }
    {
        let count = count_distinct_to(values, most_values(lane_width, bound))?;
        let size = payload_bytes(lane_width, count, width_of(count as u64 - 1));
        if size < bound { Some(size) } else { None }
    }

    /// Whether the least dictionary of 1024 values takes fewer bytes than a bound. Of the values it is given numbers that are
    /// equal exactly when the values are, such as the packed numbers of a frame: number `16 * p + i` is that of row
    /// `64 * i + p`. The lane width is 8, 16, 32 or 64. It stops at the first distinct number that is too many.
    pub fn is_below(lane_width: usize, numbers: &[u64; 1024], bound: u16) -> bool
        requires { IsLaneWidth lane_width }
        ensures { (values : List ℤ) → length values ≡ 1024
            → ((m n : ℕ) → m < 1024 → n < 1024 → (by_place numbers.now m ≡ by_place numbers.now n) ↔ (value_at values m ≡ value_at values n))
            → IsTrue result ↔ (dict_bytes (least_dict lane_width values) < bound) }
    {
        !more_distinct(numbers, most_values(lane_width, bound))
    }

    /// The least form of 1024 values: their distinct values, and the least width for the greatest code. The values, in row order,
    /// are in the range of `lane_width` bits, signed, which are 8, 16, 32 or 64. If memory is refused, an `AllocError`.
    pub fn encode(
        alloc: Global,
        values: &[i64; 1024],
        lane_width: usize,
    ) -> Result<Self, AllocError>
        requires lane_width { IsLaneWidth lane_width }
        requires fit { AreInRange lane_width values.now }
        ensures { IfOk result (λ coded. coded ≡ least_dict lane_width values.now) }
    {
        let mut distinct = [0; 1024];
        let count = write_distinct(values, &mut distinct);
        let dictionary = &distinct[..count];
        let mut codes = [0; 1024];
        write_codes(dictionary, values, &mut codes);
        let width = width_of(count as u64 - 1);
        Ok(Dict {
            values: Values::from_slice(alloc, lane_width, dictionary)?,
            codes: Words::pack(alloc, 16, width, &codes)?,
        })
    }

    /// Whether the code of each of 1024 rows is below a count, in `64 * width` words of 16 bits that pack codes of `width` bits.
    pub fn codes_fit(width: usize, codes: &Words, count: usize) -> bool
        requires words { codes.now.lane_width ≡ 16 }
        requires packed { HasWidth codes.now width }
        ensures { IsTrue result ↔ AreCodesBelow width codes.now count }
    {
        if count >> width != 0 {
            // No code of so few bits is as great.
            return true;
        }
        let mut unpacked = [0; 1024];
        codes.unpack_by_places(width, &mut unpacked);
        are_below(&unpacked, count)
    }

    /// The vector with these parts: at most 1024 values, which ascend, and `64 * width` words of 16 bits of which each row's code
    /// is a place among the values. A value may have no row, so it need not be the least form.
    pub fn from_parts(width: usize, values: Values, codes: Words) -> Self
        requires words { codes.lane_width ≡ 16 }
        requires packed { HasWidth codes width }
        requires many { length values.values ≤ 1024 }
        requires rises { IsAscending values.values }
        requires codes { AreCodesBelow width codes (length values.values) }
        ensures { result ≡ record { lane_width = values.lane_width; width = width; values = values.values; codes = codes } }
    {
        codes.fit_lanes();
        values.keep_their_range();
        prove!(codes.packed_width() == width);
        Dict { values, codes }
    }

    /// Writes the 1024 values in row order, each in the range of the lane width.
    pub fn decode(&self, values: &mut [i64; 1024])
        ensures values { values.new ≡ dict_values self.now }
        ensures fit { AreInRange self.now.lane_width values.new }
    {
        let mut codes = [0; 1024];
        self.codes.unpack(self.codes.packed_width(), &mut codes);
        let mut room = [0; 1024];
        write_values(self.values.in_room(&mut room), &codes, values);
    }

    /// The value of a row, 0 to 1023, in the range of the lane width.
    pub fn value(&self, row: usize) -> i64
        requires { row < 1024 }
        ensures value { result ≡ dict_value self.now row }
        ensures fits { FitsSigned (integer_width self.now.lane_width) result }
    {
        let (lane, step) = place(16, row);
        let code = self.codes.value(self.codes.packed_width(), lane, step);
        self.values.get(code as usize)
    }

    /// Sixteen of the values, each in the range of the lane width, for a piece from 0 to 63 of lanes of 16 bits: element i is
    /// the value at row `64 * i + place_in_word(16, piece)`.
    pub fn piece(&self, piece: usize) -> Simd<i64, 16>
        requires { piece < 64 }
        ensures { result ≡ sixteen_of (λ i. dict_value self.now (64 * i + place_of 16 piece)) }
    {
        let width = self.codes.packed_width();
        let codes = self.codes.step(width, piece / 16, piece % 16);
        values_at(&self.values, &codes.to_array())
    }

    /// The places in the dictionary of the values from `low` to `high`, both included: from the first that is answered up to
    /// the second, which is not included.
    pub fn places_between(&self, low: i64, high: i64) -> (usize, usize)
        ensures within { result.1 ≤ length self.now.values }
        ensures places { (k : ℕ) → k < length self.now.values → ((low ≤ℤ value_at self.now.values k) × (value_at self.now.values k ≤ℤ high))
            ↔ ((result.0 ≤ k) × (k < result.1)) }
        ensures rows { (n : ℕ) → n < 1024 → ((low ≤ℤ dict_value self.now n) × (dict_value self.now n ≤ℤ high))
            ↔ ((result.0 ≤ code_at self.now n) × (code_at self.now n < result.1)) }
    {
        (
            first_from(&self.values, i128::from(low)),
            first_from(&self.values, i128::from(high) + 1),
        )
    }

    /// The payload's bytes: `lane_width / 8` for each value of the dictionary, and 128 for each bit of a code.
    pub fn bytes_len(&self) -> u16
        ensures { result ≡ dict_bytes self.now }
    {
        payload_bytes(
            self.values.lane_width(),
            self.values.len(),
            self.codes.packed_width(),
        )
    }

    /// Whether this is the least form of the values that it decodes to, part for part.
    pub fn is_least(&self) -> bool
        ensures { IsTrue result ↔ (self.now ≡ least_dict self.now.lane_width (dict_values self.now)) }
    {
        let mut codes = [0; 1024];
        self.write_codes(&mut codes);
        self.is_least_of(&codes)
    }

    /// Whether this is the least form of the values that it decodes to, from the rows' codes by places, which `write_codes` writes.
    pub fn is_least_of(&self, codes: &[u64; 1024]) -> bool
        requires { (n : ℕ) → n < 1024 → by_place codes.now n ≡ code_at self.now n }
        ensures { IsTrue result ↔ (self.now ≡ least_dict self.now.lane_width (dict_values self.now)) }
    {
        let width = self.codes.packed_width();
        let count = self.values.len();
        width == width_of(count as u64 - 1) && all_used(codes, count)
    }

    /// Writes the rows' codes by places: number `16 * p + i` is the code of row `64 * i + p`. Two codes are equal exactly when the
    /// rows' values are.
    pub fn write_codes(&self, codes: &mut [u64; 1024])
        ensures codes { (n : ℕ) → n < 1024 → by_place codes.new n ≡ code_at self.now n }
        ensures below { (n : ℕ) → n < 1024 → by_place codes.new n < length self.now.values }
        ensures alike { (m n : ℕ) → m < 1024 → n < 1024
            → (by_place codes.new m ≡ by_place codes.new n) ↔ (value_at (dict_values self.now) m ≡ value_at (dict_values self.now) n) }
    {
        self.codes
            .unpack_by_places(self.codes.packed_width(), codes);
    }

    /// The least and the greatest of the 1024 values, if this is the least form of them: the dictionary's first value and its
    /// last.
    pub fn ends(&self) -> (i64, i64)
        requires { self.now ≡ least_dict self.now.lane_width (dict_values self.now) }
        ensures bounds { (n : ℕ) → n < 1024 → (result.0 ≤ℤ dict_value self.now n) × (dict_value self.now n ≤ℤ result.1) }
        ensures least { (n : ℕ) × (n < 1024) × (dict_value self.now n ≡ result.0) }
        ensures greatest { (n : ℕ) × (n < 1024) × (dict_value self.now n ≡ result.1) }
    {
        (self.values.get(0), self.values.get(self.values.len() - 1))
    }

    /// A copy of the vector in memory of its own. If memory is refused, an `AllocError`.
    pub fn copy(&self, alloc: Global) -> Result<Self, AllocError>
        ensures { IfOk result (λ coded. coded ≡ self.now) }
    {
        Ok(Dict {
            values: self.values.copy(alloc)?,
            codes: self.codes.copy(alloc)?,
        })
    }

    /// The lane width of the vector's values in bits: 8, 16, 32 or 64.
    pub fn lane_width(&self) -> usize
        ensures value { result ≡ self.now.lane_width }
        ensures lanes { IsLaneWidth result }
        ensures form { IsDictForm self.now }
    {
        self.values.lane_width()
    }

    /// The width of a code in bits, from 0 to 16.
    pub fn width(&self) -> usize
        ensures value { result ≡ self.now.width }
        ensures bound { result ≤ 16 }
    {
        self.codes.packed_width()
    }

    /// The values of the dictionary in ascending order, from 1 to 1024 of them, each kept at the lane width.
    pub fn values(&self) -> &Values
        ensures value { result.now ≡ record { lane_width = self.now.lane_width; values = self.now.values } }
        ensures some { 0 < length self.now.values }
        ensures many { length self.now.values ≤ 1024 }
        ensures fit { AreInRange self.now.lane_width self.now.values }
        ensures form { IsDictForm self.now }
    {
        &self.values
    }

    /// The codes packed in lanes of 16 bits, in `64 * width` words.
    pub fn codes(&self) -> &Words
        ensures words { result.now ≡ self.now.codes }
        ensures lanes { result.now.lane_width ≡ 16 }
        ensures width { HasWidth result.now self.now.width }
        ensures form { IsDictForm self.now }
    {
        &self.codes
    }
}

/// The law that a row's code is the packed number at the row's lane and step, of 16 bits.
pub fn codes_stand_in_lanes()
    ensures { CodesStandInLanes }
{}

/// The law that the least form of 1024 values is a form.
pub fn least_dict_is_a_form()
    ensures { LeastDictIsAForm }
{}

/// The law that the least form of 1024 values represents them.
pub fn least_dict_gives_back()
    ensures { LeastDictGivesBack }
{}

/// The law that of all forms of the same values the least has the fewest, and that no form's width is too small for them.
pub fn least_dict_is_fewest()
    ensures { LeastDictIsFewest }
{}
