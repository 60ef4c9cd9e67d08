//! Vectors coded by deltas.
ghost use Rattle.std.specs.Prelude.{◌≡◌, ◌≢◌, ℕ, ℤ, pos, ◌+ℤ◌, List, ◌+◌, ◌-◌, ◌*◌, ◌/◌, ◌%◌, ◌^◌, ◌<◌, ◌≤◌, ◌↔◌, map, length, slice_index, IsTrue, IfOk};
ghost use Rattle.std.specs.Int.{w64, int_wrap, cast_unsigned};
ghost use Rattle.std.specs.Int.RustNames.{FitsSigned};
ghost use Rattle.transpose_order.specs.Place.{IsLaneWidth, lane_of};
ghost use Rattle.bit_interleave.specs.Arithmetic.{integer_width};
ghost use Rattle.bit_interleave.specs.PackedWords.{HasWidth};
ghost use Rattle.bit_interleave.specs.Places.{by_place};
ghost use Rattle.bit_interleave.specs.Range.{AreInRange, value_at};
ghost use Rattle.frame_delta.specs.Frame.{ArePacked, TellApart, AreAbove};
ghost use Rattle.frame_delta.specs.Delta.{IsDeltaForm, AreSums, AreOfPlace, delta_value, delta_values, least_delta, delta_bytes};

use crate::differences::{bases_of, differences_within, fill_first_steps, starts_at_zero};
use crate::extremes::{Frame, gaps_above};
use crate::pieces::{added, put_four, raised};
use crate::spans::{LaneSpread, at, differences_at, first_differences, later_spread, low_bits};
use bit_interleave::{LaneWord, Values, Words, put_place, step_at, wrap};
use std::alloc::{AllocError, Global};
use std::marker::Model;
use std::simd::prelude::*;
use transpose_order::{place, place_in_word};

/// A vector of 1024 signed integers of 8, 16, 32 or 64 bits, in each lane a base and the differences of neighbours, each the
/// least delta plus a packed number, modulo two to the power of the lane width. Coded in the manner of FastLanes (VLDB 2023),
/// delta coding; the order of rows, the least delta below the packed numbers and the payload are our own. The width of the packed
/// numbers is known from how many words there are.
#[derive(Drop)]
pub struct Delta {
    least: i64,
    bases: Values,
    words: Words,
}

impl Model for Delta {
    ghost use Rattle.std.specs.Prelude.{◌≡◌};
    ghost use Rattle.bit_interleave.specs.PackedWords.{packed_width};
    ghost use Rattle.frame_delta.specs.Delta.{DeltaForm, IsDeltaForm};

    ghost Value = { DeltaForm };

    ghost view = { λ c. record { lane_width = c.words.lane_width; width = packed_width c.words; least = c.least; bases = c.bases.values; words = c.words } };

    ghost invariant = { λ c. IsDeltaForm (record { lane_width = c.words.lane_width; width = packed_width c.words; least = c.least; bases = c.bases.values; words = c.words }) × (c.bases.lane_width ≡ c.words.lane_width) };
}

/// The bits of sixteen bases from place `at` on.
fn base_bits(bases: &Values, at: usize) -> Simd<u64, 16>
    requires at { at < 1024 }
    requires within { at + 16 ≤ length bases.now.values }
    ensures long { length result ≡ 16 }
    ensures lanes { (i : ℕ) → i < 16 → slice_index result i ≡ cast_unsigned w64 (value_at bases.now.values (at + i)) }
{
    let mut numbers = [0; 16];
    for i in 0..16 {
        numbers[i] = bases.get(at + i).cast_unsigned();
    }
    Simd::from_array(numbers)
}

/// The lanes before a step: the bases before step 0, and else the sums so far.
fn lanes_before(step: usize, sums: Simd<u64, 16>, bases: &Values, at: usize) -> Simd<u64, 16>
    requires sums { length sums ≡ 16 }
    requires at { at < 1024 }
    requires within { at + 16 ≤ length bases.now.values }
    ensures long { length result ≡ 16 }
    ensures first { step ≡ 0 → (i : ℕ) → i < 16 → slice_index result i ≡ cast_unsigned w64 (value_at bases.now.values (at + i)) }
    ensures later { step ≢ 0 → result ≡ sums }
{
    if step != 0 {
        return sums;
    }
    base_bits(bases, at)
}

/// Writes the 1024 values in row order of bases, a least delta and words that pack numbers of `width` bits.
fn write_sums<U: LaneWord>(
    width: usize,
    least: i64,
    bases: &Values,
    words: &[U],
    values: &mut [i64; 1024],
)
    requires width { width ≤ U.BITS }
    requires base_count { length bases.now.values ≡ 1024 / U.BITS }
    requires bases { AreInRange U.BITS bases.now.values }
    requires words { length words.now ≡ width * (1024 / U.BITS) }
    ensures values { values.new ≡ delta_values (record { lane_width = U.BITS; width = width; least = least; bases = bases.now.values; words = record { lane_width = U.BITS; numbers = map U.number words.now } }) }
    ensures fit { AreInRange U.BITS values.new }
{
    let bits = U::BITS;
    let by = least.cast_unsigned();
    let mut sums = Simd::splat(0);
    for block in 0..16 {
        let piece = 4 * block;
        let group = piece / bits;
        let step = piece % bits;
        let before = lanes_before(step, sums, bases, 16 * group);
        let a = added(raised(before, by), step_at(width, words, group, step));
        let b = added(raised(a, by), step_at(width, words, group, step + 1));
        let c = added(raised(b, by), step_at(width, words, group, step + 2));
        let d = added(raised(c, by), step_at(width, words, group, step + 3));
        let places = place_in_word(bits, piece) / 4;
        put_four(bits, a, b, c, d, places, values);
        sums = d;
    }
}

/// The sums before those of a place, 0 to 63: the bases at the first steps of their lanes, and else the sums so far.
#[inline(always)]
fn sums_before(lane_width: usize, row: usize, sums: Simd<u64, 16>, bases: &Values) -> Simd<u64, 16>
    requires lane_width { IsLaneWidth lane_width }
    requires row { row < 64 }
    requires sums { length sums ≡ 16 }
    requires base_count { length bases.now.values ≡ 1024 / lane_width }
    ensures long { length result ≡ 16 }
    ensures first { row % lane_width ≡ 0 → (i : ℕ) → i < 16 → slice_index result i ≡ cast_unsigned w64 (value_at bases.now.values (lane_of lane_width (64 * i + row))) }
    ensures later { row % lane_width ≢ 0 → result ≡ sums }
{
    if row & (lane_width - 1) != 0 {
        return sums;
    }
    base_bits(bases, place(lane_width, row).0)
}

/// Adds up numbers by places within the lanes, with a base and a least delta: each becomes its row's value, in as many bits as the
/// lanes have.
fn write_sums_by_places(lane_width: usize, least: i64, bases: &Values, numbers: &mut [u64; 1024])
    requires lane_width { IsLaneWidth lane_width }
    requires base_count { length bases.now.values ≡ 1024 / lane_width }
    requires bases { AreInRange lane_width bases.now.values }
    ensures first { (n : ℕ) → n < 1024 → n % lane_width ≡ 0 → int_wrap (integer_width lane_width) (pos (by_place numbers.new n)) ≡ int_wrap (integer_width lane_width) (value_at bases.now.values (lane_of lane_width n) +ℤ (least +ℤ pos (by_place numbers.old n))) }
    ensures later { (n : ℕ) → n < 1024 → n % lane_width ≢ 0 → int_wrap (integer_width lane_width) (pos (by_place numbers.new n)) ≡ int_wrap (integer_width lane_width) (int_wrap (integer_width lane_width) (pos (by_place numbers.new (n - 1))) +ℤ (least +ℤ pos (by_place numbers.old n))) }
    ensures fit { (n : ℕ) → n < 1024 → by_place numbers.new n < 2 ^ lane_width }
{
    let by = least.cast_unsigned();
    let mut sums = Simd::splat(0);
    for row in 0..64 {
        let before = sums_before(lane_width, row, sums, bases);
        sums = added(raised(before, by), at(numbers, row));
        put_place(low_bits(lane_width, sums), row, numbers);
    }
}

/// The payload's bytes at a width of packed numbers.
fn bytes_at(lane_width: usize, width: usize) -> u16
    requires lane_width { IsLaneWidth lane_width }
    requires width { width ≤ 64 }
    ensures { result ≡ lane_width / 8 + 128 + 128 * width }
{
    (lane_width / 8 + 128 + 128 * width) as u16
}

impl Delta {
    /// The bytes that `encode` would take for the payload: the least delta, 128 bytes of bases, and 128 bytes for each bit of the
    /// width. The 1024 values, in row order, are in the range of `lane_width` bits, signed, which are 8, 16, 32 or 64.
    pub fn size(values: &[i64; 1024], lane_width: usize) -> u16
        requires lane_width { IsLaneWidth lane_width }
        requires fit { AreInRange lane_width values.now }
        ensures { result ≡ delta_bytes (least_delta lane_width values.now) }
    {
        let frame = Frame::of(&differences_within(lane_width, values), lane_width);
        (lane_width / 8 + 128 + 128 * frame.width) as u16
    }

    /// The least form of 1024 values: the least difference of neighbours within a lane, and the least width. The values, in row
    /// order, are in the range of `lane_width` bits, signed, which are 8, 16, 32 or 64. If memory is refused, an `AllocError`.
    pub fn encode(
        alloc: Global,
        values: &[i64; 1024],
        lane_width: usize,
    ) -> Result<Self, AllocError>
        requires lane_width { IsLaneWidth lane_width }
        requires fit { AreInRange lane_width values.now }
        ensures { IfOk result (λ coded. coded ≡ least_delta lane_width values.now) }
    {
        let mut differences = differences_within(lane_width, values);
        let Frame { least, width } = Frame::of(&differences, lane_width);
        fill_first_steps(lane_width, least, &mut differences);
        let gaps = gaps_above(least, &differences);
        let bases = bases_of(alloc, lane_width, least, values)?;
        let words = Words::pack(alloc, lane_width, width, &gaps)?;
        Ok(Delta {
            least,
            bases,
            words,
        })
    }

    /// The vector with these parts: words of 8, 16, 32 or 64 bits, `width * lanes` of them for `lanes = 1024 / words.lane_width()`
    /// with `width` at most the lane width, `lanes` bases in lane order, of the lane width as well, and a least delta in its range,
    /// signed. It need not be the least form.
    pub fn from_parts(width: usize, least: i64, bases: Values, words: Words) -> Self
        requires lanes { bases.lane_width ≡ words.lane_width }
        requires width { HasWidth words width }
        requires least { FitsSigned (integer_width words.lane_width) least }
        requires base_count { length bases.values ≡ 1024 / words.lane_width }
        ensures { result ≡ record { lane_width = words.lane_width; width = width; least = least; bases = bases.values; words = words } }
    {
        bases.keep_their_range();
        words.fit_lanes();
        prove!(words.packed_width() == width);
        Delta {
            least,
            bases,
            words,
        }
    }

    /// Writes the 1024 values in row order, each in the range of the lane width.
    pub fn decode(&self, values: &mut [i64; 1024])
        ensures values { values.new ≡ delta_values self.now }
        ensures fit { AreInRange self.now.lane_width values.new }
    {
        let (least, bases, words) = (self.least, &self.bases, &self.words);
        let width = words.packed_width();
        match words.lane_width() {
            8 => write_sums(width, least, bases, words.words_8(), values),
            16 => write_sums(width, least, bases, words.words_16(), values),
            32 => write_sums(width, least, bases, words.words_32(), values),
            _ => write_sums(width, least, bases, words.words_64(), values),
        }
    }

    /// The value of a row, 0 to 1023, in the range of the lane width: the sum of its lane's steps up to its own.
    pub fn value(&self, row: usize) -> i64
        requires { row < 1024 }
        ensures value { result ≡ delta_value self.now row }
        ensures fits { FitsSigned (integer_width self.now.lane_width) result }
    {
        let lane_width = self.words.lane_width();
        let (lane, last) = place(lane_width, row);
        let width = self.words.packed_width();
        let least = self.least.cast_unsigned();
        let mut sum = self.bases.get(lane).cast_unsigned();
        for step in 0..last + 1 {
            let number = self.words.value(width, lane, step);
            sum = sum.wrapping_add(least).wrapping_add(number);
        }
        wrap(lane_width, sum)
    }

    /// The sums of piece `piece`, 0 to 63, from those of the piece before, which count only if both pieces are of the same
    /// lanes, that is if `piece` is no multiple of the lane width. Element i, modulo two to the power of the lane width and
    /// read as signed, is the value at row `64 * i + place_in_word(lane_width, piece)`.
    pub fn sums(&self, piece: usize, before: Simd<u64, 16>) -> Simd<u64, 16>
        requires piece { piece < 64 }
        requires long { length before ≡ 16 }
        requires before { piece % self.now.lane_width ≢ 0 → AreSums self.now (piece - 1) before }
        ensures { AreSums self.now piece result }
    {
        let lane_width = self.words.lane_width();
        let group = piece / lane_width;
        let step = piece % lane_width;
        let from = lanes_before(step, before, &self.bases, 16 * group);
        let width = self.words.packed_width();
        let numbers = self.words.step(width, group, step);
        added(raised(from, self.least.cast_unsigned()), numbers)
    }

    /// Writes the packed numbers by places: number `16 * p + i` is that of row `64 * i + p`.
    pub fn unpack(&self, numbers: &mut [u64; 1024])
        ensures { ArePacked self.now.lane_width self.now.width self.now.words.numbers numbers.new }
    {
        self.words
            .unpack_by_places(self.words.packed_width(), numbers);
    }

    /// Adds up the packed numbers by places, which `unpack` writes, within the lanes: each becomes the bits of its row's value, as many
    /// as the lane width. So rows of the same value have the same number.
    pub fn sum(&self, numbers: &mut [u64; 1024])
        requires { ArePacked self.now.lane_width self.now.width self.now.words.numbers numbers.old }
        ensures values { AreAbove self.now.lane_width (pos 0) numbers.new (delta_values self.now) }
        ensures apart { TellApart numbers.new (delta_values self.now) }
    {
        write_sums_by_places(self.words.lane_width(), self.least, &self.bases, numbers);
    }

    /// Whether this is the least form of the values that it decodes to, part for part.
    pub fn is_least(&self) -> bool
        ensures { IsTrue result ↔ (self.now ≡ least_delta self.now.lane_width (delta_values self.now)) }
    {
        let mut numbers = [0; 1024];
        self.unpack(&mut numbers);
        self.is_least_of(&numbers)
    }

    /// Whether this is the least form of the values that it decodes to, from its packed numbers by places, which `unpack` writes.
    pub fn is_least_of(&self, numbers: &[u64; 1024]) -> bool
        requires { ArePacked self.now.lane_width self.now.width self.now.words.numbers numbers.now }
        ensures { IsTrue result ↔ (self.now ≡ least_delta self.now.lane_width (delta_values self.now)) }
    {
        let lane_width = self.words.lane_width();
        if !starts_at_zero(lane_width, numbers) {
            return false;
        }
        let width = self.words.packed_width();
        later_spread(lane_width, numbers).is_tight(lane_width, width, self.least)
    }

    /// Whether the payload of the least form of 1024 values has fewer bytes than `bound`, from numbers by places: each value is its
    /// row's number plus one and the same number, modulo two to the power of `lane_width`, which is 8, 16, 32 or 64. It stops at the
    /// first rows that need as many bytes.
    pub fn is_below(lane_width: usize, numbers: &[u64; 1024], bound: u16) -> bool
        requires lane_width { IsLaneWidth lane_width }
        ensures { (values : List ℤ) (r : ℤ) → length values ≡ 1024 → AreAbove lane_width r numbers.now values → IsTrue result ↔ (delta_bytes (least_delta lane_width values) < bound) }
    {
        let mut so_far = LaneSpread::of(differences_at(lane_width, numbers, 1));
        for place in 2..64 {
            if place % 16 == 2 && bytes_at(lane_width, so_far.spread().width(lane_width)) >= bound {
                return false;
            }
            if place & (lane_width - 1) != 0 {
                so_far = so_far.with(differences_at(lane_width, numbers, place));
            }
        }
        bytes_at(lane_width, so_far.spread().width(lane_width)) < bound
    }

    /// Whether the payload of the least form of 1024 values may have fewer bytes than `bound`, as far as the numbers of places 0 and 1
    /// tell, sixteen each, of the numbers by places that `is_below` takes. If it says no, it has no fewer.
    pub fn may_be_below(lane_width: usize, first: [u64; 16], second: [u64; 16], bound: u16) -> bool
        requires lane_width { IsLaneWidth lane_width }
        ensures { (numbers : List ℕ) (values : List ℤ) (r : ℤ) → AreOfPlace 0 first numbers → AreOfPlace 1 second numbers → AreAbove lane_width r numbers values
            → delta_bytes (least_delta lane_width values) < bound → IsTrue result }
    {
        let differences = first_differences(lane_width, first, second);
        let spread = LaneSpread::of(differences).spread();
        bytes_at(lane_width, spread.width(lane_width)) < bound
    }

    /// The lane width in bits: 8, 16, 32 or 64.
    pub fn lane_width(&self) -> usize
        ensures value { result ≡ self.now.lane_width }
        ensures lanes { IsLaneWidth result }
        ensures form { IsDeltaForm self.now }
    {
        self.words.lane_width()
    }

    /// The width of the packed numbers in bits, from 0 to the lane width.
    pub fn width(&self) -> usize
        ensures value { result ≡ self.now.width }
        ensures bound { result ≤ self.now.lane_width }
    {
        self.words.packed_width()
    }

    /// The least delta, in the range of the lane width, signed.
    pub fn least(&self) -> i64
        ensures value { result ≡ self.now.least }
        ensures fits { FitsSigned (integer_width self.now.lane_width) result }
    {
        self.least
    }

    /// The bases in lane order, one a lane of the `1024 / lane_width`, each in the range of the lane width, signed.
    pub fn bases(&self) -> &Values
        ensures value { result.now ≡ record { lane_width = self.now.lane_width; values = self.now.bases } }
        ensures count { length self.now.bases ≡ 1024 / self.now.lane_width }
        ensures fit { AreInRange self.now.lane_width self.now.bases }
        ensures form { IsDeltaForm self.now }
    {
        &self.bases
    }

    /// The packed words, `width * (1024 / lane_width)` of them, each of the lane width.
    pub fn words(&self) -> &Words
        ensures value { result.now ≡ self.now.words }
        ensures width { HasWidth result.now self.now.width }
        ensures form { IsDeltaForm self.now }
    {
        &self.words
    }

    /// The payload's bytes: the least delta, 128 bytes of bases, and 128 bytes for each bit of the width.
    pub fn bytes_len(&self) -> u16
        ensures { result ≡ delta_bytes self.now }
    {
        (self.words.lane_width() / 8 + 128 + 128 * self.words.packed_width()) as u16
    }

    /// A copy of the vector in memory of its own. If memory is refused, an `AllocError`.
    pub fn copy(&self, alloc: Global) -> Result<Self, AllocError>
        ensures { IfOk result (λ coded. coded ≡ self.now) }
    {
        let bases = self.bases.copy(alloc)?;
        let words = self.words.copy(alloc)?;
        Ok(Delta {
            least: self.least,
            bases,
            words,
        })
    }
}
