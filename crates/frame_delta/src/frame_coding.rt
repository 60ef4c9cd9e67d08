//! Vectors coded by frame of reference.
ghost use Rattle.std.specs.Prelude.{◌≡◌, ◌+◌, ◌*◌, ◌/◌, ◌<◌, ◌≤◌, ◌↔◌, ℕ, ℤ, pos, List, map, length, IsTrue, IfOk};
ghost use Rattle.std.specs.Int.RustNames.{FitsSigned};
ghost use Rattle.transpose_order.specs.Place.{IsLaneWidth, place_of};
ghost use Rattle.bit_interleave.specs.Arithmetic.{integer_width};
ghost use Rattle.bit_interleave.specs.Packing.{sixteen_of};
ghost use Rattle.bit_interleave.specs.PackedWords.{HasWidth};
ghost use Rattle.bit_interleave.specs.Range.{AreInRange, value_at};
ghost use Rattle.frame_delta.specs.Frame.{IsFrameForm, frame_value, frame_values, least_frame, frame_bytes, ArePacked, TellApart, AreAbove};

use crate::extremes::{Frame, gaps_above, spread_of};
use crate::pieces::{put_four, raised};
use crate::spans::{LaneSpread, at, ordered};
use bit_interleave::{LaneWord, Words, step_at, wrap_lanes, wrapping_sum_with};
use std::alloc::{AllocError, Global};
use std::marker::Model;
use std::simd::prelude::*;
use transpose_order::{place, place_in_word};

/// A vector of 1024 signed integers of 8, 16, 32 or 64 bits, each a reference plus a packed number, modulo two to the power of
/// the lane width. Coded in the manner of FastLanes (VLDB 2023), frame of reference; the order of rows and the payload are our own.
#[derive(Drop)]
pub struct For {
    width: usize,
    reference: i64,
    words: Words,
}

impl Model for For {
    ghost use Rattle.frame_delta.specs.Frame.{FrameForm, IsFrameForm};

    ghost Value = { FrameForm };

    ghost view = { λ c. record { lane_width = c.words.lane_width; width = c.width; reference = c.reference; words = c.words } };

    ghost invariant = { λ c. IsFrameForm (record { lane_width = c.words.lane_width; width = c.width; reference = c.reference; words = c.words }) };
}

/// Writes the 1024 values in row order of words that pack numbers of `width` bits above a reference.
fn write_values<U: LaneWord>(width: usize, reference: i64, words: &[U], values: &mut [i64; 1024])
    requires width { width ≤ U.BITS }
    requires words { length words.now ≡ width * (1024 / U.BITS) }
    ensures values { values.new ≡ frame_values (record { lane_width = U.BITS; width = width; reference = reference; words = record { lane_width = U.BITS; numbers = map U.number words.now } }) }
    ensures fit { AreInRange U.BITS values.new }
{
    let bits = U::BITS;
    let above = reference.cast_unsigned();
    for block in 0..16 {
        let piece = 4 * block;
        let group = piece / bits;
        let step = piece % bits;
        let a = raised(step_at(width, words, group, step), above);
        let b = raised(step_at(width, words, group, step + 1), above);
        let c = raised(step_at(width, words, group, step + 2), above);
        let d = raised(step_at(width, words, group, step + 3), above);
        let places = place_in_word(bits, piece) / 4;
        put_four(bits, a, b, c, d, places, values);
    }
}

/// The payload's bytes at a width of packed numbers.
fn bytes_at(lane_width: usize, width: usize) -> u16
    requires lane_width { IsLaneWidth lane_width }
    requires width { width ≤ 64 }
    ensures { result ≡ lane_width / 8 + 128 * width }
{
    (lane_width / 8 + 128 * width) as u16
}

impl For {
    /// The bytes that `encode` would take for the payload: the reference, and 128 bytes for each bit of the width. The 1024
    /// values, in row order, are in the range of `lane_width` bits, signed, which are 8, 16, 32 or 64.
    pub fn size(values: &[i64; 1024], lane_width: usize) -> u16
        requires lane_width { IsLaneWidth lane_width }
        requires fit { AreInRange lane_width values.now }
        ensures { result ≡ frame_bytes (least_frame lane_width values.now) }
    {
        let frame = Frame::of(values, lane_width);
        (lane_width / 8 + 128 * frame.width) as u16
    }

    /// The least form of 1024 values: the least value as the reference, and the least width. The values, in row order, are in
    /// the range of `lane_width` bits, signed, which are 8, 16, 32 or 64. If memory is refused, an `AllocError`.
    pub fn encode(
        alloc: Global,
        values: &[i64; 1024],
        lane_width: usize,
    ) -> Result<Self, AllocError>
        requires lane_width { IsLaneWidth lane_width }
        requires fit { AreInRange lane_width values.now }
        ensures { IfOk result (λ coded. coded ≡ least_frame lane_width values.now) }
    {
        let Frame {
            least: reference,
            width,
        } = Frame::of(values, lane_width);
        let gaps = gaps_above(reference, values);
        let words = Words::pack(alloc, lane_width, width, &gaps)?;
        Ok(For {
            width,
            reference,
            words,
        })
    }

    /// The least form of 1024 values that are all `value`: the value as the reference, and no words. The value is in the range of
    /// `lane_width` bits, signed, which are 8, 16, 32 or 64. If memory is refused, an `AllocError`.
    pub fn constant(alloc: Global, lane_width: usize, value: i64) -> Result<Self, AllocError>
        requires lane_width { IsLaneWidth lane_width }
        requires fits { FitsSigned (integer_width lane_width) value }
        ensures { IfOk result (λ coded. (values : List ℤ) → ((n : ℕ) → n < 1024 → value_at values n ≡ value) → coded ≡ least_frame lane_width values) }
    {
        let words = Words::from_numbers(alloc, lane_width, &[])?;
        Ok(For {
            width: 0,
            reference: value,
            words,
        })
    }

    /// The vector with these parts: words of `lane_width` bits, `width * (1024 / lane_width)` of them with `width` at most
    /// `lane_width`, and a reference in the range of `lane_width` bits, signed. It need not be the least form.
    pub fn from_parts(lane_width: usize, width: usize, reference: i64, words: Words) -> Self
        requires lane_width { lane_width ≡ words.lane_width }
        requires width { HasWidth words width }
        requires reference { FitsSigned (integer_width lane_width) reference }
        ensures { result ≡ record { lane_width = lane_width; width = width; reference = reference; words = words } }
    {
        words.fit_lanes();
        prove!(words.lane_width() == lane_width);
        For {
            width,
            reference,
            words,
        }
    }

    /// Writes the 1024 values in row order, each in the range of the lane width.
    pub fn decode(&self, values: &mut [i64; 1024])
        ensures values { values.new ≡ frame_values self.now }
        ensures fit { AreInRange self.now.lane_width values.new }
    {
        let (width, reference, words) = (self.width, self.reference, &self.words);
        match words.lane_width() {
            8 => write_values(width, reference, words.words_8(), values),
            16 => write_values(width, reference, words.words_16(), values),
            32 => write_values(width, reference, words.words_32(), values),
            _ => write_values(width, reference, words.words_64(), values),
        }
    }

    /// The value of a row, 0 to 1023, in the range of the lane width.
    pub fn value(&self, row: usize) -> i64
        requires { row < 1024 }
        ensures value { result ≡ frame_value self.now row }
        ensures fits { FitsSigned (integer_width self.now.lane_width) result }
    {
        let lane_width = self.words.lane_width();
        let (lane, step) = place(lane_width, row);
        let number = self.words.value(self.width, lane, step);
        wrapping_sum_with(lane_width, self.reference, number)
    }

    /// Sixteen values, those of piece `piece`, 0 to 63: element i is the value at row
    /// `64 * i + place_in_word(lane_width, piece)`.
    pub fn piece(&self, piece: usize) -> Simd<i64, 16>
        requires { piece < 64 }
        ensures { result ≡ sixteen_of (λ i. frame_value self.now (64 * i + place_of self.now.lane_width piece)) }
    {
        let lane_width = self.words.lane_width();
        let numbers = self
            .words
            .step(self.width, piece / lane_width, piece % lane_width);
        wrap_lanes(lane_width, raised(numbers, self.reference.cast_unsigned()))
    }

    /// Writes the packed numbers by places: number `16 * p + i` is that of row `64 * i + p`. Each value is the reference plus its
    /// row's number, modulo two to the power of the lane width, and rows of the same value have the same number.
    pub fn unpack(&self, numbers: &mut [u64; 1024])
        ensures packed { ArePacked self.now.lane_width self.now.width self.now.words.numbers numbers.new }
        ensures values { AreAbove self.now.lane_width self.now.reference numbers.new (frame_values self.now) }
        ensures apart { TellApart numbers.new (frame_values self.now) }
    {
        self.words.unpack_by_places(self.width, numbers);
    }

    /// Whether this is the least form of the values that it decodes to, part for part.
    pub fn is_least(&self) -> bool
        ensures { IsTrue result ↔ (self.now ≡ least_frame self.now.lane_width (frame_values self.now)) }
    {
        let mut numbers = [0; 1024];
        self.unpack(&mut numbers);
        self.is_least_of(&numbers)
    }

    /// Whether this is the least form of the values that it decodes to, from its packed numbers by places, which `unpack` writes.
    pub fn is_least_of(&self, numbers: &[u64; 1024]) -> bool
        requires { ArePacked self.now.lane_width self.now.width self.now.words.numbers numbers.now }
        ensures { IsTrue result ↔ (self.now ≡ least_frame self.now.lane_width (frame_values self.now)) }
    {
        spread_of(numbers).is_tight(self.words.lane_width(), self.width, self.reference)
    }

    /// Whether the payload of the least form of 1024 values has fewer bytes than `bound`, from numbers by places: each value is its
    /// row's number modulo two to the power of `lane_width`, which is 8, 16, 32 or 64, read as signed. It stops at the first rows
    /// that need as many bytes.
    pub fn is_below(lane_width: usize, numbers: &[u64; 1024], bound: u16) -> bool
        requires lane_width { IsLaneWidth lane_width }
        ensures { (values : List ℤ) → length values ≡ 1024 → AreAbove lane_width (pos 0) numbers.now values → IsTrue result ↔ (frame_bytes (least_frame lane_width values) < bound) }
    {
        let mut so_far = LaneSpread::of(ordered(lane_width, at(numbers, 0)));
        for place in 1..64 {
            if place % 16 == 1 && bytes_at(lane_width, so_far.spread().width(lane_width)) >= bound {
                return false;
            }
            so_far = so_far.with(ordered(lane_width, at(numbers, place)));
        }
        bytes_at(lane_width, so_far.spread().width(lane_width)) < bound
    }

    /// The lane width in bits: 8, 16, 32 or 64.
    pub fn lane_width(&self) -> usize
        ensures value { result ≡ self.now.lane_width }
        ensures lanes { IsLaneWidth result }
        ensures form { IsFrameForm self.now }
    {
        self.words.lane_width()
    }

    /// The width of the packed numbers in bits, from 0 to the lane width.
    pub fn width(&self) -> usize
        ensures value { result ≡ self.now.width }
        ensures bound { result ≤ self.now.lane_width }
    {
        self.width
    }

    /// The reference, in the range of the lane width, signed.
    pub fn reference(&self) -> i64
        ensures value { result ≡ self.now.reference }
        ensures fits { FitsSigned (integer_width self.now.lane_width) result }
        ensures form { IsFrameForm self.now }
    {
        self.reference
    }

    /// The packed words, `width * (1024 / lane_width)` of them, each of the lane width.
    pub fn words(&self) -> &Words
        ensures value { result.now ≡ self.now.words }
        ensures width { HasWidth result.now self.now.width }
        ensures form { IsFrameForm self.now }
    {
        &self.words
    }

    /// The payload's bytes: the reference, and 128 bytes for each bit of the width.
    pub fn bytes_len(&self) -> u16
        ensures { result ≡ frame_bytes self.now }
    {
        (self.words.lane_width() / 8 + 128 * self.width) as u16
    }

    /// A copy of the vector in memory of its own. If memory is refused, an `AllocError`.
    pub fn copy(&self, alloc: Global) -> Result<Self, AllocError>
        ensures { IfOk result (λ coded. coded ≡ self.now) }
    {
        let words = self.words.copy(alloc)?;
        Ok(For {
            width: self.width,
            reference: self.reference,
            words,
        })
    }
}
