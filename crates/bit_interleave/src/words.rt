//! Packed words whose lane width is known when the program runs.
ghost use Rattle.std.specs.Prelude.{◌≡◌, ℕ, ◌+◌, ◌*◌, ◌/◌, ◌<◌, ◌≤◌, ◌^◌, ◌↔◌, map, length, slice_index, slice_range, ◌%◌, IsTrue, IfOk};
ghost use Rattle.std.specs.List.{All};
ghost use Rattle.std.specs.Simd.Lanes.{Each1};
ghost use Rattle.transpose_order.specs.Place.{IsLaneWidth};
ghost use Rattle.bit_interleave.specs.Packing.{sixteen_of, packed_value, unpacked, packed};
ghost use Rattle.bit_interleave.specs.PackedWords.{PackedWords, words_packing, HasWidth, FitLanes, packed_width};
ghost use Rattle.bit_interleave.specs.PackedBytes.{bytes_of, words_of_bytes};
ghost use Rattle.bit_interleave.specs.Places.{by_place};

use crate::lane_word::LaneWord;
use crate::packing::pack_from;
use crate::unpacking::{step_at, unpack_by_places, unpack_into, value_at};
use crate::word_bytes::{put_words, words_of};
use std::alloc::{AllocError, Global};
use std::marker::Model;
use std::simd::prelude::*;

/// Words of one lane width, 8, 16, 32 or 64 bits. Those that pack a vector of 1024 values of `width` bits are
/// `width * lanes` for `lanes = 1024 / lane_width`, and word `w` of lane `l` is word `w * lanes + l`.
#[derive(Drop)]
pub struct Words {
    stored: Stored,
}

#[derive(Drop)]
enum Stored {
    U8(Vec<u8>),
    U16(Vec<u16>),
    U32(Vec<u32>),
    U64(Vec<u64>),
}

impl Model for Words {
    ghost use Rattle.bit_interleave.specs.PackedWords.{PackedWords};

    ghost Value = { PackedWords };

    ghost use Rattle.bit_interleave.specs.StoredWords.{numbers_of};

    ghost view = { λ words. numbers_of words.stored };

    ghost use Rattle.bit_interleave.specs.PackedWords.{FitLanes};

    ghost invariant = { λ words. FitLanes (numbers_of words.stored) };
}

impl Stored {
    ghost use Rattle.bit_interleave.specs.StoredWords.{numbers_of};

    fn into_words(self) -> Words
        requires { FitLanes (numbers_of self) }
        ensures { result ≡ numbers_of self }
    {
        Words { stored: self }
    }
}

/// The words that pack 1024 values of `width` bits in row order, or AllocError if memory is refused.
fn packed_vec<U: LaneWord>(
    alloc: Global,
    width: usize,
    values: &[u64; 1024],
) -> Result<Vec<U>, AllocError>
    requires width { width ≤ U.BITS }
    requires fit { All (λ v. v < 2 ^ width) values.now }
    ensures numbers { IfOk result (λ words. map U.number words.items ≡ packed U.BITS width values.now) }
    ensures fit { IfOk result (λ words. All (λ n. n < 2 ^ U.BITS) (map U.number words.items)) }
{
    let count = width * (1024 / U::BITS);
    let mut words = vec![in alloc; U::from_u64(0); count]?;
    pack_from(width, values, words.as_mut_slice());
    Ok(words)
}

/// The words with these numbers, or AllocError if memory is refused.
fn vec_of<U: LaneWord>(alloc: Global, numbers: &[u64]) -> Result<Vec<U>, AllocError>
    requires { All (λ n. n < 2 ^ U.BITS) numbers.now }
    ensures numbers { IfOk result (λ words. map U.number words.items ≡ numbers.now) }
    ensures fit { IfOk result (λ words. All (λ n. n < 2 ^ U.BITS) (map U.number words.items)) }
{
    let mut words = Vec::with_capacity(alloc, numbers.len())?;
    for number in numbers {
        words.push(U::from_u64(*number))?;
    }
    Ok(words)
}

impl Words {
    /// The `width * lanes` words that pack 1024 values of `width` bits in row order, for `lanes = 1024 / lane_width`, or
    /// AllocError if memory is refused.
    ///
    /// The lane width is 8, 16, 32 or 64, and the width 0 to `lane_width`. At width 0 there are no words.
    pub fn pack(
        alloc: Global,
        lane_width: usize,
        width: usize,
        values: &[u64; 1024],
    ) -> Result<Self, AllocError>
        requires lane_width { IsLaneWidth lane_width }
        requires width { width ≤ lane_width }
        requires fit { All (λ v. v < 2 ^ width) values.now }
        ensures { IfOk result (λ words. words ≡ words_packing lane_width width values.now) }
    {
        match lane_width {
            8 => Ok(Stored::U8(packed_vec(alloc, width, values)?).into_words()),
            16 => Ok(Stored::U16(packed_vec(alloc, width, values)?).into_words()),
            32 => Ok(Stored::U32(packed_vec(alloc, width, values)?).into_words()),
            _ => Ok(Stored::U64(packed_vec(alloc, width, values)?).into_words()),
        }
    }

    /// Words of `lane_width` bits, 8, 16, 32 or 64, with these numbers, which fit them, or AllocError if memory is
    /// refused.
    pub fn from_numbers(
        alloc: Global,
        lane_width: usize,
        numbers: &[u64],
    ) -> Result<Self, AllocError>
        requires lane_width { IsLaneWidth lane_width }
        requires fit { All (λ n. n < 2 ^ lane_width) numbers.now }
        ensures { IfOk result (λ words. words ≡ record { lane_width = lane_width; numbers = numbers.now }) }
    {
        match lane_width {
            8 => Ok(Stored::U8(vec_of(alloc, numbers)?).into_words()),
            16 => Ok(Stored::U16(vec_of(alloc, numbers)?).into_words()),
            32 => Ok(Stored::U32(vec_of(alloc, numbers)?).into_words()),
            _ => Ok(Stored::U64(vec_of(alloc, numbers)?).into_words()),
        }
    }

    /// The words of `lane_width` bits, 8, 16, 32 or 64, that bytes are, each lowest byte first, or AllocError if memory
    /// is refused. The bytes are a whole number of words.
    pub fn from_le_bytes(alloc: Global, lane_width: usize, bytes: &[u8]) -> Result<Self, AllocError>
        requires lane_width { IsLaneWidth lane_width }
        requires whole { length bytes.now % (lane_width / 8) ≡ 0 }
        ensures value { IfOk result (λ words. words ≡ words_of_bytes lane_width bytes.now) }
        ensures back { IfOk result (λ words. bytes_of words ≡ bytes.now) }
    {
        match lane_width {
            8 => Ok(Stored::U8(words_of(alloc, bytes)?).into_words()),
            16 => Ok(Stored::U16(words_of(alloc, bytes)?).into_words()),
            32 => Ok(Stored::U32(words_of(alloc, bytes)?).into_words()),
            _ => Ok(Stored::U64(words_of(alloc, bytes)?).into_words()),
        }
    }

    /// Writes 128 of the words' bytes, from byte `128 * block` on. A packed vector of 1024 values of `width` bits has
    /// `width` blocks at every lane width.
    pub fn le_bytes_at(&self, block: usize, bytes: &mut [u8; 128])
        requires { 128 * block + 128 ≤ length (bytes_of self.now) }
        ensures { bytes.new ≡ slice_range (bytes_of self.now) (128 * block) (128 * block + 128) }
    {
        match &self.stored {
            Stored::U8(words) => put_words(words.as_slice(), block, bytes),
            Stored::U16(words) => put_words(words.as_slice(), block, bytes),
            Stored::U32(words) => put_words(words.as_slice(), block, bytes),
            Stored::U64(words) => put_words(words.as_slice(), block, bytes),
        }
    }

    /// The words' width in bits: 8, 16, 32 or 64.
    pub fn lane_width(&self) -> usize
        ensures value { result ≡ self.now.lane_width }
        ensures width { IsLaneWidth result }
    {
        match &self.stored {
            Stored::U8(_) => 8,
            Stored::U16(_) => 16,
            Stored::U32(_) => 32,
            Stored::U64(_) => 64,
        }
    }

    /// How many words there are: `width * (1024 / lane_width)` if they pack values of `width` bits.
    pub fn len(&self) -> usize
        ensures value { result ≡ length self.now.numbers }
        ensures fit { FitLanes self.now }
    {
        match &self.stored {
            Stored::U8(words) => words.len(),
            Stored::U16(words) => words.len(),
            Stored::U32(words) => words.len(),
            Stored::U64(words) => words.len(),
        }
    }

    /// The law that the words fit their lanes.
    pub fn fit_lanes(&self)
        ensures width { IsLaneWidth self.now.lane_width }
        ensures fit { FitLanes self.now }
    {
        self.lane_width();
        self.len();
    }

    /// Whether there is no word, as at width 0.
    pub fn is_empty(&self) -> bool
        ensures { IsTrue result ↔ (length self.now.numbers ≡ 0) }
    {
        self.len() == 0
    }

    /// The bits of each value, if the words pack 1024 of them: `len()` by the number of lanes, `1024 / lane_width`.
    pub fn packed_width(&self) -> usize
        ensures { result ≡ packed_width self.now }
    {
        match &self.stored {
            Stored::U8(words) => words.len() / 128,
            Stored::U16(words) => words.len() / 64,
            Stored::U32(words) => words.len() / 32,
            Stored::U64(words) => words.len() / 16,
        }
    }

    /// The number of word `i`, which is below `len()`.
    pub fn word(&self, i: usize) -> u64
        requires { i < length self.now.numbers }
        ensures value { result ≡ slice_index self.now.numbers i }
        ensures fits { result < 2 ^ self.now.lane_width }
    {
        match &self.stored {
            Stored::U8(words) => u64::from(words[i]),
            Stored::U16(words) => u64::from(words[i]),
            Stored::U32(words) => u64::from(words[i]),
            Stored::U64(words) => words[i],
        }
    }

    /// The 1024 values in row order that the words pack at `width` bits, 0 to the lane width. There are
    /// `width * (1024 / lane_width)` words. At width 0 every value is 0.
    pub fn unpack(&self, width: usize, values: &mut [u64; 1024])
        requires { HasWidth self.now width }
        ensures values { values.new ≡ unpacked self.now.lane_width width self.now.numbers }
        ensures back { self.now ≡ words_packing self.now.lane_width width (unpacked self.now.lane_width width self.now.numbers) }
    {
        match &self.stored {
            Stored::U8(words) => unpack_into(width, words.as_slice(), values),
            Stored::U16(words) => unpack_into(width, words.as_slice(), values),
            Stored::U32(words) => unpack_into(width, words.as_slice(), values),
            Stored::U64(words) => unpack_into(width, words.as_slice(), values),
        }
    }

    /// The 1024 values that the words pack at `width` bits, 0 to the lane width, place by place: number `16 * p + i` is the value
    /// at row `64 * i + p`.
    pub fn unpack_by_places(&self, width: usize, numbers: &mut [u64; 1024])
        requires { HasWidth self.now width }
        ensures numbers { (n : ℕ) → n < 1024 → by_place numbers.new n ≡ slice_index (unpacked self.now.lane_width width self.now.numbers) n }
        ensures back { self.now ≡ words_packing self.now.lane_width width (unpacked self.now.lane_width width self.now.numbers) }
    {
        match &self.stored {
            Stored::U8(words) => unpack_by_places(width, words.as_slice(), numbers),
            Stored::U16(words) => unpack_by_places(width, words.as_slice(), numbers),
            Stored::U32(words) => unpack_by_places(width, words.as_slice(), numbers),
            Stored::U64(words) => unpack_by_places(width, words.as_slice(), numbers),
        }
    }

    /// Sixteen of the values that the words pack at `width` bits: element i is the value at lane `16 * group + i` and
    /// this step.
    ///
    /// There are `width * lanes` words for `lanes = 1024 / lane_width`. The group is below `lanes / 16`, and the step
    /// below the lane width.
    pub fn step(&self, width: usize, group: usize, step: usize) -> Simd<u64, 16>
        requires width { HasWidth self.now width }
        requires group { 16 * group < 1024 / self.now.lane_width }
        requires step { step < self.now.lane_width }
        ensures values { result ≡ sixteen_of (λ i. packed_value self.now.lane_width width self.now.numbers (16 * group + i) step) }
        ensures fit { Each1 (λ n. n < 2 ^ width) result }
    {
        match &self.stored {
            Stored::U8(words) => step_at(width, words.as_slice(), group, step),
            Stored::U16(words) => step_at(width, words.as_slice(), group, step),
            Stored::U32(words) => step_at(width, words.as_slice(), group, step),
            Stored::U64(words) => step_at(width, words.as_slice(), group, step),
        }
    }

    /// The value that the words pack at `width` bits at a lane, below `1024 / lane_width`, and a step, below the lane width.
    ///
    /// There are `width * lanes` words for `lanes = 1024 / lane_width`.
    pub fn value(&self, width: usize, lane: usize, step: usize) -> u64
        requires width { HasWidth self.now width }
        requires lane { lane < 1024 / self.now.lane_width }
        requires step { step < self.now.lane_width }
        ensures value { result ≡ packed_value self.now.lane_width width self.now.numbers lane step }
        ensures fits { result < 2 ^ width }
    {
        match &self.stored {
            Stored::U8(words) => value_at(width, words.as_slice(), lane, step),
            Stored::U16(words) => value_at(width, words.as_slice(), lane, step),
            Stored::U32(words) => value_at(width, words.as_slice(), lane, step),
            Stored::U64(words) => value_at(width, words.as_slice(), lane, step),
        }
    }

    /// The words of lanes of 8 bits. Their lane width has to be 8.
    pub fn words_8(&self) -> &[u8]
        requires { self.now.lane_width ≡ 8 }
        ensures { result.now ≡ self.now.numbers }
    {
        match &self.stored {
            Stored::U8(words) => words.as_slice(),
            _ => &[],
        }
    }

    /// The words of lanes of 16 bits. Their lane width has to be 16.
    pub fn words_16(&self) -> &[u16]
        requires { self.now.lane_width ≡ 16 }
        ensures { result.now ≡ self.now.numbers }
    {
        match &self.stored {
            Stored::U16(words) => words.as_slice(),
            _ => &[],
        }
    }

    /// The words of lanes of 32 bits. Their lane width has to be 32.
    pub fn words_32(&self) -> &[u32]
        requires { self.now.lane_width ≡ 32 }
        ensures { result.now ≡ self.now.numbers }
    {
        match &self.stored {
            Stored::U32(words) => words.as_slice(),
            _ => &[],
        }
    }

    /// The words of lanes of 64 bits. Their lane width has to be 64.
    pub fn words_64(&self) -> &[u64]
        requires { self.now.lane_width ≡ 64 }
        ensures { result.now ≡ self.now.numbers }
    {
        match &self.stored {
            Stored::U64(words) => words.as_slice(),
            _ => &[],
        }
    }

    /// A copy of the words in memory of its own. If memory is refused, an `AllocError`.
    pub fn copy(&self, alloc: Global) -> Result<Self, AllocError>
        ensures { IfOk result (λ words. words ≡ self.now) }
    {
        match &self.stored {
            Stored::U8(words) => Ok(Stored::U8(Vec::from_slice(
                alloc,
                words.as_slice(),
            )?).into_words()),
            Stored::U16(words) => Ok(Stored::U16(Vec::from_slice(
                alloc,
                words.as_slice(),
            )?).into_words()),
            Stored::U32(words) => Ok(Stored::U32(Vec::from_slice(
                alloc,
                words.as_slice(),
            )?).into_words()),
            Stored::U64(words) => Ok(Stored::U64(Vec::from_slice(
                alloc,
                words.as_slice(),
            )?).into_words()),
        }
    }
}
