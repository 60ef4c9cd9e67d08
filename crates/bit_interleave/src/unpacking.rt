//! Packed words to values, sixteen lanes at a time.
ghost use Rattle.std.specs.Prelude.{◌≡◌, ℕ, ◌+◌, ◌*◌, ◌/◌, ◌%◌, ◌<◌, ◌≤◌, ◌^◌, map, length, slice_index, bit_or, ◌≢◌};
ghost use Rattle.std.specs.Simd.Lanes.{Each1, zip2};
ghost use Rattle.bit_interleave.specs.Packing.{sixteen_of, packed_value, unpacked};
ghost use Rattle.bit_interleave.specs.Places.{by_place};

use crate::lane_word::LaneWord;
use std::simd::prelude::*;
use transpose_order::place_in_word;

/// Sixteen of the values that words pack at `width` bits, 0 to `U::BITS`: element i is the value at lane `16 * group + i` and this step.
///
/// There are `width * lanes` words for `lanes = 1024 / U::BITS` lanes; word `w` of lane `l` is word `w * lanes + l`.
/// The group is below `lanes / 16`, and the step below `U::BITS`.
pub fn step_at<U: LaneWord>(width: usize, words: &[U], group: usize, step: usize) -> Simd<u64, 16>
    requires width { width ≤ U.BITS }
    requires words { length words.now ≡ width * (1024 / U.BITS) }
    requires group { 16 * group < 1024 / U.BITS }
    requires step { step < U.BITS }
    ensures values { result ≡ sixteen_of (λ i. packed_value U.BITS width (map U.number words.now) (16 * group + i) step) }
    ensures fit { Each1 (λ n. n < 2 ^ width) result }
{
    if width == 0 {
        return Simd::splat(0);
    }
    let bits = U::BITS;
    let lanes = 1024 / bits;
    let bit = step * width;
    let shift = bit % bits;
    let at = bit / bits * lanes + 16 * group;
    if shift + width <= bits {
        return U::within(words, at, shift, width);
    }
    U::across(words, at, at + lanes, shift, width)
}

/// Sixteen of the values that words pack at `W` bits, 0 to `U::BITS`: element i is the value at lane `16 * group + i`
/// and this step.
///
/// There are `W * lanes` words for `lanes = 1024 / U::BITS` lanes; word `w` of lane `l` is word `w * lanes + l`.
/// The group is below `lanes / 16`, and the step below `U::BITS`.
pub fn step<U: LaneWord, const W: usize>(words: &[U], group: usize, step: usize) -> Simd<u64, 16>
    requires width { W ≤ U.BITS }
    requires words { length words.now ≡ W * (1024 / U.BITS) }
    requires group { 16 * group < 1024 / U.BITS }
    requires step { step < U.BITS }
    ensures values { result ≡ sixteen_of (λ i. packed_value U.BITS W (map U.number words.now) (16 * group + i) step) }
    ensures fit { Each1 (λ n. n < 2 ^ W) result }
{
    step_at(W, words, group, step)
}

/// The value that words pack at `width` bits, 0 to `U::BITS`, at a lane and a step.
pub(crate) fn value_at<U: LaneWord>(width: usize, words: &[U], lane: usize, step: usize) -> u64
    requires width { width ≤ U.BITS }
    requires words { length words.now ≡ width * (1024 / U.BITS) }
    requires lane { lane < 1024 / U.BITS }
    requires step { step < U.BITS }
    ensures value { result ≡ packed_value U.BITS width (map U.number words.now) lane step }
    ensures fits { result < 2 ^ width }
{
    if width == 0 {
        return 0;
    }
    let bits = U::BITS;
    let lanes = 1024 / bits;
    let bit = step * width;
    let shift = bit % bits;
    let at = bit / bits * lanes + lane;
    let mask = u64::MAX >> (64 - width);
    let low = words[at].to_u64();
    if shift + width <= bits {
        return low >> shift & mask;
    }
    let high = words[at + lanes].to_u64();
    (low >> shift | high << (bits - shift)) & mask
}

/// Writes the sixteen lanes of a piece to its rows, which are at one place of each 64.
fn put_piece<V: LaneWord>(lanes: Simd<u64, 16>, place: usize, values: &mut [V; 1024])
    requires lanes { length lanes ≡ 16 }
    requires fit { Each1 (λ n. n < 2 ^ V.BITS) lanes }
    requires place { place < 64 }
    ensures long { length values.new ≡ 1024 }
    ensures written { (i : ℕ) → i < 16 → slice_index (map V.number values.new) (64 * i + place) ≡ slice_index lanes i }
    ensures others { (n : ℕ) → n % 64 ≢ place → slice_index (map V.number values.new) n ≡ slice_index (map V.number values.old) n }
{
    let numbers = lanes.to_array();
    for i in 0..16 {
        values[64 * i + place] = V::from_u64(numbers[i]);
    }
}

/// The 1024 values in row order of words packed at `width` bits, in words of a type that they fit.
pub(crate) fn unpack_into<U: LaneWord, V: LaneWord>(
    width: usize,
    words: &[U],
    values: &mut [V; 1024],
)
    requires width { width ≤ U.BITS }
    requires fit { width ≤ V.BITS }
    requires words { length words.now ≡ width * (1024 / U.BITS) }
    ensures { map V.number values.new ≡ unpacked U.BITS width (map U.number words.now) }
{
    let bits = U::BITS;
    for piece in 0..64 {
        let lanes = step_at(width, words, piece / bits, piece % bits);
        put_piece(lanes, place_in_word(bits, piece), values);
    }
}

/// Writes the sixteen numbers of a place, 0 to 63, of numbers by places: they are one after another, from sixteen times the place on.
pub fn put_place(lanes: Simd<u64, 16>, place: usize, numbers: &mut [u64; 1024])
    requires lanes { length lanes ≡ 16 }
    requires place { place < 64 }
    ensures long { length numbers.new ≡ 1024 }
    ensures written { (i : ℕ) → i < 16 → slice_index numbers.new (16 * place + i) ≡ slice_index lanes i }
    ensures others { (n : ℕ) → n / 16 ≢ place → slice_index numbers.new n ≡ slice_index numbers.old n }
{
    let sixteen = lanes.to_array();
    for i in 0..16 {
        numbers[16 * place + i] = sixteen[i];
    }
}

/// The 1024 values of words packed at `width` bits, place by place: number `16 * p + i` is the value at row `64 * i + p`.
pub fn unpack_by_places<U: LaneWord>(width: usize, words: &[U], numbers: &mut [u64; 1024])
    requires width { width ≤ U.BITS }
    requires words { length words.now ≡ width * (1024 / U.BITS) }
    ensures long { length numbers.new ≡ 1024 }
    ensures numbers { (n : ℕ) → n < 1024 → by_place numbers.new n ≡ slice_index (unpacked U.BITS width (map U.number words.now)) n }
{
    let bits = U::BITS;
    for piece in 0..64 {
        let lanes = step_at(width, words, piece / bits, piece % bits);
        put_place(lanes, place_in_word(bits, piece), numbers);
    }
}

/// The 1024 values in row order of words packed at `width` bits, 0 to `U::BITS`.
///
/// There are `width * lanes` words for `lanes = 1024 / U::BITS` lanes; word `w` of lane `l` is word `w * lanes + l`.
/// At width 0 there are no words, and every value is 0.
pub fn unpack_at<U: LaneWord>(width: usize, words: &[U], values: &mut [U; 1024])
    requires width { width ≤ U.BITS }
    requires words { length words.now ≡ width * (1024 / U.BITS) }
    ensures { map U.number values.new ≡ unpacked U.BITS width (map U.number words.now) }
{
    unpack_into(width, words, values);
}

/// The 1024 values in row order of words packed at `W` bits, 0 to `U::BITS`.
///
/// There are `W * lanes` words for `lanes = 1024 / U::BITS` lanes; word `w` of lane `l` is word `w * lanes + l`.
/// At width 0 there are no words, and every value is 0.
pub fn unpack<U: LaneWord, const W: usize>(words: &[U], values: &mut [U; 1024])
    requires width { W ≤ U.BITS }
    requires words { length words.now ≡ W * (1024 / U.BITS) }
    ensures { map U.number values.new ≡ unpacked U.BITS W (map U.number words.now) }
{
    unpack_into(W, words, values);
}
