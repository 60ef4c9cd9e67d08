//! Values to packed words, a word at a time.
ghost use Rattle.std.specs.Prelude.{◌≡◌, ℕ, ◌+◌, ◌*◌, ◌/◌, ◌%◌, ◌<◌, ◌≤◌, ◌^◌, map, length, slice_index};
ghost use Rattle.std.specs.List.{All};
ghost use Rattle.transpose_order.specs.Place.{IsLaneWidth};
ghost use Rattle.bit_interleave.specs.Packing.{packed_word, packed};

use crate::lane_word::LaneWord;
use transpose_order::row_at;

/// Word `word` of a lane.
#[inline(always)]
fn word_of<V: LaneWord>(
    lane_width: usize,
    width: usize,
    values: &[V; 1024],
    lane: usize,
    word: usize,
) -> u64
    requires lane_width { IsLaneWidth lane_width }
    requires width { width ≤ lane_width }
    requires fit { All (λ v. V.number v < 2 ^ width) values.now }
    requires lane { lane < 1024 / lane_width }
    requires word { word < width }
    ensures value { result ≡ packed_word lane_width width (map V.number values.now) lane word }
    ensures fits { result < 2 ^ lane_width }
{
    let first = row_at(lane_width, lane, 0);
    let start = word * lane_width;
    let begin = start / width;
    let end = (start + lane_width - 1) / width + 1;
    let mut bits = values[first + begin].to_u64() >> (start % width);
    for step in begin + 1..end {
        bits |= values[first + step].to_u64() << (step * width - start);
    }
    bits & (u64::MAX >> (64 - lane_width))
}

/// Writes word `word` of each lane.
#[inline(always)]
fn pack_word<V: LaneWord, U: LaneWord>(
    width: usize,
    values: &[V; 1024],
    word: usize,
    words: &mut [U],
)
    requires width { width ≤ U.BITS }
    requires fit { All (λ v. V.number v < 2 ^ width) values.now }
    requires words { length words.old ≡ width * (1024 / U.BITS) }
    requires word { word < width }
    ensures written { (lane : ℕ) → lane < 1024 / U.BITS → slice_index (map U.number words.new) (word * (1024 / U.BITS) + lane) ≡ packed_word U.BITS width (map V.number values.now) lane word }
    ensures before { (i : ℕ) → i < word * (1024 / U.BITS) → slice_index (map U.number words.new) i ≡ slice_index (map U.number words.old) i }
{
    let bits = U::BITS;
    let lanes = 1024 / bits;
    for lane in 0..lanes {
        let number = word_of(bits, width, values, lane, word);
        words[word * lanes + lane] = U::from_u64(number);
    }
}

/// The words that pack 1024 values of `W` bits in row order, given in words of any type. With the width known, the compiler
/// unrolls the loop over the values in a word.
fn pack_constant<V: LaneWord, U: LaneWord, const W: usize>(values: &[V; 1024], words: &mut [U])
    requires width { W ≤ U.BITS }
    requires fit { All (λ v. V.number v < 2 ^ W) values.now }
    requires words { length words.old ≡ W * (1024 / U.BITS) }
    ensures { map U.number words.new ≡ packed U.BITS W (map V.number values.now) }
{
    // By what is required this is never so; the compiler leaves out what follows if a lane does not have as many bits.
    if W > U::BITS {
        return;
    }
    for word in 0..W {
        pack_word(W, values, word, words);
    }
}

/// Packs at a width that is one of these numbers, so that it is known when the program is compiled.
macro_rules! at_constant_width {
    ($width:ident, $values:ident, $words:ident, $($w:literal)*, $last:literal) => {
        match $width {
            $($w => pack_constant::<V, U, $w>($values, $words),)*
            _ => pack_constant::<V, U, $last>($values, $words),
        }
    };
}

/// The words that pack 1024 values of `width` bits in row order, for a width from 0 to 15.
fn pack_narrowest<V: LaneWord, U: LaneWord>(width: usize, values: &[V; 1024], words: &mut [U])
    requires range { width ≤ 15 }
    requires width { width ≤ U.BITS }
    requires fit { All (λ v. V.number v < 2 ^ width) values.now }
    requires words { length words.old ≡ width * (1024 / U.BITS) }
    ensures { map U.number words.new ≡ packed U.BITS width (map V.number values.now) }
{
    at_constant_width!(width, values, words, 0 1 2 3 4 5 6 7 8 9 10 11 12 13 14, 15);
}

/// The words that pack 1024 values of `width` bits in row order, for a width from 16 to 31.
fn pack_narrow<V: LaneWord, U: LaneWord>(width: usize, values: &[V; 1024], words: &mut [U])
    requires range { 16 ≤ width }
    requires range_end { width ≤ 31 }
    requires width { width ≤ U.BITS }
    requires fit { All (λ v. V.number v < 2 ^ width) values.now }
    requires words { length words.old ≡ width * (1024 / U.BITS) }
    ensures { map U.number words.new ≡ packed U.BITS width (map V.number values.now) }
{
    at_constant_width!(width, values, words, 16 17 18 19 20 21 22 23 24 25 26 27 28 29 30, 31);
}

/// The words that pack 1024 values of `width` bits in row order, for a width from 32 to 47.
fn pack_wide<V: LaneWord, U: LaneWord>(width: usize, values: &[V; 1024], words: &mut [U])
    requires range { 32 ≤ width }
    requires range_end { width ≤ 47 }
    requires width { width ≤ U.BITS }
    requires fit { All (λ v. V.number v < 2 ^ width) values.now }
    requires words { length words.old ≡ width * (1024 / U.BITS) }
    ensures { map U.number words.new ≡ packed U.BITS width (map V.number values.now) }
{
    at_constant_width!(width, values, words, 32 33 34 35 36 37 38 39 40 41 42 43 44 45 46, 47);
}

/// The words that pack 1024 values of `width` bits in row order, for a width from 48 to 64.
fn pack_widest<V: LaneWord, U: LaneWord>(width: usize, values: &[V; 1024], words: &mut [U])
    requires range { 48 ≤ width }
    requires range_end { width ≤ 64 }
    requires width { width ≤ U.BITS }
    requires fit { All (λ v. V.number v < 2 ^ width) values.now }
    requires words { length words.old ≡ width * (1024 / U.BITS) }
    ensures { map U.number words.new ≡ packed U.BITS width (map V.number values.now) }
{
    at_constant_width!(width, values, words, 48 49 50 51 52 53 54 55 56 57 58 59 60 61 62 63, 64);
}

/// The words that pack 1024 values of `width` bits, 0 to `U::BITS`, in row order, given in words of any type: there are
/// `width * (1024 / U::BITS)` of them. The width is looked up once, among those that are known when it is compiled: by sixteens,
/// each of which is proved by itself.
pub(crate) fn pack_from<V: LaneWord, U: LaneWord>(width: usize, values: &[V; 1024], words: &mut [U])
    requires width { width ≤ U.BITS }
    requires fit { All (λ v. V.number v < 2 ^ width) values.now }
    requires words { length words.old ≡ width * (1024 / U.BITS) }
    ensures { map U.number words.new ≡ packed U.BITS width (map V.number values.now) }
{
    match width / 16 {
        0 => pack_narrowest(width, values, words),
        1 => pack_narrow(width, values, words),
        2 => pack_wide(width, values, words),
        _ => pack_widest(width, values, words),
    }
}

/// The words that pack 1024 values of `width` bits in row order.
///
/// The width is 0 to `U::BITS`, and each value is below two to the power of `width`. There are `width * lanes` words for
/// `lanes = 1024 / U::BITS` lanes; word `w` of lane `l` is word `w * lanes + l`. At width 0 there are no words.
pub fn pack_at<U: LaneWord>(width: usize, values: &[U; 1024], words: &mut [U])
    requires width { width ≤ U.BITS }
    requires fit { All (λ v. U.number v < 2 ^ width) values.now }
    requires words { length words.old ≡ width * (1024 / U.BITS) }
    ensures { map U.number words.new ≡ packed U.BITS width (map U.number values.now) }
{
    pack_from(width, values, words);
}

/// The words that pack 1024 values of `W` bits in row order.
///
/// `W` is 0 to `U::BITS`, and each value is below two to the power of `W`. There are `W * lanes` words for
/// `lanes = 1024 / U::BITS` lanes; word `w` of lane `l` is word `w * lanes + l`. At width 0 there are no words.
pub fn pack<U: LaneWord, const W: usize>(values: &[U; 1024], words: &mut [U])
    requires width { W ≤ U.BITS }
    requires fit { All (λ v. U.number v < 2 ^ W) values.now }
    requires words { length words.old ≡ W * (1024 / U.BITS) }
    ensures { map U.number words.new ≡ packed U.BITS W (map U.number values.now) }
{
    pack_constant::<U, U, W>(values, words);
}
