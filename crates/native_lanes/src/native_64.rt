//! Packed numbers of 64 bits, all 16 lanes of a step at once, by loops that the compiler makes vectors of.
ghost use Rattle.std.specs.Prelude.{◌≡◌, ◌==◌, ℕ, ◌+◌, ◌-◌, ◌*◌, ◌/◌, ◌%◌, ◌^◌, ◌<◌, ◌≤◌, ◌&&◌, ◌||◌, nat_le, length, slice_index, bit_or};
ghost use Rattle.std.specs.Int.{bit_at};
ghost use Rattle.transpose_order.specs.Mask.{rows_of};
ghost use Rattle.transpose_order.specs.Place.{lane_of, step_of};
ghost use Rattle.bit_interleave.specs.Packing.{packed_value};
ghost use Rattle.native_lanes.specs.Pairs.{number_passes};
ghost use Rattle.native_lanes.specs.Walks.{half_on};

use crate::pair_test::PairTest;
use transpose_order::Mask;

/// The `width` bits of a word from bit `shift` on.
#[inline(always)]
fn within_word(word: u64, shift: usize, width: usize) -> u64
    requires positive { 0 < width }
    requires width { width ≤ 64 }
    requires shift { shift < 64 }
    ensures { result ≡ word / 2 ^ shift % 2 ^ width }
{
    let ones = u64::MAX >> (64 - width);
    word >> shift & ones
}

/// The `width` bits from bit `shift` of a low word on, which go on in a high one.
#[inline(always)]
fn across_words(low: u64, high: u64, shift: usize, width: usize) -> u64
    requires positive { 0 < width }
    requires width { width ≤ 64 }
    requires some { 0 < shift }
    requires shift { shift < 64 }
    ensures { result ≡ bit_or (low / 2 ^ shift) (high * 2 ^ (64 - shift) % 2 ^ 64) % 2 ^ width }
{
    let ones = u64::MAX >> (64 - width);
    (low >> shift | high << (64 - shift)) & ones
}

/// The 16 words from an index on.
#[inline(always)]
fn sixteen_from(words: &[u64], at: usize) -> &[u64]
    requires { at + 16 ≤ length words.now }
    ensures count { length result.now ≡ 16 }
    ensures words { (i : ℕ) → i < 16 → slice_index result.now i ≡ slice_index words.now (at + i) }
{
    &words[at..at + 16]
}

/// The numbers of all lanes at a step, of 16 words for each bit of the width.
#[inline(always)]
pub(crate) fn numbers_64(width: usize, words: &[u64], step: usize) -> [u64; 16]
    requires width { width ≤ 64 }
    requires words { length words.now ≡ width * 16 }
    requires step { step < 64 }
    ensures { (lane : ℕ) → lane < 16 → slice_index result lane ≡ packed_value 64 width words.now lane step }
{
    let mut numbers = [0; 16];
    if width == 0 {
        return numbers;
    }
    let bit = step * width;
    let shift = bit % 64;
    let at = bit / 64 * 16;
    let low = sixteen_from(words, at);
    if shift + width <= 64 {
        for i in 0..16 {
            numbers[i] = within_word(low[i], shift, width);
        }
        return numbers;
    }
    let high = sixteen_from(words, at + 16);
    for i in 0..16 {
        numbers[i] = across_words(low[i], high[i], shift, width);
    }
    numbers
}

/// Whether a number plus an offset, modulo two to the power of 64, is at most a span.
#[inline(always)]
fn is_within(number: u64, offset: u64, span: u64) -> bool
    ensures { result ≡ nat_le ((number + offset) % 2 ^ 64) span }
{
    number.wrapping_add(offset) <= span
}

/// A word of 64 bits, with the bit of a place, below 64, set if that is asked.
#[inline(always)]
pub fn with_bit(word: u64, place: usize, set: bool) -> u64
    requires { place < 64 }
    ensures { (p : ℕ) → p < 64 → (bit_at result p == 1) ≡ ((set && (p == place)) || (bit_at word p == 1)) }
{
    let bit = 1 << place;
    if set { word | bit } else { word }
}

/// Sets a step's bit of each lane whose number plus an offset, modulo two to the power of 64, is at most a span.
#[inline(always)]
pub(crate) fn mark(marks: &mut [u64; 16], numbers: &[u64; 16], offset: u64, span: u64, step: usize)
    requires { step < 64 }
    ensures { (lane r : ℕ) → lane < 16 → r < 64 → (bit_at (slice_index marks.new lane) r == 1)
        ≡ ((nat_le ((slice_index numbers.now lane + offset) % 2 ^ 64) span && (r == step)) || (bit_at (slice_index marks.old lane) r == 1)) }
{
    for i in 0..16 {
        marks[i] = with_bit(marks[i], step, is_within(numbers[i], offset, span));
    }
}

/// A number plus half of the numbers of 64 bits, modulo two to the power of 64: it is shifted by half. Two numbers that are shifted
/// by half compare as signed numbers, for which there is an instruction.
#[inline(always)]
pub(crate) fn half_on(number: u64) -> u64
    ensures { result ≡ half_on number }
{
    number.wrapping_add(1 << 63)
}

/// Whether a number and another pass a test, once both are shifted by half.
#[inline(always)]
fn passes(test: PairTest, number: u64, other: u64) -> bool
    ensures { result ≡ number_passes test (half_on number) (half_on other) }
{
    match test {
        PairTest::Equal => half_on(number) == half_on(other),
        PairTest::Less => half_on(number) < half_on(other),
    }
}

/// Sets a step's bit of each lane whose number and another pass a test, once both are shifted by half.
#[inline(always)]
pub(crate) fn mark_beside(
    marks: &mut [u64; 16],
    test: PairTest,
    numbers: &[u64; 16],
    others: &[u64; 16],
    step: usize,
)
    requires { step < 64 }
    ensures { (lane r : ℕ) → lane < 16 → r < 64 → (bit_at (slice_index marks.new lane) r == 1)
        ≡ ((number_passes test (half_on (slice_index numbers.now lane)) (half_on (slice_index others.now lane)) && (r == step)) || (bit_at (slice_index marks.old lane) r == 1)) }
{
    for i in 0..16 {
        marks[i] = with_bit(marks[i], step, passes(test, numbers[i], others[i]));
    }
}

/// The mask whose rows are the bits of 16 lanes, one for each of 64 steps.
pub(crate) fn mask_of_lanes(marks: &[u64; 16]) -> Mask
    ensures { result ≡ rows_of (λ n. bit_at (slice_index marks.now (lane_of 64 n)) (step_of 64 n) == 1) }
{
    Mask::from_words(*marks)
}
