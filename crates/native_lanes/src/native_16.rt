//! Packed numbers of 16 bits, all 64 lanes of a step at once, by loops that the compiler makes vectors of.
ghost use Rattle.std.specs.Prelude.{◌≡◌, ◌==◌, ℕ, ◌+◌, ◌-◌, ◌*◌, ◌/◌, ◌%◌, ◌^◌, ◌<◌, ◌≤◌, ◌&&◌, ◌||◌, nat_le, length, slice_index, bit_or};
ghost use Rattle.std.specs.Int.{bit_at};
ghost use Rattle.transpose_order.specs.Mask.{rows_of};
ghost use Rattle.transpose_order.specs.Place.{lane_of, step_of};
ghost use Rattle.bit_interleave.specs.Packing.{packed_value};
ghost use Rattle.native_lanes.specs.Pairs.{number_passes};

use crate::pair_test::PairTest;
use transpose_order::Mask;

/// The `width` bits of a word from bit `shift` on.
#[inline(always)]
fn within_word(word: u16, shift: usize, width: usize) -> u16
    requires positive { 0 < width }
    requires width { width ≤ 16 }
    requires shift { shift < 16 }
    ensures { result ≡ word / 2 ^ shift % 2 ^ width }
{
    let ones = u64::MAX >> (64 - width);
    (u64::from(word >> shift) & ones) as u16
}

/// The `width` bits from bit `shift` of a low word on, which go on in a high one.
#[inline(always)]
fn across_words(low: u16, high: u16, shift: usize, width: usize) -> u16
    requires positive { 0 < width }
    requires width { width ≤ 16 }
    requires some { 0 < shift }
    requires shift { shift < 16 }
    ensures { result ≡ bit_or (low / 2 ^ shift) (high * 2 ^ (16 - shift) % 2 ^ 16) % 2 ^ width }
{
    let ones = u64::MAX >> (64 - width);
    (u64::from(low >> shift | high << (16 - shift)) & ones) as u16
}

/// The numbers of all 64 lanes of 16 bits at a step, 0 to 15, from words packed in the manner of FastLanes (VLDB 2023), of which
/// there are 64 for each bit of the width, 0 to 16.
#[inline(always)]
pub fn numbers_16(width: usize, words: &[u16], step: usize) -> [u16; 64]
    requires width { width ≤ 16 }
    requires words { length words.now ≡ width * 64 }
    requires step { step < 16 }
    ensures { (lane : ℕ) → lane < 64 → slice_index result lane ≡ packed_value 16 width words.now lane step }
{
    let mut numbers = [0; 64];
    if width == 0 {
        return numbers;
    }
    let bit = step * width;
    let shift = bit % 16;
    let at = bit / 16 * 64;
    if shift + width <= 16 {
        for i in 0..64 {
            numbers[i] = within_word(words[at + i], shift, width);
        }
        return numbers;
    }
    for i in 0..64 {
        numbers[i] = across_words(words[at + i], words[at + 64 + i], shift, width);
    }
    numbers
}

/// Whether a number plus an offset, modulo two to the power of 16, is at most a span.
#[inline(always)]
fn is_within(number: u16, offset: u16, span: u16) -> bool
    ensures { result ≡ nat_le ((number + offset) % 2 ^ 16) span }
{
    number.wrapping_add(offset) <= span
}

/// A lane's bits, with the bit of a step set if that is asked.
#[inline(always)]
fn with_step(bits: u16, step: usize, set: bool) -> u16
    requires { step < 16 }
    ensures { (r : ℕ) → r < 16 → (bit_at result r == 1) ≡ ((set && (r == step)) || (bit_at bits r == 1)) }
{
    bits | u16::from(set) << step
}

/// Sets a step's bit of each lane whose number plus an offset, modulo two to the power of 16, is at most a span.
#[inline(always)]
pub(crate) fn mark(marks: &mut [u16; 64], numbers: &[u16; 64], offset: u16, span: u16, step: usize)
    requires { step < 16 }
    ensures { (lane r : ℕ) → lane < 64 → r < 16 → (bit_at (slice_index marks.new lane) r == 1)
        ≡ ((nat_le ((slice_index numbers.now lane + offset) % 2 ^ 16) span && (r == step)) || (bit_at (slice_index marks.old lane) r == 1)) }
{
    for i in 0..64 {
        marks[i] = with_step(marks[i], step, is_within(numbers[i], offset, span));
    }
}

/// Whether a number and another pass a test.
#[inline(always)]
fn passes(test: PairTest, number: u16, other: u16) -> bool
    ensures { result ≡ number_passes test number other }
{
    match test {
        PairTest::Equal => number == other,
        PairTest::Less => number < other,
    }
}

/// Sets a step's bit of each lane whose number and another pass a test.
#[inline(always)]
pub(crate) fn mark_beside(
    marks: &mut [u16; 64],
    test: PairTest,
    numbers: &[u16; 64],
    others: &[u16; 64],
    step: usize,
)
    requires { step < 16 }
    ensures { (lane r : ℕ) → lane < 64 → r < 16 → (bit_at (slice_index marks.new lane) r == 1)
        ≡ ((number_passes test (slice_index numbers.now lane) (slice_index others.now lane) && (r == step)) || (bit_at (slice_index marks.old lane) r == 1)) }
{
    for i in 0..64 {
        marks[i] = with_step(marks[i], step, passes(test, numbers[i], others[i]));
    }
}

/// For each lane, the bits of the steps at which the number plus an offset, modulo two to the power of 16, is at most a span.
fn packed_marks(width: usize, words: &[u16], offset: u16, span: u16) -> [u16; 64]
    requires width { width ≤ 16 }
    requires words { length words.now ≡ width * 64 }
    ensures { (lane step : ℕ) → lane < 64 → step < 16 → (bit_at (slice_index result lane) step == 1)
        ≡ nat_le ((packed_value 16 width words.now lane step + offset) % 2 ^ 16) span }
{
    let mut marks = [0; 64];
    for step in 0..16 {
        let numbers = numbers_16(width, words, step);
        mark(&mut marks, &numbers, offset, span, step);
    }
    marks
}

/// The 16 bits of a lane below those of other lanes.
#[inline(always)]
fn above(high: u64, low: u16) -> u64
    requires { high < 2 ^ 48 }
    ensures { result ≡ high * 2 ^ 16 + low }
{
    high * 0x1_0000 + u64::from(low)
}

/// The bits of the rows of word `j` of a mask, which are in four lanes.
#[inline(always)]
fn word_of_lanes(marks: &[u16; 64], j: usize) -> u64
    requires { j < 16 }
    ensures { (p : ℕ) → p < 64 → bit_at result p ≡ bit_at (slice_index marks.now (lane_of 16 (64 * j + p))) (p % 16) }
{
    let last = above(u64::from(marks[48 + j]), marks[16 + j]);
    above(above(last, marks[32 + j]), marks[j])
}

/// The mask whose rows are the bits of 64 lanes, one for each of 16 steps.
pub(crate) fn mask_of_lanes(marks: &[u16; 64]) -> Mask
    ensures { result ≡ rows_of (λ n. bit_at (slice_index marks.now (lane_of 16 n)) (step_of 16 n) == 1) }
{
    let mut words = [0; 16];
    for j in 0..16 {
        words[j] = word_of_lanes(marks, j);
    }
    Mask::from_words(words)
}

/// The rows whose packed number is neither below `first` nor above `last`, of packed words as `numbers_16` takes them: 64 for each
/// bit of the width, 0 to 16.
pub fn rows_between_16(width: usize, words: &[u16], first: u16, last: u16) -> Mask
    requires width { width ≤ 16 }
    requires words { length words.now ≡ width * 64 }
    requires order { first ≤ last }
    ensures { result ≡ rows_of (λ n. nat_le first (packed_value 16 width words.now (lane_of 16 n) (step_of 16 n))
        && nat_le (packed_value 16 width words.now (lane_of 16 n) (step_of 16 n)) last) }
{
    let offset = 0_u16.wrapping_sub(first);
    let found = packed_marks(width, words, offset, last - first);
    mask_of_lanes(&found)
}
