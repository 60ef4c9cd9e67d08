//! Packed numbers of 32 bits, all 32 lanes of a step at once, by loops that the compiler makes vectors of.
ghost use Rattle.std.specs.Prelude.{◌≡◌, ◌==◌, ℕ, ◌+◌, ◌-◌, ◌*◌, ◌/◌, ◌%◌, ◌^◌, ◌<◌, ◌≤◌, ◌&&◌, ◌||◌, nat_le, length, slice_index, bit_or};
ghost use Rattle.std.specs.Int.{bit_at};
ghost use Rattle.transpose_order.specs.Mask.{rows_of};
ghost use Rattle.transpose_order.specs.Place.{lane_of, step_of};
ghost use Rattle.bit_interleave.specs.Packing.{packed_value};
ghost use Rattle.native_lanes.specs.Pairs.{number_passes};

use crate::pair_test::PairTest;
use transpose_order::Mask;

/// The `width` bits of a word from bit `shift` on.
#[inline(always)]
fn within_word(word: u32, shift: usize, width: usize) -> u32
    requires positive { 0 < width }
    requires width { width ≤ 32 }
    requires shift { shift < 32 }
    ensures { result ≡ word / 2 ^ shift % 2 ^ width }
{
    let ones = u64::MAX >> (64 - width);
    (u64::from(word >> shift) & ones) as u32
}

/// The `width` bits from bit `shift` of a low word on, which go on in a high one.
#[inline(always)]
fn across_words(low: u32, high: u32, shift: usize, width: usize) -> u32
    requires positive { 0 < width }
    requires width { width ≤ 32 }
    requires some { 0 < shift }
    requires shift { shift < 32 }
    ensures { result ≡ bit_or (low / 2 ^ shift) (high * 2 ^ (32 - shift) % 2 ^ 32) % 2 ^ width }
{
    let ones = u64::MAX >> (64 - width);
    (u64::from(low >> shift | high << (32 - shift)) & ones) as u32
}

/// The numbers of all lanes at a step, of 32 words for each bit of the width.
#[inline(always)]
pub(crate) fn numbers_32(width: usize, words: &[u32], step: usize) -> [u32; 32]
    requires width { width ≤ 32 }
    requires words { length words.now ≡ width * 32 }
    requires step { step < 32 }
    ensures { (lane : ℕ) → lane < 32 → slice_index result lane ≡ packed_value 32 width words.now lane step }
{
    let mut numbers = [0; 32];
    if width == 0 {
        return numbers;
    }
    let bit = step * width;
    let shift = bit % 32;
    let at = bit / 32 * 32;
    if shift + width <= 32 {
        for i in 0..32 {
            numbers[i] = within_word(words[at + i], shift, width);
        }
        return numbers;
    }
    for i in 0..32 {
        numbers[i] = across_words(words[at + i], words[at + 32 + i], shift, width);
    }
    numbers
}

/// Whether a number plus an offset, modulo two to the power of 32, is at most a span.
#[inline(always)]
fn is_within(number: u32, offset: u32, span: u32) -> bool
    ensures { result ≡ nat_le ((number + offset) % 2 ^ 32) span }
{
    number.wrapping_add(offset) <= span
}

/// A lane's bits, with the bit of a step set if that is asked.
#[inline(always)]
fn with_step(bits: u32, step: usize, set: bool) -> u32
    requires { step < 32 }
    ensures { (r : ℕ) → r < 32 → (bit_at result r == 1) ≡ ((set && (r == step)) || (bit_at bits r == 1)) }
{
    bits | u32::from(set) << step
}

/// Sets a step's bit of each lane whose number plus an offset, modulo two to the power of 32, is at most a span.
#[inline(always)]
pub(crate) fn mark(marks: &mut [u32; 32], numbers: &[u32; 32], offset: u32, span: u32, step: usize)
    requires { step < 32 }
    ensures { (lane r : ℕ) → lane < 32 → r < 32 → (bit_at (slice_index marks.new lane) r == 1)
        ≡ ((nat_le ((slice_index numbers.now lane + offset) % 2 ^ 32) span && (r == step)) || (bit_at (slice_index marks.old lane) r == 1)) }
{
    for i in 0..32 {
        marks[i] = with_step(marks[i], step, is_within(numbers[i], offset, span));
    }
}

/// Whether a number and another pass a test.
#[inline(always)]
fn passes(test: PairTest, number: u32, other: u32) -> bool
    ensures { result ≡ number_passes test number other }
{
    match test {
        PairTest::Equal => number == other,
        PairTest::Less => number < other,
    }
}

/// Sets a step's bit of each lane whose number and another pass a test.
#[inline(always)]
pub(crate) fn mark_beside(
    marks: &mut [u32; 32],
    test: PairTest,
    numbers: &[u32; 32],
    others: &[u32; 32],
    step: usize,
)
    requires { step < 32 }
    ensures { (lane r : ℕ) → lane < 32 → r < 32 → (bit_at (slice_index marks.new lane) r == 1)
        ≡ ((number_passes test (slice_index numbers.now lane) (slice_index others.now lane) && (r == step)) || (bit_at (slice_index marks.old lane) r == 1)) }
{
    for i in 0..32 {
        marks[i] = with_step(marks[i], step, passes(test, numbers[i], others[i]));
    }
}

/// For each lane, the bits of the steps at which the number plus an offset, modulo two to the power of 32, is at most a span.
fn packed_marks(width: usize, words: &[u32], offset: u32, span: u32) -> [u32; 32]
    requires width { width ≤ 32 }
    requires words { length words.now ≡ width * 32 }
    ensures { (lane step : ℕ) → lane < 32 → step < 32 → (bit_at (slice_index result lane) step == 1)
        ≡ nat_le ((packed_value 32 width words.now lane step + offset) % 2 ^ 32) span }
{
    let mut marks = [0; 32];
    for step in 0..32 {
        let numbers = numbers_32(width, words, step);
        mark(&mut marks, &numbers, offset, span, step);
    }
    marks
}

/// The 32 bits of a lane below those of other lanes.
#[inline(always)]
fn above(high: u64, low: u32) -> u64
    requires { high < 2 ^ 32 }
    ensures { result ≡ high * 2 ^ 32 + low }
{
    high * 0x1_0000_0000 + u64::from(low)
}

/// The bits of the rows of word `j` of a mask, which are in two lanes.
#[inline(always)]
fn word_of_lanes(marks: &[u32; 32], j: usize) -> u64
    requires { j < 16 }
    ensures { (p : ℕ) → p < 64 → bit_at result p ≡ bit_at (slice_index marks.now (lane_of 32 (64 * j + p))) (p % 32) }
{
    above(u64::from(marks[16 + j]), marks[j])
}

/// The mask whose rows are the bits of 32 lanes, one for each of 32 steps.
pub(crate) fn mask_of_lanes(marks: &[u32; 32]) -> Mask
    ensures { result ≡ rows_of (λ n. bit_at (slice_index marks.now (lane_of 32 n)) (step_of 32 n) == 1) }
{
    let mut words = [0; 16];
    for j in 0..16 {
        words[j] = word_of_lanes(marks, j);
    }
    Mask::from_words(words)
}

/// The rows whose packed number is neither below `first` nor above `last`, of 32 words for each bit of the width.
pub(crate) fn rows_between_32(width: usize, words: &[u32], first: u32, last: u32) -> Mask
    requires width { width ≤ 32 }
    requires words { length words.now ≡ width * 32 }
    requires order { first ≤ last }
    ensures { result ≡ rows_of (λ n. nat_le first (packed_value 32 width words.now (lane_of 32 n) (step_of 32 n))
        && nat_le (packed_value 32 width words.now (lane_of 32 n) (step_of 32 n)) last) }
{
    let offset = 0_u32.wrapping_sub(first);
    let found = packed_marks(width, words, offset, last - first);
    mask_of_lanes(&found)
}
