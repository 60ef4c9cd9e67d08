//! Lanes of 16 bits gone through step by step, all 64 of them at once, by loops that the compiler makes vectors of.
ghost use Rattle.std.specs.Prelude.{◌≡◌, ◌==◌, ℕ, suc, ◌+◌, ◌-◌, ◌*◌, ◌/◌, ◌%◌, ◌^◌, ◌<◌, ◌≤◌, ◌&&◌, cond, length, slice_index, nat_le, min, max, FitsSigned, ℤ, int_lt, pos, ◌+ℤ◌, Some, None};
ghost use Rattle.std.specs.Int.{bit_at, w16};
ghost use Rattle.transpose_order.specs.Mask.{has, rows_of};
ghost use Rattle.transpose_order.specs.Place.{row_at};
ghost use Rattle.bit_interleave.specs.Packing.{packed_value};
ghost use Rattle.bit_interleave.specs.Range.{value_at};
ghost use Rattle.frame_delta.specs.Frame.{frame_value};
ghost use Rattle.frame_delta.specs.Delta.{delta_value};
ghost use Rattle.native_lanes.specs.Extremes.{extreme_at};
ghost use Rattle.native_lanes.specs.Folds.{fold_to};
ghost use Rattle.native_lanes.specs.Between.{between};
ghost use Rattle.native_lanes.specs.Pairs.{number_passes, value_passes};
ghost use Rattle.native_lanes.specs.Walks.{number_before, number_at, number_of_row, turned};

use crate::native_16::{mark, mark_beside, mask_of_lanes, numbers_16};
use crate::pair_test::PairTest;
use crate::raised::{raised_range, value_above};
use crate::written_16::put_step;
use frame_delta::{Delta, For};
use std::marker::Model;
use table_model::Extreme;
use transpose_order::Mask;

/// A walk through the 64 lanes of packed words of 16 bits, step by step. At each step a lane's number is the sum of the number
/// carried from the step before, if it is carried, of what is added, and of the packed number, modulo two to the power of 16.
#[derive(Drop)]
pub struct Walk16<'a> {
    width: usize,
    words: &'a [u16],
    carried: bool,
    starts: [u16; 64],
    added: u16,
}

impl<'a> Model for Walk16<'a> {
    ghost use Rattle.std.specs.Prelude.{◌≡◌, ◌*◌, ◌≤◌, length};
    ghost use Rattle.native_lanes.specs.Walks.{Walk};

    ghost Value = { Walk };

    ghost view = { λ w. record { lane_width = 16; width = w.width; words = w.words.now; carried = w.carried; starts = w.starts; added = w.added } };

    ghost invariant = { λ w. (w.width ≤ 16) × (length w.words.now ≡ w.width * 64) };
}

/// The sum of what is carried, if it is, of what is added and of the packed number, modulo two to the power of 16.
#[inline(always)]
fn stepped(carried: bool, before: u16, added: u16, number: u16) -> u16
    ensures { result ≡ (cond carried before 0 + added + number) % 2 ^ 16 }
{
    let start = if carried { before } else { 0 };
    start.wrapping_add(added).wrapping_add(number)
}

/// Takes the numbers of all lanes one step on.
#[inline(always)]
fn advance(numbers: &mut [u16; 64], packed: &[u16; 64], carried: bool, added: u16)
    ensures { (lane : ℕ) → lane < 64 → slice_index numbers.new lane
        ≡ (cond carried (slice_index numbers.old lane) 0 + added + slice_index packed.now lane) % 2 ^ 16 }
{
    for i in 0..64 {
        numbers[i] = stepped(carried, numbers[i], added, packed[i]);
    }
}

/// A number if a lane's bit of a step is set, otherwise another.
#[inline(always)]
fn chosen(bits: u16, step: usize, number: u16, other: u16) -> u16
    requires { step < 16 }
    ensures { result ≡ cond (bit_at bits step == 1) number other }
{
    if bits >> step & 1 == 1 { number } else { other }
}

/// For each lane whose bit of a step is set, adds the low and the high 8 bits of its number to two sums.
#[inline(always)]
fn add_parts(
    low: &mut [u16; 64],
    high: &mut [u16; 64],
    numbers: &[u16; 64],
    rows: &[u16; 64],
    step: usize,
)
    requires step { step < 16 }
    requires low { (lane : ℕ) → lane < 64 → slice_index low.old lane ≤ 2 ^ 15 }
    requires high { (lane : ℕ) → lane < 64 → slice_index high.old lane ≤ 2 ^ 15 }
    ensures low { (lane : ℕ) → lane < 64 → slice_index low.new lane
        ≡ slice_index low.old lane + cond (bit_at (slice_index rows.now lane) step == 1) (slice_index numbers.now lane) 0 % 2 ^ 8 }
    ensures high { (lane : ℕ) → lane < 64 → slice_index high.new lane
        ≡ slice_index high.old lane + cond (bit_at (slice_index rows.now lane) step == 1) (slice_index numbers.now lane) 0 / 2 ^ 8 }
{
    for i in 0..64 {
        let number = chosen(rows[i], step, numbers[i], 0);
        low[i] += number & 0xFF;
        high[i] += number >> 8;
    }
}

/// The sum of the sums of 64 lanes.
fn sum_of_lanes(sums: &[u16; 64]) -> u64
    ensures sum { result ≡ fold_to ◌+◌ 0 64 (slice_index sums.now) }
    ensures bound { result ≤ 2 ^ 22 }
{
    let mut sum = 0;
    for i in 0..64 {
        sum += u64::from(sums[i]);
    }
    sum
}

/// A number, or, if `flipped` is true, how far it is below the greatest of 16 bits.
#[inline(always)]
fn turned(flipped: bool, number: u16) -> u16
    ensures { result ≡ turned 16 flipped number }
{
    if flipped { u16::MAX - number } else { number }
}

/// Raises each lane's number so far to the lane's number, flipped if that is asked, if its bit of a step is set.
#[inline(always)]
fn raise(
    greatests: &mut [u16; 64],
    flipped: bool,
    numbers: &[u16; 64],
    rows: &[u16; 64],
    step: usize,
)
    requires { step < 16 }
    ensures { (lane : ℕ) → lane < 64 → slice_index greatests.new lane
        ≡ max (slice_index greatests.old lane) (cond (bit_at (slice_index rows.now lane) step == 1) (turned 16 flipped (slice_index numbers.now lane)) 0) }
{
    for i in 0..64 {
        let number = chosen(rows[i], step, turned(flipped, numbers[i]), 0);
        greatests[i] = greatests[i].max(number);
    }
}

/// The greatest of the numbers of 64 lanes.
fn greatest_of_lanes(numbers: &[u16; 64]) -> u16
    ensures { result ≡ fold_to max 0 64 (slice_index numbers.now) }
{
    let mut greatest: u16 = 0;
    for i in 0..64 {
        greatest = greatest.max(numbers[i]);
    }
    greatest
}

/// The 16 bits of a word from bit `shift` on.
#[inline(always)]
fn bits_from(word: u64, shift: usize) -> u16
    requires { shift < 64 }
    ensures { result ≡ word / 2 ^ shift % 2 ^ 16 }
{
    (word >> shift & 0xFFFF) as u16
}

/// Writes a group of sixteen lanes, each with the bits of a word from bit `shift` on.
#[inline(always)]
fn put_group(lanes: &mut [u16; 64], words: &[u64; 16], group: usize, shift: usize)
    requires group { group < 4 }
    requires shift { shift < 64 }
    ensures here { (j : ℕ) → j < 16 → slice_index lanes.new (16 * group + j) ≡ slice_index words.now j / 2 ^ shift % 2 ^ 16 }
    ensures before { (lane : ℕ) → lane < 16 * group → slice_index lanes.new lane ≡ slice_index lanes.old lane }
{
    for j in 0..16 {
        lanes[16 * group + j] = bits_from(words[j], shift);
    }
}

/// The bits of a mask's rows in the 64 lanes of 16 bits: bit `step` of a lane is that of the row at that place.
pub fn lanes_of_mask_16(mask: &Mask) -> [u16; 64]
    ensures { (lane step : ℕ) → lane < 64 → step < 16 → (bit_at (slice_index result lane) step == 1) ≡ has mask.now (row_at 16 lane step) }
{
    let words = mask.words();
    let mut lanes = [0; 64];
    for group in 0..4 {
        put_group(&mut lanes, words, group, 16 * (group % 2 * 2 + group / 2));
    }
    lanes
}

impl<'a> Walk16<'a> {
    /// The walk through these words, of which there are 64 for each bit of the width, 0 to 16.
    pub fn new(width: usize, words: &'a [u16], carried: bool, starts: [u16; 64], added: u16) -> Self
        requires width { width ≤ 16 }
        requires words { length words.now ≡ width * 64 }
        ensures { result ≡ record { lane_width = 16; width = width; words = words.now; carried = carried; starts = starts; added = added } }
    {
        Walk16 {
            width,
            words,
            carried,
            starts,
            added,
        }
    }

    /// Takes the numbers of all lanes from those before a step to those at it.
    #[inline(always)]
    fn go(&self, step: usize, numbers: &mut [u16; 64])
        requires step { step < 16 }
        requires before { (lane : ℕ) → lane < 64 → slice_index numbers.old lane ≡ number_before self.now lane step }
        ensures { (lane : ℕ) → lane < 64 → slice_index numbers.new lane ≡ number_at self.now lane step }
    {
        let packed = numbers_16(self.width, self.words, step);
        advance(numbers, &packed, self.carried, self.added);
    }

    /// The sum of the numbers of a mask's rows.
    #[inline(always)]
    pub(crate) fn sum(&self, rows: &Mask) -> u128
        ensures sum { result ≡ fold_to ◌+◌ 0 1024 (λ n. cond (has rows.now n) (number_of_row self.now n) 0) }
        ensures bound { result ≤ 2 ^ 80 }
    {
        let lanes = lanes_of_mask_16(rows);
        let mut numbers = self.starts;
        let mut low = [0; 64];
        let mut high = [0; 64];
        for step in 0..16 {
            self.go(step, &mut numbers);
            add_parts(&mut low, &mut high, &numbers, &lanes, step);
        }
        u128::from(sum_of_lanes(&low)) + u128::from(sum_of_lanes(&high)) * 0x100
    }

    /// The sum of the values of a mask's rows; each row's number is how far its value is above the least of 16 bits.
    #[inline(always)]
    pub(crate) fn sum_of_values(&self, rows: &Mask) -> i128
        ensures { (value : ℕ → ℤ) → ((n : ℕ) → n < 1024 → pos (number_of_row self.now n) ≡ value n +ℤ pos (2 ^ 15))
            → result ≡ fold_to ◌+ℤ◌ (pos 0) 1024 (λ n. cond (has rows.now n) (value n) (pos 0)) }
    {
        self.sum(rows) as i128 - rows.count_below(1024) as i128 * (1 << 15)
    }

    /// The greatest of the numbers of a mask's rows, or 0 over none. If `flipped` is true, it is the greatest of how far the
    /// numbers are below the greatest of 16 bits, which gives their least.
    #[inline(always)]
    pub fn greatest(&self, flipped: bool, rows: &Mask) -> u16
        ensures value { result ≡ fold_to max 0 1024 (λ n. cond (has rows.now n) (turned 16 flipped (number_of_row self.now n)) 0) }
        ensures below { (n : ℕ) → number_of_row self.now n ≤ 2 ^ 16 - 1 }
    {
        let lanes = lanes_of_mask_16(rows);
        let mut numbers = self.starts;
        let mut greatests = [0; 64];
        for step in 0..16 {
            self.go(step, &mut numbers);
            raise(&mut greatests, flipped, &numbers, &lanes, step);
        }
        greatest_of_lanes(&greatests)
    }

    /// The least or the greatest value of a mask's rows, none over none; each row's number is how far its value is above the least
    /// of 16 bits.
    #[inline(always)]
    pub(crate) fn extreme_value(&self, side: Extreme, rows: &Mask) -> Option<i64>
        ensures { (value : ℕ → ℤ) → ((n : ℕ) → n < 1024 → pos (number_of_row self.now n) ≡ value n +ℤ pos (2 ^ 15))
            → result ≡ extreme_at side rows.now value }
    {
        let flipped = side.is_least();
        let found = turned(flipped, self.greatest(flipped, rows));
        value_above(rows, u64::from(found), 1 << 15)
    }

    /// Writes the values of all rows; each row's number is how far its value is above the least of 16 bits.
    #[inline(always)]
    pub(crate) fn write_values(&self, values: &mut [i64; 1024])
        ensures { (n : ℕ) → n < 1024 → pos (number_of_row self.now n) ≡ value_at values.new n +ℤ pos (2 ^ 15) }
    {
        let mut numbers = self.starts;
        for step in 0..16 {
            self.go(step, &mut numbers);
            put_step(&numbers, step, values);
        }
    }

    /// For each lane, the bits of the steps at which the number plus an offset, modulo two to the power of 16, is at most a span.
    #[inline(always)]
    fn marks(&self, offset: u16, span: u16) -> [u16; 64]
        ensures { (lane step : ℕ) → lane < 64 → step < 16 → (bit_at (slice_index result lane) step == 1)
            ≡ nat_le ((number_at self.now lane step + offset) % 2 ^ 16) span }
    {
        let mut numbers = self.starts;
        let mut marks = [0; 64];
        for step in 0..16 {
            self.go(step, &mut numbers);
            mark(&mut marks, &numbers, offset, span, step);
        }
        marks
    }

    /// The law that the lanes have 16 bits.
    #[inline(always)]
    fn keeps_lanes_of_16(&self)
        ensures { self.now.lane_width ≡ 16 }
    {
        let _ = &self.width;
    }

    /// The rows whose number is neither below `first` nor above `last`. If these are none or all of the numbers, no word is read.
    #[inline(always)]
    fn rows_between(&self, first: u16, last: u16) -> Mask
        ensures rows { result ≡ rows_of (λ n. nat_le first (number_of_row self.now n) && nat_le (number_of_row self.now n) last) }
        ensures below { (n : ℕ) → number_of_row self.now n ≤ 2 ^ 16 - 1 }
    {
        self.keeps_lanes_of_16();
        if last < first {
            return Mask::none();
        }
        if first == 0 && last == u16::MAX {
            return Mask::all();
        }
        let marks = self.marks(0_u16.wrapping_sub(first), last - first);
        mask_of_lanes(&marks)
    }

    /// The rows whose value is neither below `low` nor above `high`; each row's number is how far its value is above the least of
    /// 16 bits. If none or all of the values of 16 bits are, no word is read.
    #[inline(always)]
    pub(crate) fn values_between(&self, low: i64, high: i64) -> Mask
        ensures { (value : ℕ → ℤ) → ((n : ℕ) → n < 1024 → pos (number_of_row self.now n) ≡ value n +ℤ pos (2 ^ 15))
            → result ≡ rows_of (λ n. between low high (value n)) }
    {
        let (first, last) = raised_range(1 << 15, low, high);
        self.rows_between(first as u16, last as u16)
    }

    /// For each lane, the bits of the steps at which the number and another walk's pass a test.
    fn marks_beside(&self, test: PairTest, other: &Walk16<'_>) -> [u16; 64]
        ensures marks { (lane step : ℕ) → lane < 64 → step < 16 → (bit_at (slice_index result lane) step == 1)
            ≡ number_passes test (number_at self.now lane step) (number_at other.now lane step) }
        ensures width { self.now.lane_width ≡ 16 }
        ensures other { other.now.lane_width ≡ 16 }
    {
        let mut numbers = self.starts;
        let mut others = other.starts;
        let mut marks = [0; 64];
        for step in 0..16 {
            self.go(step, &mut numbers);
            other.go(step, &mut others);
            mark_beside(&mut marks, test, &numbers, &others, step);
        }
        marks
    }

    /// The rows whose value and another walk's pass a test; each row's number is how far its value is above the least of 16
    /// bits.
    pub(crate) fn values_beside(&self, test: PairTest, other: &Walk16<'_>) -> Mask
        ensures { (left right : ℕ → ℤ) → ((n : ℕ) → n < 1024 → pos (number_of_row self.now n) ≡ left n +ℤ pos (2 ^ 15))
            → ((n : ℕ) → n < 1024 → pos (number_of_row other.now n) ≡ right n +ℤ pos (2 ^ 15))
            → result ≡ rows_of (λ n. value_passes test (left n) (right n)) }
    {
        mask_of_lanes(&self.marks_beside(test, other))
    }
}

/// How far a value of 16 bits is above the least of 16 bits.
#[inline(always)]
fn raised(value: i64) -> u16
    requires { FitsSigned w16 value }
    ensures { pos result ≡ value +ℤ pos (2 ^ 15) }
{
    (value as i16).cast_unsigned().wrapping_add(1 << 15)
}

/// The bits of a value of 16 bits.
fn bits(value: i64) -> u16
    requires { FitsSigned w16 value }
    ensures { pos result ≡ cond (int_lt value (pos 0)) (value +ℤ pos (2 ^ 16)) value }
{
    (value as i16).cast_unsigned()
}

/// How far each of 64 values of 16 bits is above the least of 16 bits.
fn all_raised(values: &[i16]) -> [u16; 64]
    requires { length values.now ≡ 64 }
    ensures { (lane : ℕ) → lane < 64 → pos (slice_index result lane) ≡ value_at values.now lane +ℤ pos (2 ^ 15) }
{
    let mut numbers = [0; 64];
    for lane in 0..64 {
        numbers[lane] = raised(i64::from(values[lane]));
    }
    numbers
}

/// The walk of a frame, whose numbers are how far the values are above the least of 16 bits.
#[inline(always)]
pub(crate) fn walk_of_frame_16(form: &For) -> Walk16<'_>
    requires { form.now.lane_width ≡ 16 }
    ensures { (n : ℕ) → n < 1024 → pos (number_of_row result n) ≡ frame_value form.now n +ℤ pos (2 ^ 15) }
{
    let added = raised(form.reference());
    Walk16::new(form.width(), form.words().words_16(), false, [0; 64], added)
}

/// The walk of deltas, whose numbers are how far the values are above the least of 16 bits.
#[inline(always)]
pub(crate) fn walk_of_deltas_16(form: &Delta) -> Walk16<'_>
    requires { form.now.lane_width ≡ 16 }
    ensures { (n : ℕ) → n < 1024 → pos (number_of_row result n) ≡ delta_value form.now n +ℤ pos (2 ^ 15) }
{
    let starts = all_raised(form.bases().values_16());
    let added = bits(form.least());
    Walk16::new(form.width(), form.words().words_16(), true, starts, added)
}
