//! Lanes of 32 bits gone through step by step, all 32 of them at once, by loops that the compiler makes vectors of.
ghost use Rattle.std.specs.Prelude.{◌≡◌, ◌==◌, ℕ, suc, ◌+◌, ◌-◌, ◌*◌, ◌/◌, ◌%◌, ◌^◌, ◌<◌, ◌≤◌, ◌&&◌, cond, length, slice_index, nat_le, min, max, FitsSigned, ℤ, int_lt, pos, ◌+ℤ◌, Some, None};
ghost use Rattle.std.specs.Int.{bit_at, w32};
ghost use Rattle.transpose_order.specs.Mask.{has, rows_of};
ghost use Rattle.transpose_order.specs.Place.{row_at};
ghost use Rattle.bit_interleave.specs.Packing.{packed_value};
ghost use Rattle.bit_interleave.specs.Range.{value_at};
ghost use Rattle.frame_delta.specs.Frame.{frame_value};
ghost use Rattle.frame_delta.specs.Delta.{delta_value};
ghost use Rattle.native_lanes.specs.Extremes.{extreme_at};
ghost use Rattle.native_lanes.specs.Folds.{fold_to};
ghost use Rattle.native_lanes.specs.Between.{between};
ghost use Rattle.native_lanes.specs.Pairs.{number_passes, value_passes};
ghost use Rattle.native_lanes.specs.Walks.{number_before, number_at, number_of_row, turned};

use crate::native_32::{mark, mark_beside, mask_of_lanes, numbers_32};
use crate::pair_test::PairTest;
use crate::raised::{raised_range, value_above};
use frame_delta::{Delta, For};
use std::marker::Model;
use table_model::Extreme;
use transpose_order::Mask;

/// A walk through the 32 lanes of packed words of 32 bits, step by step. At each step a lane's number is the sum of the number
/// carried from the step before, if it is carried, of what is added, and of the packed number, modulo two to the power of 32.
#[derive(Drop)]
pub(crate) struct Walk32<'a> {
    width: usize,
    words: &'a [u32],
    carried: bool,
    starts: [u32; 32],
    added: u32,
}

impl<'a> Model for Walk32<'a> {
    ghost use Rattle.std.specs.Prelude.{◌≡◌, ◌*◌, ◌≤◌, length};
    ghost use Rattle.native_lanes.specs.Walks.{Walk};

    ghost Value = { Walk };

    ghost view = { λ w. record { lane_width = 32; width = w.width; words = w.words.now; carried = w.carried; starts = w.starts; added = w.added } };

    ghost invariant = { λ w. (w.width ≤ 32) × (length w.words.now ≡ w.width * 32) };
}

/// The sum of what is carried, if it is, of what is added and of the packed number, modulo two to the power of 32.
#[inline(always)]
fn stepped(carried: bool, before: u32, added: u32, number: u32) -> u32
    ensures { result ≡ (cond carried before 0 + added + number) % 2 ^ 32 }
{
    let start = if carried { before } else { 0 };
    start.wrapping_add(added).wrapping_add(number)
}

/// Takes the numbers of all lanes one step on.
#[inline(always)]
fn advance(numbers: &mut [u32; 32], packed: &[u32; 32], carried: bool, added: u32)
    ensures { (lane : ℕ) → lane < 32 → slice_index numbers.new lane
        ≡ (cond carried (slice_index numbers.old lane) 0 + added + slice_index packed.now lane) % 2 ^ 32 }
{
    for i in 0..32 {
        numbers[i] = stepped(carried, numbers[i], added, packed[i]);
    }
}

/// A number if a lane's bit of a step is set, otherwise another.
#[inline(always)]
pub(crate) fn chosen(bits: u32, step: usize, number: u32, other: u32) -> u32
    requires { step < 32 }
    ensures { result ≡ cond (bit_at bits step == 1) number other }
{
    if bits >> step & 1 == 1 { number } else { other }
}

/// For each lane whose bit of a step is set, adds the low and the high 16 bits of its number to two sums.
#[inline(always)]
fn add_parts(
    low: &mut [u32; 32],
    high: &mut [u32; 32],
    numbers: &[u32; 32],
    rows: &[u32; 32],
    step: usize,
)
    requires step { step < 32 }
    requires low { (lane : ℕ) → lane < 32 → slice_index low.old lane ≤ 2 ^ 31 }
    requires high { (lane : ℕ) → lane < 32 → slice_index high.old lane ≤ 2 ^ 31 }
    ensures low { (lane : ℕ) → lane < 32 → slice_index low.new lane
        ≡ slice_index low.old lane + cond (bit_at (slice_index rows.now lane) step == 1) (slice_index numbers.now lane) 0 % 2 ^ 16 }
    ensures high { (lane : ℕ) → lane < 32 → slice_index high.new lane
        ≡ slice_index high.old lane + cond (bit_at (slice_index rows.now lane) step == 1) (slice_index numbers.now lane) 0 / 2 ^ 16 }
{
    for i in 0..32 {
        let number = chosen(rows[i], step, numbers[i], 0);
        low[i] += number & 0xFFFF;
        high[i] += number >> 16;
    }
}

/// The sum of the sums of 32 lanes.
pub(crate) fn sum_of_lanes(sums: &[u32; 32]) -> u64
    ensures sum { result ≡ fold_to ◌+◌ 0 32 (slice_index sums.now) }
    ensures bound { result ≤ 2 ^ 37 }
{
    let mut sum = 0;
    for i in 0..32 {
        sum += u64::from(sums[i]);
    }
    sum
}

/// A number, or, if `flipped` is true, how far it is below the greatest of 32 bits.
#[inline(always)]
fn turned(flipped: bool, number: u32) -> u32
    ensures { result ≡ turned 32 flipped number }
{
    if flipped { u32::MAX - number } else { number }
}

/// Raises each lane's number so far to the lane's number, flipped if that is asked, if its bit of a step is set.
#[inline(always)]
fn raise(
    greatests: &mut [u32; 32],
    flipped: bool,
    numbers: &[u32; 32],
    rows: &[u32; 32],
    step: usize,
)
    requires { step < 32 }
    ensures { (lane : ℕ) → lane < 32 → slice_index greatests.new lane
        ≡ max (slice_index greatests.old lane) (cond (bit_at (slice_index rows.now lane) step == 1) (turned 32 flipped (slice_index numbers.now lane)) 0) }
{
    for i in 0..32 {
        let number = chosen(rows[i], step, turned(flipped, numbers[i]), 0);
        greatests[i] = greatests[i].max(number);
    }
}

/// The greatest of the numbers of 32 lanes.
fn greatest_of_lanes(numbers: &[u32; 32]) -> u32
    ensures { result ≡ fold_to max 0 32 (slice_index numbers.now) }
{
    let mut greatest: u32 = 0;
    for i in 0..32 {
        greatest = greatest.max(numbers[i]);
    }
    greatest
}

/// The 32 bits of a word from bit `shift` on.
#[inline(always)]
fn bits_from(word: u64, shift: usize) -> u32
    requires { shift < 64 }
    ensures { result ≡ word / 2 ^ shift % 2 ^ 32 }
{
    (word >> shift & 0xFFFF_FFFF) as u32
}

/// Writes a group of sixteen lanes, each with the bits of a word from bit `shift` on.
#[inline(always)]
fn put_group(lanes: &mut [u32; 32], words: &[u64; 16], group: usize, shift: usize)
    requires group { group < 2 }
    requires shift { shift < 64 }
    ensures here { (j : ℕ) → j < 16 → slice_index lanes.new (16 * group + j) ≡ slice_index words.now j / 2 ^ shift % 2 ^ 32 }
    ensures before { (lane : ℕ) → lane < 16 * group → slice_index lanes.new lane ≡ slice_index lanes.old lane }
{
    for j in 0..16 {
        lanes[16 * group + j] = bits_from(words[j], shift);
    }
}

/// The bits of a mask's rows in the 32 lanes of 32 bits: bit `step` of a lane is that of the row at that place.
pub(crate) fn lanes_of_mask_32(mask: &Mask) -> [u32; 32]
    ensures { (lane step : ℕ) → lane < 32 → step < 32 → (bit_at (slice_index result lane) step == 1) ≡ has mask.now (row_at 32 lane step) }
{
    let words = mask.words();
    let mut lanes = [0; 32];
    for group in 0..2 {
        put_group(&mut lanes, words, group, 32 * group);
    }
    lanes
}

impl<'a> Walk32<'a> {
    /// The walk through these words.
    pub(crate) fn new(
        width: usize,
        words: &'a [u32],
        carried: bool,
        starts: [u32; 32],
        added: u32,
    ) -> Self
        requires width { width ≤ 32 }
        requires words { length words.now ≡ width * 32 }
        ensures { result ≡ record { lane_width = 32; width = width; words = words.now; carried = carried; starts = starts; added = added } }
    {
        Walk32 {
            width,
            words,
            carried,
            starts,
            added,
        }
    }

    /// Takes the numbers of all lanes from those before a step to those at it.
    #[inline(always)]
    fn go(&self, step: usize, numbers: &mut [u32; 32])
        requires step { step < 32 }
        requires before { (lane : ℕ) → lane < 32 → slice_index numbers.old lane ≡ number_before self.now lane step }
        ensures { (lane : ℕ) → lane < 32 → slice_index numbers.new lane ≡ number_at self.now lane step }
    {
        let packed = numbers_32(self.width, self.words, step);
        advance(numbers, &packed, self.carried, self.added);
    }

    /// The sum of the numbers of a mask's rows.
    #[inline(always)]
    pub(crate) fn sum(&self, rows: &Mask) -> u128
        ensures sum { result ≡ fold_to ◌+◌ 0 1024 (λ n. cond (has rows.now n) (number_of_row self.now n) 0) }
        ensures bound { result ≤ 2 ^ 80 }
    {
        let lanes = lanes_of_mask_32(rows);
        let mut numbers = self.starts;
        let mut low = [0; 32];
        let mut high = [0; 32];
        for step in 0..32 {
            self.go(step, &mut numbers);
            add_parts(&mut low, &mut high, &numbers, &lanes, step);
        }
        u128::from(sum_of_lanes(&low)) + u128::from(sum_of_lanes(&high)) * 0x1_0000
    }

    /// The sum of the values of a mask's rows; each row's number is how far its value is above the least of 32 bits.
    #[inline(always)]
    pub(crate) fn sum_of_values(&self, rows: &Mask) -> i128
        ensures { (value : ℕ → ℤ) → ((n : ℕ) → n < 1024 → pos (number_of_row self.now n) ≡ value n +ℤ pos (2 ^ 31))
            → result ≡ fold_to ◌+ℤ◌ (pos 0) 1024 (λ n. cond (has rows.now n) (value n) (pos 0)) }
    {
        self.sum(rows) as i128 - rows.count_below(1024) as i128 * (1 << 31)
    }

    /// The greatest of the numbers of a mask's rows, or 0 over none. If `flipped` is true, it is the greatest of how far the
    /// numbers are below the greatest of 32 bits, which gives their least.
    #[inline(always)]
    fn greatest(&self, flipped: bool, rows: &Mask) -> u32
        ensures value { result ≡ fold_to max 0 1024 (λ n. cond (has rows.now n) (turned 32 flipped (number_of_row self.now n)) 0) }
        ensures below { (n : ℕ) → number_of_row self.now n ≤ 2 ^ 32 - 1 }
    {
        let lanes = lanes_of_mask_32(rows);
        let mut numbers = self.starts;
        let mut greatests = [0; 32];
        for step in 0..32 {
            self.go(step, &mut numbers);
            raise(&mut greatests, flipped, &numbers, &lanes, step);
        }
        greatest_of_lanes(&greatests)
    }

    /// The least or the greatest value of a mask's rows, none over none; each row's number is how far its value is above the least
    /// of 32 bits.
    #[inline(always)]
    pub(crate) fn extreme_value(&self, side: Extreme, rows: &Mask) -> Option<i64>
        ensures { (value : ℕ → ℤ) → ((n : ℕ) → n < 1024 → pos (number_of_row self.now n) ≡ value n +ℤ pos (2 ^ 31))
            → result ≡ extreme_at side rows.now value }
    {
        let flipped = side.is_least();
        let found = turned(flipped, self.greatest(flipped, rows));
        value_above(rows, u64::from(found), 1 << 31)
    }

    /// For each lane, the bits of the steps at which the number plus an offset, modulo two to the power of 32, is at most a span.
    #[inline(always)]
    fn marks(&self, offset: u32, span: u32) -> [u32; 32]
        ensures { (lane step : ℕ) → lane < 32 → step < 32 → (bit_at (slice_index result lane) step == 1)
            ≡ nat_le ((number_at self.now lane step + offset) % 2 ^ 32) span }
    {
        let mut numbers = self.starts;
        let mut marks = [0; 32];
        for step in 0..32 {
            self.go(step, &mut numbers);
            mark(&mut marks, &numbers, offset, span, step);
        }
        marks
    }

    /// The law that the lanes have 32 bits.
    #[inline(always)]
    fn keeps_lanes_of_32(&self)
        ensures { self.now.lane_width ≡ 32 }
    {
        let _ = &self.width;
    }

    /// The rows whose number is neither below `first` nor above `last`. If these are none or all of the numbers, no word is read.
    #[inline(always)]
    fn rows_between(&self, first: u32, last: u32) -> Mask
        ensures rows { result ≡ rows_of (λ n. nat_le first (number_of_row self.now n) && nat_le (number_of_row self.now n) last) }
        ensures below { (n : ℕ) → number_of_row self.now n ≤ 2 ^ 32 - 1 }
    {
        self.keeps_lanes_of_32();
        if last < first {
            return Mask::none();
        }
        if first == 0 && last == u32::MAX {
            return Mask::all();
        }
        let marks = self.marks(0_u32.wrapping_sub(first), last - first);
        mask_of_lanes(&marks)
    }

    /// The rows whose value is neither below `low` nor above `high`; each row's number is how far its value is above the least of
    /// 32 bits. If none or all of the values of 32 bits are, no word is read.
    #[inline(always)]
    pub(crate) fn values_between(&self, low: i64, high: i64) -> Mask
        ensures { (value : ℕ → ℤ) → ((n : ℕ) → n < 1024 → pos (number_of_row self.now n) ≡ value n +ℤ pos (2 ^ 31))
            → result ≡ rows_of (λ n. between low high (value n)) }
    {
        let (first, last) = raised_range(1 << 31, low, high);
        self.rows_between(first as u32, last as u32)
    }

    /// For each lane, the bits of the steps at which the number and another walk's pass a test.
    fn marks_beside(&self, test: PairTest, other: &Walk32<'_>) -> [u32; 32]
        ensures marks { (lane step : ℕ) → lane < 32 → step < 32 → (bit_at (slice_index result lane) step == 1)
            ≡ number_passes test (number_at self.now lane step) (number_at other.now lane step) }
        ensures width { self.now.lane_width ≡ 32 }
        ensures other { other.now.lane_width ≡ 32 }
    {
        let mut numbers = self.starts;
        let mut others = other.starts;
        let mut marks = [0; 32];
        for step in 0..32 {
            self.go(step, &mut numbers);
            other.go(step, &mut others);
            mark_beside(&mut marks, test, &numbers, &others, step);
        }
        marks
    }

    /// The rows whose value and another walk's pass a test; each row's number is how far its value is above the least of 32
    /// bits.
    pub(crate) fn values_beside(&self, test: PairTest, other: &Walk32<'_>) -> Mask
        ensures { (left right : ℕ → ℤ) → ((n : ℕ) → n < 1024 → pos (number_of_row self.now n) ≡ left n +ℤ pos (2 ^ 31))
            → ((n : ℕ) → n < 1024 → pos (number_of_row other.now n) ≡ right n +ℤ pos (2 ^ 31))
            → result ≡ rows_of (λ n. value_passes test (left n) (right n)) }
    {
        mask_of_lanes(&self.marks_beside(test, other))
    }
}

/// How far a value of 32 bits is above the least of 32 bits.
#[inline(always)]
fn raised(value: i64) -> u32
    requires { FitsSigned w32 value }
    ensures { pos result ≡ value +ℤ pos (2 ^ 31) }
{
    (value as i32).cast_unsigned().wrapping_add(1 << 31)
}

/// The bits of a value of 32 bits.
fn bits(value: i64) -> u32
    requires { FitsSigned w32 value }
    ensures { pos result ≡ cond (int_lt value (pos 0)) (value +ℤ pos (2 ^ 32)) value }
{
    (value as i32).cast_unsigned()
}

/// How far each of 32 values of 32 bits is above the least of 32 bits.
fn all_raised(values: &[i32]) -> [u32; 32]
    requires { length values.now ≡ 32 }
    ensures { (lane : ℕ) → lane < 32 → pos (slice_index result lane) ≡ value_at values.now lane +ℤ pos (2 ^ 31) }
{
    let mut numbers = [0; 32];
    for lane in 0..32 {
        numbers[lane] = raised(i64::from(values[lane]));
    }
    numbers
}

/// The walk of a frame, whose numbers are how far the values are above the least of 32 bits.
#[inline(always)]
pub(crate) fn walk_of_frame_32(form: &For) -> Walk32<'_>
    requires { form.now.lane_width ≡ 32 }
    ensures { (n : ℕ) → n < 1024 → pos (number_of_row result n) ≡ frame_value form.now n +ℤ pos (2 ^ 31) }
{
    let added = raised(form.reference());
    Walk32::new(form.width(), form.words().words_32(), false, [0; 32], added)
}

/// The walk of deltas, whose numbers are how far the values are above the least of 32 bits.
#[inline(always)]
pub(crate) fn walk_of_deltas_32(form: &Delta) -> Walk32<'_>
    requires { form.now.lane_width ≡ 32 }
    ensures { (n : ℕ) → n < 1024 → pos (number_of_row result n) ≡ delta_value form.now n +ℤ pos (2 ^ 31) }
{
    let starts = all_raised(form.bases().values_32());
    let added = bits(form.least());
    Walk32::new(form.width(), form.words().words_32(), true, starts, added)
}
