//! Lanes of 64 bits gone through step by step, all 16 of them at once, by loops that the compiler makes vectors of.
ghost use Rattle.std.specs.Prelude.{IsTrue, ◌≡◌, ◌==◌, ℕ, suc, ◌+◌, ◌-◌, ◌*◌, ◌/◌, ◌%◌, ◌^◌, ◌<◌, ◌≤◌, ◌&&◌, cond, length, slice_index, nat_le, min, max, FitsSigned, ℤ, int_lt, pos, ◌+ℤ◌, Some, None, IfSome, true, false};
ghost use Rattle.std.specs.Int.{bit_at, w64};
ghost use Rattle.transpose_order.specs.Mask.{has, rows_of};
ghost use Rattle.transpose_order.specs.Place.{row_at};
ghost use Rattle.bit_interleave.specs.Packing.{packed_value};
ghost use Rattle.bit_interleave.specs.Range.{value_at};
ghost use Rattle.frame_delta.specs.Frame.{frame_value};
ghost use Rattle.frame_delta.specs.Delta.{delta_value};
ghost use Rattle.native_lanes.specs.Extremes.{extreme_at};
ghost use Rattle.native_lanes.specs.Folds.{fold_to};
ghost use Rattle.native_lanes.specs.Between.{between};
ghost use Rattle.native_lanes.specs.Pairs.{number_passes, value_passes};
ghost use Rattle.native_lanes.specs.Walks.{number_before, number_at, number_of_row, turned, half_on, further};
ghost use Rattle.native_lanes.specs.declared.pair_test.PairTest.TheVariants as tests;

use crate::frame_range::greatest_number;
use crate::full::are_all_set;
use crate::native_64::{half_on, mark, mark_beside, mask_of_lanes, numbers_64};
use crate::pair_test::PairTest;
use crate::raised::{raised_range, value_above};
use frame_delta::{Delta, For};
use std::marker::Model;
use table_model::Extreme;
use transpose_order::Mask;

/// A walk through the 16 lanes of packed words of 64 bits, step by step. At each step a lane's number is the sum of the number
/// carried from the step before, if it is carried, of what is added, and of the packed number, modulo two to the power of 64.
#[derive(Drop)]
pub(crate) struct Walk64<'a> {
    width: usize,
    words: &'a [u64],
    carried: bool,
    starts: [u64; 16],
    added: u64,
}

impl<'a> Model for Walk64<'a> {
    ghost use Rattle.std.specs.Prelude.{◌≡◌, ◌*◌, ◌≤◌, length};
    ghost use Rattle.native_lanes.specs.Walks.{Walk};

    ghost Value = { Walk };

    ghost view = { λ w. record { lane_width = 64; width = w.width; words = w.words.now; carried = w.carried; starts = w.starts; added = w.added } };

    ghost invariant = { λ w. (w.width ≤ 64) × (length w.words.now ≡ w.width * 16) };
}

/// The sum of what is carried, if it is, of what is added and of the packed number, modulo two to the power of 64.
#[inline(always)]
fn stepped(carried: bool, before: u64, added: u64, number: u64) -> u64
    ensures { result ≡ (cond carried before 0 + added + number) % 2 ^ 64 }
{
    let start = if carried { before } else { 0 };
    start.wrapping_add(added).wrapping_add(number)
}

/// Takes the numbers of all lanes one step on.
#[inline(always)]
fn advance_lanes(numbers: &mut [u64; 16], packed: &[u64; 16], carried: bool, added: u64)
    ensures { (lane : ℕ) → lane < 16 → slice_index numbers.new lane
        ≡ (cond carried (slice_index numbers.old lane) 0 + added + slice_index packed.now lane) % 2 ^ 64 }
{
    for i in 0..16 {
        numbers[i] = stepped(carried, numbers[i], added, packed[i]);
    }
}

/// Takes the numbers of all lanes one step on, by a loop of its own for those that are carried and for those that aren't.
#[inline(always)]
fn advance(numbers: &mut [u64; 16], packed: &[u64; 16], carried: bool, added: u64)
    ensures { (lane : ℕ) → lane < 16 → slice_index numbers.new lane
        ≡ (cond carried (slice_index numbers.old lane) 0 + added + slice_index packed.now lane) % 2 ^ 64 }
{
    if carried {
        advance_lanes(numbers, packed, true, added);
    } else {
        advance_lanes(numbers, packed, false, added);
    }
}

/// A number if a lane's bit of a step is set, otherwise another.
#[inline(always)]
pub(crate) fn chosen(bits: u64, step: usize, number: u64, other: u64) -> u64
    requires { step < 64 }
    ensures { result ≡ cond (bit_at bits step == 1) number other }
{
    if bits >> step & 1 == 1 { number } else { other }
}

/// For each lane whose bit of a step is set, adds the low and the high 32 bits of its number to two sums.
#[inline(always)]
fn add_parts(
    low: &mut [u64; 16],
    high: &mut [u64; 16],
    numbers: &[u64; 16],
    rows: &[u64; 16],
    step: usize,
)
    requires step { step < 64 }
    requires low { (lane : ℕ) → lane < 16 → slice_index low.old lane ≤ 2 ^ 63 }
    requires high { (lane : ℕ) → lane < 16 → slice_index high.old lane ≤ 2 ^ 63 }
    ensures low { (lane : ℕ) → lane < 16 → slice_index low.new lane
        ≡ slice_index low.old lane + cond (bit_at (slice_index rows.now lane) step == 1) (slice_index numbers.now lane) 0 % 2 ^ 32 }
    ensures high { (lane : ℕ) → lane < 16 → slice_index high.new lane
        ≡ slice_index high.old lane + cond (bit_at (slice_index rows.now lane) step == 1) (slice_index numbers.now lane) 0 / 2 ^ 32 }
{
    for i in 0..16 {
        let number = chosen(rows[i], step, numbers[i], 0);
        low[i] += number & 0xFFFF_FFFF;
        high[i] += number >> 32;
    }
}

/// Adds to two sums of each lane the low and the high 32 bits of its number.
#[inline(always)]
fn add_all_parts(low: &mut [u64; 16], high: &mut [u64; 16], numbers: &[u64; 16])
    requires low { (lane : ℕ) → lane < 16 → slice_index low.old lane ≤ 2 ^ 63 }
    requires high { (lane : ℕ) → lane < 16 → slice_index high.old lane ≤ 2 ^ 63 }
    ensures low { (lane : ℕ) → lane < 16 → slice_index low.new lane ≡ slice_index low.old lane + slice_index numbers.now lane % 2 ^ 32 }
    ensures high { (lane : ℕ) → lane < 16 → slice_index high.new lane ≡ slice_index high.old lane + slice_index numbers.now lane / 2 ^ 32 }
{
    for i in 0..16 {
        low[i] += numbers[i] & 0xFFFF_FFFF;
        high[i] += numbers[i] >> 32;
    }
}

/// For each lane whose bit of a step is set, adds the low and the high 32 bits of its number to two sums; whether the bits of all
/// lanes are set is known.
#[inline(always)]
fn add_step(
    are_all: bool,
    low: &mut [u64; 16],
    high: &mut [u64; 16],
    numbers: &[u64; 16],
    rows: &[u64; 16],
    step: usize,
)
    requires all { IsTrue are_all → (lane : ℕ) → lane < 16 → bit_at (slice_index rows.now lane) step ≡ 1 }
    requires step { step < 64 }
    requires low { (lane : ℕ) → lane < 16 → slice_index low.old lane ≤ 2 ^ 63 }
    requires high { (lane : ℕ) → lane < 16 → slice_index high.old lane ≤ 2 ^ 63 }
    ensures low { (lane : ℕ) → lane < 16 → slice_index low.new lane
        ≡ slice_index low.old lane + cond (bit_at (slice_index rows.now lane) step == 1) (slice_index numbers.now lane) 0 % 2 ^ 32 }
    ensures high { (lane : ℕ) → lane < 16 → slice_index high.new lane
        ≡ slice_index high.old lane + cond (bit_at (slice_index rows.now lane) step == 1) (slice_index numbers.now lane) 0 / 2 ^ 32 }
{
    if are_all {
        add_all_parts(low, high, numbers);
    } else {
        add_parts(low, high, numbers, rows, step);
    }
}

/// The sum of sixteen sums, one of each lane of 64 bits. None is above two to the power of 40, so the sum doesn't wrap.
pub fn sum_of_lanes(sums: &[u64; 16]) -> u64
    requires { (i : ℕ) → i < 16 → slice_index sums.now i ≤ 2 ^ 40 }
    ensures sum { result ≡ fold_to ◌+◌ 0 16 (slice_index sums.now) }
    ensures bound { result ≤ 2 ^ 44 }
{
    let mut sum = 0;
    for i in 0..16 {
        sum += sums[i];
    }
    sum
}

/// A number, or, if `flipped` is true, how far it is below the greatest of 64 bits.
#[inline(always)]
fn turned(flipped: bool, number: u64) -> u64
    ensures { result ≡ turned 64 flipped number }
{
    if flipped { u64::MAX - number } else { number }
}

/// Each of 16 numbers plus an offset, modulo two to the power of 64.
#[inline(always)]
fn all_shifted(numbers: &[u64; 16], offset: u64) -> [u64; 16]
    ensures { (lane : ℕ) → lane < 16 → slice_index result lane ≡ (slice_index numbers.now lane + offset) % 2 ^ 64 }
{
    let mut shifted = [0; 16];
    for lane in 0..16 {
        shifted[lane] = numbers[lane].wrapping_add(offset);
    }
    shifted
}

/// What each step adds in a walk whose numbers are an offset further. If numbers are carried, the offset is in what they start
/// with.
#[inline(always)]
fn added_further(carried: bool, added: u64, offset: u64) -> u64
    ensures { result ≡ cond carried added ((added + offset) % 2 ^ 64) }
{
    if carried {
        added
    } else {
        added.wrapping_add(offset)
    }
}

/// Of a number so far and another, the greater one, or the lesser one if `flipped` is true, once both are shifted by half.
#[inline(always)]
fn further(flipped: bool, so_far: u64, number: u64) -> u64
    ensures { result ≡ further flipped so_far number }
{
    let below = half_on(number) < half_on(so_far);
    if below == flipped { number } else { so_far }
}

/// The number that no other is before: shifted by half it is 0, or the greatest of 64 bits if `flipped` is true.
#[inline(always)]
fn least_far(flipped: bool) -> u64
    ensures { turned 64 flipped (half_on result) ≡ 0 }
{
    if flipped { (1 << 63) - 1 } else { 1 << 63 }
}

/// Moves each lane's number so far to the lane's number, if that is further.
#[inline(always)]
fn go_further(furthest: &mut [u64; 16], flipped: bool, numbers: &[u64; 16])
    ensures { (lane : ℕ) → lane < 16 → slice_index furthest.new lane ≡ further flipped (slice_index furthest.old lane) (slice_index numbers.now lane) }
{
    for i in 0..16 {
        furthest[i] = further(flipped, furthest[i], numbers[i]);
    }
}

/// Moves each lane's number so far to the lane's number, if that is further and its bit of a step is set.
#[inline(always)]
fn go_further_where(
    furthest: &mut [u64; 16],
    flipped: bool,
    numbers: &[u64; 16],
    rows: &[u64; 16],
    step: usize,
)
    requires { step < 64 }
    ensures { (lane : ℕ) → lane < 16 → slice_index furthest.new lane
        ≡ cond (bit_at (slice_index rows.now lane) step == 1) (further flipped (slice_index furthest.old lane) (slice_index numbers.now lane)) (slice_index furthest.old lane) }
{
    for i in 0..16 {
        let number = further(flipped, furthest[i], numbers[i]);
        furthest[i] = chosen(rows[i], step, number, furthest[i]);
    }
}

/// Moves each lane's number so far to the lane's number, if that is further and its bit of a step is set; whether the bits of all
/// lanes are set is known.
#[inline(always)]
fn further_step(
    are_all: bool,
    furthest: &mut [u64; 16],
    flipped: bool,
    numbers: &[u64; 16],
    rows: &[u64; 16],
    step: usize,
)
    requires all { IsTrue are_all → (lane : ℕ) → lane < 16 → bit_at (slice_index rows.now lane) step ≡ 1 }
    requires step { step < 64 }
    ensures { (lane : ℕ) → lane < 16 → slice_index furthest.new lane
        ≡ cond (bit_at (slice_index rows.now lane) step == 1) (further flipped (slice_index furthest.old lane) (slice_index numbers.now lane)) (slice_index furthest.old lane) }
{
    if are_all {
        go_further(furthest, flipped, numbers);
    } else {
        go_further_where(furthest, flipped, numbers, rows, step);
    }
}

/// The greatest of the numbers of 16 lanes.
fn greatest_of_lanes(numbers: &[u64; 16]) -> u64
    ensures { result ≡ fold_to max 0 16 (slice_index numbers.now) }
{
    let mut greatest: u64 = 0;
    for i in 0..16 {
        greatest = greatest.max(numbers[i]);
    }
    greatest
}

/// The greatest of the numbers of 16 lanes, or, if `flipped` is true, of how far they are below the greatest of 64 bits.
fn greatest_of_turned(flipped: bool, numbers: &[u64; 16]) -> u64
    ensures { result ≡ fold_to max 0 16 (λ lane. turned 64 flipped (slice_index numbers.now lane)) }
{
    let mut greatest: u64 = 0;
    for i in 0..16 {
        greatest = greatest.max(turned(flipped, numbers[i]));
    }
    greatest
}

/// How much 63 steps add at most to a number that is carried; none if that is more than 64 bits hold.
fn most_added(added: u64, width: usize) -> Option<u64>
    requires { width ≤ 64 }
    ensures { IfSome result (λ most. most ≡ 63 * (added + (2 ^ width - 1))) }
{
    let most = added.checked_add(greatest_number(width))?;
    most.checked_mul(63)
}

/// The bits of a mask's rows in the 16 lanes of 64 bits: bit `step` of a lane is that of the row at that place.
pub(crate) fn lanes_of_mask_64(mask: &Mask) -> [u64; 16]
    ensures { (lane step : ℕ) → lane < 16 → step < 64 → (bit_at (slice_index result lane) step == 1) ≡ has mask.now (row_at 64 lane step) }
{
    *mask.words()
}

impl<'a> Walk64<'a> {
    /// The walk through these words.
    pub(crate) fn new(
        width: usize,
        words: &'a [u64],
        carried: bool,
        starts: [u64; 16],
        added: u64,
    ) -> Self
        requires width { width ≤ 64 }
        requires words { length words.now ≡ width * 16 }
        ensures { result ≡ record { lane_width = 64; width = width; words = words.now; carried = carried; starts = starts; added = added } }
    {
        Walk64 {
            width,
            words,
            carried,
            starts,
            added,
        }
    }

    /// Takes the numbers of all lanes from those before a step to those at it.
    #[inline(always)]
    fn go(&self, step: usize, numbers: &mut [u64; 16])
        requires step { step < 64 }
        requires before { (lane : ℕ) → lane < 16 → slice_index numbers.old lane ≡ number_before self.now lane step }
        ensures { (lane : ℕ) → lane < 16 → slice_index numbers.new lane ≡ number_at self.now lane step }
    {
        let packed = numbers_64(self.width, self.words, step);
        advance(numbers, &packed, self.carried, self.added);
    }

    /// A walk whose numbers are an offset further, modulo two to the power of 64.
    #[inline(always)]
    fn shifted(&self, offset: u64) -> Walk64<'a>
        ensures numbers { (lane step : ℕ) → lane < 16 → step < 64 → number_at result lane step ≡ (number_at self.now lane step + offset) % 2 ^ 64 }
        ensures width { self.now.lane_width ≡ 64 }
    {
        let starts = all_shifted(&self.starts, offset);
        let added = added_further(self.carried, self.added, offset);
        Walk64::new(self.width, self.words, self.carried, starts, added)
    }

    /// The sum of the numbers of a mask's rows.
    #[inline(always)]
    pub(crate) fn sum(&self, rows: &Mask) -> u128
        ensures sum { result ≡ fold_to ◌+◌ 0 1024 (λ n. cond (has rows.now n) (number_of_row self.now n) 0) }
        ensures bound { result ≤ 2 ^ 80 }
    {
        let lanes = lanes_of_mask_64(rows);
        let mut numbers = self.starts;
        let mut low = [0; 16];
        let mut high = [0; 16];
        let are_all = are_all_set(&lanes);
        for step in 0..64 {
            self.go(step, &mut numbers);
            add_step(are_all, &mut low, &mut high, &numbers, &lanes, step);
        }
        u128::from(sum_of_lanes(&low)) + u128::from(sum_of_lanes(&high)) * 0x1_0000_0000
    }

    /// The sum of the values of a mask's rows; each row's number is how far its value is above the least of 64 bits.
    #[inline(always)]
    pub(crate) fn sum_of_values(&self, rows: &Mask) -> i128
        ensures { (value : ℕ → ℤ) → ((n : ℕ) → n < 1024 → pos (number_of_row self.now n) ≡ value n +ℤ pos (2 ^ 63))
            → result ≡ fold_to ◌+ℤ◌ (pos 0) 1024 (λ n. cond (has rows.now n) (value n) (pos 0)) }
    {
        self.sum(rows) as i128 - rows.count_below(1024) as i128 * (1 << 63)
    }

    /// The numbers of all lanes at the first step.
    #[inline(always)]
    fn first_numbers(&self) -> [u64; 16]
        ensures { (lane : ℕ) → lane < 16 → slice_index result lane ≡ number_at self.now lane 0 }
    {
        let mut numbers = self.starts;
        self.go(0, &mut numbers);
        numbers
    }

    /// The numbers of all lanes at the last step.
    #[inline(always)]
    fn last_numbers(&self) -> [u64; 16]
        ensures { (lane : ℕ) → lane < 16 → slice_index result lane ≡ number_at self.now lane 63 }
    {
        let mut numbers = self.starts;
        for step in 0..64 {
            self.go(step, &mut numbers);
        }
        numbers
    }

    /// Whether the numbers of all lanes rise or stay from each step to the next: they do if they are carried and what 63 steps can
    /// add doesn't take the greatest of the first step's past 64 bits.
    #[inline(always)]
    fn is_rising(&self, first: &[u64; 16]) -> bool
        requires { (lane : ℕ) → lane < 16 → slice_index first.now lane ≡ number_at self.now lane 0 }
        ensures { IsTrue result → (lane step : ℕ) → lane < 16 → step < 63 → number_at self.now lane step ≤ number_at self.now lane (step + 1) }
    {
        match most_added(self.added, self.width) {
            None => false,
            Some(most) => self.carried && greatest_of_lanes(first) <= u64::MAX - most,
        }
    }

    /// The law that the lanes have 64 bits.
    #[inline(always)]
    fn keeps_lanes_of_64(&self)
        ensures { self.now.lane_width ≡ 64 }
    {
        let _ = &self.width;
    }

    /// The answer of `greatest` over all rows if the numbers of each lane rise: those of the last step decide, or those of the
    /// first if `flipped` is true.
    #[inline(always)]
    fn greatest_of_rising(&self, flipped: bool, first: &[u64; 16], rows: &Mask) -> u64
        requires first { (lane : ℕ) → lane < 16 → slice_index first.now lane ≡ number_at self.now lane 0 }
        requires rising { (lane step : ℕ) → lane < 16 → step < 63 → number_at self.now lane step ≤ number_at self.now lane (step + 1) }
        requires all { (lane step : ℕ) → lane < 16 → step < 64 → has rows.now (row_at 64 lane step) ≡ true }
        ensures { result ≡ fold_to max 0 1024 (λ n. cond (has rows.now n) (turned 64 flipped (number_of_row self.now n)) 0) }
    {
        self.keeps_lanes_of_64();
        let numbers = if flipped { *first } else { self.last_numbers() };
        greatest_of_turned(flipped, &numbers)
    }

    /// The greatest of the numbers of a mask's rows, or 0 over none. If `flipped` is true, it is the greatest of how far the
    /// numbers are below the greatest of 64 bits, which gives their least. If all rows of rising lanes are taken, one step decides.
    #[inline(always)]
    fn greatest(&self, flipped: bool, rows: &Mask) -> u64
        ensures value { result ≡ fold_to max 0 1024 (λ n. cond (has rows.now n) (turned 64 flipped (number_of_row self.now n)) 0) }
        ensures below { (n : ℕ) → number_of_row self.now n ≤ 2 ^ 64 - 1 }
    {
        if !are_all_set(&lanes_of_mask_64(rows)) {
            return self.greatest_by_steps(false, flipped, rows);
        }
        if self.carried {
            let first = self.first_numbers();
            if self.is_rising(&first) {
                return self.greatest_of_rising(flipped, &first, rows);
            }
        }
        self.greatest_by_steps(true, flipped, rows)
    }

    /// The answer of `greatest`, by all steps; whether all rows are taken is known.
    #[inline(always)]
    fn greatest_by_steps(&self, are_all: bool, flipped: bool, rows: &Mask) -> u64
        requires { IsTrue are_all → (lane step : ℕ) → lane < 16 → step < 64 → has rows.now (row_at 64 lane step) ≡ true }
        ensures value { result ≡ fold_to max 0 1024 (λ n. cond (has rows.now n) (turned 64 flipped (number_of_row self.now n)) 0) }
        ensures below { (n : ℕ) → number_of_row self.now n ≤ 2 ^ 64 - 1 }
    {
        let half = self.shifted(1 << 63);
        let furthest = half.furthest_of_lanes(are_all, flipped, rows);
        greatest_of_turned(flipped, &all_shifted(&furthest, 1 << 63))
    }

    /// For each lane, of the numbers of a mask's rows, the greatest, or the least if `flipped` is true, once they are shifted by
    /// half; whether all rows are taken is known.
    #[inline(always)]
    fn furthest_of_lanes(&self, are_all: bool, flipped: bool, rows: &Mask) -> [u64; 16]
        requires { IsTrue are_all → (lane step : ℕ) → lane < 16 → step < 64 → has rows.now (row_at 64 lane step) ≡ true }
        ensures { (lane : ℕ) → lane < 16 → turned 64 flipped (half_on (slice_index result lane))
            ≡ fold_to max 0 64 (λ step. cond (has rows.now (row_at 64 lane step)) (turned 64 flipped (half_on (number_at self.now lane step))) 0) }
    {
        let lanes = lanes_of_mask_64(rows);
        let mut numbers = self.starts;
        let start = least_far(flipped);
        let mut furthest = [start; 16];
        for step in 0..64 {
            self.go(step, &mut numbers);
            further_step(are_all, &mut furthest, flipped, &numbers, &lanes, step);
        }
        furthest
    }

    /// The least or the greatest value of a mask's rows, none over none; each row's number is how far its value is above the least
    /// of 64 bits.
    #[inline(always)]
    pub(crate) fn extreme_value(&self, side: Extreme, rows: &Mask) -> Option<i64>
        ensures { (value : ℕ → ℤ) → ((n : ℕ) → n < 1024 → pos (number_of_row self.now n) ≡ value n +ℤ pos (2 ^ 63))
            → result ≡ extreme_at side rows.now value }
    {
        let flipped = side.is_least();
        let found = turned(flipped, self.greatest(flipped, rows));
        value_above(rows, found, 1 << 63)
    }

    /// For each lane, the bits of the steps at which the number plus an offset, modulo two to the power of 64, is at most a span.
    #[inline(always)]
    fn marks(&self, offset: u64, span: u64) -> [u64; 16]
        ensures { (lane step : ℕ) → lane < 16 → step < 64 → (bit_at (slice_index result lane) step == 1)
            ≡ nat_le ((number_at self.now lane step + offset) % 2 ^ 64) span }
    {
        self.shifted(half_on(offset)).marks_up_to(span)
    }

    /// For each lane, the bits of the steps at which the number, half on, is at most a span.
    #[inline(always)]
    fn marks_up_to(&self, span: u64) -> [u64; 16]
        ensures { (lane step : ℕ) → lane < 16 → step < 64 → (bit_at (slice_index result lane) step == 1)
            ≡ nat_le (half_on (number_at self.now lane step)) span }
    {
        let mut numbers = self.starts;
        let mut marks = [0; 16];
        for step in 0..64 {
            self.go(step, &mut numbers);
            mark(&mut marks, &numbers, 1 << 63, span, step);
        }
        marks
    }

    /// The rows whose number is neither below `first` nor above `last`. If these are none or all of the numbers, no word is read.
    #[inline(always)]
    fn rows_between(&self, first: u64, last: u64) -> Mask
        ensures rows { result ≡ rows_of (λ n. nat_le first (number_of_row self.now n) && nat_le (number_of_row self.now n) last) }
        ensures below { (n : ℕ) → number_of_row self.now n ≤ 2 ^ 64 - 1 }
    {
        self.keeps_lanes_of_64();
        if last < first {
            return Mask::none();
        }
        if first == 0 && last == u64::MAX {
            return Mask::all();
        }
        let marks = self.marks(0_u64.wrapping_sub(first), last - first);
        mask_of_lanes(&marks)
    }

    /// The rows whose value is neither below `low` nor above `high`; each row's number is how far its value is above the least of
    /// 64 bits. If none or all of the values of 64 bits are, no word is read.
    #[inline(always)]
    pub(crate) fn values_between(&self, low: i64, high: i64) -> Mask
        ensures { (value : ℕ → ℤ) → ((n : ℕ) → n < 1024 → pos (number_of_row self.now n) ≡ value n +ℤ pos (2 ^ 63))
            → result ≡ rows_of (λ n. between low high (value n)) }
    {
        let (first, last) = raised_range(1 << 63, low, high);
        self.rows_between(first, last)
    }

    /// For each lane, the bits of the steps at which the number and another walk's pass a test.
    #[inline(always)]
    fn marks_beside(&self, test: PairTest, other: &Walk64<'_>) -> [u64; 16]
        ensures marks { (lane step : ℕ) → lane < 16 → step < 64 → (bit_at (slice_index result lane) step == 1)
            ≡ number_passes test (number_at self.now lane step) (number_at other.now lane step) }
        ensures width { self.now.lane_width ≡ 64 }
        ensures other { other.now.lane_width ≡ 64 }
    {
        let left = self.shifted(1 << 63);
        let right = other.shifted(1 << 63);
        match test {
            PairTest::Equal => left.marks_equal(&right),
            PairTest::Less => left.marks_below(&right),
        }
    }

    /// For each lane, the bits of the steps at which the number is equal to another walk's, once both are shifted by half. It is a
    /// function of its own, like `marks_below`, so that the compiler makes vectors of its loop.
    #[inline(never)]
    fn marks_equal(&self, other: &Walk64<'_>) -> [u64; 16]
        ensures { (lane step : ℕ) → lane < 16 → step < 64 → (bit_at (slice_index result lane) step == 1)
            ≡ number_passes tests.Equal (half_on (number_at self.now lane step)) (half_on (number_at other.now lane step)) }
    {
        self.marks_beside_half_on(PairTest::Equal, other)
    }

    /// For each lane, the bits of the steps at which the number is below another walk's, once both are shifted by half.
    #[inline(never)]
    fn marks_below(&self, other: &Walk64<'_>) -> [u64; 16]
        ensures { (lane step : ℕ) → lane < 16 → step < 64 → (bit_at (slice_index result lane) step == 1)
            ≡ number_passes tests.Less (half_on (number_at self.now lane step)) (half_on (number_at other.now lane step)) }
    {
        self.marks_beside_half_on(PairTest::Less, other)
    }

    /// For each lane, the bits of the steps at which the number and another walk's pass a test, once both are shifted
    /// by half.
    #[inline(always)]
    fn marks_beside_half_on(&self, test: PairTest, other: &Walk64<'_>) -> [u64; 16]
        ensures { (lane step : ℕ) → lane < 16 → step < 64 → (bit_at (slice_index result lane) step == 1)
            ≡ number_passes test (half_on (number_at self.now lane step)) (half_on (number_at other.now lane step)) }
    {
        let mut numbers = self.starts;
        let mut others = other.starts;
        let mut marks = [0; 16];
        for step in 0..64 {
            self.go(step, &mut numbers);
            other.go(step, &mut others);
            mark_beside(&mut marks, test, &numbers, &others, step);
        }
        marks
    }

    /// The rows whose value and another walk's pass a test; each row's number is how far its value is above the least of 64
    /// bits.
    pub(crate) fn values_beside(&self, test: PairTest, other: &Walk64<'_>) -> Mask
        ensures { (left right : ℕ → ℤ) → ((n : ℕ) → n < 1024 → pos (number_of_row self.now n) ≡ left n +ℤ pos (2 ^ 63))
            → ((n : ℕ) → n < 1024 → pos (number_of_row other.now n) ≡ right n +ℤ pos (2 ^ 63))
            → result ≡ rows_of (λ n. value_passes test (left n) (right n)) }
    {
        mask_of_lanes(&self.marks_beside(test, other))
    }
}

/// How far a value of 64 bits is above the least of 64 bits.
#[inline(always)]
fn raised(value: i64) -> u64
    requires { FitsSigned w64 value }
    ensures { pos result ≡ value +ℤ pos (2 ^ 63) }
{
    value.cast_unsigned().wrapping_add(1 << 63)
}

/// The bits of a value of 64 bits.
fn bits(value: i64) -> u64
    requires { FitsSigned w64 value }
    ensures { pos result ≡ cond (int_lt value (pos 0)) (value +ℤ pos (2 ^ 64)) value }
{
    value.cast_unsigned()
}

/// How far each of 16 values of 64 bits is above the least of 64 bits.
fn all_raised(values: &[i64]) -> [u64; 16]
    requires { length values.now ≡ 16 }
    ensures { (lane : ℕ) → lane < 16 → pos (slice_index result lane) ≡ value_at values.now lane +ℤ pos (2 ^ 63) }
{
    let mut numbers = [0; 16];
    for lane in 0..16 {
        numbers[lane] = raised(values[lane]);
    }
    numbers
}

/// The walk of a frame, whose numbers are how far the values are above the least of 64 bits.
#[inline(always)]
pub(crate) fn walk_of_frame_64(form: &For) -> Walk64<'_>
    requires { form.now.lane_width ≡ 64 }
    ensures { (n : ℕ) → n < 1024 → pos (number_of_row result n) ≡ frame_value form.now n +ℤ pos (2 ^ 63) }
{
    let added = raised(form.reference());
    Walk64::new(form.width(), form.words().words_64(), false, [0; 16], added)
}

/// The walk of deltas, whose numbers are how far the values are above the least of 64 bits.
#[inline(always)]
pub(crate) fn walk_of_deltas_64(form: &Delta) -> Walk64<'_>
    requires { form.now.lane_width ≡ 64 }
    ensures { (n : ℕ) → n < 1024 → pos (number_of_row result n) ≡ delta_value form.now n +ℤ pos (2 ^ 63) }
{
    let starts = all_raised(form.bases().values_64());
    let added = bits(form.least());
    Walk64::new(form.width(), form.words().words_64(), true, starts, added)
}
