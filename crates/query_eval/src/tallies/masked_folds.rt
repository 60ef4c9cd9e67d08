//! Set functions over the decoded values at the rows of a mask, and the rows with a value: a word of 64 rows at a time, without a
//! branch a row.
ghost use Rattle.std.specs.Prelude.{◌≡◌, ◌==◌, ◌+◌, ◌*◌, ◌^◌, ◌<◌, ◌≤◌, ◌+ℤ◌, ℕ, Bool, true, List, ℤ, cond, length, pos, slice_index, slice_index_or};
ghost use Rattle.std.specs.Int.{bit_at};
ghost use Rattle.std.specs.Simd.Lanes.{sum_l};
ghost use Rattle.table_model.specs.Values.{total};
ghost use Rattle.query_eval.specs.Bits.{AreBits};
ghost use Rattle.table_model.specs.Extreme.{extreme_of};
ghost use Rattle.query_eval.specs.Forms.{top_below};
ghost use Rattle.query_eval.specs.Slices.{AreHalves, AreShort, IsRaised, IsShort, values_at};

use crate::filter::{has_bit, is_set};
use crate::tallies::forms::Form;
use std::simd::prelude::*;
use table_model::Extreme;
use transpose_order::{Mask, raised_if};

/// How many rows a mask has.
pub fn count_at(rows: &Mask) -> usize
    ensures value { (values : List ℤ) → result ≡ length (values_at rows.now values) }
    ensures few { result ≤ 1024 }
{
    rows.keeps_1024_rows();
    rows.count()
}

/// Adds to two sums the halves of 32 bits of the values at the rows of a word, raised by 2 to the power of 63 each: the low halves
/// to one, the high ones to the other. Bit `b` of the word is row `first + b`.
#[inline(always)]
fn add_halves(values: &[i64; 1024], word: u64, first: usize, low: &mut u64, high: &mut u64)
    requires first { first + 64 ≤ 1024 }
    requires low { low.old ≤ 2 ^ 32 * first }
    requires high { high.old ≤ 2 ^ 32 * first }
    ensures low { low.new ≤ 2 ^ 32 * (first + 64) }
    ensures high { high.new ≤ 2 ^ 32 * (first + 64) }
    ensures value { (rows : List Bool) → AreBits 64 word rows first → AreHalves first rows values.now low.old high.old → AreHalves (first + 64) rows values.now low.new high.new }
{
    for bit in 0..64 {
        let raised = raised_if(is_set(word, bit), values[first + bit]);
        *low += raised & 0xFFFF_FFFF;
        *high += raised >> 32;
    }
}

/// The halves of 32 bits of the values at the rows of a mask, raised by 2 to the power of 63 each: the sum of the low halves, and
/// that of the high ones. If none of 64 rows is in the mask, their values are not looked at.
fn sum_halves(values: &[i64; 1024], rows: &Mask) -> (u64, u64)
    ensures value { pos (result.0 + 2 ^ 32 * result.1) ≡ total (values_at rows.now values.now) +ℤ pos (2 ^ 63 * length (values_at rows.now values.now)) }
{
    let words = rows.words();
    let mut low: u64 = 0;
    let mut high: u64 = 0;
    for index in 0..16 {
        if words[index] != 0 {
            add_halves(values, words[index], 64 * index, &mut low, &mut high);
        }
    }
    (low, high)
}

/// How far a value is above -2^52, modulo 2^64.
#[inline(always)]
fn raised(value: i64) -> u64
    ensures short { result < 2 ^ 53 → IsShort value }
    ensures value { IsShort value → pos result ≡ value +ℤ pos (2 ^ 52) }
{
    raised_if(true, value).wrapping_sub((1 << 63) - (1 << 52))
}

/// Whether the values are short: each is at least -2^52 and below 2^52.
pub fn are_short(values: &[i64; 1024]) -> bool
    ensures short { result ≡ true → AreShort values.now }
    ensures told { AreShort values.now → result ≡ true }
{
    let mut bits: u64 = 0;
    for row in 0..1024 {
        bits |= raised(values[row]);
    }
    bits < 1 << 53
}

/// How far eight short values, from row `first` on, are above -2^52.
#[inline(always)]
fn raised_eight(values: &[i64; 1024], first: usize) -> [u64; 8]
    requires first { first + 8 ≤ 1024 }
    requires short { AreShort values.now }
    ensures value { (lane : ℕ) → lane < 8 → pos (slice_index result lane) ≡ slice_index_or values.now (first + lane) (pos 0) +ℤ pos (2 ^ 52) }
    ensures below { (lane : ℕ) → lane < 8 → slice_index result lane < 2 ^ 53 }
{
    let mut numbers = [0; 8];
    for lane in 0..8 {
        numbers[lane] = raised(values[first + lane]);
    }
    numbers
}

/// Each of the lowest eight bits of a word by itself.
const EIGHT_BITS: [u64; 8] = [1, 2, 4, 8, 16, 32, 64, 128];

/// The lanes whose bit is set, with 0 in place of the others. The bits are compared with a constant, since processors of level
/// x86-64-v2 can shift all lanes only by one number.
#[inline(always)]
fn lanes_if(bits: u64, lanes: Simd<u64, 8>) -> Simd<u64, 8>
    requires { length lanes ≡ 8 }
    ensures long { length result ≡ 8 }
    ensures value { (lane : ℕ) → lane < 8 → slice_index result lane ≡ cond (bit_at bits lane == 1) (slice_index lanes lane) 0 }
{
    let wanted = Simd::from_array(EIGHT_BITS);
    let all = Simd::splat(bits);
    let none = Simd::splat(0);
    let found = all & wanted;
    found.simd_eq(wanted).select(lanes, none)
}

/// Adds to eight sums the short values at eight rows if their bits are set, raised by 2 to the power of 52 each. Bit `b` is row
/// `first + b`.
#[inline(always)]
fn add_eight(values: &[i64; 1024], bits: u64, first: usize, sums: Simd<u64, 8>) -> Simd<u64, 8>
    requires first { first + 8 ≤ 1024 }
    requires short { AreShort values.now }
    requires long { length sums ≡ 8 }
    requires sum { sum_l sums ≤ 2 ^ 53 * first }
    ensures long { length result ≡ 8 }
    ensures sum { sum_l result ≤ 2 ^ 53 * (first + 8) }
    ensures value { (rows : List Bool) → AreBits 8 bits rows first → IsRaised (2 ^ 52) first rows values.now (sum_l sums) → IsRaised (2 ^ 52) (first + 8) rows values.now (sum_l result) }
{
    let raised = Simd::from_array(raised_eight(values, first));
    let taken = lanes_if(bits, raised);
    sums.strict_add(taken)
}

/// Adds to eight sums the short values at the rows of a word, raised by 2 to the power of 52 each. Bit `b` of the word is row
/// `first + b`.
#[inline(always)]
fn add_short(values: &[i64; 1024], word: u64, first: usize, sums: Simd<u64, 8>) -> Simd<u64, 8>
    requires first { first + 64 ≤ 1024 }
    requires short { AreShort values.now }
    requires long { length sums ≡ 8 }
    requires sum { sum_l sums ≤ 2 ^ 53 * first }
    ensures long { length result ≡ 8 }
    ensures sum { sum_l result ≤ 2 ^ 53 * (first + 64) }
    ensures value { (rows : List Bool) → AreBits 64 word rows first → IsRaised (2 ^ 52) first rows values.now (sum_l sums) → IsRaised (2 ^ 52) (first + 64) rows values.now (sum_l result) }
{
    let mut sums = sums;
    for group in 0..8 {
        sums = add_eight(values, word >> (8 * group), first + 8 * group, sums);
    }
    sums
}

/// The sum of the short values at the rows of a mask, raised by 2 to the power of 52 each. If none of 64 rows is in the mask, their
/// values are not looked at.
fn sum_short(values: &[i64; 1024], rows: &Mask) -> u64
    requires { AreShort values.now }
    ensures { pos result ≡ total (values_at rows.now values.now) +ℤ pos (2 ^ 52 * length (values_at rows.now values.now)) }
{
    let words = rows.words();
    let mut sums = Simd::splat(0);
    for index in 0..16 {
        if words[index] != 0 {
            sums = add_short(values, words[index], 64 * index, sums);
        }
    }
    sums.strict_reduce_sum()
}

/// The sum of the values at the rows of a mask, 0 over none. If it isn't known that the values are short, their halves of 32 bits
/// are added separately, so that no sum wraps.
pub fn sum_at(values: &[i64; 1024], short: bool, rows: &Mask) -> i128
    requires { short ≡ true → AreShort values.now }
    ensures { result ≡ total (values_at rows.now values.now) }
{
    let count = count_at(rows) as i128;
    if short {
        return i128::from(sum_short(values, rows)) - count * (1 << 52);
    }
    let (low, high) = sum_halves(values, rows);
    i128::from(low) + i128::from(high) * (1 << 32) - count * (1 << 63)
}

/// The greatest of a number and the representations of the values at the rows of a word. Bit `b` of the word is row `first + b`.
/// There is no branch for a row, so the compiler makes vectors of it.
#[inline(always)]
fn top_in_word(extreme: Extreme, values: &[i64; 1024], word: u64, first: usize, top: i64) -> i64
    requires { first + 64 ≤ 1024 }
    ensures { (rows : List Bool) → AreBits 64 word rows first → top ≡ top_below extreme first rows values.now → result ≡ top_below extreme (first + 64) rows values.now }
{
    let mut top = top;
    for bit in 0..64 {
        let shown = Form::Shown(extreme).at(has_bit(word, bit), values[first + bit]);
        top = top.max(shown);
    }
    top
}

/// The extreme of the values at the rows of a mask, `None` over none. If none of 64 rows is in the mask, their values are not
/// looked at.
pub fn extreme_at(extreme: Extreme, values: &[i64; 1024], rows: &Mask) -> Option<i64>
    ensures { result ≡ extreme_of extreme (values_at rows.now values.now) }
{
    if rows.next_true(0) == 1024 {
        return None;
    }
    let words = rows.words();
    let mut top = i64::MIN;
    for index in 0..16 {
        if words[index] != 0 {
            top = top_in_word(extreme, values, words[index], 64 * index, top);
        }
    }
    Some(extreme.turned(top))
}
