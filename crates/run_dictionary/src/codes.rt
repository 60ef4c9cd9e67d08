//! The distinct values of a vector, and the place of each row's value among them.
ghost use Rattle.std.specs.Prelude.{◌≡◌, ◌↔◌, ℕ, ◌<◌, ◌≤◌, ◌<ℤ◌, ◌≤ℤ◌, true, false, IsTrue, map, take, length, slice_index, slice_index_or, Contains, FitsSigned};
ghost use Rattle.std.specs.Int.{w64};
ghost use Rattle.std.specs.List.{All};
ghost use Rattle.transpose_order.specs.Mask.{rows_of};
ghost use Rattle.bit_interleave.specs.Packing.{sixteen_of};
ghost use Rattle.bit_interleave.specs.Range.{value_at};
ghost use Rattle.run_dictionary.specs.Dict.{distinct, IsAscending, code_of};

use crate::run_words::{count_changes, write_changed};
use bit_interleave::Values;
use std::simd::prelude::*;

/// Twelve bits mixed from those of a value, by which it is kept in a table.
fn mixed(value: i64) -> usize
    ensures { result < 4096 }
{
    (value.cast_unsigned().wrapping_mul(0x9e37_79b9_7f4a_7c15) >> 52) as usize
}

/// Writes the values in their order without most of those that came before, and answers how many are left: a value is left out
/// if it is the last one of its slot, of which there are 1024.
fn write_sights(values: &[i64; 1024], into: &mut [i64; 1024]) -> usize
    ensures some { 0 < result }
    ensures bound { result ≤ 1024 }
    ensures same { distinct (take result into.new) ≡ distinct values.now }
{
    let mut last = [values[0]; 1024];
    into[0] = values[0];
    let mut count = 1;
    for row in 1..1024 {
        let slot = mixed(values[row]) / 4;
        let seen = last[slot] == values[row];
        last[slot] = values[row];
        into[count] = values[row];
        count += usize::from(!seen);
    }
    count
}

/// How many distinct values there are.
pub(crate) fn count_distinct(values: &[i64; 1024]) -> usize
    ensures value { result ≡ length (distinct values.now) }
    ensures bound { result ≤ 1024 }
    ensures some { 0 < result }
{
    let mut sights = [0; 1024];
    let count = write_sights(values, &mut sights);
    let sorted = &mut sights[..count];
    sorted.sort_unstable();
    count_changes(sorted) + 1
}

/// Writes the distinct values in ascending order, and answers how many there are.
pub(crate) fn write_distinct(values: &[i64; 1024], into: &mut [i64; 1024]) -> usize
    ensures bound { result ≤ 1024 }
    ensures written { take result into.new ≡ distinct values.now }
{
    let mut sights = [0; 1024];
    let count = write_sights(values, &mut sights);
    let sorted = &mut sights[..count];
    sorted.sort_unstable();
    write_changed(sorted, into)
}

/// The place of a value in a dictionary that has it.
fn place_of(dictionary: &[i64], value: i64) -> usize
    requires rises { IsAscending dictionary.now }
    requires member { Contains dictionary.now value }
    ensures place { result ≡ code_of dictionary.now value }
    ensures bound { result < length dictionary.now }
{
    match dictionary.binary_search(&value) {
        Ok(place) => place,
        Err(_) => unreachable!(),
    }
}

/// For each mix of bits a guess at the place in the dictionary of the values that have it. A guess need not be right: it is tested.
fn guesses_for(dictionary: &[i64]) -> [u16; 4096]
    requires { length dictionary.now ≤ 1024 }
{
    let mut guesses = [0; 4096];
    for place in 0..dictionary.len() {
        guesses[mixed(dictionary[place])] = place as u16;
    }
    guesses
}

/// The place of a value in a dictionary that has it, looked for at a guess first.
fn place_near(dictionary: &[i64], value: i64, guess: usize) -> usize
    requires rises { IsAscending dictionary.now }
    requires member { Contains dictionary.now value }
    ensures place { result ≡ code_of dictionary.now value }
    ensures bound { result < length dictionary.now }
{
    if guess < dictionary.len() && dictionary[guess] == value {
        return guess;
    }
    place_of(dictionary, value)
}

/// Writes the place of each row's value in a dictionary that has it.
pub(crate) fn write_codes(dictionary: &[i64], values: &[i64; 1024], into: &mut [u64; 1024])
    requires rises { IsAscending dictionary.now }
    requires many { length dictionary.now ≤ 1024 }
    requires members { (n : ℕ) → n < 1024 → Contains dictionary.now (value_at values.now n) }
    ensures codes { into.new ≡ map (code_of dictionary.now) values.now }
    ensures bound { (n : ℕ) → n < 1024 → slice_index into.new n < length dictionary.now }
{
    let guesses = guesses_for(dictionary);
    for row in 0..1024 {
        let guess = guesses[mixed(values[row])];
        into[row] = place_near(dictionary, values[row], guess as usize) as u64;
    }
}

/// Writes the dictionary's value at each row's code.
pub(crate) fn write_values(dictionary: &[i64], codes: &[u64; 1024], into: &mut [i64; 1024])
    requires { (n : ℕ) → n < 1024 → slice_index codes.now n < length dictionary.now }
    ensures { into.new ≡ rows_of (λ n. value_at dictionary.now (slice_index codes.now n)) }
{
    for row in 0..1024 {
        into[row] = dictionary[codes[row] as usize];
    }
}

/// The dictionary's values at sixteen codes.
pub(crate) fn values_at(dictionary: &Values, codes: &[u64; 16]) -> Simd<i64, 16>
    requires { (i : ℕ) → i < 16 → slice_index codes.now i < length dictionary.now.values }
    ensures values { result ≡ sixteen_of (λ i. value_at dictionary.now.values (slice_index codes.now i)) }
    ensures fit { (i : ℕ) → i < 16 → FitsSigned w64 (value_at result i) }
{
    let mut values = [0; 16];
    for i in 0..16 {
        values[i] = dictionary.get(codes[i] as usize);
    }
    Simd::from_array(values)
}

/// The first place of a dictionary whose value is not below a number, or the dictionary's length.
pub(crate) fn first_from(dictionary: &Values, low: i128) -> usize
    requires { IsAscending dictionary.now.values }
    ensures bound { result ≤ length dictionary.now.values }
    ensures before { (k : ℕ) → k < result → value_at dictionary.now.values k <ℤ low }
    ensures from { (k : ℕ) → result ≤ k → k < length dictionary.now.values → low ≤ℤ value_at dictionary.now.values k }
{
    let mut first = 0;
    let mut end = dictionary.len();
    while first < end {
        let middle = first + (end - first) / 2;
        if i128::from(dictionary.get(middle)) < low {
            first = middle + 1;
        } else {
            end = middle;
        }
    }
    first
}

/// Which of the numbers below 1024 are codes of a row.
fn used_codes(codes: &[u64; 1024]) -> [bool; 1024]
    requires { (n : ℕ) → n < 1024 → slice_index codes.now n < 1024 }
    ensures used { (k : ℕ) → k < 1024 → slice_index_or result k false ≡ true → (n : ℕ) × (n < 1024) × (slice_index codes.now n ≡ k) }
    ensures unused { (n : ℕ) → n < 1024 → slice_index_or result (slice_index codes.now n) false ≡ true }
{
    let mut used = [false; 1024];
    for row in 0..1024 {
        used[codes[row] as usize] = true;
    }
    used
}

/// Whether each of 1024 codes is below `count`.
pub(crate) fn are_below(codes: &[u64; 1024], count: usize) -> bool
    ensures { IsTrue result ↔ All (λ code. code < count) codes.now }
{
    codes.iter().all(|code| *code < count as u64)
}

/// Whether each number below `count` is the code of a row.
pub(crate) fn all_used(codes: &[u64; 1024], count: usize) -> bool
    requires below { (n : ℕ) → n < 1024 → slice_index codes.now n < count }
    requires count { count ≤ 1024 }
    ensures { IsTrue result ↔ ((k : ℕ) → k < count → (n : ℕ) × (n < 1024) × (slice_index codes.now n ≡ k)) }
{
    let used = used_codes(codes);
    for k in 0..count {
        if !used[k] {
            return false;
        }
    }
    true
}
