//! Packing at values worked out from the definition. At lane width T row n stands at step n mod T of lane
//! 16 * g + n div 64. Here g is n mod 64 div T with its bits in reverse. Bit b of word w of lane l is bit
//! (w * T + b) mod W of the lane's value at step (w * T + b) div W, and that word has the index w * (1024 / T) + l.
ghost use Rattle.std.specs.Prelude.{◌*◌, ◌/◌, ◌<◌, ◌≤◌, ◌^◌};
ghost use Rattle.std.specs.List.{All};
ghost use Rattle.transpose_order.specs.Place.{IsLaneWidth};

use bit_interleave::{Words, pack, step, unpack};
use std::alloc::Global;
use std::simd::prelude::*;
use std::test::Fail;
use test_support::{agree, agree_at};

/// The greatest number of `width` bits if it is asked for, and else 0.
fn greatest_if(asked: bool, width: usize) -> u64
    requires positive { 0 < width }
    requires width { width ≤ 64 }
    ensures { result < 2 ^ width }
{
    if !asked {
        return 0;
    }
    u64::MAX >> (64 - width)
}

/// The vector that is 0 but for the greatest number of `width` bits at one row.
fn greatest_at(width: usize, row: usize) -> [u64; 1024]
    requires positive { 0 < width }
    requires width { width ≤ 64 }
    ensures { All (λ v. v < 2 ^ width) result }
{
    let mut values = [0; 1024];
    for n in 0..1024 {
        values[n] = greatest_if(n == row, width);
    }
    values
}

/// The vector that holds n at row n.
fn counting() -> [u64; 1024]
    ensures { All (λ v. v < 2 ^ 64) result }
{
    let mut values = [0; 1024];
    for n in 0..1024 {
        values[n] = n as u64;
    }
    values
}

/// The words have these numbers, followed by zeros alone.
fn have_numbers(words: &Words, numbers: &[u64; 1024]) -> Result<(), Fail> {
    for i in 0..1024 {
        if i < words.len() {
            agree_at(format_args!("word {i}"), words.word(i), numbers[i])?;
        } else {
            agree_at(format_args!("no word {i}"), numbers[i], 0)?;
        }
    }
    Ok(())
}

/// The words of a vector with one row that isn't 0 are 0 but for those at the places `low` and `high`.
fn stands_at(
    alloc: Global,
    lane_width: usize,
    width: usize,
    row: usize,
    low: (usize, u64),
    high: (usize, u64),
) -> Result<(), Fail>
    requires lane_width { IsLaneWidth lane_width }
    requires positive { 0 < width }
    requires width { width ≤ lane_width }
    requires low { low.0 < 1024 }
    requires high { high.0 < 1024 }
{
    let words = Words::pack(alloc, lane_width, width, &greatest_at(width, row))?;
    agree(words.len(), width * (1024 / lane_width))?;
    let mut expected = [0; 1024];
    expected[low.0] = low.1;
    expected[high.0] = high.1;
    have_numbers(&words, &expected)
}

// The row's lane and step: row 8 at 8 bits is lane 64, step 0, and row 17 at 16 bits lane 32, step 1.
#[test]
fn a_row_stands_in_the_words_of_its_lane(rt: HostRuntime) -> Result<(), Fail> {
    let alloc = rt.alloc();
    stands_at(alloc, 8, 1, 8, (64, 1), (64, 1))?;
    stands_at(alloc, 8, 7, 9, (64, 128), (192, 63))?;
    stands_at(alloc, 8, 8, 9, (192, 255), (192, 255))?;
    stands_at(alloc, 16, 1, 16, (32, 1), (32, 1))?;
    stands_at(alloc, 16, 3, 5, (0, 32768), (64, 3))?;
    stands_at(alloc, 16, 15, 17, (32, 32768), (96, 16383))?;
    stands_at(alloc, 16, 16, 17, (96, 65535), (96, 65535))
}

/// The words of the vector that holds n at row n, packed at the literal width 64.
fn counting_packed() -> [u64; 1024] {
    let mut words = [0; 1024];
    pack::<u64, 64>(&counting(), &mut words);
    words
}

// Row n is lane n / 64, step n % 64, and each value is one word: word w of lane l has index 16 * w + l.
#[test]
fn a_literal_width_packs_each_value_in_its_lane() -> Result<(), Fail> {
    let words = counting_packed();
    agree((words[1], words[16], words[17]), (64, 1, 65))?;
    agree(
        step::<u64, 64>(&words, 0, 63).to_array(),
        [
            63, 127, 191, 255, 319, 383, 447, 511, 575, 639, 703, 767, 831, 895, 959, 1023,
        ],
    )
}

#[test]
fn width_zero_has_no_words_and_the_value_zero() -> Result<(), Fail> {
    let mut words = [0u8; 0];
    pack::<u8, 0>(&[0; 1024], &mut words);
    let mut values = [1u8; 1024];
    unpack::<u8, 0>(&words, &mut values);
    agree(values.as_slice(), [0; 1024].as_slice())
}
