//! The rows of a vector that have a code.
ghost use Rattle.std.specs.Prelude.{◌≡◌, ◌==◌, ◌<◌, ◌≤◌, ◌+◌, ◌&&◌, ℕ, length, slice_index_or};
ghost use Rattle.std.specs.Int.{bit_at};
ghost use Rattle.transpose_order.specs.Mask.{has};

use std::simd::prelude::*;
use transpose_order::Mask;

/// The word whose bit `b` is whether lane `b` is a code.
#[inline(always)]
fn equal_lanes(lanes: Simd<u16, 64>, code: u16) -> u64
    requires { length lanes ≡ 64 }
    ensures { (b : ℕ) → b < 64 → (bit_at result b == 1) ≡ (slice_index_or lanes b 0 == code) }
{
    lanes.simd_eq(Simd::splat(code)).to_bitmask()
}

/// The word whose bit `b` is whether the code of row `first + b` is a given one.
#[inline(always)]
fn coded_word(codes: &[u16; 1024], code: u16, first: usize) -> u64
    requires { first + 64 ≤ 1024 }
    ensures { (b : ℕ) → b < 64 → (bit_at result b == 1) ≡ (slice_index_or codes.now (first + b) 0 == code) }
{
    let lanes = Simd::from_slice(&codes[first..first + 64]);
    equal_lanes(lanes, code)
}

/// The rows of a mask that have a code.
pub fn coded_rows(codes: &[u16; 1024], code: u16, mask: &Mask) -> Mask
    ensures { (n : ℕ) → n < 1024 → has result n ≡ (has mask.now n && (slice_index_or codes.now n 0 == code)) }
{
    let mut words = [0; 16];
    for index in 0..16 {
        words[index] = coded_word(codes, code, 64 * index);
    }
    let coded = Mask::from_words(words);
    mask.and(&coded)
}
