//! The four types of word that the lanes of a packed vector are made of.
ghost use Rattle.std.specs.Prelude.{◌≡◌, ℕ, ◌+◌, ◌-◌, ◌*◌, ◌/◌, ◌%◌, ◌<◌, ◌≤◌, ◌^◌, map, length, bit_or};
ghost use Rattle.std.specs.Simd.Lanes.{Each1, zip2, chunk};
ghost use Rattle.transpose_order.specs.Place.{IsLaneWidth};

use std::simd::prelude::*;

/// A word of a lane: one of the unsigned integers of 8, 16, 32 and 64 bits. A vector has `1024 / BITS` lanes of them.
pub trait LaneWord: Copy {
    ghost BITS: { ℕ };

    /// How many bits the word has, which is the lane width: 8, 16, 32 or 64.
    const BITS: usize;

    ghost number: { Self → ℕ };

    /// The number that the word is, below two to the power of `BITS`.
    fn to_u64(self) -> u64
        ensures kept { result ≡ number self }
        ensures fits { result < 2 ^ BITS };

    /// The word that is this number, which is below two to the power of `BITS`.
    fn from_u64(n: u64) -> Self
        requires { n < 2 ^ BITS }
        ensures { number result ≡ n };

    /// Of each of the sixteen words from index `at` on, the number of the `width` bits from bit `shift` on, which are the word's
    /// own. It is made at the words' own type, and then widened.
    fn within(words: &[Self], at: usize, shift: usize, width: usize) -> Simd<u64, 16>
        requires at { at + 16 ≤ length words.now }
        requires positive { 0 < width }
        requires inside { shift + width ≤ BITS }
        ensures { result ≡ map (λ x. x / 2 ^ shift % 2 ^ width) (map number (chunk at 16 words.now)) };

    /// Of each of the sixteen words from index `at` on, the number of the `width` bits from bit `shift` on, of which the word has
    /// the lowest `BITS - shift`, and one of the sixteen words from index `next` on those above them. It is made at the words'
    /// own type, and then widened.
    fn across(words: &[Self], at: usize, next: usize, shift: usize, width: usize) -> Simd<u64, 16>
        requires at { at + 16 ≤ length words.now }
        requires next { next + 16 ≤ length words.now }
        requires positive { 0 < width }
        requires width { width ≤ BITS }
        requires some { 0 < shift }
        requires shift { shift < BITS }
        ensures numbers { result ≡ zip2 (λ x y. bit_or (x / 2 ^ shift) (y * 2 ^ (BITS - shift) % 2 ^ BITS) % 2 ^ width) (map number (chunk at 16 words.now)) (map number (chunk next 16 words.now)) }
        ensures fit { Each1 (λ n. n < 2 ^ BITS) (map number (chunk at 16 words.now)) };

    ghost is_lane_width: { IsLaneWidth BITS };

    ghost is_determined: { (x y : Self) → number x ≡ number y → x ≡ y };
}

impl LaneWord for u8 {
    ghost use Rattle.std.proofs.Common.{inl, inr, refl};

    const BITS: usize = 8;

    ghost BITS = { 8 };

    ghost number = { λ n. n };

    ghost is_lane_width = { inl refl };

    ghost is_determined = { λ _ _ same. same };

    fn to_u64(self) -> u64 {
        u64::from(self)
    }

    fn from_u64(n: u64) -> Self {
        n as u8
    }

    fn within(words: &[Self], at: usize, shift: usize, width: usize) -> Simd<u64, 16> {
        let mask = u8x16::splat((u64::MAX >> (64 - width)) as u8);
        let low = u8x16::from_slice(&words[at..]);
        (low >> u8x16::splat(shift as u8) & mask).cast::<u64>()
    }

    fn across(words: &[Self], at: usize, next: usize, shift: usize, width: usize) -> Simd<u64, 16> {
        let mask = u8x16::splat((u64::MAX >> (64 - width)) as u8);
        let low = u8x16::from_slice(&words[at..]) >> u8x16::splat(shift as u8);
        let high = u8x16::from_slice(&words[next..]) << u8x16::splat((8 - shift) as u8);
        ((low | high) & mask).cast::<u64>()
    }
}

impl LaneWord for u16 {
    ghost use Rattle.std.proofs.Common.{inl, inr, refl};

    const BITS: usize = 16;

    ghost BITS = { 16 };

    ghost number = { λ n. n };

    ghost is_lane_width = { inr (inl refl) };

    ghost is_determined = { λ _ _ same. same };

    fn to_u64(self) -> u64 {
        u64::from(self)
    }

    fn from_u64(n: u64) -> Self {
        n as u16
    }

    fn within(words: &[Self], at: usize, shift: usize, width: usize) -> Simd<u64, 16> {
        let mask = u16x16::splat((u64::MAX >> (64 - width)) as u16);
        let low = u16x16::from_slice(&words[at..]);
        (low >> u16x16::splat(shift as u16) & mask).cast::<u64>()
    }

    fn across(words: &[Self], at: usize, next: usize, shift: usize, width: usize) -> Simd<u64, 16> {
        let mask = u16x16::splat((u64::MAX >> (64 - width)) as u16);
        let low = u16x16::from_slice(&words[at..]) >> u16x16::splat(shift as u16);
        let high = u16x16::from_slice(&words[next..]) << u16x16::splat((16 - shift) as u16);
        ((low | high) & mask).cast::<u64>()
    }
}

impl LaneWord for u32 {
    ghost use Rattle.std.proofs.Common.{inl, inr, refl};

    const BITS: usize = 32;

    ghost BITS = { 32 };

    ghost number = { λ n. n };

    ghost is_lane_width = { inr (inr (inl refl)) };

    ghost is_determined = { λ _ _ same. same };

    fn to_u64(self) -> u64 {
        u64::from(self)
    }

    fn from_u64(n: u64) -> Self {
        n as u32
    }

    fn within(words: &[Self], at: usize, shift: usize, width: usize) -> Simd<u64, 16> {
        let mask = u32x16::splat((u64::MAX >> (64 - width)) as u32);
        let low = u32x16::from_slice(&words[at..]);
        (low >> u32x16::splat(shift as u32) & mask).cast::<u64>()
    }

    fn across(words: &[Self], at: usize, next: usize, shift: usize, width: usize) -> Simd<u64, 16> {
        let mask = u32x16::splat((u64::MAX >> (64 - width)) as u32);
        let low = u32x16::from_slice(&words[at..]) >> u32x16::splat(shift as u32);
        let high = u32x16::from_slice(&words[next..]) << u32x16::splat((32 - shift) as u32);
        ((low | high) & mask).cast::<u64>()
    }
}

impl LaneWord for u64 {
    ghost use Rattle.std.proofs.Common.{inl, inr, refl};

    const BITS: usize = 64;

    ghost BITS = { 64 };

    ghost number = { λ n. n };

    ghost is_lane_width = { inr (inr (inr refl)) };

    ghost is_determined = { λ _ _ same. same };

    fn to_u64(self) -> u64 {
        self
    }

    fn from_u64(n: u64) -> Self {
        n
    }

    fn within(words: &[Self], at: usize, shift: usize, width: usize) -> Simd<u64, 16> {
        let mask = u64x16::splat(u64::MAX >> (64 - width));
        let low = u64x16::from_slice(&words[at..]);
        low >> u64x16::splat(shift as u64) & mask
    }

    fn across(words: &[Self], at: usize, next: usize, shift: usize, width: usize) -> Simd<u64, 16> {
        let mask = u64x16::splat(u64::MAX >> (64 - width));
        let low = u64x16::from_slice(&words[at..]) >> u64x16::splat(shift as u64);
        let high = u64x16::from_slice(&words[next..]) << u64x16::splat((64 - shift) as u64);
        (low | high) & mask
    }
}
