//! Bits of a word.
ghost use Rattle.std.specs.Prelude.{◌≡◌, ◌==◌, ◌<◌};
ghost use Rattle.std.specs.Int.{bit_at};

/// The words with these bits, one each.
macro_rules! words_with {
    ($($bit:literal),*) => {
        [$(1 << $bit),*]
    };
}

/// Each bit of a word by itself.
const BITS: [u64; 64] = words_with![
    0, 1, 2, 3, 4, 5, 6, 7, 8, 9, 10, 11, 12, 13, 14, 15, 16, 17, 18, 19, 20, 21, 22, 23, 24, 25,
    26, 27, 28, 29, 30, 31, 32, 33, 34, 35, 36, 37, 38, 39, 40, 41, 42, 43, 44, 45, 46, 47, 48, 49,
    50, 51, 52, 53, 54, 55, 56, 57, 58, 59, 60, 61, 62, 63
];

/// Whether a bit of a word is 1.
#[inline(always)]
pub fn is_set(word: u64, bit: usize) -> bool
    requires { bit < 64 }
    ensures { result ≡ (bit_at word bit == 1) }
{
    word >> bit & 1 == 1
}

/// Whether a bit of a word is 1. The compiler makes vectors of this if bits follow one another: the word is compared with
/// constants, since processors of level x86-64-v2 can shift all lanes only by one number.
#[inline(always)]
pub fn has_bit(word: u64, bit: usize) -> bool
    requires { bit < 64 }
    ensures { result ≡ (bit_at word bit == 1) }
{
    word & BITS[bit] == BITS[bit]
}
