//! Numbers as bytes, lowest byte first.
ghost use Rattle.std.specs.Prelude.{◌≡◌, ℕ, ◌+◌, ◌*◌, ◌/◌, ◌%◌, ◌^◌, ◌<◌, ◌≤◌, ◌⊎◌, length, slice_index};
ghost use Rattle.std.specs.Int.{bit_at};
ghost use Rattle.transpose_order.specs.Mask.{number_of_bits};
ghost use Rattle.transpose_order.specs.Bytes.{byte_of, bytes_of_bits, bit_of_bytes};

/// Writes the `count` low bytes of a number, at most 8, lowest first, from index `at` on.
#[inline(always)]
pub fn put_number(number: u64, count: usize, bytes: &mut [u8], at: usize)
    requires count { count ≤ 8 }
    requires room { at + count ≤ length bytes.old }
    ensures written { (i : ℕ) → i < count → slice_index bytes.new (at + i) ≡ byte_of (bit_at number) i }
    ensures others { (k : ℕ) → (k < at) ⊎ (at + count ≤ k) → slice_index bytes.new k ≡ slice_index bytes.old k }
{
    for i in 0..count {
        bytes[at + i] = (number >> (8 * i) & 0xFF) as u8;
    }
}

/// The number of the `count` bytes, at most 8, lowest first, from index `at` on.
#[inline(always)]
pub fn number_at(bytes: &[u8], at: usize, count: usize) -> u64
    requires count { count ≤ 8 }
    requires within { at + count ≤ length bytes.now }
    ensures value { result ≡ number_of_bits (8 * count) (λ p. bit_of_bytes bytes.now (8 * at + p)) }
    ensures fits { result < 2 ^ (8 * count) }
{
    let mut number = 0;
    for i in 0..count {
        number |= u64::from(bytes[at + i]) << (8 * i);
    }
    number
}

/// The bytes of a mask's sixteen words: bit `b` of word `j` is bit `64 * j + b` of the bytes.
pub(crate) fn bytes_of_words(words: &[u64; 16]) -> [u8; 128]
    ensures { result ≡ bytes_of_bits 128 (λ b. bit_at (slice_index words.now (b / 64)) (b % 64)) }
{
    let mut bytes = [0; 128];
    for j in 0..16 {
        put_number(words[j], 8, &mut bytes, 8 * j);
    }
    bytes
}

/// The sixteen words of a mask's bytes: bit `b` of word `j` is bit `64 * j + b` of the bytes.
pub(crate) fn words_of_bytes(bytes: &[u8; 128]) -> [u64; 16]
    ensures { (j p : ℕ) → j < 16 → p < 64 → bit_at (slice_index result j) p ≡ bit_of_bytes bytes.now (64 * j + p) }
{
    let mut words = [0; 16];
    for j in 0..16 {
        words[j] = number_at(bytes, 8 * j, 8);
    }
    words
}
