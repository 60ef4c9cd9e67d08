//! Words as bytes, one word after another, each lowest byte first.
ghost use Rattle.std.specs.Prelude.{◌≡◌, ℕ, ◌+◌, ◌*◌, ◌/◌, ◌%◌, ◌<◌, ◌≤◌, ◌^◌, map, length, slice_range, IfOk};
ghost use Rattle.std.specs.List.{All, range_with_len};
ghost use Rattle.bit_interleave.specs.PackedBytes.{bytes_of, word_of_bytes, words_of_bytes};

use crate::lane_word::LaneWord;
use std::alloc::{AllocError, Global};
use transpose_order::{number_at, put_number};

/// Writes 128 of the words' bytes, from byte `128 * block` on.
pub(crate) fn put_words<U: LaneWord>(words: &[U], block: usize, bytes: &mut [u8; 128])
    requires { 128 * block + 128 ≤ length (bytes_of (record { lane_width = U.BITS; numbers = map U.number words.now })) }
    ensures { bytes.new
        ≡ slice_range (bytes_of (record { lane_width = U.BITS; numbers = map U.number words.now })) (128 * block) (128 * block + 128) }
{
    let bits = U::BITS;
    let count = 1024 / bits;
    let first = block * count;
    let size = bits / 8;
    for i in 0..count {
        put_number(words[first + i].to_u64(), size, bytes, size * i);
    }
}

/// Makes words those that bytes are, of which there are as many as the words take.
fn read_into<U: LaneWord>(bytes: &[u8], words: &mut [U])
    requires { length words.old ≡ length bytes.now / (U.BITS / 8) }
    ensures { map U.number words.new ≡ map (word_of_bytes U.BITS bytes.now) (range_with_len 0 (length words.old)) }
{
    let size = U::BITS / 8;
    for i in 0..words.len() {
        words[i] = U::from_u64(number_at(bytes, size * i, size));
    }
}

/// The words that bytes are, or AllocError if memory is refused. The bytes are a whole number of words.
pub(crate) fn words_of<U: LaneWord>(alloc: Global, bytes: &[u8]) -> Result<Vec<U>, AllocError>
    requires { length bytes.now % (U.BITS / 8) ≡ 0 }
    ensures value { IfOk result (λ words. record { lane_width = U.BITS; numbers = map U.number words.items } ≡ words_of_bytes U.BITS bytes.now) }
    ensures back { IfOk result (λ words. bytes_of (record { lane_width = U.BITS; numbers = map U.number words.items }) ≡ bytes.now) }
    ensures fit { IfOk result (λ words. All (λ n. n < 2 ^ U.BITS) (map U.number words.items)) }
{
    let count = bytes.len() / (U::BITS / 8);
    let mut words = vec![in alloc; U::from_u64(0); count]?;
    read_into(bytes, words.as_mut_slice());
    Ok(words)
}
