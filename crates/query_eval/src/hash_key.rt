//! The secret key of the hashes by which the places of groups, and the values under DISTINCT, are found.
ghost use Rattle.std.specs.Prelude.{◌≡◌};
ghost use Rattle.query_eval.specs.HashKey.{folded, key_of_words, keyed_finish, keyed_write, keyed_hasher};

use std::hash::{BuildHasher, FoldHasher, Hasher};

/// The key of hashes: two words. No answer depends on it.
///
/// Whoever chooses the values of a table and knows the key can choose them so that their hashes collide, and then a query that
/// groups by them takes time in proportion to the square of the number of groups. So the key has to be drawn at random, and kept
/// from those who choose values.
#[derive(Clone, Copy)]
pub struct HashKey {
    start: FoldHasher,
    factor: u64,
}

/// Hashes by the library's fold, which begins with the first word of a key. The second word multiplies what comes of it.
#[derive(Clone, Copy)]
pub struct KeyedHasher {
    folding: FoldHasher,
    factor: u64,
}

/// The product of two words: its lower half xor its upper half.
#[inline]
fn folded_product(a: u64, b: u64) -> u64
    ensures { result ≡ folded a b }
{
    let product = a as u128 * b as u128;
    (product & 0xFFFF_FFFF_FFFF_FFFF) as u64 ^ (product >> 64) as u64
}

impl HashKey {
    /// The key of two words, which are drawn at random.
    pub fn new(first: u64, second: u64) -> HashKey
        ensures { result ≡ key_of_words first second }
    {
        let mut start = FoldHasher::default();
        start.write_u64(first);
        HashKey {
            start,
            factor: second | 1,
        }
    }

    /// The key that is the same in each process, for tables whose values are trusted.
    pub fn fixed() -> HashKey
        ensures { result ≡ key_of_words 0 0x9e37_79b9_7f4a_7c15 }
    {
        HashKey::new(0, 0x9e37_79b9_7f4a_7c15)
    }
}

impl BuildHasher for HashKey {
    type Hasher = KeyedHasher;

    ghost build_hasher = { keyed_hasher };

    #[inline]
    fn build_hasher(&self) -> KeyedHasher {
        KeyedHasher {
            folding: self.start,
            factor: self.factor,
        }
    }
}

impl Hasher for KeyedHasher {
    ghost write = { keyed_write };

    ghost finish = { keyed_finish };

    #[inline]
    fn finish(&self) -> u64 {
        folded_product(self.folding.finish(), self.factor)
    }

    #[inline]
    fn write(&mut self, bytes: &[u8]) {
        self.folding.write(bytes);
    }
}
